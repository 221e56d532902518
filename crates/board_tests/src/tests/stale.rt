//! A lease whose hart has changed while it was out, and one of another program.

use super::play::{Small, booted, check_again, make, one, zero};
use crate::tests::claims::{equal, holds};
use board::{Lease, Refusal, is_hart};
use loader::Program;
use reference::{COMMITS, program};
use std::process::Abort;
use std::test::Fail;
use words::{HartId, Step};

/// Reads the word at 0x2000, adds 1, and writes it.
#[rattlefmt::skip]
const READS_AND_WRITES: [u32; 4] = [
    0x0000_24b7, // lui s1, 0x2
    0x0004_a283, // lw t0, 0(s1)
    0x0012_8293, // addi t0, t0, 1
    0x0054_a023, // sw t0, 0(s1)
];

/// So many messages arrive, the oldest first, or fewer if there are no more.
fn deliver<'p>(rt: &impl Abort, board: &mut Small<'p>, most: usize) {
    for _ in 0..most {
        let Some(oldest) = board.machine().next_from(0) else {
            return;
        };
        let number = oldest.number;
        make(rt, board, Step::Deliver(number as usize));
    }
}

/// A hart reads the word.
fn read<'p>(rt: &impl Abort, board: &mut Small<'p>, hart: HartId) {
    make(rt, board, Step::Core(hart));
    make(rt, board, Step::Core(hart));
    deliver(rt, board, 9);
    make(rt, board, Step::Core(hart));
}

fn lent<'p>(rt: &impl Abort, board: &Small<'p>) -> Lease<'p, 2, 1> {
    board.lend(zero()).expect(rt, "hart 0 runs")
}

/// What refuses a lease.
fn refusal<'p>(board: &mut Small<'p>, lease: &Lease<'p, 2, 1>) -> Option<Refusal> {
    board.settle(lease).err()
}

/// Hart 1 asks for the block to write it, and then so many messages arrive.
fn ask<'p>(rt: &impl Abort, board: &mut Small<'p>, messages: usize) {
    make(rt, board, Step::Core(one()));
    make(rt, board, Step::Core(one()));
    deliver(rt, board, messages);
}

/// Asserts what refuses the lease once its hart has added. One that is settled makes a step more.
fn check_refusal<'p>(
    rt: &impl Abort,
    board: &mut Small<'p>,
    lease: &mut Lease<'p, 2, 1>,
    want: Option<Refusal>,
) {
    let made = board.history().len();
    equal(rt, &lease.run(64), &1);
    equal(rt, &refusal(board, lease), &want);
    let more = if want.is_none() { 1 } else { 0 };
    equal(rt, &board.history().len(), &(made + more));
}

/// Both harts hold the block to read it. Hart 0 is lent, and adds; hart 1 asks for the block to write it; then so many messages arrive, the first of
/// which is that request, and the others what the directory sends for it. What refuses the lease then?
fn play<'p>(rt: &impl Abort, board: &mut Small<'p>, messages: usize, want: Option<Refusal>) {
    read(rt, board, zero());
    read(rt, board, one());
    let mut lease = lent(rt, board);
    ask(rt, board, messages);
    check_refusal(rt, board, &mut lease, want);
}

/// Where a lease is refused, nothing more was made, and the machine is still what the history makes of it.
fn refusal_after(
    rt: &(impl Abort + AllocGlobal),
    messages: usize,
    want: Option<Refusal>,
) -> Result<(), Fail> {
    let program = program(rt.alloc(), &READS_AND_WRITES)?;
    let mut board = booted(rt, &program, 2);
    play(rt, &mut board, messages, want);
    check_again(rt, &board.finish());
    Ok(())
}

#[test]
fn a_lease_is_stale_once_its_hart_has_changed(rt: HostRuntime) -> Result<(), Fail> {
    refusal_after(&rt, 0, None)?;
    refusal_after(&rt, 1, None)?;
    refusal_after(&rt, 9, Some(Refusal::Stale))
}

/// Asserts that a lease of the one board is stale for the other, on which nothing is made.
fn check_strange<'p>(rt: &impl Abort, board: &Small<'p>, others: &mut Small<'p>) {
    holds(rt, are_alike(board, others));
    let lease = lent(rt, board);
    equal(rt, &refusal(others, &lease), &Some(Refusal::Stale));
    holds(rt, others.history().is_empty());
}

/// That a lease of the one program's board is stale for the other's.
fn check_stale<'p>(rt: &(impl Abort + AllocGlobal), first: &'p Program, other: &'p Program) {
    let board = booted(rt, first, 1);
    let mut others = booted(rt, other, 1);
    check_strange(rt, &board, &mut others);
}

/// Whether hart 0 is the same on both boards, in all that it keeps.
fn are_alike<'p>(board: &Small<'p>, other: &Small<'p>) -> bool {
    match board.machine().hart(zero()) {
        Some(hart) => is_hart(other.machine(), zero(), hart),
        None => false,
    }
}

#[test]
fn a_lease_of_another_program_is_stale(rt: HostRuntime) -> Result<(), Fail> {
    let first = program(rt.alloc(), &READS_AND_WRITES)?;
    let other = program(rt.alloc(), &COMMITS)?;
    check_stale(&rt, &first, &other);
    Ok(())
}
