//! Transactions whose undo logs fill up.

ghost use Rattle.outcomes.specs.Searches.{IsSearch};

use super::encode::{T1, T2, li};
use super::ends::{End, ends_found};
use super::searches::{searched, witness_of};
use crate::tests::claims::{equal, holds, holds_at};
use outcomes::Outcomes;
use std::process::Abort;
use std::test::Fail;
use words::{AbortCause, Entry, HartId, Status};

/// Transactions, each of which adds 1 to the word at 0 many times, each time in a transaction within it. The hart exits with 1, or with 2 after an abort.
#[rattlefmt::skip]
const ADDS: [u32; 17] = [
    0x05d0_0893, // li a7, 93
    0x0010_0293, // li t0, 1
    0x0000_0393, // li t2, 0: how many transactions
    0x0000_0313, // li t1, 0: how many times
    0x0200_060b, // tbegin 44
    0x0000_000b, // tbegin 0
    0x0050_202f, // amoadd.w zero, t0, (zero)
    0x0000_100b, // tcommit
    0xfff3_0313, // addi t1, t1, -1
    0xfe03_18e3, // bnez t1, -16
    0x0000_100b, // tcommit
    0xfff3_8393, // addi t2, t2, -1
    0xfc03_9ee3, // bnez t2, -36
    0x0010_0513, // li a0, 1
    0x0000_0073, // ecall
    0x0020_0513, // li a0, 2
    0x0000_0073, // ecall
];

/// The program of so many transactions, which add so many times.
fn adds(transactions: u32, times: u32) -> [u32; 17] {
    let mut text = ADDS;
    text[2] = li(T2, transactions);
    text[3] = li(T1, times);
    text
}

/// Whether the hart's transaction was aborted for a full log in a run to a state.
fn is_filled(entries: &[Entry]) -> bool {
    let full = Entry::Abort {
        hart: HartId::new(0),
        cause: AbortCause::LogFull,
    };
    entries.contains(&full)
}

/// Whether an end is the exit with a value, after which the word at 0 is this one.
fn is_exit(end: &End, value: u32, word: u32) -> bool {
    end.0 == Status::Exited(value) && end.3 == [Some(word), Some(0), Some(0), Some(0)]
}

/// That there are as many ends as are wanted, and each of these.
fn check_ends(rt: &impl Abort, ends: &[End], wanted: &[(u32, u32)]) {
    equal(rt, &ends.len(), &wanted.len());
    for (value, word) in wanted {
        let found = ends.iter().any(|end| is_exit(end, *value, *word));
        holds_at(rt, found, &(*value, *word));
    }
}

/// That the run to an end has a full log if and only if it exits with 2.
fn check_witness(
    rt: &(impl Abort + AllocGlobal),
    outcomes: &Outcomes,
    place: usize,
    status: Status,
) -> Result<(), Fail>
    requires { IsSearch outcomes.now }
{
    let entries = witness_of(rt.alloc(), outcomes, place)?.ok_or("no witness")?;
    equal(rt, &is_filled(&entries), &(status == Status::Exited(2)));
    Ok(())
}

/// The same of each end.
fn check_witnesses(
    rt: &(impl Abort + AllocGlobal),
    outcomes: &Outcomes,
    ends: &[End],
) -> Result<(), Fail>
    requires { IsSearch outcomes.now }
{
    let places = outcomes.ends(rt.alloc())?;
    for (place, end) in places.iter().zip(ends) {
        check_witness(rt, outcomes, *place, end.0)?;
    }
    Ok(())
}

/// The exit values and the words at 0 of the ends that a search found, and that each is witnessed.
fn check_all(
    rt: &(impl Abort + AllocGlobal),
    outcomes: &Outcomes,
    wanted: &[(u32, u32)],
) -> Result<(), Fail>
    requires { IsSearch outcomes.now }
{
    holds(rt, outcomes.is_all);
    let ends = ends_found(rt.alloc(), outcomes)?;
    check_ends(rt, &ends, wanted);
    check_witnesses(rt, outcomes, &ends)
}

/// The same of so many transactions.
fn check_adds(
    rt: &(impl Abort + AllocGlobal),
    (transactions, times): (u32, u32),
    wanted: &[(u32, u32)],
) -> Result<(), Fail> {
    let outcomes = searched(rt.alloc(), &adds(transactions, times), 1, 20_000)?;
    check_all(rt, &outcomes, wanted)
}

/// So many transactions of so many additions, and their ends: the exit value and the word at 0. A log has 113 records, and is empty again when the next
/// transaction begins.
static CASES: [((u32, u32), &[(u32, u32)]); 6] = [
    ((1, 112), &[(1, 112)]),
    ((1, 113), &[(1, 113)]),
    ((1, 114), &[(1, 114), (2, 0)]),
    ((1, 200), &[(1, 200), (2, 0)]),
    ((2, 113), &[(1, 226)]),
    ((2, 114), &[(1, 228), (2, 114), (2, 0)]),
];

#[test]
fn a_full_log_may_abort(rt: HostRuntime) -> Result<(), Fail> {
    for (counts, wanted) in &CASES {
        check_adds(&rt, *counts, wanted)?;
    }
    Ok(())
}
