//! Harts that are lent again, in place of a lease that isn't needed any more.

use super::play::{Small, TEN, booted, check_again, make, one, zero};
use crate::tests::claims::{equal, holds};
use board::Lease;
use loader::Program;
use reference::program;
use std::process::Abort;
use std::test::Fail;
use words::{HartId, Step};

/// Hart 1 makes so many steps of its own.
fn core_steps<'p>(rt: &impl Abort, board: &mut Small<'p>, steps: u32) {
    for _ in 0..steps {
        make(rt, board, Step::Core(one()));
    }
}

/// Asserts that a lease of hart 0 with three steps doesn't become one of a hart that doesn't run, and settles.
fn check_stays<'p>(rt: &impl Abort, board: &mut Small<'p>, lease: &mut Lease<'p, 2, 1>) {
    equal(rt, &lease.run(3), &3);
    for id in [one(), HartId::new(2)] {
        holds(rt, !board.lend_again(id, lease));
        check_lease(rt, lease, zero(), 3);
    }
    holds(rt, board.settle(lease).is_ok());
}

fn check_lease(rt: &impl Abort, lease: &Lease<'_, 2, 1>, hart: HartId, steps: usize) {
    equal(rt, &(lease.hart(), lease.len()), &(hart, steps));
    equal(rt, &lease.is_empty(), &(steps == 0));
}

/// Lends hart 0, whose lease stays its own.
fn lend_to_stay<'p>(rt: &impl Abort, board: &mut Small<'p>) {
    let mut lease = board.lend(zero()).expect(rt, "hart 0 runs");
    check_stays(rt, board, &mut lease);
    equal(rt, &board.history().len(), &16);
}

/// Asserts that a lease stays where the other hart of a program has stopped.
fn check_stopped(rt: &(impl Abort + AllocGlobal), program: &Program) {
    let mut board = booted(rt, program, 2);
    core_steps(rt, &mut board, 13);
    lend_to_stay(rt, &mut board);
    check_again(rt, &board.finish());
}

#[test]
fn a_lease_stays_where_the_hart_does_not_run(rt: HostRuntime) -> Result<(), Fail> {
    let program = program(rt.alloc(), &TEN)?;
    check_stopped(&rt, &program);
    Ok(())
}

/// Asserts that a lease of hart 0 with three steps becomes one of hart 1 with none, which runs to its end and settles.
fn check_serves_again<'p>(rt: &impl Abort, board: &mut Small<'p>, lease: &mut Lease<'p, 2, 1>) {
    equal(rt, &lease.run(3), &3);
    holds(rt, board.lend_again(one(), lease));
    check_lease(rt, lease, one(), 0);
    equal(rt, &lease.run(64), &12);
    holds(rt, board.settle(lease).is_ok());
}

/// Lends hart 0, whose lease then serves hart 1.
fn lend_to_serve<'p>(rt: &impl Abort, board: &mut Small<'p>) {
    let mut lease = board.lend(zero()).expect(rt, "hart 0 runs");
    check_serves_again(rt, board, &mut lease);
    equal(rt, &board.history().len(), &12);
}

/// Asserts that a lease of one hart of a program serves the other.
fn check_running(rt: &(impl Abort + AllocGlobal), program: &Program) {
    let mut board = booted(rt, program, 2);
    lend_to_serve(rt, &mut board);
    check_again(rt, &board.finish());
}

#[test]
fn a_lease_serves_again(rt: HostRuntime) -> Result<(), Fail> {
    let program = program(rt.alloc(), &TEN)?;
    check_running(&rt, &program);
    Ok(())
}
