//! Boards whose harts take turns, and how many each has had.

ghost use Rattle.std.specs.Prelude.{◌≤◌};

use super::gates::Runs;
use super::play::{SIZE, TEN, one, zero};
use crate::tests::claims::{equal, holds};
use board::{Code, Desk, Served, Unkept, serve};
use loader::Program;
use reference::program;
use std::process::Abort;
use std::sync::{Mutex, Wait};
use std::test::Fail;
use std::thread::Threads;

type Plain<'p> = Served<'p, 2, 1, Unkept>;

/// The board of a program for two harts.
fn booted<'p>(rt: &(impl Abort + AllocGlobal), program: &'p Program) -> Plain<'p> {
    Served::boot(rt.alloc(), Code::new(program), 2, SIZE, Unkept).expect(rt, "memory")
}

/// The same, after so many of the harts had so many turns, on loan for so many steps.
fn served<'p, R: Threads + Wait + Abort + AllocGlobal + Sync>(
    rt: &R,
    program: &'p Program,
    harts: usize,
    most: usize,
    turns: u64,
) -> Plain<'p>
    requires { harts ≤ 8 }
{
    let desk = Mutex::new(booted(rt, program));
    serve::<Plain<'p>, Runs, R>(rt, &desk, harts, &Runs { most }, turns).expect(rt, "memory");
    desk.into_inner()
}

#[test]
fn turns_are_counted(rt: HostRuntime) -> Result<(), Fail> {
    let program = program(rt.alloc(), &TEN)?;
    let running = served(&rt, &program, 2, 0, 5);
    holds(&rt, running.is_done(5));
    holds(&rt, !running.is_done(4));
    holds(&rt, !running.is_done(6));
    let ended = served(&rt, &program, 2, 64, 9);
    holds(&rt, ended.is_done(9));
    holds(&rt, ended.is_done(1));
    holds(&rt, !ended.is_done(0));
    Ok(())
}

#[test]
fn a_hart_with_turns_left_is_seen(rt: HostRuntime) -> Result<(), Fail> {
    let program = program(rt.alloc(), &TEN)?;
    holds(&rt, booted(&rt, &program).is_done(0));
    holds(&rt, !booted(&rt, &program).is_done(1));
    holds(&rt, !served(&rt, &program, 1, 0, 5).is_done(5));
    holds(&rt, !served(&rt, &program, 1, 64, 5).is_done(5));
    Ok(())
}

#[test]
fn what_is_no_turn_is_seen(rt: HostRuntime) -> Result<(), Fail> {
    let program = program(rt.alloc(), &TEN)?;
    let mut visited = booted(&rt, &program);
    equal(&rt, &visited.visit(zero()), &Ok(true));
    holds(&rt, !visited.is_done(0));
    let mut settled = booted(&rt, &program);
    let mut lease = settled.lend(zero()).expect(&rt, "hart 0 runs");
    lease.run(1);
    holds(&rt, settled.settle(&lease).is_ok());
    holds(&rt, !settled.is_done(0));
    let mut turned = booted(&rt, &program);
    let mut others = turned.lend(one()).expect(&rt, "hart 1 runs");
    equal(
        &rt,
        &turned.finish_turn(zero(), &mut others, true),
        &Ok(true),
    );
    holds(&rt, !turned.is_done(1));
    Ok(())
}
