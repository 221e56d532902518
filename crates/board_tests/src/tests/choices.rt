//! Harts in threads over a board that keeps choices or nothing, and its choices, played again.

use super::gates::Runs;
use super::play::{SIZE, WAITS, begun_again, check_same};
use crate::tests::claims::{equal, equal_items, holds};
use board::{Board, Code, End, Finished, Lease, Refusal, Unkept, Untraced, serve};
use loader::Program;
use machine::{Machine, Silent};
use reference::program;
use schedule::{Choice, History, Turns, put_history, read};
use std::alloc::{AllocError, Global};
use std::process::Abort;
use std::str;
use std::sync::{Mutex, Wait};
use std::test::Fail;
use std::thread::Threads;
use table::DecodedText;
use words::{Addr, HartId, Taken};

/// The most turns of a hart. One whose thread the host holds up keeps the others waiting, and each of their tries is a turn.
const TURNS: u64 = 2_000_000;

/// More steps than a history here has.
const STEPS: usize = 1_000_000_000;

type Kept<'p> = Board<'p, 2, 1, History>;

type Plain<'p> = Board<'p, 2, 1, Unkept>;

type Counted<'p> = Lease<'p, 2, 1, Untraced>;

/// Runs each lease as far as it goes.
const WHOLE: Runs = Runs { most: 64 };

/// The choices that some lines spell.
fn choices_in(alloc: Global, lines: &[u8]) -> Result<Vec<Choice>, Fail> {
    Ok(read(alloc, str::from_utf8(lines)?)?)
}

/// The choices that the lines of what was noted spell.
fn choices_of(rt: &(impl Abort + AllocGlobal), history: &History) -> Result<Vec<Choice>, Fail> {
    let mut sink = Taken {
        bytes: Vec::new(rt.alloc()),
        failed: 0,
    };
    holds(rt, put_history(&mut sink, history).is_ok());
    choices_in(rt.alloc(), &sink.bytes)
}

/// Makes the steps that are chosen.
fn play(machine: &mut Machine<2, 1>, choices: &[Choice]) -> Result<(), AllocError> {
    let steps = choices.len().min(STEPS) as u32;
    schedule::play(machine, choices, steps, &mut Turns, &mut Silent)
}

/// That these choices, made from the start, lead to the same registers and memory.
fn check_played(
    rt: &(impl Abort + AllocGlobal),
    end: &Finished<'_, 2, 1, History>,
    choices: &[Choice],
) {
    let mut machine: Machine<2, 1> = begun_again(rt, end.program, end.harts, end.size);
    holds(rt, play(&mut machine, choices).is_ok());
    check_same(rt, &machine, &end.machine);
}

/// That the lines of what was noted, played from the start, lead to the same registers and memory.
fn check_again(
    rt: &(impl Abort + AllocGlobal),
    end: &Finished<'_, 2, 1, History>,
) -> Result<(), Fail> {
    let choices = choices_of(rt, &end.journal)?;
    check_played(rt, end, &choices);
    Ok(())
}

/// Four harts serve a desk in threads, until all have stopped.
fn serve_four<'p, R: Threads + Wait + Abort + Sync>(rt: &R, desk: &Mutex<Kept<'p>>) {
    let ends = serve::<Kept<'p>, Runs, R>(rt, desk, 4, &WHOLE, TURNS).expect(rt, "memory");
    equal_items(rt, &ends, &[End::Stopped; 4]);
}

/// That four harts have added to the word, and that their history plays again.
fn check_four(
    rt: &(impl Abort + AllocGlobal),
    end: &Finished<'_, 2, 1, History>,
) -> Result<(), Fail> {
    equal(rt, &end.machine.peek(Addr::new(0x2000)), &Some(4));
    check_again(rt, end)
}

/// That four harts, served in threads, have a history that plays again.
fn check_code<'p, R: Threads + Wait + Abort + AllocGlobal + Sync>(
    rt: &R,
    code: Code<'p>,
) -> Result<(), Fail> {
    let board: Kept<'p> = Board::boot_with(rt.alloc(), code, 4, SIZE, History::new(rt.alloc()))?;
    let desk = Mutex::new(board);
    serve_four(rt, &desk);
    check_four(rt, &desk.into_inner().finish())
}

/// That four harts, served in threads over decoded words, have a history that plays again.
fn check_decoded<R: Threads + Wait + Abort + AllocGlobal + Sync>(
    rt: &R,
    program: &Program,
) -> Result<(), Fail> {
    let words = DecodedText::new(rt.alloc(), program.segments(), program.entry())?;
    check_code(rt, Code::decoded(program, &words))
}

#[test]
fn history_of_threads_plays_again(rt: HostRuntime) -> Result<(), Fail> {
    let program = program(rt.alloc(), &WAITS)?;
    check_decoded(&rt, &program)
}

/// Two harts serve a desk in threads, until both have stopped.
fn serve_two<'p, R: Threads + Wait + Abort + Sync>(rt: &R, desk: &Mutex<Plain<'p>>) {
    let ends = serve::<Plain<'p>, Runs, R>(rt, desk, 2, &WHOLE, TURNS).expect(rt, "memory");
    equal_items(rt, &ends, &[End::Stopped; 2]);
}

/// That two harts, served in threads where nothing is kept, have added to the word.
fn check_unkept<R: Threads + Wait + Abort + AllocGlobal + Sync>(
    rt: &R,
    program: &Program,
) -> Result<(), Fail> {
    let board: Plain = Board::boot_with(rt.alloc(), Code::new(program), 2, SIZE, Unkept)?;
    let desk = Mutex::new(board);
    serve_two(rt, &desk);
    let board = desk.into_inner();
    equal(rt, &board.machine().peek(Addr::new(0x2000)), &Some(2));
    Ok(())
}

#[test]
fn threads_run_where_nothing_is_kept(rt: HostRuntime) -> Result<(), Fail> {
    let program = program(rt.alloc(), &WAITS)?;
    check_unkept(&rt, &program)
}

/// That the lease which comes back first is settled, and then the late one is stale.
fn check_settled<'p>(
    rt: &impl Abort,
    board: &mut Kept<'p>,
    first: &mut Counted<'p>,
    late: &Counted<'p>,
) {
    equal(rt, &first.run(3), &3);
    holds(rt, board.settle(first).is_ok());
    equal(rt, &board.settle(late), &Err(Refusal::Stale));
}

/// That a lease is lent again where its hart runs, and stays as it is where there is none.
fn check_lent_again<'p>(rt: &impl Abort, board: &Kept<'p>, lease: &mut Counted<'p>) {
    holds(rt, !board.lend_again(HartId::new(1), lease));
    equal(rt, &lease.len(), &3);
    holds(rt, board.lend_again(HartId::new(0), lease));
    holds(rt, lease.is_empty());
}

/// Lends hart 0 twice, and settles both leases.
fn check_leases<'p>(rt: &impl Abort, board: &mut Kept<'p>) {
    let zero = HartId::new(0);
    let late = board.lend(zero).expect(rt, "hart 0 runs");
    let mut first = board.lend(zero).expect(rt, "hart 0 runs");
    check_settled(rt, board, &mut first, &late);
    check_lent_again(rt, board, &mut first);
}

/// Lends no hart that there isn't, and hart 0 twice.
fn lend_twice<'p>(rt: &impl Abort, board: &mut Kept<'p>) {
    holds(rt, board.lend(HartId::new(1)).is_none());
    check_leases(rt, board);
    equal(rt, &board.visit(HartId::new(0)), &Ok(true));
}

/// That a stale lease of a program's hart is refused, and left out of the history.
fn check_stale(rt: &(impl Abort + AllocGlobal), program: &Program) -> Result<(), Fail> {
    let code = Code::new(program);
    let mut board: Kept = Board::boot_with(rt.alloc(), code, 1, SIZE, History::new(rt.alloc()))?;
    lend_twice(rt, &mut board);
    check_again(rt, &board.finish())
}

#[test]
fn a_stale_lease_is_refused(rt: HostRuntime) -> Result<(), Fail> {
    let program = program(rt.alloc(), &WAITS)?;
    check_stale(&rt, &program)
}
