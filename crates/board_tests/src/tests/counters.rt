//! A counter, to which each hart adds in transactions.

ghost use Rattle.std.specs.Prelude.{◌≤◌, ◌<◌, ◌*◌, ◌^◌};

use super::gates::Runs;
use super::play::{SIZE, WAITS, check_again, peek, place};
use crate::tests::claims::{equal, holds};
use board::{Board, End, Finished, serve};
use loader::Program;
use reference::{COUNTS, program};
use std::process::Abort;
use std::sync::{Mutex, Wait};
use std::test::Fail;
use std::thread::Threads;

/// Has so many harts serve a desk in threads, so many turns each. The answer is whether all of them have ended.
fn serve_all<'p, const SETS: usize, const WAYS: usize, R: Threads + Wait + Abort + Sync>(
    rt: &R,
    desk: &Mutex<Board<'p, SETS, WAYS>>,
    harts: usize,
    turns: u64,
) -> bool
    requires sets { 0 < SETS }
    requires ways { 0 < WAYS }
    requires lines { SETS * WAYS < 2 ^ 32 }
    requires few { SETS < 2 ^ 32 }
    requires harts { harts ≤ 8 }
{
    let gate = Runs { most: 64 };
    let ends = serve::<Board<'p, SETS, WAYS>, Runs, R>(rt, desk, harts, &gate, turns).expect(
        rt, "memory",
    );
    ends.iter().all(|end| *end == End::Stopped)
}

/// The board of a program that so many harts have run in threads, so many turns each, and whether all of them have ended.
fn served<'p, const SETS: usize, const WAYS: usize, R: Threads + Wait + Abort + AllocGlobal + Sync>(
    rt: &R,
    program: &'p Program,
    harts: u32,
    turns: u64,
) -> (Finished<'p, SETS, WAYS>, bool)
    requires sets { 0 < SETS }
    requires ways { 0 < WAYS }
    requires lines { SETS * WAYS < 2 ^ 32 }
    requires few { SETS < 2 ^ 32 }
    requires harts { harts ≤ 8 }
{
    let board: Board<'p, SETS, WAYS> = Board::boot(rt.alloc(), program, harts, SIZE).expect(
        rt, "memory",
    );
    let desk = Mutex::new(board);
    let stopped = serve_all(rt, &desk, harts as usize, turns);
    (desk.into_inner().finish(), stopped)
}

/// That a history makes its end again, and that the harts have counted to a number if all have ended.
fn check_end<const SETS: usize, const WAYS: usize>(
    rt: &(impl Abort + AllocGlobal),
    end: &Finished<'_, SETS, WAYS>,
    stopped: bool,
    count: u32,
)
    requires sets { 0 < SETS }
    requires ways { 0 < WAYS }
    requires lines { SETS * WAYS < 2 ^ 32 }
    requires few { SETS < 2 ^ 32 }
{
    check_again(rt, end);
    if stopped {
        equal(rt, &peek(&end.machine, place()), &Some(count));
    }
}

/// That what so many harts did in threads is made again by its history, and that they have counted to a number if all have ended. The answer is
/// whether they have.
fn check_count<
    const SETS: usize,
    const WAYS: usize,
    R: Threads + Wait + Abort + AllocGlobal + Sync,
>(rt: &R, text: &[u32], harts: u32, turns: u64, count: u32) -> Result<bool, Fail>
    requires sets { 0 < SETS }
    requires ways { 0 < WAYS }
    requires lines { SETS * WAYS < 2 ^ 32 }
    requires few { SETS < 2 ^ 32 }
    requires harts { harts ≤ 8 }
{
    let program = program(rt.alloc(), text)?;
    let (end, stopped) = served::<SETS, WAYS, R>(rt, &program, harts, turns);
    check_end(rt, &end, stopped, count);
    Ok(stopped)
}

#[test]
fn each_number_of_harts_counts(rt: HostRuntime) -> Result<(), Fail> {
    // A hart whose thread the host holds up keeps the others waiting, and each of their tries is a turn.
    let most = 2_000_000;
    holds(
        &rt,
        check_count::<2, 1, HostRuntime>(&rt, &COUNTS, 2, most, 200)?,
    );
    holds(
        &rt,
        check_count::<16, 4, HostRuntime>(&rt, &COUNTS, 2, most, 200)?,
    );
    for harts in 2..9u32 {
        holds(
            &rt,
            check_count::<2, 1, HostRuntime>(&rt, &WAITS, harts, most, harts)?,
        );
        holds(
            &rt,
            check_count::<16, 4, HostRuntime>(&rt, &WAITS, harts, most, harts)?,
        );
    }
    Ok(())
}

#[test]
fn eight_workers_play_200_times(rt: HostRuntime) -> Result<(), Fail> {
    for _ in 0..100 {
        check_count::<2, 1, HostRuntime>(&rt, &WAITS, 8, 50, 8)?;
        check_count::<16, 4, HostRuntime>(&rt, &WAITS, 8, 50, 8)?;
    }
    Ok(())
}
