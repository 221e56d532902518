//! Boards that want memory for their history.

ghost use Rattle.std.specs.Prelude.{◌≤◌, ◌<◌};

use super::gates::Runs;
use super::play::{SIZE, check_again, peek, place, zero};
use crate::tests::claims::{equal, holds};
use board::{Board, Code, End, Finished, Lease, Refusal, Replay, work};
use linked_list_allocator::LocalHeap;
use loader::Program;
use reference::{COMMITS, program};
use std::alloc::AllocError;
use std::process::Abort;
use std::sync::{Mutex, Wait};
use std::test::Fail;
use words::Step;

type Small<'p, 'h> = Board<'p, 2, 1, Replay<&'h LocalHeap>>;

const HEAP: usize = 8192;

/// Takes all of a heap but so many bytes.
fn taken(heap: &LocalHeap, left: usize) -> Result<Vec<u8, &LocalHeap>, AllocError>
    requires { left ≤ 8192 }
{
    Vec::with_capacity(heap, HEAP - left)
}

/// Which of a board's calls were refused.
#[derive(Clone, Copy, Debug, Default, PartialEq, Eq)]
struct Refused {
    settle: bool,
    turn: bool,
    visit: bool,
}

/// What is taken of a heap, until it is given back.
type Rest<'h> = Option<Vec<u8, &'h LocalHeap>>;

/// Settles a lease, and once more if memory was refused, the rest of the heap given back. The answer is whether it was refused.
fn settle<'p, 'h>(
    rt: &impl Abort,
    board: &mut Small<'p, 'h>,
    lease: &Lease<'p, 2, 1>,
    rest: &mut Rest<'h>,
) -> bool {
    let was_refused = board.settle(lease) == Err(Refusal::NoMemory);
    if was_refused {
        *rest = None;
        holds(rt, board.settle(lease).is_ok());
    }
    was_refused
}

/// Makes a step of hart 0, in the same way.
fn turn<'p, 'h>(rt: &impl Abort, board: &mut Small<'p, 'h>, rest: &mut Rest<'h>) -> bool {
    let was_refused = board.turn(Step::Core(zero())).is_err();
    if was_refused {
        *rest = None;
        holds(rt, board.turn(Step::Core(zero())).is_ok());
    }
    was_refused
}

/// Visits hart 0, in the same way.
fn visit<'p, 'h>(rt: &impl Abort, board: &mut Small<'p, 'h>, rest: &mut Rest<'h>) -> bool {
    let was_refused = board.visit(zero()).is_err();
    if was_refused {
        *rest = None;
        holds(rt, board.visit(zero()).is_ok());
    }
    was_refused
}

/// Plays hart 0 to its end, by leases, single turns and visits. What is refused is made again, once the rest of the heap is given back.
fn play<'p, 'h>(
    rt: &impl Abort,
    board: &mut Small<'p, 'h>,
    rest: &mut Rest<'h>,
    refused: &mut Refused,
) {
    for _ in 0..40 {
        let Some(mut lease) = board.lend(zero()) else {
            return;
        };
        lease.run(2);
        refused.settle |= settle(rt, board, &lease, rest);
        refused.turn |= turn(rt, board, rest);
        refused.visit |= visit(rt, board, rest);
    }
}

/// Asserts that the word is written, and that the history makes the board again.
fn check_end(rt: &(impl Abort + AllocGlobal), end: &Finished<'_, 2, 1, Replay<&LocalHeap>>) {
    equal(rt, &peek(&end.machine, place()), &Some(7));
    check_again(rt, end);
}

/// The board of a program for one hart, whose history is on a heap.
fn booted<'p, 'h>(
    rt: &(impl Abort + AllocGlobal),
    program: &'p Program,
    heap: &'h LocalHeap,
) -> Small<'p, 'h> {
    let replay = Replay::new(heap);
    Board::boot_with(rt.alloc(), Code::new(program), 1, SIZE, replay).expect(rt, "memory")
}

/// Plays on a heap on which so many times 32 bytes are left.
fn play_on<'p, 'h>(
    rt: &(impl Abort + AllocGlobal),
    program: &'p Program,
    heap: &'h LocalHeap,
    places: usize,
    refused: &mut Refused,
)
    requires { places < 256 }
{
    let Ok(rest) = taken(heap, 32 * places) else {
        return;
    };
    let mut rest = Some(rest);
    let mut board = booted(rt, program, heap);
    play(rt, &mut board, &mut rest, refused);
    check_end(rt, &board.finish());
}

#[test]
fn nothing_is_lost_where_memory_is_refused(rt: HostRuntime) -> Result<(), Fail> {
    let program = program(rt.alloc(), &COMMITS)?;
    let mut refused = Refused::default();
    for places in 0..120usize {
        let heap = LocalHeap::new(rt.alloc(), HEAP).expect(&rt, "memory");
        play_on(&rt, &program, &heap, places, &mut refused);
    }
    let all = Refused {
        settle: true,
        turn: true,
        visit: true,
    };
    equal(&rt, &refused, &all);
    Ok(())
}

/// Works on a desk until memory is refused, and then to the end with the rest of the heap. The answer is whether it was refused.
fn work_twice<'h>(
    rt: &(impl Abort + Wait),
    desk: &Mutex<Small<'_, 'h>>,
    rest: Vec<u8, &'h LocalHeap>,
) -> bool {
    let gate = Runs { most: 2 };
    let first = work(rt, desk, zero(), &gate, 40);
    drop(rest);
    if first.is_ok() {
        return false;
    }
    equal(rt, &work(rt, desk, zero(), &gate, 40), &Ok(End::Stopped));
    true
}

/// A worker on a heap of which so much is taken. The answer is whether it was refused memory.
fn work_beside<'p, 'h>(
    rt: &(impl Abort + Wait + AllocGlobal),
    program: &'p Program,
    heap: &'h LocalHeap,
    rest: Vec<u8, &'h LocalHeap>,
) -> bool {
    let desk = Mutex::new(booted(rt, program, heap));
    let was_refused = work_twice(rt, &desk, rest);
    check_end(rt, &desk.into_inner().finish());
    was_refused
}

/// A worker on a heap on which so many times 32 bytes are left. The answer is whether it was refused memory.
fn work_on<'p, 'h>(
    rt: &(impl Abort + Wait + AllocGlobal),
    program: &'p Program,
    heap: &'h LocalHeap,
    places: usize,
) -> bool
    requires { places < 256 }
{
    match taken(heap, 32 * places) {
        Ok(rest) => work_beside(rt, program, heap, rest),
        Err(AllocError) => false,
    }
}

#[test]
fn a_worker_ends_where_memory_is_refused(rt: HostRuntime) -> Result<(), Fail> {
    let program = program(rt.alloc(), &COMMITS)?;
    let mut refused = 0u32;
    for places in 0..120usize {
        let heap = LocalHeap::new(rt.alloc(), HEAP).expect(&rt, "memory");
        if work_on(&rt, &program, &heap, places) {
            refused = refused.saturating_add(1);
        }
    }
    holds(&rt, refused > 2);
    Ok(())
}
