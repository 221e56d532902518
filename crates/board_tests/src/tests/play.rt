//! Programs, and the history of a board made again.

ghost use Rattle.std.specs.Prelude.{◌≤◌, ◌<◌, ◌*◌, ◌^◌};

use crate::tests::claims::{equal, equal_items, holds};
use board::{Board, Finished, Replay};
use loader::Program;
use machine::Machine;
use std::alloc::Allocator;
use std::process::Abort;
use words::{Addr, Entry, HartId, Regs, Status, Step};

/// How many bytes of memory the machines here have.
pub(crate) const SIZE: u32 = 131_072;

pub(crate) fn zero() -> HartId {
    HartId::new(0)
}

pub(crate) fn one() -> HartId {
    HartId::new(1)
}

/// The word that the programs access.
pub(crate) fn place() -> Addr {
    Addr::new(0x2000)
}

pub(crate) fn peek<const SETS: usize, const WAYS: usize>(
    machine: &Machine<SETS, WAYS>,
    addr: Addr,
) -> Option<u32> {
    machine.peek(addr)
}

pub(crate) fn regs<const SETS: usize, const WAYS: usize>(
    machine: &Machine<SETS, WAYS>,
    hart: HartId,
) -> Option<(Regs, Addr, Status)> {
    machine.regs(hart)
}

/// Adds 1 to the word at 0x2000 in a transaction, and exits with 0. After each abort a hart waits before it tries again, longer than the time
/// before, and each for a time of its own.
pub(crate) const WAITS: [u32; 20] = [
    0x0010_0413,
    0x0000_24b7,
    0x0015_0993,
    0x0059_9993,
    0x0009_8913,
    0x0200_040b,
    0x0004_a283,
    0x0012_8293,
    0x0054_a023,
    0x0000_100b,
    0xfff4_0413,
    0xfe04_12e3,
    0x05d0_0893,
    0x0000_0513,
    0x0000_0073,
    0x0139_0933,
    0x0009_0313,
    0xfff3_0313,
    0xfe03_1ee3,
    0xfc9f_f06f,
];

/// Adds 1 to t0 ten times, and exits with 0.
pub(crate) const TEN: [u32; 13] = [
    0x0012_8293,
    0x0012_8293,
    0x0012_8293,
    0x0012_8293,
    0x0012_8293,
    0x0012_8293,
    0x0012_8293,
    0x0012_8293,
    0x0012_8293,
    0x0012_8293,
    0x05d0_0893,
    0x0000_0513,
    0x0000_0073,
];

pub(crate) type Small<'p> = Board<'p, 2, 1>;

/// The board that a program begins with, for so many harts.
pub(crate) fn booted<'p>(
    rt: &(impl Abort + AllocGlobal),
    program: &'p Program,
    harts: u32,
) -> Small<'p> {
    Board::boot(rt.alloc(), program, harts, SIZE).expect(rt, "memory")
}

/// Makes a step, whatever its entry.
pub(crate) fn make<'p>(rt: &impl Abort, board: &mut Small<'p>, step: Step) {
    holds(rt, board.turn(step).is_ok());
}

/// A machine that a program begins in.
pub(crate) fn begun_again<const SETS: usize, const WAYS: usize>(
    rt: &(impl Abort + AllocGlobal),
    program: &Program,
    harts: u32,
    size: u32,
) -> Machine<SETS, WAYS>
    requires sets { 0 < SETS }
    requires ways { 0 < WAYS }
    requires lines { SETS * WAYS < 2 ^ 32 }
{
    let program = program.copy(rt.alloc()).expect(rt, "memory");
    Machine::boot(rt.alloc(), program, harts, size).expect(rt, "memory")
}

/// Asserts that the steps of a history can be made again, and give these entries.
fn check_entries<const SETS: usize, const WAYS: usize>(
    rt: &(impl Abort + AllocGlobal),
    machine: &mut Machine<SETS, WAYS>,
    history: &[Step],
    entries: &[Entry],
)
    requires sets { 0 < SETS }
    requires ways { 0 < WAYS }
    requires lines { SETS * WAYS < 2 ^ 32 }
{
    let mut given = Vec::new(rt.alloc());
    holds(rt, machine.run(history, &mut given).is_ok());
    equal_items(rt, &given, entries);
}

/// How many words from 0x1000 on are compared. No program here reaches beyond them.
const WORDS: u32 = 2048;

/// Asserts that two machines have the same registers and memory.
pub(crate) fn check_same<const SETS: usize, const WAYS: usize>(
    rt: &impl Abort,
    machine: &Machine<SETS, WAYS>,
    other: &Machine<SETS, WAYS>,
)
    requires sets { 0 < SETS }
    requires ways { 0 < WAYS }
    requires lines { SETS * WAYS < 2 ^ 32 }
{
    for number in 0..8 {
        let hart = HartId::new(number);
        equal(rt, &regs(machine, hart), &regs(other, hart));
    }
    for word in 0..WORDS {
        let addr = Addr::new(0x1000 + 4 * word);
        equal(rt, &peek(machine, addr), &peek(other, addr));
    }
}

/// Asserts that the history of a board, made again, gives its entries, and its machine's registers and memory.
pub(crate) fn check_again<const SETS: usize, const WAYS: usize, A: Allocator>(
    rt: &(impl Abort + AllocGlobal),
    end: &Finished<'_, SETS, WAYS, Replay<A>>,
)
    requires sets { 0 < SETS }
    requires ways { 0 < WAYS }
    requires lines { SETS * WAYS < 2 ^ 32 }
    requires few { SETS < 2 ^ 32 }
{
    let mut machine = begun_again(rt, end.program, end.harts, end.size);
    check_entries(rt, &mut machine, &end.journal.history, &end.journal.entries);
    check_same(rt, &machine, &end.machine);
}
