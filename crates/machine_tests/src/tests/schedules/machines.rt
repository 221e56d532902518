//! The machine as a program begins in it, its steps, and what is read of it. The calls say nothing of what they answer, so that no test's proof has to carry it.

ghost use Rattle.std.specs.Prelude.{◌<◌, ◌*◌, ◌^◌};

use directory::DirEntry;
use loader::read_elf;
use machine::{Machine, TxInfo};
use reference::elf_file;
use std::alloc::{AllocError, Global};
use std::test::Fail;
use words::{Addr, BlockNo, Entry, HartId, Message, Regs, Status, Step};

/// How many bytes of memory the machines here have.
pub(crate) const SIZE: u32 = 131_072;

/// The coherent machine as a program begins in it.
pub(crate) fn booted<const SETS: usize, const WAYS: usize>(
    alloc: Global,
    text: &[u32],
    harts: u32,
    size: u32,
) -> Result<Machine<SETS, WAYS>, Fail>
    requires sets { 0 < SETS }
    requires ways { 0 < WAYS }
    requires lines { SETS * WAYS < 2 ^ 32 }
{
    let file = elf_file(alloc, text)?;
    Ok(Machine::boot(alloc, read_elf(alloc, &file)?, harts, size)?)
}

/// One step, enabled or not, its entry pushed. It fails only if memory runs out.
pub(crate) fn make<const SETS: usize, const WAYS: usize>(
    machine: &mut Machine<SETS, WAYS>,
    step: Step,
    entries: &mut Vec<Entry>,
) -> Result<(), AllocError> {
    match machine.run(&[step], entries) {
        Ok(()) => Ok(()),
        Err((_, fault)) => Err(fault),
    }
}

pub(crate) fn harts<const SETS: usize, const WAYS: usize>(machine: &Machine<SETS, WAYS>) -> usize {
    machine.harts()
}

/// Whether no hart runs.
pub(crate) fn all_stopped<const SETS: usize, const WAYS: usize>(
    machine: &Machine<SETS, WAYS>,
) -> bool {
    machine.running() == 0
}

pub(crate) fn regs<const SETS: usize, const WAYS: usize>(
    machine: &Machine<SETS, WAYS>,
    hart: HartId,
) -> Option<(Regs, Addr, Status)> {
    machine.regs(hart)
}

pub(crate) fn peek<const SETS: usize, const WAYS: usize>(
    machine: &Machine<SETS, WAYS>,
    addr: Addr,
) -> Option<u32> {
    machine.peek(addr)
}

pub(crate) fn raw<const SETS: usize, const WAYS: usize>(
    machine: &Machine<SETS, WAYS>,
    addr: Addr,
) -> Option<u32> {
    machine.raw(addr)
}

pub(crate) fn view<const SETS: usize, const WAYS: usize>(
    machine: &Machine<SETS, WAYS>,
    hart: HartId,
    addr: Addr,
) -> Option<u32> {
    machine.view(hart, addr)
}

/// Whether a hart has a line of a block.
pub(crate) fn has_line<const SETS: usize, const WAYS: usize>(
    machine: &Machine<SETS, WAYS>,
    hart: HartId,
    block: BlockNo,
) -> bool {
    machine.line(hart, block).is_some()
}

pub(crate) fn tx<const SETS: usize, const WAYS: usize>(
    machine: &Machine<SETS, WAYS>,
    hart: HartId,
) -> Option<TxInfo> {
    machine.tx(hart)
}

pub(crate) fn entry<const SETS: usize, const WAYS: usize>(
    machine: &Machine<SETS, WAYS>,
    block: BlockNo,
) -> DirEntry {
    machine.entry(block)
}

/// The first message in flight that has this number or a greater one, and its number.
pub(crate) fn next_from<const SETS: usize, const WAYS: usize>(
    machine: &Machine<SETS, WAYS>,
    number: u64,
) -> Option<(u64, Message)> {
    let flight = machine.next_from(number)?;
    Some((flight.number, flight.message))
}

/// The number that the next message gets.
pub(crate) fn sent<const SETS: usize, const WAYS: usize>(machine: &Machine<SETS, WAYS>) -> u64 {
    machine.sent()
}

pub(crate) fn next_turn<const SETS: usize, const WAYS: usize>(
    machine: &Machine<SETS, WAYS>,
    last: HartId,
) -> Option<Step> {
    machine.next_turn(last)
}
