//! Programs on the plain machine, turn by turn. These say nothing of what they answer, so that no test's proof has to carry it.

use flat::Engine;
use reference::{Machine, program};
use std::alloc::{AllocError, Global};
use std::test::Fail;
use words::{Access, Addr, Entry, HartId, Status, Step, Width};

pub(crate) fn zero() -> HartId {
    HartId::new(0)
}

pub(crate) fn one() -> HartId {
    HartId::new(1)
}

/// The word that the programs access.
pub(crate) fn place() -> Addr {
    Addr::new(0x2000)
}

/// An access to it.
pub(crate) fn access(value: u32) -> Access {
    Access {
        addr: place(),
        width: Width::Word,
        value,
    }
}

/// A program as it begins, with 64 KiB of memory.
pub(crate) fn booted(alloc: Global, text: &[u32], harts: u32) -> Result<Machine, Fail> {
    Ok(Machine::boot(alloc, program(alloc, text)?, harts, 65_536)?)
}

/// Makes turns until none is left, so many at most, the first after this hart's. Their entries are pushed.
pub(crate) fn go(
    alloc: Global,
    machine: &mut Machine,
    first_after: HartId,
    most: u32,
    entries: &mut Vec<Entry>,
) -> Result<(), AllocError> {
    let mut last = first_after;
    for _ in 0..most {
        let Some(turn) = machine.next_turn(last) else {
            break;
        };
        if let Step::Core(hart) = turn {
            last = hart;
        }
        make(alloc, machine, &[turn], entries)?;
    }
    Ok(())
}

/// Makes these steps. Their entries are pushed.
pub(crate) fn make(
    alloc: Global,
    machine: &mut Machine,
    steps: &[Step],
    entries: &mut Vec<Entry>,
) -> Result<(), AllocError> {
    match machine.run(alloc, steps, entries) {
        Ok(()) => Ok(()),
        Err((_, fault)) => Err(fault),
    }
}

/// Makes a step of a hart, and gives its entry.
pub(crate) fn step(
    alloc: Global,
    machine: &mut Machine,
    hart: HartId,
) -> Result<Option<Entry>, Fail> {
    Ok(machine.step(alloc, Step::Core(hart))?)
}

/// How many of these entries a machine accepts.
pub(crate) fn accepted(
    alloc: Global,
    machine: &mut Machine,
    entries: &[Entry],
) -> Result<usize, Fail> {
    match machine.check_all(alloc, entries) {
        Ok(accepted) => Ok(accepted),
        Err((_, fault)) => Err(fault)?,
    }
}

/// Whether a hart runs, or how it ended.
pub(crate) fn status(machine: &Machine, hart: HartId) -> Option<Status> {
    let (_, _, status) = machine.regs(hart)?;
    Some(status)
}

/// Where a hart stands.
pub(crate) fn pc(machine: &Machine, hart: HartId) -> Option<Addr> {
    let (_, pc, _) = machine.regs(hart)?;
    Some(pc)
}

/// What a hart's register holds.
pub(crate) fn register(machine: &Machine, hart: HartId, index: usize) -> Option<u32> {
    let (regs, _, _) = machine.regs(hart)?;
    regs.values().get(index).copied()
}
