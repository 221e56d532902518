//! Schedules that a simulator wouldn't choose.

use super::machines::{all_stopped, entry, harts, has_line, make, next_from, next_turn, sent};
use loader::read_elf;
use machine::Machine;
use reference::{Machine as Checker, elf_file};
use std::alloc::{AllocError, Global};
use std::test::Fail;
use words::{BlockNo, Entry, HartId, Message, Step};

/// The block at 0x2000, the first that the programs access.
const FIRST_BLOCK: u32 = 256;

/// Which step comes next.
#[derive(Clone, Copy, Debug, PartialEq, Eq)]
pub(crate) enum Schedule {
    /// The machine's own turns.
    Turns,
    /// The same, and after each step of a core every hart gives up every line that it holds of so many blocks from 0x2000 on.
    Evictions(u32),
    /// The newest message that isn't held arrives first; a core goes on where there is none.
    Newest,
    /// In each round every number from the oldest message's on is tried, those of held and absent ones too, and then each core.
    Numbers,
}

/// The plain machine after these entries, where it accepts them all.
pub(crate) fn checked(
    alloc: Global,
    text: &[u32],
    harts: u32,
    size: u32,
    entries: &[Entry],
) -> Result<Checker, Fail> {
    let file = elf_file(alloc, text)?;
    let mut checker = Checker::boot(alloc, read_elf(alloc, &file)?, harts, size)?;
    match checker.check_all(alloc, entries) {
        Ok(accepted) if accepted == entries.len() => Ok(checker),
        Ok(_) => Err("an entry is refused")?,
        Err((_, fault)) => Err(fault)?,
    }
}

/// Every hart gives up every line that it holds of so many blocks from 0x2000 on.
fn evict_all<const SETS: usize, const WAYS: usize>(
    machine: &mut Machine<SETS, WAYS>,
    blocks: u32,
    entries: &mut Vec<Entry>,
) -> Result<(), AllocError> {
    for number in 0..harts(machine) {
        if let Some(hart) = HartId::try_new(number) {
            for k in 0..blocks.min(1024) {
                let block = BlockNo::new(FIRST_BLOCK + k);
                if has_line(machine, hart, block) {
                    make(machine, Step::Evict(hart, block), entries)?;
                }
            }
        }
    }
    Ok(())
}

/// Goes on by the machine's turns, so many at most, with evictions of so many blocks between them.
fn take_turns<const SETS: usize, const WAYS: usize>(
    machine: &mut Machine<SETS, WAYS>,
    blocks: u32,
    most: u32,
    entries: &mut Vec<Entry>,
) -> Result<(), AllocError> {
    let mut last = machine.last_hart();
    for _ in 0..most {
        let Some(turn) = next_turn(machine, last) else {
            break;
        };
        let mut evicted = 0;
        if let Step::Core(hart) = turn {
            last = hart;
            evicted = blocks;
        }
        make(machine, turn, entries)?;
        evict_all(machine, evicted, entries)?;
    }
    Ok(())
}

/// Whether the directory holds a message now.
fn is_held<const SETS: usize, const WAYS: usize>(
    machine: &Machine<SETS, WAYS>,
    message: &Message,
) -> bool {
    match message {
        Message::Get { block, .. } | Message::Put { block, .. } => {
            entry(machine, *block).busy.is_some()
        }
        _ => false,
    }
}

/// The number of the newest message that isn't held, of the oldest thousand.
fn newest<const SETS: usize, const WAYS: usize>(machine: &Machine<SETS, WAYS>) -> Option<u64> {
    let mut from = 0;
    let mut newest = None;
    for _ in 0..1000 {
        let Some((number, message)) = next_from(machine, from) else {
            break;
        };
        if !is_held(machine, &message) {
            newest = Some(number);
        }
        from = number.saturating_add(1);
    }
    newest
}

/// Goes on by the newest message or the machine's turn, so many at most.
fn take_newest<const SETS: usize, const WAYS: usize>(
    machine: &mut Machine<SETS, WAYS>,
    most: u32,
    entries: &mut Vec<Entry>,
) -> Result<(), AllocError> {
    let mut last = machine.last_hart();
    for _ in 0..most {
        let turn = match newest(machine) {
            Some(number) => Step::Deliver(number as usize),
            None => match next_turn(machine, last) {
                Some(turn) => turn,
                None => break,
            },
        };
        if let Step::Core(hart) = turn {
            last = hart;
        }
        make(machine, turn, entries)?;
    }
    Ok(())
}

/// Goes on in rounds, so many at most, each of every number from the oldest message's on and then each core, until no hart runs.
fn try_numbers<const SETS: usize, const WAYS: usize>(
    machine: &mut Machine<SETS, WAYS>,
    most: u32,
    entries: &mut Vec<Entry>,
) -> Result<(), AllocError> {
    for _ in 0..most {
        if all_stopped(machine) {
            break;
        }
        if let Some((oldest, _)) = next_from(machine, 0) {
            for number in oldest..=sent(machine) {
                make(machine, Step::Deliver(number as usize), entries)?;
            }
        }
        for number in 0..harts(machine) {
            if let Some(hart) = HartId::try_new(number) {
                make(machine, Step::Core(hart), entries)?;
            }
        }
    }
    Ok(())
}

/// Goes on by a schedule until it ends, the entries pushed; by so many turns or rounds at most.
pub(crate) fn play<const SETS: usize, const WAYS: usize>(
    machine: &mut Machine<SETS, WAYS>,
    schedule: Schedule,
    most: u32,
    entries: &mut Vec<Entry>,
) -> Result<(), AllocError> {
    match schedule {
        Schedule::Turns => take_turns(machine, 0, most, entries),
        Schedule::Evictions(blocks) => take_turns(machine, blocks, most, entries),
        Schedule::Newest => take_newest(machine, most, entries),
        Schedule::Numbers => try_numbers(machine, most, entries),
    }
}
