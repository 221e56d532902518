//! What the tests ask of a plain machine and of its entries.

use super::moves::{accepted, booted, one, pc, place, register, status, zero};
use crate::tests::claims::{equal, equal_at, holds};
use flat::Engine;
use reference::Machine;
use std::process::Abort;
use std::test::Fail;
use words::{Addr, Entry, HartId, Status};

/// That there are so many of what is counted.
pub(crate) fn check_count(rt: &impl Abort, found: usize, want: usize) {
    equal(rt, &found, &want);
}

/// That this is the entry with an index.
pub(crate) fn check_entry(rt: &impl Abort, entries: &[Entry], index: usize, want: Entry) {
    equal(rt, &entries.get(index).copied(), &Some(want));
}

/// That a step retires a word.
pub(crate) fn check_retired(rt: &impl Abort, entry: Option<Entry>) {
    holds(rt, matches!(entry, Some(Entry::Retire { .. })));
}

/// That each entry tells of a word that was retired.
pub(crate) fn check_all_retired(rt: &impl Abort, entries: &[Entry]) {
    for entry in entries {
        check_retired(rt, Some(*entry));
    }
}

/// That the word at 0x2000 is this one in place, this one once all running transactions are rolled back, and these as harts 0 and 1
/// see it.
pub(crate) fn check_place(
    rt: &impl Abort,
    machine: &Machine,
    in_place: u32,
    committed: u32,
    seen: [Option<u32>; 2],
) {
    equal(rt, &machine.raw(place()), &Some(in_place));
    equal(rt, &machine.peek(place()), &Some(committed));
    equal(
        rt,
        &[machine.view(zero(), place()), machine.view(one(), place())],
        &seen,
    );
}

/// That this word stands at 0x2000 once all running transactions are rolled back.
pub(crate) fn check_committed(rt: &impl Abort, machine: &Machine, want: u32) {
    equal(rt, &machine.peek(place()), &Some(want));
}

/// Whether a hart runs, or how it ended.
pub(crate) fn check_status(rt: &impl Abort, machine: &Machine, hart: HartId, want: Status) {
    equal(rt, &status(machine, hart), &Some(want));
}

/// Where a hart stands.
pub(crate) fn check_pc(rt: &impl Abort, machine: &Machine, hart: HartId, want: u32) {
    equal(rt, &pc(machine, hart), &Some(Addr::new(want)));
}

/// That a hart's register holds this word.
pub(crate) fn check_register(
    rt: &impl Abort,
    machine: &Machine,
    hart: HartId,
    index: usize,
    want: u32,
) {
    equal_at(rt, &register(machine, hart, index), &Some(want), &index);
}

/// That the entries are those of a run of the program.
pub(crate) fn check_run(
    rt: &(impl Abort + AllocGlobal),
    text: &[u32],
    harts: u32,
    entries: &[Entry],
) -> Result<(), Fail> {
    let mut checker = booted(rt.alloc(), text, harts)?;
    let accepted = accepted(rt.alloc(), &mut checker, entries)?;
    check_count(rt, accepted, entries.len());
    Ok(())
}
