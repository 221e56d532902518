//! Leases that are out at once, and leases that come back with no step.

use super::gates::{Meeting, Runs};
use super::play::{Small, TEN, booted, one, zero};
use crate::tests::claims::{equal, equal_items};
use board::{End, serve};
use reference::program;
use std::process::Abort;
use std::sync::Mutex;
use std::test::Fail;
use words::{Entry, HartId};

#[test]
fn two_leases_are_out_at_once(rt: HostRuntime) -> Result<(), Fail> {
    let program = program(rt.alloc(), &TEN)?;
    let desk = Mutex::new(booted(&rt, &program, 2));
    let ends = serve::<Small, Meeting, HostRuntime>(&rt, &desk, 2, &Meeting::new(), 2).expect(
        &rt, "memory",
    );
    equal_items(&rt, &ends, &[End::Stopped; 2]);
    Ok(())
}

/// Whether an entry is of a word that a hart retired.
fn is_retired_by(entry: &Entry, id: HartId) -> bool {
    match entry {
        Entry::Retire { hart, .. } => *hart == id,
        _ => false,
    }
}

/// Asserts how many words a hart has retired.
fn check_retired(rt: &impl Abort, entries: &[Entry], hart: HartId, want: usize) {
    let retired = entries.iter().filter(|entry| is_retired_by(entry, hart));
    equal(rt, &retired.count(), &want);
}

#[test]
fn empty_leases_leave_all_to_the_visits(rt: HostRuntime) -> Result<(), Fail> {
    let program = program(rt.alloc(), &TEN)?;
    let desk = Mutex::new(booted(&rt, &program, 2));
    let gate = Runs { most: 0 };
    let ends = serve::<Small, Runs, HostRuntime>(&rt, &desk, 2, &gate, 5).expect(&rt, "memory");
    equal_items(&rt, &ends, &[End::Limit; 2]);
    let end = desk.into_inner().finish();
    equal(&rt, &end.journal.history.len(), &10);
    check_retired(&rt, &end.journal.entries, zero(), 5);
    check_retired(&rt, &end.journal.entries, one(), 5);
    Ok(())
}
