//! One hart or two, step by step.

use super::checks::{
    check_all_retired, check_committed, check_count, check_entry, check_pc, check_place,
    check_register, check_retired, check_run, check_status,
};
use super::moves::{accepted, access, booted, go, make, one, step, zero};
use reference::{ABORTS, ADDS, COMMITS, COUNTS};
use std::process::Abort;
use std::test::Fail;
use words::{AbortCause, Addr, BlockNo, Entry, Reg, Status, Step};

/// Swaps 7 with the word at 0x2000 in a transaction, by AMOSWAP.W into t2, aborts it, and exits with 0.
const SWAPS: [u32; 8] = [
    0x0000_0a0b,
    0x0000_22b7,
    0x0070_0313,
    0x0862_a3af,
    0x0000_200b,
    0x05d0_0893,
    0x0000_0513,
    0x0000_0073,
];

/// Stores to one block after another in a transaction, for ever.
const STORES: [u32; 5] = [
    0x0000_080b,
    0x0000_22b7,
    0x0002_a023,
    0x0202_8293,
    0xff9f_f06f,
];

/// An abort of hart 0.
fn aborted(cause: AbortCause) -> Entry {
    Entry::Abort {
        hart: zero(),
        cause,
    }
}

#[test]
fn a_transaction_commits(rt: HostRuntime) -> Result<(), Fail> {
    let mut machine = booted(rt.alloc(), &COMMITS, 1)?;
    let mut entries = Vec::new(rt.alloc());
    go(rt.alloc(), &mut machine, zero(), 4, &mut entries)?;
    check_place(&rt, &machine, 7, 0, [Some(7), None]);
    go(rt.alloc(), &mut machine, zero(), 1, &mut entries)?;
    check_place(&rt, &machine, 7, 7, [Some(7), None]);
    go(rt.alloc(), &mut machine, zero(), 1000, &mut entries)?;
    check_count(&rt, entries.len(), 8);
    check_status(&rt, &machine, zero(), Status::Exited(0));
    check_run(&rt, &COMMITS, 1, &entries)?;
    let store = Entry::Retire {
        hart: zero(),
        pc: Addr::new(0x100c),
        word: 0x0062_a023,
        write: None,
        load: None,
        store: Some(access(7)),
    };
    check_entry(&rt, &entries, 3, store);
    Ok(())
}

#[test]
fn a_transaction_is_rolled_back(rt: HostRuntime) -> Result<(), Fail> {
    let mut machine = booted(rt.alloc(), &ABORTS, 1)?;
    let mut entries = Vec::new(rt.alloc());
    go(rt.alloc(), &mut machine, zero(), 5, &mut entries)?;
    check_entry(&rt, &entries, 4, aborted(AbortCause::Asked));
    check_place(&rt, &machine, 0, 0, [Some(0), None]);
    check_pc(&rt, &machine, zero(), 0x1014);
    check_register(&rt, &machine, zero(), 5, 0);
    check_register(&rt, &machine, zero(), 6, 0);
    go(rt.alloc(), &mut machine, zero(), 1000, &mut entries)?;
    check_count(&rt, entries.len(), 8);
    check_run(&rt, &ABORTS, 1, &entries)?;
    Ok(())
}

#[test]
fn a_writer_keeps_others_out(rt: HostRuntime) -> Result<(), Fail> {
    let mut machine = booted(rt.alloc(), &COMMITS, 2)?;
    let mut entries = Vec::new(rt.alloc());
    make(
        rt.alloc(),
        &mut machine,
        &[Step::Core(zero()); 4],
        &mut entries,
    )?;
    make(
        rt.alloc(),
        &mut machine,
        &[Step::Core(one()); 4],
        &mut entries,
    )?;
    let refusal = Entry::Refuse {
        hart: zero(),
        requester: one(),
        block: BlockNo::new(256),
    };
    check_count(&rt, entries.len(), 8);
    check_entry(&rt, &entries, 7, refusal);
    check_place(&rt, &machine, 7, 0, [Some(7), Some(0)]);
    let commit = step(rt.alloc(), &mut machine, zero())?;
    check_retired(&rt, commit);
    check_committed(&rt, &machine, 7);
    let store = step(rt.alloc(), &mut machine, one())?;
    check_retired(&rt, store);
    check_run(&rt, &COMMITS, 2, &entries)?;
    Ok(())
}

#[test]
fn two_harts_count(rt: HostRuntime) -> Result<(), Fail> {
    let mut machine = booted(rt.alloc(), &COUNTS, 2)?;
    let mut entries = Vec::new(rt.alloc());
    go(rt.alloc(), &mut machine, one(), 5000, &mut entries)?;
    check_run(&rt, &COUNTS, 2, &entries)?;
    Ok(())
}

#[test]
fn one_hart_counts(rt: HostRuntime) -> Result<(), Fail> {
    let mut machine = booted(rt.alloc(), &COUNTS, 1)?;
    let mut entries = Vec::new(rt.alloc());
    go(rt.alloc(), &mut machine, zero(), 5000, &mut entries)?;
    check_committed(&rt, &machine, 100);
    Ok(())
}

#[test]
fn two_harts_add_atomically(rt: HostRuntime) -> Result<(), Fail> {
    let mut machine = booted(rt.alloc(), &ADDS, 2)?;
    let mut entries = Vec::new(rt.alloc());
    go(rt.alloc(), &mut machine, one(), 5000, &mut entries)?;
    check_count(&rt, entries.len(), 612);
    check_all_retired(&rt, &entries);
    check_committed(&rt, &machine, 0x0000_00c8);
    check_run(&rt, &ADDS, 2, &entries)?;
    let second = Entry::Retire {
        hart: one(),
        pc: Addr::new(0x100c),
        word: 0x0064_a02f,
        write: None,
        load: Some(access(1)),
        store: Some(access(2)),
    };
    check_entry(&rt, &entries, 7, second);
    Ok(())
}

#[test]
fn a_swap_is_taken_back(rt: HostRuntime) -> Result<(), Fail> {
    let mut machine = booted(rt.alloc(), &SWAPS, 1)?;
    let mut entries = Vec::new(rt.alloc());
    go(rt.alloc(), &mut machine, zero(), 4, &mut entries)?;
    let swap = Entry::Retire {
        hart: zero(),
        pc: Addr::new(0x100c),
        word: 0x0862_a3af,
        write: Some((Reg::new(7), 0)),
        load: Some(access(0)),
        store: Some(access(7)),
    };
    check_entry(&rt, &entries, 3, swap);
    check_register(&rt, &machine, zero(), 7, 0);
    check_place(&rt, &machine, 7, 0, [Some(7), None]);
    go(rt.alloc(), &mut machine, zero(), 1, &mut entries)?;
    check_place(&rt, &machine, 0, 0, [Some(0), None]);
    check_run(&rt, &SWAPS, 1, &entries)?;
    Ok(())
}

/// How many of one abort by a full log are accepted after so many steps of `STORES`.
fn check_full(rt: &(impl Abort + AllocGlobal), steps: u32, want: usize) -> Result<(), Fail> {
    let mut machine = booted(rt.alloc(), &STORES, 1)?;
    let mut entries = Vec::new(rt.alloc());
    go(rt.alloc(), &mut machine, zero(), steps, &mut entries)?;
    let full = [aborted(AbortCause::LogFull)];
    check_count(rt, accepted(rt.alloc(), &mut machine, &full)?, want);
    check_committed(rt, &machine, 0);
    Ok(())
}

#[test]
fn a_full_log_is_an_abort(rt: HostRuntime) -> Result<(), Fail> {
    // Two instructions, and three for each store.
    check_full(&rt, 338, 0)?;
    check_full(&rt, 341, 1)?;
    Ok(())
}
