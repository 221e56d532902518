//! What can't be retired, and what can't be booted.

use super::checks::{check_count, check_entry, check_register, check_run, check_status};
use super::moves::{booted, go, one, zero};
use crate::tests::claims::{equal, equal_at};
use flat::{BootFault, Engine};
use reference::{COMMITS, Machine, program};
use std::alloc::Global;
use std::process::Abort;
use std::test::Fail;
use words::{AbortCause, Addr, Cause, Entry, HartId, Status};

#[test]
fn transactions_nest_255_deep(rt: HostRuntime) -> Result<(), Fail> {
    let mut machine = booted(rt.alloc(), &[0x0000_000b; 256], 1)?;
    let mut entries = Vec::new(rt.alloc());
    go(rt.alloc(), &mut machine, zero(), 1000, &mut entries)?;
    let pc = Addr::new(0x1000 + 4 * 255);
    let abort = Entry::Abort {
        hart: zero(),
        cause: AbortCause::Trapped(Cause::TooDeep, pc),
    };
    check_count(&rt, entries.len(), 256);
    check_entry(&rt, &entries, 255, abort);
    let status = Status::Stopped(Cause::TooDeep, pc);
    check_status(&rt, &machine, zero(), status);
    Ok(())
}

/// Programs that trap at their third word. The first instructions put an address into t0; with one hart and 65,536 bytes the logs begin at
/// 61,440.
const TRAPS: [([u32; 3], Cause); 11] = [
    ([0x0000_12b7, 0x0000_0013, 0x0002_a023], Cause::StoreText),
    ([0x0001_02b7, 0x0000_0013, 0xffc2_a303], Cause::LogRegion),
    ([0x0001_02b7, 0x0000_0013, 0x0002_a303], Cause::LoadOutside),
    (
        [0x0000_22b7, 0x0000_0013, 0x0022_a303],
        Cause::LoadMisaligned,
    ),
    (
        [0x0000_22b7, 0x0000_0013, 0x0002_a1a3],
        Cause::StoreMisaligned,
    ),
    (
        [0x0000_22b7, 0x0000_0013, 0x0000_100b],
        Cause::OutsideTransaction,
    ),
    ([0x0000_22b7, 0x0000_0013, 0x0000_0000], Cause::Illegal),
    // What is both a load and a store, here AMOADD.W, has the causes of a store.
    (
        [0x0000_22b7, 0x0022_8293, 0x0072_a32f],
        Cause::StoreMisaligned,
    ),
    ([0x0000_12b7, 0x0000_0013, 0x0072_a32f], Cause::StoreText),
    ([0x0001_02b7, 0x0000_0013, 0x0072_a32f], Cause::StoreOutside),
    ([0x0000_f2b7, 0x0000_0013, 0x0072_a32f], Cause::LogRegion),
];

/// That the third word of a program traps.
fn check_trap(rt: &(impl Abort + AllocGlobal), text: &[u32], cause: Cause) -> Result<(), Fail> {
    let mut machine = booted(rt.alloc(), text, 1)?;
    let mut entries = Vec::new(rt.alloc());
    go(rt.alloc(), &mut machine, zero(), 10, &mut entries)?;
    let pc = Addr::new(0x1008);
    let trap = Entry::Trap {
        hart: zero(),
        cause,
        pc,
    };
    check_entry(rt, &entries, 2, trap);
    check_status(rt, &machine, zero(), Status::Stopped(cause, pc));
    check_run(rt, text, 1, &entries)?;
    Ok(())
}

#[test]
fn what_cannot_be_retired_traps(rt: HostRuntime) -> Result<(), Fail> {
    for (text, cause) in &TRAPS {
        check_trap(&rt, text, *cause)?;
    }
    Ok(())
}

/// How many bytes a hart has put out.
fn bytes_out(machine: &Machine, number: usize) -> Option<usize> {
    if number < machine.harts() {
        let hart = HartId::try_new(number)?;
        Some(machine.output(hart).len())
    } else {
        None
    }
}

/// That a machine has so many harts and bytes of memory, and hart 0 has put out nothing.
fn check_size(rt: &impl Abort, machine: &Machine, harts: usize, size: usize) {
    equal(rt, &(machine.harts(), machine.size()), &(harts, size));
    equal(rt, &bytes_out(machine, 0), &Some(0));
}

#[test]
fn boot_gives_stacks(rt: HostRuntime) -> Result<(), Fail> {
    let machine = booted(rt.alloc(), &COMMITS, 2)?;
    check_register(&rt, &machine, one(), 2, 53_248);
    check_register(&rt, &machine, one(), 10, 1);
    check_register(&rt, &machine, one(), 11, 2);
    check_size(&rt, &machine, 2, 65_536);
    Ok(())
}

/// Why a program isn't booted with so many harts and bytes, if it isn't.
fn boot_fault(alloc: Global, harts: u32, size: u32) -> Result<Option<BootFault>, Fail> {
    match Machine::boot(alloc, program(alloc, &COMMITS)?, harts, size) {
        Ok(_) => Ok(None),
        Err(fault) => Ok(Some(fault)),
    }
}

#[test]
fn boot_refuses_in_order(rt: HostRuntime) -> Result<(), Fail> {
    for (harts, size, want) in [
        (9, 65_537, BootFault::BadSize),
        (9, 65_536, BootFault::BadHarts),
        (0, 65_536, BootFault::BadHarts),
        (8, 65_536, BootFault::DoesNotFit),
    ] {
        let fault = boot_fault(rt.alloc(), harts, size)?;
        equal_at(&rt, &fault, &Some(want), &(harts, size));
    }
    Ok(())
}
