ghost use Rattle.std.specs.Prelude.{◌<◌, ◌*◌, ◌^◌};

use super::alike::check_alike;
use super::machines::{SIZE, booted};
use super::play::{Schedule, checked, play};
use super::programs::{SPILLS, STORES_113, STORES_114};
use crate::tests::claims::{equal, equal_at, holds_at};
use flat::Engine;
use machine::Machine;
use reference::{ABORTS, ADDS, COMMITS, COUNTS, Machine as Checker};
use std::process::Abort;
use std::test::Fail;
use words::{Addr, Entry, HartId, Status};

/// Whether each hart has exited with 0.
fn have_all_exited(checker: &Checker) -> bool {
    for number in 0..checker.harts() {
        if let Some(hart) = HartId::try_new(number) {
            if !matches!(&checker.regs(hart), Some((_, _, Status::Exited(0)))) {
                return false;
            }
        }
    }
    true
}

/// That the plain machine accepts each entry of a program, and shows what the machine does then. Whether all harts have exited with 0, and
/// what stands at 0x2000.
fn checked_outcome<const SETS: usize, const WAYS: usize>(
    rt: &(impl Abort + AllocGlobal),
    machine: &Machine<SETS, WAYS>,
    text: &[u32],
    harts: u32,
    entries: &[Entry],
) -> Result<(bool, Option<u32>), Fail> {
    let checker = checked(rt.alloc(), text, harts, SIZE, entries)?;
    check_alike(rt, machine, &checker);
    Ok((have_all_exited(&checker), checker.peek(Addr::new(0x2000))))
}

/// Plays a program by a schedule, and checks it by the plain machine. Whether all harts have exited with 0, and what stands at 0x2000.
fn outcome<const SETS: usize, const WAYS: usize>(
    rt: &(impl Abort + AllocGlobal),
    text: &[u32],
    harts: u32,
    schedule: Schedule,
    most: u32,
) -> Result<(bool, Option<u32>), Fail>
    requires sets { 0 < SETS }
    requires ways { 0 < WAYS }
    requires lines { SETS * WAYS < 2 ^ 32 }
    requires few { SETS < 2 ^ 32 }
{
    let mut machine = booted::<SETS, WAYS>(rt.alloc(), text, harts, SIZE)?;
    let mut entries = Vec::new(rt.alloc());
    play(&mut machine, schedule, most, &mut entries).expect(rt, "memory");
    checked_outcome(rt, &machine, text, harts, &entries)
}

/// The schedules, the second with evictions of so many blocks.
fn schedules(blocks: u32) -> [Schedule; 4] {
    [
        Schedule::Turns,
        Schedule::Evictions(blocks),
        Schedule::Newest,
        Schedule::Numbers,
    ]
}

/// That a program ends with this word at 0x2000 by every schedule, with both caches.
fn check_word(
    rt: &(impl Abort + AllocGlobal),
    text: &[u32],
    blocks: u32,
    harts: u32,
    word: u32,
) -> Result<(), Fail> {
    for schedule in schedules(blocks) {
        let normal = outcome::<16, 4>(rt, text, harts, schedule, 10_000)?;
        equal_at(rt, &normal, &(true, Some(word)), &schedule);
        let small = outcome::<2, 1>(rt, text, harts, schedule, 10_000)?;
        equal_at(rt, &small, &(true, Some(word)), &schedule);
    }
    Ok(())
}

/// That a program which ends within so many turns or rounds ends with this word at 0x2000, by every schedule and with both caches. (It need
/// not end: harts that always ask at the same time can refuse each other for ever.)
fn check_word_at_an_end(
    rt: &(impl Abort + AllocGlobal),
    text: &[u32],
    blocks: u32,
    harts: u32,
    most: u32,
    word: u32,
) -> Result<(), Fail> {
    for schedule in schedules(blocks) {
        let normal = outcome::<16, 4>(rt, text, harts, schedule, most)?;
        holds_at(rt, !normal.0 || normal.1 == Some(word), &schedule);
        let small = outcome::<2, 1>(rt, text, harts, schedule, most)?;
        holds_at(rt, !small.0 || small.1 == Some(word), &schedule);
    }
    Ok(())
}

#[test]
fn one_transaction(rt: HostRuntime) -> Result<(), Fail> {
    for harts in [1, 2, 8] {
        check_word(&rt, &COMMITS, 1, harts, 7)?;
        check_word(&rt, &ABORTS, 1, harts, 0)?;
    }
    Ok(())
}

#[test]
fn a_transaction_that_spills(rt: HostRuntime) -> Result<(), Fail> {
    for harts in [1, 2, 8] {
        check_word_at_an_end(&rt, &SPILLS, 3, harts, 2_000, 0)?;
    }
    Ok(())
}

#[test]
fn harts_count_in_transactions(rt: HostRuntime) -> Result<(), Fail> {
    check_word(&rt, &COUNTS, 1, 1, 100)?;
    for harts in [2, 8] {
        check_word_at_an_end(&rt, &COUNTS, 1, harts, 4_000, 100 * harts)?;
    }
    Ok(())
}

#[test]
fn two_harts_count_by_turns(rt: HostRuntime) -> Result<(), Fail> {
    let normal = outcome::<16, 4>(&rt, &COUNTS, 2, Schedule::Turns, 10_000)?;
    equal(&rt, &normal, &(true, Some(200)));
    let small = outcome::<2, 1>(&rt, &COUNTS, 2, Schedule::Turns, 10_000)?;
    equal(&rt, &small, &(true, Some(200)));
    Ok(())
}

#[test]
fn harts_add_to_one_word(rt: HostRuntime) -> Result<(), Fail> {
    for harts in [1, 2, 8] {
        check_word(&rt, &ADDS, 1, harts, 100 * harts)?;
    }
    Ok(())
}

#[test]
fn a_log_that_fills(rt: HostRuntime) -> Result<(), Fail> {
    check_word_at_an_end(&rt, &STORES_113, 113, 1, 1_000, 113)?;
    for (harts, most) in [(1, 1_000), (2, 1_000), (8, 300)] {
        check_word_at_an_end(&rt, &STORES_114, 114, harts, most, 0)?;
    }
    Ok(())
}
