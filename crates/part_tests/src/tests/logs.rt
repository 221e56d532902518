//! Undo logs: their records, and the bytes that these stand in. The calls say nothing of what they answer, so that no test's proof has to carry it.

use crate::tests::claims::{equal, equal_at, equal_text, holds};
use std::process::Abort;
use std::test::Fail;
use undo_log::{LogFull, Record, UndoLog};
use words::{Addr, Block, BlockNo};

const BASE: u32 = 0xff000;

fn block_of(first: u32) -> Block {
    [first, 0, 0, 0, 0, 0, 0, 0]
}

fn empty() -> UndoLog {
    UndoLog::new(Addr::new(BASE))
}

/// The record of a block, whose content began with a word before.
fn check_appended(
    rt: &impl Abort,
    log: &mut UndoLog,
    number: u32,
    first: u32,
    want: Result<(), LogFull>,
) {
    holds(rt, number < 4096);
    equal(
        rt,
        &log.append(BlockNo::new(number), &block_of(first)),
        &want,
    );
}

/// A log with two records of one block, whose first words are 0 and 7.
fn stored_twice(rt: &impl Abort) -> UndoLog {
    let mut log = empty();
    check_appended(rt, &mut log, 256, 0, Ok(()));
    check_appended(rt, &mut log, 256, 7, Ok(()));
    log
}

/// How many records there are, of the 113 that fill a log.
fn check_len(rt: &impl Abort, log: &UndoLog, want: usize) {
    equal(rt, &log.len(), &want);
    equal(
        rt,
        &(log.is_empty(), log.is_full()),
        &(want == 0, want == 113),
    );
}

/// The first word of what a block goes back to, which begins with 9 now.
fn check_restored(rt: &impl Abort, log: &UndoLog, number: u32, want: u32) {
    equal(
        rt,
        &log.restored(BlockNo::new(number), block_of(9)),
        &block_of(want),
    );
}

fn check_held(rt: &impl Abort, log: &UndoLog, number: u32, want: bool) {
    equal(rt, &log.holds(BlockNo::new(number)), &want);
}

/// The newest record is that of block 256, whose content began with a word before. It is taken off.
fn check_popped(rt: &impl Abort, log: &mut UndoLog, first: u32) {
    holds(rt, log.len() > 0);
    let record = Record {
        block: BlockNo::new(256),
        before: block_of(first),
    };
    equal(rt, &log.newest(), &record);
    log.pop();
}

fn check_word(rt: &impl Abort, log: &UndoLog, addr: u32, want: Option<u32>) {
    equal_at(rt, &log.word(Addr::new(addr)), &want, &addr);
}

fn check_words(rt: &impl Abort, log: &UndoLog, words: &[(u32, Option<u32>)]) {
    for (addr, want) in words {
        check_word(rt, log, *addr, *want);
    }
}

fn check_same(rt: &impl Abort, log: &UndoLog, other: &UndoLog, want: bool) {
    equal(rt, &log.same(other), &want);
}

fn reset(log: &mut UndoLog) {
    log.reset();
}

fn assign(log: &mut UndoLog, other: &UndoLog) {
    log.assign(other);
}

#[test]
fn holds_113_records(rt: HostRuntime) {
    let mut log = empty();
    for number in 0..113 {
        check_appended(&rt, &mut log, number, number, Ok(()));
    }
    check_len(&rt, &log, 113);
    let before = log;
    check_appended(&rt, &mut log, 0, 9, Err(LogFull));
    check_same(&rt, &log, &before, true);
    check_len(&rt, &log, 113);
    check_restored(&rt, &log, 112, 112);
}

/// That the words of a record are an address and eight zeros.
fn check_record(rt: &impl Abort) {
    let mut log = empty();
    check_appended(rt, &mut log, 256, 0, Ok(()));
    check_word(rt, &log, BASE, Some(0x2000));
    for k in 1..9 {
        check_word(rt, &log, BASE + 4 * k, Some(0));
    }
}

/// Words of a log with two records of one block.
static TWICE: [(u32, Option<u32>); 4] = [
    (0xff000, Some(0x2000)),
    (0xff004, Some(0)),
    (0xff024, Some(0x2000)),
    (0xff028, Some(7)),
];

#[test]
fn bytes_stand_where_they_should(rt: HostRuntime) {
    check_record(&rt);
    let mut log = stored_twice(&rt);
    check_words(&rt, &log, &TWICE);
    check_len(&rt, &log, 2);
    check_popped(&rt, &mut log, 7);
    check_words(&rt, &log, &TWICE);
    reset(&mut log);
    check_len(&rt, &log, 0);
    check_word(&rt, &log, 0xff028, Some(7));
}

/// Words at the ends of a log, and outside it.
static ENDS: [(u32, Option<u32>); 4] = [
    (0xfeffc, None),
    (0xff002, None),
    (0xffffc, Some(0)),
    (0x100000, None),
];

#[test]
fn words_are_within_the_log(rt: HostRuntime) {
    check_words(&rt, &stored_twice(&rt), &ENDS);
}

#[test]
fn the_oldest_image_is_restored(rt: HostRuntime) {
    let mut log = stored_twice(&rt);
    check_restored(&rt, &log, 256, 0);
    check_restored(&rt, &log, 257, 9);
    check_held(&rt, &log, 256, true);
    check_held(&rt, &log, 257, false);
    check_len(&rt, &log, 2);
    check_popped(&rt, &mut log, 7);
    check_popped(&rt, &mut log, 0);
    check_held(&rt, &log, 256, false);
}

/// That two logs without records differ by the bytes that they hold.
fn check_bytes(rt: &impl Abort) {
    let mut log = stored_twice(rt);
    let mut fresh = empty();
    reset(&mut log);
    check_len(rt, &log, 0);
    check_len(rt, &fresh, 0);
    check_same(rt, &log, &fresh, false);
    fresh = log;
    check_same(rt, &log, &fresh, true);
}

#[test]
fn other_bytes_are_another_log(rt: HostRuntime) -> Result<(), Fail> {
    check_bytes(&rt);
    equal_text(
        &rt,
        LogFull.to_string(rt.alloc())?.as_str(),
        "the undo log is full",
    );
    Ok(())
}

/// Words of a log whose second record is undone, and whose first is another since.
static OVERWRITTEN: [(u32, Option<u32>); 4] = [
    (0xff000, Some(0x4000)),
    (0xff004, Some(3)),
    (0xff024, Some(0x2000)),
    (0xff028, Some(7)),
];

/// Words of a log that has had one record.
static ONCE: [(u32, Option<u32>); 4] = [
    (0xff000, Some(0x4000)),
    (0xff004, Some(3)),
    (0xff024, Some(0)),
    (0xff028, Some(0)),
];

/// That a log of one record and other bytes becomes one which has had that record alone.
fn check_shortened(rt: &impl Abort, log: &mut UndoLog) {
    let mut shorter = empty();
    check_appended(rt, &mut shorter, 512, 3, Ok(()));
    check_same(rt, log, &shorter, false);
    assign(log, &shorter);
    check_same(rt, log, &shorter, true);
    check_len(rt, log, 1);
    check_words(rt, log, &ONCE);
}

#[test]
fn becomes_a_copy_of_a_shorter_log(rt: HostRuntime) {
    let mut log = stored_twice(&rt);
    reset(&mut log);
    check_appended(&rt, &mut log, 512, 3, Ok(()));
    check_words(&rt, &log, &OVERWRITTEN);
    check_shortened(&rt, &mut log);
}

#[test]
fn becomes_a_copy_of_a_longer_log(rt: HostRuntime) {
    let longer = stored_twice(&rt);
    let mut log = empty();
    check_appended(&rt, &mut log, 512, 3, Ok(()));
    assign(&mut log, &longer);
    check_same(&rt, &log, &longer, true);
    check_word(&rt, &log, 0xff000, Some(0x2000));
    check_word(&rt, &log, 0xff028, Some(7));
    check_len(&rt, &log, 2);
}
