//! How fast an undo log and a hart's transaction are copied and compared.
use crate::timing::tell;
use std::io;
use std::rt::Clock;
use std::time::Instant;
use transaction::Tx;
use undo_log::UndoLog;
use words::{Addr, BlockNo, HartId, Regs, Stamp};

/// A log with a record of each of the blocks 0 to 112, which is full.
fn full() -> UndoLog {
    let mut log = UndoLog::new(Addr::new(0xff000));
    for number in 0..113u32 {
        // The 113 records fit.
        let _ = log.append(BlockNo::new(number), &[number; 8]);
    }
    log
}

// What is timed is not inlined, so that no round is optimized away.

#[inline(never)]
fn copied(log: &UndoLog) -> UndoLog {
    *log
}

#[inline(never)]
fn copied_tx(tx: &Tx) -> Tx {
    *tx
}

#[inline(never)]
fn are_same(a: &UndoLog, b: &UndoLog) -> bool {
    a.same(b)
}

#[inline(never)]
fn are_same_tx(a: &Tx, b: &Tx) -> bool {
    a.same(b)
}

/// Copies a full log, and counts the copies that are full.
fn copy_logs(log: &UndoLog, rounds: u64) -> u64 {
    let mut count = 0u64;
    for _ in 0..rounds {
        if copied(log).is_full() {
            count = count.wrapping_add(1);
        }
    }
    count
}

/// Copies a transaction, and counts the copies that are outside.
fn copy_transactions(tx: &Tx, rounds: u64) -> u64 {
    let mut count = 0u64;
    for _ in 0..rounds {
        if copied_tx(tx).depth() == 0 {
            count = count.wrapping_add(1);
        }
    }
    count
}

/// Appends a record to each of two logs that are equal, compares them, and takes the records out again.
fn compare_logs(a: &mut UndoLog, b: &mut UndoLog, rounds: u64) -> u64 {
    let mut count = 0u64;
    for round in 0..rounds {
        let before = [(round % 251) as u32; 8];
        a.reset();
        b.reset();
        let appended = a.append(BlockNo::new(1), &before).is_ok()
            && b.append(BlockNo::new(1), &before).is_ok();
        if appended && are_same(a, b) {
            count = count.wrapping_add(1);
        }
    }
    count
}

/// Begins two transactions from equal ones, and compares them.
fn compare_transactions(first: &Tx, rounds: u64) -> u64 {
    let mut count = 0u64;
    for round in 0..rounds {
        let a = begun(first, round);
        let b = begun(first, round);
        if are_same_tx(&a, &b) {
            count = count.wrapping_add(1);
        }
    }
    count
}

/// A copy in which a transaction has begun, if there was none.
#[inline(never)]
fn begun(tx: &Tx, count: u64) -> Tx {
    let mut tx = *tx;
    let stamp = Stamp {
        count,
        hart: HartId::new(0),
    };
    if tx.aborting().is_none() {
        // It is refused at depth 255 alone.
        let _ = tx.begin(&Regs::new(), Addr::new(0x1000), stamp);
    }
    tx
}

pub(crate) fn measure(rt: &(impl Print + Eprint + Clock), rounds: u64) -> io::Result<()> {
    measure_logs(rt, rounds)?;
    let tx = Tx::new(Addr::new(0xff000));
    let start = Instant::now(rt);
    let count = copy_transactions(&tx, rounds);
    tell(rt, "copy of a transaction", count, start, rounds)?;
    let start = Instant::now(rt);
    let count = compare_transactions(&tx, rounds);
    tell(rt, "two copies, two begins, same", count, start, rounds)
}

fn measure_logs(rt: &(impl Print + Eprint + Clock), rounds: u64) -> io::Result<()> {
    let mut log = full();
    let mut other = log;
    let start = Instant::now(rt);
    let count = copy_logs(&log, rounds);
    tell(rt, "copy of a log", count, start, rounds)?;
    let start = Instant::now(rt);
    let count = compare_logs(&mut log, &mut other, rounds);
    tell(rt, "two appends, same of two logs", count, start, rounds)
}
