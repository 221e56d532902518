//! A transaction through its depths, its commits and its aborts.

use crate::tests::claims::{equal, equal_text, holds};
use std::process::Abort;
use std::test::Fail;
use transaction::{Restart, Tx, TxFault};
use words::{AbortCause, Addr, BlockNo, Cause, HartId, Reg, Regs, Stamp};

/// Registers in which x31 holds 7.
fn regs() -> Regs {
    let mut regs = Regs::new();
    regs.write(Reg::new(31), 7);
    regs
}

fn stamp(count: u64) -> Stamp {
    Stamp {
        count,
        hart: HartId::new(1),
    }
}

/// What comes of a begin where nothing is being aborted.
fn check_begin(
    rt: &impl Abort,
    tx: &mut Tx,
    regs: &Regs,
    pc: u32,
    count: u64,
    want: Result<bool, TxFault>,
) {
    holds(rt, tx.aborting().is_none());
    equal(rt, &tx.begin(regs, Addr::new(pc), stamp(count)), &want);
}

/// A transaction that began with `regs`, the abort pc 0x1014 and the stamp of count 5.
fn begun(rt: &impl Abort) -> Tx {
    let mut tx = Tx::new(Addr::new(0xff000));
    check_begin(rt, &mut tx, &regs(), 0x1014, 5, Ok(true));
    holds(rt, tx.aborting().is_none());
    tx
}

/// The stamp of the transaction.
fn check_stamp(rt: &impl Abort, tx: &Tx, count: u64) {
    equal(rt, &tx.stamp(), &Some(stamp(count)));
}

/// The stamp of the transaction, and that which is kept for the next.
fn check_stamps(rt: &impl Abort, tx: &Tx, running: Option<u64>, kept: Option<u64>) {
    equal(rt, &tx.stamp(), &running.map(stamp));
    equal(rt, &tx.kept_stamp(), &kept.map(stamp));
}

/// A record is appended, whose content is ones.
fn append(rt: &impl Abort, tx: &mut Tx) {
    equal(rt, &tx.append_record(BlockNo::new(256), &[1; 8]), &Ok(()));
}

/// Asserts the depth, both flags and how many records the log has.
fn check_state(rt: &impl Abort, tx: &Tx, depth: u8, flags: bool, records: usize) {
    equal(
        rt,
        &(tx.depth(), tx.overflow(), tx.cycle()),
        &(depth, flags, flags),
    );
    equal(rt, &tx.log().len(), &records);
}

fn check_commit(rt: &impl Abort, tx: &mut Tx) {
    holds(rt, tx.aborting().is_none());
    equal(rt, &tx.commit(), &Ok(()));
}

/// A transaction in a transaction, with a record and both flags.
fn nested(rt: &impl Abort) -> Tx {
    let mut tx = begun(rt);
    check_begin(rt, &mut tx, &Regs::new(), 0, 6, Ok(false));
    append(rt, &mut tx);
    tx.set_overflow();
    tx.set_cycle();
    tx
}

#[test]
fn an_inner_begin_keeps_what_the_outermost_took(rt: HostRuntime) {
    let tx = nested(&rt);
    check_state(&rt, &tx, 2, true, 1);
    equal(
        &rt,
        &(tx.stamp(), tx.abort_pc()),
        &(Some(stamp(5)), Addr::new(0x1014)),
    );
    equal(&rt, &tx.checkpoint().read(Reg::new(31)), &7);
}

#[test]
fn the_outermost_commit_forgets_log_and_flags(rt: HostRuntime) {
    let mut tx = nested(&rt);
    check_commit(&rt, &mut tx);
    check_state(&rt, &tx, 1, true, 1);
    check_commit(&rt, &mut tx);
    check_state(&rt, &tx, 0, false, 0);
    check_stamps(&rt, &tx, None, None);
}

#[test]
fn outside_nothing_commits_and_nothing_aborts(rt: HostRuntime) {
    let mut tx = begun(&rt);
    check_commit(&rt, &mut tx);
    let before = tx;
    holds(&rt, tx.aborting().is_none());
    equal(&rt, &tx.commit(), &Err(TxFault::Outside));
    equal(
        &rt,
        &tx.start_abort(AbortCause::Asked),
        &Err(TxFault::Outside),
    );
    holds(&rt, tx.same(&before) && tx.aborting().is_none());
}

#[test]
fn a_commit_leaves_no_stamp_for_the_next(rt: HostRuntime) {
    let mut tx = begun(&rt);
    check_commit(&rt, &mut tx);
    check_begin(&rt, &mut tx, &regs(), 0x1014, 6, Ok(true));
    check_stamp(&rt, &tx, 6);
}

fn start_abort(rt: &impl Abort, tx: &mut Tx, cause: AbortCause) {
    holds(rt, tx.aborting().is_none());
    equal(rt, &tx.start_abort(cause), &Ok(()));
}

/// The one record is taken.
fn pop(rt: &impl Abort, tx: &mut Tx) {
    holds(rt, !tx.log().is_empty());
    tx.pop_record();
}

/// A transaction that aborts for this cause, whose one record is taken.
fn undone(rt: &impl Abort, cause: AbortCause) -> Tx {
    let mut tx = begun(rt);
    append(rt, &mut tx);
    tx.set_overflow();
    start_abort(rt, &mut tx, cause);
    pop(rt, &mut tx);
    tx
}

/// The abort of a transaction ends, whose records are all taken.
fn end_abort(rt: &impl Abort, tx: &mut Tx) -> Restart {
    holds(rt, tx.log().is_empty() && tx.aborting().is_some());
    tx.end_abort()
}

#[test]
fn an_abort_restarts_at_the_checkpoint(rt: HostRuntime) {
    let cause = AbortCause::Trapped(Cause::Illegal, Addr::new(0x1008));
    let mut tx = undone(&rt, cause);
    equal(&rt, &tx.aborting(), &Some(cause));
    holds(&rt, tx.log().is_empty() && tx.aborting().is_some());
    let restart = tx.end_abort();
    equal(
        &rt,
        &(restart.regs.read(Reg::new(31)), restart.pc, restart.cause),
        &(7, Addr::new(0x1014), cause),
    );
    check_state(&rt, &tx, 0, false, 0);
}

#[test]
fn an_abort_keeps_the_stamp(rt: HostRuntime) {
    let mut tx = undone(&rt, AbortCause::Asked);
    end_abort(&rt, &mut tx);
    check_stamps(&rt, &tx, None, Some(5));
    check_begin(&rt, &mut tx, &regs(), 0x1014, 9, Ok(false));
    check_stamp(&rt, &tx, 5);
}

#[test]
fn nests_255_deep(rt: HostRuntime) {
    let mut tx = Tx::new(Addr::new(0xff000));
    for depth in 0..255 {
        check_begin(&rt, &mut tx, &regs(), 0, 0, Ok(depth == 0));
    }
    check_begin(&rt, &mut tx, &regs(), 0, 0, Err(TxFault::TooDeep));
    equal(&rt, &tx.depth(), &255);
}

#[test]
fn gives_way_to_an_earlier_one(rt: HostRuntime) {
    let mut tx = begun(&rt);
    tx.note_refusal(Some(stamp(6)));
    tx.note_refusal(None);
    holds(&rt, !tx.cycle() && !tx.must_abort(true));
    tx.note_refusal(Some(stamp(4)));
    holds(
        &rt,
        tx.cycle() && tx.must_abort(true) && !tx.must_abort(false),
    );
}

#[test]
fn faults_have_texts(rt: HostRuntime) -> Result<(), Fail> {
    let deep = TxFault::TooDeep.to_string(rt.alloc())?;
    let outside = TxFault::Outside.to_string(rt.alloc())?;
    equal_text(&rt, deep.as_str(), "1 TooDeep");
    equal_text(&rt, outside.as_str(), "2 Outside");
    Ok(())
}
