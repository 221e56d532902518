//! What has to come of each row.

use super::moves::{
    ONES, Small, block, forward, grant, grant_but_for_one, one, own_stamp, step, step_at,
};
use crate::tests::claims::{equal, equal_at, holds};
use hart::{ForwardAnswer, Local, Settled};
use std::process::Abort;
use table::Text;
use words::{
    AbortCause, Addr, Block, BlockNo, Entry, HartSet, Kind, LineState, Message, Stamp, Status,
};

pub(crate) fn check_gives(rt: &impl Abort, hart: &mut Small, text: &Text, want: Entry) {
    let step = step(rt, hart, text);
    equal(rt, &(step.message, step.entry), &(None, Some(want)));
}

pub(crate) fn check_steps_quietly(rt: &impl Abort, hart: &mut Small, text: &Text) {
    let step = step(rt, hart, text);
    equal(rt, &(step.message, step.entry), &(None, None));
}

pub(crate) fn check_call(rt: &impl Abort, hart: &mut Small, text: &Text, want: Option<u8>) {
    let step = step(rt, hart, text);
    holds(rt, matches!(step.entry, Some(Entry::Retire { .. })));
    equal(rt, &step.output, &want);
}

pub(crate) fn check_begins(
    rt: &impl Abort,
    hart: &mut Small,
    text: &Text,
    taken: u64,
    stamped: bool,
) {
    let step = step_at(rt, hart, text, taken);
    holds(rt, matches!(step.entry, Some(Entry::Retire { .. })));
    equal(rt, &step.stamped, &stamped);
    equal(rt, &stamp(hart), &own_stamp());
}

pub(crate) fn check_stands(rt: &impl Abort, hart: &mut Small, text: &Text) {
    equal(rt, &hart.core_step(text, 9), &None);
}

fn stamp(hart: &Small) -> Option<Stamp> {
    hart.transaction().stamp()
}

/// A step that asks for the block.
fn check_asks(rt: &impl Abort, hart: &mut Small, text: &Text, kind: Kind) {
    let get = Message::Get {
        from: one(),
        block: block(),
        kind,
        stamp: stamp(hart),
    };
    equal(rt, &step(rt, hart, text).message, &Some(get));
}

/// The request for the block is granted.
fn check_granted(rt: &impl Abort, hart: &mut Small, give: LineState) {
    let settled = grant(hart, block(), give, HartSet::empty());
    equal(rt, &settled, &Settled::Granted(block(), None));
    check_fresh(rt, hart, true);
}

/// Whether two harts are one in all that they keep.
fn check_same(rt: &impl Abort, hart: &Small, other: &Small, want: bool) {
    equal(rt, &hart.same(other), &want);
}

pub(crate) fn check_taken(
    rt: &impl Abort,
    hart: &mut Small,
    text: &Text,
    kind: Kind,
    give: LineState,
) {
    let before = *hart;
    check_asks(rt, hart, text, kind);
    check_stands(rt, hart, text);
    check_granted(rt, hart, give);
    check_same(rt, hart, &before, false);
}

pub(crate) fn check_spills(rt: &impl Abort, hart: &mut Small, text: &Text) {
    let put = Message::Put {
        from: one(),
        block: block(),
        content: ONES,
        marked: true,
    };
    let spill = Entry::Spill {
        hart: one(),
        block: block(),
    };
    let step = step(rt, hart, text);
    equal(rt, &(step.message, step.entry), &(Some(put), Some(spill)));
}

/// Whether a request is out.
fn check_waiting(rt: &impl Abort, hart: &Small, want: bool) {
    equal(rt, &hart.request().is_some(), &want);
}

pub(crate) fn check_waits(rt: &impl Abort, hart: &mut Small, block: BlockNo) {
    equal(rt, &grant_but_for_one(hart, block), &Settled::Waiting);
    check_waiting(rt, hart, true);
}

pub(crate) fn check_ends_refused(rt: &impl Abort, hart: &mut Small, block: BlockNo) {
    let settled = grant_but_for_one(hart, block);
    equal(rt, &settled, &Settled::Refused(block));
    check_waiting(rt, hart, false);
}

pub(crate) fn check_shared(rt: &impl Abort, hart: &mut Small, content: Block) {
    let answer = forward(hart, Kind::Read, None);
    equal(rt, &answer, &ForwardAnswer::Ack(Some(content)));
}

pub(crate) fn check_given(rt: &impl Abort, hart: &mut Small, kind: Kind, stamp: Option<u64>) {
    let answer = forward(hart, kind, stamp);
    holds(rt, matches!(answer, ForwardAnswer::Ack(_)));
}

pub(crate) fn check_refused(rt: &impl Abort, hart: &mut Small, kind: Kind, stamp: Option<u64>) {
    let answer = forward(hart, kind, stamp);
    equal(rt, &answer, &ForwardAnswer::Nack(own_stamp()));
}

pub(crate) fn check_retires_alone(rt: &impl Abort, hart: &mut Small, text: &Text) {
    holds(
        rt,
        matches!(hart.local(text), Local::Retired(Entry::Retire { .. })),
    );
}

pub(crate) fn check_gives_alone(rt: &impl Abort, hart: &mut Small, text: &Text, want: Entry) {
    equal(rt, &hart.local(text), &Local::Retired(want));
}

pub(crate) fn check_needs_hub(rt: &impl Abort, hart: &mut Small, text: &Text) {
    let before = *hart;
    equal(rt, &hart.local(text), &Local::NeedsMachine);
    check_same(rt, hart, &before, true);
}

pub(crate) fn check_register(rt: &impl Abort, hart: &Small, index: usize, want: u32) {
    equal_at(
        rt,
        &hart.registers().values().get(index).copied(),
        &Some(want),
        &index,
    );
}

pub(crate) fn check_pc(rt: &impl Abort, hart: &Small, want: u32) {
    equal(rt, &hart.pc(), &Addr::new(want));
}

pub(crate) fn check_status(rt: &impl Abort, hart: &Small, want: Status) {
    equal(rt, &hart.status(), &want);
}

fn state(hart: &Small) -> Option<LineState> {
    let line = hart.line(block())?;
    Some(line.state)
}

pub(crate) fn check_state(rt: &impl Abort, hart: &Small, want: Option<LineState>) {
    equal(rt, &state(hart), &want);
}

pub(crate) fn check_owned(rt: &impl Abort, hart: &Small, want: Block) {
    equal(rt, &hart.owned_content(block()), &Some(want));
}

pub(crate) fn check_logged(rt: &impl Abort, hart: &Small, want: Block) {
    holds(rt, hart.is_logged(block()));
    equal(rt, &hart.restored(block(), [0; 8]), &want);
}

pub(crate) fn check_fresh(rt: &impl Abort, hart: &Small, want: bool) {
    equal(rt, &hart.is_fresh(), &want);
}

pub(crate) fn check_put_out(rt: &impl Abort, hart: &Small, want: bool) {
    equal(rt, &hart.put().is_some(), &want);
}

pub(crate) fn check_depth(rt: &impl Abort, hart: &Small, want: u8) {
    equal(rt, &hart.transaction().depth(), &want);
}

pub(crate) fn check_cycle(rt: &impl Abort, hart: &Small, want: bool) {
    equal(rt, &hart.transaction().cycle(), &want);
}

pub(crate) fn check_aborting(rt: &impl Abort, hart: &Small, want: Option<AbortCause>) {
    equal(rt, &hart.transaction().aborting(), &want);
}

pub(crate) fn check_kept_stamp(rt: &impl Abort, hart: &Small) {
    equal(rt, &hart.kept_stamp(), &own_stamp());
}
