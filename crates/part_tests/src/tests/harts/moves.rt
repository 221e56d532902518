//! Hart 1 of 2, its program, and what happens to it.

use crate::tests::claims::{equal, holds, holds_at};
use hart::{CoreStep, ForwardAnswer, Granted, Hart, Settled};
use std::alloc::{AllocError, Global};
use std::process::Abort;
use table::{Segment, Text};
use words::{Addr, Block, BlockNo, Entry, HartId, HartSet, Kind, LineState, Message, Stamp};

pub(crate) type Small = Hart<2, 1>;

/// What a block holds when it is given.
pub(crate) const ONES: Block = [1; 8];

/// The hart that asks, and has to answer.
pub(crate) fn zero() -> HartId {
    HartId::new(0)
}

/// The hart of these tests.
pub(crate) fn one() -> HartId {
    HartId::new(1)
}

/// The block at 0x3000, which the programs access.
pub(crate) fn block() -> BlockNo {
    BlockNo::new(0x180)
}

/// Hart 0's stamp with this number.
fn stamp_of_zero(count: u64) -> Stamp {
    Stamp {
        count,
        hart: zero(),
    }
}

/// The stamp that hart 1 takes.
pub(crate) fn own_stamp() -> Option<Stamp> {
    Some(Stamp {
        count: 9,
        hart: one(),
    })
}

/// A program of these words, at 0x1000, and zeros behind them.
pub(crate) fn program(alloc: Global, words: &[u32]) -> Result<Vec<Segment>, AllocError> {
    let mut bytes = Vec::new(alloc);
    for word in words {
        bytes.extend_from_slice(&word.to_le_bytes())?;
    }
    let segment = Segment {
        addr: 0x1000,
        bytes,
        size: 4096,
        exec: true,
    };
    Ok(vec![in alloc; segment]?)
}

/// The hart as it begins, with 64 KiB of memory.
pub(crate) fn booted() -> Small {
    Hart::new(HartId::new(1), 2, 65_536, Addr::new(0x1000))
}

/// A step of its core, which there is, where so many stamps were taken in the machine.
pub(crate) fn step_at(rt: &impl Abort, hart: &mut Small, text: &Text, taken: u64) -> CoreStep {
    hart.core_step(text, taken).expect(rt, "a step")
}

/// A step of its core, which there is.
pub(crate) fn step(rt: &impl Abort, hart: &mut Small, text: &Text) -> CoreStep {
    step_at(rt, hart, text, 9)
}

/// So many steps, each of which retires a word and sends nothing.
pub(crate) fn retire(rt: &impl Abort, hart: &mut Small, text: &Text, steps: u32) {
    for _ in 0..steps {
        let pc = hart.pc();
        let step = step(rt, hart, text);
        holds_at(rt, matches!(step.entry, Some(Entry::Retire { .. })), &pc);
        equal(rt, &step.message, &None);
    }
}

/// A step that asks for a block.
pub(crate) fn ask(rt: &impl Abort, hart: &mut Small, text: &Text) {
    let step = step(rt, hart, text);
    holds(rt, matches!(step.message, Some(Message::Get { .. })));
    equal(rt, &step.entry, &None);
}

/// The grant of a request, which these harts have to answer.
pub(crate) fn grant(hart: &mut Small, block: BlockNo, give: LineState, expect: HartSet) -> Settled {
    let granted = Granted {
        content: ONES,
        give,
        expect,
    };
    hart.on_grant(block, &granted)
}

/// The grant of a request that hart 0 has to answer.
pub(crate) fn grant_but_for_one(hart: &mut Small, block: BlockNo) -> Settled {
    let mut expect = HartSet::empty();
    expect.insert(zero());
    grant(hart, block, LineState::Shared, expect)
}

/// Hart 0 asks for the block.
pub(crate) fn forward(hart: &mut Small, kind: Kind, stamp: Option<u64>) -> ForwardAnswer {
    hart.on_forward(block(), kind, stamp.map(stamp_of_zero))
}

/// Hart 0 refuses a request.
pub(crate) fn nack(hart: &mut Small, block: BlockNo, stamp: u64) {
    hart.on_nack(block, zero(), Some(stamp_of_zero(stamp)));
}

/// The Put of the block is over.
pub(crate) fn put_over(hart: &mut Small) {
    hart.on_put_ack(block());
}
