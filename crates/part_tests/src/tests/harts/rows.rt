//! Tests as rows: what is done to a hart, and what has to come of it.

use super::checks::{
    check_aborting, check_begins, check_call, check_cycle, check_depth, check_ends_refused,
    check_fresh, check_given, check_gives, check_gives_alone, check_kept_stamp, check_logged,
    check_needs_hub, check_owned, check_pc, check_put_out, check_refused, check_register,
    check_retires_alone, check_shared, check_spills, check_stands, check_state, check_status,
    check_steps_quietly, check_taken, check_waits,
};
use super::moves::{Small, ask, booted, nack, program, put_over, retire};
use crate::tests::claims::holds_at;
use std::process::Abort;
use std::test::Fail;
use table::Text;
use words::{AbortCause, Block, BlockNo, Entry, Kind, LineState, Status};

/// A row of a test on hart 1. "The block" is that at 0x3000; hart 0 asks for it, and answers requests. A stamp is told by its number, hart 0's
/// or that which hart 1 takes, 9.
#[derive(Clone, Copy)]
pub(crate) enum Row {
    /// So many steps each retire a word, and send nothing.
    Retires(u32),
    /// A step retires a call, which puts out this byte.
    Calls(Option<u8>),
    /// A step gives this entry, and sends nothing.
    Gives(Entry),
    /// A step gives no entry, and sends nothing.
    StepsQuietly,
    /// A step begins a transaction, where so many stamps were taken in the machine; whether it takes a new one.
    Begins(u64, bool),
    /// The core has no step.
    Stands,
    /// A step asks for the block, stands until it is granted, and is given it in this state.
    Takes(Kind, LineState),
    /// A step asks for a block.
    Asks,
    /// A step gives up the block's marked line.
    Spills,
    /// The grant of a request that hart 0 has to answer: the hart waits on.
    Waits(BlockNo),
    /// The same once hart 0 has refused it: the request ends.
    EndsRefused(BlockNo),
    /// Hart 0 refuses a request.
    IsRefused(BlockNo, u64),
    /// Hart 0 is given this content of the block.
    Shares(Block),
    /// Hart 0, with this stamp or none, may have the block.
    Allows(Kind, Option<u64>),
    /// Hart 0, with this stamp or none, is refused the block.
    Refuses(Kind, Option<u64>),
    /// The Put of the block is over.
    PutOver,
    /// By itself the hart retires a word.
    RetiresAlone,
    /// By itself it retires a word with this entry.
    GivesAlone(Entry),
    /// By itself it does nothing.
    NeedsMachine,
    /// A register holds this word.
    Register(usize, u32),
    Pc(u32),
    Status(Status),
    /// The state of the block's line, `None` where there is none.
    Line(Option<LineState>),
    /// The block is owned, with this content.
    Owned(Block),
    /// The undo log has a record of the block, with this content.
    Logged(Block),
    /// Whether a request was granted, and the core has made no step since.
    Fresh(bool),
    /// Whether a Put isn't over.
    PutOut(bool),
    /// How deep the transaction is.
    Depth(u8),
    /// Whether the transaction may be part of a cycle.
    Cycle(bool),
    /// Why the transaction is being aborted, if it is.
    Aborting(Option<AbortCause>),
    /// Hart 1's stamp is kept for the next transaction.
    KeepsStamp,
}

/// A row that is about what the core does.
fn check_step(rt: &impl Abort, hart: &mut Small, text: &Text, row: &Row) {
    match row {
        Row::Retires(steps) => retire(rt, hart, text, *steps),
        Row::Calls(byte) => check_call(rt, hart, text, *byte),
        Row::Gives(entry) => check_gives(rt, hart, text, *entry),
        Row::StepsQuietly => check_steps_quietly(rt, hart, text),
        Row::Begins(taken, stamped) => check_begins(rt, hart, text, *taken, *stamped),
        Row::Stands => check_stands(rt, hart, text),
        Row::Takes(kind, give) => check_taken(rt, hart, text, *kind, *give),
        Row::Asks => ask(rt, hart, text),
        Row::Spills => check_spills(rt, hart, text),
        Row::RetiresAlone => check_retires_alone(rt, hart, text),
        Row::GivesAlone(entry) => check_gives_alone(rt, hart, text, *entry),
        Row::NeedsMachine => check_needs_hub(rt, hart, text),
        other => check_message(rt, hart, other),
    }
}

/// A row that is about a message which arrives.
fn check_message(rt: &impl Abort, hart: &mut Small, row: &Row) {
    match row {
        Row::Waits(block) => check_waits(rt, hart, *block),
        Row::EndsRefused(block) => check_ends_refused(rt, hart, *block),
        Row::IsRefused(block, stamp) => nack(hart, *block, *stamp),
        Row::Shares(content) => check_shared(rt, hart, *content),
        Row::Allows(kind, stamp) => check_given(rt, hart, *kind, *stamp),
        Row::Refuses(kind, stamp) => check_refused(rt, hart, *kind, *stamp),
        Row::PutOver => put_over(hart),
        other => check_read(rt, hart, other),
    }
}

/// A row that is about what can be read of the hart.
fn check_read(rt: &impl Abort, hart: &Small, row: &Row) {
    match row {
        Row::Register(index, want) => check_register(rt, hart, *index, *want),
        Row::Pc(want) => check_pc(rt, hart, *want),
        Row::Status(want) => check_status(rt, hart, *want),
        Row::Line(want) => check_state(rt, hart, *want),
        Row::Owned(want) => check_owned(rt, hart, *want),
        Row::Logged(want) => check_logged(rt, hart, *want),
        Row::Fresh(want) => check_fresh(rt, hart, *want),
        Row::PutOut(want) => check_put_out(rt, hart, *want),
        Row::Depth(want) => check_depth(rt, hart, *want),
        Row::Cycle(want) => check_cycle(rt, hart, *want),
        Row::Aborting(want) => check_aborting(rt, hart, *want),
        Row::KeepsStamp => check_kept_stamp(rt, hart),
        _ => holds_at(rt, false, &"no row"),
    }
}

/// That each row comes true in order, from the beginning of a program on.
pub(crate) fn check(
    rt: &(impl Abort + AllocGlobal),
    words: &[u32],
    rows: &[Row],
) -> Result<(), Fail> {
    let segments = program(rt.alloc(), words)?;
    let text = Text::new(&segments);
    let mut hart = booted();
    for row in rows {
        check_step(rt, &mut hart, &text, row);
    }
    Ok(())
}
