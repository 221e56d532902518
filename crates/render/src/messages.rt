ghost use Rattle.std.specs.Prelude.{◌≡◌, ◌≤◌, ◌++◌, true, false, length, codes};
ghost use Rattle.words.specs.declared.message.Message.TheVariants.{Get, Put, Done, Grant, Forward, Ack, Nack};
ghost use Rattle.texts.specs.Puts.{Puts};
ghost use Rattle.render.specs.Messages as spec;

use crate::parts::{first_byte, hart_text, harts_text, letter, stamp_text};
use arrayvec::ArrayString;
use texts::{ascii, hexadecimal, put_all};
use words::{Block, BlockNo, HartId, HartSet, Kind, LineState, Message, Sink, SinkFault, Stamp};

/// A message: its sort, the hart that it is from or goes to from the directory, its block, and what else it says.
pub fn message_text(message: &Message) -> ArrayString<96>
    ensures { result.bytes ≡ spec.message_text message.now }
{
    match message {
        Message::Get { .. } | Message::Put { .. } | Message::Done { .. } => to_directory(message),
        _ => to_hart(message),
    }
}

/// A message that goes to the directory.
fn to_directory(message: &Message) -> ArrayString<96>
    requires { spec.is_to_directory message.now ≡ true }
    ensures { result.bytes ≡ spec.message_text message.now }
{
    match *message {
        Message::Get {
            from,
            block,
            kind,
            stamp,
        } => get(from, block, kind, stamp),
        Message::Put {
            from,
            block,
            content,
            marked,
        } => put(from, block, content, marked),
        Message::Done {
            from,
            block,
            ok,
            content,
        } => done(from, block, ok, content),
        _ => unreachable!(),
    }
}

/// A message that goes to a hart.
fn to_hart(message: &Message) -> ArrayString<96>
    requires { spec.is_to_directory message.now ≡ false }
    ensures { result.bytes ≡ spec.message_text message.now }
{
    match *message {
        Message::Grant {
            to,
            block,
            give,
            content,
            expect,
        } => grant(to, block, give, content, &expect),
        Message::Forward {
            to,
            block,
            kind,
            requester,
            stamp,
        } => forward(to, block, kind, requester, stamp),
        Message::PutAck { to, block } => heading("putack", to, block),
        Message::Ack {
            from,
            to,
            block,
            content,
        } => ack(from, to, block, content),
        Message::Nack {
            from,
            to,
            block,
            stamp,
        } => nack(from, to, block, stamp),
        _ => unreachable!(),
    }
}

/// Puts a message, with a line end.
pub fn put_message<S: Sink>(message: &Message, sink: &mut S) -> Result<(), SinkFault>
    ensures { Puts (S.state sink.old) (S.state sink.new) (spec.message_text message.now ++ codes "\n") result }
{
    put_all(sink, &[message_text(message).as_str().as_bytes(), b"\n"])
}

/// `sort H 0x..`.
fn heading(sort: &str, hart: HartId, block: BlockNo) -> ArrayString<96>
    requires { length sort.now ≤ 7 }
    ensures text { result.bytes ≡ spec.heading sort.now hart block }
    ensures short { length result.bytes ≤ 22 }
{
    let mut text = ArrayString::new();
    text.push_str(sort);
    text.push_str(" ");
    text.push_str(hart_text(hart).as_str());
    text.push_str(" 0x");
    text.push_str(ascii(&first_byte(block)));
    text
}

fn kind_text(kind: Kind) -> &'static str
    ensures text { result.now ≡ spec.kind_text kind }
    ensures short { length result.now ≤ 6 }
{
    match kind {
        Kind::Read => " read",
        Kind::Write => " write",
    }
}

fn marked_text(marked: bool) -> &'static str
    ensures text { result.now ≡ spec.marked_text marked }
    ensures short { length result.now ≤ 9 }
{
    if marked { " marked" } else { " unmarked" }
}

fn ok_text(ok: bool) -> &'static str
    ensures text { result.now ≡ spec.ok_text ok }
    ensures short { length result.now ≤ 8 }
{
    if ok { " ok" } else { " refused" }
}

fn stamp_part(stamp: Option<Stamp>) -> ArrayString<31>
    ensures { result.bytes ≡ spec.stamp_part stamp }
{
    let mut text = ArrayString::new();
    text.push_str(" stamp ");
    text.push_str(stamp_text(stamp).as_str());
    text
}

#[tactic(auto, unfolding(crate::specs::Messages::first_word))]
fn first_word(content: &Block) -> ArrayString<19>
    ensures { result.bytes ≡ spec.first_word content.now }
{
    let mut text = ArrayString::new();
    text.push_str(" content 0x");
    text.push_str(ascii(&hexadecimal(content[0])));
    text
}

fn content_part(content: Option<Block>) -> ArrayString<19>
    ensures { result.bytes ≡ spec.content_part content }
{
    match content {
        Some(content) => first_word(&content),
        None => {
            let mut text = ArrayString::new();
            text.push_str(" content -");
            text
        }
    }
}

fn get(from: HartId, block: BlockNo, kind: Kind, stamp: Option<Stamp>) -> ArrayString<96>
    ensures { result.bytes ≡ spec.message_text (Get from block kind stamp) }
{
    let mut text = heading("get", from, block);
    text.push_str(kind_text(kind));
    text.push_str(stamp_part(stamp).as_str());
    text
}

fn put(from: HartId, block: BlockNo, content: Block, marked: bool) -> ArrayString<96>
    ensures { result.bytes ≡ spec.message_text (Put from block content marked) }
{
    let mut text = heading("put", from, block);
    text.push_str(marked_text(marked));
    text.push_str(first_word(&content).as_str());
    text
}

fn done(from: HartId, block: BlockNo, ok: bool, content: Option<Block>) -> ArrayString<96>
    ensures { result.bytes ≡ spec.message_text (Done from block ok content) }
{
    let mut text = heading("done", from, block);
    text.push_str(ok_text(ok));
    text.push_str(content_part(content).as_str());
    text
}

fn grant(
    to: HartId,
    block: BlockNo,
    give: LineState,
    content: Block,
    expect: &HartSet,
) -> ArrayString<96>
    ensures { result.bytes ≡ spec.message_text (Grant to block give content expect.now) }
{
    let mut text = heading("grant", to, block);
    text.push_str(" ");
    text.push_str(letter(give));
    text.push_str(" expect ");
    text.push_str(harts_text(expect).as_str());
    text.push_str(first_word(&content).as_str());
    text
}

fn forward(
    to: HartId,
    block: BlockNo,
    kind: Kind,
    requester: HartId,
    stamp: Option<Stamp>,
) -> ArrayString<96>
    ensures { result.bytes ≡ spec.message_text (Forward to block kind requester stamp) }
{
    let mut text = heading("forward", to, block);
    text.push_str(kind_text(kind));
    text.push_str(" for ");
    text.push_str(hart_text(requester).as_str());
    text.push_str(stamp_part(stamp).as_str());
    text
}

fn ack(from: HartId, to: HartId, block: BlockNo, content: Option<Block>) -> ArrayString<96>
    ensures { result.bytes ≡ spec.message_text (Ack from to block content) }
{
    let mut text = heading("ack", from, block);
    text.push_str(" to ");
    text.push_str(hart_text(to).as_str());
    text.push_str(content_part(content).as_str());
    text
}

fn nack(from: HartId, to: HartId, block: BlockNo, stamp: Option<Stamp>) -> ArrayString<96>
    ensures { result.bytes ≡ spec.message_text (Nack from to block stamp) }
{
    let mut text = heading("nack", from, block);
    text.push_str(" to ");
    text.push_str(hart_text(to).as_str());
    text.push_str(stamp_part(stamp).as_str());
    text
}
