ghost use Rattle.std.specs.Prelude.{◌≡◌, ℕ, is_some, IsTrue};
ghost use Rattle.std.specs.Option.{option_map, option_and_then};
ghost use Rattle.protocol.specs.Messages.{shown};
ghost use Rattle.protocol.specs.Network.{LiesBelow};
ghost use Rattle.protocol.specs.Values.{ack_content, done_content, is_done_by, has_done};
ghost use Rattle.machine.specs.Mail.{in_flight};
ghost use Rattle.machine.specs.Reads.{FirstOf};

use network::Net;
use words::{Block, BlockNo, HartId, Message};

/// The content of an acknowledgement of a block.
fn ack_content(message: &Message, block: BlockNo) -> Option<Block>
    ensures { result ≡ ack_content block (shown message.now) }
{
    match message {
        Message::Ack {
            block: of,
            content,
            ..
        } if of.number() == block.number() => *content,
        _ => None,
    }
}

/// The content of a Done of a block.
fn done_content(message: &Message, block: BlockNo) -> Option<Block>
    ensures { result ≡ done_content block (shown message.now) }
{
    match message {
        Message::Done {
            block: of,
            content,
            ..
        } if of.number() == block.number() => *content,
        _ => None,
    }
}

/// Whether a message is the Done of a hart's granted request for a block.
fn is_done_by(message: &Message, requester: HartId, block: BlockNo) -> bool
    ensures { result ≡ is_done_by requester block (shown message.now) }
{
    match message {
        Message::Done {
            from,
            block: of,
            ok,
            ..
        } => *ok && from.index() == requester.index() && of.number() == block.number(),
        _ => false,
    }
}

/// What the first acknowledgement of a block carries that carries anything.
pub fn acknowledged(net: &Net, block: BlockNo) -> Option<Block>
    ensures { FirstOf (in_flight net.now.flights) (ack_content block) result }
{
    net.are_in_order();
    let mut number = 0;
    while let Some(flight) = net.next_from(number) {
        if let Some(content) = ack_content(&flight.message, block) {
            return Some(content);
        }
        number = flight.number + 1;
    }
    None
}

/// What the first Done of a block carries that carries anything.
pub fn finished(net: &Net, block: BlockNo) -> Option<Block>
    ensures { FirstOf (in_flight net.now.flights) (done_content block) result }
{
    net.are_in_order();
    let mut number = 0;
    while let Some(flight) = net.next_from(number) {
        if let Some(content) = done_content(&flight.message, block) {
            return Some(content);
        }
        number = flight.number + 1;
    }
    None
}

/// Whether the Done of a hart's granted request for a block is in flight.
pub fn has_done(net: &Net, requester: HartId, block: BlockNo) -> bool
    ensures { (keys : ℕ) → LiesBelow keys (in_flight net.now.flights) → result ≡ has_done keys (in_flight net.now.flights) requester block }
{
    net.are_in_order();
    let mut number = 0;
    while let Some(flight) = net.next_from(number) {
        if is_done_by(&flight.message, requester, block) {
            return true;
        }
        number = flight.number + 1;
    }
    false
}
