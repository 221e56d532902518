ghost use Rattle.std.specs.Prelude.{◌≡◌, ◌≤◌};
ghost use Rattle.words.specs.Limits.{most_harts};
ghost use Rattle.directory.specs.Sends.{messages_of, messages_in, AwaitsOthers};

use crate::rules::{Request, forward, push};
use arrayvec::ArrayVec;
use words::{Block, BlockNo, HARTS, HartId, HartSet, Kind, LineState, Message, Stamp};

/// A message that the directory sends. `Message` has no default value, which the places of a list that aren't used yet have to
/// have.
#[derive(Clone, Copy, Debug, PartialEq, Eq)]
pub struct Outgoing {
    pub message: Message,
}

impl Default for Outgoing {
    fn default() -> Self {
        Outgoing {
            message: Message::PutAck {
                to: HartId::new(0),
                block: BlockNo::new(0),
            },
        }
    }
}

/// The messages that one message makes the directory send: a grant and up to 7 forwards, or an acknowledgement, or none.
pub type Sends = ArrayVec<Outgoing, HARTS>;

/// What a request is given: how its hart may hold the block, and the harts whose answers it has to await.
#[derive(Clone, Copy, Debug, PartialEq, Eq)]
pub struct Given {
    pub give: LineState,
    pub expect: HartSet,
}

/// The messages that a message to the directory is answered with.
#[derive(Clone, Copy, Debug, PartialEq, Eq)]
pub enum Answer {
    /// None.
    Silent,
    /// A Put's hart is told that it has arrived.
    Acknowledged {
        to: HartId,
        block: BlockNo,
    },
    /// The requester is told what it is given, and then its request is forwarded to each hart whose answer it has to await, by rising
    /// number.
    Granted {
        to: HartId,
        give: LineState,
        expect: HartSet,
        content: Block,
        block: BlockNo,
        kind: Kind,
        stamp: Option<Stamp>,
    },
}

/// What the directory did with a message.
#[derive(Debug, Drop)]
pub enum Received {
    /// The message has to wait, as its block is busy.
    Held,
    /// The message was served, and these are sent, in this order.
    Sent(Sends),
}

/// The messages of an answer, in order.
pub(crate) fn sends_of(answer: &Answer, harts: usize) -> Sends
    requires harts { harts ≤ most_harts }
    requires others { AwaitsOthers answer.now }
    ensures { messages_of result ≡ messages_in harts answer.now }
{
    let mut sends = ArrayVec::new();
    match answer {
        Answer::Silent => {}
        Answer::Acknowledged { to, block } => {
            let message = Message::PutAck {
                to: *to,
                block: *block,
            };
            push(&mut sends, &Outgoing { message });
        }
        Answer::Granted {
            to,
            block,
            kind,
            stamp,
            give,
            content,
            expect,
        } => {
            let message = Message::Grant {
                to: *to,
                block: *block,
                give: *give,
                content: *content,
                expect: *expect,
            };
            push(&mut sends, &Outgoing { message });
            let request = Request {
                requester: *to,
                block: *block,
                kind: *kind,
                stamp: *stamp,
            };
            forward(&mut sends, expect, &request, harts);
        }
    }
    sends
}
