ghost use Rattle.std.specs.Prelude.{◌≡◌};
ghost use Rattle.words.specs.LineStates.{is_owned};

use crate::address::{Block, BlockNo};
use crate::hart::{HartId, HartSet};
use crate::stamp::Stamp;

/// What a request wants to do with a block.
#[derive(Clone, Copy, Debug, PartialEq, Eq)]
pub enum Kind {
    Read,
    Write,
}

/// How a cache may use a block: the states S, E and M of the MESI family.
#[derive(Clone, Copy, Debug, PartialEq, Eq)]
pub enum LineState {
    /// Other caches may hold the block too, so it is only read.
    Shared,
    /// No other cache holds the block, and memory has the same content.
    Exclusive,
    /// No other cache holds the block, and its content may be newer than memory's.
    Modified,
}

impl LineState {
    /// Whether no other cache may hold the block.
    pub fn is_owned(self) -> bool
        ensures { result ≡ is_owned self }
    {
        match self {
            LineState::Shared => false,
            LineState::Exclusive | LineState::Modified => true,
        }
    }
}

/// What harts and the directory tell each other of one block.
#[derive(Clone, Copy, Debug, PartialEq, Eq)]
pub enum Message {
    /// To the directory: a hart asks for a block, to read it (GetS) or to write it (GetM). The stamp is that of its
    /// transaction, if it is in one.
    Get {
        from: HartId,
        block: BlockNo,
        kind: Kind,
        stamp: Option<Stamp>,
    },
    /// To the directory: a hart gives up a block that only it held. `marked` says whether its transaction may have used it.
    Put {
        from: HartId,
        block: BlockNo,
        content: Block,
        marked: bool,
    },
    /// To the directory: a hart's request is over, granted (`ok`) or refused. The content is what another cache gave and memory
    /// may lack.
    Done {
        from: HartId,
        block: BlockNo,
        ok: bool,
        content: Option<Block>,
    },
    /// From the directory: what a request is given, memory's content, and the harts whose answers the requester has to await.
    Grant {
        to: HartId,
        block: BlockNo,
        give: LineState,
        content: Block,
        expect: HartSet,
    },
    /// From the directory: another hart's request, to a hart that may hold the block.
    Forward {
        to: HartId,
        block: BlockNo,
        kind: Kind,
        requester: HartId,
        stamp: Option<Stamp>,
    },
    /// From the directory: a Put has arrived.
    PutAck {
        to: HartId,
        block: BlockNo,
    },
    /// To the requester: its forwarded request is met; with the content, where only the answering hart had it.
    Ack {
        from: HartId,
        to: HartId,
        block: BlockNo,
        content: Option<Block>,
    },
    /// To the requester: its forwarded request is refused, by a transaction with this stamp.
    Nack {
        from: HartId,
        to: HartId,
        block: BlockNo,
        stamp: Option<Stamp>,
    },
}
