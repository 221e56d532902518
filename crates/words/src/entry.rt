use crate::address::{Addr, BlockNo};
use crate::cause::{AbortCause, Cause};
use crate::hart::HartId;
use crate::register::Reg;

/// How many bytes an access has: 1, 2 or 4.
#[derive(Clone, Copy, Debug, PartialEq, Eq)]
pub enum Width {
    Byte,
    Half,
    Word,
}

/// An access: its bytes read little-endian, without sign.
#[derive(Clone, Copy, Debug, PartialEq, Eq)]
pub struct Access {
    pub addr: Addr,
    pub width: Width,
    pub value: u32,
}

/// What a step of a machine shows.
#[derive(Clone, Copy, Debug, PartialEq, Eq)]
pub enum Entry {
    /// A hart retired the word at its pc: the register written (never x0), what was loaded, what was stored.
    Retire {
        hart: HartId,
        pc: Addr,
        word: u32,
        write: Option<(Reg, u32)>,
        load: Option<Access>,
        store: Option<Access>,
    },
    /// A hart aborted its transaction.
    Abort {
        hart: HartId,
        cause: AbortCause,
    },
    /// A hart was stopped outside a transaction.
    Trap {
        hart: HartId,
        cause: Cause,
        pc: Addr,
    },
    /// A hart kept a block that another asked for.
    Refuse {
        hart: HartId,
        requester: HartId,
        block: BlockNo,
    },
    /// A hart gave up a line of its cache that its transaction had used.
    Spill {
        hart: HartId,
        block: BlockNo,
    },
}

/// One step of a machine, enabled or not.
#[derive(Clone, Copy, Debug, PartialEq, Eq)]
pub enum Step {
    /// A hart goes on by one step of its core.
    Core(HartId),
    /// A hart gives up its line of a block.
    Evict(HartId, BlockNo),
    /// The message under this key arrives.
    Deliver(usize),
}
