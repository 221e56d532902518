ghost use Rattle.std.specs.Prelude.{◌≡◌};
ghost use Rattle.schedule.specs.Spelling.{sort_name};

use words::{BlockNo, HartId};

/// The sorts of messages.
#[derive(Clone, Copy, Debug, PartialEq, Eq)]
pub enum Sort {
    Get,
    Put,
    Done,
    Grant,
    Forward,
    PutAck,
    Ack,
    Nack,
}

impl Sort {
    /// The word for it.
    pub fn name(self) -> &'static str
        ensures { result.now ≡ sort_name self }
    {
        match self {
            Sort::Get => "get",
            Sort::Put => "put",
            Sort::Done => "done",
            Sort::Grant => "grant",
            Sort::Forward => "forward",
            Sort::PutAck => "putack",
            Sort::Ack => "ack",
            Sort::Nack => "nack",
        }
    }
}

/// What tells a message from all others in flight: its sort, the hart that it is from, or that it goes to from the directory, and the
/// block that it is about.
#[derive(Clone, Copy, Debug, PartialEq, Eq)]
pub struct Name {
    pub sort: Sort,
    pub hart: HartId,
    pub block: BlockNo,
}

/// A choice of the next step.
#[derive(Clone, Copy, Debug, PartialEq, Eq)]
pub enum Choice {
    /// A hart goes on by one step of its core.
    Core(HartId),
    /// A hart gives up its line of a block.
    Evict(HartId, BlockNo),
    /// The message of this name arrives.
    Deliver(Name),
    /// The machine's own choice.
    Turn,
}
