ghost use Rattle.std.specs.Prelude.{◌≡◌, false, Some, None};

use words::{Block, BlockNo, Entry, Kind, Message, Stamp};

/// What a hart sends, and the entry that it gives, when a line is evicted.
#[derive(Clone, Copy, Debug, PartialEq, Eq)]
pub struct Reply {
    pub message: Option<Message>,
    pub entry: Option<Entry>,
}

/// How the request that is out goes on, once an answer to it has arrived.
#[derive(Clone, Copy, Debug, PartialEq, Eq)]
pub enum Settled {
    /// It awaits others still, or none was out for the answer's block.
    Waiting,
    /// That for a block has ended: a hart refused it.
    Refused(BlockNo),
    /// That for a block has ended granted. The directory is told of its content what memory lacks.
    Granted(BlockNo, Option<Block>),
}

/// What a hart answers to another's request for a block.
#[derive(Clone, Copy, Debug, PartialEq, Eq)]
pub enum ForwardAnswer {
    /// It refuses: its transaction, if it has one, has this stamp.
    Nack(Option<Stamp>),
    /// It shares the block or has given it up. It sends the content, where only it had it.
    Ack(Option<Block>),
}

/// What a core step sends and shows.
#[derive(Clone, Copy, Debug, PartialEq, Eq)]
pub struct CoreStep {
    pub message: Option<Message>,
    pub entry: Option<Entry>,
    /// Whether the hart took a new stamp.
    pub stamped: bool,
    /// The byte that it put out.
    pub output: Option<u8>,
}

/// What one of the common steps of a core does: it asks for a block, or begins or ends a transaction.
#[derive(Clone, Copy, Debug, PartialEq, Eq)]
pub struct CommonStep {
    /// The block that is asked for. The request carries the hart's stamp.
    pub asked: Option<Asked>,
    pub entry: Option<Entry>,
    /// Whether the hart took a new stamp.
    pub stamped: bool,
}

/// A block that a hart asks for, to read or to write it.
#[derive(Clone, Copy, Debug, PartialEq, Eq)]
pub struct Asked {
    pub block: BlockNo,
    pub kind: Kind,
}

impl CoreStep {
    /// A step that nobody else sees.
    pub(crate) const fn quiet() -> Self
        ensures { result ≡ record { message = None; entry = None; stamped = false; output = None } }
    {
        CoreStep {
            message: None,
            entry: None,
            stamped: false,
            output: None,
        }
    }

    /// A step that gives an entry.
    pub(crate) const fn gives(entry: Entry) -> Self
        ensures { result ≡ record { message = None; entry = Some entry; stamped = false; output = None } }
    {
        CoreStep {
            message: None,
            entry: Some(entry),
            stamped: false,
            output: None,
        }
    }

    /// A step that sends a message.
    pub(crate) const fn sends(message: Message) -> Self
        ensures { result ≡ record { message = Some message; entry = None; stamped = false; output = None } }
    {
        CoreStep {
            message: Some(message),
            entry: None,
            stamped: false,
            output: None,
        }
    }
}

impl CommonStep {
    /// That which a step of a core does that sends nothing and puts nothing out.
    #[inline(always)]
    pub(crate) fn delimits(made: &CoreStep) -> Self
        ensures { result ≡ record { asked = None; entry = made.now.entry; stamped = made.now.stamped } }
    {
        CommonStep {
            asked: None,
            entry: made.entry,
            stamped: made.stamped,
        }
    }

    /// A step that asks for a block.
    #[inline(always)]
    pub(crate) fn asks(kind: Kind, block: BlockNo) -> Self
        ensures { result ≡ record { asked = Some (record { block = block; kind = kind }); entry = None; stamped = false } }
    {
        CommonStep {
            asked: Some(Asked { block, kind }),
            entry: None,
            stamped: false,
        }
    }
}

/// What a hart did by itself.
#[derive(Clone, Copy, Debug, PartialEq, Eq)]
pub enum Local {
    /// It retired a word.
    Retired(Entry),
    /// Nothing: the next step has to be made in the machine, or there is none.
    NeedsMachine,
}

impl CoreStep {
    ghost use Rattle.hart.specs.Locals.{local_of};

    /// The step, as one that the hart made by itself.
    pub(crate) fn alone(&self) -> Local
        ensures { result ≡ local_of self.now.entry }
    {
        match self.entry {
            Some(entry) => Local::Retired(entry),
            None => Local::NeedsMachine,
        }
    }
}
