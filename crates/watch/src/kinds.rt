ghost use Rattle.std.specs.Prelude.{◌≡◌, ◌<◌, ℕ, option_to_list};
ghost use Rattle.std.specs.Option.{option_map};
ghost use Rattle.table.specs.Table.{decoded};
ghost use Rattle.watch.specs.Kinds.{counts_by, index_of, kind_asked, kind_of};

use operands::opcode;
use table::{Instr, decode};
use words::{AbortCause, Kind as Want};

/// What is counted of a hart.
#[derive(Clone, Copy, Debug, PartialEq, Eq)]
pub enum Kind {
    /// Words retired.
    Retired,
    /// TBEGIN retired, nested ones too.
    Begun,
    /// TCOMMIT retired, nested ones too.
    Committed,
    /// Aborts by TABORT.
    Asked,
    /// Aborts for a conflict.
    Conflicted,
    /// Aborts for a full undo log.
    LogFull,
    /// Aborts by a trap.
    Trapped,
    /// Requests of others that the hart refused.
    Refused,
    /// Requests of the hart that others refused.
    WasRefused,
    /// Spills.
    Spilled,
    /// Loads from a line that was there.
    LoadHit,
    /// Requests to read a block of which the hart had no line.
    LoadMissed,
    /// Stores to a line that was there, and atomic operations.
    StoreHit,
    /// Requests to write a block of which it had none.
    StoreMissed,
    /// Requests to write a block of which it had a line.
    Upgraded,
    /// Requests that the directory held: for a block with which it was busy when they were sent, or for which it began to serve another's.
    Held,
}

impl Kind {
    /// Its number, from 0.
    pub(crate) fn index(self) -> usize
        ensures value { result ≡ index_of self }
        ensures bound { result < 16 }
    {
        match self {
            Kind::Retired => 0,
            Kind::Begun => 1,
            Kind::Committed => 2,
            Kind::Asked => 3,
            Kind::Conflicted => 4,
            Kind::LogFull => 5,
            Kind::Trapped => 6,
            Kind::Refused => 7,
            Kind::WasRefused => 8,
            Kind::Spilled => 9,
            Kind::LoadHit => 10,
            Kind::LoadMissed => 11,
            Kind::StoreHit => 12,
            Kind::StoreMissed => 13,
            Kind::Upgraded => 14,
            Kind::Held => 15,
        }
    }

    /// What a retired word counts as besides. That one begins a transaction is told by its bits but those of its offset: the opcode is among them, and the compiler
    /// makes one test of both.
    #[inline(always)]
    #[tactic(auto, unfolding(table::specs::Table::decoded))]
    pub(crate) fn of_word(word: u32) -> Option<Kind>
        ensures { (hart : ℕ) → option_to_list (option_map (λ kind. (hart, kind)) result) ≡ counts_by hart (decoded word) }
    {
        if (opcode(word) == 0x0b) & (word & 0x01ff_f17f == 0x0000_000b) {
            return Some(Kind::Begun);
        }
        if word == 0x0000_100b {
            return Some(Kind::Committed);
        }
        match decode(word) {
            Some(Instr::TBegin { .. }) => Some(Kind::Begun),
            Some(Instr::TCommit) => Some(Kind::Committed),
            _ => None,
        }
    }

    /// What an abort counts as.
    pub(crate) fn of_abort(cause: AbortCause) -> Kind
        ensures { result ≡ kind_of cause }
    {
        match cause {
            AbortCause::Asked => Kind::Asked,
            AbortCause::Conflict => Kind::Conflicted,
            AbortCause::LogFull => Kind::LogFull,
            AbortCause::Trapped(..) => Kind::Trapped,
        }
    }

    /// What a request counts as, where its hart has a line of the block or has none.
    pub(crate) fn of_request(want: Want, has_line: bool) -> Kind
        ensures { result ≡ kind_asked want has_line }
    {
        match (want, has_line) {
            (Want::Read, _) => Kind::LoadMissed,
            (Want::Write, false) => Kind::StoreMissed,
            (Want::Write, true) => Kind::Upgraded,
        }
    }
}
