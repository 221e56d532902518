ghost use Rattle.std.specs.Prelude.{◌≡◌};
ghost use Rattle.words.specs.Causes.{cause_number, cause_name};

use crate::address::Addr;

/// Why an instruction can't be retired.
#[derive(Clone, Copy, Debug, PartialEq, Eq)]
pub enum Cause {
    /// The word is no instruction.
    Illegal,
    /// The program's text has no word at the pc.
    FetchOutside,
    /// A jump or a taken branch to an address that isn't a multiple of 4.
    JumpMisaligned,
    /// A load at an address that isn't a multiple of its width.
    LoadMisaligned,
    /// A store at an address that isn't a multiple of its width.
    StoreMisaligned,
    /// A load that goes beyond memory.
    LoadOutside,
    /// A store that goes beyond memory.
    StoreOutside,
    /// A store to the program's text.
    StoreText,
    /// A load or store that reaches into the undo logs.
    LogRegion,
    /// EBREAK outside a transaction.
    Breakpoint,
    /// ECALL with a number that isn't known.
    BadCall,
    /// ECALL or EBREAK inside a transaction.
    CallInTransaction,
    /// A transaction begun at depth 255.
    TooDeep,
    /// A commit or an abort outside a transaction.
    OutsideTransaction,
}

impl Cause {
    /// The number that is printed, 1 to 14.
    pub fn number(self) -> u32
        ensures { result ≡ cause_number self }
    {
        match self {
            Cause::Illegal => 1,
            Cause::FetchOutside => 2,
            Cause::JumpMisaligned => 3,
            Cause::LoadMisaligned => 4,
            Cause::StoreMisaligned => 5,
            Cause::LoadOutside => 6,
            Cause::StoreOutside => 7,
            Cause::StoreText => 8,
            Cause::LogRegion => 9,
            Cause::Breakpoint => 10,
            Cause::BadCall => 11,
            Cause::CallInTransaction => 12,
            Cause::TooDeep => 13,
            Cause::OutsideTransaction => 14,
        }
    }

    /// The name that is printed.
    pub fn name(self) -> &'static str
        ensures { result.now ≡ cause_name self }
    {
        match self {
            Cause::Illegal => "Illegal",
            Cause::FetchOutside => "FetchOutside",
            Cause::JumpMisaligned => "JumpMisaligned",
            Cause::LoadMisaligned => "LoadMisaligned",
            Cause::StoreMisaligned => "StoreMisaligned",
            Cause::LoadOutside => "LoadOutside",
            Cause::StoreOutside => "StoreOutside",
            Cause::StoreText => "StoreText",
            Cause::LogRegion => "LogRegion",
            Cause::Breakpoint => "Breakpoint",
            Cause::BadCall => "BadCall",
            Cause::CallInTransaction => "CallInTransaction",
            Cause::TooDeep => "TooDeep",
            Cause::OutsideTransaction => "OutsideTransaction",
        }
    }
}

/// Why a transaction was aborted.
#[derive(Clone, Copy, Debug, PartialEq, Eq)]
pub enum AbortCause {
    /// By TABORT.
    Asked,
    /// It aborted for a conflict with an earlier transaction.
    Conflict,
    /// The undo log had no room for a store.
    LogFull,
    /// An instruction in it had this cause, at this pc.
    Trapped(Cause, Addr),
}

/// Whether a hart runs, or how it ended.
#[derive(Clone, Copy, Debug, PartialEq, Eq)]
pub enum Status {
    Running,
    /// By the call 93, with the value in a0.
    Exited(u32),
    /// With this cause, at this pc.
    Stopped(Cause, Addr),
}
