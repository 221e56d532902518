ghost use Rattle.std.specs.Prelude.{◌≡◌, ℕ, List};
ghost use Rattle.texts.specs.Puts.{Puts};

use words::{Addr, Entry, HartId};

/// What a command has to tell when it is done.
#[derive(Clone, Copy, Debug, PartialEq, Eq)]
pub enum Report {
    /// A step's entry.
    Entry(Entry),
    /// A run ended where no hart runs.
    Stopped,
    /// A run was broken off where a hart's pc is a breakpoint.
    Broke(HartId, Addr),
    /// A breakpoint was set.
    Set(Addr),
    /// A breakpoint was cleared.
    Cleared(Addr),
    /// A step was not enabled.
    Nothing,
    /// A step without an entry was made. The messages that it sent have the numbers from this on.
    Made(u64),
    /// There is nothing to tell.
    Silence,
}
