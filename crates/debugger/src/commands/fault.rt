ghost use Rattle.std.specs.Prelude.{◌≡◌, Some};
ghost use Rattle.debugger.specs.Faults.{fault_text};
ghost use Rattle.debugger.specs.declared.commands.fault.DebugFault.TheVariants.{NoMemory, Device};

use std::alloc::{AllocError, AllocFailed};
use std::fmt;
use thiserror::Error;
use words::SinkFault;

/// Why a command is refused, or ended before its end.
#[derive(Clone, Copy, Debug, PartialEq, Eq, Error)]
pub enum DebugFault {
    /// No command is spelled so.
    Unknown,
    /// There is no such hart.
    NoHart,
    /// Nothing can be shown, or done, at such an address.
    Address,
    /// No hart runs.
    Stopped,
    /// A limit was reached: of steps, or of breakpoints.
    Limit,
    /// Memory ran out.
    NoMemory,
    /// A put failed.
    Device,
}

impl DebugFault {
    /// The number and the name that are printed.
    pub fn text(self) -> &'static str
        ensures { result.now ≡ fault_text self }
    {
        match self {
            DebugFault::Unknown => "1 Unknown",
            DebugFault::NoHart => "2 NoHart",
            DebugFault::Address => "3 Address",
            DebugFault::Stopped => "4 Stopped",
            DebugFault::Limit => "5 Limit",
            DebugFault::NoMemory => "6 NoMemory",
            DebugFault::Device => "7 Device",
        }
    }
}

impl fmt::Display for DebugFault {
    ghost output = { λ fault. Some (fault_text fault) };

    fn fmt<W: fmt::Write>(&self, f: &mut fmt::Formatter<W>) -> fmt::Result {
        f.write_str(self.text())
    }
}

impl From<AllocError> for DebugFault {
    ghost from_gives = { λ _ fault. fault ≡ NoMemory };

    fn from(_error: AllocError) -> DebugFault {
        DebugFault::NoMemory
    }
}

impl<T: Drop> From<AllocFailed<T>> for DebugFault {
    ghost from_gives = { λ _ fault. fault ≡ NoMemory };

    fn from(_error: AllocFailed<T>) -> DebugFault {
        DebugFault::NoMemory
    }
}

impl From<SinkFault> for DebugFault {
    ghost from_gives = { λ _ fault. fault ≡ Device };

    fn from(_fault: SinkFault) -> DebugFault {
        DebugFault::Device
    }
}
