ghost use Rattle.std.specs.Prelude.{◌≡◌, Some};
ghost use Rattle.flat.specs.BootFaults.{boot_fault_number, boot_fault_name, boot_fault_text};
ghost use Rattle.flat.specs.declared.boot_fault.BootFault.TheVariants.{NoMemory};

use std::alloc::AllocError;
use std::fmt;
use thiserror::Error;

/// Why a program isn't booted.
#[derive(Clone, Copy, Debug, PartialEq, Eq, Error)]
pub enum BootFault {
    /// The size of memory isn't a multiple of 4,096 from 65,536 to 4,194,304.
    BadSize,
    /// The number of harts isn't 1 to 8.
    BadHarts,
    /// A segment reaches into the stacks or the undo logs.
    DoesNotFit,
    NoMemory,
}

impl BootFault {
    /// The number that is printed, 1 to 4.
    pub fn number(self) -> u32
        ensures { result ≡ boot_fault_number self }
    {
        match self {
            BootFault::BadSize => 1,
            BootFault::BadHarts => 2,
            BootFault::DoesNotFit => 3,
            BootFault::NoMemory => 4,
        }
    }

    /// The name that is printed.
    pub fn name(self) -> &'static str
        ensures { result.now ≡ boot_fault_name self }
    {
        match self {
            BootFault::BadSize => "BadSize",
            BootFault::BadHarts => "BadHarts",
            BootFault::DoesNotFit => "DoesNotFit",
            BootFault::NoMemory => "NoMemory",
        }
    }
}

impl fmt::Display for BootFault {
    ghost output = { λ fault. Some (boot_fault_text fault) };

    fn fmt<W: fmt::Write>(&self, f: &mut fmt::Formatter<W>) -> fmt::Result {
        write!(f, "{} {}", self.number(), self.name())
    }
}

impl From<AllocError> for BootFault {
    ghost from_gives = { λ _ e. e ≡ NoMemory };

    fn from(_: AllocError) -> BootFault {
        BootFault::NoMemory
    }
}
