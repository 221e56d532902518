ghost use Rattle.std.specs.Prelude.{◌≡◌, Some};
ghost use Rattle.statements.specs.Faults.{fault_number, fault_name, fault_text};
ghost use Rattle.statements.specs.declared.fault.AsmFault.TheVariants.{NoMemory};

use std::alloc::{AllocError, AllocFailed};
use std::fmt;
use thiserror::Error;

/// What is wrong with a line of source.
#[derive(Clone, Copy, Debug, PartialEq, Eq, Error)]
pub enum AsmFault {
    /// No instruction has this name.
    Unknown,
    /// Too few or too many operands, or one that isn't written as it has to be.
    Operand,
    /// No register has this name.
    Register,
    /// A number is out of its range.
    Range,
    /// A number of data doesn't stand at a multiple of its size, or an offset isn't a multiple of 2, for `tbegin` of 4.
    Alignment,
    /// No line has this label.
    Label,
    /// A line above has this label too.
    TwiceDefined,
    /// No directive has this name, or it, or an instruction, stands in the wrong section.
    Directive,
    /// A line is longer than 255 bytes, text and data together than 1,048,576, or there is no text.
    TooLarge,
    /// Memory ran out, whatever else may be wrong with the source.
    NoMemory,
}

impl AsmFault {
    /// The number that is printed, 1 to 10.
    pub fn number(self) -> u32
        ensures { result ≡ fault_number self }
    {
        match self {
            AsmFault::Unknown => 1,
            AsmFault::Operand => 2,
            AsmFault::Register => 3,
            AsmFault::Range => 4,
            AsmFault::Alignment => 5,
            AsmFault::Label => 6,
            AsmFault::TwiceDefined => 7,
            AsmFault::Directive => 8,
            AsmFault::TooLarge => 9,
            AsmFault::NoMemory => 10,
        }
    }

    /// The name that is printed.
    pub fn name(self) -> &'static str
        ensures { result.now ≡ fault_name self }
    {
        match self {
            AsmFault::Unknown => "Unknown",
            AsmFault::Operand => "Operand",
            AsmFault::Register => "Register",
            AsmFault::Range => "Range",
            AsmFault::Alignment => "Alignment",
            AsmFault::Label => "Label",
            AsmFault::TwiceDefined => "TwiceDefined",
            AsmFault::Directive => "Directive",
            AsmFault::TooLarge => "TooLarge",
            AsmFault::NoMemory => "NoMemory",
        }
    }
}

impl fmt::Display for AsmFault {
    ghost output = { λ fault. Some (fault_text fault) };

    fn fmt<W: fmt::Write>(&self, f: &mut fmt::Formatter<W>) -> fmt::Result {
        write!(f, "{} {}", self.number(), self.name())
    }
}

impl From<AllocError> for AsmFault {
    ghost from_gives = { λ _ fault. fault ≡ NoMemory };

    fn from(_error: AllocError) -> AsmFault {
        AsmFault::NoMemory
    }
}

impl<T: Drop> From<AllocFailed<T>> for AsmFault {
    ghost from_gives = { λ _ fault. fault ≡ NoMemory };

    fn from(_error: AllocFailed<T>) -> AsmFault {
        AsmFault::NoMemory
    }
}
