ghost use Rattle.std.specs.Prelude.{◌≡◌, Some};
ghost use Rattle.loader.specs.Faults.{fault_number, fault_name, fault_text};
ghost use Rattle.loader.specs.declared.fault.LoadFault.TheVariants.{NoMemory};

use std::alloc::{AllocError, AllocFailed};
use std::fmt;
use thiserror::Error;

/// Why a file was not read as a program.
#[derive(Clone, Copy, Debug, PartialEq, Eq, Error)]
pub enum LoadFault {
    /// A header, the header table or a segment's bytes pass the end of the file.
    Truncated,
    /// The file doesn't begin as a 32-bit little-endian ELF file of version 1.
    NotElf32,
    /// The file is for another machine than RISC-V.
    NotRiscv,
    /// The file isn't an executable, as one still to be linked.
    NotExec,
    /// The file says that it has compressed instructions.
    Compressed,
    /// The file says that a header has another size than this format's.
    BadHeaderSize,
    /// A segment has more bytes in the file than in memory, or ends above 4 MiB.
    SegmentOutside,
    /// Two segments share a byte of memory.
    SegmentOverlap,
    /// A segment is both writable and executable.
    WritableText,
    /// The entry isn't a multiple of 4, or no executable segment has its word.
    BadEntry,
    /// Memory ran out, whatever else may be wrong with the file.
    NoMemory,
}

impl LoadFault {
    /// The number that is printed, 1 to 11.
    pub fn number(self) -> u32
        ensures { result ≡ fault_number self }
    {
        match self {
            LoadFault::Truncated => 1,
            LoadFault::NotElf32 => 2,
            LoadFault::NotRiscv => 3,
            LoadFault::NotExec => 4,
            LoadFault::Compressed => 5,
            LoadFault::BadHeaderSize => 6,
            LoadFault::SegmentOutside => 7,
            LoadFault::SegmentOverlap => 8,
            LoadFault::WritableText => 9,
            LoadFault::BadEntry => 10,
            LoadFault::NoMemory => 11,
        }
    }

    /// The name that is printed.
    pub fn name(self) -> &'static str
        ensures { result.now ≡ fault_name self }
    {
        match self {
            LoadFault::Truncated => "Truncated",
            LoadFault::NotElf32 => "NotElf32",
            LoadFault::NotRiscv => "NotRiscv",
            LoadFault::NotExec => "NotExec",
            LoadFault::Compressed => "Compressed",
            LoadFault::BadHeaderSize => "BadHeaderSize",
            LoadFault::SegmentOutside => "SegmentOutside",
            LoadFault::SegmentOverlap => "SegmentOverlap",
            LoadFault::WritableText => "WritableText",
            LoadFault::BadEntry => "BadEntry",
            LoadFault::NoMemory => "NoMemory",
        }
    }
}

impl fmt::Display for LoadFault {
    ghost output = { λ fault. Some (fault_text fault) };

    fn fmt<W: fmt::Write>(&self, f: &mut fmt::Formatter<W>) -> fmt::Result {
        write!(f, "{} {}", self.number(), self.name())
    }
}

impl From<AllocError> for LoadFault {
    ghost from_gives = { λ _ fault. fault ≡ NoMemory };

    fn from(_error: AllocError) -> LoadFault {
        LoadFault::NoMemory
    }
}

impl<T: Drop> From<AllocFailed<T>> for LoadFault {
    ghost from_gives = { λ _ fault. fault ≡ NoMemory };

    fn from(_error: AllocFailed<T>) -> LoadFault {
        LoadFault::NoMemory
    }
}
