ghost use Rattle.std.specs.Prelude.{◌≡◌};

use statements::AsmFault;
use std::alloc::{AllocError, AllocFailed};
use thiserror::Error;

/// Why a source was not assembled, and at which line.
#[derive(Clone, Copy, Debug, PartialEq, Eq, Error)]
#[error("line {line}: {fault}")]
pub struct SourceFault {
    /// The number of the line, from 1; 0 where the source has no text, or memory ran out.
    pub line: usize,
    pub fault: AsmFault,
}

impl From<AllocError> for SourceFault {
    ghost use Rattle.statements.specs.declared.fault.AsmFault.TheVariants.{NoMemory};

    ghost from_gives = { λ _ e. e ≡ record { line = 0; fault = NoMemory } };

    fn from(_error: AllocError) -> SourceFault {
        SourceFault {
            line: 0,
            fault: AsmFault::NoMemory,
        }
    }
}

impl<T: Drop> From<AllocFailed<T>> for SourceFault {
    ghost use Rattle.statements.specs.declared.fault.AsmFault.TheVariants.{NoMemory};

    ghost from_gives = { λ _ e. e ≡ record { line = 0; fault = NoMemory } };

    fn from(_error: AllocFailed<T>) -> SourceFault {
        SourceFault {
            line: 0,
            fault: AsmFault::NoMemory,
        }
    }
}
