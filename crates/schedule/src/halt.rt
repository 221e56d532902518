ghost use Rattle.std.specs.Prelude.{◌≡◌};
ghost use Rattle.schedule.specs.declared.halt.Halt.TheVariants.{NoMemory, Untold};

use std::alloc::AllocError;
use thiserror::Error;

/// An observer could not tell of a moment.
#[derive(Clone, Copy, Debug, PartialEq, Eq, Error)]
#[error("an observer could not tell of a moment")]
pub struct Unseen;

/// Why a run ended early.
#[derive(Clone, Copy, Debug, PartialEq, Eq, Error)]
pub enum Halt {
    #[error("no memory")]
    NoMemory,
    /// The observer could not tell of a moment.
    #[error("an observer could not tell of a moment")]
    Untold,
}

impl From<AllocError> for Halt {
    ghost from_gives = { λ _ e. e ≡ NoMemory };

    fn from(_error: AllocError) -> Halt {
        Halt::NoMemory
    }
}

impl From<Unseen> for Halt {
    ghost from_gives = { λ _ e. e ≡ Untold };

    fn from(_fault: Unseen) -> Halt {
        Halt::Untold
    }
}
