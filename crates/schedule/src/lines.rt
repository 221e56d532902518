ghost use Rattle.std.specs.Prelude.{◌≡◌, MatchResult};
ghost use Rattle.schedule.specs.Lines as spec;
ghost use Rattle.schedule.specs.declared.lines.ScheduleFault.TheVariants.{NoMemory};

use crate::choices::Choice;
use crate::spelling::choice;
use std::alloc::{AllocError, AllocFailed, Global};
use thiserror::Error;

/// Why a text is no schedule.
#[derive(Clone, Copy, Debug, PartialEq, Eq, Error)]
pub enum ScheduleFault {
    /// The number, from 1, of the first line that spells no choice.
    #[error("line {0} spells no choice")]
    Line(usize),
    #[error("no memory")]
    NoMemory,
}

impl From<AllocError> for ScheduleFault {
    ghost from_gives = { λ _ e. e ≡ NoMemory };

    fn from(_error: AllocError) -> ScheduleFault {
        ScheduleFault::NoMemory
    }
}

impl<T: Drop> From<AllocFailed<T>> for ScheduleFault {
    ghost from_gives = { λ _ e. e ≡ NoMemory };

    fn from(_error: AllocFailed<T>) -> ScheduleFault {
        ScheduleFault::NoMemory
    }
}

/// Whether a line is neither empty nor a comment.
fn says(line: &str) -> bool
    ensures { result ≡ spec.says line.now }
{
    !line.is_empty() && !line.starts_with('#')
}

/// The choices that the lines of a text spell, in order. Lines that are empty, or that begin with `#`, spell none.
pub fn read(alloc: Global, text: &str) -> Result<Vec<Choice>, ScheduleFault>
    ensures { MatchResult result (λ choices. spec.AreSpelledBy (spec.lines_of text.now) choices.items) (spec.IsFaultIn (spec.lines_of text.now)) }
{
    let lines = text.split('\n').collect::<Vec<&str>>(alloc)?;
    let mut choices = Vec::new(alloc);
    for (index, line) in lines.iter().enumerate() {
        if says(line) {
            match choice(line) {
                Some(choice) => choices.push(choice)?,
                None => return Err(ScheduleFault::Line(index + 1)),
            }
        }
    }
    Ok(choices)
}
