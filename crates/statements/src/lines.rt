//! Lines of source.
ghost use Rattle.std.specs.Prelude.{◌≡◌, ◌≤◌, length, Some, Ok, Err, MatchResult, IfOk};
ghost use Rattle.statements.specs.Places.{labels_of};
ghost use Rattle.statements.specs.Lines as spec;
ghost use Rattle.statements.specs.Statements.{made};

use crate::fault::AsmFault;
use crate::made::Words;
use crate::place::{Names, Place};
use crate::statement::read_statement;
use crate::text::cut_line;

/// How many bytes a line may have.
const LINE: usize = 255;

/// A line without the CR at its end, if it is not too long.
#[tactic(auto, unfolding(crate::specs::Lines::checked_line))]
pub fn checked_line(line: &[u8]) -> Result<&[u8], AsmFault>
    ensures exact { MatchResult result (λ x. spec.checked_line line.now ≡ Ok x.now) (λ e. spec.checked_line line.now ≡ Err e) }
    ensures short { IfOk result (λ x. length x.now ≤ 255) }
{
    let line = match line {
        [text @ .., b'\r'] => text,
        _ => line,
    };
    if line.len() <= LINE {
        Ok(line)
    } else {
        Err(AsmFault::TooLarge)
    }
}

/// What a line makes at its place, as far as that is known.
#[tactic(auto, unfolding(crate::specs::Lines::line_of))]
pub fn line_at(line: &[u8], names: &Names, at: Place) -> Result<Words, AsmFault>
    ensures { MatchResult result (λ x. spec.line_of at (Some (labels_of names.now)) line.now ≡ Ok (made x)) (λ e. spec.line_of at (Some (labels_of names.now)) line.now ≡ Err e) }
{
    let parts = cut_line(checked_line(line)?);
    read_statement(parts.statement, at, Some(names))
}

/// What a line of source makes at its place, with the labels of its source.
pub fn line(text: &str, names: &Names, at: Place) -> Result<Words, AsmFault>
    ensures { MatchResult result (λ x. spec.line_of at (Some (labels_of names.now)) text.now ≡ Ok (made x)) (λ e. spec.line_of at (Some (labels_of names.now)) text.now ≡ Err e) }
{
    line_at(text.as_bytes(), names, at)
}
