//! The end of a run: the report on the machine that it has led to.
ghost use Rattle.std.specs.Prelude.{MatchResult};
ghost use Rattle.machine.specs.States.{geometry, setting_of};
ghost use Rattle.render.specs.Reports.{AllReadable};
ghost use Rattle.requests.specs.Conclusions.{IsConcluded, IsHalfConcluded};

use crate::fault::Fault;
use machine::Machine;
use render::{report, status};
use words::{Addr, Sink};

/// Concludes a run: puts the report on the machine that it has led to, and answers the status that the program ends with.
pub fn conclude<'a, const SETS: usize, const WAYS: usize, S: Sink>(
    machine: &Machine<SETS, WAYS>,
    words: &[Addr],
    sink: &mut S,
) -> Result<u8, Fault<'a>>
    requires { AllReadable (setting_of machine.now) words.now }
    ensures { MatchResult result
        (IsConcluded (geometry SETS WAYS) machine.now words.now (S.state sink.old) (S.state sink.new))
        (IsHalfConcluded (geometry SETS WAYS) machine.now words.now (S.state sink.old) (S.state sink.new)) }
{
    let status = status(machine);
    report(machine, words, sink)?;
    Ok(status)
}
