ghost use Rattle.std.specs.Prelude.{ℕ, ◌≡◌, ◌≤◌, ◌++◌, [], ◌∷◌, List, Some, IfOk, OnOk, OnErr, IsTrue, MatchResult};
ghost use Rattle.words.specs.declared.entry.Step.{Step as StepValue};
ghost use Rattle.machine.specs.States.{geometry};
ghost use Rattle.machine.specs.Turns.{IsQuiescent};
ghost use Rattle.schedule.specs.Moments.{Moment, arrival_of};
ghost use Rattle.schedule.specs.Observed.{MakesSeen, StopsAt, TakesSeen, TakesUnseen};
ghost use Rattle.schedule.specs.Runs.{Makes};

use crate::halt::{Halt, Unseen};
use machine::{Machine, Nobody, Turned};
use network::Flight;
use std::alloc::AllocError;
use words::{Entry, Step};

/// Who sees each moment of a run, and notes it in a log, as a sink or a table of counts. A moment is how many messages were sent before a step, the
/// step, the message that it delivered, if it did, its entry, if it gave one, and the machine after it.
///
/// An observer has to write [`Observer::note`] alone. One that needs less of a moment, or can take many turns at once, has its own way for the others.
pub trait Observer<const SETS: usize, const WAYS: usize, L> {
    /// These moments, one behind another, were seen, which led from the one state of the log to the other.
    ghost saw: { Self → L → List Moment → L → Type 0 };

    /// They could not be told.
    ghost missed: { Self → L → List Moment → L → Type 0 };

    /// Notes a moment.
    fn note(
        &self,
        sent: u64,
        step: &Step,
        arrival: &Option<Flight>,
        entry: &Option<Entry>,
        machine: &Machine<SETS, WAYS>,
        log: &mut L,
    ) -> Result<(), Unseen>
        ensures noted { OnOk result (saw self.now log.old
            (record { sent = sent; step = step.now; arrival = arrival.now; entry = entry.now; after = machine.now } ∷ []) log.new) }
        ensures missed { OnErr result (missed self.now log.old
            (record { sent = sent; step = step.now; arrival = arrival.now; entry = entry.now; after = machine.now } ∷ []) log.new) };

    /// Makes a step, enabled or not, and sees its moment. Where it is a core's, and the hart has just declined to go on quickly, `declined` saves a
    /// second try.
    fn make(
        &self,
        machine: &mut Machine<SETS, WAYS>,
        step: Step,
        _declined: bool,
        log: &mut L,
    ) -> Result<(), Halt>
        ensures { MatchResult result
            (λ _. MakesSeen (saw self.now) (geometry SETS WAYS) machine.old (Some step) machine.new log.old log.new)
            (StopsAt (missed self.now) (geometry SETS WAYS) machine.old step machine.new log.old log.new) }
    {
        let sent = machine.sent();
        let arrival = arrival(machine, &step);
        let entry = machine.step(step)?;
        Ok(self.note(sent, &step, &arrival, &entry, machine, log)?)
    }

    /// Takes turns quickly, so many at most, and sees their moments. It may take none, which costs time alone. It answers how many it took, and the
    /// last turn.
    fn take_turns(
        &self,
        _machine: &mut Machine<SETS, WAYS>,
        last: Turned,
        _most: u32,
        _log: &mut L,
    ) -> Result<(u32, Turned), Unseen>
        requires { IsTrue last.quiescent → IsQuiescent SETS _machine.old }
        ensures turns { IfOk result (λ taken. TakesSeen (saw self.now) (geometry SETS WAYS) _machine.old last.hart taken.0 _machine.new taken.1.hart _log.old _log.new) }
        ensures most { IfOk result (λ taken. taken.0 ≤ _most) }
        ensures quiescent { IfOk result (λ taken. IsTrue taken.1.quiescent → IsQuiescent SETS _machine.new) }
        ensures missed { OnErr result (TakesUnseen (missed self.now) (geometry SETS WAYS) _machine.old last.hart _most _machine.new _log.old _log.new) }
    {
        Ok((0, last))
    }
}

/// The message that a step delivers, if one is in flight with its number.
fn arrival<const SETS: usize, const WAYS: usize>(
    machine: &Machine<SETS, WAYS>,
    step: &Step,
) -> Option<Flight>
    ensures { result ≡ arrival_of machine.now step.now }
{
    match step {
        Step::Deliver(number) => machine.flight(*number as u64),
        Step::Core(_) | Step::Evict(..) => None,
    }
}
