ghost use Rattle.std.specs.Prelude.{◌≡◌, None, IsTrue, OnErr, IfOk, MatchOption};
ghost use Rattle.machine.specs.States.{geometry};
ghost use Rattle.machine.specs.Turns.{IsQuiescent};
ghost use Rattle.schedule.specs.Courses.{Behind, IsNextOf, IsNoneNext, forgotten};
ghost use Rattle.schedule.specs.Courses.Behind.{Turns as ByTurns};

use machine::{Machine, Turned};
use std::alloc::AllocError;
use words::Step;

/// Who chooses the steps of a run behind its schedule.
pub trait Chooser<const SETS: usize, const WAYS: usize> {
    /// What comes behind the schedule: turns, or what was chosen so far.
    ghost behind: { Self → Behind };

    /// Whether it chooses the machine's turns, so that an observer can take many at once.
    fn takes_turns(&self) -> bool
        ensures { IsTrue result → behind self.now ≡ ByTurns };

    /// The step that comes next, behind the last one. `None` where none does, and nothing changes then. It fails only if memory runs out.
    fn next(
        &mut self,
        machine: &Machine<SETS, WAYS>,
        last: Turned,
    ) -> Result<Option<Step>, AllocError>
        requires { IsTrue last.quiescent → IsQuiescent SETS machine.now }
        ensures next { IfOk result (λ found. MatchOption found
            (IsNoneNext (geometry SETS WAYS) machine.now last.hart (behind self.old) × (behind self.new ≡ behind self.old))
            (λ step. IsNextOf (geometry SETS WAYS) machine.now last.hart (behind self.old) step (behind self.new))) }
        ensures err { OnErr result (behind self.new ≡ behind self.old) };
}

/// The machine's turns.
#[derive(Clone, Copy, Debug)]
pub struct Turns;

impl<const SETS: usize, const WAYS: usize> Chooser<SETS, WAYS> for Turns {
    ghost behind = { λ _. ByTurns };

    #[inline(always)]
    fn takes_turns(&self) -> bool {
        true
    }

    #[inline(always)]
    fn next(
        &mut self,
        machine: &Machine<SETS, WAYS>,
        last: Turned,
    ) -> Result<Option<Step>, AllocError> {
        Ok(machine.turn_behind(last))
    }
}
