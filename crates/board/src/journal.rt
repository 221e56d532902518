ghost use Rattle.std.specs.Prelude.{◌≡◌, ◌≤◌, List, length, Option, Some, OnOk, OnErr};
ghost use Rattle.words.specs.declared.entry.Entry.{Entry};
ghost use Rattle.machine.specs.States.{geometry};
ghost use Rattle.schedule.specs.Runs.{Makes};
ghost use Rattle.board.specs.Leases.{most_steps};
ghost use Rattle.board.specs.Histories.{Told, TellsStill, TellsMore, one_step, core_steps};

mod choices;
mod replay;
mod unkept;

use crate::trace::Trace;
use machine::Machine;
pub use replay::Replay;
use schedule::Choice;
use std::alloc::AllocError;
pub use unkept::Unkept;
use words::{HartId, Step};

/// A step, and the choice that it is.
#[derive(Clone, Copy, Debug, PartialEq, Eq)]
pub struct Chosen {
    pub step: Step,
    pub choice: Choice,
}

/// What a board keeps of the steps that have led to its machine.
pub trait Journal<const SETS: usize, const WAYS: usize>: Drop {
    /// What its leases keep of theirs.
    type Trace: Trace<SETS, WAYS>;

    /// This is what has led to the machine, as the journal tells it.
    ghost tells: { Self → Told → Type 0 };

    /// Makes a step of a machine, enabled or not, and notes it. Where memory runs out it isn't made.
    fn make(&mut self, machine: &mut Machine<SETS, WAYS>, chosen: &Chosen) -> Result<(), AllocError>
        ensures made { OnOk result ((e : Option Entry) × Makes (geometry SETS WAYS) machine.old (Some chosen.now.step) e machine.new
            × TellsMore tells self.old (one_step chosen.now.step e (Some chosen.now.choice)) self.new) }
        ensures err { OnErr result ((machine.new ≡ machine.old) × TellsStill tells self.old self.new) };

    /// Notes so many steps that a hart has made by itself. Where memory runs out, none is noted.
    fn note_lent(
        &mut self,
        hart: HartId,
        steps: usize,
        trace: &Self::Trace,
    ) -> Result<(), AllocError>
        requires few { steps ≤ most_steps }
        requires traced { (es : List Entry) × Self.Trace.traces trace.now es × (length es ≡ steps) }
        ensures noted { OnOk result ((es : List Entry) → Self.Trace.traces trace.now es → length es ≡ steps → TellsMore tells self.old (core_steps hart es) self.new) }
        ensures err { OnErr result (TellsStill tells self.old self.new) };
}
