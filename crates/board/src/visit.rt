ghost use Rattle.std.specs.Prelude.{◌≡◌, ◌↔◌, IsTrue, IfOk, OnOk, OnErr, Option, Some};
ghost use Rattle.words.specs.declared.entry.Entry.{Entry};
ghost use Rattle.machine.specs.States.{setting_of, geometry};
ghost use Rattle.schedule.specs.Steps.{IsChoiceOf, IsWithin};
ghost use Rattle.board.specs.Boards.{IsRunning, IsTurn, IsAsBefore};
ghost use Rattle.board.specs.Visits.{PaysOne, IsVisit, BeginsVisit};

use crate::board::Board;
use crate::journal::{Chosen, Journal};
use crate::owed::owed;
use schedule::Choice;
use std::alloc::AllocError;
use words::{HartId, Step};

/// The most steps of a visit after its first.
const OWED: usize = 63;

impl<'p, const SETS: usize, const WAYS: usize, J: Journal<SETS, WAYS>> Board<'p, SETS, WAYS, J> {
    /// A step of a hart's core, and then what is owed to the machine and to the hart, at most 64 steps in all. The answer is whether the hart
    /// runs. Where memory runs out, the steps before stand.
    pub fn visit(&mut self, id: HartId) -> Result<bool, AllocError>
        ensures runs { IfOk result (λ runs. IsTrue runs ↔ IsRunning self.new.machine id) }
        ensures ok { OnOk result (IsVisit (geometry SETS WAYS) J.tells id self.old self.new) }
        ensures err { OnErr result (BeginsVisit (geometry SETS WAYS) J.tells id self.old self.new) }
    {
        self.core(id)?;
        for made in 0..OWED {
            if !self.pay_off(id)? {
                return Ok(self.is_running(id));
            }
        }
        Ok(self.is_running(id))
    }

    /// A step of a hart's core.
    fn core(&mut self, id: HartId) -> Result<(), AllocError>
        ensures ok { OnOk result ((e : Option Entry) × IsTurn (geometry SETS WAYS) J.tells self.old (Step.Core id) (Some (Choice.Core id)) e self.new) }
        ensures err { OnErr result (IsAsBefore J.tells self.old self.new) }
    {
        let _few = id.index();
        self.take(&Chosen {
            step: Step::Core(id),
            choice: Choice::Core(id),
        })
    }

    /// The step that is owed on a visit to a hart, and whether there is one.
    fn pay_off(&mut self, id: HartId) -> Result<bool, AllocError>
        ensures ok { IfOk result (λ owed. PaysOne (geometry SETS WAYS) J.tells id owed self.old self.new) }
        ensures err { OnErr result (IsAsBefore J.tells self.old self.new) }
    {
        let Some(chosen) = owed(&self.machine, id) else {
            return Ok(false);
        };
        self.take(&chosen)?;
        Ok(true)
    }

    /// A step that is a choice, enabled or not.
    fn take(&mut self, chosen: &Chosen) -> Result<(), AllocError>
        requires chosen { IsChoiceOf SETS self.old.machine chosen.now.step chosen.now.choice }
        requires within { IsWithin (setting_of self.old.machine) chosen.now.choice }
        ensures ok { OnOk result ((e : Option Entry) × IsTurn (geometry SETS WAYS) J.tells self.old chosen.now.step (Some chosen.now.choice) e self.new) }
        ensures err { OnErr result (IsAsBefore J.tells self.old self.new) }
    {
        self.journal.make(&mut self.machine, chosen)
    }
}
