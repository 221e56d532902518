ghost use Rattle.std.specs.Prelude.{◌≡◌, ◌<◌, ◌++◌, ℕ, List, take, length, option_to_list, OnOk, OnErr, IfErr};
ghost use Rattle.words.specs.declared.entry.Entry.{Entry};
ghost use Rattle.isolation.specs.Reasons.{LeadOn};
ghost use Rattle.machine.specs.Runs.{StepsInto, RunsInto};

use crate::machine::Machine;
use std::alloc::AllocError;
use words::{Entry, Step};

impl<const SETS: usize, const WAYS: usize> Machine<SETS, WAYS> {
    ghost use Rattle.machine.specs.States.{shown, geometry};

    /// One step, its entry pushed.
    fn step_into(&mut self, step: Step, entries: &mut Vec<Entry>) -> Result<(), AllocError>
        ensures ok { OnOk result (StepsInto (geometry SETS WAYS) (shown SETS self.old) entries.old.items step (shown SETS self.new) entries.new.items) }
        ensures machine { OnErr result (self.new ≡ self.old) }
        ensures entries { OnErr result (entries.new.items ≡ entries.old.items) }
    {
        entries.reserve(1)?;
        if let Some(entry) = self.step(step)? {
            entries.push_reserved(entry);
        }
        Ok(())
    }

    /// Steps in order, enabled or not, their entries pushed. It fails only if memory runs out, and then says how many steps were made:
    /// those before the one that wanted memory.
    pub fn run(
        &mut self,
        steps: &[Step],
        entries: &mut Vec<Entry>,
    ) -> Result<(), (usize, AllocError)>
        ensures ok { OnOk result (RunsInto (geometry SETS WAYS) (shown SETS self.old) entries.old.items steps.now (shown SETS self.new) entries.new.items) }
        ensures cut { IfErr result (λ x. (x.0 < length steps.now)
            × RunsInto (geometry SETS WAYS) (shown SETS self.old) entries.old.items (take x.0 steps.now) (shown SETS self.new) entries.new.items) }
        // In either outcome the new entries are a run of the flat machine, and each has its reason behind those that have led to it.
        ensures leads { (es : List Entry) × (entries.new.items ≡ entries.old.items ++ es) × LeadOn (geometry SETS WAYS) (shown SETS self.old) es (shown SETS self.new) }
    {
        for (made, step) in steps.iter().enumerate() {
            if let Err(fault) = self.step_into(*step, entries) {
                return Err((made, fault));
            }
        }
        Ok(())
    }
}
