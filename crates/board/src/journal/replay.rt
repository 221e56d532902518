ghost use Rattle.std.specs.Prelude.{◌≡◌, ◌≤◌, ◌<◌, ◌+◌, ◌++◌, ◌∷◌, [], length, replicate, option_to_list, IfOk, OnOk, OnErr, Some, vec_len, vec_capacity};
ghost use Rattle.words.specs.declared.entry.Step.TheVariants.{Core};
ghost use Rattle.machine.specs.States.{geometry};
ghost use Rattle.schedule.specs.Runs.{Makes};
ghost use Rattle.board.specs.Leases.{most_steps};
ghost use Rattle.board.specs.Histories.{IsOf};

use crate::journal::{Chosen, Journal};
use crate::trace::{Retired, Traced};
use machine::Machine;
use std::alloc::{AllocError, Allocator, Global};
use words::{Entry, HartId, Step};

/// Keeps all steps and their entries, of which the machine can be made again.
#[derive(Drop)]
pub struct Replay<A: Allocator = Global> {
    pub history: Vec<Step, A>,
    pub entries: Vec<Entry, A>,
}

impl<A: Allocator + Copy> Replay<A> {
    /// That of no step.
    pub fn new(alloc: A) -> Self
        ensures history { result.history.items ≡ [] }
        ensures entries { result.entries.items ≡ [] }
    {
        Replay {
            history: Vec::new(alloc),
            entries: Vec::new(alloc),
        }
    }
}

impl<A: Allocator> Replay<A> {
    /// Makes room for so many steps more.
    fn reserve(&mut self, more: usize) -> Result<(), AllocError>
        ensures history { self.new.history.items ≡ self.old.history.items }
        ensures entries { self.new.entries.items ≡ self.old.entries.items }
        ensures room { OnOk result (vec_len self.new.history + more ≤ vec_capacity self.new.history) }
        ensures entries_room { OnOk result (vec_len self.new.entries + more ≤ vec_capacity self.new.entries) }
    {
        self.history.reserve(more)?;
        self.entries.reserve(more)
    }

    /// Makes a step of a machine, enabled or not, and keeps it. The answer is its entry. Where memory runs out it isn't made.
    pub(crate) fn step<const SETS: usize, const WAYS: usize>(
        &mut self,
        machine: &mut Machine<SETS, WAYS>,
        step: Step,
    ) -> Result<Option<Entry>, AllocError>
        ensures made { IfOk result (λ e. Makes (geometry SETS WAYS) machine.old (Some step) e machine.new) }
        ensures history { OnOk result (self.new.history.items ≡ self.old.history.items ++ step ∷ []) }
        ensures entries { IfOk result (λ e. self.new.entries.items ≡ self.old.entries.items ++ option_to_list e) }
        ensures err { OnErr result ((machine.new ≡ machine.old) × (self.new.history.items ≡ self.old.history.items) × (self.new.entries.items ≡ self.old.entries.items)) }
    {
        self.reserve(1)?;
        let entry = machine.step(step)?;
        append_step(&mut self.history, &step);
        append_told(&mut self.entries, &entry);
        Ok(entry)
    }
}

impl<const SETS: usize, const WAYS: usize, A: Allocator> Journal<SETS, WAYS> for Replay<A> {
    type Trace = Traced;

    ghost tells = { λ r told. IsOf r.history.items r.entries.items told };

    fn make(
        &mut self,
        machine: &mut Machine<SETS, WAYS>,
        chosen: &Chosen,
    ) -> Result<(), AllocError> {
        let _entry = self.step(machine, chosen.step)?;
        Ok(())
    }

    fn note_lent(&mut self, hart: HartId, steps: usize, trace: &Traced) -> Result<(), AllocError> {
        self.reserve(steps)?;
        append_cores(&mut self.history, hart, steps);
        append_entries(&mut self.entries, trace.entries());
        Ok(())
    }
}

/// Appends a step.
fn append_step<A: Allocator>(history: &mut Vec<Step, A>, step: &Step)
    requires { vec_len history.old < vec_capacity history.old }
    ensures { history.new.items ≡ history.old.items ++ step.now ∷ [] }
{
    history.push_reserved(*step);
}

/// Appends so many steps of a hart's core.
fn append_cores<A: Allocator>(history: &mut Vec<Step, A>, id: HartId, steps: usize)
    requires room { vec_len history.old + steps ≤ vec_capacity history.old }
    requires few { steps ≤ most_steps }
    ensures { history.new.items ≡ history.old.items ++ replicate steps (Core id) }
{
    for _made in 0..steps {
        history.push_reserved(Step::Core(id));
    }
}

/// Appends the entry of a step, if it gave one.
fn append_told<A: Allocator>(entries: &mut Vec<Entry, A>, told: &Option<Entry>)
    requires { vec_len entries.old < vec_capacity entries.old }
    ensures { entries.new.items ≡ entries.old.items ++ option_to_list told.now }
{
    if let Some(entry) = told {
        entries.push_reserved(*entry);
    }
}

/// Appends entries.
fn append_entries<A: Allocator>(entries: &mut Vec<Entry, A>, more: &[Retired])
    requires { vec_len entries.old + length more.now ≤ vec_capacity entries.old }
    ensures { entries.new.items ≡ entries.old.items ++ more.now }
{
    for retired in more {
        entries.push_reserved(retired.entry);
    }
}
