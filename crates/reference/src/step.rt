ghost use Rattle.std.specs.Prelude.{◌≡◌, ◌<◌, ◌≤◌, ◌++◌, [], ◌∷◌, is_some, Ok, Err, Some, None, true, false, IfOk, IfErr, OnOk, OnErr, List, vec_len, vec_capacity, option_to_list, length, take, IsOkAnd, IsSome};
ghost use Rattle.words.specs.declared.entry.Entry.{Entry};
ghost use Rattle.table.specs.declared.effect.Act.{Act};
ghost use Rattle.flat.specs.State.{flat_view};
ghost use Rattle.flat.specs.Causes.{next_of, act_cause};
ghost use Rattle.flat.specs.Effects.{retire_of};
ghost use Rattle.flat.specs.Steps.{Carries, IsRunning, is_abort};
ghost use Rattle.table.specs.Program.{word_at};
ghost use Rattle.reference.specs.States.{hart_of, Fits};
ghost use Rattle.reference.specs.Machines.{setting_of, flat_of, IsNextMove, Refines, IsDue, IsDueEntry, StepsTo, CanRetire, RunsTo, RefinesAll};

use crate::machine::{Machine, NextMove};
use crate::room::{append, make_room};
use std::alloc::{AllocError, Global};
use table::{Act, Effect};
use words::{AbortCause, Addr, Cause, Entry, HartId, Step};

/// Whether an act aborts the transaction.
pub(crate) fn is_abort(act: &Act) -> bool
    ensures { result ≡ is_abort act.now }
{
    match act {
        Act::Abort => true,
        _ => false,
    }
}

impl Machine {
    /// The entry of a hart's word, which has this effect.
    pub(crate) fn entry(&self, id: HartId, word: u32, effect: &Effect) -> Entry
        requires running { IsRunning (flat_of self.now) id }
        requires uncaused { act_cause (setting_of self.now) ((flat_of self.now).hart id) effect.now.act ≡ None }
        ensures { result ≡ retire_of (flat_view (flat_of self.now) id) id ((flat_of self.now).hart id) word effect.now }
    {
        self.harts[id.index()].entry(&self.memory, id, word, effect)
    }
}

impl Machine {
    /// Where hart i stands.
    pub(crate) fn pc(&self, i: usize) -> Addr
        requires { i < vec_len self.now.harts }
        ensures { result ≡ ((flat_of self.now).hart i).pc }
    {
        self.harts[i].pc
    }

    /// Whether hart i runs a transaction.
    pub(crate) fn is_in_transaction(&self, i: usize) -> bool
        requires { i < vec_len self.now.harts }
        ensures { result ≡ is_some ((flat_of self.now).hart i).tx }
    {
        self.harts[i].tx.is_some()
    }

    /// Ends hart i's run or its transaction, for a cause of its word.
    fn give_up(&mut self, id: HartId, cause: Cause) -> Entry
        requires running { IsRunning (flat_of self.old) id }
        requires next { next_of (setting_of self.old) ((flat_of self.old).hart id) ≡ Err cause }
        ensures carries { Carries (flat_of self.old) result (flat_of self.new) }
        ensures due { IsDueEntry (flat_of self.old) id result }
    {
        let i = id.index();
        let pc = self.pc(i);
        if self.is_in_transaction(i) {
            self.abort(i, AbortCause::Trapped(cause, pc));
            Entry::Abort {
                hart: id,
                cause: AbortCause::Trapped(cause, pc),
            }
        } else {
            self.stop(i, cause, pc);
            Entry::Trap {
                hart: id,
                cause,
                pc,
            }
        }
    }

    /// Rolls hart i's transaction back, as its word asks.
    fn roll_back(&mut self, id: HartId) -> Entry
        requires running { IsRunning (flat_of self.old) id }
        requires asked { IsOkAnd (next_of (setting_of self.old) ((flat_of self.old).hart id)) (λ e. is_abort e.act ≡ true) }
        requires transaction { IsSome ((flat_of self.old).hart id).tx }
        ensures carries { Carries (flat_of self.old) result (flat_of self.new) }
        ensures due { IsDueEntry (flat_of self.old) id result }
    {
        self.abort(id.index(), AbortCause::Asked);
        Entry::Abort {
            hart: id,
            cause: AbortCause::Asked,
        }
    }

    /// Goes on by an effect, as far as the other harts' transactions allow. There are no reservations here, so a conditional store fails, as it may at any
    /// time.
    fn go_on(
        &mut self,
        alloc: Global,
        id: HartId,
        word: u32,
        effect: &Effect,
    ) -> Result<Entry, AllocError>
        requires running { IsRunning (flat_of self.old) id }
        requires fetched { word_at (setting_of self.old).segments ((flat_of self.old).hart id).pc ≡ Some word }
        requires next { next_of (setting_of self.old) ((flat_of self.old).hart id) ≡ Ok effect.now }
        ensures carries { IfOk result (λ e. Carries (flat_of self.old) e (flat_of self.new)) }
        ensures due { IfOk result (IsDueEntry (flat_of self.old) id) }
        ensures err { OnErr result (flat_of self.new ≡ flat_of self.old) }
    {
        if is_abort(&effect.act) {
            return Ok(self.roll_back(id));
        }
        let done = effect.resolved(false);
        match self.kept_out_by(id.index(), &done.act) {
            Some((hart, block)) => Ok(Entry::Refuse {
                hart,
                requester: id,
                block,
            }),
            None => {
                let entry = self.entry(id, word, &done);
                self.retire(alloc, id.index(), &done)?;
                Ok(entry)
            }
        }
    }

    /// One step of hart i's core.
    fn core(&mut self, alloc: Global, id: HartId) -> Result<Option<Entry>, AllocError>
        ensures steps { IfOk result (λ e. StepsTo (flat_of self.old) (Step.Core id) e (flat_of self.new)) }
        ensures err { OnErr result (flat_of self.new ≡ flat_of self.old) }
    {
        match self.next_move(id.index()) {
            NextMove::Idle => Ok(None),
            NextMove::Stops(cause) => Ok(Some(self.give_up(id, cause))),
            NextMove::Goes(word, effect) => {
                let entry = self.go_on(alloc, id, word, &effect)?;
                Ok(Some(entry))
            }
        }
    }

    /// One step. `Core` of a hart that runs is enabled and gives an entry; every other step changes nothing and gives
    /// none. It fails only if memory runs out.
    pub fn step(&mut self, alloc: Global, step: Step) -> Result<Option<Entry>, AllocError>
        ensures refines { IfOk result (λ e. Refines self.old e self.new) }
        ensures steps { IfOk result (λ e. StepsTo (flat_of self.old) step e (flat_of self.new)) }
        ensures err { OnErr result (flat_of self.new ≡ flat_of self.old) }
    {
        match step {
            Step::Core(id) => self.core(alloc, id),
            Step::Evict(..) | Step::Deliver(_) => Ok(None),
        }
    }

    /// One step, its entry pushed.
    fn step_into(
        &mut self,
        alloc: Global,
        step: Step,
        entries: &mut Vec<Entry>,
    ) -> Result<(), AllocError>
        ensures ok { OnOk result (RunsTo (flat_of self.old) entries.old.items (step ∷ []) (flat_of self.new) entries.new.items) }
        ensures machine { OnErr result (flat_of self.new ≡ flat_of self.old) }
        ensures entries { OnErr result (entries.new.items ≡ entries.old.items) }
    {
        make_room(entries)?;
        append(entries, self.step(alloc, step))
    }

    /// Steps in order, their entries pushed. It fails only if memory runs out, and then says how many steps were made: those
    /// before the one that wanted memory.
    pub fn run(
        &mut self,
        alloc: Global,
        steps: &[Step],
        entries: &mut Vec<Entry>,
    ) -> Result<(), (usize, AllocError)>
        ensures refines { RefinesAll self.old entries.old.items self.new entries.new.items }
        ensures ok { OnOk result (RunsTo (flat_of self.old) entries.old.items steps.now (flat_of self.new) entries.new.items) }
        ensures cut { IfErr result (λ x. (x.0 < length steps.now) × RunsTo (flat_of self.old) entries.old.items (take x.0 steps.now) (flat_of self.new) entries.new.items) }
    {
        for (made, step) in steps.iter().enumerate() {
            if let Err(fault) = self.step_into(alloc, *step, entries) {
                return Err((made, fault));
            }
        }
        Ok(())
    }
}
