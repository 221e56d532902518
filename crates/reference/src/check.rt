ghost use Rattle.std.specs.Prelude.{◌≡◌, ◌≢◌, ◌<◌, ◌≤◌, ◌↔◌, ℕ, true, false, IsTrue, IfOk, IfErr, IfSome, IfNone, OnErr, Ok, length, take, vec_len, slice_get, IsOkAnd};
ghost use Rattle.words.specs.declared.entry.Entry.{Entry};
ghost use Rattle.flat.specs.State.{Flat, idle};
ghost use Rattle.flat.specs.Causes.{done_next};
ghost use Rattle.flat.specs.Steps.{Carries, Retires, IsRun, MayAbort, is_store};
ghost use Rattle.reference.specs.States.{hart_of, tx_of};
ghost use Rattle.reference.specs.Machines.{setting_of, flat_of, has_store, CanRetire, RetiresAs, CanAbort, CanTrap, IsDueAbort};

use crate::hart::{Hart, MOST_STORES, Transaction};
use crate::machine::{Machine, NextMove};
use crate::step::is_abort;
use std::alloc::{AllocError, Global};
use table::{Act, Effect};
use words::{AbortCause, Addr, Cause, Entry, HartId};

fn is_store(act: &Act) -> bool
    ensures { result ≡ is_store act.now }
{
    match act {
        Act::Memory(m) | Act::Conditional(_, m) => m.store.is_some(),
        _ => false,
    }
}

fn is_same(a: &Entry, b: &Entry) -> bool
    ensures yes { IsTrue result → a.now ≡ b.now }
    ensures no { result ≡ false → a.now ≢ b.now }
{
    a == b
}

/// Whether an entry has a store.
fn has_store(entry: &Entry) -> bool
    ensures { result ≡ has_store entry.now }
{
    match entry {
        Entry::Retire { store, .. } => store.is_some(),
        _ => false,
    }
}

/// Whether an abort for this cause is due, by what the hart is about to do.
fn is_due(cause: &AbortCause, hart: &Hart, tx: &Transaction, next: &NextMove) -> bool
    ensures { (size : ℕ) → IsTrue result ↔ IsDueAbort cause.now (hart_of size hart.now) (tx_of size tx.now) next.now }
{
    match next {
        NextMove::Idle => false,
        NextMove::Stops(due) => match cause {
            AbortCause::Conflict => true,
            AbortCause::Asked | AbortCause::LogFull => false,
            AbortCause::Trapped(trap, pc) => *pc == hart.pc && *trap == *due,
        },
        NextMove::Goes(_, effect) => match cause {
            AbortCause::Conflict => true,
            AbortCause::Asked => is_abort(&effect.act),
            AbortCause::LogFull => is_store(&effect.act) && tx.stores >= MOST_STORES,
            AbortCause::Trapped(..) => false,
        },
    }
}

impl Machine {
    /// What hart i can retire next, where a conditional store succeeds or doesn't, and the entry that shows it.
    fn plan(&self, id: HartId, succeeds: bool) -> Option<(u32, Effect, Entry)>
        ensures some { IfSome result (λ x. CanRetire (flat_of self.now) id succeeds x.0 x.1 x.2) }
        ensures none { IfNone result ((w : ℕ) (e : Entry) (g : Flat) → IsOkAnd (done_next succeeds (setting_of self.now) ((flat_of self.now).hart id)) (λ does. Retires (flat_of self.now) id w does e g) → ⊥) }
    {
        match self.next_move(id.index()) {
            NextMove::Idle | NextMove::Stops(_) => None,
            NextMove::Goes(word, effect) => {
                let effect = effect.resolved(succeeds);
                if is_abort(&effect.act) || self.kept_out_by(id.index(), &effect.act).is_some() {
                    None
                } else {
                    let entry = self.entry(id, word, &effect);
                    Some((word, effect, entry))
                }
            }
        }
    }

    /// Checks a Retire entry of hart i.
    fn check_retire(&mut self, alloc: Global, id: HartId, entry: &Entry) -> Result<bool, AllocError>
        ensures accepted { IfOk result (λ yes. IsTrue yes → RetiresAs (flat_of self.old) id entry.now (flat_of self.new)) }
        ensures refused { IfOk result (λ yes. yes ≡ false → (g : Flat) → RetiresAs (flat_of self.old) id entry.now g → ⊥) }
        ensures same { IfOk result (λ yes. yes ≡ false → flat_of self.new ≡ flat_of self.old) }
        ensures err { OnErr result (flat_of self.new ≡ flat_of self.old) }
    {
        let (effect, planned) = match self.plan(id, has_store(entry)) {
            Some((_, effect, planned)) => (effect, planned),
            None => return Ok(false),
        };
        if !is_same(&planned, entry) {
            return Ok(false);
        }
        self.retire(alloc, id.index(), &effect)?;
        Ok(true)
    }

    /// The hart with this number, if there is one.
    pub(crate) fn hart(&self, id: HartId) -> Option<&Hart>
        ensures some { IfSome result (λ h. (flat_of self.now).hart id ≡ hart_of (vec_len self.now.memory) h.now) }
        ensures none { IfNone result (((flat_of self.now).hart id ≡ idle) × (vec_len self.now.harts ≤ id)) }
    {
        self.harts.get(id.index())
    }

    /// Whether hart i's transaction can be rolled back for this cause.
    fn may_abort(&self, id: HartId, cause: &AbortCause) -> bool
        ensures yes { IsTrue result → CanAbort (flat_of self.now) id cause.now }
        ensures no { result ≡ false → CanAbort (flat_of self.now) id cause.now → ⊥ }
    {
        let next = self.next_move(id.index());
        match self.hart(id) {
            Some(hart) => match &hart.tx {
                Some(tx) => is_due(cause, hart, tx, &next),
                None => false,
            },
            None => false,
        }
    }

    /// Whether hart i can be stopped for this cause at this pc.
    fn may_trap(&self, id: HartId, cause: Cause, pc: Addr) -> bool
        ensures yes { IsTrue result → CanTrap (flat_of self.now) id cause pc }
        ensures no { result ≡ false → CanTrap (flat_of self.now) id cause pc → ⊥ }
    {
        let i = id.index();
        match self.next_move(i) {
            NextMove::Idle | NextMove::Goes(..) => false,
            NextMove::Stops(due) => {
                !self.is_in_transaction(i) && pc == self.pc(i) && cause == due
            }
        }
    }

    fn check_abort(&mut self, id: HartId, cause: AbortCause) -> bool
        ensures accepted { IsTrue result → Carries (flat_of self.old) (Entry.Abort id cause) (flat_of self.new) }
        ensures refused { result ≡ false → (g : Flat) → Carries (flat_of self.old) (Entry.Abort id cause) g → ⊥ }
        ensures same { result ≡ false → flat_of self.new ≡ flat_of self.old }
    {
        if !self.may_abort(id, &cause) {
            return false;
        }
        self.abort(id.index(), cause);
        true
    }

    fn check_trap(&mut self, id: HartId, cause: Cause, pc: Addr) -> bool
        ensures accepted { IsTrue result → Carries (flat_of self.old) (Entry.Trap id cause pc) (flat_of self.new) }
        ensures refused { result ≡ false → (g : Flat) → Carries (flat_of self.old) (Entry.Trap id cause pc) g → ⊥ }
        ensures same { result ≡ false → flat_of self.new ≡ flat_of self.old }
    {
        if !self.may_trap(id, cause, pc) {
            return false;
        }
        self.stop(id.index(), cause, pc);
        true
    }

    /// Checks one entry: accepts it if and only if it carries the flat state on, and then is where it leads. It fails only if
    /// memory runs out.
    pub fn check(&mut self, alloc: Global, entry: &Entry) -> Result<bool, AllocError>
        ensures accepted { IfOk result (λ yes. IsTrue yes → Carries (flat_of self.old) entry.now (flat_of self.new)) }
        ensures refused { IfOk result (λ yes. yes ≡ false → (g : Flat) → Carries (flat_of self.old) entry.now g → ⊥) }
        ensures same { IfOk result (λ yes. yes ≡ false → flat_of self.new ≡ flat_of self.old) }
        ensures err { OnErr result (flat_of self.new ≡ flat_of self.old) }
    {
        match entry {
            Entry::Retire { hart, .. } => self.check_retire(alloc, *hart, entry),
            Entry::Abort { hart, cause } => Ok(self.check_abort(*hart, *cause)),
            Entry::Trap { hart, cause, pc } => Ok(self.check_trap(*hart, *cause, *pc)),
            Entry::Refuse { .. } | Entry::Spill { .. } => Ok(true),
        }
    }

    /// Checks a list of entries up to the first that it refuses: answers how many it accepted, which is all of them if and
    /// only if they are a run. It fails only if memory runs out, and then says how many were accepted before.
    pub fn check_all(
        &mut self,
        alloc: Global,
        entries: &[Entry],
    ) -> Result<usize, (usize, AllocError)>
        ensures run { IfOk result (λ n. IsRun (flat_of self.old) (take n entries.now) (flat_of self.new)) }
        ensures bound { IfOk result (λ n. n ≤ length entries.now) }
        ensures refused { IfOk result (λ n. (e : Entry) (g : Flat) → slice_get entries.now n ≡ Some e → Carries (flat_of self.new) e g → ⊥) }
        ensures err { IfErr result (λ x. (x.0 < length entries.now) × IsRun (flat_of self.old) (take x.0 entries.now) (flat_of self.new)) }
    {
        for (accepted, entry) in entries.iter().enumerate() {
            match self.check(alloc, entry) {
                Ok(true) => {}
                Ok(false) => return Ok(accepted),
                Err(fault) => return Err((accepted, fault)),
            }
        }
        Ok(entries.len())
    }
}
