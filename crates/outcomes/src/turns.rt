ghost use Rattle.std.specs.Prelude.{◌≡◌, ◌≢◌, ◌<◌, ◌≤◌, ◌++◌, [], ◌∷◌, ℕ, List, true, false, Ok, Err, Some, None, IsTrue, IfOk, OnOk, IfSome, IfNone, IsOkAnd, IsSomeAnd, IsSome, length, option_to_list, vec_len, ◌&&◌, nat_le, is_some, not};
ghost use Rattle.std.specs.Option.{option_map, option_map_or};
ghost use Rattle.words.specs.declared.entry.Entry.{Entry};
ghost use Rattle.words.specs.Limits.{log_records};
ghost use Rattle.flat.specs.State.{Flat, IsAllowed};
ghost use Rattle.flat.specs.Causes.{next_of};
ghost use Rattle.flat.specs.Steps.{IsRunning, is_abort, is_store, hart_of, aborted, stopped, retired, Carries};
ghost use Rattle.table.specs.Effects.{resolved};
ghost use Rattle.table.specs.Program.{word_at};
ghost use Rattle.isolation.specs.Moves.{Moves, MovesBy, MoveTogether, MovesInOrder};
ghost use Rattle.outcomes.specs.Harts.{tx_of};
ghost use Rattle.outcomes.specs.Standings.{setting_of, flat_of, changed};
ghost use Rattle.outcomes.specs.Turns.{entries_of, after, IsBack, IsOf, IsOwn, IsOwnMove, is_conditional, is_failure, IsMove, IsMoveInOrder, Has, Adds};
ghost use Rattle.outcomes.specs.declared.change.Turn.{Turn};
ghost use Rattle.std.specs.List.{Contains};

use crate::change::{Change, Turn};
use crate::hart::{Hart, MOST_STORES, Transaction};
use crate::scene::NextMove;
use crate::standing::Standing;
use std::alloc::{AllocError, Global};
use table::{Act, Effect};
use words::{AbortCause, Addr, Cause, Entry, HartId};

/// Whether an act rolls the transaction back.
fn is_abort(act: &Act) -> bool
    ensures { result ≡ is_abort act.now }
{
    match act {
        Act::Abort => true,
        _ => false,
    }
}

/// Whether an act stores, or may.
fn is_store(act: &Act) -> bool
    ensures { result ≡ is_store act.now }
{
    match act {
        Act::Memory(m) | Act::Conditional(_, m) => m.store.is_some(),
        _ => false,
    }
}

/// Whether an act is a conditional store.
fn is_conditional(act: &Act) -> bool
    ensures { result ≡ is_conditional act.now }
{
    match act {
        Act::Conditional(_, _) => true,
        _ => false,
    }
}

/// Whether a transaction has retired as many stores as an undo log holds.
fn is_full(tx: &Option<Transaction>) -> bool
    ensures { (size : ℕ) → result ≡ option_map_or (λ t. nat_le log_records t.stores) (option_map (tx_of size) tx.now) false }
{
    match tx {
        Some(tx) => tx.stores >= MOST_STORES,
        None => false,
    }
}

// The changes of one hart. Each fails only if memory runs out.
impl Standing<'_> {
    /// Hart i's transaction is rolled back, if it has one.
    fn aborts(
        &self,
        alloc: Global,
        id: HartId,
        cause: &AbortCause,
    ) -> Result<Option<Change>, AllocError>
        requires { id < self.now.scene.count }
        ensures some { IfOk result (λ r. IfSome r (IsBack self.now.scene.image.now (flat_of self.now) id cause.now)) }
        ensures none { IfOk result (λ r. IfNone r (((flat_of self.now).hart id).tx ≡ None)) }
    {
        let hart = self.hart(id.index());
        match &hart.tx {
            Some(tx) => Ok(Some(Change {
                id,
                hart: hart.aborted(alloc, tx, cause)?,
                memory: None,
            })),
            None => Ok(None),
        }
    }

    /// Hart i retires what its word does. A conditional store succeeds or fails.
    fn retires(
        &self,
        alloc: Global,
        id: HartId,
        word: u32,
        effect: &Effect,
        succeeds: bool,
    ) -> Result<Turn, AllocError>
        requires running { IsRunning (flat_of self.now) id }
        requires fetched { word_at (flat_of self.now).setting.segments ((flat_of self.now).hart id).pc ≡ Some word }
        requires next { next_of (flat_of self.now).setting ((flat_of self.now).hart id) ≡ Ok effect.now }
        requires no_abort { is_abort effect.now.act ≡ false }
        requires allowed { IsAllowed (flat_of self.now) id (resolved succeeds effect.now).act }
        requires fails { succeeds ≡ false → is_conditional effect.now.act ≡ true }
        ensures { IfOk result (IsOwnMove self.now.scene.image.now (flat_of self.now) id (not succeeds)) }
    {
        let image = self.scene.image;
        let done = effect.resolved(succeeds);
        let mut hart = self.hart(id.index()).copy(alloc)?;
        let mut memory = self.memory.copy()?;
        let entry = hart.entry(image, self.memory, id, word, &done);
        hart.retire(alloc, image, &mut memory, &done)?;
        Ok(Turn::Alone(
            entry,
            Change {
                id,
                hart,
                memory: Some(memory),
            },
        ))
    }

    /// The end of hart i's run or of its transaction, for a cause of its word.
    fn gives_up(&self, alloc: Global, id: HartId, cause: Cause) -> Result<Turn, AllocError>
        requires running { IsRunning (flat_of self.now) id }
        requires next { next_of (flat_of self.now).setting ((flat_of self.now).hart id) ≡ Err cause }
        ensures { IfOk result (IsOwnMove self.now.scene.image.now (flat_of self.now) id false) }
    {
        let hart = self.hart(id.index());
        let pc = Addr::new(hart.pc);
        let trapped = AbortCause::Trapped(cause, pc);
        match self.aborts(alloc, id, &trapped)? {
            Some(change) => Ok(Turn::Alone(
                Entry::Abort {
                    hart: id,
                    cause: trapped,
                },
                change,
            )),
            None => Ok(Turn::Alone(
                Entry::Trap {
                    hart: id,
                    cause,
                    pc,
                },
                Change {
                    id,
                    hart: hart.stopped(alloc, cause, pc)?,
                    memory: None,
                },
            )),
        }
    }

    /// The abort of hart i's transaction for a cause, if it has one.
    fn aborts_for(
        &self,
        alloc: Global,
        id: HartId,
        cause: &AbortCause,
    ) -> Result<Option<Turn>, AllocError>
        requires { id < self.now.scene.count }
        ensures some { IfOk result (λ r. IfSome r (λ t. IsOf self.now.scene.count t × (entries_of t ≡ Entry.Abort id cause.now ∷ []) × IsSomeAnd ((flat_of self.now).hart id).tx (λ x. after self.now.scene.image.now (flat_of self.now) t ≡ aborted (flat_of self.now) id cause.now x))) }
        ensures none { IfOk result (λ r. IfNone r (((flat_of self.now).hart id).tx ≡ None)) }
    {
        match self.aborts(alloc, id, cause)? {
            Some(change) => Ok(Some(Turn::Alone(
                Entry::Abort {
                    hart: id,
                    cause: *cause,
                },
                change,
            ))),
            None => Ok(None),
        }
    }

    /// What hart i does by its word alone, where a conditional store succeeds: it retires it if that is allowed, or aborts as the
    /// word asks, or for its cause, or is stopped.
    fn own(&self, alloc: Global, id: HartId) -> Result<Option<Turn>, AllocError>
        requires { id < self.now.scene.count }
        ensures some { IfOk result (λ r. IfSome r (IsOwnMove self.now.scene.image.now (flat_of self.now) id false)) }
        ensures none { IfOk result (λ r. IfNone r ((e : Entry) (g : Flat) → IsOwn e → is_failure (flat_of self.now) e ≡ false → hart_of e ≡ id → Carries (flat_of self.now) e g → ⊥)) }
    {
        match self.next_move(id.index()) {
            NextMove::Idle => Ok(None),
            NextMove::Stops(cause) => Ok(Some(self.gives_up(alloc, id, cause)?)),
            NextMove::Goes(word, effect) => {
                if is_abort(&effect.act) {
                    self.aborts_for(alloc, id, &AbortCause::Asked)
                } else if self.is_allowed(id.index(), &effect.resolved(true).act) {
                    Ok(Some(self.retires(alloc, id, word, &effect, true)?))
                } else {
                    Ok(None)
                }
            }
        }
    }

    /// Hart i's conditional store fails, if its word is one.
    fn fails(&self, alloc: Global, id: HartId) -> Result<Option<Turn>, AllocError>
        requires { id < self.now.scene.count }
        ensures some { IfOk result (λ r. IfSome r (IsOwnMove self.now.scene.image.now (flat_of self.now) id true)) }
        ensures none { IfOk result (λ r. IfNone r ((e : Entry) (g : Flat) → IsOwn e → is_failure (flat_of self.now) e ≡ true → hart_of e ≡ id → Carries (flat_of self.now) e g → ⊥)) }
    {
        match self.next_move(id.index()) {
            NextMove::Goes(word, effect) => {
                if is_conditional(&effect.act) {
                    Ok(Some(self.retires(alloc, id, word, &effect, false)?))
                } else {
                    Ok(None)
                }
            }
            NextMove::Idle | NextMove::Stops(_) => Ok(None),
        }
    }

    /// The abort for a full log, where hart i's word stores and as many stores as a log holds were retired.
    fn overflows(&self, alloc: Global, id: HartId) -> Result<Option<Turn>, AllocError>
        requires { id < self.now.scene.count }
        ensures some { IfOk result (λ r. IfSome r (λ t. IsOf self.now.scene.count t × (entries_of t ≡ Entry.Abort id AbortCause.LogFull ∷ []) × MovesBy (flat_of self.now) (Entry.Abort id AbortCause.LogFull) (after self.now.scene.image.now (flat_of self.now) t))) }
        ensures none { IfOk result (λ r. IfNone r ((g : Flat) → MovesBy (flat_of self.now) (Entry.Abort id AbortCause.LogFull) g → ⊥)) }
    {
        match self.next_move(id.index()) {
            NextMove::Goes(_, effect) => {
                if is_store(&effect.act) && is_full(&self.hart(id.index()).tx) {
                    self.aborts_for(alloc, id, &AbortCause::LogFull)
                } else {
                    Ok(None)
                }
            }
            NextMove::Idle | NextMove::Stops(_) => Ok(None),
        }
    }

    /// The abort for a conflict, where hart i may give way.
    fn gives_way(&self, alloc: Global, id: HartId) -> Result<Option<Turn>, AllocError>
        requires { id < self.now.scene.count }
        ensures some { IfOk result (λ r. IfSome r (λ t. IsOf self.now.scene.count t × (entries_of t ≡ Entry.Abort id AbortCause.Conflict ∷ []) × MovesBy (flat_of self.now) (Entry.Abort id AbortCause.Conflict) (after self.now.scene.image.now (flat_of self.now) t))) }
        ensures none { IfOk result (λ r. IfNone r ((g : Flat) → MovesBy (flat_of self.now) (Entry.Abort id AbortCause.Conflict) g → ⊥)) }
    {
        if self.may_give_way(id.index()) {
            self.aborts_for(alloc, id, &AbortCause::Conflict)
        } else {
            Ok(None)
        }
    }

    /// The aborts of two harts for each other, where both may give way and no third hart is in a transaction.
    fn give_way_together(
        &self,
        alloc: Global,
        one: HartId,
        other: HartId,
    ) -> Result<Option<Turn>, AllocError>
        requires order { one < other }
        requires hart { other < self.now.scene.count }
        ensures some { IfOk result (λ r. IfSome r (λ t. IsOf self.now.scene.count t × (entries_of t ≡ Entry.Abort one AbortCause.Conflict ∷ Entry.Abort other AbortCause.Conflict ∷ []) × MoveTogether (flat_of self.now) one other (after self.now.scene.image.now (flat_of self.now) t))) }
        ensures none { IfOk result (λ r. IfNone r ((g : Flat) → MoveTogether (flat_of self.now) one other g → ⊥)) }
    {
        let (i, j) = (one.index(), other.index());
        if !self.may_give_way(i) || !self.may_give_way(j) || self.is_a_third_inside(i, j) {
            return Ok(None);
        }
        match self.aborts(alloc, one, &AbortCause::Conflict)? {
            Some(first) => match self.aborts(alloc, other, &AbortCause::Conflict)? {
                Some(second) => Ok(Some(Turn::Together(first, second))),
                None => Ok(None),
            },
            None => Ok(None),
        }
    }
}

/// Pushes what there is.
fn push_some(turns: &mut Vec<Turn>, turn: Option<Turn>) -> Result<(), AllocError>
    ensures { OnOk result (turns.new.items ≡ turns.old.items ++ option_to_list turn) }
{
    if let Some(turn) = turn {
        turns.push(turn)?;
    }
    Ok(())
}

// The moves of a state. Each fails only if memory runs out.
impl Standing<'_> {
    /// Pushes the moves of hart i alone.
    fn push_moves_of(
        &self,
        alloc: Global,
        id: HartId,
        turns: &mut Vec<Turn>,
    ) -> Result<(), AllocError>
        requires { id < self.now.scene.count }
        ensures adds { OnOk result (Adds self.now.scene.image.now (flat_of self.now) turns.old.items turns.new.items) }
        ensures all { OnOk result ((e : Entry) (g : Flat) → hart_of e ≡ id → MovesBy (flat_of self.now) e g → Has self.now.scene.image.now (flat_of self.now) turns.new.items (e ∷ []) g) }
    {
        push_some(turns, self.own(alloc, id)?)?;
        push_some(turns, self.fails(alloc, id)?)?;
        push_some(turns, self.overflows(alloc, id)?)?;
        push_some(turns, self.gives_way(alloc, id)?)
    }

    /// Pushes the moves of hart i together with each hart above it.
    fn push_moves_with(
        &self,
        alloc: Global,
        id: HartId,
        turns: &mut Vec<Turn>,
    ) -> Result<(), AllocError>
        requires { id < self.now.scene.count }
        ensures adds { OnOk result (Adds self.now.scene.image.now (flat_of self.now) turns.old.items turns.new.items) }
        ensures all { OnOk result ((j : ℕ) (g : Flat) → MoveTogether (flat_of self.now) id j g → Has self.now.scene.image.now (flat_of self.now) turns.new.items (Entry.Abort id AbortCause.Conflict ∷ Entry.Abort j AbortCause.Conflict ∷ []) g) }
    {
        for j in id.index() + 1..self.ids.len() {
            let other = HartId::new(j as u8);
            push_some(turns, self.give_way_together(alloc, id, other)?)?;
        }
        Ok(())
    }

    /// All moves of a state.
    pub fn all_turns(&self, alloc: Global) -> Result<Vec<Turn>, AllocError>
        ensures sound { IfOk result (λ turns. (t : Turn) → Contains turns.items t → IsMove self.now.scene.image.now (flat_of self.now) t) }
        ensures complete { IfOk result (λ turns. (es : List Entry) (g : Flat) → Moves (flat_of self.now) es g → Has self.now.scene.image.now (flat_of self.now) turns.items es g) }
    {
        let mut turns = Vec::new(alloc);
        for i in 0..self.ids.len() {
            let id = HartId::new(i as u8);
            self.push_moves_of(alloc, id, &mut turns)?;
            self.push_moves_with(alloc, id, &mut turns)?;
        }
        Ok(turns)
    }

    /// The moves that the search takes: where a hart is at a word that nobody else sees, that of the lowest such hart alone, else
    /// all.
    pub fn turns(&self, alloc: Global) -> Result<Vec<Turn>, AllocError>
        ensures sound { IfOk result (λ turns. (t : Turn) → Contains turns.items t → IsMoveInOrder self.now.scene.image.now (flat_of self.now) t) }
        ensures complete { IfOk result (λ turns. (es : List Entry) (g : Flat) → MovesInOrder (flat_of self.now) es g → Has self.now.scene.image.now (flat_of self.now) turns.items es g) }
    {
        match self.first_local() {
            Some(i) => {
                let mut turns = Vec::new(alloc);
                push_some(&mut turns, self.own(alloc, HartId::new(i as u8))?)?;
                Ok(turns)
            }
            None => self.all_turns(alloc),
        }
    }
}
