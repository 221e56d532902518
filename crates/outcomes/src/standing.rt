ghost use Rattle.std.specs.Prelude.{◌≡◌, ◌≢◌, ◌<◌, ◌/◌, ◌&&◌, ◌||◌, ℕ, true, false, is_some, None, IsTrue, IfSome, IfNone, IsOkAnd, length, slice_index, slice_get};
ghost use Rattle.flat.specs.State.{IsAllowed, has_read, has_written};
ghost use Rattle.flat.specs.Causes.{next_of};
ghost use Rattle.flat.specs.Steps.{IsRunning};
ghost use Rattle.isolation.specs.Moves.{depths, is_access, is_local, IsAtAccess, IsBeside, MayGiveWay, IsLocal, IsFirstLocal};
ghost use Rattle.isolation.specs.Walks.{IsEnded};

use crate::hart::Hart;
use crate::memory::Memory;
use crate::scene::{NextMove, Scene};
use table::Act;
use words::{HartId, Status};

/// A state of a search, looked up: the harts of these numbers, and memory.
#[derive(Clone, Copy)]
pub struct Standing<'a> {
    pub scene: Scene<'a>,
    pub pool: &'a [Hart],
    pub ids: &'a [u32],
    pub memory: &'a Memory,
    ghost counted: { length ids.now ≡ scene.count },
    ghost within: { (i : ℕ) → i < length ids.now → slice_index ids.now i < length pool.now },
}

/// Whether an act is an access to memory.
fn is_access(act: &Act) -> bool
    ensures { result ≡ is_access act.now }
{
    match act {
        Act::Memory(_) | Act::Conditional(_, _) => true,
        _ => false,
    }
}

/// Whether an act is that of a register operation, a jump or a branch.
fn is_local(act: &Act) -> bool
    ensures { result ≡ is_local act.now }
{
    match act {
        Act::Nothing => true,
        _ => false,
    }
}

impl Standing<'_> {
    ghost use Rattle.outcomes.specs.Harts.{hart_of};
    ghost use Rattle.outcomes.specs.Standings.{setting_of, flat_of, IsNextMove};

    /// Hart i.
    pub fn hart(&self, i: usize) -> &Hart
        requires { i < self.now.scene.count }
        ensures { (flat_of self.now).hart i ≡ hart_of (length self.now.scene.image.now) result.now }
    {
        &self.pool[self.ids[i] as usize]
    }

    /// How deep a hart is in transactions.
    pub fn depth(&self, id: HartId) -> u8
        ensures { result ≡ depths (flat_of self.now) id }
    {
        if id.index() >= self.scene.count {
            return 0;
        }
        match &self.hart(id.index()).tx {
            Some(tx) => tx.depth,
            None => 0,
        }
    }

    /// What hart i is about to do.
    pub fn next_move(&self, i: usize) -> NextMove
        requires { i < self.now.scene.count }
        ensures { IsNextMove (flat_of self.now).setting ((flat_of self.now).hart i) result }
    {
        self.scene.next_move(self.hart(i))
    }

    /// Whether no hart runs.
    pub fn is_ended(&self) -> bool
        ensures yes { IsTrue result → IsEnded (flat_of self.now) }
        ensures no { result ≡ false → IsEnded (flat_of self.now) → ⊥ }
    {
        for i in 0..self.ids.len() {
            if self.hart(i).status == Status::Running {
                return false;
            }
        }
        true
    }

    /// Whether another hart's transaction stands against hart i's access to the block.
    fn is_refused(&self, i: usize, block: usize, stores: bool) -> bool
        ensures yes { IsTrue result → (j : ℕ) × (j < self.now.scene.count) × (j ≢ i) × ((has_written ((flat_of self.now).hart j).tx block || (stores && has_read ((flat_of self.now).hart j).tx block)) ≡ true) }
        ensures no { result ≡ false → (j : ℕ) → j < self.now.scene.count → j ≢ i → (has_written ((flat_of self.now).hart j).tx block || (stores && has_read ((flat_of self.now).hart j).tx block)) ≡ false }
    {
        for j in 0..self.ids.len() {
            if j != i && self.hart(j).stands_against(block, stores) {
                return true;
            }
        }
        false
    }

    /// Whether no other hart's transaction keeps hart i's act out.
    pub fn is_allowed(&self, i: usize, act: &Act) -> bool
        ensures yes { IsTrue result → IsAllowed (flat_of self.now) i act.now }
        ensures no { result ≡ false → IsAllowed (flat_of self.now) i act.now → ⊥ }
    {
        match act {
            Act::Memory(m) => { !self.is_refused(i, m.addr.block().index(), m.store.is_some()) }
            _ => true,
        }
    }

    /// Whether another hart than i is in a transaction.
    fn is_beside(&self, i: usize) -> bool
        ensures yes { IsTrue result → IsBeside (flat_of self.now) i }
        ensures no { result ≡ false → IsBeside (flat_of self.now) i → ⊥ }
    {
        for j in 0..self.ids.len() {
            if j != i && self.hart(j).tx.is_some() {
                return true;
            }
        }
        false
    }

    /// Whether a hart other than i and j is in a transaction.
    pub fn is_a_third_inside(&self, i: usize, j: usize) -> bool
        ensures yes { IsTrue result → (k : ℕ) × (k ≢ i) × (k ≢ j) × (((flat_of self.now).hart k).tx ≢ None) }
        ensures no { result ≡ false → (k : ℕ) → k ≢ i → k ≢ j → ((flat_of self.now).hart k).tx ≡ None }
    {
        for k in 0..self.ids.len() {
            if k != i && k != j && self.hart(k).tx.is_some() {
                return true;
            }
        }
        false
    }

    /// Whether hart i is at an access.
    fn is_at_access(&self, i: usize) -> bool
        requires { i < self.now.scene.count }
        ensures yes { IsTrue result → IsRunning (flat_of self.now) i × IsAtAccess (flat_of self.now) i }
        ensures no { result ≡ false → IsRunning (flat_of self.now) i → IsAtAccess (flat_of self.now) i → ⊥ }
    {
        match self.next_move(i) {
            NextMove::Goes(_, effect) => is_access(&effect.act),
            NextMove::Idle | NextMove::Stops(_) => false,
        }
    }

    /// Whether hart i is in a transaction at an access, and another hart is in a transaction.
    pub fn may_give_way(&self, i: usize) -> bool
        requires { i < self.now.scene.count }
        ensures yes { IsTrue result → MayGiveWay (flat_of self.now) i }
        ensures no { result ≡ false → MayGiveWay (flat_of self.now) i → ⊥ }
    {
        self.hart(i).tx.is_some() && self.is_beside(i) && self.is_at_access(i)
    }

    /// Whether hart i is at a word that nobody else sees.
    fn is_local(&self, i: usize) -> bool
        requires { i < self.now.scene.count }
        ensures yes { IsTrue result → IsLocal (flat_of self.now) i }
        ensures no { result ≡ false → IsLocal (flat_of self.now) i → ⊥ }
    {
        match self.next_move(i) {
            NextMove::Goes(_, effect) => is_local(&effect.act),
            NextMove::Idle | NextMove::Stops(_) => false,
        }
    }

    /// The lowest hart at a word that nobody else sees.
    pub fn first_local(&self) -> Option<usize>
        ensures some { IfSome result (λ i. IsFirstLocal (flat_of self.now) i) }
        ensures none { IfNone result ((k : ℕ) → IsLocal (flat_of self.now) k → ⊥) }
    {
        for i in 0..self.ids.len() {
            if self.is_local(i) {
                return Some(i);
            }
        }
        None
    }
}
