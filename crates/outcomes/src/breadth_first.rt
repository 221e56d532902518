ghost use Rattle.std.specs.Prelude.{◌≡◌, ◌<◌, ◌≤◌, ◌+◌, ◌↔◌, ◌⊎◌, ℕ, List, Some, IsTrue, true, false, IfOk, OnOk, IfSome, IfNone, length, slice_get};
ghost use Rattle.words.specs.declared.entry.Entry.{Entry};
ghost use Rattle.flat.specs.State.{Setting, Flat};
ghost use Rattle.flat.specs.Start.{first_hart};
ghost use Rattle.flat.specs.Boots.{boot_fault, booted, fits_below};
ghost use Rattle.flat.specs.declared.boot_fault.BootFault.{BootFault};
ghost use Rattle.isolation.specs.Moves.{Place, LeadsInOrder, IsReserved, reserved_behind};
ghost use Rattle.isolation.specs.Walks.{IsEnded, WalksInOrder, entries_of};
ghost use Rattle.outcomes.specs.Harts.{hart_of};
ghost use Rattle.outcomes.specs.Turns.{after, entries_of as entries_of_turn, IsMoveInOrder};
ghost use Rattle.std.specs.List.{Contains};
ghost use Rattle.outcomes.specs.Standings.{setting_of, flat_of};
ghost use Rattle.outcomes.specs.Reservations.{reserved_of};
ghost use Rattle.outcomes.specs.Pools.{flat_in, reserved_in, IsWithin};
ghost use Rattle.outcomes.specs.Searches.{setting_at, flat_at, place_at, shown_by, Stands, IsMet, IsExpanded, IsSearch, Extends, IsBeyond, IsEnd, IsBegun, Finds};

use crate::change::Turn;
use crate::gauge::{Gauge, tell_if_due};
use crate::list::{push, push_if};
use crate::pool::{Pool, State};
use crate::reservations::Reservations;
use crate::scene::Scene;
use crate::standing::Standing;
use indexmap::IndexSet;
use loader::Program;
use std::alloc::{AllocError, Global};
use words::{Entry, HartId};

/// What a move shows.
#[derive(Clone, Copy, Debug)]
pub enum Move {
    /// An entry.
    One(Entry),
    /// The aborts of these two harts, each for a conflict.
    Two(HartId, HartId),
}

/// Where a state was met first: the place of the state before it, and the move.
#[derive(Clone, Copy, Debug)]
pub struct Origin {
    pub from: usize,
    pub shown: Move,
}

/// What a search has found.
#[derive(Drop)]
pub struct Outcomes {
    pub program: Program,
    pub image: Vec<u8>,
    pub count: usize,
    pub pool: Pool,
    /// In the order in which they were met.
    pub states: IndexSet<State>,
    /// Of each state but the first.
    pub origins: Vec<Origin>,
    /// Whether these are all states.
    pub is_all: bool,
}

/// What a move shows.
fn move_of(turn: &Turn) -> Move
    ensures { shown_by result ≡ entries_of_turn turn.now }
{
    match turn {
        Turn::Alone(entry, _) => Move::One(*entry),
        Turn::Together(first, second) => Move::Two(first.id, second.id),
    }
}

impl Outcomes {
    /// The program, the bytes that memory begins with, and how many harts there are.
    fn scene(&self) -> Scene<'_>
        requires { self.now.count ≤ 8 }
        ensures setting { setting_of result ≡ setting_at self.now }
        ensures image { result.image.now ≡ self.now.image.items }
    {
        Scene {
            program: &self.program,
            image: &self.image,
            count: self.count,
        }
    }

    /// Notes a state and its origin, if it is new. False where it would be one more than the limit.
    fn note(&mut self, next: State, origin: Origin, limit: usize) -> Result<bool, AllocError>
        requires search { IsSearch self.old }
        requires within { IsWithin self.old.count self.old.pool next }
        requires earlier { origin.from < length self.old.states.keys }
        requires moves { (x : State) → Stands self.old origin.from x → LeadsInOrder (place_at self.old x) (shown_by origin.shown) (place_at self.old next) }
        ensures search { OnOk result (IsSearch self.new) }
        ensures extends { OnOk result (Extends self.old self.new) }
        ensures met { IfOk result (λ yes. IsTrue yes → IsMet self.new (place_at self.old next)) }
        ensures more { IfOk result (λ yes. yes ≡ false → IsBeyond self.new limit) }
        ensures bound { OnOk result (length self.old.states.keys ≤ limit → length self.new.states.keys ≤ limit) }
    {
        if self.states.contains(&next) {
            return Ok(true);
        }
        if self.states.len() >= limit {
            return Ok(false);
        }
        self.states.insert(next)?;
        push(&mut self.origins, origin)?;
        Ok(true)
    }

    /// The reservations behind a move from a state. None where an SC would succeed without a reservation.
    fn reserved_behind(&self, state: &State, shown: &Move) -> Option<Reservations>
        requires few { self.now.count ≤ 8 }
        requires within { IsWithin self.now.count self.now.pool state.now }
        ensures some { IfSome result (λ r. IsReserved (place_at self.now state.now).reserved (shown_by shown.now) × ((k : ℕ) → reserved_of r k ≡ reserved_behind (flat_at self.now state.now) (place_at self.now state.now).reserved (shown_by shown.now) k)) }
        ensures none { IfNone result (IsReserved (place_at self.now state.now).reserved (shown_by shown.now) → ⊥) }
    {
        let standing = self.pool.standing(self.scene(), state);
        self.pool.reserved(state).behind(&standing, shown)
    }

    /// Notes the state that a move leads to, if the move has its reason. False where it would be one more than the limit.
    fn visit(
        &mut self,
        from: usize,
        state: State,
        turn: Turn,
        limit: usize,
    ) -> Result<bool, AllocError>
        requires search { IsSearch self.old }
        requires stands { Stands self.old from state }
        requires moves { IsMoveInOrder self.old.image.items (flat_at self.old state) turn }
        ensures search { OnOk result (IsSearch self.new) }
        ensures extends { OnOk result (Extends self.old self.new) }
        ensures met { IfOk result (λ yes. IsTrue yes → (q : Place) → q.flat ≡ after self.old.image.items (flat_at self.old state) turn → LeadsInOrder (place_at self.old state) (entries_of_turn turn) q → IsMet self.new q) }
        ensures more { IfOk result (λ yes. yes ≡ false → IsBeyond self.new limit) }
        ensures bound { OnOk result (length self.old.states.keys ≤ limit → length self.new.states.keys ≤ limit) }
    {
        let shown = move_of(&turn);
        let Some(reserved) = self.reserved_behind(&state, &shown) else {
            return Ok(true);
        };
        let next = self.pool.after(self.count, state, turn, reserved)?;
        self.note(next, Origin { from, shown }, limit)
    }

    /// Notes all states that the moves of a state lead to. False where one more than the limit was met.
    fn expand(&mut self, alloc: Global, place: usize, limit: usize) -> Result<bool, AllocError>
        requires search { IsSearch self.old }
        requires place { place < length self.old.states.keys }
        ensures search { OnOk result (IsSearch self.new) }
        ensures extends { OnOk result (Extends self.old self.new) }
        ensures expanded { IfOk result (λ yes. IsTrue yes → IsExpanded self.new place) }
        ensures more { IfOk result (λ yes. yes ≡ false → IsBeyond self.new limit) }
        ensures bound { OnOk result (length self.old.states.keys ≤ limit → length self.new.states.keys ≤ limit) }
    {
        let state = self.states[place];
        let mut turns = self.pool.standing(self.scene(), &state).turns(alloc)?;
        while let Some(turn) = turns.pop() {
            if !self.visit(place, state, turn, limit)? {
                return Ok(false);
            }
        }
        Ok(true)
    }

    /// Notes states until all are expanded, or one more than the limit was met.
    fn explore<G: Gauge>(
        &mut self,
        alloc: Global,
        limit: usize,
        gauge: &mut G,
    ) -> Result<bool, AllocError>
        requires search { IsSearch self.old }
        ensures search { OnOk result (IsSearch self.new) }
        ensures extends { OnOk result (Extends self.old self.new) }
        ensures expanded { IfOk result (λ yes. IsTrue yes → (k : ℕ) → k < length self.new.states.keys → IsExpanded self.new k) }
        ensures more { IfOk result (λ yes. yes ≡ false → (limit < length self.new.states.keys) ⊎ IsBeyond self.new limit) }
        ensures bound { OnOk result (length self.old.states.keys ≤ limit → length self.new.states.keys ≤ limit) }
    {
        for place in 0..limit {
            if place >= self.states.len() {
                return Ok(true);
            }
            if !self.expand(alloc, place, limit)? {
                return Ok(false);
            }
            tell_if_due(gauge, place, self.states.len());
        }
        Ok(self.states.len() <= limit)
    }
}

// All that is to be found.
impl Outcomes {
    /// Meets all states, breadth first, and tells a gauge on the way. Where more than the limit are met, the search ends, and it says that they are
    /// not all. It fails only if memory runs out.
    pub fn find_all<G: Gauge>(
        &mut self,
        alloc: Global,
        limit: usize,
        gauge: &mut G,
    ) -> Result<(), AllocError>
        requires { IsSearch self.old }
        ensures { (first : Place) → IsBegun first self.old → OnOk result (Finds first limit self.new) }
    {
        self.is_all = self.explore(alloc, limit, gauge)?;
        Ok(())
    }
}

// What was found.
impl Outcomes {
    /// How many states were met.
    pub fn len(&self) -> usize
        ensures { result ≡ length self.now.states.keys }
    {
        self.states.len()
    }

    /// The state at a place, if there is one.
    pub fn get(&self, place: usize) -> Option<Standing<'_>>
        requires { IsSearch self.now }
        ensures some { IfSome result (λ s. (x : State) → Stands self.now place x → flat_of s ≡ flat_at self.now x) }
        ensures none { IfNone result (length self.now.states.keys ≤ place) }
    {
        if place < self.states.len() {
            Some(self.standing(place))
        } else {
            None
        }
    }

    /// The first state.
    pub fn first(&self) -> Standing<'_>
        requires { IsSearch self.now }
        ensures { (x : State) → Stands self.now 0 x → flat_of result ≡ flat_at self.now x }
    {
        self.standing(0)
    }

    /// The state at a place.
    fn standing(&self, place: usize) -> Standing<'_>
        requires search { IsSearch self.now }
        requires place { place < length self.now.states.keys }
        ensures { (x : State) → Stands self.now place x → flat_of result ≡ flat_at self.now x }
    {
        self.pool.standing(self.scene(), &self.states[place])
    }

    /// The places of the states in which no hart runs, in the order in which they were met.
    pub fn ends(&self, alloc: Global) -> Result<Vec<usize>, AllocError>
        requires { IsSearch self.now }
        ensures { IfOk result (λ v. (k : ℕ) → Contains v.items k ↔ IsEnd self.now k) }
    {
        let mut ends = Vec::new(alloc);
        for place in 0..self.states.len() {
            push_if(&mut ends, place, self.standing(place).is_ended())?;
        }
        Ok(ends)
    }
}
