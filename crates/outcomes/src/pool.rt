ghost use Rattle.std.specs.Prelude.{◌≡◌, ◌<◌, ◌≤◌, [], ℕ, Some, List, IfOk, OnOk, length, slice_get};
ghost use Rattle.flat.specs.State.{Setting};

use crate::change::{Change, Turn};
use crate::hart::Hart;
use crate::memory::Memory;
use crate::reservations::Reservations;
use crate::scene::Scene;
use crate::standing::Standing;
use indexmap::IndexSet;
use std::alloc::{AllocError, Global};
use words::{HARTS, HartId};

/// A state of a search: for each hart the number under which the pool has it, and those of memory and of the reservations.
#[derive(Clone, Copy, PartialEq, Eq, Hash)]
pub struct State {
    pub harts: [u32; HARTS],
    pub memory: u32,
    pub reserved: u32,
}

/// All values of harts, of memory and of reservations that a search has met, each once.
#[derive(Drop)]
pub struct Pool {
    pub harts: IndexSet<Hart>,
    pub memories: IndexSet<Memory>,
    pub reservations: IndexSet<Reservations>,
}

/// A place in the pool as a number of 32 bits. A pool of more values is beyond memory.
fn number(place: usize) -> Result<u32, AllocError>
    ensures { IfOk result (λ n. n ≡ place) }
{
    match u32::try_from(place) {
        Ok(number) => Ok(number),
        Err(_) => Err(AllocError),
    }
}

impl Pool {
    ghost use Rattle.flat.specs.Attempts.{with_hart};
    ghost use Rattle.outcomes.specs.Harts.{hart_of, mem_at, mem_after};
    ghost use Rattle.outcomes.specs.Standings.{setting_of, flat_of, changed};
    ghost use Rattle.outcomes.specs.Turns.{after, IsOf};
    ghost use Rattle.outcomes.specs.Reservations.{reserved_of};
    ghost use Rattle.outcomes.specs.Pools.{flat_in, reserved_in, with_mem, IsWithin, Grows};

    /// A pool that has met nothing.
    pub fn new(alloc: Global) -> Self
        ensures harts { result.harts.keys ≡ [] }
        ensures memories { result.memories.keys ≡ [] }
        ensures reservations { result.reservations.keys ≡ [] }
    {
        Pool {
            harts: IndexSet::new(alloc),
            memories: IndexSet::new(alloc),
            reservations: IndexSet::new(alloc),
        }
    }

    /// The number of a hart, which is kept if it is new. It fails only if memory runs out.
    pub fn keep_hart(&mut self, hart: Hart) -> Result<u32, AllocError>
        ensures kept { IfOk result (λ n. (h : Hart) × (slice_get self.new.harts.keys n ≡ Some h) × ((size : ℕ) → hart_of size h ≡ hart_of size hart)) }
        ensures grows { OnOk result (Grows self.old self.new) }
    {
        let (place, _) = self.harts.insert_full(hart)?;
        number(place)
    }

    /// The number of a memory, which is kept if it is new. It fails only if memory runs out.
    pub fn keep_memory(&mut self, memory: Memory) -> Result<u32, AllocError>
        ensures kept { IfOk result (λ n. (m : Memory) × (slice_get self.new.memories.keys n ≡ Some m) × ((image : List ℕ) (a : ℕ) → mem_at image m a ≡ mem_at image memory a)) }
        ensures grows { OnOk result (Grows self.old self.new) }
    {
        let (place, _) = self.memories.insert_full(memory)?;
        number(place)
    }

    /// The number of reservations, which are kept if they are new. It fails only if memory runs out.
    pub fn keep_reservations(&mut self, reservations: Reservations) -> Result<u32, AllocError>
        ensures kept { IfOk result (λ n. slice_get self.new.reservations.keys n ≡ Some reservations) }
        ensures grows { OnOk result (Grows self.old self.new) }
    {
        let (place, _) = self.reservations.insert_full(reservations)?;
        number(place)
    }

    /// The state with another hart under a number. It fails only if memory runs out.
    fn with_hart(
        &mut self,
        count: usize,
        state: State,
        id: HartId,
        hart: Hart,
    ) -> Result<State, AllocError>
        requires few { count ≤ 8 }
        requires hart { id < count }
        requires within { IsWithin count self.old state }
        ensures grows { OnOk result (Grows self.old self.new) }
        ensures within { IfOk result (IsWithin count self.new) }
        ensures flat { IfOk result (λ x. (s : Setting) (image : List ℕ) → s.count ≡ count → flat_in s image self.new x ≡ with_hart (flat_in s image self.old state) id (hart_of (length image) hart)) }
    {
        let mut next = state;
        next.harts[id.index()] = self.keep_hart(hart)?;
        Ok(next)
    }

    /// The state with another memory, if one is given. It fails only if memory runs out.
    fn with_memory(
        &mut self,
        count: usize,
        state: State,
        memory: Option<Memory>,
    ) -> Result<State, AllocError>
        requires { IsWithin count self.old state }
        ensures grows { OnOk result (Grows self.old self.new) }
        ensures within { IfOk result (IsWithin count self.new) }
        ensures flat { IfOk result (λ x. (s : Setting) (image : List ℕ) → s.count ≡ count → flat_in s image self.new x ≡ with_mem (flat_in s image self.old state) (mem_after image memory (flat_in s image self.old state).mem)) }
    {
        match memory {
            Some(memory) => Ok(State {
                memory: self.keep_memory(memory)?,
                ..state
            }),
            None => Ok(state),
        }
    }

    /// The state after a change. It fails only if memory runs out.
    fn after_change(
        &mut self,
        count: usize,
        state: State,
        change: Change,
    ) -> Result<State, AllocError>
        requires few { count ≤ 8 }
        requires hart { change.id < count }
        requires within { IsWithin count self.old state }
        ensures grows { OnOk result (Grows self.old self.new) }
        ensures within { IfOk result (IsWithin count self.new) }
        ensures flat { IfOk result (λ x. (s : Setting) (image : List ℕ) → s.count ≡ count → flat_in s image self.new x ≡ changed image (flat_in s image self.old state) change) }
    {
        let between = self.with_hart(count, state, change.id, change.hart)?;
        self.with_memory(count, between, change.memory)
    }

    /// The state after a move, but for the reservations. It fails only if memory runs out.
    fn after_turn(&mut self, count: usize, state: State, turn: Turn) -> Result<State, AllocError>
        requires few { count ≤ 8 }
        requires harts { IsOf count turn }
        requires within { IsWithin count self.old state }
        ensures grows { OnOk result (Grows self.old self.new) }
        ensures within { IfOk result (IsWithin count self.new) }
        ensures flat { IfOk result (λ x. (s : Setting) (image : List ℕ) → s.count ≡ count → flat_in s image self.new x ≡ after image (flat_in s image self.old state) turn) }
    {
        match turn {
            Turn::Alone(_, change) => self.after_change(count, state, change),
            Turn::Together(first, second) => {
                let between = self.after_change(count, state, first)?;
                self.after_change(count, between, second)
            }
        }
    }

    /// The state with other reservations. It fails only if memory runs out.
    fn with_reservations(
        &mut self,
        count: usize,
        state: State,
        reservations: Reservations,
    ) -> Result<State, AllocError>
        requires { IsWithin count self.old state }
        ensures grows { OnOk result (Grows self.old self.new) }
        ensures within { IfOk result (IsWithin count self.new) }
        ensures flat { IfOk result (λ x. (s : Setting) (image : List ℕ) → s.count ≡ count → flat_in s image self.new x ≡ flat_in s image self.old state) }
        ensures reserved { IfOk result (λ x. (i : ℕ) → reserved_in self.new x i ≡ reserved_of reservations i) }
    {
        Ok(State {
            reserved: self.keep_reservations(reservations)?,
            ..state
        })
    }

    /// The state after a move that leaves these reservations. It fails only if memory runs out.
    pub fn after(
        &mut self,
        count: usize,
        state: State,
        turn: Turn,
        reservations: Reservations,
    ) -> Result<State, AllocError>
        requires few { count ≤ 8 }
        requires harts { IsOf count turn }
        requires within { IsWithin count self.old state }
        ensures grows { OnOk result (Grows self.old self.new) }
        ensures within { IfOk result (IsWithin count self.new) }
        ensures flat { IfOk result (λ x. (s : Setting) (image : List ℕ) → s.count ≡ count → flat_in s image self.new x ≡ after image (flat_in s image self.old state) turn) }
        ensures reserved { IfOk result (λ x. (i : ℕ) → reserved_in self.new x i ≡ reserved_of reservations i) }
    {
        let next = self.after_turn(count, state, turn)?;
        self.with_reservations(count, next, reservations)
    }

    /// The reservations of a state.
    pub fn reserved(&self, state: &State) -> Reservations
        requires { state.now.reserved < length self.now.reservations.keys }
        ensures { (i : ℕ) → reserved_of result i ≡ reserved_in self.now state.now i }
    {
        self.reservations[state.reserved as usize]
    }

    /// A state, looked up.
    pub fn standing<'a>(&'a self, scene: Scene<'a>, state: &'a State) -> Standing<'a>
        requires { IsWithin scene.count self.now state.now }
        ensures scene { result.scene ≡ scene.entry }
        ensures flat { flat_of result ≡ flat_in (setting_of scene.entry) scene.entry.image.now self.now state.now }
    {
        Standing {
            scene,
            pool: self.harts.as_slice(),
            ids: &state.harts[..scene.count],
            memory: &self.memories[state.memory as usize],
        }
    }
}
