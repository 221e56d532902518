//! The harts of a machine by number, in a list of fixed capacity.
ghost use Rattle.std.specs.Prelude.{◌≡◌, ◌<◌, ◌*◌, ◌^◌, ◌∷◌, ◌++◌, [], length, IfOk};
ghost use Rattle.words.specs.Limits.{most_harts};

use crate::seat::{HOST_LINE, Seat};
use arrayvec::ArrayVec;
use hart::Hart;
use std::alloc::{AllocError, Global};
use std::default::MadeWith;
use std::marker::Model;
use words::{Addr, HARTS, HartId};

/// Makes what stands in the unused places of a machine's list of harts. That their caches have a set and a way is its own to know, since a list that makes
/// them asks for nothing.
#[derive(Clone, Copy, Drop)]
pub(crate) struct Unused<const SETS: usize, const WAYS: usize> {
    alloc: Global,
}

impl<const SETS: usize, const WAYS: usize> Model for Unused<SETS, WAYS> {
    ghost use Rattle.std.specs.Prelude.{◌<◌, ◌*◌, ◌^◌};
    ghost use Rattle.machine.specs.Seats.{Unused as UnusedValue};

    ghost Value = { UnusedValue };

    ghost view = { λ u. record { alloc = u.alloc } };

    ghost invariant = { λ u. (0 < SETS) × ((0 < WAYS) × (SETS * WAYS < 2 ^ 32)) };

    ghost inverse = { λ v. record { alloc = v.alloc } };
}

impl<const SETS: usize, const WAYS: usize> MadeWith<Unused<SETS, WAYS>> for Seat<SETS, WAYS> {
    fn made_with(unused: Unused<SETS, WAYS>) -> Self {
        Seat {
            hart: Hart::new(HartId::new(0), 1, 0, Addr::new(0)),
            output: Vec::new(unused.alloc),
            apart: [0; HOST_LINE],
        }
    }
}

/// The harts of a machine by number, no more than a machine can have. They lie on the heap: by value the list is as long as eight caches and undo logs.
#[derive(Drop)]
pub(crate) struct Seats<const SETS: usize, const WAYS: usize> {
    pub(crate) list: Box<ArrayVec<Seat<SETS, WAYS>, HARTS, Unused<SETS, WAYS>>>,
}

impl<const SETS: usize, const WAYS: usize> Model for Seats<SETS, WAYS> {
    ghost use Rattle.std.specs.Prelude.{◌<◌, ◌*◌, ◌^◌};
    ghost use Rattle.machine.specs.Seats.{Seats as SeatsValue};

    ghost Value = { SeatsValue };

    ghost view = { λ s. record { items = s.list.value.items } };

    ghost invariant = { λ s. SETS * WAYS < 2 ^ 32 };
}

impl<const SETS: usize, const WAYS: usize> Seats<SETS, WAYS> {
    /// No harts yet. It fails only if memory runs out.
    pub(crate) fn new(alloc: Global) -> Result<Self, AllocError>
        requires sets { 0 < SETS }
        requires ways { 0 < WAYS }
        requires lines { SETS * WAYS < 2 ^ 32 }
        ensures items { IfOk result (λ s. s.items ≡ []) }
    {
        let list = Box::new(alloc, ArrayVec::new_in(Unused { alloc }))?;
        Ok(Seats { list })
    }

    /// One more hart, whose number is the next.
    pub(crate) fn push(&mut self, seat: Seat<SETS, WAYS>)
        requires { length self.old.items < most_harts }
        ensures items { self.new.items ≡ self.old.items ++ seat.entry ∷ [] }
    {
        self.list.push(seat);
    }

    /// How many harts there are.
    #[inline(always)]
    pub(crate) fn len(&self) -> usize
        ensures { result ≡ length self.now.items }
    {
        self.list.len()
    }
}
