//! The harts of a machine as a slice, and each by its number.
ghost use Rattle.std.specs.Prelude.{◌≡◌, ◌<◌, length, slice_index_or};
ghost use Rattle.std.specs.Borrow.{sem};
ghost use Rattle.machine.specs.Lends.{lends_slice, lends_seat};

use crate::seat::Seat;
use crate::seating::Seats;
use std::ops::{DerefSlice, DerefSliceMut, Index, IndexMut};

impl<const SETS: usize, const WAYS: usize> DerefSlice for Seats<SETS, WAYS> {
    type Elem = Seat<SETS, WAYS>;

    ghost deref_gives = { λ s xs. xs ≡ s.items };

    #[inline(always)]
    fn deref(&self) -> &[Seat<SETS, WAYS>]
        ensures value { result.now ≡ self.now.items }
    {
        self.list.as_slice()
    }
}

impl<const SETS: usize, const WAYS: usize> DerefSliceMut for Seats<SETS, WAYS> {
    #[inline(always)]
    fn deref_mut(&mut self) -> &mut [Seat<SETS, WAYS>]
        ensures* writes_back { sem 𝓛 (lends_slice SETS.row WAYS.row self.entry result) }
        ensures value { result.now ≡ self.old.items }
        ensures len { length result.now ≡ length self.old.items }
    {
        self.list.as_mut_slice()
    }
}

impl<const SETS: usize, const WAYS: usize> Index<usize> for Seats<SETS, WAYS> {
    type Output = Seat<SETS, WAYS>;

    ghost can_index = { λ s i. i < length s.items };

    ghost index_gives = { λ s i x. x ≡ slice_index_or s.items i x };

    #[inline(always)]
    fn index(&self, index: usize) -> &Seat<SETS, WAYS>
        requires { index < length self.now.items }
        ensures { result.now ≡ slice_index_or self.now.items index result.now }
    {
        &self.list.as_slice()[index]
    }
}

impl<const SETS: usize, const WAYS: usize> IndexMut<usize> for Seats<SETS, WAYS> {
    #[inline(always)]
    fn index_mut(&mut self, index: usize) -> &mut Seat<SETS, WAYS>
        requires { index < length self.old.items }
        ensures* writes_back { sem 𝓛 (lends_seat SETS.row WAYS.row self.entry index result) }
        ensures value { result.now ≡ slice_index_or self.old.items index result.now }
    {
        self.list.get_mut(index).unwrap()
    }
}
