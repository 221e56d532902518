ghost use Rattle.std.specs.Prelude.{◌≡◌, ◌<◌, ◌||◌, ℕ, Bool, true, false, List, length, slice_set};
ghost use Rattle.cache.specs.Occupied.{may_have, mask_of, IsNextSet};

use std::marker::Model;

/// How many sets have a bit.
const KNOWN: usize = 64;

/// Which of a cache's first 64 sets have a line. Of a set from 64 on it doesn't say: each may have one.
#[derive(Clone, Copy, Debug, PartialEq, Eq)]
pub struct Occupied {
    /// Bit s says whether set s has a line.
    mask: u64,
}

impl Model for Occupied {
    ghost use Rattle.std.specs.Prelude.{ℕ, ◌<◌, ◌^◌};

    ghost Value = { ℕ };

    ghost view = { λ o. o.mask };

    ghost invariant = { λ o. o.mask < 2 ^ 64 };

    ghost inverse = { λ m. record { mask = m } };
}

impl Occupied {
    /// No set has a line.
    pub fn none() -> Self
        ensures { result ≡ 0 }
    {
        Occupied { mask: 0 }
    }

    /// Says whether a set has a line now.
    #[inline(always)]
    pub fn update(&mut self, set: usize, has_line: bool)
        ensures { (occupied : List Bool) → set < length occupied → self.old ≡ mask_of 64 occupied → self.new ≡ mask_of 64 (slice_set occupied set has_line) }
    {
        if set < KNOWN {
            if has_line {
                self.mask |= 1 << set;
            } else {
                self.mask &= !(1 << set);
            }
        }
    }

    /// The sets of two caches of which either may have a line.
    #[inline(always)]
    pub fn union(&self, other: &Self) -> Self
        ensures { (s : ℕ) → may_have result s ≡ (may_have self.now s || may_have other.now s) }
    {
        Occupied {
            mask: self.mask | other.mask,
        }
    }

    /// The first set, from a number on, that may have a line.
    #[inline(always)]
    pub fn next(&self, from: usize) -> usize
        ensures { IsNextSet self.now from result }
    {
        if from < KNOWN {
            let rest = self.mask >> from;
            if rest != 0 {
                return from + rest.trailing_zeros() as usize;
            }
            return KNOWN;
        }
        from
    }
}
