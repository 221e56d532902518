ghost use Rattle.std.specs.Prelude.{◌≡◌, ◌≢◌, ◌<◌, ◌≤◌, ◌↔◌, ◌&&◌, ℕ, true, false, nat_lt, IsSome, IfSome, IfNone, IsTrue};
ghost use Rattle.words.specs.Harts.{names, IsNext};
ghost use Rattle.words.specs.Limits.{most_harts};

use std::marker::Model;

/// The most harts that a machine has.
pub const HARTS: usize = 8;

/// The number of a hart, 0 to 7.
#[derive(Clone, Copy, Debug, PartialEq, Eq)]
pub struct HartId {
    number: u8,
}

impl Model for HartId {
    ghost use Rattle.std.specs.Prelude.{ℕ, ◌<◌};
    ghost use Rattle.words.specs.Limits.{most_harts};

    ghost Value = { ℕ };

    ghost view = { λ h. h.number };

    ghost invariant = { λ h. h.number < most_harts };

    ghost inverse = { λ n. record { number = n } };
}

impl HartId {
    pub const fn new(number: u8) -> Self
        requires { number < most_harts }
        ensures { result ≡ number }
    {
        HartId { number }
    }

    /// The hart with this number, if it is below 8.
    pub fn try_new(number: usize) -> Option<Self>
        ensures some { IsSome result ↔ (number < most_harts) }
        ensures value { IfSome result (λ h. h ≡ number) }
    {
        if number < HARTS {
            Some(HartId {
                number: number as u8,
            })
        } else {
            None
        }
    }

    pub fn index(self) -> usize
        ensures value { result ≡ self }
        ensures bound { result < most_harts }
    {
        self.number as usize
    }
}

/// A set of harts.
#[derive(Clone, Copy, Debug, PartialEq, Eq)]
pub struct HartSet {
    /// Bit h says whether hart h is a member.
    mask: u8,
}

impl Model for HartSet {
    ghost use Rattle.std.specs.Prelude.{ℕ, ◌<◌};

    ghost Value = { ℕ };

    ghost view = { λ s. s.mask };

    ghost invariant = { λ s. s.mask < 256 };

    ghost inverse = { λ m. record { mask = m } };
}

impl HartSet {
    #[inline(always)]
    pub fn empty() -> Self
        ensures { (h : ℕ) → names result h ≡ false }
    {
        HartSet { mask: 0 }
    }

    /// Whether no hart is a member.
    #[inline(always)]
    pub fn is_empty(&self) -> bool
        ensures { IsTrue result ↔ ((h : ℕ) → names self.now h ≡ false) }
    {
        self.mask == 0
    }

    #[inline(always)]
    pub fn contains(&self, hart: HartId) -> bool
        ensures { result ≡ names self.now hart }
    {
        (self.mask >> hart.number) & 1 == 1
    }

    #[inline(always)]
    pub fn insert(&mut self, hart: HartId)
        ensures this { names self.new hart ≡ true }
        ensures others { (h : ℕ) → h ≢ hart → names self.new h ≡ names self.old h }
    {
        self.mask |= 1 << hart.number;
    }

    #[inline(always)]
    pub fn remove(&mut self, hart: HartId)
        ensures this { names self.new hart ≡ false }
        ensures others { (h : ℕ) → h ≢ hart → names self.new h ≡ names self.old h }
    {
        self.mask &= !(1 << hart.number);
    }

    /// The members with a number below a count.
    #[inline(always)]
    pub fn below(&self, count: usize) -> Self
        ensures { (h : ℕ) → names result h ≡ (names self.now h && nat_lt h count) }
    {
        if count < HARTS {
            HartSet {
                mask: self.mask & ((1 << count) - 1),
            }
        } else {
            *self
        }
    }

    /// Whether each member is a member of the other set too.
    #[inline(always)]
    pub fn is_subset(&self, other: &HartSet) -> bool
        ensures { IsTrue result ↔ ((h : ℕ) → names self.now h ≡ true → names other.now h ≡ true) }
    {
        self.mask & !other.mask == 0
    }

    /// The member with the lowest number from a number on, if there is one.
    #[inline(always)]
    pub fn next(&self, from: usize) -> Option<HartId>
        ensures some { IfSome result (IsNext self.now from) }
        ensures none { IfNone result ((h : ℕ) → from ≤ h → names self.now h ≡ false) }
    {
        if from < HARTS {
            let rest = self.mask >> from;
            if rest != 0 {
                return Some(HartId {
                    number: from as u8 + rest.trailing_zeros() as u8,
                });
            }
        }
        None
    }
}
