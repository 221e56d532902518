//! Numbers of source.
ghost use Rattle.std.specs.Prelude.{◌≡◌, ◌≤◌, ◌^◌};
ghost use Rattle.statements.specs.Numbers as spec;

use std::marker::Model;

/// Each range ends far below this number, so one beyond is kept as this one.
pub(crate) const FAR: u64 = 1 << 40;

/// A number of source, -2^40 to 2^40.
#[derive(Clone, Copy)]
pub(crate) struct Number {
    negative: bool,
    magnitude: u64,
}

impl Model for Number {
    ghost use Rattle.std.specs.Prelude.{◌≤◌, ◌^◌};
    ghost use Rattle.statements.specs.Numbers as spec;

    ghost Value = { spec.Number };

    ghost view = { λ n. record { negative = n.negative; magnitude = n.magnitude } };

    ghost invariant = { λ n. n.magnitude ≤ 2 ^ 40 };

    ghost inverse = { λ n. record { negative = n.negative; magnitude = n.magnitude } };
}

impl Number {
    pub(crate) fn new(negative: bool, magnitude: u64) -> Number
        ensures { result ≡ spec.number negative magnitude }
    {
        Number {
            negative,
            magnitude: magnitude.min(FAR),
        }
    }

    /// Whether the number is from `-low` to `high`.
    pub(crate) fn is_from_to(self, low: u64, high: u64) -> bool
        ensures { result ≡ spec.is_from_to low high self }
    {
        if self.negative {
            self.magnitude <= low
        } else {
            self.magnitude <= high
        }
    }

    /// The number modulo 2^32.
    pub(crate) fn wrapped(self) -> u32
        ensures { result ≡ spec.wrapped self }
    {
        let low = (self.magnitude % (1 << 32)) as u32;
        if self.negative {
            low.wrapping_neg()
        } else {
            low
        }
    }

    pub(crate) fn negated(self) -> Number
        ensures { result ≡ spec.negated self }
    {
        Number {
            negative: !self.negative,
            magnitude: self.magnitude,
        }
    }

    /// How far the place that is so far beyond the address `to` is from `from`.
    pub(crate) fn distance(self, to: u32, from: u32) -> Number
        ensures { result ≡ spec.distance to self from }
    {
        let (to, from) = (u64::from(to), u64::from(from));
        if self.negative {
            difference(to, from + self.magnitude)
        } else {
            difference(to + self.magnitude, from)
        }
    }
}

/// How far `a` is from `b`.
fn difference(a: u64, b: u64) -> Number
    ensures { result ≡ spec.difference a b }
{
    if a < b {
        Number::new(true, b - a)
    } else {
        Number::new(false, a - b)
    }
}
