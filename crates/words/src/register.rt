ghost use Rattle.std.specs.Prelude.{◌≡◌, ◌<◌, ◌↔◌, IsSome, IfSome, Some, replicate};
ghost use Rattle.words.specs.Registers.{reg, with_reg};

use std::marker::Model;

/// The number of a register, 0 to 31.
#[derive(Clone, Copy, Debug, PartialEq, Eq)]
pub struct Reg {
    number: u8,
}

impl Model for Reg {
    ghost use Rattle.std.specs.Prelude.{ℕ, ◌<◌};

    ghost Value = { ℕ };

    ghost view = { λ r. r.number };

    ghost invariant = { λ r. r.number < 32 };

    ghost inverse = { λ n. record { number = n } };
}

impl Reg {
    pub const fn new(number: u8) -> Self
        requires { number < 32 }
        ensures { result ≡ number }
    {
        Reg { number }
    }

    /// The register with this number, if there is one.
    pub fn try_new(number: u8) -> Option<Self>
        ensures some { IsSome result ↔ (number < 32) }
        ensures value { IfSome result (λ r. r ≡ number) }
    {
        if number < 32 {
            Some(Reg { number })
        } else {
            None
        }
    }

    pub fn index(self) -> usize
        ensures value { result ≡ self }
        ensures bound { result < 32 }
    {
        self.number as usize
    }
}

/// The values of the 32 registers. That of x0 is always 0.
#[derive(Clone, Copy, Debug, PartialEq, Eq, Hash)]
pub struct Regs {
    values: [u32; 32],
}

impl Model for Regs {
    ghost use Rattle.std.specs.Prelude.{ℕ, List, slice_index, ◌≡◌};

    ghost Value = { List ℕ };

    ghost view = { λ r. r.values };

    ghost invariant = { λ r. slice_index r.values 0 ≡ 0 };

    ghost inverse = { λ values. record { values = values } };
}

impl Regs {
    /// Registers that are all 0.
    pub const fn new() -> Self
        ensures { result ≡ replicate 32 0 }
    {
        Regs { values: [0; 32] }
    }

    /// What a register holds. There is no test for x0, since its place holds 0.
    #[inline(always)]
    pub fn read(&self, r: Reg) -> u32
        ensures { result ≡ reg self.now r }
    {
        self.values[r.index()]
    }

    /// Puts a value into a register. One for x0 is lost.
    #[inline(always)]
    pub fn write(&mut self, r: Reg, value: u32)
        ensures { self.new ≡ with_reg self.old (Some (r, value)) }
    {
        if r.index() != 0 {
            self.values[r.index()] = value;
        }
    }

    /// The values, x0's first.
    pub fn values(&self) -> &[u32; 32]
        ensures { result.now ≡ self.now }
    {
        &self.values
    }
}
