ghost use Rattle.std.specs.Prelude.{◌≡◌, ◌<◌, ◌+◌, ◌/◌, ◌%◌, ◌^◌, ◌*◌};
ghost use Rattle.words.specs.Limits.{block_bytes};

use std::marker::Model;

/// How many bytes a block has.
pub const BLOCK_BYTES: usize = 32;

/// How many words a block has.
pub const BLOCK_WORDS: usize = 8;

/// The words of a block, by rising address.
pub type Block = [u32; BLOCK_WORDS];

/// The address of a byte.
#[derive(Clone, Copy, Debug, PartialEq, Eq)]
pub struct Addr {
    value: u32,
}

impl Model for Addr {
    ghost use Rattle.std.specs.Prelude.{ℕ};

    ghost Value = { ℕ };

    ghost view = { λ a. a.value };

    ghost inverse = { λ n. record { value = n } };
}

impl Addr {
    pub const fn new(value: u32) -> Self
        ensures { result ≡ value }
    {
        Addr { value }
    }

    pub fn value(self) -> u32
        ensures { result ≡ self }
    {
        self.value
    }

    /// The address as an index of memory.
    pub fn index(self) -> usize
        ensures value { result ≡ self }
        ensures bound { result < 2 ^ 32 }
    {
        self.value as usize
    }

    /// The block that the byte lies in.
    pub fn block(self) -> BlockNo
        ensures { result ≡ self / block_bytes }
    {
        BlockNo {
            number: self.value / BLOCK_BYTES as u32,
        }
    }

    /// So many bytes on, modulo 2^32.
    pub fn plus(self, offset: u32) -> Addr
        ensures { result ≡ (self + offset) % 4294967296 }
    {
        Addr {
            value: self.value.wrapping_add(offset),
        }
    }
}

/// The number of a block: the address of its first byte divided by 32.
#[derive(Clone, Copy, Debug, PartialEq, Eq)]
pub struct BlockNo {
    number: u32,
}

impl Model for BlockNo {
    ghost use Rattle.std.specs.Prelude.{ℕ};

    ghost Value = { ℕ };

    ghost view = { λ b. b.number };

    ghost inverse = { λ n. record { number = n } };
}

impl BlockNo {
    pub const fn new(number: u32) -> Self
        ensures { result ≡ number }
    {
        BlockNo { number }
    }

    pub fn number(self) -> u32
        ensures { result ≡ self }
    {
        self.number
    }

    /// The number as an index.
    pub fn index(self) -> usize
        ensures value { result ≡ self }
        ensures bound { result < 2 ^ 32 }
    {
        self.number as usize
    }
}
