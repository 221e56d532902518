ghost use Rattle.std.specs.Prelude.{List, ◌≡◌, ◌<◌, ◌≤◌, ◌+◌, ℕ, length, OnOk, IfOk};
ghost use Rattle.words.specs.Bytes.{bytes_in, byte_of, number_at};
ghost use Rattle.words.specs.declared.entry.Width.TheVariants.{Word};
ghost use Rattle.flat.specs.Bytes.{laid, put_at};
ghost use Rattle.loader.specs.Memory.{mem_of};

use loader::byte_of_value;
use std::alloc::{AllocError, Global};
use std::collections::BTreeMap;
use table::byte_count;
use words::Width;

/// Memory, as what differs from the bytes that it began with, by address. A byte that is as it was isn't listed.
#[derive(Drop, PartialEq, Eq, Hash)]
pub struct Memory {
    pub bytes: BTreeMap<usize, u8>,
}

impl Memory {
    ghost use Rattle.outcomes.specs.Harts.{mem_at};

    /// Memory as it began.
    pub fn new(alloc: Global) -> Self
        ensures { (image : List ℕ) (a : ℕ) → mem_at image result a ≡ mem_of image a }
    {
        Memory {
            bytes: BTreeMap::new(alloc),
        }
    }

    /// A copy of what differs, in memory of its own. It fails only if memory runs out.
    pub fn copy(&self) -> Result<Memory, AllocError>
        ensures { IfOk result (λ m. m.bytes.entries ≡ self.now.bytes.entries) }
    {
        Ok(Memory {
            bytes: self.bytes.clone()?,
        })
    }

    /// The byte at an address.
    pub fn byte(&self, image: &[u8], address: usize) -> u8
        requires { address < length image.now }
        ensures { result ≡ mem_at image.now self.now address }
    {
        match self.bytes.get(&address) {
            Some(byte) => *byte,
            None => image[address],
        }
    }

    /// The word at an address.
    pub fn word(&self, image: &[u8], address: usize) -> u32
        requires { address + 4 ≤ length image.now }
        ensures { result ≡ number_at (mem_at image.now self.now) address Word }
    {
        u32::from(self.byte(image, address))
            + 256 * u32::from(self.byte(image, address + 1))
            + 65536 * u32::from(self.byte(image, address + 2))
            + 16777216 * u32::from(self.byte(image, address + 3))
    }

    /// Writes a byte. It fails only if memory runs out.
    pub fn put(&mut self, image: &[u8], address: usize, byte: u8) -> Result<(), AllocError>
        requires { address < length image.now }
        ensures { OnOk result ((a : ℕ) → mem_at image.now self.new a ≡ put_at address byte (mem_at image.now self.old) a) }
    {
        if image[address] == byte {
            self.bytes.remove(&address);
        } else {
            self.bytes.insert(address, byte)?;
        }
        Ok(())
    }

    /// Writes the low bytes of a number. It fails only if memory runs out.
    pub fn lay(
        &mut self,
        image: &[u8],
        address: usize,
        width: Width,
        value: u32,
    ) -> Result<(), AllocError>
        requires { address + bytes_in width ≤ length image.now }
        ensures { OnOk result ((a : ℕ) → mem_at image.now self.new a ≡ laid address (bytes_in width) (byte_of value) (mem_at image.now self.old) a) }
    {
        for k in 0..byte_count(width) {
            self.put(image, address + k as usize, byte_of_value(value, k))?;
        }
        Ok(())
    }
}
