ghost use Rattle.std.specs.Prelude.{◌≡◌, ◌<◌, ◌≤◌, ◌+◌, ◌-◌, ◌/◌, ◌%◌, ◌^◌, ◌&&◌, ◌||◌, ◌==◌, ℕ, Some, None, true, false, is_some, length, OnOk, IfOk, OnErr, unwrap_or};
ghost use Rattle.words.specs.Bytes.{bytes_in, byte_of};
ghost use Rattle.words.specs.Limits.{block_bytes};
ghost use Rattle.flat.specs.Bytes.{laid, put_at};
ghost use Rattle.outcomes.specs.Overlays.{byte_at, within, block_laid};
ghost use Rattle.outcomes.specs.Harts.{mem_at};

use crate::memory::Memory;
use loader::byte_of_value;
use std::alloc::{AllocError, Global};
use std::collections::BTreeMap;
use table::{MemoryAct, byte_count};
use words::{BLOCK_BYTES, Width};

/// What a transaction did to one block: whether it read it, whether it wrote it, and the bytes that it wrote.
#[derive(Clone, Copy, PartialEq, Eq, Hash)]
pub struct Footprint {
    pub read: bool,
    pub written: bool,
    pub bytes: [Option<u8>; BLOCK_BYTES],
}

impl Footprint {
    fn untouched() -> Self
        ensures read { result.read ≡ false }
        ensures written { result.written ≡ false }
        ensures bytes { (k : ℕ) → byte_at result.bytes k ≡ None }
    {
        Footprint {
            read: false,
            written: false,
            bytes: [None; BLOCK_BYTES],
        }
    }
}

/// Writes the low bytes of a number into the bytes of a block.
fn put(bytes: &mut [Option<u8>], place: usize, width: Width, value: u32)
    requires { place + bytes_in width ≤ length bytes.old }
    ensures { (k : ℕ) → byte_at bytes.new k ≡ laid place (bytes_in width) (λ n. Some (byte_of value n)) (byte_at bytes.old) k }
{
    for n in 0..byte_count(width) {
        bytes[place + n as usize] = Some(byte_of_value(value, n));
    }
}

/// Lays the written bytes of a block over memory, as far as it goes. It fails only if memory runs out.
fn lay_block(
    memory: &mut Memory,
    image: &[u8],
    block: usize,
    bytes: &[Option<u8>; BLOCK_BYTES],
) -> Result<(), AllocError>
    ensures { OnOk result ((a : ℕ) → mem_at image.now memory.new a ≡ block_laid (length image.now) block bytes.now block_bytes (mem_at image.now memory.old) a) }
{
    let start = block.saturating_mul(BLOCK_BYTES);
    for k in 0..BLOCK_BYTES {
        let address = start.saturating_add(k);
        if address < image.len() {
            if let Some(byte) = bytes[k] {
                memory.put(image, address, byte)?;
            }
        }
    }
    Ok(())
}

/// What a transaction did, kept apart from memory.
#[derive(Drop, PartialEq, Eq, Hash)]
pub struct Overlay {
    pub blocks: BTreeMap<usize, Footprint>,
}

impl Overlay {
    ghost use Rattle.outcomes.specs.Overlays.{reads_in, writes_in, byte_over, bytes_put};

    pub fn new(alloc: Global) -> Self
        ensures reads { (b : ℕ) → reads_in result b ≡ false }
        ensures writes { (b : ℕ) → writes_in result b ≡ false }
        ensures bytes { (a : ℕ) → byte_over result a ≡ None }
    {
        Overlay {
            blocks: BTreeMap::new(alloc),
        }
    }

    /// The byte written to an address, if one was.
    pub fn byte(&self, address: usize) -> Option<u8>
        ensures { result ≡ byte_over self.now address }
    {
        match self.blocks.get(&(address / BLOCK_BYTES)) {
            Some(footprint) => footprint.bytes[address % BLOCK_BYTES],
            None => None,
        }
    }

    pub fn has_read(&self, block: usize) -> bool
        ensures { result ≡ reads_in self.now block }
    {
        match self.blocks.get(&block) {
            Some(footprint) => footprint.read,
            None => false,
        }
    }

    pub fn has_written(&self, block: usize) -> bool
        ensures { result ≡ writes_in self.now block }
    {
        match self.blocks.get(&block) {
            Some(footprint) => footprint.written,
            None => false,
        }
    }

    /// What was done to a block, which is nothing where it wasn't touched.
    fn footprint(&self, block: usize) -> Footprint
        ensures read { result.read ≡ reads_in self.now block }
        ensures written { result.written ≡ writes_in self.now block }
        ensures bytes { (a : ℕ) → a / 32 ≡ block → byte_at result.bytes (a % 32) ≡ byte_over self.now a }
    {
        match self.blocks.get(&block) {
            Some(footprint) => *footprint,
            None => Footprint::untouched(),
        }
    }

    /// Notes an access: the block as read if it loads, and as written, with the bytes, if it stores a value.
    pub fn note(&mut self, m: &MemoryAct, value: Option<u32>) -> Result<(), AllocError>
        requires { m.now.addr % bytes_in m.now.width ≡ 0 }
        ensures reads { OnOk result ((b : ℕ) → reads_in self.new b ≡ (reads_in self.old b || (is_some m.now.load && (b == m.now.addr / 32)))) }
        ensures writes { OnOk result ((b : ℕ) → writes_in self.new b ≡ (writes_in self.old b || (is_some value && (b == m.now.addr / 32)))) }
        ensures bytes { OnOk result ((a : ℕ) → byte_over self.new a ≡ bytes_put m.now value (byte_over self.old) a) }
        ensures err { OnErr result (self.new.blocks.entries ≡ self.old.blocks.entries) }
    {
        let block = m.addr.index() / BLOCK_BYTES;
        let mut footprint = self.footprint(block);
        footprint.read = footprint.read || m.load.is_some();
        if let Some(value) = value {
            footprint.written = true;
            put(
                &mut footprint.bytes,
                m.addr.index() % BLOCK_BYTES,
                m.width,
                value,
            );
        }
        self.blocks.insert(block, footprint)?;
        Ok(())
    }

    /// Lays all the written bytes over memory, as far as it goes. It fails only if memory runs out.
    pub fn publish(&mut self, memory: &mut Memory, image: &[u8]) -> Result<(), AllocError>
        ensures { OnOk result ((a : ℕ) → mem_at image.now memory.new a ≡ unwrap_or (within (length image.now) (byte_over self.old) a) (mem_at image.now memory.old a)) }
    {
        while let Some((block, footprint)) = self.blocks.pop_first() {
            lay_block(memory, image, block, &footprint.bytes)?;
        }
        Ok(())
    }

    /// A copy of the overlay in memory of its own. It fails only if memory runs out.
    pub fn copy(&self) -> Result<Overlay, AllocError>
        ensures { IfOk result (λ o. o.blocks.entries ≡ self.now.blocks.entries) }
    {
        Ok(Overlay {
            blocks: self.blocks.clone()?,
        })
    }
}
