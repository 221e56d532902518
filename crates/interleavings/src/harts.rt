//! What an instruction that is retired does to a hart and to memory.

use crate::rules::{Rules, bytes_of};
use crate::states::{Attempt, Core};
use std::alloc::{AllocError, Global};
use std::collections::BTreeMap;
use table::{Act, AmoOp, Effect, Load, MemoryAct, Store};
use words::{Addr, Reg, Status, Width};

/// The bytes of memory that differ from those that it began with.
type Memory = BTreeMap<u32, u8>;

/// The most stores that are counted.
pub(crate) const FULL: u32 = 113;

/// What an atomic operation puts in the place of a word.
fn atomic(op: AmoOp, old: u32, value: u32) -> u32 {
    let is_less = old < value;
    let is_below = (old ^ 0x8000_0000) < (value ^ 0x8000_0000);
    match op {
        AmoOp::Add => old.wrapping_add(value),
        AmoOp::Swap => value,
        AmoOp::Xor => old ^ value,
        AmoOp::Or => old | value,
        AmoOp::And => old & value,
        AmoOp::Min => if is_below { old } else { value },
        AmoOp::Max => if is_below { value } else { old },
        AmoOp::Minu => if is_less { old } else { value },
        AmoOp::Maxu => if is_less { value } else { old },
    }
}

/// What is stored in the place of a number.
fn stored(store: Store, old: u32) -> u32 {
    match store {
        Store::Value(value) => value,
        Store::Atomic(op, value) => atomic(op, old, value),
    }
}

/// What a load of a number puts into its register.
fn extended(load: Load, width: Width, number: u32) -> u32 {
    match width {
        Width::Byte if load.signed && number & 0x80 != 0 => number | 0xffff_ff00,
        Width::Half if load.signed && number & 0x8000 != 0 => number | 0xffff_0000,
        _ => number,
    }
}

/// Writes a register, unless it is x0.
fn write(core: &mut Core, rd: Reg, value: u32) {
    let index = rd.index();
    if index > 0 {
        core.regs[index] = value;
    }
}

/// Notes that a hart's transaction has read a block.
fn note_read(core: &mut Core, block: u32) -> Result<(), AllocError> {
    if let Some(attempt) = &mut core.attempt {
        attempt.read.insert(block)?;
    }
    Ok(())
}

impl Rules<'_> {
    /// The byte of memory at an address.
    pub(crate) fn byte(&self, memory: &Memory, address: u32) -> u8 {
        match memory.get(&address) {
            Some(byte) => *byte,
            None => self.first_byte(address),
        }
    }

    /// The byte that a hart sees at an address.
    fn seen(&self, core: &Core, memory: &Memory, address: u32) -> u8 {
        if let Some(attempt) = &core.attempt {
            if let Some(byte) = attempt.bytes.get(&address) {
                return *byte;
            }
        }
        self.byte(memory, address)
    }

    /// The number that a hart sees at an access's place.
    fn number(&self, core: &Core, memory: &Memory, m: &MemoryAct) -> u32 {
        let mut bytes = [0u8; 4];
        for k in 0..4u32 {
            if k < bytes_of(m.width) {
                bytes[k as usize] = self.seen(core, memory, m.addr.value().wrapping_add(k));
            }
        }
        u32::from_le_bytes(bytes)
    }

    /// Writes a byte to memory.
    fn lay(&self, memory: &mut Memory, address: u32, byte: u8) -> Result<(), AllocError> {
        if byte == self.first_byte(address) {
            memory.remove(&address);
        } else {
            memory.insert(address, byte)?;
        }
        Ok(())
    }

    /// Writes the low bytes of a number, in a transaction to the hart's own bytes.
    fn put(
        &self,
        core: &mut Core,
        memory: &mut Memory,
        m: &MemoryAct,
        value: u32,
    ) -> Result<(), AllocError> {
        let bytes = value.to_le_bytes();
        for k in 0..bytes_of(m.width).min(4) {
            let address = m.addr.value().wrapping_add(k);
            match &mut core.attempt {
                Some(attempt) => {
                    attempt.bytes.insert(address, bytes[k as usize])?;
                }
                None => self.lay(memory, address, bytes[k as usize])?,
            }
        }
        if let Some(attempt) = &mut core.attempt {
            attempt.written.insert(m.addr.value() / 32)?;
            attempt.stores = attempt.stores.saturating_add(1).min(FULL);
        }
        Ok(())
    }

    /// A load or a store, or both.
    fn access(
        &self,
        core: &mut Core,
        memory: &mut Memory,
        m: &MemoryAct,
    ) -> Result<(), AllocError> {
        let old = self.number(core, memory, m);
        if let Some(store) = m.store {
            self.put(core, memory, m, stored(store, old))?;
        }
        if let Some(load) = m.load {
            note_read(core, m.addr.value() / 32)?;
            write(core, load.rd, extended(load, m.width, old));
        }
        Ok(())
    }

    /// The end of a transaction, or of one within another.
    fn commit(&self, core: &mut Core, memory: &mut Memory) -> Result<(), AllocError> {
        let Some(mut attempt) = core.attempt.take() else {
            return Ok(());
        };
        if attempt.depth > 1 {
            attempt.depth -= 1;
            core.attempt = Some(attempt);
            return Ok(());
        }
        for (address, byte) in &attempt.bytes {
            self.lay(memory, *address, *byte)?;
        }
        Ok(())
    }

    /// What an instruction does that is retired.
    pub(crate) fn retire(
        &self,
        alloc: Global,
        core: &mut Core,
        memory: &mut Memory,
        effect: &Effect,
    ) -> Result<(), AllocError> {
        match &effect.act {
            Act::Memory(m) => self.access(core, memory, m)?,
            Act::Begin(abort_pc) => begin(alloc, core, *abort_pc),
            Act::Commit => self.commit(core, memory)?,
            Act::Call => call(core)?,
            Act::Nothing | Act::Conditional(_, _) | Act::Abort | Act::Break => {}
        }
        if let Some((rd, value)) = effect.write {
            write(core, rd, value);
        }
        core.pc = effect.next.value();
        Ok(())
    }
}

/// A transaction begins, or one within another.
fn begin(alloc: Global, core: &mut Core, abort_pc: Addr) {
    match &mut core.attempt {
        Some(attempt) => attempt.depth = attempt.depth.saturating_add(1),
        None => {
            core.attempt = Some(Attempt::new(alloc, core.regs, abort_pc.value()));
        }
    }
}

/// A call of the environment.
fn call(core: &mut Core) -> Result<(), AllocError> {
    if core.regs[17] == 93 {
        core.status = Status::Exited(core.regs[10]);
    } else {
        core.output.push(core.regs[10].to_le_bytes()[0])?;
    }
    Ok(())
}
