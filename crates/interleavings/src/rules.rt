//! What stays as it is while a program runs, and what each hart's word does next.

ghost use Rattle.std.specs.Prelude.{◌<◌, ◌≤◌};

use crate::states::{Core, Registers, Whole};
use std::alloc::{AllocError, Global};
use std::collections::BTreeMap;
use table::{Act, Effect, MemoryAct, effect_at};
use words::{Addr, Cause, Reg, Regs, Status, Width};

/// Where text begins.
const TEXT: u32 = 0x1000;

/// Which moves are made.
#[derive(Clone, Copy, Debug, PartialEq, Eq)]
pub enum Order {
    /// All.
    Any,
    /// Where a hart is at a register operation, a jump or a branch, only that of the lowest such hart.
    LocalFirst,
}

/// A program: its text, from 0x1000 on, and the words with which memory begins at 0. It begins with zeros where there are none.
#[derive(Clone, Copy, Debug)]
pub struct Source<'p> {
    pub text: &'p [u32],
    pub data: &'p [u32],
}

/// A program, the size of memory in bytes, the number of harts, and which moves are made.
#[derive(Clone, Copy)]
pub(crate) struct Rules<'p> {
    pub(crate) source: Source<'p>,
    pub(crate) size: u32,
    pub(crate) harts: u32,
    pub(crate) order: Order,
}

/// What a hart's word does.
#[derive(Clone, Copy, Debug)]
pub(crate) enum Next {
    /// Nothing: the hart has ended.
    Nothing,
    Stops(Cause),
    Does(Effect),
}

/// How many bytes an access has.
pub(crate) fn bytes_of(width: Width) -> u32
    ensures some { 0 < result }
    ensures few { result ≤ 4 }
{
    match width {
        Width::Byte => 1,
        Width::Half => 2,
        Width::Word => 4,
    }
}

/// The cause of a call of the environment.
fn call_cause(core: &Core) -> Option<Cause> {
    if core.depth() > 0 {
        return Some(Cause::CallInTransaction);
    }
    match core.regs[17] {
        1 | 93 => None,
        _ => Some(Cause::BadCall),
    }
}

/// The registers of a hart, as the table takes them.
fn held(core: &Core) -> Regs {
    let mut regs = Regs::new();
    for number in 0..32u8 {
        regs.write(Reg::new(number), core.regs[usize::from(number)]);
    }
    regs
}

/// This cause, where it is met.
fn cause_if(is_met: bool, cause: Cause) -> Option<Cause> {
    if is_met { Some(cause) } else { None }
}

impl Rules<'_> {
    /// The word of text at an address.
    fn word(&self, address: u32) -> Option<u32> {
        if address < TEXT || address % 4 != 0 {
            return None;
        }
        self.source
            .text
            .get(((address - TEXT) / 4) as usize)
            .copied()
    }

    /// The byte that memory has at an address when the program begins.
    pub(crate) fn first_byte(&self, address: u32) -> u8 {
        let word = if address < TEXT {
            self.source.data.get((address / 4) as usize).copied()
        } else {
            self.word(address / 4 * 4)
        };
        match word {
            Some(word) => word.to_le_bytes()[(address % 4) as usize],
            None => 0,
        }
    }

    /// The cause of a load or a store.
    fn access_cause(&self, m: &MemoryAct) -> Option<Cause> {
        let from = u64::from(m.addr.value());
        let to = from + u64::from(bytes_of(m.width));
        let size = u64::from(self.size);
        let logs = 4096 * u64::from(self.harts);
        let text = u64::from(TEXT) + 4 * self.source.text.len().min(1_000_000) as u64;
        let stores = m.store.is_some();
        if from % u64::from(bytes_of(m.width)) != 0 {
            Some(if stores {
                Cause::StoreMisaligned
            } else {
                Cause::LoadMisaligned
            })
        } else if to > size {
            Some(if stores {
                Cause::StoreOutside
            } else {
                Cause::LoadOutside
            })
        } else if to + logs > size {
            Some(Cause::LogRegion)
        } else {
            cause_if(
                stores && to > u64::from(TEXT) && from < text,
                Cause::StoreText,
            )
        }
    }

    fn act_cause(&self, core: &Core, act: &Act) -> Option<Cause> {
        match act {
            Act::Nothing => None,
            Act::Memory(m) | Act::Conditional(_, m) => self.access_cause(m),
            Act::Begin(_) => cause_if(core.depth() == 255, Cause::TooDeep),
            Act::Commit | Act::Abort => cause_if(core.depth() == 0, Cause::OutsideTransaction),
            Act::Call => call_cause(core),
            Act::Break => Some(if core.depth() > 0 {
                Cause::CallInTransaction
            } else {
                Cause::Breakpoint
            }),
        }
    }

    /// What a hart's word does.
    pub(crate) fn next(&self, core: &Core) -> Next {
        if !core.runs() {
            return Next::Nothing;
        }
        let Some(word) = self.word(core.pc) else {
            return Next::Stops(Cause::FetchOutside);
        };
        match effect_at(word, Addr::new(core.pc), &held(core)) {
            Err(cause) => Next::Stops(cause),
            Ok(effect) => match self.act_cause(core, &effect.act) {
                Some(cause) => Next::Stops(cause),
                None => Next::Does(effect),
            },
        }
    }
}

// The beginning.
impl Rules<'_> {
    /// The registers that a hart begins with.
    fn first_regs(&self, number: u32) -> Registers {
        let mut regs = [0; 32];
        let below_logs = self.size.saturating_sub(self.harts.saturating_mul(4096));
        regs[2] = below_logs.saturating_sub(number.saturating_mul(4096));
        regs[10] = number;
        regs[11] = self.harts;
        regs
    }

    /// The state that the program begins in.
    pub(crate) fn first(&self, alloc: Global) -> Result<Whole, AllocError> {
        let mut cores = Vec::new(alloc);
        for number in 0..self.harts {
            cores.push(Core {
                regs: self.first_regs(number),
                pc: TEXT,
                output: Vec::new(alloc),
                status: Status::Running,
                attempt: None,
                reserved: None,
            })?;
        }
        Ok(Whole {
            cores,
            memory: BTreeMap::new(alloc),
        })
    }
}
