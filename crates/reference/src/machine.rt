ghost use Rattle.std.specs.Prelude.{◌≡◌, ◌<◌, ◌≤◌, ℕ, true, false, vec_len, IsTrue, is_some};
ghost use Rattle.words.specs.Bytes.{bytes_in};

use crate::hart::Hart;
use loader::Program;
use table::{Act, Effect, MemoryAct, byte_count, effect_at};
use words::{Addr, Cause, LOG_BYTES, Reg, Status};

/// One memory, and harts whose transactions keep what they did to themselves until they commit.
#[derive(Debug, Drop)]
pub struct Machine {
    pub(crate) program: Program,
    pub(crate) memory: Vec<u8>,
    pub(crate) harts: Vec<Hart>,
    ghost few_harts: { vec_len harts ≤ 8 },
}

/// What a hart is about to do.
#[derive(Debug, Drop)]
pub enum NextMove {
    /// Nothing: there is no such hart, or it doesn't run.
    Idle,
    /// Its word can't be retired.
    Stops(Cause),
    /// Its word, and what it does.
    Goes(u32, Effect),
}

impl Machine {
    ghost use Rattle.flat.specs.Causes.{load_cause, store_cause, memory_cause, act_cause, logs_from, effect_or_cause};
    ghost use Rattle.reference.specs.States.{hart_of};
    ghost use Rattle.reference.specs.Machines.{setting_of, flat_of, IsNextMove};

    /// The first address of the undo logs.
    pub(crate) fn logs_from(&self) -> usize
        ensures { result ≡ logs_from (setting_of self.now) }
    {
        self.memory
            .len()
            .saturating_sub(self.harts.len().saturating_mul(LOG_BYTES))
    }

    fn load_cause(&self, addr: Addr, count: usize) -> Option<Cause>
        requires some { 0 < count }
        requires few { count ≤ 4 }
        ensures { result ≡ load_cause (setting_of self.now) addr count }
    {
        let address = addr.index();
        if address % count != 0 {
            Some(Cause::LoadMisaligned)
        } else if address + count > self.memory.len() {
            Some(Cause::LoadOutside)
        } else if address + count > self.logs_from() {
            Some(Cause::LogRegion)
        } else {
            None
        }
    }

    fn store_cause(&self, m: &MemoryAct) -> Option<Cause>
        ensures { result ≡ store_cause (setting_of self.now) m.now.addr (bytes_in m.now.width) }
    {
        let address = m.addr.index();
        let count = byte_count(m.width) as usize;
        if address % count != 0 {
            Some(Cause::StoreMisaligned)
        } else if address + count > self.memory.len() {
            Some(Cause::StoreOutside)
        } else if address + count > self.logs_from() {
            Some(Cause::LogRegion)
        } else if self.program.text().touches(m.addr, m.width) {
            Some(Cause::StoreText)
        } else {
            None
        }
    }

    fn memory_cause(&self, m: &MemoryAct) -> Option<Cause>
        ensures { result ≡ memory_cause (setting_of self.now) m.now }
    {
        if m.store.is_some() {
            self.store_cause(m)
        } else {
            self.load_cause(m.addr, byte_count(m.width) as usize)
        }
    }

    fn act_cause(&self, hart: &Hart, act: &Act) -> Option<Cause>
        ensures { result ≡ act_cause (setting_of self.now) (hart_of (vec_len self.now.memory) hart.now) act.now }
    {
        match act {
            Act::Nothing => None,
            Act::Memory(m) | Act::Conditional(_, m) => self.memory_cause(m),
            Act::Begin(_) => match &hart.tx {
                Some(tx) if tx.depth == 255 => Some(Cause::TooDeep),
                _ => None,
            },
            Act::Commit | Act::Abort => {
                if hart.tx.is_none() {
                    Some(Cause::OutsideTransaction)
                } else {
                    None
                }
            }
            Act::Call => {
                let call = hart.regs.read(Reg::new(17));
                if hart.tx.is_some() {
                    Some(Cause::CallInTransaction)
                } else if call == 93 || call == 1 {
                    None
                } else {
                    Some(Cause::BadCall)
                }
            }
            Act::Break => {
                if hart.tx.is_some() {
                    Some(Cause::CallInTransaction)
                } else {
                    Some(Cause::Breakpoint)
                }
            }
        }
    }

    /// What a word does at the hart's pc, or its cause.
    fn effect(&self, hart: &Hart, word: u32) -> Result<Effect, Cause>
        ensures { result ≡ effect_or_cause (setting_of self.now) (hart_of (vec_len self.now.memory) hart.now) word }
    {
        let effect = effect_at(word, hart.pc, &hart.regs)?;
        match self.act_cause(hart, &effect.act) {
            None => Ok(effect),
            Some(cause) => Err(cause),
        }
    }

    /// What hart i is about to do.
    pub(crate) fn next_move(&self, i: usize) -> NextMove
        ensures { IsNextMove (flat_of self.now) i result }
    {
        let hart = match self.harts.get(i) {
            Some(hart) if hart.status == Status::Running => hart,
            _ => return NextMove::Idle,
        };
        match self.program.text().word(hart.pc) {
            None => NextMove::Stops(Cause::FetchOutside),
            Some(word) => match self.effect(hart, word) {
                Ok(effect) => NextMove::Goes(word, effect),
                Err(cause) => NextMove::Stops(cause),
            },
        }
    }
}
