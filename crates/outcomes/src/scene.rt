ghost use Rattle.std.specs.Prelude.{◌≡◌, ◌<◌, ◌≤◌, ℕ, true, false, length, IsTrue, is_some};
ghost use Rattle.words.specs.Bytes.{bytes_in};

use crate::hart::Hart;
use loader::Program;
use table::{Act, Effect, MemoryAct, byte_count, effect_at};
use words::{Addr, Cause, LOG_BYTES, Reg, Status};

/// What stays as it is: the program, the bytes that memory begins with, and how many harts there are.
#[derive(Clone, Copy)]
pub struct Scene<'a> {
    pub program: &'a Program,
    pub image: &'a [u8],
    pub count: usize,
    ghost few: { count ≤ 8 },
}

/// What a hart is about to do.
#[derive(Drop)]
pub enum NextMove {
    /// Nothing: it doesn't run.
    Idle,
    /// Its word can't be retired.
    Stops(Cause),
    /// Its word, and what it does.
    Goes(u32, Effect),
}

impl Scene<'_> {
    ghost use Rattle.flat.specs.Causes.{load_cause, store_cause, memory_cause, act_cause, logs_from, effect_or_cause};
    ghost use Rattle.outcomes.specs.Harts.{hart_of};
    ghost use Rattle.outcomes.specs.Standings.{setting_of, IsNextMove};

    /// The first address of the undo logs.
    pub fn logs_from(&self) -> usize
        ensures { result ≡ logs_from (setting_of self.now) }
    {
        self.image
            .len()
            .saturating_sub(self.count.saturating_mul(LOG_BYTES))
    }

    fn load_cause(&self, addr: Addr, count: usize) -> Option<Cause>
        requires some { 0 < count }
        requires few { count ≤ 4 }
        ensures { result ≡ load_cause (setting_of self.now) addr count }
    {
        let address = addr.index();
        if address % count != 0 {
            Some(Cause::LoadMisaligned)
        } else if address + count > self.image.len() {
            Some(Cause::LoadOutside)
        } else if address + count > self.logs_from() {
            Some(Cause::LogRegion)
        } else {
            None
        }
    }

    fn store_cause(&self, m: &MemoryAct) -> Option<Cause>
        ensures { result ≡ store_cause (setting_of self.now) m.now.addr (bytes_in m.now.width) }
    {
        let address = m.addr.index();
        let count = byte_count(m.width) as usize;
        if address % count != 0 {
            Some(Cause::StoreMisaligned)
        } else if address + count > self.image.len() {
            Some(Cause::StoreOutside)
        } else if address + count > self.logs_from() {
            Some(Cause::LogRegion)
        } else if self.program.text().touches(m.addr, m.width) {
            Some(Cause::StoreText)
        } else {
            None
        }
    }

    fn memory_cause(&self, m: &MemoryAct) -> Option<Cause>
        ensures { result ≡ memory_cause (setting_of self.now) m.now }
    {
        if m.store.is_some() {
            self.store_cause(m)
        } else {
            self.load_cause(m.addr, byte_count(m.width) as usize)
        }
    }

    fn act_cause(&self, hart: &Hart, act: &Act) -> Option<Cause>
        ensures { result ≡ act_cause (setting_of self.now) (hart_of (length self.now.image.now) hart.now) act.now }
    {
        match act {
            Act::Nothing => None,
            Act::Memory(m) | Act::Conditional(_, m) => self.memory_cause(m),
            Act::Begin(_) => match &hart.tx {
                Some(tx) if tx.depth == 255 => Some(Cause::TooDeep),
                _ => None,
            },
            Act::Commit | Act::Abort => {
                if hart.tx.is_none() {
                    Some(Cause::OutsideTransaction)
                } else {
                    None
                }
            }
            Act::Call => {
                let call = hart.regs.read(Reg::new(17));
                if hart.tx.is_some() {
                    Some(Cause::CallInTransaction)
                } else if call == 93 || call == 1 {
                    None
                } else {
                    Some(Cause::BadCall)
                }
            }
            Act::Break => {
                if hart.tx.is_some() {
                    Some(Cause::CallInTransaction)
                } else {
                    Some(Cause::Breakpoint)
                }
            }
        }
    }

    /// What a word does at the hart's pc, or its cause.
    fn effect(&self, hart: &Hart, word: u32) -> Result<Effect, Cause>
        ensures { result ≡ effect_or_cause (setting_of self.now) (hart_of (length self.now.image.now) hart.now) word }
    {
        let effect = effect_at(word, Addr::new(hart.pc), &hart.regs)?;
        match self.act_cause(hart, &effect.act) {
            None => Ok(effect),
            Some(cause) => Err(cause),
        }
    }

    /// What a hart is about to do.
    pub fn next_move(&self, hart: &Hart) -> NextMove
        ensures { IsNextMove (setting_of self.now) (hart_of (length self.now.image.now) hart.now) result }
    {
        if hart.status != Status::Running {
            return NextMove::Idle;
        }
        match self.program.text().word(Addr::new(hart.pc)) {
            None => NextMove::Stops(Cause::FetchOutside),
            Some(word) => match self.effect(hart, word) {
                Ok(effect) => NextMove::Goes(word, effect),
                Err(cause) => NextMove::Stops(cause),
            },
        }
    }
}
