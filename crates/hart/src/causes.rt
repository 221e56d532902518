ghost use Rattle.std.specs.Prelude.{◌≡◌, ◌<◌, ◌≤◌, ◌%◌, [], Some, None, Ok, Err, IfOk, IfErr, IsTrue};
ghost use Rattle.words.specs.Bytes.{bytes_in};
ghost use Rattle.table.specs.Program.{word_at};
ghost use Rattle.flat.specs.Causes.{logs_from, load_cause, store_cause, memory_cause, act_cause, effect_or_cause, next_of};

use crate::hart::Hart;
use table::{Act, Effect, MemoryAct, Slot, Text, byte_count};
use words::{Addr, Cause, Reg};

/// The word at a hart's pc, which can be retired, and what it does.
#[derive(Clone, Copy, Debug, PartialEq, Eq)]
pub(crate) struct Instruction {
    pub word: u32,
    pub effect: Effect,
}

/// What the word at the hart's pc does, or why it can't be retired.
impl<const SETS: usize, const WAYS: usize> Hart<SETS, WAYS> {
    ghost use Rattle.hart.specs.Rows.{setting_of, seen_hart, Fits};

    /// The first address of the undo logs.
    #[inline(always)]
    fn logs_from(&self) -> usize
        ensures { result ≡ logs_from (setting_of [] self.now) }
    {
        self.logs_from
    }

    /// A load's cause, whatever the program's text is.
    #[inline(always)]
    fn load_cause(&self, addr: Addr, count: usize) -> Option<Cause>
        requires some { 0 < count }
        requires few { count ≤ 4 }
        ensures value { result ≡ load_cause (setting_of [] self.now) addr count }
        ensures aligned { result ≡ None → addr % count ≡ 0 }
    {
        let address = addr.index();
        if address % count != 0 {
            Some(Cause::LoadMisaligned)
        } else if address + count <= self.logs_from() {
            None
        } else if address + count > self.size {
            Some(Cause::LoadOutside)
        } else {
            Some(Cause::LogRegion)
        }
    }

    #[inline(always)]
    fn store_cause(&self, text: &Text, m: &MemoryAct) -> Option<Cause>
        ensures value { result ≡ store_cause (setting_of text.now.segments.now self.now) m.now.addr (bytes_in m.now.width) }
        ensures aligned { result ≡ None → m.now.addr % bytes_in m.now.width ≡ 0 }
    {
        let address = m.addr.index();
        let count = byte_count(m.width) as usize;
        if address % count != 0 {
            Some(Cause::StoreMisaligned)
        } else if address + count > self.logs_from() {
            if address + count > self.size {
                Some(Cause::StoreOutside)
            } else {
                Some(Cause::LogRegion)
            }
        } else if text.touches(m.addr, m.width) {
            Some(Cause::StoreText)
        } else {
            None
        }
    }

    /// Whether it is known at once that a store has no cause.
    #[inline(always)]
    fn is_free_store(&self, text: &Text, m: &MemoryAct) -> bool
        ensures free { IsTrue result → store_cause (setting_of text.now.segments.now self.now) m.now.addr (bytes_in m.now.width) ≡ None }
        ensures aligned { IsTrue result → m.now.addr % bytes_in m.now.width ≡ 0 }
    {
        let address = m.addr.index();
        let count = byte_count(m.width) as usize;
        address % count == 0
            && address + count <= self.logs_from()
            && text.is_clear_of(m.addr, m.width)
    }

    /// Whether it is known at once that an access has no cause: that isn't of a store between text segments.
    #[inline(always)]
    pub(crate) fn is_free(&self, text: &Text, m: &MemoryAct) -> bool
        ensures free { IsTrue result → memory_cause (setting_of text.now.segments.now self.now) m.now ≡ None }
        ensures aligned { IsTrue result → m.now.addr % bytes_in m.now.width ≡ 0 }
    {
        if m.store.is_some() {
            self.is_free_store(text, m)
        } else {
            self.load_cause(m.addr, byte_count(m.width) as usize)
                .is_none()
        }
    }

    #[inline(always)]
    pub(crate) fn memory_cause(&self, text: &Text, m: &MemoryAct) -> Option<Cause>
        ensures value { result ≡ memory_cause (setting_of text.now.segments.now self.now) m.now }
        ensures aligned { result ≡ None → m.now.addr % bytes_in m.now.width ≡ 0 }
    {
        if m.store.is_some() {
            self.store_cause(text, m)
        } else {
            self.load_cause(m.addr, byte_count(m.width) as usize)
        }
    }

    #[inline(always)]
    pub(crate) fn act_cause(&self, text: &Text, act: &Act) -> Option<Cause>
        ensures value { result ≡ act_cause (setting_of text.now.segments.now self.now) (seen_hart SETS self.now) act.now }
        ensures fits { result ≡ None → Fits self.now.tx act.now }
    {
        let depth = self.tx.depth();
        match act {
            Act::Nothing => None,
            Act::Memory(m) | Act::Conditional(_, m) => self.memory_cause(text, m),
            Act::Begin(_) => {
                if depth == 255 {
                    Some(Cause::TooDeep)
                } else {
                    None
                }
            }
            Act::Commit | Act::Abort => {
                if depth == 0 {
                    Some(Cause::OutsideTransaction)
                } else {
                    None
                }
            }
            Act::Call => {
                let call = self.regs.read(Reg::new(17));
                if depth > 0 {
                    Some(Cause::CallInTransaction)
                } else if call == 93 || call == 1 {
                    None
                } else {
                    Some(Cause::BadCall)
                }
            }
            Act::Break => {
                if depth > 0 {
                    Some(Cause::CallInTransaction)
                } else {
                    Some(Cause::Breakpoint)
                }
            }
        }
    }

    /// What a word does at the hart's pc, or its cause.
    #[inline(always)]
    fn effect(&self, text: &Text, slot: &Slot) -> Result<Effect, Cause>
        ensures value { result ≡ effect_or_cause (setting_of text.now.segments.now self.now) (seen_hart SETS self.now) slot.now.word }
        ensures fits { IfOk result (λ effect. Fits self.now.tx effect.act) }
    {
        let effect = slot.effect(self.pc, &self.regs)?;
        match self.act_cause(text, &effect.act) {
            None => Ok(effect),
            Some(cause) => Err(cause),
        }
    }

    /// The word at the hart's pc and what it does, or its cause.
    #[inline(always)]
    pub(crate) fn instruction(&self, text: &Text) -> Result<Instruction, Cause>
        ensures word { IfOk result (λ next. word_at text.now.segments.now self.now.pc ≡ Some next.word) }
        ensures effect { IfOk result (λ next.
            next_of (setting_of text.now.segments.now self.now) (seen_hart SETS self.now) ≡ Ok next.effect) }
        ensures fits { IfOk result (λ next. Fits self.now.tx next.effect.act) }
        ensures cause { IfErr result (λ cause.
            next_of (setting_of text.now.segments.now self.now) (seen_hart SETS self.now) ≡ Err cause) }
    {
        let Some(slot) = text.slot(self.pc) else {
            return Err(Cause::FetchOutside);
        };
        let effect = self.effect(text, &slot)?;
        Ok(Instruction {
            word: slot.word,
            effect,
        })
    }
}
