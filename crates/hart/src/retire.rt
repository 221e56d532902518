ghost use Rattle.std.specs.Prelude.{◌≡◌, ◌<◌, ◌%◌, ◌/◌, ℕ, List, Option, Some, None, IsTrue, IsFalse, not, ◌&&◌, nat_le, length, false};
ghost use Rattle.words.specs.Bytes.{bytes_in};
ghost use Rattle.words.specs.declared.message.LineState.TheVariants.{Modified};
ghost use Rattle.words.specs.Limits.{log_records};
ghost use Rattle.words.specs.declared.entry.Entry.TheVariants.{Retire};
ghost use Rattle.table.specs.declared.effect.Act.TheVariants as act;
ghost use Rattle.cache.specs.Sets.{line_at, way_at};
ghost use Rattle.words.specs.Registers.{with_reg};
ghost use Rattle.flat.specs.Effects.{output_by, status_by, load_by, store_by};
ghost use Rattle.protocol.specs.Hart.{with_line};
ghost use Rattle.protocol.specs.Lines.{byte_in, line_used};
ghost use Rattle.hart.specs.Rows.{with_byte};
ghost use Rattle.protocol.specs.Core.{retire_row, no_memory, begin_row, commit_row, access_row, is_log_due, tx_used};

use crate::access::{is_log_due, load_by, store_by, written_by};
use crate::hart::Hart;
use crate::reply::CoreStep;
use crate::reservation::reserved_begun;
use crate::transactions::{append_record, begin, commit};
use cache::Line;
use table::{Act, Effect, MemoryAct, write_register};
use words::{AbortCause, Addr, BLOCK_BYTES, Block, BlockNo, Entry, Reg, Regs, Stamp, Status};

/// The call 93 exits with a0.
#[inline(always)]
fn status_by(regs: &Regs, act: &Act) -> Status
    ensures { result ≡ status_by regs.now act.now }
{
    match act {
        Act::Call if regs.read(Reg::new(17)) == 93 => { Status::Exited(regs.read(Reg::new(10))) }
        _ => Status::Running,
    }
}

/// The other call puts out the low byte of a0.
#[inline(always)]
fn output_by(regs: &Regs, act: &Act) -> Option<u8>
    ensures { (output : List ℕ) → with_byte output result ≡ output_by output regs.now act.now }
{
    match act {
        Act::Call if regs.read(Reg::new(17)) != 93 => {
            Some((regs.read(Reg::new(10)) % 256) as u8)
        }
        _ => None,
    }
}

/// Instructions that are retired.
impl<const SETS: usize, const WAYS: usize> Hart<SETS, WAYS> {
    ghost use Rattle.hart.specs.Staying.{StaysPut};
    ghost use Rattle.hart.specs.Places.{KeepsWays};
    ghost use Rattle.hart.specs.Shown.{shown_line, shown_tx, running, shown_hart};
    ghost use Rattle.hart.specs.Rows.{stepped, is_access};

    /// Retires a word without an access.
    #[inline(always)]
    pub(crate) fn retire(&mut self, word: u32, effect: &Effect) -> CoreStep
        requires { is_access effect.now.act ≡ false }
        ensures row { (output : List ℕ) → retire_row self.old.index no_memory word effect.now (shown_hart SETS output self.old)
            ≡ stepped SETS output self.new result }
        ensures cache { self.new.cache ≡ self.old.cache }
        ensures tx { self.new.tx ≡ self.old.tx }
        ensures stays { StaysPut self.old self.new }
    {
        let entry = self.entry(word, &effect.write);
        let output = output_by(&self.regs, &effect.act);
        self.status = status_by(&self.regs, &effect.act);
        self.move_on(effect.next, effect.write);
        CoreStep {
            message: None,
            entry: Some(entry),
            stamped: false,
            output,
        }
    }

    /// The entry of a word without an access, which writes this register.
    #[inline(always)]
    pub(crate) fn entry(&self, word: u32, write: &Option<(Reg, u32)>) -> Entry
        ensures { result ≡ Retire self.now.index self.now.pc word write.now None None }
    {
        Entry::Retire {
            hart: self.index,
            pc: self.pc,
            word,
            write: *write,
            load: None,
            store: None,
        }
    }

    /// The entry of an access, to a block that has these words, which writes this register.
    #[inline(always)]
    pub(crate) fn access_entry(
        &self,
        word: u32,
        m: &MemoryAct,
        content: &Block,
        write: &Option<(Reg, u32)>,
    ) -> Entry
        requires { m.now.addr % bytes_in m.now.width ≡ 0 }
        ensures { let view = byte_in content.now in
            result ≡ Retire self.now.index self.now.pc word write.now (load_by view (act.Memory m.now)) (store_by view (act.Memory m.now)) }
    {
        Entry::Retire {
            hart: self.index,
            pc: self.pc,
            word,
            write: *write,
            load: load_by(content, m),
            store: store_by(content, m),
        }
    }

    /// The hart goes on at this address, with this register written.
    #[inline(always)]
    pub(crate) fn move_on(&mut self, next: Addr, write: Option<(Reg, u32)>)
        ensures hart { self.new ≡ record self.old { regs = with_reg self.old.regs write; pc = next; fresh = false } }
        ensures stays { StaysPut self.old self.new }
    {
        self.pc = next;
        write_register(&mut self.regs, write);
        self.fresh = false;
    }

    /// Retires an access, to a block that has these words.
    #[inline(always)]
    pub(crate) fn retire_access(
        &mut self,
        word: u32,
        effect: &Effect,
        m: &MemoryAct,
        content: &Block,
    ) -> CoreStep
        requires act { effect.now.act ≡ act.Memory m.now }
        requires aligned { m.now.addr % bytes_in m.now.width ≡ 0 }
        ensures row { (output : List ℕ) →
            retire_row self.old.index (byte_in content.now) word effect.now (shown_hart SETS output self.old)
            ≡ stepped SETS output self.new result }
        ensures cache { self.new.cache ≡ self.old.cache }
        ensures tx { self.new.tx ≡ self.old.tx }
        ensures stays { StaysPut self.old self.new }
    {
        let written = written_by(content, effect, m);
        let entry = self.access_entry(word, m, content, &written);
        self.status = Status::Running;
        self.move_on(effect.next, written);
        CoreStep::gives(entry)
    }

    /// A transaction begins, or goes one deeper. An outermost one leaves no block reserved, and takes a new stamp, where so many were taken,
    /// unless an abort has left one.
    #[inline(always)]
    pub(crate) fn begin(
        &mut self,
        word: u32,
        effect: &Effect,
        abort_pc: Addr,
        taken: u64,
    ) -> CoreStep
        requires act { effect.now.act ≡ act.Begin abort_pc }
        requires aborting { self.old.tx.aborting ≡ None }
        requires room { self.old.tx.depth < 255 }
        ensures row { (output : List ℕ) →
            begin_row self.old.index taken word effect.now abort_pc (shown_tx self.old.tx) (shown_hart SETS output self.old)
            ≡ stepped SETS output self.new result }
        ensures cache { self.new.cache ≡ self.old.cache }
        ensures stays { StaysPut self.old self.new }
    {
        let stamp = Stamp {
            count: taken,
            hart: self.index,
        };
        self.reserved = reserved_begun(&self.tx, self.reserved);
        let stamped = begin(&mut self.tx, &self.regs, abort_pc, stamp);
        let step = self.retire(word, effect);
        CoreStep { stamped, ..step }
    }

    /// The innermost transaction ends; the end of the outermost takes all marks and the reservation away.
    #[inline(always)]
    pub(crate) fn commit(&mut self, word: u32, effect: &Effect) -> CoreStep
        requires act { effect.now.act ≡ act.Commit }
        requires free { self.old.request ≡ None }
        requires aborting { self.old.tx.aborting ≡ None }
        ensures row { (output : List ℕ) →
            commit_row self.old.index word effect.now (shown_tx self.old.tx) (shown_hart SETS output self.old)
            ≡ stepped SETS output self.new result }
        ensures ways { KeepsWays SETS self.old.cache self.new.cache }
        ensures stays { StaysPut self.old self.new }
    {
        if commit(&mut self.tx) {
            self.cache.clear_marks();
            self.reserved = None;
            return self.retire(word, effect);
        }
        self.retire(word, effect)
    }

    /// An access to a line that is enough. Where it is retired, it leaves this block reserved.
    #[inline(never)]
    pub(crate) fn access_line(
        &mut self,
        word: u32,
        effect: &Effect,
        m: &MemoryAct,
        kept: Option<BlockNo>,
        line: &Line,
    ) -> CoreStep
        requires act { effect.now.act ≡ act.Memory m.now }
        requires aligned { m.now.addr % bytes_in m.now.width ≡ 0 }
        requires aborting { self.old.tx.aborting ≡ None }
        requires line { line_at SETS self.old.cache (m.now.addr / 32) ≡ Some line.now }
        requires block { line.now.block ≡ m.now.addr / 32 }
        requires owned { IsTrue line.now.marks.written → line.now.state ≡ Modified }
        ensures row { (output : List ℕ) →
            access_row self.old.index word effect.now m.now kept (shown_line line.now) (shown_tx self.old.tx)
            (shown_hart SETS output self.old)
            ≡ stepped SETS output self.new result }
        ensures ways { KeepsWays SETS self.old.cache self.new.cache }
        ensures stays { StaysPut self.old self.new }
    {
        let Some(way) = self.cache.way(m.addr.block()) else {
            unreachable!()
        };
        if self.tx.depth() == 0 {
            self.access_logged(word, effect, m, kept, line, way, false)
        } else {
            self.access_in_transaction(word, effect, m, kept, line, way)
        }
    }

    /// An access whose record, if one is due, is in the log.
    #[inline(always)]
    fn access_logged(
        &mut self,
        word: u32,
        effect: &Effect,
        m: &MemoryAct,
        kept: Option<BlockNo>,
        line: &Line,
        way: usize,
        in_transaction: bool,
    ) -> CoreStep
        requires act { effect.now.act ≡ act.Memory m.now }
        requires aligned { m.now.addr % bytes_in m.now.width ≡ 0 }
        requires line { line_at SETS self.old.cache (m.now.addr / 32) ≡ Some line.now }
        requires way { way_at SETS self.old.cache (m.now.addr / 32) ≡ Some way }
        requires block { line.now.block ≡ m.now.addr / 32 }
        requires owned { IsTrue line.now.marks.written → line.now.state ≡ Modified }
        ensures row { (output : List ℕ) →
            let h = record (shown_hart SETS output self.old) { reserved = kept } in
            let used = with_line (m.now.addr / 32) (Some (line_used in_transaction m.now (shown_line line.now))) h in
            retire_row self.old.index (byte_in line.now.content) word effect.now used
            ≡ stepped SETS output self.new result }
        ensures ways { KeepsWays SETS self.old.cache self.new.cache }
        ensures tx { self.new.tx ≡ self.old.tx }
        ensures stays { StaysPut self.old self.new }
    {
        self.use_way(m, line, way, in_transaction);
        self.reserved = kept;
        self.retire_access(word, effect, m, &line.content)
    }

    /// In a transaction: a store to a line without the W mark first appends the block to the log. On a full log an abort starts
    /// instead.
    #[inline(always)]
    fn access_in_transaction(
        &mut self,
        word: u32,
        effect: &Effect,
        m: &MemoryAct,
        kept: Option<BlockNo>,
        line: &Line,
        way: usize,
    ) -> CoreStep
        requires act { effect.now.act ≡ act.Memory m.now }
        requires aligned { m.now.addr % bytes_in m.now.width ≡ 0 }
        requires running { 0 < self.old.tx.depth }
        requires line { line_at SETS self.old.cache (m.now.addr / 32) ≡ Some line.now }
        requires way { way_at SETS self.old.cache (m.now.addr / 32) ≡ Some way }
        requires block { line.now.block ≡ m.now.addr / 32 }
        requires owned { IsTrue line.now.marks.written → line.now.state ≡ Modified }
        ensures row { (output : List ℕ) → let h = shown_hart SETS output self.old in
            access_row self.old.index word effect.now m.now kept (shown_line line.now) (Some (running self.old.tx)) h
            ≡ stepped SETS output self.new result }
        ensures ways { KeepsWays SETS self.old.cache self.new.cache }
        ensures stays { StaysPut self.old self.new }
    {
        if !self.log_line(m, line, way) {
            return self.start_abort(AbortCause::LogFull);
        }
        self.access_logged(word, effect, m, kept, line, way, true)
    }

    /// Appends the words of a line, which stands in this way, to the log, if that is due before an access. The answer is whether there was room for them.
    #[inline(always)]
    pub(crate) fn log_line(&mut self, m: &MemoryAct, line: &Line, way: usize) -> bool
        requires running { 0 < self.old.tx.depth }
        requires line { line_at SETS self.old.cache (m.now.addr / 32) ≡ Some line.now }
        requires way { way_at SETS self.old.cache (m.now.addr / 32) ≡ Some way }
        requires block { line.now.block ≡ m.now.addr / 32 }
        ensures room { let log = (running self.old.tx).log in
            is_log_due m.now (shown_line line.now) && nat_le log_records (length log) ≡ not result }
        ensures ok { IsTrue result → (output : List ℕ) → let h = shown_hart SETS output self.old in
            shown_hart SETS output self.new ≡ record h { tx = Some (tx_used m.now (shown_line line.now) (running self.old.tx)) } }
        ensures full { IsFalse result → self.new ≡ self.old }
        ensures cache { self.new.cache ≡ self.old.cache }
        ensures status { self.new.status ≡ self.old.status }
        ensures stays { StaysPut self.old self.new }
    {
        if !is_log_due(m, line) {
            return true;
        }
        // The words are read where the line stands: a copy of them takes longer.
        let block = BlockNo::new(m.addr.value() / BLOCK_BYTES as u32);
        let here = self.cache.line_in(block, way);
        append_record(&mut self.tx, block, &here.content)
    }
}
