ghost use Rattle.std.specs.Prelude.{◌≡◌, ◌<◌, ◌∷◌, ℕ, List, Some, None, IsSome};
ghost use Rattle.words.specs.declared.cause.AbortCause.{AbortCause};
ghost use Rattle.flat.specs.Steps.{status_for};
ghost use Rattle.undo_log.specs.Log.{newest_of};
ghost use Rattle.cache.specs.Sets.{line_at};
ghost use Rattle.protocol.specs.Hart.{Transaction, LogRecord};
ghost use Rattle.protocol.specs.Core.{start_abort_row, end_abort_row, undo_row, tabort_row, trap_row};

use crate::hart::Hart;
use crate::reply::CoreStep;
use crate::transactions::{end_abort, pop_record, start_abort};
use cache::Line;
use undo_log::Record;
use words::{AbortCause, Cause, Entry, LineState, Status};

/// Traps and aborts.
impl<const SETS: usize, const WAYS: usize> Hart<SETS, WAYS> {
    ghost use Rattle.hart.specs.Staying.{StaysPut};
    ghost use Rattle.hart.specs.Places.{KeepsWays};
    ghost use Rattle.hart.specs.Shown.{shown_line, shown_record, shown_tx, shown_log, shown_hart};
    ghost use Rattle.hart.specs.Rows.{stepped};

    /// The running transaction starts to be aborted. Its marks stay until the end.
    #[inline(never)]
    pub(crate) fn start_abort(&mut self, cause: AbortCause) -> CoreStep
        ensures row { (output : List ℕ) (t : Transaction) → shown_tx self.old.tx ≡ Some t →
            start_abort_row cause t (shown_hart SETS output self.old) ≡ stepped SETS output self.new result }
        ensures cache { self.new.cache ≡ self.old.cache }
        ensures stays { StaysPut self.old self.new }
    {
        start_abort(&mut self.tx, cause);
        self.fresh = false;
        CoreStep::quiet()
    }

    /// TABORT: the transaction starts to be aborted.
    pub(crate) fn ask_abort(&mut self) -> CoreStep
        ensures row { (output : List ℕ) → tabort_row (shown_tx self.old.tx) (shown_hart SETS output self.old)
            ≡ stepped SETS output self.new result }
        ensures cache { self.new.cache ≡ self.old.cache }
        ensures stays { StaysPut self.old self.new }
    {
        if self.tx.depth() == 0 {
            return CoreStep::quiet();
        }
        self.start_abort(AbortCause::Asked)
    }

    /// The word can't be retired: the hart stops and has reserved no block, or in a transaction starts an abort, whose end stops it.
    #[inline(never)]
    pub(crate) fn trap(&mut self, cause: Cause) -> CoreStep
        ensures row { (output : List ℕ) → trap_row self.old.index cause (shown_tx self.old.tx) (shown_hart SETS output self.old)
            ≡ stepped SETS output self.new result }
        ensures cache { self.new.cache ≡ self.old.cache }
        ensures stays { StaysPut self.old self.new }
    {
        if self.tx.depth() > 0 {
            return self.start_abort(AbortCause::Trapped(cause, self.pc));
        }
        self.status = Status::Stopped(cause, self.pc);
        self.reserved = None;
        self.fresh = false;
        CoreStep::gives(Entry::Trap {
            hart: self.index,
            cause,
            pc: self.pc,
        })
    }

    /// The log is undone: registers and pc are those of the begin, no line has marks, no block is reserved, and the next transaction keeps the
    /// stamp.
    pub(crate) fn end_abort(&mut self) -> CoreStep
        requires free { self.old.request ≡ None }
        requires aborting { IsSome self.old.tx.aborting }
        requires undone { self.old.tx.log.count ≡ 0 }
        ensures row { (output : List ℕ) (t : Transaction) (cause : AbortCause) → shown_tx self.old.tx ≡ Some t →
            self.old.tx.aborting ≡ Some cause →
            end_abort_row self.old.index cause t (shown_hart SETS output self.old) ≡ stepped SETS output self.new result }
        ensures ways { KeepsWays SETS self.old.cache self.new.cache }
        ensures stays { StaysPut self.old self.new }
    {
        let restart = end_abort(&mut self.tx);
        let regs = restart.regs;
        self.regs = regs;
        self.pc = restart.pc;
        self.status = status_for(restart.cause);
        self.cache.clear_marks();
        self.reserved = None;
        self.fresh = false;
        CoreStep::gives(Entry::Abort {
            hart: self.index,
            cause: restart.cause,
        })
    }

    /// The words of the newest record go back to its block's line.
    pub(crate) fn undo(&mut self, newest: &Record, line: &Line) -> CoreStep
        requires some { 0 < self.old.tx.log.count }
        requires running { 0 < self.old.tx.depth }
        requires newest { newest.now ≡ newest_of self.old.tx.log }
        requires line { line_at SETS self.old.cache newest.now.block ≡ Some line.now }
        requires block { line.now.block ≡ newest.now.block }
        ensures row { (output : List ℕ) (t : Transaction) (rest : List LogRecord) → shown_tx self.old.tx ≡ Some t →
            t.log ≡ shown_record newest.now ∷ rest →
            undo_row t (shown_record newest.now) rest (shown_line line.now)
            (shown_hart SETS output self.old) ≡ stepped SETS output self.new result }
        ensures ways { KeepsWays SETS self.old.cache self.new.cache }
        ensures stays { StaysPut self.old self.new }
    {
        self.cache.replace(Line {
            content: newest.before,
            state: LineState::Modified,
            ..*line
        });
        pop_record(&mut self.tx);
        self.fresh = false;
        CoreStep::quiet()
    }
}

/// Whether the hart runs on after an abort: one for a cause of its own word stops it.
fn status_for(cause: AbortCause) -> Status
    ensures { result ≡ status_for cause }
{
    match cause {
        AbortCause::Trapped(cause, pc) => Status::Stopped(cause, pc),
        AbortCause::Asked | AbortCause::Conflict | AbortCause::LogFull => Status::Running,
    }
}
