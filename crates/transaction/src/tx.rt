ghost use Rattle.std.specs.Prelude.{◌≡◌, ◌↔◌, ◌<◌, ◌^◌, ◌*◌, ◌||◌, ◌&&◌, ◌++◌, ◌∷◌, [], true, Some, None, IsTrue, IsSome, IsOk, OnOk, OnErr, IfOk, IfErr};
ghost use Rattle.undo_log.specs.declared.record.Record.{Record};
ghost use Rattle.undo_log.specs.Log.{records, appended, newest_of, popped};
ghost use Rattle.words.specs.Limits.{block_bytes, log_records};
ghost use Rattle.words.specs.Stamps.{earlier};
ghost use Rattle.transaction.specs.Transactions.{idle, begun, takes_stamp, committed, aborted, running_stamp, kept_stamp};

use crate::fault::TxFault;
use conflict::earlier;
use std::marker::Model;
use undo_log::{LogFull, UndoLog};
use words::{AbortCause, Addr, Block, BlockNo, Regs, Stamp};

/// How deep transactions nest at most.
pub const DEPTHS: u8 = 255;

/// What a hart goes on with after an abort.
#[derive(Clone, Copy, Debug, PartialEq, Eq)]
pub struct Restart {
    pub regs: Regs,
    pub pc: Addr,
    pub cause: AbortCause,
}

/// The transaction of one hart, or what stays of the last one: outside a transaction the depth is 0, and the stamp is the one
/// that an abort has left for the next.
#[derive(Clone, Copy, Debug, PartialEq, Eq)]
pub struct Tx {
    depth: u8,
    checkpoint: Regs,
    abort_pc: Addr,
    stamp: Option<Stamp>,
    overflow: bool,
    cycle: bool,
    aborting: Option<AbortCause>,
    log: UndoLog,
}

impl Model for Tx {
    ghost use Rattle.transaction.specs.Value.{Transaction, IsSound};

    ghost Value = { Transaction };

    ghost view = { λ a. record {
      depth = a.depth;
      checkpoint = a.checkpoint;
      abort_pc = a.abort_pc;
      stamp = a.stamp;
      overflow = a.overflow;
      cycle = a.cycle;
      aborting = a.aborting;
      log = a.log;
    } };

    ghost invariant = { λ a. IsSound a.depth a.stamp a.aborting };

    ghost inverse = { λ v. record {
      depth = v.depth;
      checkpoint = v.checkpoint;
      abort_pc = v.abort_pc;
      stamp = v.stamp;
      overflow = v.overflow;
      cycle = v.cycle;
      aborting = v.aborting;
      log = v.log;
    } };
}

impl Tx {
    /// No transaction. The undo log begins at this address.
    pub fn new(base: Addr) -> Self
        ensures { result ≡ idle base }
    {
        Tx {
            depth: 0,
            checkpoint: Regs::new(),
            abort_pc: Addr::new(0),
            stamp: None,
            overflow: false,
            cycle: false,
            aborting: None,
            log: UndoLog::new(base),
        }
    }

    /// Begins a transaction, or nests one in the transaction that runs. The outermost keeps the registers and the pc to go back
    /// to, and takes the stamp, unless an abort has left one. The answer is whether the stamp was taken.
    pub fn begin(&mut self, regs: &Regs, abort_pc: Addr, stamp: Stamp) -> Result<bool, TxFault>
        requires { self.old.aborting ≡ None }
        ensures room { IsOk result ↔ (self.old.depth < 255) }
        ensures ok { OnOk result (self.new ≡ begun self.old regs.now abort_pc stamp) }
        ensures taken { IfOk result (λ taken. taken ≡ takes_stamp self.old) }
        ensures fault { IfErr result (λ fault. fault ≡ TxFault.TooDeep) }
        ensures err { OnErr result (self.new ≡ self.old) }
    {
        if self.depth == DEPTHS {
            return Err(TxFault::TooDeep);
        }
        self.depth += 1;
        if self.depth > 1 {
            return Ok(false);
        }
        self.checkpoint = *regs;
        self.abort_pc = abort_pc;
        let takes_stamp = self.stamp.is_none();
        if takes_stamp {
            self.stamp = Some(stamp);
        }
        Ok(takes_stamp)
    }

    /// Ends the innermost transaction. With the outermost its log, overflow bit and possible-cycle flag are cleared, and the next
    /// one takes a new stamp.
    pub fn commit(&mut self) -> Result<(), TxFault>
        requires { self.old.aborting ≡ None }
        ensures inside { IsOk result ↔ (0 < self.old.depth) }
        ensures ok { OnOk result (self.new ≡ committed self.old) }
        ensures fault { IfErr result (λ fault. fault ≡ TxFault.Outside) }
        ensures err { OnErr result (self.new ≡ self.old) }
    {
        if self.depth == 0 {
            return Err(TxFault::Outside);
        }
        self.depth -= 1;
        if self.depth == 0 {
            self.stamp = None;
            self.overflow = false;
            self.cycle = false;
            self.log.reset();
        }
        Ok(())
    }

    /// Starts to abort the whole transaction. One that is being aborted goes on with this cause.
    pub fn start_abort(&mut self, cause: AbortCause) -> Result<(), TxFault>
        ensures inside { IsOk result ↔ (0 < self.old.depth) }
        ensures ok { OnOk result (self.new ≡ record self.old { aborting = Some cause }) }
        ensures fault { IfErr result (λ fault. fault ≡ TxFault.Outside) }
        ensures err { OnErr result (self.new ≡ self.old) }
    {
        if self.depth == 0 {
            return Err(TxFault::Outside);
        }
        self.aborting = Some(cause);
        Ok(())
    }

    /// Ends an abort whose log is undone: no transaction runs, and the next one keeps the stamp.
    pub fn end_abort(&mut self) -> Restart
        requires aborting { IsSome self.old.aborting }
        requires undone { self.old.log.count ≡ 0 }
        ensures new { self.new ≡ aborted self.old }
        ensures regs { result.regs ≡ self.old.checkpoint }
        ensures pc { result.pc ≡ self.old.abort_pc }
        ensures cause { self.old.aborting ≡ Some result.cause }
    {
        let restart = Restart {
            regs: self.checkpoint,
            pc: self.abort_pc,
            cause: self.aborting.unwrap(),
        };
        self.depth = 0;
        self.overflow = false;
        self.cycle = false;
        self.aborting = None;
        restart
    }

    /// Writes a block into the undo log, as it is before a store.
    pub fn append_record(&mut self, block: BlockNo, before: &Block) -> Result<(), LogFull>
        requires { block_bytes * block < 2 ^ 32 }
        ensures room { IsOk result ↔ (self.old.log.count < log_records) }
        ensures ok { let r : Record = record { block = block; before = before.now } in
            OnOk result (self.new ≡ record self.old { log = appended self.old.log r }) }
        ensures records { let r : Record = record { block = block; before = before.now } in
            OnOk result (records self.new.log ≡ records self.old.log ++ r ∷ []) }
        ensures err { OnErr result (self.new ≡ self.old) }
    {
        self.log.append(block, before)
    }

    /// Takes the newest record off the undo log.
    pub fn pop_record(&mut self)
        requires { 0 < self.old.log.count }
        ensures new { self.new ≡ record self.old { log = popped self.old.log } }
        ensures records { records self.old.log ≡ records self.new.log ++ newest_of self.old.log ∷ [] }
    {
        self.log.pop();
    }

    /// Sets the overflow bit: the hart has given up a line that this transaction used.
    pub fn set_overflow(&mut self)
        ensures { self.new ≡ record self.old { overflow = true } }
    {
        self.overflow = true;
    }

    /// Sets the possible-cycle flag: this transaction has refused an earlier one.
    pub fn set_cycle(&mut self)
        ensures { self.new ≡ record self.old { cycle = true } }
    {
        self.cycle = true;
    }

    /// Takes note that a request with this stamp was refused.
    pub fn note_refusal(&mut self, requester: Option<Stamp>)
        ensures { self.new ≡ record self.old { cycle = self.old.cycle || earlier requester (running_stamp self.old) } }
    {
        if earlier(requester, self.stamp()) {
            self.set_cycle();
        }
    }

    /// Whether the transaction aborts when its request ends refused, an earlier one among those that refused it or not.
    pub fn must_abort(&self, earlier_refused: bool) -> bool
        ensures { result ≡ self.now.cycle && earlier_refused }
    {
        conflict::must_abort(self.cycle, earlier_refused)
    }

    /// How many transactions are nested; 0 outside.
    pub fn depth(&self) -> u8
        ensures { result ≡ self.now.depth }
    {
        self.depth
    }

    /// The registers at the outermost begin.
    pub fn checkpoint(&self) -> &Regs
        ensures { result.now ≡ self.now.checkpoint }
    {
        &self.checkpoint
    }

    /// Where the hart goes on after an abort.
    pub fn abort_pc(&self) -> Addr
        ensures { result ≡ self.now.abort_pc }
    {
        self.abort_pc
    }

    /// The stamp of the transaction that runs.
    pub fn stamp(&self) -> Option<Stamp>
        ensures value { result ≡ running_stamp self.now }
        ensures inside { IsSome result ↔ (0 < self.now.depth) }
    {
        if self.depth == 0 { None } else { self.stamp }
    }

    /// Outside a transaction, the stamp that an abort has left for the next one.
    pub fn kept_stamp(&self) -> Option<Stamp>
        ensures { result ≡ kept_stamp self.now }
    {
        if self.depth == 0 { self.stamp } else { None }
    }

    pub fn overflow(&self) -> bool
        ensures { result ≡ self.now.overflow }
    {
        self.overflow
    }

    /// The possible-cycle flag.
    pub fn cycle(&self) -> bool
        ensures { result ≡ self.now.cycle }
    {
        self.cycle
    }

    /// Why the transaction is being aborted, if it is.
    pub fn aborting(&self) -> Option<AbortCause>
        ensures value { result ≡ self.now.aborting }
        ensures inside { IsSome result → 0 < self.now.depth }
    {
        self.aborting
    }

    pub fn log(&self) -> &UndoLog
        ensures { result.now ≡ self.now.log }
    {
        &self.log
    }

    /// Whether two transactions are one in all that they keep, the bytes of their logs included.
    pub fn same(&self, other: &Self) -> bool
        ensures { IsTrue result ↔ (self.now ≡ other.now) }
    {
        self.depth == other.depth
            && self.checkpoint == other.checkpoint
            && self.abort_pc == other.abort_pc
            && same_stamp(&self.stamp, &other.stamp)
            && self.overflow == other.overflow
            && self.cycle == other.cycle
            && same_cause(&self.aborting, &other.aborting)
            && self.log.same(&other.log)
    }

    /// Becomes a copy of another transaction, and copies only what the log of either was ever written.
    pub fn assign(&mut self, other: &Self)
        ensures { self.new ≡ other.now }
    {
        self.depth = other.depth;
        self.checkpoint = other.checkpoint;
        self.abort_pc = other.abort_pc;
        self.stamp = other.stamp;
        self.overflow = other.overflow;
        self.cycle = other.cycle;
        self.aborting = other.aborting;
        self.log.assign(&other.log);
    }
}

fn same_stamp(a: &Option<Stamp>, b: &Option<Stamp>) -> bool
    ensures { IsTrue result ↔ (a.now ≡ b.now) }
{
    *a == *b
}

fn same_cause(a: &Option<AbortCause>, b: &Option<AbortCause>) -> bool
    ensures { IsTrue result ↔ (a.now ≡ b.now) }
{
    *a == *b
}
