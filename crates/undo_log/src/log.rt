ghost use Rattle.std.specs.Prelude.{◌≡◌, ◌↔◌, ◌<◌, ◌≤◌, ◌+◌, ◌-◌, ◌*◌, ◌%◌, ◌^◌, [], ◌∷◌, ◌++◌, length, IsTrue, IsOk, OnOk, OnErr, IsSome, IfSome, Some, codes};
ghost use Rattle.words.specs.Limits.{block_bytes, log_bytes, log_records};
ghost use Rattle.undo_log.specs.Bytes.{word_at};
ghost use Rattle.undo_log.specs.declared.record.Record.{Record};
ghost use Rattle.undo_log.specs.Log.{records, empty_log, appended, newest_of, popped, cleared};
ghost use Rattle.undo_log.specs.Undo.{oldest, holds, restored};

use crate::record::{RECORD_BYTES, Record, read_record, read_word};
use std::fmt;
use std::marker::Model;
use thiserror::Error;
use words::{Addr, Block, BlockNo, LOG_BYTES, LOG_RECORDS};

/// The log holds its greatest number of records.
#[derive(Clone, Copy, Debug, PartialEq, Eq, Error)]
pub struct LogFull;

impl fmt::Display for LogFull {
    ghost output = { λ _. Some (codes "the undo log is full") };

    fn fmt<W: fmt::Write>(&self, f: &mut fmt::Formatter<W>) -> fmt::Result {
        f.write_str("the undo log is full")
    }
}

/// The records of a transaction, the oldest first. The pointer, where the next record goes, is `RECORD_BYTES * count`. No more than
/// `used` records were ever held, so that the bytes from `RECORD_BYTES * used` on are all 0.
#[derive(Clone, Copy, Debug, PartialEq, Eq)]
pub struct UndoLog {
    base: Addr,
    bytes: [u8; LOG_BYTES],
    count: usize,
    used: usize,
}

impl Model for UndoLog {
    ghost use Rattle.undo_log.specs.Value.{Log, IsSound};

    ghost Value = { Log };

    ghost view = { λ a. record { base = a.base; bytes = a.bytes; count = a.count; used = a.used } };

    ghost invariant = { λ a. IsSound a.bytes a.count a.used };

    ghost inverse = { λ v. record { base = v.base; bytes = v.bytes; count = v.count; used = v.used } };
}

impl UndoLog {
    /// An empty log whose bytes, all 0, begin at this address.
    pub fn new(base: Addr) -> Self
        ensures { result ≡ empty_log base }
    {
        UndoLog {
            base,
            bytes: [0; LOG_BYTES],
            count: 0,
            used: 0,
        }
    }

    /// How many records it holds.
    #[tactic(auto, using(crate::proofs::Listed::counted))]
    pub fn len(&self) -> usize
        ensures count { result ≡ self.now.count }
        ensures records { result ≡ length (records self.now) }
        ensures within { result ≤ log_records }
    {
        self.count
    }

    pub fn is_empty(&self) -> bool
        ensures { IsTrue result ↔ (self.now.count ≡ 0) }
    {
        self.count == 0
    }

    pub fn is_full(&self) -> bool
        ensures full { IsTrue result ↔ (self.now.count ≡ log_records) }
        ensures within { self.now.count ≤ log_records }
    {
        self.count == LOG_RECORDS
    }

    /// Writes down a block as it is before a store.
    pub fn append(&mut self, block: BlockNo, before: &Block) -> Result<(), LogFull>
        requires address { block_bytes * block < 2 ^ 32 }
        ensures room { IsOk result ↔ (self.old.count < log_records) }
        ensures ok { OnOk result (self.new ≡ appended self.old (record { block = block; before = before.now })) }
        ensures records { let r : Record = record { block = block; before = before.now } in
            OnOk result (records self.new ≡ records self.old ++ r ∷ []) }
        ensures err { OnErr result (self.new ≡ self.old) }
    {
        if self.is_full() {
            return Err(LogFull);
        }
        self.push(&Record {
            block,
            before: *before,
        });
        Ok(())
    }

    /// The newest record.
    #[tactic(auto, using(crate::proofs::Listed::counted))]
    pub fn newest(&self) -> Record
        requires { 0 < self.now.count }
        ensures value { result ≡ newest_of self.now }
        ensures last { records self.now ≡ records (popped self.now) ++ result ∷ [] }
    {
        read_record(&self.bytes, RECORD_BYTES * (self.count - 1))
    }

    /// Takes the newest record off. Its bytes stay.
    #[tactic(auto, using(crate::proofs::Listed::counted))]
    pub fn pop(&mut self)
        requires { 0 < self.old.count }
        ensures value { self.new ≡ popped self.old }
        ensures records { records self.old ≡ records self.new ++ newest_of self.old ∷ [] }
    {
        self.count -= 1;
    }

    /// Takes all records off. Their bytes stay.
    pub fn reset(&mut self)
        ensures value { self.new ≡ cleared self.old }
        ensures records { records self.new ≡ [] }
    {
        self.count = 0;
    }

    /// Whether a record is of this block.
    pub fn holds(&self, block: BlockNo) -> bool
        ensures { result ≡ holds (records self.now) block }
    {
        self.oldest(block).is_some()
    }

    /// What the block held before its first record: the image in its oldest record, or what it holds now.
    pub fn restored(&self, block: BlockNo, now: Block) -> Block
        ensures { result ≡ restored (records self.now) block now }
    {
        match self.oldest(block) {
            Some(record) => record.before,
            None => now,
        }
    }

    /// The word at a multiple of 4 whose bytes lie in the log.
    pub fn word(&self, addr: Addr) -> Option<u32>
        ensures some { IsSome result ↔ ((addr % 4 ≡ 0) × (self.now.base ≤ addr) × (addr + 4 ≤ self.now.base + log_bytes)) }
        ensures value { IfSome result (λ word. word ≡ word_at self.now.bytes (addr - self.now.base)) }
    {
        let place = addr.index().checked_sub(self.base.index())?;
        if addr.index() % 4 == 0 && place + 4 <= LOG_BYTES {
            Some(read_word(&self.bytes, place))
        } else {
            None
        }
    }

    /// Writes a record at the pointer, and moves the pointer on.
    fn push(&mut self, image: &Record)
        requires room { self.old.count < log_records }
        requires address { block_bytes * image.now.block < 2 ^ 32 }
        ensures new { self.new ≡ appended self.old image.now }
        ensures size { length self.old.bytes ≡ log_bytes }
    {
        let pointer = RECORD_BYTES * self.count;
        self.bytes[pointer..pointer + RECORD_BYTES].copy_from_slice(&image.to_bytes());
        self.count += 1;
        self.used = self.used.max(self.count);
    }

    fn oldest(&self, block: BlockNo) -> Option<Record>
        ensures { result ≡ oldest (records self.now) block }
    {
        for k in 0..self.count {
            let record = read_record(&self.bytes, RECORD_BYTES * k);
            if record.block == block {
                return Some(record);
            }
        }
        None
    }

    /// Whether two logs are one: the same base, pointer and bytes, also above the pointer. Reads only what was ever written.
    pub fn same(&self, other: &Self) -> bool
        ensures { IsTrue result ↔ (self.now ≡ other.now) }
    {
        let end = RECORD_BYTES * self.used;
        self.base == other.base
            && self.count == other.count
            && self.used == other.used
            && self.bytes[..end] == other.bytes[..end]
    }

    /// Becomes a copy of another log. Copies only what either was ever written.
    pub fn assign(&mut self, other: &Self)
        ensures { self.new ≡ other.now }
    {
        let end = RECORD_BYTES * other.used;
        let most = RECORD_BYTES * self.used.max(other.used);
        self.bytes[..end].copy_from_slice(&other.bytes[..end]);
        self.bytes[end..most].fill(0);
        self.base = other.base;
        self.count = other.count;
        self.used = other.used;
    }
}
