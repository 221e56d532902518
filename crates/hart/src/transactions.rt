ghost use Rattle.std.specs.Prelude.{◌≡◌, ◌==◌, ◌<◌, ◌+◌, ◌-◌, ◌*◌, ◌^◌, ◌∷◌, false, not, cond, nat_le, length, Option, Some, None, is_none, unwrap_or, IsSome, IsTrue, IsFalse};
ghost use Rattle.std.specs.Option.{option_map};
ghost use Rattle.words.specs.Limits.{block_bytes, log_records};
ghost use Rattle.undo_log.specs.Log.{newest_of};
ghost use Rattle.transaction.specs.Transactions.{kept_stamp};
ghost use Rattle.protocol.specs.Hart.{Transaction, stamp_of, overflow_of};
ghost use Rattle.protocol.specs.Requests.{gives_way};
ghost use Rattle.protocol.specs.Evict.{tx_spilled};
ghost use Rattle.protocol.specs.HartMessages.{tx_refusing};
ghost use Rattle.hart.specs.Parts.{IsKept};
ghost use Rattle.hart.specs.Staying.{KeepsLog};
ghost use Rattle.hart.specs.Shown.{shown_tx, shown_log, shown_record, stamp_in, first_begun};

use transaction::{Restart, Tx};
use words::{AbortCause, Addr, Block, BlockNo, Regs, Stamp};

/// The stamp that a hart's requests and refusals carry.
pub(crate) fn stamp_of(tx: &Tx) -> Option<Stamp>
    requires { IsKept tx.now }
    ensures { result ≡ stamp_of (shown_tx tx.now) }
{
    tx.stamp()
}

/// Whether the running transaction has given up a marked line.
pub(crate) fn overflow_of(tx: &Tx) -> bool
    requires { IsKept tx.now }
    ensures { result ≡ overflow_of (shown_tx tx.now) }
{
    tx.overflow()
}

/// A line was given up, marked or not.
#[tactic(auto, using(crate::proofs::Bytes::kept_bytes))]
pub(crate) fn note_spill(tx: &mut Tx, marked: bool)
    requires { IsKept tx.old }
    ensures kept { IsKept tx.new }
    ensures shown { shown_tx tx.new ≡ option_map (tx_spilled marked) (shown_tx tx.old) }
    ensures stamp { kept_stamp tx.new ≡ kept_stamp tx.old }
    ensures keeps { KeepsLog tx.old tx.new }
{
    if marked && tx.depth() > 0 {
        tx.set_overflow();
    }
}

/// A request with this stamp was refused.
#[tactic(auto, using(crate::proofs::Bytes::kept_bytes))]
pub(crate) fn note_refusal(tx: &mut Tx, requester: Option<Stamp>)
    requires { IsKept tx.old }
    ensures kept { IsKept tx.new }
    ensures shown { shown_tx tx.new ≡ option_map (tx_refusing requester) (shown_tx tx.old) }
    ensures stamp { kept_stamp tx.new ≡ kept_stamp tx.old }
    ensures keeps { KeepsLog tx.old tx.new }
{
    if tx.depth() > 0 {
        tx.note_refusal(requester);
    }
}

/// A request of the hart was refused, by an earlier transaction or not: it aborts if it has refused an earlier one.
#[tactic(auto, using(crate::proofs::Bytes::kept_bytes))]
pub(crate) fn give_way(tx: &mut Tx, earlier_refused: bool)
    requires { IsKept tx.old }
    ensures kept { IsKept tx.new }
    ensures shown { shown_tx tx.new ≡ option_map (gives_way earlier_refused) (shown_tx tx.old) }
    ensures stamp { kept_stamp tx.new ≡ kept_stamp tx.old }
    ensures keeps { KeepsLog tx.old tx.new }
{
    if tx.must_abort(earlier_refused) {
        start_abort(tx, AbortCause::Conflict);
    }
}

/// The running transaction starts to be aborted, if there is one.
#[tactic(auto, using(crate::proofs::Bytes::kept_bytes))]
pub(crate) fn start_abort(tx: &mut Tx, cause: AbortCause)
    requires { IsKept tx.old }
    ensures kept { IsKept tx.new }
    ensures shown { shown_tx tx.new ≡ option_map (λ (t : Transaction). record t { aborting = Some cause }) (shown_tx tx.old) }
    ensures stamp { kept_stamp tx.new ≡ kept_stamp tx.old }
    ensures keeps { KeepsLog tx.old tx.new }
{
    // Outside a transaction there is nothing to abort.
    let _outside = tx.start_abort(cause);
}

/// A transaction begins, or goes one deeper. The answer is whether it takes the stamp.
#[tactic(auto, using(crate::proofs::Bytes::kept_bytes))]
pub(crate) fn begin(tx: &mut Tx, regs: &Regs, abort_pc: Addr, stamp: Stamp) -> bool
    requires kept { IsKept tx.old }
    requires aborting { tx.old.aborting ≡ None }
    requires room { tx.old.depth < 255 }
    ensures kept { IsKept tx.new }
    ensures outside { shown_tx tx.old ≡ None →
        (shown_tx tx.new ≡ Some (first_begun regs.now abort_pc (unwrap_or (kept_stamp tx.old) stamp)))
        × (kept_stamp tx.new ≡ None) × (result ≡ is_none (kept_stamp tx.old)) }
    ensures inside { (t : Transaction) → shown_tx tx.old ≡ Some t →
        (shown_tx tx.new ≡ Some (record t { depth = t.depth + 1 }))
        × (kept_stamp tx.new ≡ kept_stamp tx.old) × (result ≡ false) }
    ensures keeps { KeepsLog tx.old tx.new }
{
    tx.begin(regs, abort_pc, stamp).unwrap_or(false)
}

/// The innermost transaction ends. The answer is whether it is the outermost too. Outside a transaction nothing changes.
#[tactic(auto, using(crate::proofs::Bytes::kept_bytes))]
pub(crate) fn commit(tx: &mut Tx) -> bool
    requires kept { IsKept tx.old }
    requires aborting { tx.old.aborting ≡ None }
    ensures kept { IsKept tx.new }
    ensures outside { shown_tx tx.old ≡ None → (tx.new ≡ tx.old) × (result ≡ false) }
    ensures inside { (t : Transaction) → shown_tx tx.old ≡ Some t → (result ≡ (t.depth == 1))
        × (shown_tx tx.new ≡ cond (t.depth == 1) None (Some (record t { depth = t.depth - 1 }))) }
    ensures stamp { kept_stamp tx.new ≡ kept_stamp tx.old }
    ensures keeps { KeepsLog tx.old tx.new }
{
    tx.commit().is_ok() && tx.depth() == 0
}

/// An abort ends, whose log is undone.
#[tactic(auto, using(crate::proofs::Bytes::kept_bytes))]
pub(crate) fn end_abort(tx: &mut Tx) -> Restart
    requires kept { IsKept tx.old }
    requires aborting { IsSome tx.old.aborting }
    requires undone { tx.old.log.count ≡ 0 }
    ensures kept { IsKept tx.new }
    ensures shown { shown_tx tx.new ≡ None }
    ensures stamp { kept_stamp tx.new ≡ Some (stamp_in tx.old) }
    ensures regs { result.regs ≡ tx.old.checkpoint }
    ensures pc { result.pc ≡ tx.old.abort_pc }
    ensures cause { tx.old.aborting ≡ Some result.cause }
    ensures keeps { KeepsLog tx.old tx.new }
{
    tx.end_abort()
}

/// Takes the newest record off the log.
#[tactic(auto, using(crate::proofs::Bytes::kept_bytes))]
pub(crate) fn pop_record(tx: &mut Tx)
    requires kept { IsKept tx.old }
    requires some { 0 < tx.old.log.count }
    requires running { 0 < tx.old.depth }
    ensures kept { IsKept tx.new }
    ensures shown { (t : Transaction) → shown_tx tx.old ≡ Some t →
        shown_tx tx.new ≡ Some (record t { log = shown_log tx.new.log }) }
    ensures log { shown_log tx.old.log ≡ shown_record (newest_of tx.old.log) ∷ shown_log tx.new.log }
    ensures stamp { kept_stamp tx.new ≡ kept_stamp tx.old }
    ensures keeps { KeepsLog tx.old tx.new }
{
    tx.pop_record();
}

/// Appends a block to the log, as it is before a store. The answer is whether there was room.
#[inline(always)]
pub(crate) fn append_record(tx: &mut Tx, block: BlockNo, before: &Block) -> bool
    requires kept { IsKept tx.old }
    requires address { block_bytes * block < 2 ^ 32 }
    requires running { 0 < tx.old.depth }
    ensures kept { IsKept tx.new }
    ensures room { (t : Transaction) → shown_tx tx.old ≡ Some t → nat_le log_records (length t.log) ≡ not result }
    ensures ok { IsTrue result → (t : Transaction) → shown_tx tx.old ≡ Some t →
        shown_tx tx.new ≡ Some (record t { log = record { block = block; before = before.now } ∷ t.log }) }
    ensures full { IsFalse result → tx.new ≡ tx.old }
    ensures stamp { kept_stamp tx.new ≡ kept_stamp tx.old }
    ensures keeps { KeepsLog tx.old tx.new }
{
    if tx.log().is_full() {
        return false;
    }
    push_record(tx, block, before);
    true
}

/// Appends a block to the log, in which there is room.
#[tactic(auto, using(crate::proofs::Bytes::kept_bytes))]
#[inline(never)]
fn push_record(tx: &mut Tx, block: BlockNo, before: &Block)
    requires kept { IsKept tx.old }
    requires address { block_bytes * block < 2 ^ 32 }
    requires running { 0 < tx.old.depth }
    requires room { tx.old.log.count < log_records }
    ensures kept { IsKept tx.new }
    ensures shown { (t : Transaction) → shown_tx tx.old ≡ Some t →
        shown_tx tx.new ≡ Some (record t { log = record { block = block; before = before.now } ∷ t.log }) }
    ensures stamp { kept_stamp tx.new ≡ kept_stamp tx.old }
    ensures keeps { KeepsLog tx.old tx.new }
{
    match tx.append_record(block, before) {
        Ok(()) => {}
        Err(_) => unreachable!(),
    }
}
