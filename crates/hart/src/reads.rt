ghost use Rattle.std.specs.Prelude.{◌≡◌, ◌↔◌, ◌≤◌, ◌+◌, ◌-◌, ◌%◌, ℕ, Option, IsTrue, IsSome, IfSome};
ghost use Rattle.std.specs.Option.{option_map};
ghost use Rattle.words.specs.Limits.{log_bytes};
ghost use Rattle.words.specs.declared.message.LineState.TheVariants.{Modified};
ghost use Rattle.cache.specs.Sets.{line_at};
ghost use Rattle.undo_log.specs.Bytes.{word_at};
ghost use Rattle.transaction.specs.Transactions.{kept_stamp};
ghost use Rattle.protocol.specs.Lines.{owned_content};
ghost use Rattle.protocol.specs.Hart.{stamp_of, overflow_of, log_of, put_content};
ghost use Rattle.protocol.specs.Values.{kept_content, restored, is_logged};

use crate::hart::Hart;
use crate::transactions::{overflow_of, stamp_of};
use cache::Line;
use conflict::{PutOut, Request, same_put, same_request};
use transaction::Tx;
use words::{Addr, Block, BlockNo, HartId, Regs, Stamp, Status};

/// What can be read of a hart.
impl<const SETS: usize, const WAYS: usize> Hart<SETS, WAYS> {
    ghost use Rattle.conflict.specs.Requests.{shown_request, shown_put};
    ghost use Rattle.hart.specs.Shown.{shown_tx, lines_of};

    pub fn index(&self) -> HartId
        ensures { result ≡ self.now.index }
    {
        self.index
    }

    pub fn registers(&self) -> &Regs
        ensures { result.now ≡ self.now.regs }
    {
        &self.regs
    }

    pub fn pc(&self) -> Addr
        ensures { result ≡ self.now.pc }
    {
        self.pc
    }

    #[inline(always)]
    pub fn status(&self) -> Status
        ensures { result ≡ self.now.status }
    {
        self.status
    }

    /// The transaction, with its undo log. Outside a transaction its depth is 0.
    pub fn transaction(&self) -> &Tx
        ensures { result.now ≡ self.now.tx }
    {
        &self.tx
    }

    /// The stamp that an abort has left for the next transaction.
    pub fn kept_stamp(&self) -> Option<Stamp>
        ensures { result ≡ kept_stamp self.now.tx }
    {
        self.tx.kept_stamp()
    }

    /// The stamp that the hart's requests and refusals carry.
    pub fn stamp(&self) -> Option<Stamp>
        ensures { result ≡ stamp_of (shown_tx self.now.tx) }
    {
        stamp_of(&self.tx)
    }

    /// Whether the running transaction has given up a marked line.
    pub(crate) fn overflow(&self) -> bool
        ensures { result ≡ overflow_of (shown_tx self.now.tx) }
    {
        overflow_of(&self.tx)
    }

    /// The line of a block.
    #[inline(always)]
    pub fn line(&self, block: BlockNo) -> Option<Line>
        ensures value { result ≡ line_at SETS self.now.cache block }
        ensures block { IfSome result (λ line. line.block ≡ block) }
        ensures owned { IfSome result (λ line. IsTrue line.marks.written → line.state ≡ Modified) }
    {
        self.cache.look(block)
    }

    /// The request that is out, and what is kept of its answers.
    pub fn request(&self) -> Option<Request>
        ensures { result ≡ self.now.request }
    {
        self.request
    }

    /// The Put that isn't over.
    pub fn put(&self) -> Option<PutOut>
        ensures { result ≡ self.now.put }
    {
        self.put
    }

    /// Whether a request was granted, and the core has made no step since.
    #[inline(always)]
    pub fn is_fresh(&self) -> bool
        ensures { result ≡ self.now.fresh }
    {
        self.fresh
    }

    /// The block that LR has reserved.
    pub fn reserved(&self) -> Option<BlockNo>
        ensures { result ≡ self.now.reserved }
    {
        self.reserved
    }

    /// The content of a block's E or M line.
    pub fn owned_content(&self, block: BlockNo) -> Option<Block>
        ensures { result ≡ owned_content (lines_of SETS self.now.cache block) }
    {
        let line = self.cache.look(block)?;
        if line.state.is_owned() {
            Some(line.content)
        } else {
            None
        }
    }

    /// The content that an answer to the request for a block has brought.
    pub fn kept_content(&self, block: BlockNo) -> Option<Block>
        ensures { result ≡ kept_content block (option_map shown_request self.now.request) }
    {
        let request = &self.request?;
        if request.block == block {
            request.content
        } else {
            None
        }
    }

    /// The content of the Put of a block that isn't over.
    #[inline(always)]
    pub fn put_content(&self, block: BlockNo) -> Option<Block>
        ensures { result ≡ put_content block (option_map shown_put self.now.put) }
    {
        let put = &self.put?;
        if put.block == block {
            Some(put.content)
        } else {
            None
        }
    }

    /// What a block held before the running transaction first stored to it: the words of its oldest record, or those that it holds
    /// now.
    pub fn restored(&self, block: BlockNo, now: Block) -> Block
        ensures { result ≡ restored (log_of (shown_tx self.now.tx)) block now }
    {
        self.tx.log().restored(block, now)
    }

    /// Whether the undo log has a record of the block.
    pub fn is_logged(&self, block: BlockNo) -> bool
        ensures { result ≡ is_logged (log_of (shown_tx self.now.tx)) block }
    {
        self.tx.log().holds(block)
    }

    /// The word at a multiple of 4 whose bytes lie in the hart's undo log.
    pub fn log_word(&self, addr: Addr) -> Option<u32>
        ensures some { IsSome result ↔ ((addr % 4 ≡ 0) × (self.now.tx.log.base ≤ addr)
            × (addr + 4 ≤ self.now.tx.log.base + log_bytes)) }
        ensures value { IfSome result (λ word. word ≡ word_at self.now.tx.log.bytes (addr - self.now.tx.log.base)) }
    {
        self.tx.log().word(addr)
    }

    /// Whether two harts are one in all that they keep, the bytes of their logs and the ways of their caches included.
    pub fn same(&self, other: &Self) -> bool
        ensures { IsTrue result ↔ (self.now ≡ other.now) }
    {
        self.index == other.index
            && self.harts == other.harts
            && self.size == other.size
            && self.pc == other.pc
            && self.status == other.status
            && self.fresh == other.fresh
            && self.reserved == other.reserved
            && same_request(&self.request, &other.request)
            && same_put(&self.put, &other.put)
            && same_values(self.regs.values(), other.regs.values())
            && self.tx.same(&other.tx)
            && self.cache.same(&other.cache)
    }
}

/// Whether two harts have the same values in their registers. It looks at all of them, so that a processor can compare several at once.
fn same_values(a: &[u32; 32], b: &[u32; 32]) -> bool
    ensures { IsTrue result ↔ (a.now ≡ b.now) }
{
    let mut same = true;
    for number in 0..a.len() {
        same &= a[number] == b[number];
    }
    same
}
