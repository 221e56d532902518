ghost use Rattle.std.specs.Prelude.{◌≡◌, ℕ, List, Option, Some, None, IsSomeAnd, IfSome, true, false};
ghost use Rattle.std.specs.Option.{option_map};
ghost use Rattle.cache.specs.Sets.{line_at};
ghost use Rattle.protocol.specs.Lines.{refuses, line_given, line_filled};
ghost use Rattle.protocol.specs.Hart.{Request as ProtocolRequest, quiet, with_line, overflow_of, stamp_of};
ghost use Rattle.protocol.specs.Requests.{granted_so_far, gives_way, grant_row, ack_row, nack_row};
ghost use Rattle.protocol.specs.HartMessages.{forward_row, tx_refusing, put_ack_row, content_held, reserved_given};

use crate::hart::Hart;
use crate::reply::{ForwardAnswer, Settled};
use crate::reservation::reserved_given;
use crate::transactions::{give_way, note_refusal};
use cache::Line;
use conflict::{
    Granted, content_back, earlier, have_answered, keep_ack, keep_grant, keep_nack, refuses,
};
use words::{Block, BlockNo, HartId, Kind, LineState, Stamp};

impl<const SETS: usize, const WAYS: usize> Hart<SETS, WAYS> {
    ghost use Rattle.hart.specs.Staying.{StaysPut};
    ghost use Rattle.hart.specs.Places.{KeepsWays};
    ghost use Rattle.conflict.specs.Requests.{shown_granted};
    ghost use Rattle.hart.specs.Shown.{shown_line, shown_tx, shown_hart};
    ghost use Rattle.hart.specs.Rows.{settled, answered};

    /// Another hart asks for a block. The hart refuses, or it shares the block's line or gives it up.
    #[inline(always)]
    pub fn on_forward(&mut self, block: BlockNo, kind: Kind, stamp: Option<Stamp>) -> ForwardAnswer
        ensures row { (output : List ℕ) (requester : ℕ) → forward_row self.old.index block kind requester stamp (shown_hart SETS output self.old)
            ≡ answered SETS output self.new requester block result }
        ensures ways { KeepsWays SETS self.old.cache self.new.cache }
        ensures stays { StaysPut self.old self.new }
    {
        let line = self.line(block);
        if self.refuses(&line, kind) {
            return ForwardAnswer::Nack(self.refuse(stamp));
        }
        let content = self.content_held(block, &line);
        self.give(block, &line, kind);
        ForwardAnswer::Ack(content)
    }

    /// Whether the hart keeps a block from others: by the marks of its line, or without a line if it has overflowed.
    #[inline(always)]
    fn refuses(&self, line: &Option<Line>, kind: Kind) -> bool
        ensures { result ≡ refuses (option_map shown_line line.now) (overflow_of (shown_tx self.now.tx)) kind }
    {
        let overflow = self.overflow();
        match line {
            Some(line) => refuses(Some(line.marks), overflow, kind),
            None => refuses(None, overflow, kind),
        }
    }

    /// Keeps a block from another hart, and answers the stamp of the transaction that does.
    fn refuse(&mut self, stamp: Option<Stamp>) -> Option<Stamp>
        ensures own { result ≡ stamp_of (shown_tx self.old.tx) }
        ensures hart { (output : List ℕ) → let h = shown_hart SETS output self.old in
            shown_hart SETS output self.new ≡ record h { tx = option_map (tx_refusing stamp) h.tx } }
        ensures cache { self.new.cache ≡ self.old.cache }
        ensures stays { StaysPut self.old self.new }
    {
        let own = self.stamp();
        note_refusal(&mut self.tx, stamp);
        own
    }

    /// The content of a block that memory may lack: of its line, if that is E or M, else of the Put that isn't over.
    #[inline(always)]
    fn content_held(&self, block: BlockNo, line: &Option<Line>) -> Option<Block>
        requires { line.now ≡ line_at SETS self.now.cache block }
        ensures { (output : List ℕ) → result ≡ content_held block (shown_hart SETS output self.now) }
    {
        match line {
            Some(line) if line.state.is_owned() => Some(line.content),
            _ => self.put_content(block),
        }
    }

    /// Shares a block's line, or gives it up, and a reservation of the block with it. Without a line only that is to be done.
    #[inline(always)]
    fn give(&mut self, block: BlockNo, line: &Option<Line>, kind: Kind)
        requires line { line.now ≡ line_at SETS self.old.cache block }
        requires block { IfSome line.now (λ line. line.block ≡ block) }
        requires meets { refuses (option_map shown_line line.now) (overflow_of (shown_tx self.old.tx)) kind ≡ false }
        ensures hart { (output : List ℕ) → let h = shown_hart SETS output self.old in
            shown_hart SETS output self.new ≡ with_line block (line_given kind (h.lines block)) (record h { reserved = reserved_given kind block h.reserved }) }
        ensures ways { KeepsWays SETS self.old.cache self.new.cache }
        ensures stays { StaysPut self.old self.new }
    {
        self.reserved = reserved_given(kind, block, self.reserved);
        if line.is_none() {
            return;
        }
        match kind {
            Kind::Read => self.cache.downgrade(block),
            Kind::Write => self.cache.invalidate(block),
        }
    }

    /// The hart's Put of a block is over.
    #[inline(always)]
    pub fn on_put_ack(&mut self, block: BlockNo)
        ensures row { (output : List ℕ) → put_ack_row block (shown_hart SETS output self.old)
            ≡ quiet (shown_hart SETS output self.new) }
        ensures cache { self.new.cache ≡ self.old.cache }
        ensures stays { StaysPut self.old self.new }
    {
        if let Some(put) = &self.put {
            if put.block == block {
                self.put = None;
            }
        }
    }

    /// The directory grants the request that is out for a block.
    #[inline(always)]
    pub fn on_grant(&mut self, block: BlockNo, granted: &Granted) -> Settled
        ensures row { (output : List ℕ) →
            grant_row self.old.harts self.old.index block (shown_granted granted.now) (shown_hart SETS output self.old)
            ≡ settled SETS output self.new result }
        ensures ways { KeepsWays SETS self.old.cache self.new.cache }
        ensures stays { StaysPut self.old self.new }
    {
        if !keep_grant(&mut self.request, block, granted) {
            return Settled::Waiting;
        }
        self.settle()
    }

    /// Another hart has given up a block for the request that is out.
    #[inline(always)]
    pub fn on_ack(&mut self, block: BlockNo, from: HartId, content: &Option<Block>) -> Settled
        ensures row { (output : List ℕ) →
            ack_row self.old.harts self.old.index block from content.now (shown_hart SETS output self.old)
            ≡ settled SETS output self.new result }
        ensures ways { KeepsWays SETS self.old.cache self.new.cache }
        ensures stays { StaysPut self.old self.new }
    {
        if !keep_ack(&mut self.request, block, from, content) {
            return Settled::Waiting;
        }
        self.settle()
    }

    /// Another hart refuses the request that is out for a block.
    #[inline(always)]
    pub fn on_nack(&mut self, block: BlockNo, from: HartId, stamp: Option<Stamp>) -> Settled
        ensures row { (output : List ℕ) →
            nack_row self.old.harts self.old.index block from stamp (shown_hart SETS output self.old)
            ≡ settled SETS output self.new result }
        ensures ways { KeepsWays SETS self.old.cache self.new.cache }
        ensures stays { StaysPut self.old self.new }
    {
        let is_earlier = earlier(stamp, self.stamp());
        if !keep_nack(&mut self.request, block, from, is_earlier) {
            return Settled::Waiting;
        }
        self.settle()
    }

    /// Ends the request that is out, which has got another answer, if that was the last one; else waits on.
    #[inline(always)]
    fn settle(&mut self) -> Settled
        ensures row { (output : List ℕ) (r : ProtocolRequest) → let h = shown_hart SETS output self.old in
            h.request ≡ Some r → granted_so_far self.old.harts self.old.index r r.grant h ≡ settled SETS output self.new result }
        ensures ways { KeepsWays SETS self.old.cache self.new.cache }
        ensures stays { StaysPut self.old self.new }
    {
        let Some(request) = &self.request else {
            return Settled::Waiting;
        };
        let Some(granted) = &request.grant else {
            return Settled::Waiting;
        };
        if !have_answered(&granted.expect, &request.answered, self.harts) {
            return Settled::Waiting;
        }
        let block = request.block;
        if request.refused {
            let earlier = request.earlier;
            self.end_refused(earlier);
            return Settled::Refused(block);
        }
        let give = granted.give;
        let content = request.content.unwrap_or(granted.content);
        let back = content_back(give, request.content);
        self.end_granted(block, give, &content);
        Settled::Granted(block, back)
    }

    /// The request that is out ends refused, by an earlier transaction or not: the hart is free to ask again, unless its transaction aborts now.
    fn end_refused(&mut self, earlier: bool)
        ensures hart { (output : List ℕ) → let h = shown_hart SETS output self.old in
            shown_hart SETS output self.new ≡ record h { request = None; tx = option_map (gives_way earlier) h.tx } }
        ensures cache { self.new.cache ≡ self.old.cache }
        ensures stays { StaysPut self.old self.new }
    {
        self.request = None;
        give_way(&mut self.tx, earlier);
    }

    /// The request for a block ends granted, and the hart is fresh: the block's line gets this content.
    #[inline(always)]
    fn end_granted(&mut self, block: BlockNo, give: LineState, content: &Block)
        requires { IsSomeAnd self.old.request (λ old. block ≡ old.block) }
        ensures hart { (output : List ℕ) → let h = shown_hart SETS output self.old in
            shown_hart SETS output self.new
            ≡ with_line block (Some (line_filled give (overflow_of h.tx) content.now (h.lines block))) (record h { request = None; fresh = true }) }
        ensures ways { KeepsWays SETS self.old.cache self.new.cache }
        ensures stays { StaysPut self.old self.new }
    {
        self.receive(block, give, content);
        self.request = None;
        self.fresh = true;
    }

    /// The block that the hart waits for is given: an absent line is filled, and one that is there may be written from now on, if
    /// M is given.
    #[inline(never)]
    fn receive(&mut self, block: BlockNo, give: LineState, content: &Block)
        requires { IsSomeAnd self.old.request (λ old. block ≡ old.block) }
        ensures hart { (output : List ℕ) → let h = shown_hart SETS output self.old in
            shown_hart SETS output self.new ≡ with_line block
            (Some (line_filled give (overflow_of h.tx) content.now (h.lines block))) h }
        ensures ways { KeepsWays SETS self.old.cache self.new.cache }
        ensures stays { StaysPut self.old self.new }
    {
        if self.line(block).is_none() {
            let overflowed = self.overflow();
            self.cache.fill(block, *content, give, overflowed);
            return;
        }
        match give {
            LineState::Modified => self.cache.promote(block),
            LineState::Shared | LineState::Exclusive => {}
        }
    }
}
