//! Whether a hart has a step to make, found without making it.
ghost use Rattle.std.specs.Prelude.{◌≡◌, ◌/◌, ℕ, List, Option, Some, None, IfSome, IfNone, IsSome, is_some};
ghost use Rattle.table.specs.Program.{Segment};
ghost use Rattle.table.specs.declared.effect.Effect.{Effect as EffectValue};
ghost use Rattle.protocol.specs.Caches.{Geometry, MayName};
ghost use Rattle.protocol.specs.Core.{abort_move, access_move, core_row, effect_move, fetch_row, move_row, tx_move};
ghost use Rattle.protocol.specs.Evict.{evict_row};
ghost use Rattle.protocol.specs.Hart.{Transaction};
ghost use Rattle.words.specs.declared.cause.AbortCause.{AbortCause};
ghost use Rattle.words.specs.declared.message.Kind.{Kind as KindValue};

use crate::access::is_enough;
use crate::hart::Hart;
use crate::step::is_running;
use cache::Victim;
use table::{Act, MemoryAct, Text};
use words::BlockNo;

impl<const SETS: usize, const WAYS: usize> Hart<SETS, WAYS> {
    ghost use Rattle.hart.specs.Shown.{shown_hart, shown_tx, lines_of};
    ghost use Rattle.hart.specs.Rows.{setting_of, victim_of};

    /// Whether the core has a step to make, as [`Hart::has_step`] says, where that is known without a look at its words: it hasn't, where the hart has
    /// stopped or waits; and else it has, where no Put is out.
    #[inline(always)]
    pub fn glance(&self) -> Option<bool>
        ensures row { IfSome result (λ known. (segments : List Segment) (output : List ℕ) (taken : ℕ) →
            known ≡ is_some (core_row (setting_of segments self.now) self.now.index taken (victim_of SETS self.now.cache) (shown_hart SETS output self.now))) }
        ensures none { IfNone result (IsSome self.now.put) }
        ensures victim { (b : ℕ) → let geometry : Geometry = record { sets = SETS; ways = WAYS } in
            MayName geometry (lines_of SETS self.now.cache) b (victim_of SETS self.now.cache b) }
    {
        self.keeps_victims();
        if !is_running(self.status) || self.request.is_some() {
            return Some(false);
        }
        if self.put.is_none() { Some(true) } else { None }
    }

    /// Whether the core has a step to make: whether [`Hart::core_step`] would give one, however many stamps were taken.
    #[inline(never)]
    pub fn has_step(&self, text: &Text) -> bool
        ensures row { (output : List ℕ) (taken : ℕ) → let setting = setting_of text.now.segments.now self.now in
            result ≡ is_some (core_row setting self.now.index taken (victim_of SETS self.now.cache) (shown_hart SETS output self.now)) }
        ensures victim { (b : ℕ) → let geometry : Geometry = record { sets = SETS; ways = WAYS } in
            MayName geometry (lines_of SETS self.now.cache) b (victim_of SETS self.now.cache b) }
    {
        self.keeps_victims();
        is_running(self.status) && self.request.is_none() && self.can_go_on(text)
    }

    /// Whether a hart that doesn't wait can undo its newest record, or end its abort, or do what its next word asks for.
    fn can_go_on(&self, text: &Text) -> bool
        requires { self.now.request ≡ None }
        ensures { (output : List ℕ) (taken : ℕ) → let h = shown_hart SETS output self.now in
            let setting = setting_of text.now.segments.now self.now in
            result ≡ is_some (move_row self.now.index (victim_of SETS self.now.cache) (tx_move setting self.now.index taken h.tx h) h) }
    {
        if self.tx.aborting().is_some() {
            return self.can_abort_on();
        }
        match self.instruction(text) {
            Ok(next) => self.can_perform(&next.effect.act),
            Err(_) => true,
        }
    }

    /// Whether a hart that is being aborted can undo its newest record, or end the abort.
    fn can_abort_on(&self) -> bool
        ensures { (output : List ℕ) (cause : AbortCause) (t : Transaction) → shown_tx self.now.tx ≡ Some t →
            let h = shown_hart SETS output self.now in
            result ≡ is_some (move_row self.now.index (victim_of SETS self.now.cache) (abort_move self.now.index cause t t.log h) h) }
    {
        if self.tx.log().is_empty() {
            return true;
        }
        let block = self.tx.log().newest().block;
        match self.owned_line(block) {
            Some(_) => true,
            None => self.can_fetch(block),
        }
    }

    /// Whether a word can do what it does.
    fn can_perform(&self, act: &Act) -> bool
        ensures { (output : List ℕ) (taken : ℕ) (word : ℕ) (effect : EffectValue) → let h = shown_hart SETS output self.now in
            result ≡ is_some (move_row self.now.index (victim_of SETS self.now.cache) (effect_move self.now.index taken word effect act.now h) h) }
    {
        match act {
            Act::Memory(m) => self.can_access(m),
            // Without the reservation it fails at once.
            Act::Conditional(_, m) => !self.has_reserved(m.addr.block()) || self.can_access(m),
            _ => true,
        }
    }

    /// Whether an access can be made, or its block be asked for.
    fn can_access(&self, m: &MemoryAct) -> bool
        ensures { (output : List ℕ) (word : ℕ) (effect : EffectValue) (kept : Option ℕ) → let h = shown_hart SETS output self.now in
            let move = access_move self.now.index word effect m.now kept (lines_of SETS self.now.cache (m.now.addr / 32)) h in
            result ≡ is_some (move_row self.now.index (victim_of SETS self.now.cache) move h) }
    {
        let block = m.addr.block();
        match self.line(block) {
            Some(line) if is_enough(m, &line) => true,
            _ => self.can_fetch(block),
        }
    }

    /// Whether a block can be asked for, or a line be given up for it.
    fn can_fetch(&self, block: BlockNo) -> bool
        ensures { (output : List ℕ) (kind : KindValue) →
            result ≡ is_some (fetch_row self.now.index (victim_of SETS self.now.cache) kind block (shown_hart SETS output self.now)) }
    {
        if self.put_content(block).is_some() {
            return false;
        }
        if self.line(block).is_some() {
            return true;
        }
        match self.cache.victim(block) {
            Victim::Free => true,
            Victim::Drop(line) | Victim::WriteBack(line) => self.can_evict(line.block),
        }
    }

    /// Whether there is a line of a block that can be given up: a shared one, or any while no Put is out.
    pub fn can_evict(&self, block: BlockNo) -> bool
        ensures { (output : List ℕ) → result ≡ is_some (evict_row self.now.index block (shown_hart SETS output self.now)) }
    {
        match self.line(block) {
            Some(line) => !line.state.is_owned() || self.put.is_none(),
            None => false,
        }
    }
}
