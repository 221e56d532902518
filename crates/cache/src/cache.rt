ghost use Rattle.std.specs.Prelude.{◌≡◌, ◌≢◌, ◌<◌, ◌*◌, ◌/◌, ◌%◌, ◌^◌, ◌↔◌, ℕ, List, Option, Some, None, map, replicate, IsTrue, IsFalse, IsSome, IfSome, IsSomeAnd};
ghost use Rattle.std.specs.Option.{option_map};
ghost use Rattle.cache.specs.declared.line.Line.{Line};
ghost use Rattle.words.specs.declared.message.LineState.TheVariants.{Shared, Modified};
ghost use Rattle.words.specs.Bytes.{bytes_in};
ghost use Rattle.cache.specs.Bytes.{word_at};
ghost use Rattle.words.specs.Limits.{block_words};
ghost use Rattle.cache.specs.Line.{filled, marked_read, marked_written, in_state, stored, without_marks, put_into};
ghost use Rattle.cache.specs.Ways.{holds, is_free};
ghost use Rattle.cache.specs.Sets.{line_at, way_at, HasRoom, GoesFor, victim_at, SetsLine, FillsLine, ChangesLine, RemovesLine, StoresBytes, IsSound};

use crate::bytes::with_bytes;
use crate::line::Line;
use crate::occupied::Occupied;
use crate::sets::{assign_sets, clear_sets, same_sets};
use crate::ways::{
    Victim, free_way, has_line, line_of, mark_read, put_word, set_state, victim_of, way_of,
};
use std::array;
use std::marker::Model;
use words::{Addr, BLOCK_WORDS, Block, BlockNo, LineState, Marks, Width};

/// A cache of SETS sets of WAYS ways each. The set of a block is its number modulo SETS. It keeps which of its first 64 sets have a line at
/// all, so that what goes over all lines passes over the others.
#[derive(Clone, Copy, Debug)]
pub struct Cache<const SETS: usize, const WAYS: usize> {
    sets: [[Option<Line>; WAYS]; SETS],
    occupied: Occupied,
}

impl<const SETS: usize, const WAYS: usize> Model for Cache<SETS, WAYS> {
    ghost use Rattle.std.specs.Prelude.{List, Option};
    ghost use Rattle.cache.specs.declared.line.Line.{Line};
    ghost use Rattle.std.specs.Prelude.{◌≡◌, map};
    ghost use Rattle.std.proofs.Common.{sym};
    ghost use Rattle.cache.specs.Ways.{has_line};
    ghost use Rattle.cache.specs.Sets.{IsSound};
    ghost use Rattle.cache.specs.Occupied.{mask_of};

    ghost Value = { List (List (Option Line)) };

    ghost view = { λ c. c.sets };

    ghost invariant = { λ c. IsSound SETS WAYS c.sets × (c.occupied ≡ mask_of 64 (map has_line c.sets)) };

    ghost inverse = { λ v. record { sets = v; occupied = mask_of 64 (map has_line v) } };

    ghost inverse_ok = { λ c h. λ i. record { sets = c.sets; occupied = sym h.1 i } };
}

impl<const SETS: usize, const WAYS: usize> Cache<SETS, WAYS> {
    /// An empty cache.
    pub fn new() -> Self
        requires sets { 0 < SETS }
        requires ways { 0 < WAYS }
        requires size { SETS * WAYS < 2 ^ 32 }
        ensures ways { result ≡ replicate SETS (replicate WAYS None) }
        ensures empty { (b : ℕ) → line_at SETS result b ≡ None }
        ensures room { (b : ℕ) → HasRoom SETS result b }
    {
        Cache {
            sets: array::from_fn(
                |_| -> [Option<Line>; WAYS]
                    ensures { result ≡ replicate WAYS None }
                { [None; WAYS] },
            ),
            occupied: Occupied::none(),
        }
    }

    /// The line of a block, if there is one.
    #[tactic(auto, unfolding(crate::specs::Sets::line_at))]
    #[inline(always)]
    pub fn look(&self, block: BlockNo) -> Option<Line>
        ensures value { result ≡ line_at SETS self.now block }
        ensures block { IfSome result (λ line. line.block ≡ block) }
        ensures owned { IfSome result (λ line. IsTrue line.marks.written → line.state ≡ Modified) }
    {
        let sets = &self.sets[..];
        line_of(&sets[block.index() % SETS], block)
    }

    /// The way of its set in which a block's line stands, if there is one.
    #[tactic(auto, unfolding(crate::specs::Sets::way_at))]
    #[inline(always)]
    pub fn way(&self, block: BlockNo) -> Option<usize>
        ensures { result ≡ way_at SETS self.now block }
    {
        let sets = &self.sets[..];
        way_of(&sets[block.index() % SETS], block)
    }

    /// A block's line, in the way in which it stands.
    #[inline(always)]
    pub fn line_in(&self, block: BlockNo, way: usize) -> &Line
        requires { way_at SETS self.now block ≡ Some way }
        ensures value { line_at SETS self.now block ≡ Some result.now }
        ensures block { result.now.block ≡ block }
        ensures owned { IsTrue result.now.marks.written → result.now.state ≡ Modified }
    {
        let sets = &self.sets[..];
        let ways = &sets[block.index() % SETS];
        match &ways[way] {
            Some(line) => line,
            None => unreachable!(),
        }
    }

    /// Marks a block's line as read by the running transaction, in the way in which it stands.
    #[inline(always)]
    #[tactic(auto, unfolding(crate::specs::Sets::line_at, crate::specs::Sets::way_at))]
    pub fn mark_read_in(&mut self, block: BlockNo, way: usize)
        requires { way_at SETS self.old block ≡ Some way }
        ensures line { ChangesLine SETS self.old self.new block marked_read }
        ensures rooms { (b : ℕ) → HasRoom SETS self.old b → HasRoom SETS self.new b }
    {
        let sets = &mut self.sets[..];
        let ways = &mut sets[block.index() % SETS];
        mark_read(ways, way);
    }

    /// Puts a word into a block's line, in the way in which it stands, and makes it modified. It is marked as read by the running transaction, or as written,
    /// if these say so.
    #[inline(always)]
    #[tactic(auto, unfolding(crate::specs::Sets::line_at, crate::specs::Sets::way_at))]
    pub fn put_word_in(
        &mut self,
        block: BlockNo,
        way: usize,
        word: usize,
        value: u32,
        reads: bool,
        writes: bool,
    )
        requires way { way_at SETS self.old block ≡ Some way }
        requires word { word < block_words }
        ensures line { ChangesLine SETS self.old self.new block (put_into word value reads writes) }
        ensures rooms { (b : ℕ) → HasRoom SETS self.old b → HasRoom SETS self.new b }
    {
        let sets = &mut self.sets[..];
        let ways = &mut sets[block.index() % SETS];
        put_word(ways, way, word, value, reads, writes);
    }

    /// The word at an address, which is rounded down to a multiple of 4, if its block has a line.
    pub fn read_word(&self, addr: Addr) -> Option<u32>
        ensures { result ≡ option_map (λ line. word_at line.content addr) (line_at SETS self.now (addr / 32)) }
    {
        let line = self.look(addr.block())?;
        Some(line.content[addr.index() / 4 % BLOCK_WORDS])
    }

    /// Writes as many low bytes of `value` as the width has, lowest first. The other bytes of `value` don't count.
    pub fn write_bytes(&mut self, addr: Addr, width: Width, value: u32)
        requires modified { IsSomeAnd (line_at SETS self.old (addr / 32)) (λ line. line.state ≡ Modified) }
        requires aligned { addr % bytes_in width ≡ 0 }
        ensures line { ChangesLine SETS self.old self.new (addr / 32) (stored addr width value) }
        ensures bytes { StoresBytes SETS self.old self.new addr width value }
    {
        if let Some(line) = self.look(addr.block()) {
            let mut content = line.content;
            let word = addr.index() / 4 % BLOCK_WORDS;
            content[word] = with_bytes(content[word], addr.index() % 4, width, value);
            self.replace(Line { content, ..line });
        }
    }

    /// Marks a block's line as read by the running transaction.
    #[inline(always)]
    pub fn mark_read(&mut self, block: BlockNo)
        requires { IsSome (line_at SETS self.old block) }
        ensures line { ChangesLine SETS self.old self.new block marked_read }
        ensures rooms { (b : ℕ) → HasRoom SETS self.old b → HasRoom SETS self.new b }
    {
        if let Some(way) = self.way(block) {
            self.mark_read_in(block, way);
        }
    }

    /// Marks a block's line as written by the running transaction.
    pub fn mark_written(&mut self, block: BlockNo)
        requires { IsSomeAnd (line_at SETS self.old block) (λ line. line.state ≡ Modified) }
        ensures { ChangesLine SETS self.old self.new block marked_written }
    {
        if let Some(line) = self.look(block) {
            let marks = Marks {
                written: true,
                ..line.marks
            };
            self.replace(Line { marks, ..line });
        }
    }

    /// Makes a block's line modified, so that it may be stored to.
    #[inline(always)]
    pub fn promote(&mut self, block: BlockNo)
        requires { IsSome (line_at SETS self.old block) }
        ensures line { ChangesLine SETS self.old self.new block (in_state Modified) }
        ensures rooms { (b : ℕ) → HasRoom SETS self.old b → HasRoom SETS self.new b }
    {
        if let Some(way) = self.way(block) {
            self.set_state_in(block, way, LineState::Modified);
        }
    }

    /// Makes a block's line shared, so that it is only read. Its marks stay.
    #[inline(always)]
    pub fn downgrade(&mut self, block: BlockNo)
        requires { IsSomeAnd (line_at SETS self.old block) (λ line. IsFalse line.marks.written) }
        ensures line { ChangesLine SETS self.old self.new block (in_state Shared) }
        ensures rooms { (b : ℕ) → HasRoom SETS self.old b → HasRoom SETS self.new b }
    {
        if let Some(way) = self.way(block) {
            self.set_state_in(block, way, LineState::Shared);
        }
    }

    /// Gives a block's line another state, in the way in which it stands.
    #[inline(always)]
    #[tactic(auto, unfolding(crate::specs::Sets::line_at, crate::specs::Sets::way_at))]
    fn set_state_in(&mut self, block: BlockNo, way: usize, state: LineState)
        requires way { way_at SETS self.old block ≡ Some way }
        requires owned { IsSomeAnd (line_at SETS self.old block) (λ line. IsTrue line.marks.written → state ≡ Modified) }
        ensures line { ChangesLine SETS self.old self.new block (in_state state) }
        ensures rooms { (b : ℕ) → HasRoom SETS self.old b → HasRoom SETS self.new b }
    {
        let sets = &mut self.sets[..];
        let ways = &mut sets[block.index() % SETS];
        set_state(ways, way, state);
    }

    /// Puts a line in the place of the one that its block has.
    #[tactic(auto, unfolding(crate::specs::Sets::line_at))]
    #[inline(always)]
    pub fn replace(&mut self, line: Line)
        requires present { IsSome (line_at SETS self.old line.block) }
        requires owned { IsTrue line.marks.written → line.state ≡ Modified }
        ensures line { SetsLine (holds line.block) SETS self.old self.new line.block (Some line) }
        ensures rooms { (b : ℕ) → HasRoom SETS self.old b → HasRoom SETS self.new b }
    {
        let sets = &mut self.sets[..];
        let ways = &mut sets[line.block.index() % SETS];
        if let Some(way) = way_of(ways, line.block) {
            ways[way] = Some(line);
        }
    }

    /// Gives a block, which has no line, a line that is neither read nor written. `overflowed` says
    /// whether the running transaction has overflowed.
    #[tactic(auto, unfolding(crate::specs::Sets::HasRoom))]
    pub fn fill(&mut self, block: BlockNo, content: Block, state: LineState, overflowed: bool)
        requires absent { line_at SETS self.old block ≡ None }
        requires room { HasRoom SETS self.old block }
        ensures { FillsLine SETS self.old self.new block (filled block content state overflowed) }
    {
        let sets = &mut self.sets[..];
        let set = block.index() % SETS;
        let ways = &mut sets[set];
        if let Some(way) = free_way(ways) {
            ways[way] = Some(Line::filled(block, content, state, overflowed));
            self.occupied.update(set, true);
        }
    }

    /// Takes a block's line out, if there is one.
    #[tactic(auto, unfolding(crate::specs::Sets::line_at, crate::specs::Sets::with_first))]
    pub fn invalidate(&mut self, block: BlockNo)
        ensures line { RemovesLine SETS self.old self.new block }
        ensures room { IsSome (line_at SETS self.old block) → (b : ℕ) → b % SETS ≡ block % SETS → HasRoom SETS self.new b }
        ensures rooms { (b : ℕ) → HasRoom SETS self.old b → HasRoom SETS self.new b }
    {
        let sets = &mut self.sets[..];
        let set = block.index() % SETS;
        let ways = &mut sets[set];
        if let Some(way) = way_of(ways, block) {
            ways[way] = None;
            let sets = &self.sets[..];
            self.occupied.update(set, has_line(&sets[set]));
        }
    }

    /// Whether the block's set has a free way.
    #[tactic(auto, unfolding(crate::specs::Sets::HasRoom))]
    pub fn room(&self, block: BlockNo) -> bool
        ensures { IsTrue result ↔ HasRoom SETS self.now block }
    {
        let sets = &self.sets[..];
        free_way(&sets[block.index() % SETS]).is_some()
    }

    /// What has to go before the block can be filled.
    #[tactic(auto, unfolding(crate::specs::Sets::victim_at))]
    pub fn victim(&self, block: BlockNo) -> Victim
        ensures value { result ≡ victim_at SETS self.now block }
        ensures goes { GoesFor SETS self.now block result }
    {
        let sets = &self.sets[..];
        victim_of(&sets[block.index() % SETS])
    }

    /// What every cache keeps, as a fact that callers can use.
    pub fn keeps(&self)
        ensures { IsSound SETS WAYS self.now }
    {
        let _sets = &self.sets;
    }

    /// Takes all marks away, as at the end of a transaction.
    pub fn clear_marks(&mut self)
        ensures ways { self.new ≡ map (map (option_map without_marks)) self.old }
        ensures lines { (b : ℕ) → line_at SETS self.new b ≡ option_map without_marks (line_at SETS self.old b) }
    {
        clear_sets(&mut self.sets[..], &self.occupied);
    }

    /// Whether two caches have the same lines in the same ways. Reads only sets that have a line.
    pub fn same(&self, other: &Self) -> bool
        ensures { IsTrue result ↔ (self.now ≡ other.now) }
    {
        self.occupied == other.occupied
            && same_sets(&self.sets[..], &other.sets[..], &self.occupied)
    }

    /// Becomes a copy of another cache. Copies only sets in which either has a line.
    pub fn assign(&mut self, other: &Self)
        ensures { self.new ≡ other.now }
    {
        let either = self.occupied.union(&other.occupied);
        assign_sets(&mut self.sets[..], &other.sets[..], &either);
        self.occupied = other.occupied;
    }
}
