ghost use Rattle.std.specs.Prelude.{IsTrue, IsFalse, ◌≡◌, ◌≢◌, ◌<◌, ◌≤◌, ◌↔◌, ℕ, [], None, is_some, length, vec_len, Some, false, OnOk, OnErr, IfOk, IfSome, IsSome, unwrap_or};
ghost use Rattle.std.specs.List.{slice_index_or};
ghost use Rattle.std.specs.Option.{option_map};
ghost use Rattle.words.specs.Harts.{names};
ghost use Rattle.words.specs.Limits.{most_harts};
ghost use Rattle.protocol.specs.Messages.{shown, block_of, Get, Put};
ghost use Rattle.protocol.specs.Directory.{first_entry, done_of};
ghost use Rattle.directory.specs.Entries.{shown_busy, shown_entry, NamesBelow};
ghost use Rattle.directory.specs.Blocks.{kept_at, entry_at, memory_at, row_of, sender_of, SetsBlock, Follows, Answers, answer_to, IsInOrder, IsGet, KeepsUsed};
ghost use Rattle.directory.specs.declared.received.Answer.TheVariants.{Acknowledged};
ghost use Rattle.directory.specs.Sends.{messages_in, messages_of};

use crate::entry::{Busy, DirEntry, Owner};
use crate::received::{Answer, Given, Received, Sends, sends_of};
use crate::rules::{Request, expected, given, granted, is_owned_by, words_back};
use std::alloc::{AllocError, Global};
use std::collections::BTreeMap;
use std::marker::Model;
use words::{Block, BlockNo, HartId, Message};

/// The most blocks that memory has: 4 MiB.
pub const BLOCKS: usize = 131_072;

/// What the directory knows of each block, and the words of memory. An entry is kept for just those blocks whose entry isn't the
/// first one, so the memory that it takes grows with the blocks in use.
#[derive(Drop)]
pub struct Directory {
    harts: usize,
    entries: BTreeMap<u32, DirEntry>,
    memory: Vec<Block>,
}

impl Model for Directory {
    ghost use Rattle.directory.specs.Blocks.{Blocks, IsSound};

    ghost Value = { Blocks };

    ghost view = { λ d. record { harts = d.harts; kept = d.entries.entries; memory = d.memory.items } };

    ghost invariant = { λ d. IsSound (record { harts = d.harts; kept = d.entries.entries; memory = d.memory.items }) };
}

impl Directory {
    /// The directory of a machine of so many harts, none of which holds a block. It takes no memory of its own.
    pub fn new(alloc: Global, memory: Vec<Block>, harts: usize) -> Self
        requires blocks { vec_len memory ≤ 131072 }
        requires some { 0 < harts }
        requires few { harts ≤ most_harts }
        ensures harts { result.harts ≡ harts }
        ensures entries { result.kept ≡ [] }
        ensures memory { result.memory ≡ memory.items }
    {
        Directory {
            harts,
            entries: BTreeMap::new(alloc),
            memory,
        }
    }

    /// What the directory knows of a block.
    #[inline(always)]
    pub fn entry(&self, block: BlockNo) -> DirEntry
        ensures value { shown_entry result ≡ entry_at self.now block }
        ensures named { NamesBelow self.now.harts (shown_entry result) }
    {
        match self.entries.get(&block.number()) {
            Some(entry) => *entry,
            None => DirEntry::first(),
        }
    }

    /// Whether a block is busy with a request.
    #[inline(always)]
    pub fn is_busy(&self, block: BlockNo) -> bool
        ensures { result ≡ is_some (entry_at self.now block).busy }
    {
        match self.entries.get(&block.number()) {
            Some(entry) => entry.busy.is_some(),
            None => false,
        }
    }

    /// The words of a block in memory. An owner may have newer ones.
    pub fn memory(&self, block: BlockNo) -> Block
        requires { block < length self.now.memory }
        ensures { result ≡ memory_at self.now block }
    {
        self.memory[block.index()]
    }

    /// How many entries are kept.
    pub fn used(&self) -> usize
        ensures count { result ≡ length self.now.kept }
        ensures order { IsInOrder self.now }
        ensures exact { (b : ℕ) → IsSome (kept_at self.now b) ↔ (entry_at self.now b ≢ first_entry) }
    {
        self.entries.len()
    }

    /// The entries that are kept, by the numbers of their blocks.
    pub fn kept(&self) -> &BTreeMap<u32, DirEntry>
        ensures entries { result.now.entries ≡ self.now.kept }
        ensures exact { (b : ℕ) → IsSome (kept_at self.now b) ↔ (entry_at self.now b ≢ first_entry) }
    {
        &self.entries
    }

    /// How many harts the machine has.
    pub fn harts(&self) -> usize
        ensures value { result ≡ self.now.harts }
        ensures some { 0 < result }
        ensures bound { result ≤ most_harts }
    {
        self.harts
    }

    /// How many blocks memory has.
    pub fn blocks(&self) -> usize
        ensures value { result ≡ length self.now.memory }
        ensures bound { result ≤ 131072 }
    {
        self.memory.len()
    }

    /// Does what the protocol's row for the message says. A message that isn't for the directory changes nothing. It fails only if
    /// memory runs out, at a request for a block that has no entry yet.
    pub fn receive(&mut self, message: Message) -> Result<Received, AllocError>
        requires block { block_of (shown message) < length self.old.memory }
        requires hart { IfSome (sender_of (shown message)) (λ h. h < self.old.harts) }
        ensures ok { let row = row_of self.old (shown message) in
            IfOk result (λ received. Follows received row (block_of (shown message)) self.old self.new) }
        ensures err { OnErr result (self.new ≡ self.old) }
        ensures request { OnErr result (IsGet (shown message)) }
        ensures absent { OnErr result (kept_at self.old (block_of (shown message)) ≡ None) }
        ensures kept { KeepsUsed self.new }
    {
        match &message {
            Message::Get {
                from,
                block,
                kind,
                stamp,
            } => {
                let request = Request {
                    requester: *from,
                    block: *block,
                    kind: *kind,
                    stamp: *stamp,
                };
                return Ok(match self.get(&request)? {
                    Some(given) => Received::Sent(self.grant(&request, &given)),
                    None => Received::Held,
                });
            }
            Message::Put {
                from,
                block,
                content,
                marked,
            } => {
                return Ok(if self.put(*from, *block, content, *marked) {
                    Received::Sent(self.acknowledge(*from, *block))
                } else {
                    Received::Held
                });
            }
            Message::Done {
                from,
                block,
                ok,
                content,
            } => self.done(*from, *block, *ok, content),
            _ => self.keeps_used(),
        }
        Ok(Received::Sent(Sends::new()))
    }

    /// A hart asks for a block. `None` where the request has to wait, as the block is busy. It fails only if memory runs out, where
    /// the block has no entry yet.
    #[inline(always)]
    pub fn get(&mut self, request: &Request) -> Result<Option<Given>, AllocError>
        requires block { request.now.block < length self.old.memory }
        requires hart { request.now.requester < self.old.harts }
        ensures ok { let row = row_of self.old (Get request.now.requester request.now.block request.now.kind request.now.stamp) in
            IfOk result (λ given. Answers (option_map (answer_to self.old request.now) given) row request.now.block self.old self.new) }
        ensures harts { self.new.harts ≡ self.old.harts }
        ensures memory { self.new.memory ≡ self.old.memory }
        ensures others { IfOk result (λ given. IfSome given (λ g. names g.expect request.now.requester ≡ false)) }
        ensures err { OnErr result (self.new ≡ self.old) }
        ensures absent { OnErr result (kept_at self.old request.now.block ≡ None) }
        ensures kept { KeepsUsed self.new }
    {
        let requester = request.requester;
        if let Some(kept) = self.entries.get_mut(&request.block.number()) {
            if kept.busy.is_some() {
                self.keeps_used();
                return Ok(None);
            }
            let give = given(kept, requester, request.kind, self.harts);
            let expect = expected(kept, requester, request.kind);
            *kept = DirEntry {
                busy: Some(Busy { requester, give }),
                ..*kept
            };
            self.keeps_used();
            return Ok(Some(Given { give, expect }));
        }
        let first = DirEntry::first();
        let give = given(&first, requester, request.kind, self.harts);
        let expect = expected(&first, requester, request.kind);
        let occupied = self.occupy(request.block, Busy { requester, give });
        self.keeps_used();
        occupied?;
        Ok(Some(Given { give, expect }))
    }

    /// A hart gives up a block: its content becomes memory's if the hart is the owner. It is acknowledged; the answer is false, and nothing changes, where
    /// it has to wait, as the block is busy.
    #[inline(always)]
    pub fn put(&mut self, from: HartId, block: BlockNo, content: &Block, marked: bool) -> bool
        requires block { block < length self.old.memory }
        requires hart { from < self.old.harts }
        ensures served { IsTrue result → Answers (Some (Acknowledged from block)) (row_of self.old (Put from block content.now marked)) block self.old self.new }
        ensures held { IsFalse result → Answers None (row_of self.old (Put from block content.now marked)) block self.old self.new }
        ensures harts { self.new.harts ≡ self.old.harts }
        ensures kept { KeepsUsed self.new }
    {
        let mut entry = self.entry(block);
        if entry.busy.is_some() {
            self.keeps_used();
            return false;
        }
        if is_owned_by(&entry, from) {
            entry.owner = if marked {
                Owner::Sticky(from)
            } else {
                Owner::Nobody
            };
            self.replace(block, entry);
            self.memory[block.index()] = *content;
        }
        self.keeps_used();
        true
    }

    /// A request is over: it was granted (`ok`) or refused. A Done from a hart whose request the block isn't busy with changes nothing.
    #[inline(always)]
    pub fn done(&mut self, from: HartId, block: BlockNo, ok: bool, content: &Option<Block>)
        requires block { block < length self.old.memory }
        requires hart { from < self.old.harts }
        ensures set { let served = done_of (entry_at self.old block).busy from ok content.now (entry_at self.old block) (memory_at self.old block) in
            SetsBlock self.old self.new block served.entry served.memory }
        ensures kept { KeepsUsed self.new }
    {
        let Some(kept) = self.entries.get_mut(&block.number()) else {
            self.keeps_used();
            return;
        };
        if let Some(give) = kept.given_to(from) {
            if ok {
                take_words(&mut self.memory, block, &words_back(kept, give, content));
                *kept = granted(kept, from, give);
            } else {
                let ended = kept.ended();
                if ended.is_first(self.harts) {
                    self.entries.remove(&block.number());
                } else {
                    *kept = ended;
                }
            }
        }
        self.keeps_used();
    }

    /// The messages that a request is answered with, by what it is given.
    fn grant(&self, request: &Request, given: &Given) -> Sends
        requires block { request.now.block < length self.now.memory }
        requires others { names given.now.expect request.now.requester ≡ false }
        ensures { messages_of result ≡ messages_in self.now.harts (answer_to self.now request.now given.now) }
    {
        let answer = Answer::Granted {
            to: request.requester,
            block: request.block,
            kind: request.kind,
            stamp: request.stamp,
            give: given.give,
            content: self.memory(request.block),
            expect: given.expect,
        };
        sends_of(&answer, self.harts)
    }

    /// The acknowledgement of a Put.
    fn acknowledge(&self, to: HartId, block: BlockNo) -> Sends
        ensures { messages_of result ≡ messages_in self.now.harts (Acknowledged to block) }
    {
        sends_of(&Answer::Acknowledged { to, block }, self.harts)
    }

    /// Makes a block that nobody has asked for busy with a request.
    #[inline(always)]
    fn occupy(&mut self, block: BlockNo, busy: Busy) -> Result<(), AllocError>
        requires inside { block < length self.old.memory }
        requires hart { busy.requester < self.old.harts }
        ensures ok { let occupied = record first_entry { busy = Some (shown_busy busy) } in
            OnOk result (SetsBlock self.old self.new block occupied (memory_at self.old block)) }
        ensures memory { self.new.memory ≡ self.old.memory }
        ensures err { OnErr result (self.new ≡ self.old) }
    {
        let occupied = DirEntry {
            busy: Some(busy),
            ..DirEntry::first()
        };
        self.entries.insert(block.number(), occupied)?;
        Ok(())
    }

    /// Puts an entry in the place of the one that a block has, and keeps it unless it is the first one again.
    #[inline(always)]
    fn replace(&mut self, block: BlockNo, entry: DirEntry)
        requires present { IsSome (kept_at self.old block) }
        requires named { NamesBelow self.old.harts (shown_entry entry) }
        ensures { SetsBlock self.old self.new block (shown_entry entry) (memory_at self.old block) }
    {
        let number = block.number();
        if entry.is_first(self.harts) {
            self.entries.remove(&number);
        } else if let Some(kept) = self.entries.get_mut(&number) {
            *kept = entry;
        }
    }

    /// Just the entries in use are kept: a fact for proofs, for which nothing is done.
    #[inline(always)]
    fn keeps_used(&self)
        ensures { KeepsUsed self.now }
    {
        let _used = self.used();
    }
}

/// Memory gets the words of a block, if there are any.
#[inline(always)]
fn take_words(memory: &mut Vec<Block>, block: BlockNo, words: &Option<Block>)
    requires { block < vec_len memory.old }
    ensures this { slice_index_or memory.new.items block [] ≡ unwrap_or words.now (slice_index_or memory.old.items block []) }
    ensures others { (b : ℕ) → b ≢ block → slice_index_or memory.new.items b [] ≡ slice_index_or memory.old.items b [] }
    ensures size { length memory.new.items ≡ length memory.old.items }
{
    if let Some(words) = words {
        memory[block.index()] = *words;
    }
}
