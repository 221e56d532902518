ghost use Rattle.std.specs.Prelude.{◌≡◌, ℕ, List, Option, Some, None, IfNone, IfSome};
ghost use Rattle.std.specs.Option.{option_map};
ghost use Rattle.cache.specs.Sets.{line_at};
ghost use Rattle.protocol.specs.Evict.{evict_row, without_line, drop_row, write_back_row, spill_of};

use crate::hart::Hart;
use crate::reply::Reply;
use crate::reservation::without_block;
use crate::transactions::note_spill;
use cache::Line;
use conflict::PutOut;
use words::{BlockNo, Entry, Message};

impl<const SETS: usize, const WAYS: usize> Hart<SETS, WAYS> {
    ghost use Rattle.hart.specs.Staying.{StaysPut};
    ghost use Rattle.hart.specs.Places.{KeepsWays};
    ghost use Rattle.hart.specs.Shown.{shown_line, shown_hart};
    ghost use Rattle.hart.specs.Rows.{replied};

    /// Gives up the line of a block: an S line is dropped, an E or M line goes back to memory. None, and nothing changes, where
    /// there is no line, or an E or M line and another Put is out.
    pub fn evict(&mut self, block: BlockNo) -> Option<Reply>
        ensures row { (output : List ℕ) → evict_row self.old.index block (shown_hart SETS output self.old)
            ≡ option_map (replied SETS output self.new) result }
        ensures none { IfNone result (self.new ≡ self.old) }
        ensures ways { KeepsWays SETS self.old.cache self.new.cache }
        ensures stays { StaysPut self.old self.new }
    {
        let line = self.line(block)?;
        if !line.state.is_owned() {
            return Some(self.drop_line(&line));
        }
        if self.put().is_some() {
            return None;
        }
        Some(self.write_back(&line))
    }

    /// The entry for a line that is given up, if it was marked.
    fn spill_of(&self, line: &Line) -> Option<Entry>
        ensures { result ≡ spill_of self.now.index line.now.block (shown_line line.now) }
    {
        if line.marks.is_marked() {
            Some(Entry::Spill {
                hart: self.index,
                block: line.block,
            })
        } else {
            None
        }
    }

    /// Takes a line out, and a reservation of its block with it. If it was marked, the transaction has overflowed.
    fn remove(&mut self, line: &Line)
        requires { line_at SETS self.old.cache line.now.block ≡ Some line.now }
        ensures hart { (output : List ℕ) → shown_hart SETS output self.new
            ≡ without_line line.now.block (shown_line line.now) (shown_hart SETS output self.old) }
        ensures ways { KeepsWays SETS self.old.cache self.new.cache }
        ensures stays { StaysPut self.old self.new }
    {
        self.cache.invalidate(line.block);
        self.reserved = without_block(line.block, self.reserved);
        note_spill(&mut self.tx, line.marks.is_marked());
    }

    fn drop_line(&mut self, line: &Line) -> Reply
        requires { line_at SETS self.old.cache line.now.block ≡ Some line.now }
        ensures row { (output : List ℕ) →
            drop_row self.old.index line.now.block (shown_line line.now) (shown_hart SETS output self.old)
            ≡ replied SETS output self.new result }
        ensures ways { KeepsWays SETS self.old.cache self.new.cache }
        ensures stays { StaysPut self.old self.new }
    {
        self.remove(line);
        Reply {
            message: None,
            entry: self.spill_of(line),
        }
    }

    fn write_back(&mut self, line: &Line) -> Reply
        requires { line_at SETS self.old.cache line.now.block ≡ Some line.now }
        ensures row { (output : List ℕ) →
            write_back_row self.old.index line.now.block (shown_line line.now) (shown_hart SETS output self.old)
            ≡ replied SETS output self.new result }
        ensures ways { KeepsWays SETS self.old.cache self.new.cache }
        ensures stays { StaysPut self.old self.new }
    {
        let marked = line.marks.is_marked();
        self.remove(line);
        self.put = Some(PutOut {
            block: line.block,
            content: line.content,
            marked,
        });
        Reply {
            message: Some(Message::Put {
                from: self.index,
                block: line.block,
                content: line.content,
                marked,
            }),
            entry: self.spill_of(line),
        }
    }
}
