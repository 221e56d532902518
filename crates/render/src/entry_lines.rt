//! The lines of many entries.
ghost use Rattle.std.specs.Prelude.{◌≡◌, ◌≤◌, ◌+◌, ◌++◌, All, length, take};
ghost use Rattle.render.specs.Entries.{entry_line, word_part};
ghost use Rattle.render.specs.Words.{IsWordText};

use crate::entries::{add_effect, add_entry, add_word};
use crate::parts::hart_digit;
use disassembler::Symbols;
use std::marker::Model;
use texts::Line;
use words::{Addr, Entry};

/// How many words' texts are kept.
const WORDS: usize = 256;

/// How many bytes such a text has at most.
const WORD_BYTES: usize = 139;

/// How many most have at most.
const FEW_BYTES: usize = 64;

/// A word at its pc, as a line tells of it.
#[derive(Clone, Copy)]
struct WordText {
    pc: Addr,
    word: u32,
    bytes: [u8; WORD_BYTES],
    len: usize,
}

impl WordText {
    /// That of a word at a pc.
    #[inline(never)]
    fn new(names: &Symbols<'_>, pc: Addr, word: u32) -> Self
        ensures text { IsWordText names.now result }
        ensures pc { result.pc ≡ pc }
        ensures word { result.word ≡ word }
    {
        let mut line = Line::<WORD_BYTES>::new();
        add_word(names, pc, word, &mut line);
        let text = line.as_bytes();
        let mut bytes = [0; WORD_BYTES];
        bytes[..text.len()].copy_from_slice(text);
        WordText {
            pc,
            word,
            bytes,
            len: text.len(),
        }
    }

    /// Adds it to a line, which has room for the longest.
    #[inline(always)]
    fn add<const CAP: usize>(&self, line: &mut Line<CAP>)
        requires len { self.now.len ≤ 139 }
        requires room { length line.old + 139 ≤ CAP }
        ensures { line.new ≡ line.old ++ take self.now.len self.now.bytes }
    {
        match self.bytes.first_chunk::<FEW_BYTES>() {
            Some(front) if self.len <= FEW_BYTES => line.put_front(front, self.len),
            _ => line.put_front(&self.bytes, self.len),
        }
    }
}

/// Adds a word at its pc. Its text is made anew only where another stands in its place.
#[inline(always)]
fn add_kept<const CAP: usize>(
    kept: &mut [WordText; WORDS],
    names: &Symbols<'_>,
    pc: Addr,
    word: u32,
    line: &mut Line<CAP>,
)
    requires kept { All (IsWordText names.now) kept.old }
    requires room { length line.old + 139 ≤ CAP }
    ensures kept { All (IsWordText names.now) kept.new }
    ensures text { line.new ≡ line.old ++ word_part names.now pc word }
    ensures longer { length line.new ≤ length line.old + 139 }
{
    let place = (pc.value() / 4) as usize % WORDS;
    if kept[place].pc.value() != pc.value() || kept[place].word != word {
        kept[place] = WordText::new(names, pc, word);
    }
    kept[place].add(line);
}

/// Makes the lines of entries, with names. It keeps the texts of words, since most words are retired again.
#[derive(Drop)]
pub struct EntryLines<'n, 'f> {
    names: &'n Symbols<'f>,
    kept: [WordText; WORDS],
}

impl<'n, 'f> Model for EntryLines<'n, 'f> {
    ghost use Rattle.std.specs.Prelude.{All};
    ghost use Rattle.disassembler.specs.Tables.{Table};
    ghost use Rattle.render.specs.Words.{IsWordText};

    ghost Value = { Table };

    ghost view = { λ lines. lines.names.now };

    ghost invariant = { λ lines. All (IsWordText lines.names.now) lines.kept };
}

impl<'n, 'f> EntryLines<'n, 'f> {
    /// Those with these names.
    pub fn new(names: &'n Symbols<'f>) -> Self
        ensures { result ≡ names.now }
    {
        let first = WordText::new(names, Addr::new(0), 0);
        EntryLines {
            names,
            kept: [first; WORDS],
        }
    }

    /// Adds the line of an entry, as [`crate::put_entry`] puts it, where there is room for [`crate::ENTRY_BYTES`].
    #[inline(always)]
    pub fn add<const CAP: usize>(&mut self, entry: &Entry, line: &mut Line<CAP>)
        requires { length line.old + 240 ≤ CAP }
        ensures text { line.new ≡ line.old ++ entry_line self.old entry.now }
        ensures longer { length line.new ≤ length line.old + 240 }
        ensures names { self.new ≡ self.old }
    {
        match *entry {
            Entry::Retire {
                hart,
                pc,
                word,
                write,
                load,
                store,
            } => {
                line.put_bytes(&hart_digit(hart));
                add_kept(&mut self.kept, self.names, pc, word, line);
                add_effect(write, load, store, line);
            }
            _ => add_entry(self.names, entry, line),
        }
    }
}
