ghost use Rattle.std.specs.Prelude.{◌≡◌, ◌<◌, position, length, is_some, map, replicate, None, get_or, slice_set};
ghost use Rattle.std.specs.Option.{option_map};
ghost use Rattle.words.specs.Limits.{block_words};
ghost use Rattle.cache.specs.Line.{without_marks, marked_read, used_marks, put_into, put_out_by, in_state};
ghost use Rattle.cache.specs.Ways.{holds, is_free, is_unmarked, has_line, line_in, victim_in};

use crate::line::Line;
use words::{BlockNo, LineState, Marks};

/// What has to go before a block can be filled.
#[derive(Clone, Copy, Debug, PartialEq, Eq)]
pub enum Victim {
    /// Nothing: the block's set has a free way.
    Free,
    /// This shared line, whose content memory has.
    Drop(Line),
    /// This exclusive or modified line, which the directory takes back.
    WriteBack(Line),
}

/// The way that holds a block. Most lie in the first way of their set, which is looked at in place.
#[inline(always)]
pub fn way_of(ways: &[Option<Line>], block: BlockNo) -> Option<usize>
    ensures { result ≡ position (holds block) ways.now }
{
    match ways.first() {
        Some(first) if is_line_of(first, block) => Some(0),
        _ => search(ways, block),
    }
}

/// The same, by a search through all ways.
#[inline(never)]
fn search(ways: &[Option<Line>], block: BlockNo) -> Option<usize>
    ensures { result ≡ position (holds block) ways.now }
{
    ways.iter().position(|way| is_line_of(way, block))
}

#[inline(always)]
fn is_line_of(way: &Option<Line>, block: BlockNo) -> bool
    ensures { result ≡ holds block way.now }
{
    match way {
        Some(line) => line.block == block,
        None => false,
    }
}

/// The lowest free way.
pub fn free_way(ways: &[Option<Line>]) -> Option<usize>
    ensures { result ≡ position is_free ways.now }
{
    ways.iter().position(|way| way.is_none())
}

/// The lowest way with a line.
fn used_way(ways: &[Option<Line>]) -> Option<usize>
    ensures { result ≡ position is_some ways.now }
{
    ways.iter().position(|way| way.is_some())
}

/// Whether one of the ways has a line.
pub fn has_line(ways: &[Option<Line>]) -> bool
    ensures { result ≡ has_line ways.now }
{
    used_way(ways).is_some()
}

/// The lowest way that holds a line without marks.
fn unmarked_way(ways: &[Option<Line>]) -> Option<usize>
    ensures { result ≡ position is_unmarked ways.now }
{
    ways.iter().position(|way| has_no_mark(way))
}

fn has_no_mark(way: &Option<Line>) -> bool
    ensures { result ≡ is_unmarked way.now }
{
    match way {
        Some(line) => !line.marks.is_marked(),
        None => false,
    }
}

/// The line of a block.
#[inline(always)]
pub fn line_of(ways: &[Option<Line>], block: BlockNo) -> Option<Line>
    ensures { result ≡ line_in block ways.now }
{
    match way_of(ways, block) {
        Some(way) => ways[way],
        None => None,
    }
}

/// What has to go before a line comes into these ways.
pub fn victim_of(ways: &[Option<Line>]) -> Victim
    requires { 0 < length ways.now }
    ensures { result ≡ victim_in ways.now }
{
    if free_way(ways).is_some() {
        return Victim::Free;
    }
    let way = unmarked_way(ways).unwrap_or(0);
    match ways[way] {
        Some(line) => put_out(line),
        None => Victim::Free,
    }
}

fn put_out(line: Line) -> Victim
    ensures { result ≡ put_out_by line.state line }
{
    if line.state.is_owned() {
        Victim::WriteBack(line)
    } else {
        Victim::Drop(line)
    }
}

/// Marks a way's line as read by the running transaction.
#[inline(always)]
pub fn mark_read(ways: &mut [Option<Line>], way: usize)
    requires { way < length ways.old }
    ensures { ways.new ≡ slice_set ways.old way (option_map marked_read (get_or ways.old way None)) }
{
    if let Some(line) = &mut ways[way] {
        line.marks.read = true;
    }
}

/// Gives a way's line another state.
#[inline(always)]
pub fn set_state(ways: &mut [Option<Line>], way: usize, state: LineState)
    requires { way < length ways.old }
    ensures { ways.new ≡ slice_set ways.old way (option_map (in_state state) (get_or ways.old way None)) }
{
    if let Some(line) = &mut ways[way] {
        line.state = state;
    }
}

/// Marks a line as read, or as written, or both. A mark that it has stays, and isn't written again: that takes less than to write all marks.
#[inline(always)]
fn note_use(marks: &mut Marks, reads: bool, writes: bool)
    ensures { marks.new ≡ used_marks reads writes marks.old }
{
    if reads {
        marks.read = true;
    }
    if writes {
        marks.written = true;
    }
}

/// Puts a word into a way's line, and makes it modified. It is marked as read, or as written, if these say so.
#[inline(always)]
pub fn put_word(
    ways: &mut [Option<Line>],
    way: usize,
    word: usize,
    value: u32,
    reads: bool,
    writes: bool,
)
    requires way { way < length ways.old }
    requires word { word < block_words }
    ensures { ways.new ≡ slice_set ways.old way (option_map (put_into word value reads writes) (get_or ways.old way None)) }
{
    if let Some(line) = &mut ways[way] {
        note_use(&mut line.marks, reads, writes);
        line.state = LineState::Modified;
        line.content[word] = value;
    }
}

/// Takes the marks of every line in these ways away.
pub fn clear_ways(ways: &mut [Option<Line>])
    ensures { ways.new ≡ map (option_map without_marks) ways.old }
{
    for way in ways.iter_mut() {
        clear(way);
    }
}

fn clear(way: &mut Option<Line>)
    ensures { way.new ≡ option_map without_marks way.old }
{
    if let Some(line) = way {
        line.marks = Marks::none();
    }
}
