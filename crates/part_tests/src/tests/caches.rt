//! Caches of two shapes: two sets of one line, and one set of two.

use crate::tests::claims::{equal, holds, holds_at};
use cache::{Cache, Line, Victim};
use std::process::Abort;
use std::test::Fail;
use table::byte_count;
use words::{Addr, Block, BlockNo, LineState, Marks, Width};

const COUNTED: Block = [0x4433_2211; 8];

/// A row of a test: what is done to a cache, or is to be seen of it. A block is told by its number.
#[derive(Clone, Copy)]
enum Row {
    /// A block, which is absent and has room, is filled with `COUNTED` in this state, overflowed or not.
    Fill(u32, LineState, bool),
    /// A line, which is there, is marked as read.
    MarkRead(u32),
    /// A line, which is modified, is marked as written.
    MarkWritten(u32),
    /// A line, which is there, becomes modified.
    Promote(u32),
    /// A line, which is there and not marked as written, becomes shared.
    Downgrade(u32),
    Invalidate(u32),
    ClearMarks,
    /// A store to a block that is modified.
    Store(u32, Width, u32),
    /// Whether a block has room.
    Room(u32, bool),
    /// What makes way for a block.
    MakesWay(u32, Victim),
    /// A block's line.
    Holds(u32, Option<Line>),
    /// What a block's line holds.
    Content(u32, Block),
    /// The word at an address.
    Word(u32, Option<u32>),
}

/// A line of `COUNTED`.
fn marked(number: u32, state: LineState, marks: Marks) -> Line {
    Line {
        block: BlockNo::new(number),
        content: COUNTED,
        state,
        marks,
    }
}

/// The same without marks.
fn line(number: u32, state: LineState) -> Line {
    marked(number, state, Marks::none())
}

fn fill<const SETS: usize, const WAYS: usize>(
    rt: &impl Abort,
    cache: &mut Cache<SETS, WAYS>,
    number: u32,
    state: LineState,
    overflowed: bool,
) {
    let block = BlockNo::new(number);
    holds(rt, cache.look(block).is_none());
    holds(rt, cache.room(block));
    cache.fill(block, COUNTED, state, overflowed);
}

fn mark_read<const SETS: usize, const WAYS: usize>(
    rt: &impl Abort,
    cache: &mut Cache<SETS, WAYS>,
    number: u32,
) {
    let block = BlockNo::new(number);
    holds(rt, cache.look(block).is_some());
    cache.mark_read(block);
}

fn mark_written<const SETS: usize, const WAYS: usize>(
    rt: &impl Abort,
    cache: &mut Cache<SETS, WAYS>,
    number: u32,
) {
    let block = BlockNo::new(number);
    let found = cache.look(block);
    holds(rt, found.is_some());
    if let Some(line) = found {
        match line.state {
            LineState::Modified => cache.mark_written(block),
            _ => holds_at(rt, false, &"not modified"),
        }
    }
}

fn promote<const SETS: usize, const WAYS: usize>(
    rt: &impl Abort,
    cache: &mut Cache<SETS, WAYS>,
    number: u32,
) {
    let block = BlockNo::new(number);
    holds(rt, cache.look(block).is_some());
    cache.promote(block);
}

fn downgrade<const SETS: usize, const WAYS: usize>(
    rt: &impl Abort,
    cache: &mut Cache<SETS, WAYS>,
    number: u32,
) {
    let block = BlockNo::new(number);
    let found = cache.look(block);
    holds(rt, found.is_some());
    if let Some(line) = found {
        holds(rt, !line.marks.written);
        cache.downgrade(block);
    }
}

fn store<const SETS: usize, const WAYS: usize>(
    rt: &impl Abort,
    cache: &mut Cache<SETS, WAYS>,
    addr: Addr,
    width: Width,
    value: u32,
) {
    holds(rt, addr.value() % byte_count(width) == 0);
    let found = cache.look(addr.block());
    holds(rt, found.is_some());
    if let Some(line) = found {
        match line.state {
            LineState::Modified => cache.write_bytes(addr, width, value),
            _ => holds_at(rt, false, &"not modified"),
        }
    }
}

fn check_room<const SETS: usize, const WAYS: usize>(
    rt: &impl Abort,
    cache: &Cache<SETS, WAYS>,
    number: u32,
    want: bool,
) {
    equal(rt, &cache.room(BlockNo::new(number)), &want);
}

fn check_victim<const SETS: usize, const WAYS: usize>(
    rt: &impl Abort,
    cache: &Cache<SETS, WAYS>,
    number: u32,
    want: Victim,
) {
    equal(rt, &cache.victim(BlockNo::new(number)), &want);
}

fn found<const SETS: usize, const WAYS: usize>(
    cache: &Cache<SETS, WAYS>,
    number: u32,
) -> Option<Line> {
    cache.look(BlockNo::new(number))
}

fn check_content(rt: &impl Abort, line: Option<Line>, want: Block) {
    equal(rt, &line.map(|line| line.content), &Some(want));
}

fn check_word<const SETS: usize, const WAYS: usize>(
    rt: &impl Abort,
    cache: &Cache<SETS, WAYS>,
    addr: u32,
    want: Option<u32>,
) {
    equal(rt, &cache.read_word(Addr::new(addr)), &want);
}

/// What is done by a row; whether it is one that does something.
fn act<const SETS: usize, const WAYS: usize>(
    rt: &impl Abort,
    cache: &mut Cache<SETS, WAYS>,
    row: &Row,
) -> bool {
    match *row {
        Row::Fill(number, state, overflowed) => fill(rt, cache, number, state, overflowed),
        Row::MarkRead(number) => mark_read(rt, cache, number),
        Row::MarkWritten(number) => mark_written(rt, cache, number),
        Row::Promote(number) => promote(rt, cache, number),
        Row::Downgrade(number) => downgrade(rt, cache, number),
        Row::Invalidate(number) => cache.invalidate(BlockNo::new(number)),
        Row::ClearMarks => cache.clear_marks(),
        Row::Store(addr, width, value) => store(rt, cache, Addr::new(addr), width, value),
        _ => return false,
    }
    true
}

/// That what a row says is to be seen; whether it is one that says something.
fn see<const SETS: usize, const WAYS: usize>(
    rt: &impl Abort,
    cache: &Cache<SETS, WAYS>,
    row: &Row,
) -> bool {
    match *row {
        Row::Room(number, want) => check_room(rt, cache, number, want),
        Row::MakesWay(number, want) => check_victim(rt, cache, number, want),
        Row::Holds(number, want) => equal(rt, &found(cache, number), &want),
        Row::Content(number, want) => check_content(rt, found(cache, number), want),
        Row::Word(addr, want) => check_word(rt, cache, addr, want),
        _ => return false,
    }
    true
}

/// That each row comes true in order.
fn check<const SETS: usize, const WAYS: usize>(
    rt: &impl Abort,
    cache: &mut Cache<SETS, WAYS>,
    rows: &[Row],
) {
    for row in rows {
        let known = act(rt, cache, row) || see(rt, cache, row);
        holds(rt, known);
    }
}

/// The same from an empty cache of two sets of one line on.
fn check_small(rt: &impl Abort, rows: &[Row]) {
    check(rt, &mut Cache::<2, 1>::new(), rows);
}

/// The same with one set of two lines.
fn check_pair(rt: &impl Abort, rows: &[Row]) {
    check(rt, &mut Cache::<1, 2>::new(), rows);
}

#[test]
fn one_way_is_full_for_its_set_alone(rt: HostRuntime) {
    let modified = line(256, LineState::Modified);
    let rows = [
        Row::Fill(256, LineState::Modified, false),
        Row::Room(257, true),
        Row::MakesWay(257, Victim::Free),
        Row::Room(258, false),
        Row::MakesWay(258, Victim::WriteBack(modified)),
    ];
    check_small(&rt, &rows);
}

#[test]
fn a_victim_has_no_marks_if_one_has_none(rt: HostRuntime) {
    let read = Marks {
        read: true,
        ..Marks::none()
    };
    let first = marked(1, LineState::Shared, read);
    let second = line(2, LineState::Shared);
    let rows = [
        Row::Fill(1, LineState::Shared, false),
        Row::MarkRead(1),
        Row::Fill(2, LineState::Shared, false),
        Row::MakesWay(3, Victim::Drop(second)),
        Row::MarkRead(2),
        Row::MakesWay(3, Victim::Drop(first)),
    ];
    check_pair(&rt, &rows);
}

#[test]
fn an_exclusive_victim_is_written_back(rt: HostRuntime) {
    let exclusive = line(3, LineState::Exclusive);
    let rows = [
        Row::Fill(3, LineState::Exclusive, false),
        Row::MakesWay(5, Victim::WriteBack(exclusive)),
    ];
    check_small(&rt, &rows);
}

#[test]
fn a_line_fills_the_lowest_free_way(rt: HostRuntime) {
    let third = line(3, LineState::Shared);
    let rows = [
        Row::Fill(1, LineState::Shared, false),
        Row::Fill(2, LineState::Shared, false),
        Row::Invalidate(1),
        Row::Holds(1, None),
        Row::Fill(3, LineState::Shared, false),
        // Without marks way 0 is the victim.
        Row::MakesWay(4, Victim::Drop(third)),
    ];
    check_pair(&rt, &rows);
}

#[test]
fn a_line_changes_its_state_and_its_marks(rt: HostRuntime) {
    let all = Marks {
        read: true,
        written: true,
        overflowed: true,
    };
    let rows = [
        Row::Fill(6, LineState::Exclusive, true),
        Row::Promote(6),
        Row::MarkWritten(6),
        Row::MarkRead(6),
        Row::Holds(6, Some(marked(6, LineState::Modified, all))),
        Row::ClearMarks,
        Row::Holds(6, Some(line(6, LineState::Modified))),
        Row::Downgrade(6),
        Row::Holds(6, Some(line(6, LineState::Shared))),
    ];
    check_small(&rt, &rows);
}

/// The block with this in place of a word.
fn counted_but(place: usize, word: u32) -> Block {
    let mut block = COUNTED;
    if let Some(old) = block.get_mut(place) {
        *old = word;
    }
    block
}

#[test]
fn a_store_writes_its_bytes_alone(rt: HostRuntime) {
    for (addr, width, place, word) in [
        (0x2020, Width::Byte, 0, 0x4433_22aa),
        (0x2025, Width::Byte, 1, 0x4433_aa11),
        (0x203a, Width::Byte, 6, 0x44aa_2211),
        (0x203f, Width::Byte, 7, 0xaa33_2211),
        (0x2028, Width::Half, 2, 0x4433_bbaa),
        (0x202e, Width::Half, 3, 0xbbaa_2211),
        (0x2034, Width::Word, 5, 0xddcc_bbaa),
    ] {
        let rows = [
            Row::Fill(257, LineState::Modified, false),
            Row::Store(addr, width, 0xddcc_bbaa),
            Row::Content(257, counted_but(place, word)),
        ];
        check_small(&rt, &rows);
    }
}

#[test]
fn a_word_is_read_where_it_was_stored(rt: HostRuntime) {
    let rows = [
        Row::Word(0x2024, None),
        Row::Fill(257, LineState::Modified, false),
        Row::Store(0x2024, Width::Word, 7),
        Row::Word(0x2024, Some(7)),
        Row::Word(0x2028, Some(0x4433_2211)),
    ];
    check_small(&rt, &rows);
}

/// Whether two caches are one in all that they keep.
fn check_same(rt: &impl Abort, cache: &Cache<1, 2>, other: &Cache<1, 2>, want: bool) {
    equal(rt, &cache.same(other), &want);
}

#[test]
fn caches_are_compared_line_by_line(rt: HostRuntime) -> Result<(), Fail> {
    let mut cache = Cache::<1, 2>::new();
    check(&rt, &mut cache, &[Row::Fill(1, LineState::Shared, false)]);
    let mut other = cache;
    check_same(&rt, &other, &cache, true);
    check(&rt, &mut other, &[Row::MarkRead(1)]);
    check_same(&rt, &other, &cache, false);
    Ok(())
}
