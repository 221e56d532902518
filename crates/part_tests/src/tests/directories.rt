//! The directory alone: what arrives at it about one block, and what it sends.

use crate::tests::claims::{equal, holds};
use directory::{Busy, DirEntry, Directory, Owner, Received};
use std::process::Abort;
use std::test::Fail;
use words::{Block, BlockNo, HartId, HartSet, Kind, LineState, Message, Stamp};

const ZEROS: Block = [0; 8];

const ONES: Block = [1; 8];

const TWOS: Block = [2; 8];

/// A row of a test on block 1, which four harts use: what arrives, and what has to come of it.
#[derive(Clone, Copy)]
enum Row {
    /// A hart's request is granted, in this state and with this content, once these harts, who are asked, have answered.
    Grants(usize, Kind, LineState, Block, &'static [usize]),
    /// A hart's request is held.
    HoldsGet(usize, Kind),
    /// A hart's Put, marked or not, is acknowledged.
    Acknowledges(usize, Block, bool),
    /// A hart's Put is held.
    HoldsPut(usize, Block),
    /// A hart's Done, granted or not.
    Done(usize, bool, Option<Block>),
    /// The block is busy by this hart's request, which is given it in this state.
    Busy(usize, LineState),
    /// The block isn't busy, and this hart owns it.
    Owned(usize),
    /// The block isn't busy, and this hart owned it and is asked still.
    Sticky(usize),
    /// The block isn't busy, and has no owner, but these sharers.
    Shared(&'static [usize]),
    /// Memory's content of the block.
    Memory(Block),
    /// How many blocks have an entry.
    Used(usize),
}

fn hart(rt: &impl Abort, number: usize) -> HartId {
    HartId::try_new(number).expect(rt, "a hart")
}

fn harts(rt: &impl Abort, numbers: &[usize]) -> HartSet {
    let mut set = HartSet::empty();
    for number in numbers {
        set.insert(hart(rt, *number));
    }
    set
}

fn get(rt: &impl Abort, directory: &mut Directory, number: usize, kind: Kind) -> Received {
    let from = hart(rt, number);
    holds(rt, from.index() < directory.harts());
    holds(rt, 1 < directory.blocks());
    let message = Message::Get {
        from,
        block: BlockNo::new(1),
        kind,
        stamp: Some(Stamp {
            count: 7,
            hart: from,
        }),
    };
    directory.receive(message).expect(rt, "memory")
}

fn put(
    rt: &impl Abort,
    directory: &mut Directory,
    number: usize,
    content: Block,
    marked: bool,
) -> Received {
    let from = hart(rt, number);
    holds(rt, from.index() < directory.harts());
    holds(rt, 1 < directory.blocks());
    let message = Message::Put {
        from,
        block: BlockNo::new(1),
        content,
        marked,
    };
    directory.receive(message).expect(rt, "memory")
}

fn done(
    rt: &impl Abort,
    directory: &mut Directory,
    number: usize,
    ok: bool,
    content: Option<Block>,
) -> Received {
    let from = hart(rt, number);
    holds(rt, from.index() < directory.harts());
    holds(rt, 1 < directory.blocks());
    let message = Message::Done {
        from,
        block: BlockNo::new(1),
        ok,
        content,
    };
    directory.receive(message).expect(rt, "memory")
}

/// The message that goes out with an index.
fn sent(received: &Received, index: usize) -> Option<Message> {
    match received {
        Received::Held => None,
        Received::Sent(sends) => {
            let sends = sends.as_slice();
            let sent = sends.get(index)?;
            Some(sent.message)
        }
    }
}

/// How many messages go out, `None` where what arrived is held.
fn count(received: &Received) -> Option<usize> {
    match received {
        Received::Held => None,
        Received::Sent(sends) => Some(sends.as_slice().len()),
    }
}

fn forward(rt: &impl Abort, number: usize, kind: Kind, requester: usize) -> Message {
    let requester = hart(rt, requester);
    Message::Forward {
        to: hart(rt, number),
        block: BlockNo::new(1),
        kind,
        requester,
        stamp: Some(Stamp {
            count: 7,
            hart: requester,
        }),
    }
}

/// That the request is sent on to these harts, behind the grant.
fn check_forwards(
    rt: &impl Abort,
    received: &Received,
    kind: Kind,
    requester: usize,
    expect: &[usize],
) {
    equal(rt, &count(received), &Some(expect.len().saturating_add(1)));
    for (index, number) in expect.iter().enumerate() {
        let forward = forward(rt, *number, kind, requester);
        equal(rt, &sent(received, index.saturating_add(1)), &Some(forward));
    }
}

fn check_grants(
    rt: &impl Abort,
    received: &Received,
    number: usize,
    give: LineState,
    content: Block,
    expect: &[usize],
) {
    let grant = Message::Grant {
        to: hart(rt, number),
        block: BlockNo::new(1),
        give,
        content,
        expect: harts(rt, expect),
    };
    equal(rt, &sent(received, 0), &Some(grant));
}

fn check_acknowledges(rt: &impl Abort, received: &Received, number: usize) {
    let acknowledged = Message::PutAck {
        to: hart(rt, number),
        block: BlockNo::new(1),
    };
    equal(rt, &count(received), &Some(1));
    equal(rt, &sent(received, 0), &Some(acknowledged));
}

fn check_count(rt: &impl Abort, received: &Received, want: Option<usize>) {
    equal(rt, &count(received), &want);
}

fn check_busy(rt: &impl Abort, directory: &Directory, number: usize, give: LineState) {
    let requester = hart(rt, number);
    let entry = directory.entry(BlockNo::new(1));
    equal(rt, &entry.busy, &Some(Busy { requester, give }));
}

fn check_entry(rt: &impl Abort, directory: &Directory, owner: Owner, sharers: &[usize]) {
    let wanted = DirEntry {
        owner,
        sharers: harts(rt, sharers),
        busy: None,
    };
    equal(rt, &directory.entry(BlockNo::new(1)), &wanted);
    equal(rt, &directory.entry(BlockNo::new(0)), &DirEntry::first());
}

fn check_memory(rt: &impl Abort, directory: &Directory, content: Block) {
    holds(rt, 2 < directory.blocks());
    equal(rt, &directory.memory(BlockNo::new(1)), &content);
    equal(rt, &directory.memory(BlockNo::new(2)), &ZEROS);
}

fn check_used(rt: &impl Abort, directory: &Directory, want: usize) {
    equal(rt, &directory.used(), &want);
}

/// A row that is about what can be read of the directory.
fn check_seen(rt: &impl Abort, directory: &Directory, row: &Row) {
    match *row {
        Row::Busy(number, give) => check_busy(rt, directory, number, give),
        Row::Owned(number) => check_entry(rt, directory, Owner::Owned(hart(rt, number)), &[]),
        Row::Sticky(number) => check_entry(rt, directory, Owner::Sticky(hart(rt, number)), &[]),
        Row::Shared(sharers) => check_entry(rt, directory, Owner::Nobody, sharers),
        Row::Memory(content) => check_memory(rt, directory, content),
        Row::Used(want) => check_used(rt, directory, want),
        _ => holds(rt, false),
    }
}

/// A row that is about what arrives, or about what can be read.
fn check_row(rt: &impl Abort, directory: &mut Directory, row: &Row) {
    match *row {
        Row::Grants(number, kind, give, content, expect) => {
            let received = get(rt, directory, number, kind);
            check_grants(rt, &received, number, give, content, expect);
            check_forwards(rt, &received, kind, number, expect);
        }
        Row::HoldsGet(number, kind) => {
            let received = get(rt, directory, number, kind);
            check_count(rt, &received, None);
        }
        Row::Acknowledges(number, content, marked) => {
            let received = put(rt, directory, number, content, marked);
            check_acknowledges(rt, &received, number);
        }
        Row::HoldsPut(number, content) => {
            let received = put(rt, directory, number, content, false);
            check_count(rt, &received, None);
        }
        Row::Done(number, ok, content) => {
            let received = done(rt, directory, number, ok, content);
            check_count(rt, &received, Some(0));
        }
        other => check_seen(rt, directory, &other),
    }
}

/// That each row comes true in order, from three blocks of zeros on.
fn check(rt: &(impl Abort + AllocGlobal), rows: &[Row]) -> Result<(), Fail> {
    let memory = vec![in rt.alloc(); ZEROS; 3]?;
    let mut directory = Directory::new(rt.alloc(), memory, 4);
    for row in rows {
        check_row(rt, &mut directory, row);
    }
    Ok(())
}

/// Harts ask for a block that nobody has.
static GIVEN_ALONE: [Row; 11] = [
    Row::Used(0),
    Row::Grants(0, Kind::Read, LineState::Exclusive, ZEROS, &[]),
    Row::Busy(0, LineState::Exclusive),
    // A busy block holds the next request, and a Put.
    Row::HoldsGet(1, Kind::Read),
    Row::HoldsPut(0, ONES),
    // A Done from another hart changes nothing.
    Row::Done(1, true, None),
    Row::HoldsGet(1, Kind::Read),
    Row::Done(0, true, None),
    Row::Owned(0),
    Row::Used(1),
    // Its owner is given M, whatever it asks for.
    Row::Grants(0, Kind::Read, LineState::Modified, ZEROS, &[]),
];

#[test]
fn a_block_that_nobody_has_is_given_alone(rt: HostRuntime) -> Result<(), Fail> {
    check(&rt, &GIVEN_ALONE)
}

/// Harts read what another owns, and then one of them writes.
static READ_AND_WRITTEN: [Row; 15] = [
    Row::Grants(3, Kind::Write, LineState::Modified, ZEROS, &[]),
    Row::Done(3, true, None),
    // The owner's content goes to memory.
    Row::Grants(1, Kind::Read, LineState::Shared, ZEROS, &[3]),
    Row::Done(1, true, Some(ONES)),
    Row::Shared(&[1, 3]),
    Row::Memory(ONES),
    // A third reader joins, and nobody has to answer.
    Row::Grants(0, Kind::Read, LineState::Shared, ONES, &[]),
    Row::Done(0, true, None),
    Row::Shared(&[0, 1, 3]),
    // A writer awaits each other sharer; refused, it changes nothing.
    Row::Grants(1, Kind::Write, LineState::Modified, ONES, &[0, 3]),
    Row::Done(1, false, None),
    Row::Shared(&[0, 1, 3]),
    Row::Grants(1, Kind::Write, LineState::Modified, ONES, &[0, 3]),
    Row::Done(1, true, None),
    Row::Owned(1),
];

#[test]
fn a_reader_shares_with_the_owner(rt: HostRuntime) -> Result<(), Fail> {
    check(&rt, &READ_AND_WRITTEN)
}

/// An owner gives up a marked line.
static PUT_MARKED: [Row; 15] = [
    Row::Grants(2, Kind::Write, LineState::Modified, ZEROS, &[]),
    Row::Done(2, true, None),
    // The Put of a hart that isn't the owner is acknowledged, and that is all.
    Row::Acknowledges(0, ONES, true),
    Row::Owned(2),
    Row::Memory(ZEROS),
    Row::Acknowledges(2, TWOS, true),
    Row::Sticky(2),
    Row::Memory(TWOS),
    // It is given M for a read.
    Row::Grants(2, Kind::Read, LineState::Modified, TWOS, &[]),
    Row::Done(2, false, None),
    Row::Sticky(2),
    // Another reader asks it, and then shares with nobody.
    Row::Grants(0, Kind::Read, LineState::Shared, TWOS, &[2]),
    Row::Done(0, true, Some(ONES)),
    Row::Shared(&[0]),
    Row::Memory(TWOS),
];

#[test]
fn a_marked_put_leaves_a_sticky_owner(rt: HostRuntime) -> Result<(), Fail> {
    check(&rt, &PUT_MARKED)
}

/// A block comes into use and out of it again.
static OUT_OF_USE: [Row; 11] = [
    Row::Grants(2, Kind::Read, LineState::Exclusive, ZEROS, &[]),
    Row::Used(1),
    Row::Done(2, false, None),
    Row::Used(0),
    Row::Grants(2, Kind::Write, LineState::Modified, ZEROS, &[]),
    Row::Done(2, true, None),
    Row::Used(1),
    Row::Acknowledges(2, ONES, false),
    Row::Used(0),
    Row::Shared(&[]),
    Row::Memory(ONES),
];

#[test]
fn a_block_out_of_use_has_no_entry(rt: HostRuntime) -> Result<(), Fail> {
    check(&rt, &OUT_OF_USE)
}
