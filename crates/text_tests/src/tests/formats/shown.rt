ghost use Rattle.std.specs.Prelude.{◌<◌};

use crate::tests::claims::{equal_at, equal_items, equal_text, holds, holds_at};
use directory::{Busy, DirEntry, Owner};
use disassembler::Symbols;
use reference::Breaking;
use render::{
    ENTRY_BYTES, EntryLines, cached_text, directory_text, message_text, put_cached, put_directory,
    put_entry, put_message, put_registers, put_word, status_text,
};
use std::alloc::Global;
use std::process::Abort;
use std::test::Fail;
use texts::Line;
use words::{
    AbortCause, Access, Addr, BlockNo, Cause, Entry, HartId, HartSet, Kind, LineState, Marks,
    Message, Reg, Regs, Stamp, Status, Taken, Width,
};

fn hart(number: u8) -> HartId
    requires { number < 8 }
{
    HartId::new(number)
}

/// The block at 0x2000.
fn block() -> BlockNo {
    BlockNo::new(256)
}

fn taken(alloc: Global) -> Taken {
    Taken {
        bytes: Vec::new(alloc),
        failed: 0,
    }
}

fn check_entry(rt: &(impl Abort + AllocGlobal), entry: Entry, want: &str) {
    let mut sink = taken(rt.alloc());
    holds(
        rt,
        put_entry(&Symbols::none(rt.alloc()), &entry, &mut sink).is_ok(),
    );
    equal_items(rt, &sink.bytes, want.as_bytes());
    let names = Symbols::none(rt.alloc());
    let mut lines = EntryLines::new(&names);
    check_line(rt, &mut lines, &entry, want);
    check_line(rt, &mut lines, &entry, want);
}

/// Asserts the line of an entry behind others.
fn check_line(rt: &impl Abort, lines: &mut EntryLines<'_, '_>, entry: &Entry, want: &str) {
    let mut line = Line::<ENTRY_BYTES>::new();
    lines.add(entry, &mut line);
    equal_items(rt, line.as_bytes(), want.as_bytes());
}

fn retired(pc: u32, word: u32, write: Option<(Reg, u32)>) -> Entry {
    Entry::Retire {
        hart: hart(0),
        pc: Addr::new(pc),
        word,
        write,
        load: None,
        store: None,
    }
}

fn at_2000(width: Width, value: u32) -> Option<Access> {
    Some(Access {
        addr: Addr::new(0x2000),
        width,
        value,
    })
}

#[test]
fn a_retired_word_has_its_parts(rt: HostRuntime) -> Result<(), Fail> {
    check_entry(
        &rt,
        retired(0x1000, 0x05d0_0893, Some((Reg::new(17), 93))),
        "0 0x00001000 05d00893 addi a7, zero, 93 | a7=0x0000005d\n",
    );
    check_entry(
        &rt,
        retired(0x1000, 0x0000_0a0b, None),
        "0 0x00001000 00000a0b tbegin 20\n",
    );
    check_entry(
        &rt,
        Entry::Retire {
            hart: hart(0),
            pc: Addr::new(0x100c),
            word: 0x0062_a023,
            write: None,
            load: None,
            store: at_2000(Width::Word, 7),
        },
        "0 0x0000100c 0062a023 sw t1, 0(t0) | store 4 0x00002000=0x00000007\n",
    );
    check_entry(
        &rt,
        Entry::Retire {
            hart: hart(1),
            pc: Addr::new(0x1000),
            word: 0x00b2_a52f,
            write: Some((Reg::new(10), 2)),
            load: at_2000(Width::Word, 2),
            store: at_2000(Width::Word, 3),
        },
        "1 0x00001000 00b2a52f amoadd.w a0, a1, (t0) | a0=0x00000002 | load 4 0x00002000=0x00000002 | store 4 0x00002000=0x00000003\n",
    );
    Ok(())
}

/// 1,024 bytes apart their texts are kept in one place.
#[test]
fn words_far_apart_and_new_words_have_their_own_texts(rt: HostRuntime) -> Result<(), Fail> {
    let names = Symbols::none(rt.alloc());
    let mut lines = EntryLines::new(&names);
    let begin = retired(0x1000, 0x0000_0a0b, None);
    check_line(&rt, &mut lines, &begin, "0 0x00001000 00000a0b tbegin 20\n");
    let far = retired(0x1400, 0x0000_0a0b, None);
    check_line(&rt, &mut lines, &far, "0 0x00001400 00000a0b tbegin 20\n");
    check_line(&rt, &mut lines, &begin, "0 0x00001000 00000a0b tbegin 20\n");
    let new = retired(0x1000, 0x0000_100b, None);
    check_line(&rt, &mut lines, &new, "0 0x00001000 0000100b tcommit\n");
    Ok(())
}

/// Asserts the line of an abort for this cause.
fn check_abort(rt: &(impl Abort + AllocGlobal), cause: AbortCause, want: &str) {
    let entry = Entry::Abort {
        hart: hart(1),
        cause,
    };
    check_entry(rt, entry, want);
}

#[test]
fn other_entries_have_their_lines(rt: HostRuntime) -> Result<(), Fail> {
    let pc = Addr::new(0x1004);
    check_abort(&rt, AbortCause::Asked, "1 abort asked\n");
    check_abort(&rt, AbortCause::Conflict, "1 abort conflict\n");
    check_abort(&rt, AbortCause::LogFull, "1 abort logfull\n");
    check_abort(
        &rt,
        AbortCause::Trapped(Cause::CallInTransaction, pc),
        "1 abort trap 12 CallInTransaction\n",
    );
    check_entry(
        &rt,
        Entry::Trap {
            hart: hart(0),
            cause: Cause::Illegal,
            pc,
        },
        "0 trap 1 Illegal at 0x00001004\n",
    );
    check_entry(
        &rt,
        Entry::Refuse {
            hart: hart(0),
            requester: hart(1),
            block: block(),
        },
        "0 refuses 1 block 0x00002000\n",
    );
    check_entry(
        &rt,
        Entry::Spill {
            hart: hart(0),
            block: block(),
        },
        "0 spills block 0x00002000\n",
    );
    Ok(())
}

fn both() -> HartSet {
    let mut harts = HartSet::empty();
    harts.insert(hart(1));
    harts.insert(hart(0));
    harts
}

/// Asserts that an entry of the directory has this text.
fn check_directory(rt: &impl Abort, entry: &DirEntry, want: &str) {
    equal_text(rt, directory_text(entry).as_str(), want);
}

/// Asserts the text of a block that a hart owned and gave up while another waits for it.
fn check_sticky(rt: &impl Abort) {
    let entry = DirEntry {
        owner: Owner::Sticky(hart(1)),
        busy: Some(Busy {
            requester: hart(0),
            give: LineState::Modified,
        }),
        ..DirEntry::first()
    };
    check_directory(rt, &entry, "sticky 1 sharers - busy 0 M");
}

/// Asserts that an entry of the directory is put with the end of its line.
fn check_put_directory(rt: &(impl Abort + AllocGlobal)) {
    let mut sink = taken(rt.alloc());
    holds(rt, put_directory(&DirEntry::first(), &mut sink).is_ok());
    equal_items(rt, &sink.bytes, b"owner none sharers - busy -\n");
}

#[test]
fn the_directory_tells_owner_sharers_and_request(rt: HostRuntime) {
    let first = DirEntry::first();
    check_directory(&rt, &first, "owner none sharers - busy -");
    let shared = DirEntry {
        sharers: both(),
        ..first
    };
    check_directory(&rt, &shared, "owner none sharers 0,1 busy -");
    let owned = DirEntry {
        owner: Owner::Owned(hart(0)),
        ..first
    };
    check_directory(&rt, &owned, "owned 0 sharers - busy -");
    check_sticky(&rt);
    check_put_directory(&rt);
}

#[test]
fn a_line_tells_state_and_marks(rt: HostRuntime) -> Result<(), Fail> {
    let written = Marks {
        written: true,
        ..Marks::none()
    };
    equal_text(
        &rt,
        cached_text(LineState::Modified, written).as_str(),
        "M -w-",
    );
    let read = Marks {
        read: true,
        ..Marks::none()
    };
    equal_text(
        &rt,
        cached_text(LineState::Exclusive, read).as_str(),
        "E r--",
    );
    let overflowed = Marks {
        overflowed: true,
        ..Marks::none()
    };
    let mut sink = taken(rt.alloc());
    holds(
        &rt,
        put_cached(LineState::Shared, overflowed, &mut sink).is_ok(),
    );
    equal_items(&rt, &sink.bytes, b"S --x\n");
    Ok(())
}

#[test]
fn a_word_has_its_address(rt: HostRuntime) -> Result<(), Fail> {
    let mut sink = taken(rt.alloc());
    holds(&rt, put_word(Addr::new(0x2000), 7, &mut sink).is_ok());
    equal_items(&rt, &sink.bytes, b"0x00002000 = 0x00000007\n");
    Ok(())
}

fn stamp() -> Option<Stamp> {
    Some(Stamp {
        count: 0,
        hart: hart(1),
    })
}

/// Asserts that a message has this text.
fn check_message(rt: &impl Abort, message: &Message, want: &str) {
    equal_text(rt, message_text(message).as_str(), want);
}

/// A block's content.
const CONTENT: [u32; 8] = [7, 0, 0, 0, 0, 0, 0, 9];

/// Asserts the texts of requests for a block.
fn check_gets(rt: &impl Abort) {
    check_message(
        rt,
        &Message::Get {
            from: hart(1),
            block: block(),
            kind: Kind::Read,
            stamp: stamp(),
        },
        "get 1 0x00002000 read stamp 0.1",
    );
    check_message(
        rt,
        &Message::Get {
            from: hart(0),
            block: block(),
            kind: Kind::Write,
            stamp: None,
        },
        "get 0 0x00002000 write stamp -",
    );
}

/// Asserts the texts of messages that end a request.
fn check_dones(rt: &impl Abort) {
    check_message(
        rt,
        &Message::Done {
            from: hart(1),
            block: block(),
            ok: false,
            content: None,
        },
        "done 1 0x00002000 refused content -",
    );
    check_message(
        rt,
        &Message::Done {
            from: hart(1),
            block: block(),
            ok: true,
            content: Some(CONTENT),
        },
        "done 1 0x00002000 ok content 0x00000007",
    );
}

#[test]
fn messages_between_harts_and_directory(rt: HostRuntime) {
    check_gets(&rt);
    check_dones(&rt);
    check_message(
        &rt,
        &Message::Put {
            from: hart(0),
            block: block(),
            content: CONTENT,
            marked: true,
        },
        "put 0 0x00002000 marked content 0x00000007",
    );
    check_message(
        &rt,
        &Message::Grant {
            to: hart(1),
            block: block(),
            give: LineState::Modified,
            content: CONTENT,
            expect: both(),
        },
        "grant 1 0x00002000 M expect 0,1 content 0x00000007",
    );
    check_message(
        &rt,
        &Message::PutAck {
            to: hart(0),
            block: block(),
        },
        "putack 0 0x00002000",
    );
}

/// Asserts that a message is put with the end of its line.
fn check_put_message(rt: &(impl Abort + AllocGlobal)) {
    let mut sink = taken(rt.alloc());
    let arrived = Message::PutAck {
        to: hart(1),
        block: block(),
    };
    holds(rt, put_message(&arrived, &mut sink).is_ok());
    equal_items(rt, &sink.bytes, b"putack 1 0x00002000\n");
}

#[test]
fn messages_from_hart_to_hart(rt: HostRuntime) {
    check_message(
        &rt,
        &Message::Forward {
            to: hart(0),
            block: block(),
            kind: Kind::Write,
            requester: hart(1),
            stamp: stamp(),
        },
        "forward 0 0x00002000 write for 1 stamp 0.1",
    );
    check_message(
        &rt,
        &Message::Ack {
            from: hart(0),
            to: hart(1),
            block: block(),
            content: None,
        },
        "ack 0 0x00002000 to 1 content -",
    );
    check_message(
        &rt,
        &Message::Nack {
            from: hart(0),
            to: hart(1),
            block: block(),
            stamp: stamp(),
        },
        "nack 0 0x00002000 to 1 stamp 0.1",
    );
    check_put_message(&rt);
}

const REGISTERS: &str = "\
zero=0x00000000 ra=0x00000001 sp=0x00000002 gp=0x00000003
tp=0x00000004 t0=0x00000005 t1=0x00000006 t2=0x00000007
s0=0x00000008 s1=0x00000009 a0=0x0000000a a1=0x0000000b
a2=0x0000000c a3=0x0000000d a4=0x0000000e a5=0x0000000f
a6=0x00000010 a7=0x00000011 s2=0x00000012 s3=0x00000013
s4=0x00000014 s5=0x00000015 s6=0x00000016 s7=0x00000017
s8=0x00000018 s9=0x00000019 s10=0x0000001a s11=0x0000001b
t3=0x0000001c t4=0x0000001d t5=0x0000001e t6=0x0000001f
pc=0x00001004 running
";

/// Each register has its number, but x0, which reads 0 though it was written.
fn numbered() -> Regs {
    let mut regs = Regs::new();
    for number in 0..32 {
        regs.write(Reg::new(number), u32::from(number));
    }
    regs.write(Reg::new(0), 5);
    regs
}

/// Asserts how the status of a hart is shown that exited or trapped.
fn check_status(rt: &impl Abort) {
    equal_text(rt, status_text(Status::Exited(3)).as_str(), "exit 3");
    let stopped = Status::Stopped(Cause::OutsideTransaction, Addr::new(0x1004));
    equal_text(
        rt,
        status_text(stopped).as_str(),
        "trap 14 OutsideTransaction",
    );
}

#[test]
fn registers_stand_four_on_a_line(rt: HostRuntime) {
    let mut sink = taken(rt.alloc());
    let regs = numbered();
    holds(
        &rt,
        put_registers(
            &Symbols::none(rt.alloc()),
            &regs,
            Addr::new(0x1004),
            Status::Running,
            &mut sink,
        )
        .is_ok(),
    );
    equal_items(&rt, &sink.bytes, REGISTERS.as_bytes());
    check_status(&rt);
}

/// Asserts that a sink took a part of the registers, and that one put failed.
fn check_part(rt: &impl Abort, sink: &Breaking, left: u32) {
    equal_at(rt, &sink.failed, &1, &left);
    holds_at(rt, REGISTERS.as_bytes().starts_with(&sink.bytes), &left);
    holds_at(rt, sink.bytes.len() < REGISTERS.len(), &left);
}

#[test]
fn each_put_fails_in_turn(rt: HostRuntime) {
    let regs = numbered();
    for left in 0..133 {
        let mut sink = Breaking::new(rt.alloc(), left);
        let answer = put_registers(
            &Symbols::none(rt.alloc()),
            &regs,
            Addr::new(0x1004),
            Status::Running,
            &mut sink,
        );
        holds_at(&rt, answer.is_err(), &left);
        check_part(&rt, &sink, left);
    }
}
