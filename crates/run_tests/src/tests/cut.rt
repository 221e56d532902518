//! Each command with a put that fails, and with memory that runs out.
use super::booted::{LOADS_AND_STORES, booted_in};
use crate::tests::claims::{equal, equal_at, holds, holds_at};
use debugger::commands::{Command, DebugFault, command_of};
use debugger::{Flow, Session};
use disassembler::Symbols;
use reference::{Breaking, COMMITS, EXIT};
use std::alloc::Global;
use std::process::Abort;
use std::test::Fail;
use words::Taken;

/// What a line spells.
fn read(rt: &impl Abort, alloc: Global, line: &str) -> Command {
    command_of(&Symbols::none(alloc), line).expect(rt, "a command")
}

/// Does a command, and once more where memory ran out.
fn do_command(
    rt: &impl Abort,
    names: &Symbols<'_>,
    session: &mut Session<16, 4>,
    command: Command,
    sink: &mut Taken,
) -> Result<Flow, DebugFault> {
    let answer = session.command(names, command, sink);
    if answer != Err(DebugFault::NoMemory) {
        return answer;
    }
    holds(rt, sink.bytes.is_empty());
    session.command(names, command, sink)
}

/// That a command, done once more where memory ran out, tells these lines.
fn check_done(
    rt: &impl Abort,
    alloc: Global,
    session: &mut Session<16, 4>,
    line: &str,
    told: &str,
) -> Result<(), Fail> {
    let command = read(rt, alloc, line);
    let mut sink = Taken {
        bytes: Vec::with_capacity(alloc, 256)?,
        failed: 0,
    };
    let answer = do_command(rt, &Symbols::none(alloc), session, command, &mut sink);
    equal_at(rt, &answer, &Ok(Flow::Go), &line);
    equal_at(rt, &sink.bytes.as_slice(), &told.as_bytes(), &line);
    Ok(())
}

/// That a command went on or came to the limit of its turns. It fails where memory ran out.
fn check_went(rt: &impl Abort, answer: Result<Flow, DebugFault>, line: &str) -> Result<(), Fail> {
    if answer == Err(DebugFault::NoMemory) {
        Err("memory ran out")?;
    }
    holds_at(
        rt,
        answer == Ok(Flow::Go) || answer == Err(DebugFault::Limit),
        &line,
    );
    Ok(())
}

/// Does a command that goes on or comes to the limit of its turns.
fn go(
    rt: &impl Abort,
    alloc: Global,
    session: &mut Session<16, 4>,
    line: &str,
) -> Result<(), Fail> {
    let command = read(rt, alloc, line);
    let mut sink = Breaking::new(alloc, 20);
    let answer = session.command(&Symbols::none(alloc), command, &mut sink);
    check_went(rt, answer, line)
}

/// That a sink has failed once if its command was cut, and then has a beginning of what the whole tells.
fn check_sink(rt: &impl Abort, sink: &Breaking, cut: bool, told: &str, line: &str) {
    let bytes = sink.bytes.as_slice();
    let has_begun = told.as_bytes().starts_with(bytes);
    let is_whole = bytes.len() == told.len();
    holds_at(rt, has_begun && is_whole != cut, &line);
    equal_at(rt, &sink.failed, &u64::from(cut), &line);
}

/// Whether a put failed, the last of so many that the sink takes: then the fault is told, and a beginning was taken.
fn is_cut(
    rt: &impl Abort,
    alloc: Global,
    session: &mut Session<16, 4>,
    line: &str,
    told: &str,
    left: u32,
) -> Result<bool, Fail> {
    let command = read(rt, alloc, line);
    let mut sink = Breaking::new(alloc, left);
    let answer = session.command(&Symbols::none(alloc), command, &mut sink);
    let cut = answer == Err(DebugFault::Device);
    holds_at(rt, cut || answer == Ok(Flow::Go), &line);
    check_sink(rt, &sink, cut, told, line);
    Ok(cut)
}

/// A command in a session of a program: what is typed before it, the command, and what is typed after it; what these two tell.
#[derive(Clone, Copy)]
struct Case<'a> {
    text: &'a [u32],
    harts: u32,
    before: &'a str,
    line: &'a str,
    then: &'a str,
    told: &'a str,
    shown: &'a str,
}

/// The session of a case's program, in which nothing was typed yet.
fn session_of(rt: &impl AllocGlobal, case: &Case<'_>) -> Result<Session<16, 4>, Fail> {
    let machine = booted_in(rt.alloc(), case.text, case.harts, 131_072)?;
    Ok(Session::new(machine))
}

/// Whether the command was cut in a new session, of whose puts so many are taken. What is typed after it is done all the same.
fn is_cut_then_done(
    rt: &(impl Abort + AllocGlobal),
    session: &mut Session<16, 4>,
    case: &Case<'_>,
    left: u32,
) -> Result<bool, Fail> {
    go(rt, rt.alloc(), session, case.before)?;
    let cut = is_cut(rt, rt.alloc(), session, case.line, case.told, left)?;
    check_done(rt, rt.alloc(), session, case.then, case.shown)?;
    Ok(cut)
}

/// Whether the command is cut where so many puts are taken.
fn is_cut_by(rt: &(impl Abort + AllocGlobal), case: &Case<'_>, left: u32) -> Result<bool, Fail> {
    let mut session = session_of(rt, case)?;
    is_cut_then_done(rt, &mut session, case, left)
}

/// That a new session tells the whole of the command, and of what is typed after it.
fn check_both(
    rt: &(impl Abort + AllocGlobal),
    session: &mut Session<16, 4>,
    case: &Case<'_>,
) -> Result<(), Fail> {
    go(rt, rt.alloc(), session, case.before)?;
    check_done(rt, rt.alloc(), session, case.line, case.told)?;
    check_done(rt, rt.alloc(), session, case.then, case.shown)
}

/// That each put of the command is refused in turn, until so many are taken that none is.
fn check_cuts(rt: &(impl Abort + AllocGlobal), case: &Case<'_>) -> Result<(), Fail> {
    let line = case.line;
    let mut whole = false;
    for left in 0..20 {
        whole = !is_cut_by(rt, case, left)?;
        holds_at(rt, left > 0 || !whole, &line);
    }
    holds_at(rt, whole, &line);
    Ok(())
}

/// That each put of the command is refused in turn, and that it is done all the same. For `rt try --test --fail-alloc N`: if memory runs out, it is
/// done again.
fn check(rt: &(impl Abort + AllocGlobal), case: &Case<'_>) -> Result<(), Fail> {
    check_cuts(rt, case)?;
    let mut session = session_of(rt, case)?;
    check_both(rt, &mut session, case)
}

static COMMANDS: [Case<'static>; 5] = [
    Case {
        text: &EXIT,
        harts: 1,
        before: "#",
        line: "step",
        then: "step",
        told: "0 0x00001000 05d00893 addi a7, zero, 93 | a7=0x0000005d\n",
        shown: "0 0x00001004 00000513 addi a0, zero, 0 | a0=0x00000000\n",
    },
    Case {
        text: &EXIT,
        harts: 1,
        before: "#",
        line: "run",
        then: "harts",
        told: "stopped\n",
        shown: "0 pc=0x0000100c exit 0\n",
    },
    Case {
        text: &EXIT,
        harts: 1,
        before: "break 0x1008",
        line: "run",
        then: "harts",
        told: "break hart 0 at 0x00001008\n",
        shown: "0 pc=0x00001008 running\n",
    },
    Case {
        text: &EXIT,
        harts: 1,
        before: "#",
        line: "break 0x1008",
        then: "run 2",
        told: "break set 0x00001008\n",
        shown: "break hart 0 at 0x00001008\n",
    },
    Case {
        text: &EXIT,
        harts: 1,
        before: "break 0x1008",
        line: "break 0x1008",
        then: "run",
        told: "break cleared 0x00001008\n",
        shown: "stopped\n",
    },
];

static BY_HAND: [Case<'static>; 7] = [
    Case {
        text: &LOADS_AND_STORES,
        harts: 1,
        before: "core 0",
        line: "core 0",
        then: "messages",
        told: "sent get 0 0x00002000 read stamp -\n",
        shown: "get 0 0x00002000 read stamp -\n",
    },
    Case {
        text: &LOADS_AND_STORES,
        harts: 1,
        before: "run 2",
        line: "core 0",
        then: "messages",
        told: "nothing\n",
        shown: "get 0 0x00002000 read stamp -\n",
    },
    // The turns are lui of each hart, hart 0's request with its three messages, its load, and hart 1's request.
    Case {
        text: &LOADS_AND_STORES,
        harts: 2,
        before: "run 8",
        line: "deliver get 1 0x2000",
        then: "dir 0x2000",
        told: "sent grant 1 0x00002000 S expect 0 content 0x00000000\nsent forward 0 0x00002000 read for 1 stamp -\n",
        shown: "owned 0 sharers - busy 1 S\n",
    },
    Case {
        text: &LOADS_AND_STORES,
        harts: 1,
        before: "run 4",
        line: "deliver done 0 0x2000",
        then: "dirs",
        told: "done\n",
        shown: "0x00002000 owned 0 sharers - busy -\n",
    },
    Case {
        text: &LOADS_AND_STORES,
        harts: 1,
        before: "run 6",
        line: "evict 0 0x2000",
        then: "line 0 0x2000",
        told: "sent put 0 0x00002000 unmarked content 0x00000000\n",
        shown: "none\n",
    },
    Case {
        text: &COMMITS,
        harts: 1,
        before: "run 8",
        line: "evict 0 0x2000",
        then: "tx 0",
        told: "0 spills block 0x00002000\n",
        shown: "depth 1 records 1 stamp 0.0 overflow\n",
    },
    Case {
        text: &COMMITS,
        harts: 1,
        before: "run 8",
        line: "log 0x1f000",
        then: "dis 0x1004",
        told: "0x0001f000 = 0x00002000\n",
        shown: "0x00001004: 000022b7  lui t0, 0x2\n",
    },
];

#[test]
fn a_command_that_is_cut_is_done(rt: HostRuntime) -> Result<(), Fail> {
    for case in &COMMANDS {
        check(&rt, case)?;
    }
    Ok(())
}

#[test]
fn a_step_by_hand_that_is_cut_is_done(rt: HostRuntime) -> Result<(), Fail> {
    for case in &BY_HAND {
        check(&rt, case)?;
    }
    Ok(())
}

#[test]
fn what_tells_nothing_meets_no_fault(rt: HostRuntime) -> Result<(), Fail> {
    let mut session: Session<16, 4> = Session::new(booted_in(rt.alloc(), &EXIT, 1, 131_072)?);
    let mut sink = Breaking::new(rt.alloc(), 0);
    let names = Symbols::none(rt.alloc());
    equal(
        &rt,
        &session.command(&names, Command::Quit, &mut sink),
        &Ok(Flow::Quit),
    );
    equal(
        &rt,
        &session.command(&names, Command::Comment, &mut sink),
        &Ok(Flow::Go),
    );
    Ok(())
}
