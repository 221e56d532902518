//! Lines with what they spell.
use crate::tests::claims::equal_at;
use debugger::commands::{Command, Look, command_of};
use disassembler::Symbols;
use schedule::Sort;
use std::process::Abort;

static COMMANDS: [(&str, Command); 29] = [
    ("step", Command::Step),
    ("run", Command::Run(1_000_000)),
    ("run 0", Command::Run(0)),
    ("run 20", Command::Run(20)),
    ("run 4294967295", Command::Run(0xffff_ffff)),
    ("break 0x1004", Command::Break(4100)),
    ("break 3", Command::Break(3)),
    ("core 1", Command::Core(1)),
    ("core 99", Command::Core(99)),
    ("evict 1 0x2000", Command::Evict(1, 8192)),
    ("deliver get 1 0x2000", Command::Deliver(Sort::Get, 1, 8192)),
    ("deliver putack 0 5", Command::Deliver(Sort::PutAck, 0, 5)),
    ("#", Command::Comment),
    ("# step", Command::Comment),
    ("#step  ", Command::Comment),
    ("quit", Command::Quit),
    ("regs 0", Command::Look(Look::Regs(0))),
    ("word 0x2000", Command::Look(Look::Word(8192))),
    ("raw 8192", Command::Look(Look::Raw(8192))),
    ("view 1 0xA", Command::Look(Look::View(1, 10))),
    ("line 1 0xa", Command::Look(Look::Line(1, 10))),
    ("dir 0", Command::Look(Look::Dir(0))),
    ("dirs", Command::Look(Look::Dirs)),
    ("tx 7", Command::Look(Look::Tx(7))),
    ("log 0xfFfFfFfC", Command::Look(Look::Log(4_294_967_292))),
    ("dis 4096", Command::Look(Look::Dis(4096))),
    ("messages", Command::Look(Look::Messages)),
    ("harts", Command::Look(Look::Harts)),
    ("help", Command::Look(Look::Help)),
];

/// That a line spells this command.
fn check_read(rt: &(impl Abort + AllocGlobal), line: &str, want: Command) {
    equal_at(
        rt,
        &command_of(&Symbols::none(rt.alloc()), line),
        &Some(want),
        &line,
    );
}

#[test]
fn commands_are_read(rt: HostRuntime) {
    for (line, want) in &COMMANDS {
        check_read(&rt, line, *want);
    }
}
