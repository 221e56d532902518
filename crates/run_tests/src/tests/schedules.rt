//! Lines with what they spell, and the steps of a machine.
use super::booted::booted;
use crate::tests::claims::{equal, equal_at, equal_items, holds, holds_at};
use machine::{Machine, Silent};
use reference::COMMITS;
use schedule::{Choice, Name, ScheduleFault, Sort, Turns, choice, name_of, play, read};
use std::process::Abort;
use words::{Addr, BlockNo, HartId, Message, Status, Step};

fn hart(number: u8) -> HartId {
    match HartId::try_new(number as usize) {
        Some(hart) => hart,
        None => HartId::new(0),
    }
}

fn named(sort: Sort, number: u8, block: u32) -> Option<Choice> {
    Some(Choice::Deliver(Name {
        sort,
        hart: hart(number),
        block: BlockNo::new(block),
    }))
}

#[test]
fn lines_are_taken(rt: HostRuntime) {
    let cases = [
        ("turn", Some(Choice::Turn)),
        ("core 0", Some(Choice::Core(hart(0)))),
        ("core 0x7", Some(Choice::Core(hart(7)))),
        (
            "evict 1 0x2000",
            Some(Choice::Evict(hart(1), BlockNo::new(256))),
        ),
        (
            "evict 1 8220",
            Some(Choice::Evict(hart(1), BlockNo::new(256))),
        ),
        (
            "evict 1 0xFFFFFFFC",
            Some(Choice::Evict(hart(1), BlockNo::new(0x07ff_ffff))),
        ),
        ("deliver get 1 0x2000", named(Sort::Get, 1, 256)),
        ("deliver put 0 0", named(Sort::Put, 0, 0)),
        ("deliver done 2 32", named(Sort::Done, 2, 1)),
        ("deliver grant 3 0x40", named(Sort::Grant, 3, 2)),
        ("deliver forward 4 0x44", named(Sort::Forward, 4, 2)),
        ("deliver putack 5 28", named(Sort::PutAck, 5, 0)),
        ("deliver ack 6 0x2000", named(Sort::Ack, 6, 256)),
        ("deliver nack 07 0x02000", named(Sort::Nack, 7, 256)),
    ];
    for (line, want) in cases {
        equal_at(&rt, &choice(line), &want, &line);
    }
}

/// Lines that are no steps, with a | behind each.
const REFUSED: &str =
    "| |turn | turn|turn 1|Turn|core|core |core 8|core -1|core 1 |core  1|core 1 2|core x|core\t1|evict 1|evict 1 0x2001|\
    evict 1 0x2002|evict 8 0x2000|evict 1 0x100000000|evict 1 0x2000 0|evict 1  0x2000|deliver|deliver get|deliver get 1|deliver 1 0x2000|\
    deliver Get 1 0x2000|deliver gets 1 0x2000|deliver get 1 0x2000 read|deliver get 1 2|# turn|step";

#[test]
fn lines_are_refused(rt: HostRuntime) {
    for line in REFUSED.split('|') {
        holds_at(&rt, choice(line).is_none(), &line);
    }
}

#[test]
fn texts_are_read(rt: HostRuntime) {
    let text = "# a comment\ncore 1\n\n#\nturn\ndeliver ack 0 0x20\n";
    let ack = named(Sort::Ack, 0, 1).expect(&rt, "a choice");
    let want = [Choice::Core(hart(1)), Choice::Turn, ack];
    match read(rt.alloc(), text) {
        Ok(choices) => equal_items(&rt, &choices, &want),
        Err(fault) => equal(&rt, &fault, &ScheduleFault::NoMemory),
    }
    for (text, line) in [("turns", 1), ("turn\n\n#\n core 0\n?", 4), ("turn\r\n", 1)] {
        match read(rt.alloc(), text) {
            Ok(_) => holds(&rt, false),
            Err(ScheduleFault::NoMemory) => {}
            Err(fault) => equal(&rt, &fault, &ScheduleFault::Line(line)),
        }
    }
}

#[test]
fn answers_are_named_for_their_senders(rt: HostRuntime) {
    let ack = Message::Ack {
        from: hart(1),
        to: hart(2),
        block: BlockNo::new(3),
        content: None,
    };
    let forward = Message::Forward {
        to: hart(1),
        block: BlockNo::new(3),
        kind: words::Kind::Read,
        requester: hart(2),
        stamp: None,
    };
    equal(
        &rt,
        &Some(Choice::Deliver(name_of(&ack))),
        &named(Sort::Ack, 1, 3),
    );
    equal(
        &rt,
        &Some(Choice::Deliver(name_of(&forward))),
        &named(Sort::Forward, 1, 3),
    );
    equal(&rt, &Sort::PutAck.name(), &"putack");
}

/// Goes on by these choices and turns, so many steps.
fn go(rt: &impl Abort, machine: &mut Machine<16, 4>, choices: &[Choice], steps: u32) {
    play(machine, choices, steps, &mut Turns, &mut Silent).expect(rt, "memory");
}

/// The step that a choice is in the machine of a program, once its hart has gone on by so many of its first four steps. The fourth asks for
/// the block at 0x2000.
fn step_after(rt: &(impl Abort + AllocGlobal), steps: u32, choice: Choice) -> Option<Step> {
    let mut machine = booted(rt, &COMMITS, 1);
    go(rt, &mut machine, &[Choice::Core(hart(0)); 4], steps.min(4));
    choice.step(&machine, hart(0))
}

#[test]
fn a_message_is_found_by_its_name(rt: HostRuntime) {
    let get = named(Sort::Get, 0, 256).expect(&rt, "a choice");
    equal(&rt, &step_after(&rt, 0, get), &None);
    let found = step_after(&rt, 4, get);
    holds(&rt, matches!(found, Some(Step::Deliver(_))));
    equal(&rt, &step_after(&rt, 4, Choice::Turn), &found);
    for (sort, number, block) in [
        (Sort::Put, 0, 256),
        (Sort::Get, 1, 256),
        (Sort::Get, 0, 257),
    ] {
        let other = named(sort, number, block).expect(&rt, "a choice");
        equal(&rt, &step_after(&rt, 4, other), &None);
    }
}

/// How a program's hart stands, and what stands at 0x2000, once these choices and turns were followed, by so many steps in all.
fn followed(
    rt: &(impl Abort + AllocGlobal),
    choices: &[Choice],
    steps: u32,
) -> (Status, Option<u32>) {
    let mut machine = booted(rt, &COMMITS, 1);
    go(rt, &mut machine, choices, steps);
    let (_, _, status) = machine.regs(hart(0)).expect(rt, "a hart");
    (status, machine.peek(Addr::new(0x2000)))
}

#[test]
fn choices_and_turns_are_followed(rt: HostRuntime) {
    let choices = [
        Choice::Core(hart(0)),
        Choice::Core(hart(1)),
        Choice::Evict(hart(0), BlockNo::new(256)),
    ];
    // Twelve steps to the end, and two more that change nothing.
    for (choices, steps, status) in [
        (&choices[..], 13, Status::Running),
        (&choices[..], 14, Status::Exited(0)),
        (&[], 100, Status::Exited(0)),
    ] {
        equal(&rt, &followed(&rt, choices, steps), &(status, Some(7)));
    }
}
