//! Looks at programs on the coherent machine, with each put refused in turn.
use super::booted::{STORES_ONCE, booted_in};
use crate::tests::claims::{equal_at, holds_at};
use debugger::commands::{DebugFault, Look, help, look};
use disassembler::Symbols;
use machine::Machine;
use reference::{Breaking, COMMITS};
use std::alloc::AllocError;
use std::process::Abort;
use std::test::Fail;
use words::{HartId, Step};

/// The address that the programs store to.
const PLACE: u32 = 0x2000;

/// How many bytes of memory the machines have.
const SIZE: u32 = 1_048_576;

/// One step, enabled or not. The answer is whether it gave an entry.
fn make<const SETS: usize, const WAYS: usize>(
    machine: &mut Machine<SETS, WAYS>,
    step: Step,
) -> Result<bool, AllocError> {
    Ok(machine.step(step)?.is_some())
}

/// Takes turns, hart 0's, until so many gave an entry, by a thousand at most.
fn go(machine: &mut Machine<16, 4>, wanted: u32) -> Result<(), AllocError> {
    let mut given = 0;
    for _ in 0..1000 {
        if given >= wanted {
            return Ok(());
        }
        let Some(turn) = machine.next_turn(HartId::new(0)) else {
            return Ok(());
        };
        if make(machine, turn)? {
            given += 1;
        }
    }
    Ok(())
}

/// Both harts ask for the block at 0x2000, and hart 0's request arrives.
fn ask(machine: &mut Machine<2, 1>) -> Result<(), Fail> {
    for number in 0..2 {
        for _ in 0..3 {
            make(machine, Step::Core(HartId::new(number)))?;
        }
    }
    let oldest = machine.next_from(0).ok_or("no message")?.number;
    make(machine, Step::Deliver(oldest as usize))?;
    Ok(())
}

const REGISTERS: &str = "\
zero=0x00000000 ra=0x00000000 sp=0x000ff000 gp=0x00000000
tp=0x00000000 t0=0x00000000 t1=0x00000000 t2=0x00000000
s0=0x00000000 s1=0x00000000 a0=0x00000000 a1=0x00000001
a2=0x00000000 a3=0x00000000 a4=0x00000000 a5=0x00000000
a6=0x00000000 a7=0x00000000 s2=0x00000000 s3=0x00000000
s4=0x00000000 s5=0x00000000 s6=0x00000000 s7=0x00000000
s8=0x00000000 s9=0x00000000 s10=0x00000000 s11=0x00000000
t3=0x00000000 t4=0x00000000 t5=0x00000000 t6=0x00000000
pc=0x00001000 running
";

/// That each put of these looks, each with what it shows, is refused in turn: then the fault is told, and a beginning was taken.
fn check_cut<const SETS: usize, const WAYS: usize>(
    rt: &(impl Abort + AllocGlobal),
    machine: &Machine<SETS, WAYS>,
    looks: &[(Look, &str)],
) {
    for (what, shown) in looks {
        let mut whole = false;
        for left in 0..200 {
            let mut sink = Breaking::new(rt.alloc(), left);
            let answer = look(machine, &Symbols::none(rt.alloc()), *what, &mut sink);
            whole = answer == Ok(());
            holds_at(rt, whole || answer == Err(DebugFault::Device), &shown);
            equal_at(rt, &(sink.failed == 0), &whole, &shown);
            holds_at(rt, shown.as_bytes().starts_with(&sink.bytes), &shown);
            equal_at(rt, &(sink.bytes.len() == shown.len()), &whole, &shown);
            holds_at(rt, left > 0 || !whole, &shown);
        }
        holds_at(rt, whole, &shown);
    }
}

static OF_TWO: [(Look, &str); 5] = [
    (Look::Dirs, "0x00002000 owner none sharers - busy 0 M\n"),
    (
        Look::Messages,
        "get 1 0x00002000 write stamp - held\ngrant 0 0x00002000 M expect - content 0x00000000\n",
    ),
    (
        Look::Harts,
        "0 pc=0x00001008 running waits 0x00002000\n1 pc=0x00001008 running waits 0x00002000\n",
    ),
    (Look::Line(0, PLACE), "none\n"),
    (Look::Tx(1), "none\n"),
];

static OF_STORED: [(Look, &str); 9] = [
    (Look::Word(PLACE), "0x00002000 = 0x00000000\n"),
    (Look::Raw(PLACE), "0x00002000 = 0x00000007\n"),
    (Look::View(0, PLACE), "0x00002000 = 0x00000007\n"),
    (Look::Line(0, PLACE), "M -w-\n"),
    (Look::Dir(PLACE), "owned 0 sharers - busy -\n"),
    (Look::Tx(0), "depth 1 records 1 stamp 0.0\n"),
    (Look::Log(0xff000), "0x000ff000 = 0x00002000\n"),
    (Look::Dis(0x1000), "0x00001000: 00000a0b  tbegin 20\n"),
    (Look::Harts, "0 pc=0x00001010 running depth 1\n"),
];

/// That the looks are cut where two harts both want the block at 0x2000: hart 0's request is granted, and hart 1's is held.
fn check_two(rt: &(impl Abort + AllocGlobal), machine: &mut Machine<2, 1>) -> Result<(), Fail> {
    ask(machine)?;
    check_cut(rt, machine, &OF_TWO);
    Ok(())
}

#[test]
fn each_put_fails_in_turn(rt: HostRuntime) -> Result<(), Fail> {
    let mut machine = booted_in::<2, 1>(rt.alloc(), &STORES_ONCE, 2, SIZE)?;
    check_two(&rt, &mut machine)
}

/// That the looks are cut where hart 0 has stored in its transaction.
fn check_stored(rt: &(impl Abort + AllocGlobal), machine: &mut Machine<16, 4>) -> Result<(), Fail> {
    go(machine, 4)?;
    check_cut(rt, machine, &OF_STORED);
    Ok(())
}

#[test]
fn each_put_about_a_transaction_fails_in_turn(rt: HostRuntime) -> Result<(), Fail> {
    let mut machine = booted_in::<16, 4>(rt.alloc(), &COMMITS, 1, SIZE)?;
    check_stored(&rt, &mut machine)
}

/// That the looks are cut where a program begins.
fn check_begun(rt: &(impl Abort + AllocGlobal), machine: &Machine<16, 4>) {
    let looks = [(Look::Regs(0), REGISTERS), (Look::Help, help())];
    check_cut(rt, machine, &looks);
}

#[test]
fn each_put_of_registers_and_help_fails_in_turn(rt: HostRuntime) -> Result<(), Fail> {
    let machine = booted_in::<16, 4>(rt.alloc(), &COMMITS, 1, SIZE)?;
    check_begun(&rt, &machine);
    Ok(())
}
