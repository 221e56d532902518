//! Steps by chance: a run played again by its history, the same seed twice, and other seeds.

use super::booted::booted_in;
use crate::tests::claims::{equal, holds};
use machine::{Machine, Silent};
use reference::COUNTS;
use schedule::{Chance, Choice, KeptChance, Mix, Turns, play, put_history, read};
use std::process::Abort;
use std::str;
use std::test::Fail;
use words::{Addr, HartId, Taken};

/// Many evictions.
const MIX: Mix = Mix {
    cores: 4,
    arrivals: 4,
    evictions: 2,
};

/// More steps than these runs have.
const STEPS: u32 = 1_000_000;

/// Two harts that count to 200 in transactions.
fn begun(rt: &impl AllocGlobal) -> Result<Machine<2, 1>, Fail> {
    booted_in(rt.alloc(), &COUNTS, 2, 131_072)
}

/// Plays a machine by a seed, and puts the history as a schedule.
fn put_played(
    rt: &(impl Abort + AllocGlobal),
    machine: &mut Machine<2, 1>,
    seed: u64,
    sink: &mut Taken,
) -> Result<(), Fail> {
    let mut chance = KeptChance::new(rt.alloc(), Chance::new(seed, MIX));
    play(machine, &[], STEPS, &mut chance, &mut Silent)?;
    holds(rt, put_history(sink, chance.history()).is_ok());
    Ok(())
}

/// Plays a machine by a seed. The history of it, as a schedule.
fn history_of(
    rt: &(impl Abort + AllocGlobal),
    machine: &mut Machine<2, 1>,
    seed: u64,
) -> Result<Vec<u8>, Fail> {
    let mut sink = Taken {
        bytes: Vec::new(rt.alloc()),
        failed: 0,
    };
    put_played(rt, machine, seed, &mut sink)?;
    Ok(sink.bytes)
}

/// The history of a run by a seed, as a schedule, and the machine behind it.
fn played(rt: &(impl Abort + AllocGlobal), seed: u64) -> Result<(Vec<u8>, Machine<2, 1>), Fail> {
    let mut machine = begun(rt)?;
    let list = history_of(rt, &mut machine, seed)?;
    Ok((list, machine))
}

/// That two machines have the same registers and memory.
fn check_same(rt: &impl Abort, machine: &Machine<2, 1>, other: &Machine<2, 1>) {
    for number in 0..2 {
        let hart = HartId::new(number);
        equal(rt, &machine.regs(hart), &other.regs(hart));
    }
    for word in 0..2048u32 {
        let addr = Addr::new(0x1000 + 4 * word);
        equal(rt, &machine.peek(addr), &other.peek(addr));
    }
}

/// Plays these choices in a machine, so many steps.
fn follow(machine: &mut Machine<2, 1>, choices: &[Choice]) -> Result<(), Fail> {
    let steps = choices.len().min(1_000_000) as u32;
    play(machine, choices, steps, &mut Turns, &mut Silent)?;
    Ok(())
}

/// That a machine is the one that these choices lead to.
fn check_followed(
    rt: &(impl Abort + AllocGlobal),
    machine: &Machine<2, 1>,
    choices: &[Choice],
) -> Result<(), Fail> {
    let mut again = begun(rt)?;
    follow(&mut again, choices)?;
    check_same(rt, machine, &again);
    Ok(())
}

/// That a machine is the one that a history leads to.
fn check_history(
    rt: &(impl Abort + AllocGlobal),
    machine: &Machine<2, 1>,
    list: &[u8],
) -> Result<(), Fail> {
    let choices: Vec<Choice> = read(rt.alloc(), str::from_utf8(list)?)?;
    check_followed(rt, machine, &choices)
}

/// That the history of a run by a seed leads to the same machine.
fn check_played(rt: &(impl Abort + AllocGlobal), seed: u64) -> Result<(), Fail> {
    let (list, machine) = played(rt, seed)?;
    check_history(rt, &machine, &list)
}

#[test]
fn a_history_is_played_again(rt: HostRuntime) -> Result<(), Fail> {
    for seed in 1..4 {
        check_played(&rt, seed)?;
    }
    Ok(())
}

/// That a run by the seed 5 has this history, and this machine behind it.
fn check_same_seed(
    rt: &(impl Abort + AllocGlobal),
    first: &Vec<u8>,
    machine: &Machine<2, 1>,
) -> Result<(), Fail> {
    let (again, other) = played(rt, 5)?;
    holds(rt, *first == again);
    check_same(rt, machine, &other);
    Ok(())
}

/// That a run by the seed 6 has another history.
fn check_other_seed(rt: &(impl Abort + AllocGlobal), first: &Vec<u8>) -> Result<(), Fail> {
    let (another, _) = played(rt, 6)?;
    holds(rt, *first != another);
    Ok(())
}

/// That the seed 5 gives this history and this machine again, and the seed 6 another history.
fn check_seeds(
    rt: &(impl Abort + AllocGlobal),
    first: &Vec<u8>,
    machine: &Machine<2, 1>,
) -> Result<(), Fail> {
    check_same_seed(rt, first, machine)?;
    check_other_seed(rt, first)
}

#[test]
fn a_seed_says_all(rt: HostRuntime) -> Result<(), Fail> {
    let (first, machine) = played(&rt, 5)?;
    check_seeds(&rt, &first, &machine)
}

/// That a machine's run by a seed ends, with the count at 200.
fn check_end(rt: &impl Abort, machine: &mut Machine<2, 1>, seed: u64) -> Result<(), Fail> {
    let mut chance = Chance::new(seed, MIX);
    play(machine, &[], STEPS, &mut chance, &mut Silent)?;
    holds(rt, !machine.runs());
    equal(rt, &machine.peek(Addr::new(0x2000)), &Some(200));
    Ok(())
}

/// That a new machine's run by a seed ends so.
fn check_run(rt: &(impl Abort + AllocGlobal), seed: u64) -> Result<(), Fail> {
    let mut machine = begun(rt)?;
    check_end(rt, &mut machine, seed)
}

#[test]
fn a_run_by_chance_ends(rt: HostRuntime) -> Result<(), Fail> {
    for seed in 0..8 {
        check_run(&rt, seed)?;
    }
    Ok(())
}
