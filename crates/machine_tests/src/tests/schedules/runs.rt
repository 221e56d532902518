//! Lists of steps, cut and not, and with want of memory.

use super::alike::check_alike;
use super::machines::{SIZE, booted, make, next_turn, peek};
use super::play::checked;
use super::programs::{one, place, zero};
use crate::tests::claims::{equal, holds, holds_at};
use flat::BootFault;
use loader::{Program, read_elf};
use machine::Machine;
use reference::{COMMITS, COUNTS, elf_file};
use std::alloc::{AllocError, Global};
use std::process::Abort;
use std::test::Fail;
use words::{Entry, Step};

/// The machine's turns for two harts, so many at most, which are made one by one, and their entries.
fn take_turns(
    machine: &mut Machine<16, 4>,
    most: usize,
    steps: &mut Vec<Step>,
    entries: &mut Vec<Entry>,
) -> Result<(), AllocError> {
    let mut last = one();
    for _ in 0..most {
        let Some(turn) = next_turn(machine, last) else {
            break;
        };
        if let Step::Core(hart) = turn {
            last = hart;
        }
        steps.push(turn)?;
        if let Some(pushed) = steps.last() {
            make(machine, *pushed, entries)?;
        }
    }
    Ok(())
}

/// A run that is cut after so many steps, and goes on from there.
fn run_in_two(
    rt: &impl Abort,
    machine: &mut Machine<16, 4>,
    steps: &[Step],
    cut: usize,
    entries: &mut Vec<Entry>,
) {
    let (before, after) = steps.split_at(cut.min(steps.len()));
    holds(rt, machine.run(before, entries).is_ok());
    holds(rt, machine.run(after, entries).is_ok());
}

/// That the plain machine takes the entries, and then shows what the machine does.
fn check_entries(
    rt: &(impl Abort + AllocGlobal),
    machine: &Machine<16, 4>,
    entries: &[Entry],
) -> Result<(), Fail> {
    let checker = checked(rt.alloc(), &COUNTS, 2, SIZE, entries)?;
    check_alike(rt, machine, &checker);
    Ok(())
}

/// That a run which is cut after so many steps gives these entries.
fn check_cut(
    rt: &(impl Abort + AllocGlobal),
    steps: &[Step],
    cut: usize,
    whole: &[Entry],
) -> Result<(), Fail> {
    let mut machine = booted::<16, 4>(rt.alloc(), &COUNTS, 2, SIZE)?;
    let mut entries = Vec::new(rt.alloc());
    run_in_two(rt, &mut machine, steps, cut, &mut entries);
    holds_at(rt, entries.as_slice() == whole, &cut);
    check_entries(rt, &machine, &entries)
}

/// The turns of two harts that count, and their entries.
fn turns_of_two(
    rt: &(impl Abort + AllocGlobal),
    steps: &mut Vec<Step>,
    entries: &mut Vec<Entry>,
) -> Result<(), Fail> {
    let mut machine = booted::<16, 4>(rt.alloc(), &COUNTS, 2, SIZE)?;
    take_turns(&mut machine, 20_000, steps, entries).expect(rt, "memory");
    Ok(())
}

#[test]
fn a_run_that_is_cut_goes_on(rt: HostRuntime) -> Result<(), Fail> {
    let mut steps = Vec::new(rt.alloc());
    let mut whole = Vec::new(rt.alloc());
    turns_of_two(&rt, &mut steps, &mut whole)?;
    holds(&rt, whole.len() >= 1400);
    for cut in [0, 1, 2, 3, 10, 1000, 2999, 20_000] {
        check_cut(&rt, &steps, cut, &whole)?;
    }
    Ok(())
}

/// A step, tried again if memory ran out.
fn step_or_again(machine: &mut Machine<2, 1>, step: &Step) -> Result<(), AllocError> {
    match machine.step(*step) {
        Ok(_) => Ok(()),
        Err(_) => match machine.step(*step) {
            Ok(_) => Ok(()),
            Err(fault) => Err(fault),
        },
    }
}

/// A run, gone on with from the step that wanted memory if memory ran out.
fn run_or_go_on(
    machine: &mut Machine<2, 1>,
    steps: &[Step],
    entries: &mut Vec<Entry>,
) -> Result<(), AllocError> {
    match machine.run(steps, entries) {
        Ok(()) => Ok(()),
        Err((made, _)) => match machine.run(&steps[made.min(steps.len())..], entries) {
            Ok(()) => Ok(()),
            Err((_, fault)) => Err(fault),
        },
    }
}

/// A program. `None` where memory ran out.
fn program_or_none(alloc: Global) -> Option<Program> {
    let Ok(file) = elf_file(alloc, &COMMITS) else {
        return None;
    };
    read_elf(alloc, &file).ok()
}

/// The machine that it begins in. `None` where memory ran out.
fn booted_or_none(rt: &(impl Abort + AllocGlobal)) -> Option<Machine<2, 1>> {
    let Some(program) = program_or_none(rt.alloc()) else {
        return None;
    };
    match Machine::<2, 1>::boot(rt.alloc(), program, 1, 65_536) {
        Ok(machine) => Some(machine),
        Err(fault) => {
            equal(rt, &fault, &BootFault::NoMemory);
            None
        }
    }
}

/// The machine's first twelve turns, which are made.
fn twelve_turns(rt: &impl Abort, machine: &mut Machine<2, 1>) -> [Step; 12] {
    let mut steps = [Step::Core(zero()); 12];
    for k in 0..12 {
        steps[k] = next_turn(machine, zero()).expect(rt, "a turn");
        step_or_again(machine, &steps[k]).expect(rt, "memory");
    }
    steps
}

/// That no turn is left, and 7 stands at 0x2000.
fn check_end(rt: &impl Abort, machine: &Machine<2, 1>) {
    equal(rt, &next_turn(machine, zero()), &None);
    equal(rt, &peek(machine, place()), &Some(7));
}

/// The twelve turns of the program, each tried again if memory ran out. `None` where there was none to begin with.
fn turns_or_none(rt: &(impl Abort + AllocGlobal)) -> Option<[Step; 12]> {
    let Some(mut machine) = booted_or_none(rt) else {
        return None;
    };
    let steps = twelve_turns(rt, &mut machine);
    check_end(rt, &machine);
    Some(steps)
}

/// That these steps in one run lead to the same end.
fn check_run(rt: &(impl Abort + AllocGlobal), machine: &mut Machine<2, 1>, steps: &[Step]) {
    let mut entries = Vec::new(rt.alloc());
    run_or_go_on(machine, steps, &mut entries).expect(rt, "memory");
    check_end(rt, machine);
    equal(rt, &entries.len(), &8);
}

// For `rt try --test --fail-alloc N`: memory that runs out once changes nothing, whichever allocation is refused.
#[test]
fn runs_or_wants_memory(rt: HostRuntime) {
    let Some(steps) = turns_or_none(&rt) else {
        return;
    };
    if let Some(mut machine) = booted_or_none(&rt) {
        check_run(&rt, &mut machine, &steps);
    }
}
