//! The words that a program retires, and what is left where one of them isn't noted.
ghost use Rattle.std.specs.Prelude.{⊤};

use super::booted::booted;
use crate::tests::claims::{equal, equal_items};
use machine::{Machine, Silent};
use network::Flight;
use reference::COMMITS;
use schedule::{Choice, Halt, Observer, Turns, Unseen, run};
use std::process::Abort;
use words::{Addr, Entry, HartId, Step};

/// The words that were retired, while there is room for them.
#[derive(Drop)]
struct Words {
    retired: Vec<u32>,
    most: usize,
}

struct Collector;

impl<const SETS: usize, const WAYS: usize> Observer<SETS, WAYS, Words> for Collector {
    ghost saw = { λ _ _ _ _. ⊤ };

    ghost missed = { λ _ _ _ _. ⊤ };

    fn note(
        &self,
        _sent: u64,
        _step: &Step,
        _arrival: &Option<Flight>,
        entry: &Option<Entry>,
        _machine: &Machine<SETS, WAYS>,
        log: &mut Words,
    ) -> Result<(), Unseen> {
        let Some(entry) = entry else {
            return Ok(());
        };
        if log.retired.len() == log.most {
            return Err(Unseen);
        }
        match entry {
            Entry::Retire { word, .. } => match log.retired.push(*word) {
                Ok(()) => Ok(()),
                Err(_) => Err(Unseen),
            },
            _ => Ok(()),
        }
    }
}

/// How a watched run of the program ended, and what it left.
#[derive(Drop)]
struct Watched {
    ended: Result<(), Halt>,
    retired: Vec<u32>,
    word: Option<u32>,
    pc: Addr,
}

/// Watches the program, of whose steps so many are chosen, for so many steps, with room for so many words.
fn watch_run(rt: &(impl Abort + AllocGlobal), chosen: usize, steps: u32, most: usize) -> Watched {
    let mut machine = booted(rt, &COMMITS, 1);
    let mut words = Words {
        retired: Vec::new(rt.alloc()),
        most,
    };
    let choices = [Choice::Core(HartId::new(0)); 3];
    let choices = &choices[..chosen.min(3)];
    let ended = run(
        &mut machine,
        choices,
        steps,
        &mut Turns,
        &Collector,
        &mut words,
        &mut Silent,
    );
    let (_, pc, _) = machine.regs(HartId::new(0)).expect(rt, "a hart");
    Watched {
        ended,
        retired: words.retired,
        word: machine.peek(Addr::new(0x2000)),
        pc,
    }
}

#[test]
fn each_retired_word_is_noted(rt: HostRuntime) {
    for chosen in [0, 3] {
        let run = watch_run(&rt, chosen, 100, 100);
        if run.ended != Err(Halt::NoMemory) {
            equal(&rt, &run.ended, &Ok(()));
            equal_items(&rt, &run.retired[..], &COMMITS);
            equal(&rt, &run.word, &Some(7));
        }
    }
}

#[test]
fn the_step_of_a_missed_entry_is_made(rt: HostRuntime) {
    for chosen in [0, 3] {
        let run = watch_run(&rt, chosen, 100, 2);
        if run.ended != Err(Halt::NoMemory) {
            equal(&rt, &run.ended, &Err(Halt::Untold));
            equal_items(&rt, &run.retired[..], &COMMITS[..2]);
            equal(&rt, &run.pc, &Addr::new(0x100c));
        }
    }
}

#[test]
fn so_many_steps_are_made(rt: HostRuntime) {
    let run = watch_run(&rt, 0, 2, 100);
    equal(&rt, &run.ended, &Ok(()));
    equal_items(&rt, &run.retired[..], &COMMITS[..2]);
}
