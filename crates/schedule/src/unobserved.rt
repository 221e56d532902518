ghost use Rattle.std.specs.Prelude.{ℕ, ◌<◌, List, OnOk, OnErr};
ghost use Rattle.machine.specs.States.{geometry};
ghost use Rattle.schedule.specs.Courses.{IsUnbegun, course, forgotten};
ghost use Rattle.schedule.specs.Moments.{Moment};
ghost use Rattle.schedule.specs.Runs.{Plays};

use crate::choices::Choice;
use crate::chooser::Chooser;
use crate::halt::{Halt, Unseen};
use crate::observer::Observer;
use crate::runs::run;
use machine::{Machine, Progress, Turned};
use network::Flight;
use std::alloc::AllocError;
use words::{Entry, Step};

/// Nobody sees a run.
#[derive(Clone, Copy, Debug)]
struct Unobserved;

impl<const SETS: usize, const WAYS: usize> Observer<SETS, WAYS, ()> for Unobserved {
    ghost saw = { λ _ _ _ _. Unit {0} };

    ghost missed = { λ _ _ _ _. ⊥ };

    fn note(
        &self,
        _sent: u64,
        _step: &Step,
        _arrival: &Option<Flight>,
        _entry: &Option<Entry>,
        _machine: &Machine<SETS, WAYS>,
        _log: &mut (),
    ) -> Result<(), Unseen> {
        Ok(())
    }

    #[inline(always)]
    fn make(
        &self,
        machine: &mut Machine<SETS, WAYS>,
        step: Step,
        declined: bool,
        _log: &mut (),
    ) -> Result<(), Halt> {
        machine.take_step(step, declined)?;
        Ok(())
    }

    #[inline(always)]
    fn take_turns(
        &self,
        machine: &mut Machine<SETS, WAYS>,
        last: Turned,
        most: u32,
        _log: &mut (),
    ) -> Result<(u32, Turned), Unseen> {
        Ok(machine.take_turns(last, most))
    }
}

/// Makes the choices in order, and the steps that the chooser gives behind the last of them, as [`run`] does, and nobody sees them. Progress is told on the way. It fails only if
/// memory runs out, which leaves the machine where the steps before led.
pub fn play<const SETS: usize, const WAYS: usize, C: Chooser<SETS, WAYS>, P: Progress>(
    machine: &mut Machine<SETS, WAYS>,
    choices: &[Choice],
    steps: u32,
    chooser: &mut C,
    progress: &mut P,
) -> Result<(), AllocError>
    requires { IsUnbegun (C.behind chooser.old) }
    ensures ok { OnOk result ((ms : List Moment) × Plays (geometry SETS WAYS) (course choices.now (C.behind chooser.new)) steps machine.old ms machine.new) }
    ensures err { OnErr result ((n : ℕ) × (n < steps) × (ms : List Moment)
        × Plays (geometry SETS WAYS) (course choices.now (forgotten (C.behind chooser.new))) n machine.old ms machine.new) }
{
    match run(
        machine,
        choices,
        steps,
        chooser,
        &Unobserved,
        &mut (),
        progress,
    ) {
        Ok(()) => Ok(()),
        Err(Halt::NoMemory) => Err(AllocError),
        Err(Halt::Untold) => unreachable!(),
    }
}
