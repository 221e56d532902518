//! How a run begins.
ghost use Rattle.std.specs.Prelude.{◌<◌, ◌*◌, ◌^◌, ℕ, List, MatchResult};
ghost use Rattle.machine.specs.States.{geometry};
ghost use Rattle.requests.specs.Begins.{CanShow, IsBegunBy, IsUnbegun, IsUnready};
ghost use Rattle.requests.specs.Starts.{IsStartOf, IsStartFault};

use crate::fault::Fault;
use crate::readable::readable;
use crate::source::{choices_in, program_in};
use command_line::{Run, Setup};
use machine::Machine;
use schedule::Choice;
use std::alloc::Global;
use words::Addr;

/// What there is before the first step of a run.
#[derive(Drop)]
pub struct Begun<const SETS: usize, const WAYS: usize> {
    pub machine: Machine<SETS, WAYS>,
    /// The addresses of the words to show.
    pub addrs: Vec<Addr>,
    /// The choices of the first steps.
    pub choices: Vec<Choice>,
}

/// Begins a run of the program in a file.
pub fn begin<'a, const SETS: usize, const WAYS: usize>(
    alloc: Global,
    run: &Run<'a>,
    file: &'a [u8],
    schedule: &[u8],
) -> Result<Begun<SETS, WAYS>, Fault<'a>>
    requires sets { 0 < SETS }
    requires ways { 0 < WAYS }
    requires lines { SETS * WAYS < 2 ^ 32 }
    ensures { MatchResult result
        (λ b. IsBegunBy (geometry SETS WAYS) run.now file.now schedule.now b.machine b.addrs.items b.choices.items)
        (IsUnbegun run.now file.now schedule.now) }
{
    let machine: Machine<SETS, WAYS> = boot(alloc, &run.setup, file)?;
    let (addrs, choices) = words_and_choices(alloc, &machine, run, schedule)?;
    Ok(Begun {
        machine,
        addrs,
        choices,
    })
}

/// The addresses of the words that a run shows, on the machine that it begins in, and the choices of its first steps.
fn words_and_choices<'a, const SETS: usize, const WAYS: usize>(
    alloc: Global,
    machine: &Machine<SETS, WAYS>,
    run: &Run<'a>,
    schedule: &[u8],
) -> Result<(Vec<Addr>, Vec<Choice>), Fault<'a>>
    ensures { (file : List ℕ) → IsStartOf (geometry SETS WAYS) run.now.setup file machine.now → MatchResult result
        (λ p. IsBegunBy (geometry SETS WAYS) run.now file schedule.now machine.now p.0.items p.1.items)
        (IsUnbegun run.now file schedule.now) }
{
    let addrs = readable(alloc, machine, &run.words)?;
    let choices = choices_in(alloc, schedule)?;
    Ok((addrs, choices))
}

/// Whether a run of the program in a file could begin, if it had a schedule: why not, where it couldn't.
pub fn check_run<'a>(alloc: Global, run: &Run<'a>, file: &'a [u8]) -> Result<(), Fault<'a>>
    ensures { MatchResult result (λ _. CanShow run.now file.now) (IsUnready run.now file.now) }
{
    let machine: Machine<1, 1> = boot(alloc, &run.setup, file)?;
    readable(alloc, &machine, &run.words)?;
    Ok(())
}

/// The machine that the program in a file begins in.
pub fn boot<'a, const SETS: usize, const WAYS: usize>(
    alloc: Global,
    setup: &Setup<'_>,
    file: &'a [u8],
) -> Result<Machine<SETS, WAYS>, Fault<'a>>
    requires sets { 0 < SETS }
    requires ways { 0 < WAYS }
    requires lines { SETS * WAYS < 2 ^ 32 }
    ensures { MatchResult result (IsStartOf (geometry SETS WAYS) setup.now file.now) (IsStartFault setup.now file.now) }
{
    let program = program_in(alloc, setup.file, file)?;
    let machine = Machine::boot(alloc, program, setup.harts, setup.memory)?;
    Ok(machine)
}
