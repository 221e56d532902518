//! A run by chance, and one whose history is written.
ghost use Rattle.std.specs.Prelude.{◌≡◌, ◌<◌, ◌*◌, ◌^◌, ◌++◌, MatchResult, None, OnOk, take};
ghost use Rattle.words.specs.Sinks.{TookAll};
ghost use Rattle.command_line.specs.Runs.{shown};
ghost use Rattle.machine.specs.States.{geometry};
ghost use Rattle.schedule.specs.Courses as behind;
ghost use Rattle.schedule.specs.Written.{text_of};
ghost use Rattle.texts.specs.Puts.{Puts};
ghost use Rattle.requests.specs.Begins.{IsUnbegun};
ghost use Rattle.requests.specs.Buffers.{IsHandedOn};
ghost use Rattle.requests.specs.Conclusions.{IsHistoryUnput};
ghost use Rattle.requests.specs.Schedules.{AreChosenBy};
ghost use Rattle.simulate.specs.Given.{IsGiven, IsNotGiven};
ghost use Rattle.simulate.specs.Kept.{IsGivenAndKept, IsNotGivenOrKept};

use crate::steps::run_by_steps;
use command_line::{Chance as Asked, Mix as Weights, Print, Run, Show};
use machine::Progress;
use requests::begin::{Begun, begin};
use requests::{Buffered, Fault};
use schedule::{Chance, Choice, History, KeptChance, Mix, put_choices, put_history};
use std::alloc::Global;
use timeline::Chart;
use words::{Sink, SinkFault};

/// Chance as it is asked for.
fn chance_of(asked: Asked) -> Chance {
    let Weights {
        cores,
        arrivals,
        evictions,
    } = asked.mix;
    let mix = Mix {
        cores,
        arrivals,
        evictions,
    };
    Chance::new(u64::from(asked.seed), mix)
}

/// Runs the program in a file by chance behind its schedule, as [`run_by_steps`] does, and keeps no history.
pub(crate) fn run_by_chance<
    'a,
    const SETS: usize,
    const WAYS: usize,
    P: Progress,
    T: Buffered,
    O: Sink,
>(
    alloc: Global,
    run: &Run<'a>,
    asked: Asked,
    show: Show<'a>,
    file: &'a [u8],
    schedule: &[u8],
    progress: &mut P,
    chart: &mut Chart<T>,
    out: &mut O,
) -> Result<u8, Fault<'a>>
    requires sets { 0 < SETS }
    requires ways { 0 < WAYS }
    requires lines { SETS * WAYS < 2 ^ 32 }
    ensures { MatchResult result
        (IsGiven (geometry SETS WAYS) run.now (behind.Chance None) show.entry file.now schedule.now
        (record { output = O.state out.old; file = T.state chart.old.sink }) (record { output = O.state out.new; file = T.state chart.new.sink }))
        (IsNotGiven (geometry SETS WAYS) run.now (behind.Chance None) show.entry file.now schedule.now
        (record { output = O.state out.old; file = T.state chart.old.sink }) (record { output = O.state out.new; file = T.state chart.new.sink })) }
{
    let chooser = &mut chance_of(asked);
    run_by_steps::<SETS, WAYS, Chance, P, T, O>(
        alloc, run, show, chooser, file, schedule, progress, chart, out,
    )
}

/// Runs the program in a file by chance behind its schedule, and puts what is shown of it into `out`; then the history of the run into `chart`, whose
/// sink stands for the file at a path. It answers the status that the program ends with.
pub(crate) fn run_and_keep<
    'a,
    const SETS: usize,
    const WAYS: usize,
    P: Progress,
    T: Buffered,
    O: Sink,
>(
    alloc: Global,
    run: &Run<'a>,
    asked: Asked,
    path: &'a str,
    print: Print,
    file: &'a [u8],
    schedule: &[u8],
    progress: &mut P,
    chart: &mut Chart<T>,
    out: &mut O,
) -> Result<u8, Fault<'a>>
    requires sets { 0 < SETS }
    requires ways { 0 < WAYS }
    requires lines { SETS * WAYS < 2 ^ 32 }
    ensures { MatchResult result
        (IsGivenAndKept (geometry SETS WAYS) run.now print path.entry file.now schedule.now
        (record { output = O.state out.old; file = T.state chart.old.sink }) (record { output = O.state out.new; file = T.state chart.new.sink }))
        (IsNotGivenOrKept (geometry SETS WAYS) run.now print path.entry file.now schedule.now
        (record { output = O.state out.old; file = T.state chart.old.sink }) (record { output = O.state out.new; file = T.state chart.new.sink })) }
{
    let choices = first_choices(alloc, run, file, schedule)?;
    let mut chooser = KeptChance::new(alloc, chance_of(asked));
    let status = run_by_steps::<SETS, WAYS, KeptChance, P, T, O>(
        alloc,
        run,
        show_of(print),
        &mut chooser,
        file,
        schedule,
        progress,
        chart,
        out,
    )?;
    keep(
        &choices,
        run.steps,
        chooser.history(),
        path,
        &mut chart.sink,
    )?;
    Ok(status)
}

/// The choices that the lines of a schedule spell, if a run by it can begin; else why it can't. The machine that this boots is gone before the run.
fn first_choices<'a>(
    alloc: Global,
    run: &Run<'a>,
    file: &'a [u8],
    schedule: &[u8],
) -> Result<Vec<Choice>, Fault<'a>>
    ensures { MatchResult result (λ choices. AreChosenBy schedule.now choices.items) (IsUnbegun run.now file.now schedule.now) }
{
    let begun: Begun<1, 1> = begin(alloc, run, file, schedule)?;
    Ok(begun.choices)
}

/// What is shown of a run.
fn show_of<'a>(print: Print) -> Show<'a>
    ensures { result ≡ shown print }
{
    match print {
        Print::Report => Show::Report,
        Print::Counts(stats) => Show::Counts(stats),
        Print::Trace => Show::Trace,
    }
}

/// Puts the choices of a list, so many at most, and those of a history behind them, and has them written out. If that fails, the fault names the path
/// of their file.
fn keep<'a, T: Buffered>(
    choices: &[Choice],
    steps: u32,
    history: &History,
    path: &'a str,
    page: &mut T,
) -> Result<(), Fault<'a>>
    ensures { MatchResult result
        (λ _. TookAll (T.state page.old) (T.state page.new) (text_of (take steps choices.now ++ history.now.choices)))
        (IsHistoryUnput (text_of (take steps choices.now ++ history.now.choices)) path.entry (T.state page.old) (T.state page.new)) }
{
    match put_both(choices, steps, history, page) {
        Ok(()) => Ok(()),
        Err(_) => Err(Fault::Unmade(path)),
    }
}

fn put_both<T: Buffered>(
    choices: &[Choice],
    steps: u32,
    history: &History,
    page: &mut T,
) -> Result<(), SinkFault>
    ensures puts { Puts (T.state page.old) (T.state page.new) (text_of (take steps choices.now ++ history.now.choices)) result }
    ensures written { OnOk result (IsHandedOn (T.handed page.new) (T.kept page.new) (T.state page.new)) }
{
    put_choices(page, first(choices, steps))?;
    put_history(page, history)?;
    page.flush()
}

/// The first choices of a list, so many at most.
fn first(choices: &[Choice], steps: u32) -> &[Choice]
    ensures { result.now ≡ take steps choices.now }
{
    let count = (steps as usize).min(choices.len());
    &choices[..count]
}
