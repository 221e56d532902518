//! A run by turns or by chance: its steps, what is shown of them, and its report.
ghost use Rattle.std.specs.Prelude.{◌≡◌, ◌<◌, ◌*◌, ◌^◌, MatchResult, OnOk};
ghost use Rattle.machine.specs.States.{geometry, setting_of};
ghost use Rattle.schedule.specs.Courses.{IsUnbegun, course, forgotten};
ghost use Rattle.command_line.specs.declared.request.Show.TheVariants as shows;
ghost use Rattle.command_line.specs.declared.request.View.TheVariants.{Trace, Timeline, Picture, Page};
ghost use Rattle.render.specs.Reports.{AllReadable};
ghost use Rattle.requests.specs.Buffers.{IsHandedOn};
ghost use Rattle.simulate.specs.Counted.{IsEnded, IsHalfEnded};
ghost use Rattle.simulate.specs.Given.{IsGiven, IsNotGiven};
ghost use Rattle.simulate.specs.Shown.{IsShown, IsCutShort, IsViewed, IsViewCut, IsViewFault};

use crate::counting::put_counts;
use command_line::{Run, Show, View};
use disassembler::Symbols;
use machine::{Machine, Progress, Silent};
use pages::put_page;
use requests::begin::{Begun, begin};
use requests::conclude::conclude;
use requests::source::names_in;
use requests::{Buffered, Fault};
use schedule::{Choice, Chooser, Halt};
use std::alloc::Global;
use timeline::{Chart, put_picture, put_timeline};
use watch::{Tally, count_run, put_trace};
use words::{Addr, Sink};

/// Runs the program in a file, given the bytes of the file and those of its schedule, none where it has none; a chooser gives the steps behind the
/// schedule's. It puts what is shown of the run while it goes on, into `out` or into `chart`, whose sink stands for the file of a view; then the report, and the counts behind it. Progress is told on the
/// way. It answers the status that the program ends with.
pub(crate) fn run_by_steps<
    'a,
    const SETS: usize,
    const WAYS: usize,
    C: Chooser<SETS, WAYS>,
    P: Progress,
    T: Buffered,
    O: Sink,
>(
    alloc: Global,
    run: &Run<'a>,
    show: Show<'a>,
    chooser: &mut C,
    file: &'a [u8],
    schedule: &[u8],
    progress: &mut P,
    chart: &mut Chart<T>,
    out: &mut O,
) -> Result<u8, Fault<'a>>
    requires sets { 0 < SETS }
    requires ways { 0 < WAYS }
    requires lines { SETS * WAYS < 2 ^ 32 }
    requires unbegun { IsUnbegun (C.behind chooser.old) }
    ensures { MatchResult result
        (IsGiven (geometry SETS WAYS) run.now (C.behind chooser.new) show.entry file.now schedule.now
        (record { output = O.state out.old; file = T.state chart.old.sink }) (record { output = O.state out.new; file = T.state chart.new.sink }))
        (IsNotGiven (geometry SETS WAYS) run.now (forgotten (C.behind chooser.new)) show.entry file.now schedule.now
        (record { output = O.state out.old; file = T.state chart.old.sink }) (record { output = O.state out.new; file = T.state chart.new.sink })) }
{
    let names = names_in(alloc, run.setup.file, file)?;
    let mut begun: Begun<SETS, WAYS> = begin(alloc, run, file, schedule)?;
    let machine = &mut begun.machine;
    let choices = &begun.choices;
    let words = &begun.addrs;
    let played = play(
        alloc, &names, machine, choices, words, run.steps, show, chooser, progress, chart, out,
    );
    progress.end();
    let counts = played?;
    put_end(&begun.machine, &begun.addrs, show, &counts, out)
}

/// Puts the report on the machine that a run has led to, and behind it the counts, where these are shown. It answers the status that the program ends
/// with.
fn put_end<'a, const SETS: usize, const WAYS: usize, O: Sink>(
    machine: &Machine<SETS, WAYS>,
    words: &[Addr],
    show: Show<'_>,
    counts: &Tally,
    out: &mut O,
) -> Result<u8, Fault<'a>>
    requires { AllReadable (setting_of machine.now) words.now }
    ensures { MatchResult result
        (IsEnded (geometry SETS WAYS) machine.now words.now show.entry counts.now (O.state out.old) (O.state out.new))
        (IsHalfEnded (geometry SETS WAYS) machine.now words.now show.entry counts.now (O.state out.old) (O.state out.new)) }
{
    let status = conclude(machine, words, out)?;
    put_counts(show, counts, machine.harts(), out)?;
    Ok(status)
}

/// Makes the steps of a run, and puts what is shown of them before the report. It answers their counts, where these are shown.
fn play<'a, const SETS: usize, const WAYS: usize, C, P: Progress, T: Buffered, O: Sink>(
    alloc: Global,
    names: &Symbols<'_>,
    machine: &mut Machine<SETS, WAYS>,
    choices: &[Choice],
    words: &[Addr],
    steps: u32,
    show: Show<'a>,
    chooser: &mut C,
    progress: &mut P,
    chart: &mut Chart<T>,
    out: &mut O,
) -> Result<Tally, Fault<'a>>
where
    C: Chooser<SETS, WAYS>,
    requires { IsUnbegun (C.behind chooser.old) }
    ensures { MatchResult result
        (λ counts. IsShown names.now show.entry (geometry SETS WAYS) words.now (course choices.now (C.behind chooser.new)) steps machine.old machine.new counts
        (record { output = O.state out.old; file = T.state chart.old.sink }) (record { output = O.state out.new; file = T.state chart.new.sink }))
        (IsCutShort names.now show.entry (geometry SETS WAYS) words.now (course choices.now (forgotten (C.behind chooser.new))) steps machine.old machine.new
        (record { output = O.state out.old; file = T.state chart.old.sink }) (record { output = O.state out.new; file = T.state chart.new.sink })) }
{
    match show {
        Show::Report => {
            schedule::play(machine, choices, steps, chooser, progress)?;
            Ok(Tally::new())
        }
        Show::Counts(_) => Ok(count_run(machine, choices, steps, chooser, progress)?),
        Show::Trace => {
            put_trace(names, machine, choices, steps, chooser, out, &mut Silent)?;
            Ok(Tally::new())
        }
        Show::View(view, path) => {
            put_view(
                alloc, names, machine, choices, words, steps, view, path, chooser, progress, chart,
            )?;
            Ok(Tally::new())
        }
    }
}

/// Makes the steps of a run, puts a view of them, and has it written out. If that fails, the fault names the path of the file.
fn put_view<
    'a,
    const SETS: usize,
    const WAYS: usize,
    C: Chooser<SETS, WAYS>,
    P: Progress,
    T: Buffered,
>(
    alloc: Global,
    names: &Symbols<'_>,
    machine: &mut Machine<SETS, WAYS>,
    choices: &[Choice],
    words: &[Addr],
    steps: u32,
    view: View,
    path: &'a str,
    chooser: &mut C,
    progress: &mut P,
    chart: &mut Chart<T>,
) -> Result<(), Fault<'a>>
    requires { IsUnbegun (C.behind chooser.old) }
    ensures viewed { MatchResult result
        (λ _. IsViewed names.now view (geometry SETS WAYS) words.now (course choices.now (C.behind chooser.new)) steps machine.old machine.new (T.state chart.old.sink) (T.state chart.new.sink))
        (IsViewFault names.now view (geometry SETS WAYS) words.now (course choices.now (forgotten (C.behind chooser.new))) steps machine.old machine.new (T.state chart.old.sink) (T.state chart.new.sink) path.entry) }
    ensures written { OnOk result (IsHandedOn (T.handed chart.new.sink) (T.kept chart.new.sink) (T.state chart.new.sink)) }
{
    match put_form(
        alloc, names, machine, choices, words, steps, view, chooser, progress, chart,
    ) {
        Ok(()) => match chart.sink.flush() {
            Ok(()) => Ok(()),
            Err(_) => Err(Fault::Unmade(path)),
        },
        Err(Halt::NoMemory) => Err(Fault::NoMemory),
        Err(Halt::Untold) => Err(Fault::Unmade(path)),
    }
}

/// Makes the steps of a run, and puts a view of them.
fn put_form<const SETS: usize, const WAYS: usize, C: Chooser<SETS, WAYS>, P: Progress, T: Sink>(
    alloc: Global,
    names: &Symbols<'_>,
    machine: &mut Machine<SETS, WAYS>,
    choices: &[Choice],
    words: &[Addr],
    steps: u32,
    view: View,
    chooser: &mut C,
    progress: &mut P,
    chart: &mut Chart<T>,
) -> Result<(), Halt>
    requires { IsUnbegun (C.behind chooser.old) }
    ensures { MatchResult result
        (λ _. IsViewed names.now view (geometry SETS WAYS) words.now (course choices.now (C.behind chooser.new)) steps machine.old machine.new (T.state chart.old.sink) (T.state chart.new.sink))
        (IsViewCut names.now view (geometry SETS WAYS) words.now (course choices.now (forgotten (C.behind chooser.new))) steps machine.old machine.new (T.state chart.old.sink) (T.state chart.new.sink)) }
{
    match view {
        View::Trace => {
            let sink = &mut chart.sink;
            put_trace(names, machine, choices, steps, chooser, sink, progress)
        }
        View::Timeline => put_timeline(machine, choices, steps, chooser, chart, progress),
        View::Picture => put_picture(alloc, machine, choices, steps, chooser, &mut chart.sink),
        View::Page => {
            let sink = &mut chart.sink;
            put_page(
                alloc, names, machine, choices, steps, chooser, words, sink, progress,
            )
        }
    }
}
