ghost use Rattle.std.specs.Prelude.{◌≡◌, Ok, Err, IsErr, MatchResult};
ghost use Rattle.std.specs.List.{flat_map, range_with_len};
ghost use Rattle.words.specs.Sinks.{TookPart};
ghost use Rattle.texts.specs.Puts.{Puts};
ghost use Rattle.machine.specs.States.{geometry};
ghost use Rattle.schedule.specs.declared.halt.Halt.TheVariants.{Untold};
ghost use Rattle.timeline.specs.Events.{events_from, events_of};
ghost use Rattle.schedule.specs.Courses.{IsUnbegun, course, forgotten};
ghost use Rattle.timeline.specs.Timelines as spec;
ghost use Rattle.timeline.specs.Timelines.{IsShown, IsCutShort};
ghost use Rattle.timeline.specs.Notes.{PutEvents};

use crate::edge::edge_at;
use crate::events::{Place, put_all_sent, put_arrival, put_begin, put_end, put_slice};
use crate::label::{DIRECTORY, lane};
use itoa::Buffer;
use machine::{Machine, Progress};
use network::Flight;
use schedule::{Choice, Chooser, Halt, Observer, Unseen, run};
use texts::put_all;
use words::{Entry, Sink, SinkFault, Step};

/// A sink that a timeline is put into, and the time of the next step.
#[derive(Drop)]
pub struct Chart<S> {
    pub sink: S,
    time: u64,
}

impl<S: Sink> Chart<S> {
    /// Nothing is put yet.
    pub fn new(sink: S) -> Self
        ensures sink { result.sink ≡ sink }
        ensures time { result.time ≡ 0 }
    {
        Chart { sink, time: 0 }
    }

    /// The sink, with all that was put into it.
    pub fn into_sink(self) -> S
        ensures { result ≡ self.sink }
    {
        self.sink
    }
}

/// Puts steps as events.
#[derive(Clone, Copy, Debug)]
struct Drawer;

impl<const SETS: usize, const WAYS: usize, S: Sink> Observer<SETS, WAYS, Chart<S>> for Drawer {
    ghost saw = { λ _ before ms after. PutEvents SETS (S.state before.sink) before.time ms (S.state after.sink) after.time };

    ghost missed = { λ _ before ms after. TookPart (S.state before.sink) (S.state after.sink) (events_from SETS before.time ms) };

    fn note(
        &self,
        sent: u64,
        step: &Step,
        arrival: &Option<Flight>,
        entry: &Option<Entry>,
        machine: &Machine<SETS, WAYS>,
        chart: &mut Chart<S>,
    ) -> Result<(), Unseen> {
        let time = chart.time;
        match put_events(&mut chart.sink, time, sent, step, arrival, entry, machine) {
            Ok(()) => {
                chart.time = time.saturating_add(1);
                Ok(())
            }
            Err(_) => Err(Unseen),
        }
    }
}

/// Puts the events of a step, before which so many messages had been sent, and behind which the machine is this one.
fn put_events<const SETS: usize, const WAYS: usize, S: Sink>(
    sink: &mut S,
    time: u64,
    sent: u64,
    step: &Step,
    arrival: &Option<Flight>,
    entry: &Option<Entry>,
    machine: &Machine<SETS, WAYS>,
) -> Result<(), SinkFault>
    ensures { Puts (S.state sink.old) (S.state sink.new)
        (events_of SETS time (record { sent = sent; step = step.now; arrival = arrival.now; entry = entry.now; after = machine.now })) result }
{
    let place = Place {
        time,
        lane: lane(step, arrival),
    };
    let edge = edge_at(entry, machine);
    put_begin(sink, place, edge)?;
    put_slice(sink, place, step, arrival, entry)?;
    put_arrival(sink, place, arrival)?;
    put_all_sent(sink, place, sent, machine)?;
    put_end(sink, place, edge)
}

/// Puts the name of a hart's lane.
fn put_hart<S: Sink>(sink: &mut S, hart: usize) -> Result<(), SinkFault>
    ensures { Puts (S.state sink.old) (S.state sink.new) (spec.hart_lane hart) result }
{
    let mut number = Buffer::new();
    let digits = number.format(hart).as_bytes();
    put_all(
        sink,
        &[
            b",\n{\"ph\":\"M\",\"name\":\"thread_name\",\"pid\":0,\"tid\":",
            digits,
            b",\"args\":{\"name\":\"hart ",
            digits,
            b"\"}}",
        ],
    )
}

/// Puts the name of the directory's lane.
fn put_directory<S: Sink>(sink: &mut S) -> Result<(), SinkFault>
    ensures { Puts (S.state sink.old) (S.state sink.new) (spec.last_lane) result }
{
    let mut number = Buffer::new();
    put_all(
        sink,
        &[
            b",\n{\"ph\":\"M\",\"name\":\"thread_name\",\"pid\":0,\"tid\":",
            number.format(DIRECTORY).as_bytes(),
            b",\"args\":{\"name\":\"directory\"}}",
        ],
    )
}

/// Puts what comes before the events: the names of the lanes.
fn put_opening<S: Sink>(sink: &mut S, harts: usize) -> Result<(), SinkFault>
    ensures { Puts (S.state sink.old) (S.state sink.new) (spec.opening harts) result }
{
    put_all(
        sink,
        &[
            b"{\"traceEvents\":[\n{\"ph\":\"M\",\"name\":\"process_name\",\"pid\":0,\"args\":{\"name\":\"logtm\"}}",
        ],
    )?;
    put_harts(sink, harts)?;
    put_directory(sink)
}

fn put_harts<S: Sink>(sink: &mut S, harts: usize) -> Result<(), SinkFault>
    ensures { Puts (S.state sink.old) (S.state sink.new) (flat_map spec.hart_lane (range_with_len 0 harts)) result }
{
    for hart in 0..harts {
        put_hart(sink, hart)?;
    }
    Ok(())
}

/// The choices in order, so many at most, and behind the last of them the steps that a chooser gives, as [`schedule::run`] makes them. The events of
/// each step are put before the next step. Progress is told on the way.
///
/// If memory runs out, the machine is left where the steps before led, and their events were put, with no end of the timeline. If a put fails,
/// the steps of all events up to it were made, and a beginning of their timeline was taken.
pub fn put_timeline<
    const SETS: usize,
    const WAYS: usize,
    C: Chooser<SETS, WAYS>,
    S: Sink,
    P: Progress,
>(
    machine: &mut Machine<SETS, WAYS>,
    choices: &[Choice],
    steps: u32,
    chooser: &mut C,
    chart: &mut Chart<S>,
    progress: &mut P,
) -> Result<(), Halt>
    requires { IsUnbegun (C.behind chooser.old) }
    ensures { MatchResult result
        (λ _. IsShown (geometry SETS WAYS) (course choices.now (C.behind chooser.new)) steps machine.old machine.new (S.state chart.old.sink) (S.state chart.new.sink))
        (IsCutShort (geometry SETS WAYS) (course choices.now (forgotten (C.behind chooser.new))) steps machine.old machine.new
        (S.state chart.old.sink) (S.state chart.new.sink)) }
{
    chart.time = 0;
    let harts = machine.harts();
    put_or_halt(put_opening(&mut chart.sink, harts))?;
    run(machine, choices, steps, chooser, &Drawer, chart, progress)?;
    put_or_halt(put_all(&mut chart.sink, &[b"\n]}\n"]))
}

/// A put that fails halts the run.
fn put_or_halt(put: Result<(), SinkFault>) -> Result<(), Halt>
    ensures { MatchResult result (λ _. put ≡ Ok tt) (λ halt. (halt ≡ Untold) × IsErr put) }
{
    match put {
        Ok(()) => Ok(()),
        Err(SinkFault) => Err(Halt::Untold),
    }
}
