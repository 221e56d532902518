ghost use Rattle.std.specs.Prelude.{◌≡◌};
ghost use Rattle.texts.specs.Puts.{Puts};
ghost use Rattle.timeline.specs.Events as spec;
ghost use Rattle.timeline.specs.Marks.{label_of};

use crate::edge::Edge;
use crate::label::put_label;
use itoa::Buffer;
use machine::Machine;
use network::Flight;
use schedule::name_of;
use texts::put_all;
use words::{Entry, Sink, SinkFault, Step};

/// Where an event stands: when, and in which lane.
#[derive(Clone, Copy, Debug)]
pub(crate) struct Place {
    pub(crate) time: u64,
    pub(crate) lane: usize,
}

/// Puts the slice of a step.
pub(crate) fn put_slice<S: Sink>(
    sink: &mut S,
    place: Place,
    step: &Step,
    arrival: &Option<Flight>,
    entry: &Option<Entry>,
) -> Result<(), SinkFault>
    ensures { Puts (S.state sink.old) (S.state sink.new) (spec.slice_event place.time place.lane (label_of step.now arrival.now entry.now)) result }
{
    put_slice_head(sink, place)?;
    put_label(sink, step, arrival, entry)?;
    put_all(sink, &[b"\"}"])
}

fn put_slice_head<S: Sink>(sink: &mut S, place: Place) -> Result<(), SinkFault>
    ensures { Puts (S.state sink.old) (S.state sink.new) (spec.slice_head place.time place.lane) result }
{
    let mut time = Buffer::new();
    let mut lane = Buffer::new();
    put_all(
        sink,
        &[
            b",\n{\"ph\":\"X\",\"dur\":1,\"ts\":",
            time.format(place.time).as_bytes(),
            b",\"pid\":0,\"tid\":",
            lane.format(place.lane).as_bytes(),
            b",\"name\":\"",
        ],
    )
}

/// Puts the begin of the transaction that a step begins, if it does.
pub(crate) fn put_begin<S: Sink>(sink: &mut S, place: Place, edge: Edge) -> Result<(), SinkFault>
    ensures { Puts (S.state sink.old) (S.state sink.new) (spec.events_before place.time place.lane edge) result }
{
    match edge {
        Edge::Begun => put_transaction(sink, place),
        _ => Ok(()),
    }
}

fn put_transaction<S: Sink>(sink: &mut S, place: Place) -> Result<(), SinkFault>
    ensures { Puts (S.state sink.old) (S.state sink.new) (spec.begin_event place.time place.lane) result }
{
    let mut time = Buffer::new();
    let mut lane = Buffer::new();
    put_all(
        sink,
        &[
            b",\n{\"ph\":\"B\",\"name\":\"transaction\",\"ts\":",
            time.format(place.time).as_bytes(),
            b",\"pid\":0,\"tid\":",
            lane.format(place.lane).as_bytes(),
            b"}",
        ],
    )
}

/// Puts the end of the transaction that a step ends, if it does: it ends with the step.
pub(crate) fn put_end<S: Sink>(sink: &mut S, place: Place, edge: Edge) -> Result<(), SinkFault>
    ensures { Puts (S.state sink.old) (S.state sink.new) (spec.events_behind place.time place.lane edge) result }
{
    match edge {
        Edge::Committed => put_outcome(sink, place, "committed"),
        Edge::Aborted => put_outcome(sink, place, "aborted"),
        _ => Ok(()),
    }
}

fn put_outcome<S: Sink>(sink: &mut S, place: Place, outcome: &'static str) -> Result<(), SinkFault>
    ensures { Puts (S.state sink.old) (S.state sink.new) (spec.end_event place.time place.lane outcome.now) result }
{
    let mut time = Buffer::new();
    let mut lane = Buffer::new();
    put_all(
        sink,
        &[
            b",\n{\"ph\":\"E\",\"args\":{\"outcome\":\"",
            outcome.as_bytes(),
            b"\"},\"ts\":",
            time.format(place.time.saturating_add(1)).as_bytes(),
            b",\"pid\":0,\"tid\":",
            lane.format(place.lane).as_bytes(),
            b"}",
        ],
    )
}

/// Puts one end of a message's flow.
fn put_flow<S: Sink>(
    sink: &mut S,
    phase: &'static str,
    place: Place,
    flight: &Flight,
) -> Result<(), SinkFault>
    ensures { Puts (S.state sink.old) (S.state sink.new) (spec.flow_event phase.now place.time place.lane flight.now) result }
{
    let mut number = Buffer::new();
    let mut time = Buffer::new();
    let mut lane = Buffer::new();
    put_all(
        sink,
        &[
            b",\n{\"ph\":\"",
            phase.as_bytes(),
            b"\",\"cat\":\"message\",\"name\":\"",
            name_of(&flight.message).sort.name().as_bytes(),
            b"\",\"id\":",
            number.format(flight.number).as_bytes(),
            b",\"ts\":",
            time.format(place.time).as_bytes(),
            b",\"pid\":0,\"tid\":",
            lane.format(place.lane).as_bytes(),
            b"}",
        ],
    )
}

/// Puts the end of the flow of the message that arrives, if one does.
pub(crate) fn put_arrival<S: Sink>(
    sink: &mut S,
    place: Place,
    arrival: &Option<Flight>,
) -> Result<(), SinkFault>
    ensures { Puts (S.state sink.old) (S.state sink.new) (spec.arrival_event place.time place.lane arrival.now) result }
{
    match arrival {
        Some(flight) => put_flow(sink, "f\",\"bp\":\"e", place, flight),
        None => Ok(()),
    }
}

/// Puts the begin of the flow of a message in flight, if it was sent after so many others.
fn put_sent<S: Sink>(
    sink: &mut S,
    place: Place,
    sent: u64,
    flight: &Flight,
) -> Result<(), SinkFault>
    ensures { Puts (S.state sink.old) (S.state sink.new) (spec.sent_event place.time place.lane sent flight.now) result }
{
    if sent <= flight.number {
        put_flow(sink, "s", place, flight)
    } else {
        Ok(())
    }
}

/// Puts the begins of the flows of all messages in flight that were sent after so many others.
pub(crate) fn put_all_sent<const SETS: usize, const WAYS: usize, S: Sink>(
    sink: &mut S,
    place: Place,
    sent: u64,
    machine: &Machine<SETS, WAYS>,
) -> Result<(), SinkFault>
    ensures { Puts (S.state sink.old) (S.state sink.new) (spec.sent_events place.time place.lane sent machine.now.flights) result }
{
    machine.are_in_order();
    let _next = machine.sent();
    let mut number = 0;
    while let Some(flight) = machine.next_from(number) {
        put_sent(sink, place, sent, flight)?;
        number = flight.number + 1;
    }
    Ok(())
}
