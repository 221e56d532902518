//! What the page is told of the messages in flight.
ghost use Rattle.std.specs.Prelude.{◌≡◌};
ghost use Rattle.std.specs.List.{flat_map};
ghost use Rattle.texts.specs.Puts.{Puts};
ghost use Rattle.pages.specs.Flights as spec;

use itoa::Buffer;
use machine::Machine;
use network::Flight;
use render::message_text;
use texts::put_all;
use words::{Sink, SinkFault};

/// Puts the messages in flight. One that was sent after so many others stands with its text, and the others by their numbers.
///
/// Once numbers have come to their end, lower ones are given anew, and then each stands with its text.
pub(crate) fn put_flights<const SETS: usize, const WAYS: usize, S: Sink>(
    sink: &mut S,
    sent: u64,
    machine: &Machine<SETS, WAYS>,
) -> Result<(), SinkFault>
    ensures { Puts (S.state sink.old) (S.state sink.new) (flat_map (spec.flight_item (spec.first_told sent machine.now.sent)) machine.now.flights) result }
{
    machine.are_in_order();
    let from = first_told(sent, machine.sent());
    let mut number = 0;
    while let Some(flight) = machine.next_from(number) {
        put_flight(sink, from, flight)?;
        number = flight.number + 1;
    }
    Ok(())
}

fn first_told(before: u64, after: u64) -> u64
    ensures { result ≡ spec.first_told before after }
{
    if after == u64::MAX { 0 } else { before }
}

fn put_flight<S: Sink>(sink: &mut S, from: u64, flight: &Flight) -> Result<(), SinkFault>
    ensures { Puts (S.state sink.old) (S.state sink.new) (spec.flight_item from flight.now) result }
{
    if from <= flight.number {
        put_new(sink, flight)
    } else {
        put_number(sink, flight.number)
    }
}

fn put_new<S: Sink>(sink: &mut S, flight: &Flight) -> Result<(), SinkFault>
    ensures { Puts (S.state sink.old) (S.state sink.new) (spec.new_flight flight.now) result }
{
    let mut number = Buffer::new();
    put_all(
        sink,
        &[
            b"[",
            number.format(flight.number).as_bytes(),
            b",\"",
            message_text(&flight.message).as_str().as_bytes(),
            b"\"],",
        ],
    )
}

/// Puts a number, and a comma after it.
pub(crate) fn put_number<S: Sink>(sink: &mut S, number: u64) -> Result<(), SinkFault>
    ensures { Puts (S.state sink.old) (S.state sink.new) (spec.number_item number) result }
{
    let mut digits = Buffer::new();
    put_all(sink, &[digits.format(number).as_bytes(), b","])
}
