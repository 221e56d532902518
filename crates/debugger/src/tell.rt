ghost use Rattle.std.specs.Prelude.{◌≡◌, ℕ, List, decimal};
ghost use Rattle.std.specs.List.{flat_map};
ghost use Rattle.texts.specs.Puts.{Puts};
ghost use Rattle.debugger.specs.Texts as spec;
ghost use Rattle.debugger.specs.Texts.{IsTextOf};

use crate::report::Report;
use disassembler::Symbols;
use machine::Machine;
use network::Flight;
use render::{hart_text, message_text, put_entry};
use texts::{hexadecimal, put_all};
use words::{Addr, HartId, Sink, SinkFault};

/// Puts the line of a message that was sent.
fn put_sent<S: Sink>(flight: &Flight, sink: &mut S) -> Result<(), SinkFault>
    ensures { Puts (S.state sink.old) (S.state sink.new) (spec.sent_line flight.now) result }
{
    put_all(
        sink,
        &[
            b"sent ",
            message_text(&flight.message).as_str().as_bytes(),
            b"\n",
        ],
    )
}

/// Puts the lines of the messages that got the numbers from one on, the oldest first.
fn put_sent_from<const SETS: usize, const WAYS: usize, S: Sink>(
    machine: &Machine<SETS, WAYS>,
    from: u64,
    sink: &mut S,
) -> Result<(), SinkFault>
    ensures { Puts (S.state sink.old) (S.state sink.new) (flat_map (spec.line_from from) machine.now.flights) result }
{
    machine.are_in_order();
    let _next = machine.sent();
    let mut number = from;
    while let Some(flight) = machine.next_from(number) {
        put_sent(flight, sink)?;
        number = flight.number + 1;
    }
    Ok(())
}

/// Puts what is told of a step without an entry, whose messages got the numbers from one on.
fn put_made<const SETS: usize, const WAYS: usize, S: Sink>(
    machine: &Machine<SETS, WAYS>,
    from: u64,
    sink: &mut S,
) -> Result<(), SinkFault>
    ensures { Puts (S.state sink.old) (S.state sink.new) (spec.made_text machine.now from) result }
{
    if machine.sent() == from {
        sink.put(b"done\n")
    } else {
        put_sent_from(machine, from, sink)
    }
}

/// Puts that a hart has come to a breakpoint.
fn put_broke<S: Sink>(
    names: &Symbols<'_>,
    hart: HartId,
    pc: Addr,
    sink: &mut S,
) -> Result<(), SinkFault>
    ensures { Puts (S.state sink.old) (S.state sink.new) (spec.broke_line names.now hart pc) result }
{
    put_all(
        sink,
        &[
            b"break hart ",
            hart_text(hart).as_str().as_bytes(),
            b" at 0x",
            &hexadecimal(pc.value()),
            names.label(pc).as_bytes(),
            b"\n",
        ],
    )
}

/// Puts a breakpoint, after the words for what became of it.
fn put_place<S: Sink>(
    names: &Symbols<'_>,
    words: &[u8],
    place: Addr,
    sink: &mut S,
) -> Result<(), SinkFault>
    ensures { Puts (S.state sink.old) (S.state sink.new) (spec.place_line names.now words.now place) result }
{
    put_all(
        sink,
        &[
            words,
            &hexadecimal(place.value()),
            names.label(place).as_bytes(),
            b"\n",
        ],
    )
}

/// Puts a report on a machine, with names.
pub(crate) fn put_report<const SETS: usize, const WAYS: usize, S: Sink>(
    names: &Symbols<'_>,
    machine: &Machine<SETS, WAYS>,
    report: &Report,
    sink: &mut S,
) -> Result<(), SinkFault>
    ensures { (text : List ℕ) × IsTextOf names.now machine.now report.now text × Puts (S.state sink.old) (S.state sink.new) text result }
{
    match *report {
        Report::Entry(entry) => put_entry(names, &entry, sink),
        Report::Stopped => sink.put(b"stopped\n"),
        Report::Broke(hart, pc) => put_broke(names, hart, pc, sink),
        Report::Set(place) => put_place(names, b"break set 0x", place, sink),
        Report::Cleared(place) => put_place(names, b"break cleared 0x", place, sink),
        Report::Nothing => sink.put(b"nothing\n"),
        Report::Made(number) => put_made(machine, number, sink),
        Report::Silence => Ok(()),
    }
}
