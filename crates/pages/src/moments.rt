//! What the page is told of a moment.
ghost use Rattle.std.specs.Prelude.{◌≡◌, ◌<◌};
ghost use Rattle.std.specs.List.{flat_map};
ghost use Rattle.texts.specs.Puts.{Puts};
ghost use Rattle.machine.specs.States.{setting_of, shown};
ghost use Rattle.pages.specs.Moments as spec;

use crate::actor::actor;
use crate::flights::put_flights;
use crate::harts::put_hart;
use crate::memory::put_words;
use crate::names::put_name;
use disassembler::Symbols;
use itoa::Buffer;
use machine::Machine;
use network::Flight;
use render::{directory_text, first_byte, put_entry};
use schedule::name_of;
use std::alloc::Global;
use texts::put_all;
use words::{Addr, BlockNo, Entry, HartId, Sink, SinkFault, Step};

/// Puts a moment: a step, before which so many messages had been sent, and behind which the machine is this one.
pub(crate) fn put_moment<const SETS: usize, const WAYS: usize, S: Sink>(
    alloc: Global,
    sink: &mut S,
    names: &Symbols<'_>,
    words: &[Addr],
    sent: u64,
    step: &Step,
    arrival: &Option<Flight>,
    entry: &Option<Entry>,
    machine: &Machine<SETS, WAYS>,
) -> Result<(), SinkFault>
    ensures { Puts (S.state sink.old) (S.state sink.new)
        (spec.moment_text names.now SETS words.now (record { sent = sent; step = step.now; arrival = arrival.now; entry = entry.now; after = machine.now })) result }
{
    put_event(alloc, sink, names, entry)?;
    put_step(sink, step)?;
    put_arrival(sink, arrival, machine)?;
    put_actor(sink, names, machine, actor(step, arrival))?;
    put_rest(sink, words, sent, machine)
}

/// Puts the line of an entry, if there is one. As it ends its line, so does this.
fn put_event<S: Sink>(
    alloc: Global,
    sink: &mut S,
    names: &Symbols<'_>,
    entry: &Option<Entry>,
) -> Result<(), SinkFault>
    ensures { Puts (S.state sink.old) (S.state sink.new) (spec.event_text names.now entry.now) result }
{
    match entry {
        Some(entry) => put_entry_line(alloc, sink, names, entry),
        None => put_all(sink, &[b"{"]),
    }
}

fn put_entry_line<S: Sink>(
    alloc: Global,
    sink: &mut S,
    names: &Symbols<'_>,
    entry: &Entry,
) -> Result<(), SinkFault>
    ensures { Puts (S.state sink.old) (S.state sink.new) (spec.entry_text names.now entry.now) result }
{
    let unnamed = Symbols::none(alloc);
    put_all(sink, &[b"{entry:`"])?;
    put_entry(&unnamed, entry, sink)?;
    put_all(sink, &[b"`,"])?;
    put_entry_name(sink, names, entry)
}

/// Puts the name of the address that an entry has, if it has one.
fn put_entry_name<S: Sink>(
    sink: &mut S,
    names: &Symbols<'_>,
    entry: &Entry,
) -> Result<(), SinkFault>
    ensures { Puts (S.state sink.old) (S.state sink.new) (spec.entry_name names.now entry.now) result }
{
    match entry {
        Entry::Retire { pc, .. } | Entry::Trap { pc, .. } => {
            put_name(sink, names.label(*pc).as_bytes())
        }
        Entry::Abort { .. } | Entry::Refuse { .. } | Entry::Spill { .. } => Ok(()),
    }
}

/// Puts what a step is.
fn put_step<S: Sink>(sink: &mut S, step: &Step) -> Result<(), SinkFault>
    ensures { Puts (S.state sink.old) (S.state sink.new) (spec.step_text step.now) result }
{
    match step {
        Step::Core(_) => put_all(sink, &[b"step:\"core\","]),
        Step::Evict(_, block) => put_all(sink, &[b"step:\"evict 0x", &first_byte(*block), b"\","]),
        Step::Deliver(_) => put_all(sink, &[b"step:\"deliver\","]),
    }
}

/// Puts the number of the message that arrived, if one did, and what the directory knows of its block then.
fn put_arrival<const SETS: usize, const WAYS: usize, S: Sink>(
    sink: &mut S,
    arrival: &Option<Flight>,
    machine: &Machine<SETS, WAYS>,
) -> Result<(), SinkFault>
    ensures { Puts (S.state sink.old) (S.state sink.new) (spec.arrival_text (shown SETS machine.now) arrival.now) result }
{
    match arrival {
        Some(flight) => put_arrived(sink, flight, machine),
        None => Ok(()),
    }
}

fn put_arrived<const SETS: usize, const WAYS: usize, S: Sink>(
    sink: &mut S,
    flight: &Flight,
    machine: &Machine<SETS, WAYS>,
) -> Result<(), SinkFault>
    ensures { Puts (S.state sink.old) (S.state sink.new) (spec.arrived_text (shown SETS machine.now) flight.now) result }
{
    put_known(sink, flight.number, name_of(&flight.message).block, machine)
}

/// Puts a message's number, and what the directory knows of a block.
fn put_known<const SETS: usize, const WAYS: usize, S: Sink>(
    sink: &mut S,
    number: u64,
    block: BlockNo,
    machine: &Machine<SETS, WAYS>,
) -> Result<(), SinkFault>
    ensures { Puts (S.state sink.old) (S.state sink.new) (spec.known_text (shown SETS machine.now) number block) result }
{
    let mut digits = Buffer::new();
    put_all(
        sink,
        &[
            b"arrival:",
            digits.format(number).as_bytes(),
            b",directory:\"",
            &first_byte(block),
            b" ",
            directory_text(&machine.entry(block)).as_str().as_bytes(),
            b"\",",
        ],
    )
}

/// Puts the hart that a step changed, if it is one of the machine's.
fn put_actor<const SETS: usize, const WAYS: usize, S: Sink>(
    sink: &mut S,
    names: &Symbols<'_>,
    machine: &Machine<SETS, WAYS>,
    actor: Option<HartId>,
) -> Result<(), SinkFault>
    ensures { Puts (S.state sink.old) (S.state sink.new) (spec.actor_text names.now SETS machine.now actor) result }
{
    match actor {
        Some(hart) if hart.index() < machine.harts() => put_changed(sink, names, machine, hart),
        _ => Ok(()),
    }
}

fn put_changed<const SETS: usize, const WAYS: usize, S: Sink>(
    sink: &mut S,
    names: &Symbols<'_>,
    machine: &Machine<SETS, WAYS>,
    hart: HartId,
) -> Result<(), SinkFault>
    requires { hart < (setting_of machine.now).count }
    ensures { Puts (S.state sink.old) (S.state sink.new) (spec.changed_text names.now SETS machine.now hart) result }
{
    put_all(sink, &[b"hart:"])?;
    put_hart(sink, names, machine, hart)?;
    put_all(sink, &[b","])
}

/// Puts the messages in flight, and the words.
pub(crate) fn put_rest<const SETS: usize, const WAYS: usize, S: Sink>(
    sink: &mut S,
    words: &[Addr],
    sent: u64,
    machine: &Machine<SETS, WAYS>,
) -> Result<(), SinkFault>
    ensures { Puts (S.state sink.old) (S.state sink.new) (spec.rest_text SETS words.now sent machine.now) result }
{
    put_all(sink, &[b"flights:["])?;
    put_flights(sink, sent, machine)?;
    put_all(sink, &[b"],words:["])?;
    put_words(sink, machine, words)?;
    put_all(sink, &[b"]},\n"])
}
