ghost use Rattle.std.specs.Prelude.{◌≡◌, ◌<◌, ◌≤◌};
ghost use Rattle.words.specs.declared.entry.Entry.TheVariants.{Retire, Abort, Trap, Refuse, Spill};
ghost use Rattle.words.specs.Limits.{most_harts};
ghost use Rattle.texts.specs.Puts.{Puts};
ghost use Rattle.protocol.specs.Messages.{receiver_of, shown};
ghost use Rattle.std.specs.Prelude.{unwrap_or};
ghost use Rattle.timeline.specs.Marks as spec;

use disassembler::text;
use network::Flight;
use render::{first_byte, hart_text, message_text};
use texts::put_all;
use words::{AbortCause, BlockNo, Entry, HARTS, HartId, Message, Sink, SinkFault, Step};

/// The directory's lane.
pub(crate) const DIRECTORY: usize = HARTS;

/// The lane of the one that a message goes to.
fn receiving_lane(message: &Message) -> usize
    ensures { result ≡ unwrap_or (receiver_of (shown message.now)) most_harts }
{
    match message {
        Message::Get { .. } | Message::Put { .. } | Message::Done { .. } => DIRECTORY,
        Message::Grant { to, .. }
        | Message::Forward { to, .. }
        | Message::PutAck { to, .. }
        | Message::Ack { to, .. }
        | Message::Nack { to, .. } => to.index(),
    }
}

/// The lane in which a step is shown.
pub(crate) fn lane(step: &Step, arrival: &Option<Flight>) -> usize
    ensures { result ≡ spec.lane_of step.now arrival.now }
{
    match (step, arrival) {
        (Step::Core(hart), _) | (Step::Evict(hart, _), _) => hart.index(),
        (Step::Deliver(_), Some(flight)) => receiving_lane(&flight.message),
        (Step::Deliver(_), None) => DIRECTORY,
    }
}

/// Puts what a step is called.
pub(crate) fn put_label<S: Sink>(
    sink: &mut S,
    step: &Step,
    arrival: &Option<Flight>,
    entry: &Option<Entry>,
) -> Result<(), SinkFault>
    ensures { Puts (S.state sink.old) (S.state sink.new) (spec.label_of step.now arrival.now entry.now) result }
{
    match entry {
        Some(entry) => put_entry_label(sink, entry),
        None => put_step_label(sink, step, arrival),
    }
}

fn put_entry_label<S: Sink>(sink: &mut S, entry: &Entry) -> Result<(), SinkFault>
    ensures { Puts (S.state sink.old) (S.state sink.new) (spec.entry_label entry.now) result }
{
    match entry {
        Entry::Retire { word, .. } => put_all(sink, &[text(*word).as_bytes()]),
        Entry::Abort { cause, .. } => put_all(sink, &[abort_label(*cause).as_bytes()]),
        Entry::Trap { cause, .. } => put_all(sink, &[b"trap ", cause.name().as_bytes()]),
        Entry::Refuse { requester, .. } => {
            put_all(
                sink,
                &[b"refuse hart ", hart_text(*requester).as_str().as_bytes()],
            )
        }
        Entry::Spill { block, .. } => put_all(sink, &[b"spill 0x", &first_byte(*block)]),
    }
}

fn abort_label(cause: AbortCause) -> &'static str
    ensures { result.now ≡ spec.abort_label cause }
{
    match cause {
        AbortCause::Asked => "abort asked",
        AbortCause::Conflict => "abort conflict",
        AbortCause::LogFull => "abort logfull",
        AbortCause::Trapped(..) => "abort trap",
    }
}

fn put_step_label<S: Sink>(
    sink: &mut S,
    step: &Step,
    arrival: &Option<Flight>,
) -> Result<(), SinkFault>
    ensures { Puts (S.state sink.old) (S.state sink.new) (spec.step_label step.now arrival.now) result }
{
    match (step, arrival) {
        (Step::Core(_), _) => put_all(sink, &[b"core"]),
        (Step::Evict(_, block), _) => put_all(sink, &[b"evict 0x", &first_byte(*block)]),
        (Step::Deliver(_), None) => put_all(sink, &[b"deliver"]),
        (Step::Deliver(_), Some(flight)) => {
            put_all(sink, &[message_text(&flight.message).as_str().as_bytes()])
        }
    }
}
