//! The ends as text.
ghost use Rattle.std.specs.List.{flat_map, enumerate_from};
ghost use Rattle.texts.specs.Puts.{Puts};
ghost use Rattle.requests.specs.EndTexts.{numbered, end_text, count_text, ends_text};

use itoa::Buffer;
use outcomes::End;
use texts::put_all;
use words::{Sink, SinkFault};

/// Puts the reports, each behind its number, and then how many there are, and of how many states: of all, or of as many as the search may hold.
pub fn put_ends<S: Sink>(
    ends: &[End],
    states: usize,
    is_all: bool,
    sink: &mut S,
) -> Result<(), SinkFault>
    ensures { Puts (S.state sink.old) (S.state sink.new) (ends_text ends.now states is_all) result }
{
    put_each(ends, sink)?;
    put_count(ends.len(), states, is_all, sink)
}

/// Puts the reports, each behind its number.
fn put_each<S: Sink>(ends: &[End], sink: &mut S) -> Result<(), SinkFault>
    ensures { Puts (S.state sink.old) (S.state sink.new) (flat_map end_text (enumerate_from 1 ends.now)) result }
{
    for (k, end) in ends.iter().enumerate() {
        put_end(k + 1, &end.report, sink)?;
    }
    Ok(())
}

/// Puts a report behind its number.
fn put_end<S: Sink>(number: usize, report: &[u8], sink: &mut S) -> Result<(), SinkFault>
    ensures { Puts (S.state sink.old) (S.state sink.new) (numbered number report.now) result }
{
    let mut digits = Buffer::new();
    put_all(
        sink,
        &[b"outcome ", digits.format(number).as_bytes(), b"\n", report],
    )
}

/// Puts how many ends there are, and of how many states.
fn put_count<S: Sink>(
    ends: usize,
    states: usize,
    is_all: bool,
    sink: &mut S,
) -> Result<(), SinkFault>
    ensures { Puts (S.state sink.old) (S.state sink.new) (count_text ends states is_all) result }
{
    let mut count = Buffer::new();
    let mut digits = Buffer::new();
    let count = count.format(ends).as_bytes();
    let states = digits.format(states).as_bytes();
    if is_all {
        put_all(sink, &[count, b" outcomes of ", states, b" states", b"\n"])
    } else {
        put_all(
            sink,
            &[
                count,
                b" outcomes so far: more than ",
                states,
                b" states",
                b"\n",
            ],
        )
    }
}
