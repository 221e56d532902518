ghost use Rattle.std.specs.Prelude.{◌≡◌, ◌*◌, ◌++◌, codes, replicate};
ghost use Rattle.words.specs.Limits.{block_bytes};
ghost use Rattle.texts.specs.Puts.{Puts};
ghost use Rattle.texts.specs.Numerals.{hexadecimal};
ghost use Rattle.schedule.specs.Histories.{choices_in};
ghost use Rattle.schedule.specs.Written.{line_of, text_of};

use crate::choices::{Choice, Name};
use crate::history::{Batch, History};
use itoa::Buffer;
use texts::{hexadecimal, put_all};
use words::{BLOCK_BYTES, BlockNo, HartId, Sink, SinkFault};

/// Puts the choices of a history as a schedule: the line of each, in order.
pub fn put_history<S: Sink>(sink: &mut S, history: &History) -> Result<(), SinkFault>
    ensures { Puts (S.state sink.old) (S.state sink.new) (text_of history.now.choices) result }
{
    put_batches(sink, &history.batches)
}

/// Puts choices as a schedule: the line of each, in order.
pub fn put_choices<S: Sink>(sink: &mut S, choices: &[Choice]) -> Result<(), SinkFault>
    ensures { Puts (S.state sink.old) (S.state sink.new) (text_of choices.now) result }
{
    for choice in choices {
        put_line(sink, choice)?;
    }
    Ok(())
}

fn put_batches<S: Sink>(sink: &mut S, batches: &[Batch]) -> Result<(), SinkFault>
    ensures { Puts (S.state sink.old) (S.state sink.new) (text_of (choices_in batches.now)) result }
{
    for batch in batches {
        put_batch(sink, batch)?;
    }
    Ok(())
}

fn put_batch<S: Sink>(sink: &mut S, batch: &Batch) -> Result<(), SinkFault>
    ensures { Puts (S.state sink.old) (S.state sink.new) (text_of (replicate batch.now.times batch.now.choice)) result }
{
    for _made in 0..batch.times {
        put_line(sink, &batch.choice)?;
    }
    Ok(())
}

fn put_line<S: Sink>(sink: &mut S, choice: &Choice) -> Result<(), SinkFault>
    ensures { Puts (S.state sink.old) (S.state sink.new) (line_of choice.now ++ codes "\n") result }
{
    put_choice(sink, choice)?;
    put_all(sink, &[b"\n"])
}

fn put_choice<S: Sink>(sink: &mut S, choice: &Choice) -> Result<(), SinkFault>
    ensures { Puts (S.state sink.old) (S.state sink.new) (line_of choice.now) result }
{
    match choice {
        Choice::Core(hart) => put_core(sink, *hart),
        Choice::Evict(hart, block) => put_evict(sink, *hart, *block),
        Choice::Deliver(name) => put_delivery(sink, *name),
        Choice::Turn => put_all(sink, &[b"turn"]),
    }
}

fn put_core<S: Sink>(sink: &mut S, hart: HartId) -> Result<(), SinkFault>
    ensures { Puts (S.state sink.old) (S.state sink.new) (line_of (Choice.Core hart)) result }
{
    let mut number = Buffer::new();
    put_all(sink, &[b"core ", number.format(hart.index()).as_bytes()])
}

fn put_evict<S: Sink>(sink: &mut S, hart: HartId, block: BlockNo) -> Result<(), SinkFault>
    ensures { Puts (S.state sink.old) (S.state sink.new) (line_of (Choice.Evict hart block)) result }
{
    let mut number = Buffer::new();
    put_all(
        sink,
        &[
            b"evict ",
            number.format(hart.index()).as_bytes(),
            b" 0x",
            &address(block),
        ],
    )
}

fn put_delivery<S: Sink>(sink: &mut S, name: Name) -> Result<(), SinkFault>
    ensures { Puts (S.state sink.old) (S.state sink.new) (line_of (Choice.Deliver name)) result }
{
    let mut number = Buffer::new();
    put_all(
        sink,
        &[
            b"deliver ",
            name.sort.name().as_bytes(),
            b" ",
            number.format(name.hart.index()).as_bytes(),
            b" 0x",
            &address(name.block),
        ],
    )
}

/// The digits of the address of a block's first word.
fn address(block: BlockNo) -> [u8; 8]
    ensures { result ≡ hexadecimal (block_bytes * block) }
{
    hexadecimal(block.number().wrapping_mul(BLOCK_BYTES as u32))
}
