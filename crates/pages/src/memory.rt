//! What the page is told of words of memory.
ghost use Rattle.std.specs.Prelude.{◌≡◌};
ghost use Rattle.std.specs.List.{flat_map};
ghost use Rattle.texts.specs.Puts.{Puts};
ghost use Rattle.pages.specs.Memory as spec;

use machine::Machine;
use texts::{hexadecimal, put_all};
use words::{Addr, Sink, SinkFault};

/// Puts the addresses of words.
pub(crate) fn put_addresses<S: Sink>(sink: &mut S, words: &[Addr]) -> Result<(), SinkFault>
    ensures { Puts (S.state sink.old) (S.state sink.new) (flat_map spec.digits_item words.now) result }
{
    for addr in words {
        put_digits(sink, addr.value())?;
    }
    Ok(())
}

/// Puts what memory has at the addresses of words, in place and with all running transactions rolled back.
pub(crate) fn put_words<const SETS: usize, const WAYS: usize, S: Sink>(
    sink: &mut S,
    machine: &Machine<SETS, WAYS>,
    words: &[Addr],
) -> Result<(), SinkFault>
    ensures { Puts (S.state sink.old) (S.state sink.new) (flat_map (spec.word_item SETS machine.now) words.now) result }
{
    for addr in words {
        put_word(sink, machine, *addr)?;
    }
    Ok(())
}

fn put_word<const SETS: usize, const WAYS: usize, S: Sink>(
    sink: &mut S,
    machine: &Machine<SETS, WAYS>,
    addr: Addr,
) -> Result<(), SinkFault>
    ensures { Puts (S.state sink.old) (S.state sink.new) (spec.word_item SETS machine.now addr) result }
{
    machine.are_in_order();
    put_value(sink, machine.raw(addr))?;
    put_value(sink, machine.peek(addr))
}

/// Puts a word, or `null` where there is none.
fn put_value<S: Sink>(sink: &mut S, value: Option<u32>) -> Result<(), SinkFault>
    ensures { Puts (S.state sink.old) (S.state sink.new) (spec.value_item value) result }
{
    match value {
        Some(value) => put_digits(sink, value),
        None => put_all(sink, &[b"null,"]),
    }
}

fn put_digits<S: Sink>(sink: &mut S, value: u32) -> Result<(), SinkFault>
    ensures { Puts (S.state sink.old) (S.state sink.new) (spec.digits_item value) result }
{
    put_all(sink, &[b"\"", &hexadecimal(value), b"\","])
}
