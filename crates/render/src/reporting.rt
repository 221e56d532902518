//! The report on a machine that has stopped, or was stopped.
ghost use Rattle.std.specs.Prelude.{◌≡◌, ◌<◌, true};
ghost use Rattle.words.specs.declared.cause.Status.TheVariants.{Stopped};
ghost use Rattle.words.specs.declared.entry.Width.TheVariants.{Word};
ghost use Rattle.words.specs.Bytes.{number_at};
ghost use Rattle.flat.specs.State.{Flat};
ghost use Rattle.flat.specs.Reads.{is_readable};
ghost use Rattle.render.specs.Reports.{output_text, status_text, hart_text, harts_text, word_text, words_text, report_of, AllReadable};
ghost use Rattle.texts.specs.Puts.{Puts};

use crate::statuses::status_of;
use flat::Engine;
use itoa::Buffer;
use texts::{hexadecimal, put_all};
use words::{Addr, Cause, HartId, Sink, SinkFault, Status};

/// Puts what became of a machine: for each hart in order its output, if there is any, and whether it runs or how it
/// ended, and then the words at these addresses.
pub fn report<M: Engine, S: Sink>(
    machine: &M,
    words: &[Addr],
    sink: &mut S,
) -> Result<(), SinkFault>
    requires { AllReadable (M.setting machine.now) words.now }
    ensures { (f : Flat) → M.belongs f machine.now → Puts (S.state sink.old) (S.state sink.new) (report_of f words.now) result }
{
    put_harts(machine, sink)?;
    put_words(machine, words, sink)
}

fn put_harts<M: Engine, S: Sink>(machine: &M, sink: &mut S) -> Result<(), SinkFault>
    ensures { (f : Flat) → M.belongs f machine.now → Puts (S.state sink.old) (S.state sink.new) (harts_text f f.setting.count) result }
{
    for number in 0..machine.harts() {
        put_hart(machine, HartId::new(number as u8), sink)?;
    }
    Ok(())
}

fn put_hart<M: Engine, S: Sink>(machine: &M, id: HartId, sink: &mut S) -> Result<(), SinkFault>
    requires { id < (M.setting machine.now).count }
    ensures { (f : Flat) → M.belongs f machine.now → Puts (S.state sink.old) (S.state sink.new) (hart_text f id) result }
{
    put_output(id, machine.output(id), sink)?;
    put_status(id, status_of(machine, id), sink)
}

fn put_output<S: Sink>(id: HartId, bytes: &[u8], sink: &mut S) -> Result<(), SinkFault>
    ensures { Puts (S.state sink.old) (S.state sink.new) (output_text id bytes.now) result }
{
    if bytes.is_empty() {
        return Ok(());
    }
    let mut number = Buffer::new();
    let mut count = Buffer::new();
    put_all(
        sink,
        &[
            b"hart ",
            number.format(id.index()).as_bytes(),
            b" output ",
            count.format(bytes.len()).as_bytes(),
            b" bytes",
            b"\n",
            bytes,
            b"\n",
        ],
    )
}

fn put_status<S: Sink>(id: HartId, status: Status, sink: &mut S) -> Result<(), SinkFault>
    ensures { Puts (S.state sink.old) (S.state sink.new) (status_text id status) result }
{
    let mut number = Buffer::new();
    let number = number.format(id.index()).as_bytes();
    match status {
        Status::Running => put_all(sink, &[b"hart ", number, b": running", b"\n"]),
        Status::Exited(value) => {
            let mut digits = Buffer::new();
            let value = digits.format(value).as_bytes();
            put_all(sink, &[b"hart ", number, b": exit ", value, b"\n"])
        }
        Status::Stopped(cause, pc) => put_trap(id, cause, pc, sink),
    }
}

fn put_trap<S: Sink>(id: HartId, cause: Cause, pc: Addr, sink: &mut S) -> Result<(), SinkFault>
    ensures { Puts (S.state sink.old) (S.state sink.new) (status_text id (Stopped cause pc)) result }
{
    let mut number = Buffer::new();
    let mut digits = Buffer::new();
    put_all(
        sink,
        &[
            b"hart ",
            number.format(id.index()).as_bytes(),
            b": trap ",
            digits.format(cause.number()).as_bytes(),
            b" ",
            cause.name().as_bytes(),
            b" at 0x",
            &hexadecimal(pc.value()),
            b"\n",
        ],
    )
}

fn put_words<M: Engine, S: Sink>(machine: &M, words: &[Addr], sink: &mut S) -> Result<(), SinkFault>
    requires { AllReadable (M.setting machine.now) words.now }
    ensures { (f : Flat) → M.belongs f machine.now → Puts (S.state sink.old) (S.state sink.new) (words_text f words.now) result }
{
    for addr in words {
        put_word(machine, *addr, sink)?;
    }
    Ok(())
}

fn put_word<M: Engine, S: Sink>(machine: &M, addr: Addr, sink: &mut S) -> Result<(), SinkFault>
    requires { is_readable (M.setting machine.now) addr ≡ true }
    ensures { (f : Flat) → M.belongs f machine.now → Puts (S.state sink.old) (S.state sink.new) (word_text f addr) result }
{
    put_all(
        sink,
        &[
            b"word 0x",
            &hexadecimal(addr.value()),
            b" = 0x",
            &hexadecimal(word(machine, addr)),
            b"\n",
        ],
    )
}

fn word<M: Engine>(machine: &M, addr: Addr) -> u32
    requires { is_readable (M.setting machine.now) addr ≡ true }
    ensures { (f : Flat) → M.belongs f machine.now → result ≡ number_at f.mem addr Word }
{
    machine.peek(addr).unwrap()
}
