//! What the page is told of a hart.
ghost use Rattle.std.specs.Prelude.{◌≡◌, ◌<◌};
ghost use Rattle.std.specs.List.{flat_map, range_with_len};
ghost use Rattle.std.specs.Option.{option_map};
ghost use Rattle.words.specs.declared.cause.Status.{Status as StatusValue};
ghost use Rattle.texts.specs.Puts.{Puts};
ghost use Rattle.table.specs.Program.{word_at};
ghost use Rattle.machine.specs.States.{setting_of, shown};
ghost use Rattle.pages.specs.Harts as spec;

use crate::names::put_name;
use disassembler::{Symbols, text};
use itoa::Buffer;
use machine::{Machine, TxInfo};
use render::{cached_text, first_byte, hart_text, stamp_text, status_text};
use texts::{Line, hexadecimal, put_all};
use words::{Addr, BlockNo, HartId, Reg, Regs, Sink, SinkFault, Status};

/// Puts all harts, one after another.
pub(crate) fn put_harts<const SETS: usize, const WAYS: usize, S: Sink>(
    sink: &mut S,
    names: &Symbols<'_>,
    machine: &Machine<SETS, WAYS>,
) -> Result<(), SinkFault>
    ensures { Puts (S.state sink.old) (S.state sink.new) (spec.harts_text names.now SETS machine.now) result }
{
    for number in 0..machine.harts() {
        put_item(sink, names, machine, HartId::new(number as u8))?;
    }
    Ok(())
}

fn put_item<const SETS: usize, const WAYS: usize, S: Sink>(
    sink: &mut S,
    names: &Symbols<'_>,
    machine: &Machine<SETS, WAYS>,
    hart: HartId,
) -> Result<(), SinkFault>
    requires { hart < (setting_of machine.now).count }
    ensures { Puts (S.state sink.old) (S.state sink.new) (spec.hart_item names.now SETS machine.now hart) result }
{
    put_hart(sink, names, machine, hart)?;
    put_all(sink, &[b","])
}

/// Puts a hart.
pub(crate) fn put_hart<const SETS: usize, const WAYS: usize, S: Sink>(
    sink: &mut S,
    names: &Symbols<'_>,
    machine: &Machine<SETS, WAYS>,
    hart: HartId,
) -> Result<(), SinkFault>
    requires { hart < (setting_of machine.now).count }
    ensures { Puts (S.state sink.old) (S.state sink.new) (spec.hart_text names.now SETS machine.now hart) result }
{
    let (regs, pc, status) = machine.regs(hart).unwrap();
    put_parts(sink, names, machine, hart, &regs, pc, status)
}

/// Puts a hart with these registers, this pc and this status.
fn put_parts<const SETS: usize, const WAYS: usize, S: Sink>(
    sink: &mut S,
    names: &Symbols<'_>,
    machine: &Machine<SETS, WAYS>,
    hart: HartId,
    regs: &Regs,
    pc: Addr,
    status: Status,
) -> Result<(), SinkFault>
    ensures { Puts (S.state sink.old) (S.state sink.new) (spec.parts_text names.now SETS machine.now hart regs.now pc status) result }
{
    put_progress(sink, hart, pc, status, machine.text().word(pc))?;
    put_name(sink, names.label(pc).as_bytes())?;
    put_waits(sink, machine.waits_for(hart))?;
    put_transaction(sink, machine.tx(hart))?;
    put_registers(sink, regs)?;
    put_cache(sink, machine, hart)
}

/// Puts how far a hart has come, and the word at its pc.
fn put_progress<S: Sink>(
    sink: &mut S,
    hart: HartId,
    pc: Addr,
    status: Status,
    word: Option<u32>,
) -> Result<(), SinkFault>
    ensures { Puts (S.state sink.old) (S.state sink.new) (spec.progress_text hart pc status word) result }
{
    put_all(
        sink,
        &[
            b"{id:",
            hart_text(hart).as_str().as_bytes(),
            b",pc:\"",
            &hexadecimal(pc.value()),
            b"\",status:\"",
            status_text(status).as_str().as_bytes(),
            b"\",next:\"",
            next(word).as_bytes(),
            b"\",",
        ],
    )
}

/// The text of the word that comes next, if there is one.
fn next(word: Option<u32>) -> Line<40>
    ensures { result ≡ spec.next_text word }
{
    match word {
        Some(word) => text(word),
        None => Line::new(),
    }
}

/// Puts the block that a hart waits for, if it does.
fn put_waits<S: Sink>(sink: &mut S, block: Option<BlockNo>) -> Result<(), SinkFault>
    ensures { Puts (S.state sink.old) (S.state sink.new) (spec.waits_text block) result }
{
    match block {
        Some(block) => put_all(sink, &[b"waits:\"", &first_byte(block), b"\","]),
        None => Ok(()),
    }
}

/// Puts a hart's transaction, if it runs one.
fn put_transaction<S: Sink>(sink: &mut S, tx: Option<TxInfo>) -> Result<(), SinkFault>
    ensures { Puts (S.state sink.old) (S.state sink.new) (spec.transaction_text tx) result }
{
    match tx {
        Some(info) => put_info(sink, &info),
        None => Ok(()),
    }
}

fn put_info<S: Sink>(sink: &mut S, info: &TxInfo) -> Result<(), SinkFault>
    ensures { Puts (S.state sink.old) (S.state sink.new) (spec.info_text info.now) result }
{
    let mut depth = Buffer::new();
    let mut records = Buffer::new();
    put_all(
        sink,
        &[
            b"tx:{depth:",
            depth.format(info.depth).as_bytes(),
            b",records:",
            records.format(info.records).as_bytes(),
            b",stamp:\"",
            stamp_text(Some(info.stamp)).as_str().as_bytes(),
            b"\",overflow:",
            truth(info.overflow).as_bytes(),
            b",cycle:",
            truth(info.cycle).as_bytes(),
            b",aborting:",
            truth(info.aborting.is_some()).as_bytes(),
            b"},",
        ],
    )
}

fn truth(holds: bool) -> &'static str
    ensures { result.now ≡ spec.truth holds }
{
    if holds { "true" } else { "false" }
}

/// Puts a hart's registers.
fn put_registers<S: Sink>(sink: &mut S, regs: &Regs) -> Result<(), SinkFault>
    ensures { Puts (S.state sink.old) (S.state sink.new) (spec.registers_text regs.now) result }
{
    put_all(sink, &[b"regs:["])?;
    put_values(sink, regs)?;
    put_all(sink, &[b"],"])
}

fn put_values<S: Sink>(sink: &mut S, regs: &Regs) -> Result<(), SinkFault>
    ensures { Puts (S.state sink.old) (S.state sink.new) (flat_map (spec.register_item regs.now) (range_with_len 0 32)) result }
{
    for number in 0..32 {
        put_value(sink, regs.read(Reg::new(number)))?;
    }
    Ok(())
}

fn put_value<S: Sink>(sink: &mut S, value: u32) -> Result<(), SinkFault>
    ensures { Puts (S.state sink.old) (S.state sink.new) (spec.number_item value) result }
{
    let mut digits = Buffer::new();
    put_all(sink, &[digits.format(value).as_bytes(), b","])
}

/// Puts the lines of a hart's cache.
fn put_cache<const SETS: usize, const WAYS: usize, S: Sink>(
    sink: &mut S,
    machine: &Machine<SETS, WAYS>,
    hart: HartId,
) -> Result<(), SinkFault>
    ensures { Puts (S.state sink.old) (S.state sink.new) (spec.cache_text SETS machine.now hart) result }
{
    put_all(sink, &[b"lines:["])?;
    put_lines(sink, machine, hart)?;
    put_all(sink, &[b"]}"])
}

/// Puts a hart's line of each block that is in use.
fn put_lines<const SETS: usize, const WAYS: usize, S: Sink>(
    sink: &mut S,
    machine: &Machine<SETS, WAYS>,
    hart: HartId,
) -> Result<(), SinkFault>
    ensures { Puts (S.state sink.old) (S.state sink.new) (flat_map (spec.kept_line SETS machine.now hart) machine.now.directory.kept) result }
{
    for (number, _entry) in machine.kept() {
        put_line(sink, machine, hart, BlockNo::new(*number))?;
    }
    Ok(())
}

/// Puts a hart's line of a block, if it has one.
fn put_line<const SETS: usize, const WAYS: usize, S: Sink>(
    sink: &mut S,
    machine: &Machine<SETS, WAYS>,
    hart: HartId,
    block: BlockNo,
) -> Result<(), SinkFault>
    ensures { Puts (S.state sink.old) (S.state sink.new) (spec.line_item block (((shown SETS machine.now).harts hart).lines block)) result }
{
    match machine.line(hart, block) {
        Some(line) => put_all(
            sink,
            &[
                b"\"",
                &first_byte(block),
                b" ",
                cached_text(line.state, line.marks).as_str().as_bytes(),
                b"\",",
            ],
        ),
        None => Ok(()),
    }
}
