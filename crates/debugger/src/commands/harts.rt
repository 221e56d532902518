//! Registers, transactions, and how far the harts have come.
ghost use Rattle.std.specs.Prelude.{◌<◌, Some};
ghost use Rattle.debugger.specs.declared.commands.command.Look.TheVariants.{Regs, Tx, Harts};
ghost use Rattle.texts.specs.Puts.{Puts};
ghost use Rattle.machine.specs.States.{setting_of, shown};
ghost use Rattle.disassembler.specs.Tables.{no_symbols};
ghost use Rattle.debugger.specs.Looks.{Shows, line_of_hart};
ghost use Rattle.debugger.specs.LookTexts as spec;

use crate::commands::parts::{blocks_part, depth_part, if_so, pc_part};
use disassembler::Symbols;
use itoa::Buffer;
use machine::{Machine, TxInfo};
use render::{hart_text, put_registers, stamp_text, status_text};
use texts::put_all;
use words::{HartId, Sink, SinkFault};

/// Puts a hart's registers, pc and status.
pub(crate) fn put_regs<const SETS: usize, const WAYS: usize, S: Sink>(
    machine: &Machine<SETS, WAYS>,
    names: &Symbols<'_>,
    hart: HartId,
    sink: &mut S,
) -> Result<(), SinkFault>
    requires { hart < (setting_of machine.now).count }
    ensures { Shows names.now SETS machine.now (Regs hart) (S.state sink.old) (S.state sink.new) result }
{
    let (regs, pc, status) = machine.regs(hart).unwrap();
    put_registers(names, &regs, pc, status, sink)
}

/// Puts a hart's transaction.
pub(crate) fn put_tx<const SETS: usize, const WAYS: usize, S: Sink>(
    machine: &Machine<SETS, WAYS>,
    hart: HartId,
    sink: &mut S,
) -> Result<(), SinkFault>
    ensures { Shows no_symbols SETS machine.now (Tx hart) (S.state sink.old) (S.state sink.new) result }
{
    match machine.tx(hart) {
        Some(info) => put_info(&info, sink),
        None => put_all(sink, &[b"none\n"]),
    }
}

fn put_info<S: Sink>(info: &TxInfo, sink: &mut S) -> Result<(), SinkFault>
    ensures { Puts (S.state sink.old) (S.state sink.new) (spec.tx_line (Some info.now)) result }
{
    let mut depth = Buffer::new();
    let mut records = Buffer::new();
    put_all(
        sink,
        &[
            b"depth ",
            depth.format(info.depth).as_bytes(),
            b" records ",
            records.format(info.records).as_bytes(),
            b" stamp ",
            stamp_text(Some(info.stamp)).as_str().as_bytes(),
            if_so(info.overflow, " overflow").as_bytes(),
            if_so(info.cycle, " cycle").as_bytes(),
            if_so(info.aborting.is_some(), " aborting").as_bytes(),
            b"\n",
        ],
    )
}

/// Puts a line for each hart, in order.
pub(crate) fn put_harts<const SETS: usize, const WAYS: usize, S: Sink>(
    machine: &Machine<SETS, WAYS>,
    names: &Symbols<'_>,
    sink: &mut S,
) -> Result<(), SinkFault>
    ensures { Shows names.now SETS machine.now Harts (S.state sink.old) (S.state sink.new) result }
{
    for number in 0..machine.harts() {
        put_hart(machine, names, HartId::new(number as u8), sink)?;
    }
    Ok(())
}

/// Puts how far a hart has come.
fn put_hart<const SETS: usize, const WAYS: usize, S: Sink>(
    machine: &Machine<SETS, WAYS>,
    names: &Symbols<'_>,
    hart: HartId,
    sink: &mut S,
) -> Result<(), SinkFault>
    requires { hart < (setting_of machine.now).count }
    ensures { Puts (S.state sink.old) (S.state sink.new) (line_of_hart names.now (shown SETS machine.now) hart) result }
{
    let (_, pc, status) = machine.regs(hart).unwrap();
    put_all(
        sink,
        &[
            hart_text(hart).as_str().as_bytes(),
            pc_part(names, pc).as_bytes(),
            b" ",
            status_text(status).as_str().as_bytes(),
            depth_part(machine.tx(hart)).as_str().as_bytes(),
            blocks_part(machine.waits_for(hart), machine.reserved_by(hart))
                .as_str()
                .as_bytes(),
            b"\n",
        ],
    )
}
