//! Lines of caches and entries of the directory.
ghost use Rattle.debugger.specs.declared.commands.command.Look.TheVariants.{Line, Dir, Dirs};
ghost use Rattle.texts.specs.Puts.{Puts};
ghost use Rattle.disassembler.specs.Tables.{no_symbols};
ghost use Rattle.debugger.specs.Looks.{Shows, kept_line};

use directory::DirEntry;
use machine::Machine;
use render::{directory_text, first_byte, put_cached, put_directory};
use texts::put_all;
use words::{Addr, BlockNo, HartId, Sink, SinkFault};

/// Puts a hart's line of a block.
pub(crate) fn put_line<const SETS: usize, const WAYS: usize, S: Sink>(
    machine: &Machine<SETS, WAYS>,
    hart: HartId,
    addr: Addr,
    sink: &mut S,
) -> Result<(), SinkFault>
    ensures { Shows no_symbols SETS machine.now (Line hart addr) (S.state sink.old) (S.state sink.new) result }
{
    match machine.line(hart, addr.block()) {
        Some(line) => put_cached(line.state, line.marks, sink),
        None => put_all(sink, &[b"none\n"]),
    }
}

/// Puts the directory's entry of a block.
pub(crate) fn put_entry<const SETS: usize, const WAYS: usize, S: Sink>(
    machine: &Machine<SETS, WAYS>,
    addr: Addr,
    sink: &mut S,
) -> Result<(), SinkFault>
    ensures { Shows no_symbols SETS machine.now (Dir addr) (S.state sink.old) (S.state sink.new) result }
{
    put_directory(&machine.entry(addr.block()), sink)
}

/// Puts the entries that the directory keeps, by rising block.
pub(crate) fn put_entries<const SETS: usize, const WAYS: usize, S: Sink>(
    machine: &Machine<SETS, WAYS>,
    sink: &mut S,
) -> Result<(), SinkFault>
    ensures { Shows no_symbols SETS machine.now Dirs (S.state sink.old) (S.state sink.new) result }
{
    for (number, entry) in machine.kept() {
        put_kept(BlockNo::new(*number), entry, sink)?;
    }
    Ok(())
}

/// Puts a block and its entry.
fn put_kept<S: Sink>(block: BlockNo, entry: &DirEntry, sink: &mut S) -> Result<(), SinkFault>
    ensures { Puts (S.state sink.old) (S.state sink.new) (kept_line (block, entry.now)) result }
{
    put_all(
        sink,
        &[
            b"0x",
            &first_byte(block),
            b" ",
            directory_text(entry).as_str().as_bytes(),
            b"\n",
        ],
    )
}
