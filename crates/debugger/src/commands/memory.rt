//! Words of memory and of text.
ghost use Rattle.std.specs.Prelude.{IsSome, IfSome};
ghost use Rattle.debugger.specs.declared.commands.command.Look.TheVariants.{Dis};
ghost use Rattle.texts.specs.Puts.{Puts};
ghost use Rattle.table.specs.Program.{word_at};
ghost use Rattle.render.specs.Blocks.{word_line};
ghost use Rattle.machine.specs.States.{setting_of};
ghost use Rattle.debugger.specs.Looks.{Shows};

use disassembler::Symbols;
use machine::Machine;
use render::put_word;
use words::{Addr, Sink, SinkFault};

/// Puts the word that was found at an address.
pub(crate) fn put_found<S: Sink>(
    addr: Addr,
    found: Option<u32>,
    sink: &mut S,
) -> Result<(), SinkFault>
    requires { IsSome found }
    ensures { IfSome found (λ value. Puts (S.state sink.old) (S.state sink.new) (word_line addr value) result) }
{
    put_word(addr, found.unwrap(), sink)
}

/// Puts the line of a word of text.
pub(crate) fn put_instruction<const SETS: usize, const WAYS: usize, S: Sink>(
    machine: &Machine<SETS, WAYS>,
    names: &Symbols<'_>,
    addr: Addr,
    sink: &mut S,
) -> Result<(), SinkFault>
    requires { IsSome (word_at (setting_of machine.now).segments addr) }
    ensures { Shows names.now SETS machine.now (Dis addr) (S.state sink.old) (S.state sink.new) result }
{
    disassembler::put_line(addr, names, machine.text().word(addr).unwrap(), sink)
}
