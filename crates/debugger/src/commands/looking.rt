ghost use Rattle.std.specs.Prelude.{◌≡◌, None, Err, IfSome, Result};
ghost use Rattle.words.specs.declared.sink.SinkFault.{SinkFault as Failed};
ghost use Rattle.texts.specs.Puts.{Puts};
ghost use Rattle.debugger.specs.Manual.{help_text};
ghost use Rattle.debugger.specs.Looks.{refusal, Shows, told};

use crate::commands::blocks::{put_entries, put_entry, put_line};
use crate::commands::command::Look;
use crate::commands::fault::DebugFault;
use crate::commands::flights::put_messages;
use crate::commands::harts::{put_harts, put_regs, put_tx};
use crate::commands::manual::help;
use crate::commands::memory::{put_found, put_instruction};
use crate::commands::places::{hart_of, logged_at, text_at, word_at};
use disassembler::Symbols;
use machine::Machine;
use texts::put_all;
use words::{Sink, SinkFault};

/// A put that failed, as the debugger tells it.
fn told(put: Result<(), SinkFault>) -> Result<(), DebugFault>
    ensures { result ≡ told put }
{
    match put {
        Ok(()) => Ok(()),
        Err(_) => Err(DebugFault::Device),
    }
}

/// Puts what the commands are.
fn put_help<S: Sink>(sink: &mut S) -> Result<(), SinkFault>
    ensures { Puts (S.state sink.old) (S.state sink.new) help_text result }
{
    put_all(sink, &[help().as_bytes()])
}

/// Puts what a look at a machine shows, with names. A hart that isn't there, and an address where nothing can be shown, are refused before anything is put.
/// Then the only fault is that a put failed.
pub fn look<const SETS: usize, const WAYS: usize, S: Sink>(
    machine: &Machine<SETS, WAYS>,
    names: &Symbols<'_>,
    look: Look,
    sink: &mut S,
) -> Result<(), DebugFault>
    ensures refused { IfSome (refusal machine.now look) (λ fault. (result ≡ Err fault) × (sink.new ≡ sink.old)) }
    ensures shown { refusal machine.now look ≡ None → (put : Result Unit Failed)
        × Shows names.now SETS machine.now look (S.state sink.old) (S.state sink.new) put × (result ≡ told put) }
{
    let put = match look {
        Look::Regs(hart) => put_regs(machine, names, hart_of(machine, hart)?, sink),
        Look::Word(addr) => {
            let addr = word_at(machine, addr)?;
            put_found(addr, machine.peek(addr), sink)
        }
        Look::Raw(addr) => {
            let addr = word_at(machine, addr)?;
            put_found(addr, machine.raw(addr), sink)
        }
        Look::View(hart, addr) => {
            let hart = hart_of(machine, hart)?;
            let addr = word_at(machine, addr)?;
            put_found(addr, machine.view(hart, addr), sink)
        }
        Look::Line(hart, addr) => {
            let hart = hart_of(machine, hart)?;
            put_line(machine, hart, word_at(machine, addr)?, sink)
        }
        Look::Dir(addr) => put_entry(machine, word_at(machine, addr)?, sink),
        Look::Dirs => put_entries(machine, sink),
        Look::Tx(hart) => put_tx(machine, hart_of(machine, hart)?, sink),
        Look::Log(addr) => {
            let addr = logged_at(machine, addr)?;
            put_found(addr, machine.log_word(addr), sink)
        }
        Look::Dis(addr) => put_instruction(machine, names, text_at(machine, addr)?, sink),
        Look::Messages => put_messages(machine, sink),
        Look::Harts => put_harts(machine, names, sink),
        Look::Help => put_help(sink),
    };
    told(put)
}
