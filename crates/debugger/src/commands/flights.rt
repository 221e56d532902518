//! The messages in flight.
ghost use Rattle.debugger.specs.declared.commands.command.Look.TheVariants.{Messages};
ghost use Rattle.texts.specs.Puts.{Puts};
ghost use Rattle.disassembler.specs.Tables.{no_symbols};
ghost use Rattle.debugger.specs.LookTexts.{message_line};
ghost use Rattle.debugger.specs.Looks.{Shows};

use crate::commands::parts::if_so;
use machine::Machine;
use render::message_text;
use texts::put_all;
use words::{Message, Sink, SinkFault};

/// Puts the messages in flight, the oldest first.
pub(crate) fn put_messages<const SETS: usize, const WAYS: usize, S: Sink>(
    machine: &Machine<SETS, WAYS>,
    sink: &mut S,
) -> Result<(), SinkFault>
    ensures { Shows no_symbols SETS machine.now Messages (S.state sink.old) (S.state sink.new) result }
{
    machine.are_in_order();
    let _next = machine.sent();
    let mut number = 0;
    while let Some(flight) = machine.next_from(number) {
        put_message(&flight.message, machine.is_held(flight.number), sink)?;
        number = flight.number + 1;
    }
    Ok(())
}

/// Puts a message, and whether the directory holds it.
fn put_message<S: Sink>(message: &Message, held: bool, sink: &mut S) -> Result<(), SinkFault>
    ensures { Puts (S.state sink.old) (S.state sink.new) (message_line message.now held) result }
{
    put_all(
        sink,
        &[
            message_text(message).as_str().as_bytes(),
            if_so(held, " held").as_bytes(),
            b"\n",
        ],
    )
}
