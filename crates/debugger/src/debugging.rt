ghost use Rattle.std.specs.Prelude.{◌≡◌};
ghost use Rattle.machine.specs.States.{geometry};
ghost use Rattle.debugger.specs.Debugging.{IsDebugged, answers, goes_on};

use crate::commands::{Command, DebugFault};
use crate::fault::ConsoleFault;
use crate::input::LineInput;
use crate::line_answers::Debugged;
use crate::playing::play;
use crate::session::{Flow, Session};
use disassembler::Symbols;
use machine::Machine;
use words::Sink;

impl<const SETS: usize, const WAYS: usize> Debugged for Session<SETS, WAYS> {
    ghost use Rattle.machine.specs.States.{geometry};
    ghost use Rattle.debugger.specs.Debugging.{answers};

    ghost answers = { answers (geometry SETS WAYS) };

    fn command<S: Sink>(
        &mut self,
        names: &Symbols<'_>,
        command: Command,
        sink: &mut S,
    ) -> Result<bool, DebugFault> {
        match Session::command(self, names, command, sink) {
            Ok(flow) => Ok(goes_on(flow)),
            Err(fault) => Err(fault),
        }
    }
}

/// Whether more commands are wanted.
fn goes_on(flow: Flow) -> bool
    ensures { result ≡ goes_on flow }
{
    match flow {
        Flow::Go => true,
        Flow::Quit => false,
    }
}

/// Debugs a machine, with names: a session of it, without breakpoints at first, answers the lines of an input.
pub fn debug<const SETS: usize, const WAYS: usize, I: LineInput, P: Sink, S: Sink>(
    names: &Symbols<'_>,
    machine: Machine<SETS, WAYS>,
    input: &mut I,
    prompt: &str,
    prompts: &mut P,
    out: &mut S,
) -> Result<(), ConsoleFault>
    ensures { IsDebugged (answers (geometry SETS WAYS) names.now) names.now I.gives machine.entry prompt.now input.old input.new (S.state out.old) (S.state out.new)
        (P.state prompts.old) (P.state prompts.new) result }
{
    let mut session = Session::new(machine);
    play(names, &mut session, input, prompt, prompts, out)
}
