ghost use Rattle.std.specs.Prelude.{◌≡◌, Some, Err};
ghost use Rattle.machine.specs.States.{geometry};
ghost use Rattle.debugger.specs.declared.commands.fault.DebugFault.{DebugFault as Fault};
ghost use Rattle.debugger.specs.Looks.{refusal};
ghost use Rattle.debugger.specs.Answers.{Answers, ShowsLook, IsRefused};

use crate::commands::{Command, DebugFault, Look, look};
use crate::session::{Flow, Session};
use disassembler::Symbols;
use machine::Machine;
use words::Sink;

/// Puts what a look at a machine shows.
fn show<const SETS: usize, const WAYS: usize, S: Sink>(
    machine: &Machine<SETS, WAYS>,
    names: &Symbols<'_>,
    what: Look,
    sink: &mut S,
) -> Result<Flow, DebugFault>
    ensures shows { ShowsLook names.now SETS machine.now what (S.state sink.old) (S.state sink.new) result }
    ensures refused { (fault : Fault) → refusal machine.now what ≡ Some fault → result ≡ Err fault }
{
    match look(machine, names, what, sink) {
        Ok(()) => Ok(Flow::Go),
        Err(fault) => Err(fault),
    }
}

/// Commands.
impl<const SETS: usize, const WAYS: usize> Session<SETS, WAYS> {
    /// Does what a command says, and puts what it has to tell, with names. A command that is refused for its hart, for its address, or since no hart runs,
    /// changes nothing and puts nothing. One that comes to a limit, or runs out of memory, has made the turns up to there. A put that failed
    /// leaves the command done.
    pub fn command<S: Sink>(
        &mut self,
        names: &Symbols<'_>,
        command: Command,
        sink: &mut S,
    ) -> Result<Flow, DebugFault>
        ensures answers { Answers (geometry SETS WAYS) names.now self.old command self.new (S.state sink.old) (S.state sink.new) result }
        ensures refused { (fault : Fault) → IsRefused SETS self.old command fault → result ≡ Err fault }
    {
        match command {
            Command::Look(what) => show(self.machine(), names, what, sink),
            _ => self.answer(names, command, sink),
        }
    }
}
