ghost use Rattle.std.specs.Prelude.{◌≡◌, Err, MatchResult};
ghost use Rattle.machine.specs.States.{geometry};
ghost use Rattle.debugger.specs.declared.commands.fault.DebugFault.{DebugFault as Fault};
ghost use Rattle.debugger.specs.Answers.{Carries, flow_of};
ghost use Rattle.debugger.specs.Sessions.{Does, Fails, IsDeedRefused};

use crate::commands::{Command, DebugFault};
use crate::report::Report;
use crate::session::{Flow, Session};
use crate::tell::put_report;
use disassembler::Symbols;
use words::Sink;

/// Whether a session goes on after a command.
fn flow_of(command: &Command) -> Flow
    ensures { result ≡ flow_of command.now }
{
    match command {
        Command::Quit => Flow::Quit,
        _ => Flow::Go,
    }
}

/// What commands do, and how they are answered.
impl<const SETS: usize, const WAYS: usize> Session<SETS, WAYS> {
    /// Does what a command says, up to what it has to tell.
    fn carry_out(&mut self, command: Command) -> Result<Report, DebugFault>
        ensures told { MatchResult result (λ report. Does (geometry SETS WAYS) self.old command report self.new) (λ fault. Fails (geometry SETS WAYS) self.old command fault self.new) }
        ensures refused { (fault : Fault) → IsDeedRefused SETS self.old command fault → result ≡ Err fault }
    {
        match command {
            Command::Step => self.step(),
            Command::Run(turns) => self.run(turns),
            Command::Break(address) => self.toggle(address),
            Command::Core(hart) => self.core(hart),
            Command::Evict(hart, address) => self.evict(hart, address),
            Command::Deliver(sort, hart, address) => self.deliver(sort, hart, address),
            Command::Look(_) | Command::Comment | Command::Quit => Ok(Report::Silence),
        }
    }

    /// Carries a command out, and puts what it has to tell. A look is passed over: nothing is put for it.
    pub(crate) fn answer<S: Sink>(
        &mut self,
        names: &Symbols<'_>,
        command: Command,
        sink: &mut S,
    ) -> Result<Flow, DebugFault>
        ensures carries { Carries (geometry SETS WAYS) names.now self.old command self.new (S.state sink.old) (S.state sink.new) result }
        ensures refused { (fault : Fault) → IsDeedRefused SETS self.old command fault → result ≡ Err fault }
    {
        let report = self.carry_out(command)?;
        match put_report(names, &self.machine, &report, sink) {
            Ok(()) => Ok(flow_of(&command)),
            Err(_) => Err(DebugFault::Device),
        }
    }
}
