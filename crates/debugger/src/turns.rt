ghost use Rattle.std.specs.Prelude.{◌≡◌, ◌==◌, ℕ, None, position, Err, MatchResult, MatchBool, IfOk, IfErr, OnErr, IfSome, IfNone};
ghost use Rattle.machine.specs.States.{geometry};
ghost use Rattle.debugger.specs.declared.commands.command.Command.TheVariants.{Step, Run};
ghost use Rattle.debugger.specs.declared.commands.fault.DebugFault.TheVariants.{Stopped, NoMemory};
ghost use Rattle.debugger.specs.Sessions.{IsIdle, Turns, LetsOn, Does, Fails, mover, has_breakpoint, break_at};

use crate::commands::DebugFault;
use crate::report::Report;
use crate::session::Session;
use words::{Addr, Entry, HartId};

/// How many turns `step` waits for an entry.
const PATIENCE: u32 = 1_000_000;

/// The hart that retired or aborted by an entry.
fn mover(entry: &Entry) -> Option<HartId>
    ensures { result ≡ mover entry.now }
{
    match entry {
        Entry::Retire { hart, .. } | Entry::Abort { hart, .. } => Some(*hart),
        Entry::Trap { .. } | Entry::Refuse { .. } | Entry::Spill { .. } => None,
    }
}

/// Where an address stands among those with a breakpoint.
pub(crate) fn place_of(breakpoints: &[u32], address: u32) -> Option<usize>
    ensures { result ≡ position (λ b. b == address) breakpoints.now }
{
    breakpoints.iter().position(|b| *b == address)
}

/// Turns.
impl<const SETS: usize, const WAYS: usize> Session<SETS, WAYS> {
    /// Whether a hart runs.
    fn runs(&self) -> bool
        ensures { MatchBool result (IsIdle SETS self.now → ⊥) (IsIdle SETS self.now) }
    {
        self.machine.runs()
    }

    /// One turn. It fails only if memory runs out.
    fn turn(&mut self) -> Result<Option<Entry>, DebugFault>
        requires { IsIdle SETS self.old → ⊥ }
        ensures made { IfOk result (λ e. Turns (geometry SETS WAYS) self.old e self.new) }
        ensures runs { IfOk result (λ e. e ≡ None → IsIdle SETS self.new → ⊥) }
        ensures fault { IfErr result (λ fault. fault ≡ NoMemory) }
        ensures same { OnErr result (self.new ≡ self.old) }
    {
        match self.machine.turn_after(self.last) {
            Ok(Some(turn)) => {
                self.last = turn.last;
                Ok(turn.entry)
            }
            Ok(None) => unreachable!(),
            Err(_) => Err(DebugFault::NoMemory),
        }
    }

    /// Turns until the first entry.
    pub(crate) fn step(&mut self) -> Result<Report, DebugFault>
        ensures told { MatchResult result (λ report. Does (geometry SETS WAYS) self.old Step report self.new) (λ fault. Fails (geometry SETS WAYS) self.old Step fault self.new) }
        ensures stopped { IsIdle SETS self.old → result ≡ Err Stopped }
    {
        if !self.runs() {
            return Err(DebugFault::Stopped);
        }
        for _ in 0..PATIENCE {
            match self.turn()? {
                Some(entry) => return Ok(Report::Entry(entry)),
                None => {}
            }
        }
        Err(DebugFault::Limit)
    }

    /// Whether there is a breakpoint at an address.
    fn has_breakpoint(&self, place: u32) -> bool
        ensures { result ≡ has_breakpoint self.now.breakpoints place }
    {
        place_of(&self.breakpoints, place).is_some()
    }

    /// The hart that a turn's entry left at a breakpoint, and where it stands, unless no hart runs any more.
    fn broken_off(&self, entry: Option<Entry>) -> Option<(HartId, Addr)>
        ensures some { IfSome result (λ at. (break_at SETS self.now entry ≡ Some at) × (IsIdle SETS self.now → ⊥)) }
        ensures none { IfNone result (LetsOn SETS self.now entry) }
    {
        if !self.runs() {
            return None;
        }
        let hart = mover(&entry?)?;
        let (_, pc, _) = self.machine.regs(hart)?;
        if self.has_breakpoint(pc.value()) {
            Some((hart, pc))
        } else {
            None
        }
    }

    /// Turns until no hart runs, or one has come to a breakpoint, or so many.
    pub(crate) fn run(&mut self, turns: u32) -> Result<Report, DebugFault>
        ensures { MatchResult result (λ report. Does (geometry SETS WAYS) self.old (Run turns) report self.new) (λ fault. Fails (geometry SETS WAYS) self.old (Run turns) fault self.new) }
    {
        for _ in 0..turns {
            if !self.runs() {
                return Ok(Report::Stopped);
            }
            let entry = self.turn()?;
            match self.broken_off(entry) {
                Some((hart, pc)) => return Ok(Report::Broke(hart, pc)),
                None => {}
            }
        }
        if self.runs() {
            Err(DebugFault::Limit)
        } else {
            Ok(Report::Stopped)
        }
    }
}
