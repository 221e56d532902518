ghost use Rattle.std.specs.Prelude.{◌≡◌, ℕ, ◌≤◌, ◌<◌, ◌/◌, Err, true, false, MatchResult};
ghost use Rattle.flat.specs.Reads.{is_readable};
ghost use Rattle.machine.specs.States.{geometry, setting_of};
ghost use Rattle.schedule.specs.declared.choices.Sort.{Sort as SortValue};
ghost use Rattle.debugger.specs.declared.commands.command.Command.TheVariants.{Break, Core, Evict, Deliver};
ghost use Rattle.debugger.specs.declared.commands.fault.DebugFault.{DebugFault as Fault};
ghost use Rattle.debugger.specs.declared.commands.fault.DebugFault.TheVariants.{NoMemory};
ghost use Rattle.debugger.specs.Sessions.{Chooses, LacksRoom, Does, Fails, IsDeedRefused};

use crate::commands::{DebugFault, hart_of, text_at, word_at};
use crate::report::Report;
use crate::session::Session;
use crate::turns::place_of;
use machine::hart_after;
use schedule::{Choice, Name, Sort};

/// Steps by hand, and breakpoints.
impl<const SETS: usize, const WAYS: usize> Session<SETS, WAYS> {
    /// Makes the step that is chosen, if it is enabled. It fails only if memory runs out for such a step.
    fn choose(&mut self, choice: Choice) -> Result<Report, DebugFault>
        ensures { MatchResult result (λ report. Chooses (geometry SETS WAYS) self.old choice report self.new) (λ fault. (fault ≡ NoMemory) × LacksRoom (geometry SETS WAYS) self.old choice self.new) }
    {
        let Some(step) = choice.step(&self.machine, self.last) else {
            return Ok(Report::Nothing);
        };
        if !self.machine.is_enabled(step) {
            return Ok(Report::Nothing);
        }
        let number = self.machine.sent();
        let Ok(entry) = self.machine.step(step) else {
            return Err(DebugFault::NoMemory);
        };
        self.last = hart_after(&step, self.last);
        match entry {
            Some(entry) => return Ok(Report::Entry(entry)),
            None => {}
        }
        Ok(Report::Made(number))
    }

    /// One step of a hart's core.
    pub(crate) fn core(&mut self, hart: u32) -> Result<Report, DebugFault>
        ensures told { MatchResult result (λ report. Does (geometry SETS WAYS) self.old (Core hart) report self.new) (λ fault. Fails (geometry SETS WAYS) self.old (Core hart) fault self.new) }
        ensures refused { (fault : Fault) → IsDeedRefused SETS self.old (Core hart) fault → result ≡ Err fault }
    {
        let hart = hart_of(&self.machine, hart)?;
        self.choose(Choice::Core(hart))
    }

    /// A hart gives up its line of the block of an address.
    pub(crate) fn evict(&mut self, hart: u32, address: u32) -> Result<Report, DebugFault>
        ensures told { MatchResult result (λ report. Does (geometry SETS WAYS) self.old (Evict hart address) report self.new) (λ fault. Fails (geometry SETS WAYS) self.old (Evict hart address) fault self.new) }
        ensures refused { (fault : Fault) → IsDeedRefused SETS self.old (Evict hart address) fault → result ≡ Err fault }
    {
        let hart = hart_of(&self.machine, hart)?;
        let addr = word_at(&self.machine, address)?;
        self.choose(Choice::Evict(hart, addr.block()))
    }

    /// A message arrives: that of a sort, from a hart, or to it from the directory, about the block of an address.
    pub(crate) fn deliver(
        &mut self,
        sort: Sort,
        hart: u32,
        address: u32,
    ) -> Result<Report, DebugFault>
        ensures told { MatchResult result (λ report. Does (geometry SETS WAYS) self.old (Deliver sort hart address) report self.new) (λ fault. Fails (geometry SETS WAYS) self.old (Deliver sort hart address) fault self.new) }
        ensures refused { (fault : Fault) → IsDeedRefused SETS self.old (Deliver sort hart address) fault → result ≡ Err fault }
    {
        let hart = hart_of(&self.machine, hart)?;
        let addr = word_at(&self.machine, address)?;
        self.choose(Choice::Deliver(Name {
            sort,
            hart,
            block: addr.block(),
        }))
    }

    /// Clears the breakpoint at an address, or sets one.
    pub(crate) fn toggle(&mut self, address: u32) -> Result<Report, DebugFault>
        ensures told { MatchResult result (λ report. Does (geometry SETS WAYS) self.old (Break address) report self.new) (λ fault. Fails (geometry SETS WAYS) self.old (Break address) fault self.new) }
        ensures refused { (fault : Fault) → IsDeedRefused SETS self.old (Break address) fault → result ≡ Err fault }
    {
        let place = text_at(&self.machine, address)?;
        if let Some(index) = place_of(&self.breakpoints, address) {
            self.breakpoints.remove(index);
            return Ok(Report::Cleared(place));
        }
        if self.breakpoints.is_full() {
            return Err(DebugFault::Limit);
        }
        self.breakpoints.push(address);
        Ok(Report::Set(place))
    }
}
