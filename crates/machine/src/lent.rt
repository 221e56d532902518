ghost use Rattle.std.specs.Prelude.{◌≡◌, ℕ, List, Some, length, replicate};
ghost use Rattle.std.specs.Option.{option_map};
ghost use Rattle.words.specs.declared.entry.Entry.{Entry};
ghost use Rattle.words.specs.declared.entry.Step.TheVariants.{Core};
ghost use Rattle.hart.specs.Parts.{Parts};
ghost use Rattle.protocol.specs.Machine.{Runs};
ghost use Rattle.isolation.specs.Reasons.{LeadOn};
ghost use Rattle.machine.specs.Lent.{hart_if, with_hart, RunsAlone, ComesBack};

use crate::machine::Machine;
use hart::Hart;
use words::HartId;

/// Harts that are lent out, as to a thread, and come back.
impl<const SETS: usize, const WAYS: usize> Machine<SETS, WAYS> {
    ghost use Rattle.machine.specs.States.{shown, geometry, IsSound};

    /// What a machine keeps in all that is done with it, such as that each hart sits at its place. It does nothing.
    pub fn keeps(&self)
        ensures { IsSound SETS WAYS self.now }
    {
        let _seats = &self.seats;
    }

    /// A hart. `None` where there is no such hart.
    pub fn hart(&self, id: HartId) -> Option<&Hart<SETS, WAYS>>
        ensures { option_map (λ hart. hart.now) result ≡ hart_if self.now id }
    {
        let seat = self.seats.get(id.index())?;
        Some(&seat.hart)
    }

    /// Puts a hart in its place, that has retired so many words by itself since it was copied.
    pub fn adopt(&mut self, id: HartId, hart: &Hart<SETS, WAYS>, retired: usize)
        requires { ComesBack SETS self.old id retired hart.now }
        ensures hart { self.new ≡ with_hart self.old id hart.now }
        // The words are as many steps of its core, with their entries, and these carry each flat state that belongs on to one that belongs, with their reasons.
        ensures runs { (old : Parts) (es : List Entry) → hart_if self.old id ≡ Some old → RunsAlone SETS self.old.program.segments old es hart.now →
            Runs (geometry SETS WAYS) (shown SETS self.old) (replicate (length es) (Core id)) es (shown SETS self.new) }
        ensures leads { (old : Parts) (es : List Entry) → hart_if self.old id ≡ Some old → RunsAlone SETS self.old.program.segments old es hart.now →
            LeadOn (geometry SETS WAYS) (shown SETS self.old) es (shown SETS self.new) }
    {
        let _retired = retired;
        let i = id.index();
        self.seats[i].put_hart(hart);
    }
}
