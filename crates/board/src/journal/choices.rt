ghost use Rattle.std.specs.Prelude.{◌≡◌, Some};

use crate::journal::{Chosen, Journal};
use crate::trace::Untraced;
use machine::Machine;
use schedule::{Choice, History};
use std::alloc::AllocError;
use words::HartId;

impl<const SETS: usize, const WAYS: usize> Journal<SETS, WAYS> for History {
    type Trace = Untraced;

    ghost tells = { λ h told. told.choices ≡ Some h.choices };

    fn make(
        &mut self,
        machine: &mut Machine<SETS, WAYS>,
        chosen: &Chosen,
    ) -> Result<(), AllocError> {
        self.make_room()?;
        machine.take_step(chosen.step, false)?;
        self.note(chosen.choice, 1);
        Ok(())
    }

    fn note_lent(
        &mut self,
        hart: HartId,
        steps: usize,
        _trace: &Untraced,
    ) -> Result<(), AllocError> {
        self.make_room()?;
        self.note(Choice::Core(hart), steps);
        Ok(())
    }
}
