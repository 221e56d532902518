ghost use Rattle.board.specs.Histories.{IsChosen};

use crate::journal::{Chosen, Journal};
use crate::trace::Untraced;
use machine::Machine;
use std::alloc::AllocError;
use words::HartId;

/// Keeps nothing, and tells of any steps that were choices.
#[derive(Clone, Copy, Debug, PartialEq, Eq)]
pub struct Unkept;

impl<const SETS: usize, const WAYS: usize> Journal<SETS, WAYS> for Unkept {
    type Trace = Untraced;

    ghost tells = { λ _ told. IsChosen told };

    fn make(
        &mut self,
        machine: &mut Machine<SETS, WAYS>,
        chosen: &Chosen,
    ) -> Result<(), AllocError> {
        machine.take_step(chosen.step, false)
    }

    fn note_lent(
        &mut self,
        _hart: HartId,
        _steps: usize,
        _trace: &Untraced,
    ) -> Result<(), AllocError> {
        Ok(())
    }
}
