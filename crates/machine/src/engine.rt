ghost use Rattle.isolation.specs.Belongs.{Belongs};
ghost use Rattle.machine.specs.States.{setting_of, shown, geometry};
ghost use Rattle.isolation.proofs.Belongs.Belonging.{inv_of};

use crate::machine::Machine;
use flat::Engine;
use words::{Addr, HartId, Regs, Status};

/// The flat states that belong to the machine are those that the entries of its steps lead to.
impl<const SETS: usize, const WAYS: usize> Engine for Machine<SETS, WAYS> {
    ghost setting = { λ m. setting_of m };

    ghost belongs = { λ f m. Belongs (geometry SETS WAYS) f (shown SETS m) };

    fn harts(&self) -> usize {
        Machine::harts(self)
    }

    fn peek(&self, addr: Addr) -> Option<u32> {
        Machine::peek(self, addr)
    }

    fn regs(&self, id: HartId) -> Option<(Regs, Addr, Status)> {
        Machine::regs(self, id)
    }

    fn output(&self, id: HartId) -> &[u8] {
        Machine::output(self, id)
    }

    ghost same_setting = { λ f m b. (inv_of (geometry SETS WAYS) f (shown SETS m) b).1.same };
}
