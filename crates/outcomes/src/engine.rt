//! A state of a search, read as a machine is.
ghost use Rattle.std.specs.Prelude.{◌≡◌, ◌<◌};
ghost use Rattle.std.proofs.Common.{ap};
ghost use Rattle.flat.specs.Reads.{is_readable};
ghost use Rattle.outcomes.specs.Standings.{setting_of, Belongs};

use crate::standing::Standing;
use flat::Engine;
use words::{Addr, HartId, Regs, Status};

impl Engine for Standing<'_> {
    ghost setting = { λ s. setting_of s.scene };

    ghost belongs = { Belongs };

    fn harts(&self) -> usize {
        self.scene.count
    }

    fn peek(&self, addr: Addr) -> Option<u32> {
        let address = addr.index();
        if self.is_readable(address) {
            Some(self.memory.word(self.scene.image, address))
        } else {
            None
        }
    }

    fn regs(&self, id: HartId) -> Option<(Regs, Addr, Status)> {
        let i = id.index();
        if i >= self.scene.count {
            return None;
        }
        let hart = self.hart(i);
        Some((hart.regs, Addr::new(hart.pc), hart.status))
    }

    fn output(&self, id: HartId) -> &[u8] {
        &self.hart(id.index()).output
    }

    ghost same_setting = { λ f s e. ap (λ g. g.setting) e };
}

impl Standing<'_> {
    /// Whether a word can be read at an address: at a multiple of 4, below the undo logs.
    fn is_readable(&self, address: usize) -> bool
        requires { address < 4294967296 }
        ensures { result ≡ is_readable (setting_of self.now.scene) address }
    {
        address % 4 == 0 && address + 4 <= self.scene.logs_from()
    }
}
