ghost use Rattle.std.specs.Prelude.{◌≡◌, ◌≢◌, ◌<◌, ◌/◌, ℕ, false, IfSome, IfNone, vec_len};
ghost use Rattle.flat.specs.State.{IsAllowed};
ghost use Rattle.reference.specs.States.{hart_of};
ghost use Rattle.reference.specs.Machines.{flat_of, stands_against, IsFirstAgainst, KeepsOut};

use crate::hart::Hart;
use crate::machine::Machine;
use table::Act;
use words::{BlockNo, HartId};

impl Hart {
    /// Whether its transaction stands against another hart's access to the block.
    fn stands_against(&self, block: usize, stores: bool) -> bool
        ensures { (size : ℕ) → result ≡ stands_against (hart_of size self.now).tx block stores }
    {
        self.has_written(block) || (stores && self.has_read(block))
    }
}

impl Machine {
    /// The lowest hart whose transaction stands against hart i's access to the block.
    fn first_against(&self, i: usize, block: usize, stores: bool) -> Option<HartId>
        ensures some { IfSome result (IsFirstAgainst (flat_of self.now) i block stores) }
        ensures none { IfNone result ((j : ℕ) → j < vec_len self.now.harts → j ≢ i → stands_against ((flat_of self.now).hart j).tx block stores ≡ false) }
    {
        for j in 0..self.harts.len() {
            if j != i && self.harts[j].stands_against(block, stores) {
                return Some(HartId::new(j as u8));
            }
        }
        None
    }

    /// The hart that keeps a block from hart i's act, and the block, if the act isn't allowed.
    pub(crate) fn kept_out_by(&self, i: usize, act: &Act) -> Option<(HartId, BlockNo)>
        ensures some { IfSome result (λ x. KeepsOut (flat_of self.now) i x.1 x.0 act.now) }
        ensures none { IfNone result (IsAllowed (flat_of self.now) i act.now) }
    {
        match act {
            Act::Memory(m) => {
                let block = m.addr.block();
                match self.first_against(i, block.index(), m.store.is_some()) {
                    Some(hart) => Some((hart, block)),
                    None => None,
                }
            }
            Act::Nothing
            | Act::Conditional(..)
            | Act::Begin(_)
            | Act::Commit
            | Act::Abort
            | Act::Call
            | Act::Break => None,
        }
    }
}
