ghost use Rattle.std.specs.Prelude.{◌≡◌, ◌<◌, ◌≤◌, ◌+◌, ◌/◌, ℕ, vec_len, cond, nat_lt, Some, None, true, IfSome, IfNone, length, is_some};
ghost use Rattle.words.specs.declared.entry.Width.TheVariants.{Word};
ghost use Rattle.words.specs.Bytes.{number_at};
ghost use Rattle.flat.specs.State.{Flat, has_written};
ghost use Rattle.flat.specs.Steps.{IsRunning};
ghost use Rattle.std.proofs.Common.{ap};
ghost use Rattle.reference.specs.Machines.{setting_of, flat_of, Belongs};
ghost use Rattle.flat.specs.Reads.{is_readable, word_seen, NoneWrote, IsInPlace, NoneRuns, IsNextTurn};

use crate::machine::Machine;
use flat::Engine;
use loader::word_at;
use words::{Addr, HartId, Regs, Status, Step, Width};

impl Engine for Machine {
    ghost setting = { setting_of };

    ghost belongs = { Belongs };

    fn harts(&self) -> usize {
        self.harts.len()
    }

    fn peek(&self, addr: Addr) -> Option<u32> {
        let address = addr.index();
        if self.is_readable(address) {
            Some(word_at(&self.memory, address))
        } else {
            None
        }
    }

    fn regs(&self, id: HartId) -> Option<(Regs, Addr, Status)> {
        match self.harts.get(id.index()) {
            Some(hart) => Some((hart.regs, hart.pc, hart.status)),
            None => None,
        }
    }

    fn output(&self, id: HartId) -> &[u8] {
        &self.harts[id.index()].output
    }

    ghost same_setting = { λ f m e. ap (λ g. g.setting) e };
}

impl Machine {
    /// How many bytes memory has.
    pub fn size(&self) -> usize
        ensures { (f : Flat) → Belongs f self.now → result ≡ f.setting.size }
    {
        self.memory.len()
    }

    fn is_readable(&self, address: usize) -> bool
        requires { address < 4294967296 }
        ensures { result ≡ is_readable (setting_of self.now) address }
    {
        address % 4 == 0 && address + 4 <= self.logs_from()
    }

    /// The word at an address as a hart sees it. None where `peek` is, and where there is no such hart.
    pub fn view(&self, id: HartId, addr: Addr) -> Option<u32>
        ensures { (f : Flat) → Belongs f self.now → result ≡ word_seen f id addr }
    {
        let address = addr.index();
        match self.harts.get(id.index()) {
            Some(hart) if self.is_readable(address) => {
                Some(hart.number(&self.memory, address, Width::Word))
            }
            _ => None,
        }
    }

    /// The lowest hart that has written the block in its running transaction.
    fn writer(&self, block: usize) -> Option<usize>
        ensures some { IfSome result (λ i. (i < vec_len self.now.harts) × (has_written ((flat_of self.now).hart i).tx block ≡ true) × NoneWrote (flat_of self.now) block i) }
        ensures none { IfNone result (NoneWrote (flat_of self.now) block (vec_len self.now.harts)) }
    {
        for i in 0..self.harts.len() {
            if self.harts[i].has_written(block) {
                return Some(i);
            }
        }
        None
    }

    /// The word that stands in place: what the hart that is writing its block has put there, else memory's. None where
    /// `peek` is.
    pub fn raw(&self, addr: Addr) -> Option<u32>
        ensures variant { is_some result ≡ is_readable (setting_of self.now) addr }
        ensures value { IfSome result (IsInPlace (flat_of self.now) addr) }
    {
        let address = addr.index();
        if !self.is_readable(address) {
            return None;
        }
        match self.writer(addr.block().index()) {
            Some(i) => Some(self.harts[i].number(&self.memory, address, Width::Word)),
            None => Some(word_at(&self.memory, address)),
        }
    }

    /// The lowest running hart from one number up to another.
    fn lowest_running(&self, from: usize, to: usize) -> Option<HartId>
        requires { to ≤ vec_len self.now.harts }
        ensures some { IfSome result (λ i. (from ≤ i) × (i < to) × IsRunning (flat_of self.now) i × NoneRuns (flat_of self.now) from i) }
        ensures none { IfNone result (NoneRuns (flat_of self.now) from to) }
    {
        for i in from..to {
            if self.harts[i].status == Status::Running {
                return Some(HartId::new(i as u8));
            }
        }
        None
    }

    /// The turn after a hart's: `Core` of the next running hart, in the order of their numbers and round. None where no
    /// hart runs.
    pub fn next_turn(&self, after: HartId) -> Option<Step>
        ensures { IsNextTurn (flat_of self.now) after result }
    {
        let count = self.harts.len();
        match self.lowest_running(after.index() + 1, count) {
            Some(next) => Some(Step::Core(next)),
            None => match self.lowest_running(0, count) {
                Some(next) => Some(Step::Core(next)),
                None => None,
            },
        }
    }
}
