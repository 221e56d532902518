ghost use Rattle.std.specs.Prelude.{◌≡◌, ◌/◌, ℕ, true, IfSome, cond, nat_lt, None};
ghost use Rattle.flat.specs.State.{Flat, has_written};
ghost use Rattle.flat.specs.Reads.{is_readable, word_if, word_seen, IsInPlace};
ghost use Rattle.protocol.specs.Network.{LiesBelow};
ghost use Rattle.protocol.specs.Hart.{log_of};
ghost use Rattle.protocol.specs.Values.{in_place, committed, is_logged, raw, peek, view};
ghost use Rattle.isolation.specs.Belongs.{Belongs, IsAborting};
ghost use Rattle.machine.specs.Reads.{view_if};

use crate::machine::Machine;
use crate::values::{in_place, restored, word_in};
use words::{Addr, Block, BlockNo, HartId, LOG_BYTES};

/// What memory holds. The keys in the clauses are any number below which the numbers of all messages in flight lie.
impl<const SETS: usize, const WAYS: usize> Machine<SETS, WAYS> {
    ghost use Rattle.machine.specs.States.{shown, geometry};

    /// Whether a word lies at an address: at a multiple of 4, below the undo logs.
    pub fn is_readable(&self, addr: Addr) -> bool
        ensures { result ≡ is_readable (shown SETS self.now).setting addr }
    {
        let address = addr.index();
        let logs_from = self.size().saturating_sub(LOG_BYTES * self.harts());
        address % 4 == 0 && address + 4 <= logs_from
    }

    /// The words of a block in place.
    fn in_place(&self, block: BlockNo) -> Block
        ensures { (keys : ℕ) → LiesBelow keys (shown SETS self.now).net → result ≡ in_place keys (shown SETS self.now) block }
    {
        in_place(&self.seats, &self.directory, &self.net, block)
    }

    /// Whether a hart's undo log has a record of the block.
    fn is_logged(&self, id: HartId, block: BlockNo) -> bool
        ensures { result ≡ is_logged (log_of ((shown SETS self.now).harts id).tx) block }
    {
        match self.seats.get(id.index()) {
            Some(seat) => seat.hart.is_logged(block),
            None => false,
        }
    }

    /// The words of a block with all running transactions rolled back.
    fn committed(&self, block: BlockNo) -> Block
        ensures { (keys : ℕ) → LiesBelow keys (shown SETS self.now).net → result ≡ committed keys (shown SETS self.now) block }
    {
        restored(&self.seats, block, self.in_place(block))
    }

    /// The word in place at an address: what the hart that is writing its block has put there, else memory's. `None` where the address
    /// isn't a multiple of 4 below the undo logs.
    pub fn raw(&self, addr: Addr) -> Option<u32>
        ensures value { (keys : ℕ) → LiesBelow keys (shown SETS self.now).net →
            result ≡ word_if (shown SETS self.now).setting (raw keys (shown SETS self.now)) addr }
        ensures flat { (f : Flat) → Belongs (geometry SETS WAYS) f (shown SETS self.now) →
            ((i : ℕ) → has_written (f.hart i).tx (addr / 32) ≡ true → IsAborting ((shown SETS self.now).harts i) → ⊥) →
            IfSome result (IsInPlace f addr) }
    {
        if self.is_readable(addr) {
            Some(word_in(&self.in_place(addr.block()), addr))
        } else {
            None
        }
    }

    /// The word of memory at an address: what all commits so far have left there, with all logs undone. `None` where `raw` is.
    pub fn peek(&self, addr: Addr) -> Option<u32>
        ensures value { (keys : ℕ) → LiesBelow keys (shown SETS self.now).net →
            result ≡ word_if (shown SETS self.now).setting (peek keys (shown SETS self.now)) addr }
        ensures flat { (f : Flat) → Belongs (geometry SETS WAYS) f (shown SETS self.now) → result ≡ word_if f.setting f.mem addr }
    {
        if self.is_readable(addr) {
            Some(word_in(&self.committed(addr.block()), addr))
        } else {
            None
        }
    }

    /// The word at an address as a hart sees it: `raw` where its log has the block, else `peek`. `None` where they are, and where there is
    /// no such hart.
    pub fn view(&self, id: HartId, addr: Addr) -> Option<u32>
        ensures value { (keys : ℕ) → LiesBelow keys (shown SETS self.now).net → result ≡ view_if keys (shown SETS self.now) id addr }
        ensures flat { (f : Flat) → Belongs (geometry SETS WAYS) f (shown SETS self.now) →
            (IsAborting ((shown SETS self.now).harts id) → ⊥) → result ≡ word_seen f id addr }
    {
        if id.index() >= self.harts() {
            None
        } else if self.is_logged(id, addr.block()) {
            self.raw(addr)
        } else {
            self.peek(addr)
        }
    }
}
