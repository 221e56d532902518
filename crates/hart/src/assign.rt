ghost use Rattle.std.specs.Prelude.{◌≡◌};

use crate::hart::Hart;

/// How a hart becomes a copy of another.
impl<const SETS: usize, const WAYS: usize> Hart<SETS, WAYS> {
    /// Becomes a copy of another hart. Of the undo log it copies only what either was ever written, and of the cache only sets in which
    /// either has a line.
    pub fn assign(&mut self, other: &Self)
        ensures { self.new ≡ other.now }
    {
        self.index = other.index;
        self.harts = other.harts;
        self.size = other.size;
        self.logs_from = other.logs_from;
        self.pc = other.pc;
        self.status = other.status;
        self.fresh = other.fresh;
        self.reserved = other.reserved;
        self.request = other.request;
        self.put = other.put;
        self.regs = other.regs;
        self.tx.assign(&other.tx);
        self.cache.assign(&other.cache);
    }
}
