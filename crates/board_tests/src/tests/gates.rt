//! What workers do with their leases.

use board::{Gate, Lease, Trace};
use std::sync::atomic::{AtomicU64, Ordering};
use words::HartId;

/// Runs each lease by so many steps at most.
#[derive(Drop)]
pub(crate) struct Runs {
    pub most: usize,
}

impl<'p, const SETS: usize, const WAYS: usize, T: Trace<SETS, WAYS>> Gate<Lease<'p, SETS, WAYS, T>>
    for Runs {
    fn lent(&self, _hart: HartId, _turn: u64, lease: &mut Lease<'p, SETS, WAYS, T>) -> bool {
        lease.run(self.most);
        true
    }

    fn settled(&self, _hart: HartId, _turn: u64) {}
}

/// How often a worker looks whether the other one has come.
const LOOKS: u64 = 50_000_000;

/// Where two workers meet: each has its lease out until the other has one, too.
#[derive(Drop)]
pub(crate) struct Meeting {
    first: AtomicU64,
    second: AtomicU64,
}

impl Meeting {
    pub(crate) fn new() -> Self {
        Meeting {
            first: AtomicU64::new(0),
            second: AtomicU64::new(0),
        }
    }

    /// A hart's own flag.
    fn own(&self, hart: HartId) -> &AtomicU64 {
        if hart.index() == 0 {
            &self.first
        } else {
            &self.second
        }
    }

    /// Whether the other hart's flag is seen.
    fn meets(&self, hart: HartId) -> bool {
        let other = if hart.index() == 0 {
            &self.second
        } else {
            &self.first
        };
        for _ in 0..LOOKS {
            if other.load(Ordering::SeqCst) != 0 {
                return true;
            }
        }
        false
    }
}

impl<'p, const SETS: usize, const WAYS: usize> Gate<Lease<'p, SETS, WAYS>> for Meeting {
    fn lent(&self, hart: HartId, turn: u64, lease: &mut Lease<'p, SETS, WAYS>) -> bool {
        if !lease.is_empty() {
            return false;
        }
        if turn == 0 {
            self.own(hart).store(1, Ordering::SeqCst);
            if !self.meets(hart) {
                return false;
            }
        }
        lease.run(64);
        true
    }

    fn settled(&self, _hart: HartId, _turn: u64) {}
}
