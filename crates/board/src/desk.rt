ghost use Rattle.std.specs.Prelude.{ℕ, Bool, Option, Result, box_value};
ghost use Rattle.std.specs.declared.alloc.AllocError.{AllocError as AllocErrorValue};
ghost use Rattle.machine.specs.States.{geometry};
ghost use Rattle.board.specs.declared.refusal.Refusal.{Refusal as RefusalValue};
ghost use Rattle.board.specs.Boards.{Settles, Lends, LendsAgain};
ghost use Rattle.board.specs.Visits.{Visits};
ghost use Rattle.board.specs.Ends.{IsTurnsEnd};

use crate::board::Board;
use crate::journal::Journal;
use crate::lease::Lease;
use crate::refusal::Refusal;
use std::alloc::AllocError;
use words::HartId;

/// What a worker does with a lease. Neither is called while a lock is held.
pub trait Gate<L> {
    /// The hart was lent, on a turn with this number: the lease is run here. The answer `false` ends the worker.
    fn lent(&self, hart: HartId, turn: u64, lease: &mut L) -> bool;

    /// The lease was settled, the hart visited, and lent again if it has a turn more.
    fn settled(&self, hart: HartId, turn: u64);
}

/// What a worker knows of a board.
pub trait Desk {
    type Lease: Drop;

    /// What comes of settling this lease, or of refusing it.
    ghost settles: { Self → Self.Lease → Result Unit RefusalValue → Self → Type 0 };

    /// What comes of a visit to this hart.
    ghost visits: { ℕ → Self → Result Bool AllocErrorValue → Self → Type 0 };

    /// What comes of lending this hart.
    ghost lends: { ℕ → Self → Option Self.Lease → Type 0 };

    /// What comes of lending it in place of a lease.
    ghost lends_again: { ℕ → Self → Self.Lease → Bool → Self.Lease → Type 0 };

    /// Lends a hart, if it runs.
    fn lend(&self, id: HartId) -> Option<Self::Lease>
        ensures { lends id self.now result };

    /// Lends a hart in place of a lease that isn't needed any more, and answers whether the hart runs.
    fn lend_again(&self, id: HartId, lease: &mut Self::Lease) -> bool
        ensures { lends_again id self.now lease.old result lease.new };

    fn settle(&mut self, lease: &Self::Lease) -> Result<(), Refusal>
        ensures { settles self.old lease.now result self.new };

    fn visit(&mut self, id: HartId) -> Result<bool, AllocError>
        ensures { visits id self.old result self.new };

    /// The end of a turn: the lease is settled, or let go if it is stale; the hart is visited; and it is lent again for the next turn, if there is one
    /// and it runs. The answer is whether it runs.
    fn finish_turn(
        &mut self,
        id: HartId,
        lease: &mut Self::Lease,
        is_last: bool,
    ) -> Result<bool, AllocError>
        ensures { IsTurnsEnd settles (visits id) (lends_again id) is_last self.old lease.old result self.new lease.new }
    {
        if let Err(Refusal::NoMemory) = self.settle(lease) {
            return Err(AllocError);
        }
        let runs = self.visit(id)?;
        Ok(runs && (is_last || self.lend_again(id, lease)))
    }
}

impl<'p, const SETS: usize, const WAYS: usize, J: Journal<SETS, WAYS>> Desk
    for Board<'p, SETS, WAYS, J> {
    type Lease = Lease<'p, SETS, WAYS, J::Trace>;

    ghost settles = { Settles (geometry SETS WAYS) J.tells J.Trace.traces };

    ghost visits = { Visits (geometry SETS WAYS) J.tells };

    ghost lends = { Lends J.Trace.traces };

    ghost lends_again = { LendsAgain J.Trace.traces };

    fn lend(&self, id: HartId) -> Option<Lease<'p, SETS, WAYS, J::Trace>> {
        Board::lend(self, id)
    }

    fn lend_again(&self, id: HartId, lease: &mut Lease<'p, SETS, WAYS, J::Trace>) -> bool {
        Board::lend_again(self, id, lease)
    }

    fn settle(&mut self, lease: &Lease<'p, SETS, WAYS, J::Trace>) -> Result<(), Refusal> {
        Board::settle(self, lease)
    }

    fn visit(&mut self, id: HartId) -> Result<bool, AllocError> {
        Board::visit(self, id)
    }
}

/// A desk that stands apart from the lock that holds it: those who look for the lock don't slow down the one who has it. Where the desk is, is written
/// beside the lock, so a turn's end looks there once.
impl<D: Desk> Desk for Box<D> {
    type Lease = D::Lease;

    ghost settles = { λ b l r c. D.settles (box_value b) l r (box_value c) };

    ghost visits = { λ id b r c. D.visits id (box_value b) r (box_value c) };

    ghost lends = { λ id b. D.lends id (box_value b) };

    ghost lends_again = { λ id b. D.lends_again id (box_value b) };

    fn lend(&self, id: HartId) -> Option<D::Lease> {
        D::lend(&**self, id)
    }

    fn lend_again(&self, id: HartId, lease: &mut D::Lease) -> bool {
        D::lend_again(&**self, id, lease)
    }

    fn settle(&mut self, lease: &D::Lease) -> Result<(), Refusal> {
        D::settle(&mut **self, lease)
    }

    fn visit(&mut self, id: HartId) -> Result<bool, AllocError> {
        D::visit(&mut **self, id)
    }

    fn finish_turn(
        &mut self,
        id: HartId,
        lease: &mut D::Lease,
        is_last: bool,
    ) -> Result<bool, AllocError> {
        D::finish_turn(&mut **self, id, lease, is_last)
    }
}
