ghost use Rattle.std.specs.Prelude.{◌≡◌, ◌≤◌, ◌<◌, ◌+◌, ◌*◌, ◌^◌, ◌⊎◌, ◌↔◌, ℕ, length, replicate, slice_index, slice_set, true, IsTrue, IsFalse, IfOk, IfErr, Some};
ghost use Rattle.words.specs.Limits.{most_harts};
ghost use Rattle.flat.specs.Boots.{boot_fault};
ghost use Rattle.flat.specs.declared.boot_fault.BootFault.TheVariants as fault;
ghost use Rattle.machine.specs.States.{geometry};
ghost use Rattle.board.specs.Histories.{no_step};
ghost use Rattle.board.specs.Boards.{IsFirst, IsRunning, Settles, Lends, LendsAgain};
ghost use Rattle.board.specs.Visits.{Visits};
ghost use Rattle.board.specs.Turns.{HasHad, HaveHad, IsDone, IsServedEnd};

use crate::board::{Board, Finished};
use crate::code::Code;
use crate::desk::Desk;
use crate::journal::{Journal, Replay};
use crate::lease::Lease;
use crate::refusal::Refusal;
use flat::BootFault;
use machine::Machine;
use std::alloc::{AllocError, Global};
use std::marker::Model;
use words::{HARTS, HartId};

/// How many turns each hart has had, and whether nothing else was made.
#[derive(Drop)]
struct Tally {
    turns: [u64; HARTS],
    whole: bool,
}

impl Tally {
    /// That of no turn.
    fn new() -> Self
        ensures turns { result.turns ≡ replicate most_harts 0 }
        ensures whole { result.whole ≡ true }
    {
        Tally {
            turns: [0; HARTS],
            whole: true,
        }
    }

    /// Counts what was made for a hart, if it was a turn and the number has room for it.
    fn count(&mut self, id: HartId, is_turn: bool)
        ensures counted { self.new.whole ≡ true → (self.old.whole ≡ true) × (is_turn ≡ true) × (self.new.turns ≡ slice_set self.old.turns id (slice_index self.old.turns id + 1)) }
        ensures whole { is_turn ≡ true → slice_index self.old.turns id + 1 < 2 ^ 64 → self.new.whole ≡ self.old.whole }
        ensures places { length self.new.turns ≡ most_harts }
    {
        let had = self.turns[id.index()];
        if is_turn && had < u64::MAX {
            self.turns[id.index()] = had + 1;
        } else {
            self.whole = false;
        }
    }
}

/// A board whose harts take turns, and how many each has had. On a turn a hart's lease is settled, and the hart is visited.
#[derive(Drop)]
pub struct Served<'p, const SETS: usize, const WAYS: usize, J: Journal<SETS, WAYS> = Replay> {
    board: Board<'p, SETS, WAYS, J>,
    tally: Tally,
}

impl<'p, const SETS: usize, const WAYS: usize, J: Journal<SETS, WAYS>> Model
    for Served<'p, SETS, WAYS, J> {
    ghost use Rattle.board.specs.Turns.{Counted};

    ghost Value = { Counted J };

    ghost view = { λ s. record { board = s.board; turns = s.tally.turns; whole = s.tally.whole } };

    ghost use Rattle.std.specs.Prelude.{◌≡◌, ◌<◌, ◌*◌, ◌^◌, length, true};
    ghost use Rattle.words.specs.Limits.{most_harts};
    ghost use Rattle.machine.specs.States.{geometry};
    ghost use Rattle.board.specs.Turns.{IsServed};

    ghost invariant = { λ s. (s.tally.whole ≡ true → IsServed (geometry SETS WAYS) J.tells s.board s.tally.turns) × (length s.tally.turns ≡ most_harts)
        × (SETS * WAYS < 2 ^ 32) };
}

impl<'p, const SETS: usize, const WAYS: usize, J: Journal<SETS, WAYS>> Served<'p, SETS, WAYS, J> {
    /// The board that a program begins with, with a journal that tells of no step yet. No hart has had a turn.
    pub fn boot(
        alloc: Global,
        code: Code<'p>,
        harts: u32,
        size: u32,
        journal: J,
    ) -> Result<Self, BootFault>
        requires sets { 0 < SETS }
        requires ways { 0 < WAYS }
        requires lines { SETS * WAYS < 2 ^ 32 }
        requires told { J.tells journal no_step }
        ensures ok { IfOk result (λ s. IsFirst (geometry SETS WAYS) code.entry.program.now harts size journal s.board) }
        ensures whole { IfOk result (λ s. s.whole ≡ true) }
        ensures turns { IfOk result (λ s. s.turns ≡ replicate most_harts 0) }
        ensures err { IfErr result (λ e. (e ≡ fault.NoMemory) ⊎ (boot_fault code.entry.program.now.segments harts size ≡ Some e)) }
    {
        let board = Board::boot_with(alloc, code, harts, size, journal)?;
        Ok(Served {
            board,
            tally: Tally::new(),
        })
    }

    /// The machine as it is.
    pub fn machine(&self) -> &Machine<SETS, WAYS>
        ensures { result.now ≡ self.now.board.machine }
    {
        self.board.machine()
    }

    /// Whether nothing but whole turns was made, just so many of each hart that still runs, and of no hart more.
    pub fn is_done(&self, turns: u64) -> bool
        ensures { IsTrue result ↔ IsDone turns self.now }
    {
        self.tally.whole && self.have_had(turns)
    }

    /// Whether each hart that runs has had just so many turns, and no hart more.
    fn have_had(&self, turns: u64) -> bool
        ensures { IsTrue result ↔ HaveHad turns self.now }
    {
        for number in 0..HARTS {
            if !self.has_had(HartId::new(number as u8), turns) {
                return false;
            }
        }
        true
    }

    /// Whether a hart has had just so many turns, or fewer, if it doesn't run.
    fn has_had(&self, id: HartId, turns: u64) -> bool
        ensures { IsTrue result ↔ HasHad turns self.now id }
    {
        let had = self.tally.turns[id.index()];
        if self.board.is_running(id) {
            had == turns
        } else {
            had <= turns
        }
    }

    /// The board's parts. If all is done, whole turns have led to its machine, so many of each hart that still runs.
    pub fn finish(self) -> Finished<'p, SETS, WAYS, J>
        ensures program { result.program.now ≡ self.entry.board.program }
        ensures harts { result.harts ≡ self.entry.board.harts }
        ensures size { result.size ≡ self.entry.board.size }
        ensures machine { result.machine ≡ self.entry.board.machine }
        ensures journal { result.journal ≡ self.entry.board.journal }
        ensures end { (most : ℕ) → IsDone most self.entry → IsServedEnd (geometry SETS WAYS) result.program.now result.harts result.size (J.tells result.journal) most result.machine }
    {
        self.board.finish()
    }
}

/// What is done apart from a turn's end is no turn.
impl<'p, const SETS: usize, const WAYS: usize, J: Journal<SETS, WAYS>> Desk
    for Served<'p, SETS, WAYS, J> {
    type Lease = Lease<'p, SETS, WAYS, J::Trace>;

    ghost settles = { λ s l r t. Settles (geometry SETS WAYS) J.tells J.Trace.traces s.board l r t.board };

    ghost visits = { λ id s r t. Visits (geometry SETS WAYS) J.tells id s.board r t.board };

    ghost lends = { λ id s. Lends J.Trace.traces id s.board };

    ghost lends_again = { λ id s. LendsAgain J.Trace.traces id s.board };

    fn lend(&self, id: HartId) -> Option<Lease<'p, SETS, WAYS, J::Trace>> {
        self.board.lend(id)
    }

    fn lend_again(&self, id: HartId, lease: &mut Lease<'p, SETS, WAYS, J::Trace>) -> bool {
        self.board.lend_again(id, lease)
    }

    fn settle(&mut self, lease: &Lease<'p, SETS, WAYS, J::Trace>) -> Result<(), Refusal> {
        self.tally.whole = false;
        Desk::settle(&mut self.board, lease)
    }

    fn visit(&mut self, id: HartId) -> Result<bool, AllocError> {
        self.tally.whole = false;
        Desk::visit(&mut self.board, id)
    }

    fn finish_turn(
        &mut self,
        id: HartId,
        lease: &mut Lease<'p, SETS, WAYS, J::Trace>,
        is_last: bool,
    ) -> Result<bool, AllocError> {
        let is_own = lease.hart().index() == id.index();
        let ended = self.board.finish_turn(id, lease, is_last);
        self.tally.count(id, is_own & ended.is_ok());
        ended
    }
}
