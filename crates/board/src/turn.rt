ghost use Rattle.std.specs.Prelude.{◌≡◌, None, IfOk, OnErr};
ghost use Rattle.flat.specs.State.{Flat};
ghost use Rattle.flat.specs.Steps.{IsRun};
ghost use Rattle.isolation.specs.Belongs.{Belongs};
ghost use Rattle.isolation.specs.Reasons.{HaveReasons};
ghost use Rattle.machine.specs.States.{geometry, shown};
ghost use Rattle.board.specs.Histories.{first_flat, IsOf, IsReplay};
ghost use Rattle.board.specs.Boards.{IsTurn, IsAsBefore};

use crate::board::Board;
use crate::journal::Replay;
use std::alloc::{AllocError, Allocator};
use words::{Entry, Step};

impl<'p, const SETS: usize, const WAYS: usize, A: Allocator> Board<'p, SETS, WAYS, Replay<A>> {
    /// The steps that were made since the boot.
    pub fn history(&self) -> &[Step]
        ensures { result.now ≡ self.now.journal.history.items }
    {
        &self.journal.history
    }

    /// Their entries.
    pub fn entries(&self) -> &[Entry]
        ensures { result.now ≡ self.now.journal.entries.items }
    {
        &self.journal.entries
    }

    /// One step, enabled or not.
    pub fn turn(&mut self, step: Step) -> Result<Option<Entry>, AllocError>
        ensures ok { IfOk result (λ e. IsTurn (geometry SETS WAYS) (λ r. IsOf r.history.items r.entries.items) self.old step None e self.new) }
        ensures err { OnErr result (IsAsBefore (λ r. IsOf r.history.items r.entries.items) self.old self.new) }
    {
        self.journal.step(&mut self.machine, step)
    }

    /// Of its steps, in order, the machine can be made again, with these entries, which are a run of the flat machine from where the program begins, each with
    /// its reason; and the state that this leads to belongs to the machine.
    pub fn replays(&self)
        ensures replay { IsReplay (geometry SETS WAYS) self.now.program self.now.harts self.now.size self.now.journal.history.items self.now.machine self.now.journal.entries.items }
        ensures flat { (f : Flat) × IsRun (first_flat self.now.program self.now.harts self.now.size) self.now.journal.entries.items f
            × HaveReasons (first_flat self.now.program self.now.harts self.now.size) self.now.journal.entries.items
            × Belongs (geometry SETS WAYS) f (shown SETS self.now.machine) }
    {
        let _machine = &self.machine;
    }
}
