ghost use Rattle.std.specs.Prelude.{◌≡◌, ◌<◌, ◌*◌, ◌^◌, ◌⊎◌, ◌↔◌, IsTrue, IsFalse, IfOk, IfErr, IfSome, IfNone, OnOk, OnErr, Some, []};
ghost use Rattle.flat.specs.Boots.{boot_fault};
ghost use Rattle.flat.specs.declared.boot_fault.BootFault.TheVariants as fault;
ghost use Rattle.machine.specs.States.{geometry};
ghost use Rattle.board.specs.Histories.{no_step, IsEnd};
ghost use Rattle.board.specs.Boards.{IsFirst, IsRunning, IsLent, Fits, IsSettled, IsRefusedFor, IsAsBefore};

use crate::code::Code;
use crate::journal::{Journal, Replay};
use crate::lease::Lease;
use crate::lending::take_back;
use crate::refusal::Refusal;
use crate::status::{is_running, running};
use flat::BootFault;
use loader::Program;
use machine::Machine;
use std::alloc::{AllocError, Global};
use std::marker::Model;
use words::HartId;

/// A machine that harts are lent from, with a journal of the steps that have led to it.
#[derive(Drop)]
pub struct Board<'p, const SETS: usize, const WAYS: usize, J: Journal<SETS, WAYS> = Replay> {
    pub(crate) code: Code<'p>,
    pub(crate) harts: u32,
    pub(crate) size: u32,
    pub(crate) machine: Machine<SETS, WAYS>,
    pub(crate) journal: J,
}

impl<'p, const SETS: usize, const WAYS: usize, J: Journal<SETS, WAYS>> Model
    for Board<'p, SETS, WAYS, J> {
    ghost use Rattle.board.specs.Boards.{Held};

    ghost Value = { Held J };

    ghost view = { λ b. record {
      program = b.code.program.now;
      harts = b.harts;
      size = b.size;
      machine = b.machine;
      journal = b.journal;
    } };

    ghost use Rattle.std.specs.Prelude.{◌≡◌, ◌<◌, ◌*◌, ◌^◌};
    ghost use Rattle.machine.specs.States.{geometry};
    ghost use Rattle.table.specs.Program.{AreBytes};
    ghost use Rattle.board.specs.Histories.{IsKept};

    ghost invariant = { λ b. IsKept (geometry SETS WAYS) b.code.program.now b.harts b.size (J.tells b.journal) b.machine
        × (b.machine.program.segments ≡ b.code.program.now.segments) × AreBytes b.code.program.now.segments × (SETS * WAYS < 2 ^ 32) × (b.size < 2 ^ 32) };
}

/// What a board was.
#[derive(Drop)]
pub struct Finished<'p, const SETS: usize, const WAYS: usize, J: Journal<SETS, WAYS> = Replay> {
    pub program: &'p Program,
    pub harts: u32,
    pub size: u32,
    pub machine: Machine<SETS, WAYS>,
    pub journal: J,
}

impl<'p, const SETS: usize, const WAYS: usize> Board<'p, SETS, WAYS> {
    /// The board that a program begins with, in a machine with a number of harts and of bytes of memory. It keeps all steps and their entries.
    pub fn boot(
        alloc: Global,
        program: &'p Program,
        harts: u32,
        size: u32,
    ) -> Result<Self, BootFault>
        requires sets { 0 < SETS }
        requires ways { 0 < WAYS }
        requires lines { SETS * WAYS < 2 ^ 32 }
        ensures ok { IfOk result (λ b. IsFirst (geometry SETS WAYS) program.now harts size b.journal b) }
        ensures history { IfOk result (λ b. b.journal.history.items ≡ []) }
        ensures entries { IfOk result (λ b. b.journal.entries.items ≡ []) }
        ensures err { IfErr result (λ e. (e ≡ fault.NoMemory) ⊎ (boot_fault program.now.segments harts size ≡ Some e)) }
    {
        Board::boot_with(alloc, Code::new(program), harts, size, Replay::new(alloc))
    }
}

impl<'p, const SETS: usize, const WAYS: usize, J: Journal<SETS, WAYS>> Board<'p, SETS, WAYS, J> {
    /// A board of a program on a machine that is booted for it, with a journal that tells of no step yet.
    pub fn boot_with(
        alloc: Global,
        code: Code<'p>,
        harts: u32,
        size: u32,
        journal: J,
    ) -> Result<Self, BootFault>
        requires sets { 0 < SETS }
        requires ways { 0 < WAYS }
        requires lines { SETS * WAYS < 2 ^ 32 }
        requires told { J.tells journal no_step }
        ensures ok { IfOk result (IsFirst (geometry SETS WAYS) code.entry.program.now harts size journal) }
        ensures err { IfErr result (λ e. (e ≡ fault.NoMemory) ⊎ (boot_fault code.entry.program.now.segments harts size ≡ Some e)) }
    {
        let machine = Machine::boot(alloc, code.program.copy(alloc)?, harts, size)?;
        Ok(Board {
            code,
            harts,
            size,
            machine,
            journal,
        })
    }

    /// The machine as it is.
    pub fn machine(&self) -> &Machine<SETS, WAYS>
        ensures { result.now ≡ self.now.machine }
    {
        &self.machine
    }

    /// Whether a hart is one that runs.
    pub(crate) fn is_running(&self, id: HartId) -> bool
        ensures { IsTrue result ↔ IsRunning self.now.machine id }
    {
        is_running(&self.machine, id)
    }

    /// Lends a hart. `None` where there is no such hart, or it doesn't run.
    pub fn lend(&self, id: HartId) -> Option<Lease<'p, SETS, WAYS, J::Trace>>
        ensures some { IfSome result (IsLent J.Trace.traces self.now id) }
        ensures none { IfNone result (IsRunning self.now.machine id → ⊥) }
    {
        let hart = running(&self.machine, id)?;
        Some(Lease::new(self.code, self.harts, self.size, id, hart))
    }

    /// Lends a hart in place of a lease that isn't needed any more. The answer is whether there is such a hart, and it runs.
    pub fn lend_again(&self, id: HartId, lease: &mut Lease<'p, SETS, WAYS, J::Trace>) -> bool
        ensures lent { IsTrue result → IsLent J.Trace.traces self.now id lease.new }
        ensures not_lent { IsFalse result → (IsRunning self.now.machine id → ⊥) × (lease.new ≡ lease.old) }
    {
        let Some(hart) = running(&self.machine, id) else {
            return false;
        };
        lease.renew(self.code, self.harts, self.size, id, hart);
        true
    }

    /// Takes over the steps of a lease, if its hart is still as it was lent.
    pub fn settle(&mut self, lease: &Lease<'p, SETS, WAYS, J::Trace>) -> Result<(), Refusal>
        ensures ok { OnOk result (Fits self.old lease.now × IsSettled (geometry SETS WAYS) J.tells J.Trace.traces self.old lease.now self.new) }
        ensures unchanged { OnErr result (IsAsBefore J.tells self.old self.new) }
        ensures refused { IfErr result (IsRefusedFor self.old lease.now) }
    {
        if !self.fits(lease) {
            return Err(Refusal::Stale);
        }
        match self.take_over(lease) {
            Ok(()) => Ok(()),
            Err(_) => Err(Refusal::NoMemory),
        }
    }

    /// Whether a lease is of this board's program, number of harts and size of memory, and its hart is as it was lent.
    fn fits(&self, lease: &Lease<'p, SETS, WAYS, J::Trace>) -> bool
        ensures { IsTrue result ↔ Fits self.now lease.now }
    {
        lease.fits(self.code.program, self.harts, self.size, &self.machine)
    }

    /// Takes over the steps of a lease that fits.
    fn take_over(&mut self, lease: &Lease<'p, SETS, WAYS, J::Trace>) -> Result<(), AllocError>
        requires { Fits self.old lease.now }
        ensures ok { OnOk result (IsSettled (geometry SETS WAYS) J.tells J.Trace.traces self.old lease.now self.new) }
        ensures err { OnErr result (IsAsBefore J.tells self.old self.new) }
    {
        self.journal
            .note_lent(lease.hart(), lease.len(), lease.trace())?;
        take_back(&mut self.machine, lease);
        Ok(())
    }

    /// The board's parts. What the journal tells leads from where the program begins to the machine, and its entries are a run of the flat machine, in which
    /// each refusal and each abort for a conflict has its reason.
    pub fn finish(self) -> Finished<'p, SETS, WAYS, J>
        ensures program { result.program.now ≡ self.entry.program }
        ensures harts { result.harts ≡ self.entry.harts }
        ensures size { result.size ≡ self.entry.size }
        ensures machine { result.machine ≡ self.entry.machine }
        ensures journal { result.journal ≡ self.entry.journal }
        ensures end { IsEnd (geometry SETS WAYS) result.program.now result.harts result.size (J.tells result.journal) result.machine }
    {
        Finished {
            program: self.code.program,
            harts: self.harts,
            size: self.size,
            machine: self.machine,
            journal: self.journal,
        }
    }
}
