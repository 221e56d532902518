ghost use Rattle.std.specs.Prelude.{◌≡◌, ℕ, IfOk};
ghost use Rattle.flat.specs.Steps.{status_for, hart_aborted};
ghost use Rattle.outcomes.specs.Harts.{tx_of, hart_of};

use crate::hart::{Hart, Transaction};
use std::alloc::{AllocError, Global};
use words::{AbortCause, Addr, Cause, Status};

/// The status that an abort for this cause leaves.
fn status_after(cause: &AbortCause) -> Status
    ensures { result ≡ status_for cause.now }
{
    match cause {
        AbortCause::Trapped(trap, pc) => Status::Stopped(*trap, *pc),
        AbortCause::Asked | AbortCause::Conflict | AbortCause::LogFull => Status::Running,
    }
}

impl Hart {
    /// The hart once its transaction was rolled back. It fails only if memory runs out.
    pub fn aborted(
        &self,
        alloc: Global,
        tx: &Transaction,
        cause: &AbortCause,
    ) -> Result<Hart, AllocError>
        ensures { IfOk result (λ h. (size : ℕ) → hart_of size h ≡ hart_aborted (hart_of size self.now) cause.now (tx_of size tx.now)) }
    {
        Ok(Hart {
            regs: tx.checkpoint,
            pc: tx.abort_pc,
            output: Vec::from_slice(alloc, &self.output)?,
            status: status_after(cause),
            tx: None,
        })
    }

    /// The hart once it was stopped outside transactions. It fails only if memory runs out.
    pub fn stopped(&self, alloc: Global, cause: Cause, pc: Addr) -> Result<Hart, AllocError>
        ensures { IfOk result (λ h. (size : ℕ) → hart_of size h ≡ record (hart_of size self.now) { status = Status.Stopped cause pc }) }
    {
        Ok(Hart {
            status: Status::Stopped(cause, pc),
            ..self.copy(alloc)?
        })
    }
}
