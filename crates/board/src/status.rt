ghost use Rattle.std.specs.Prelude.{◌≡◌, ◌<◌, ◌*◌, ◌^◌, ◌↔◌, IsTrue, IfSome, IfNone, Some};
ghost use Rattle.words.specs.declared.cause.Status.TheVariants.{Running};
ghost use Rattle.machine.specs.Lent.{hart_if};
ghost use Rattle.board.specs.Boards.{IsRunning};

use hart::Hart;
use machine::Machine;
use words::{HartId, Status};

/// A hart of a machine, if it runs.
pub fn running<const SETS: usize, const WAYS: usize>(
    machine: &Machine<SETS, WAYS>,
    id: HartId,
) -> Option<&Hart<SETS, WAYS>>
    requires { SETS * WAYS < 2 ^ 32 }
    ensures some { IfSome result (λ h. (hart_if machine.now id ≡ Some h.now) × (h.now.status ≡ Running)) }
    ensures none { IfNone result (IsRunning machine.now id → ⊥) }
{
    let hart = machine.hart(id)?;
    match hart.status() {
        Status::Running => Some(hart),
        Status::Exited(_) | Status::Stopped(..) => None,
    }
}

/// Whether a hart is one that runs.
pub fn is_running<const SETS: usize, const WAYS: usize>(
    machine: &Machine<SETS, WAYS>,
    id: HartId,
) -> bool
    requires { SETS * WAYS < 2 ^ 32 }
    ensures { IsTrue result ↔ IsRunning machine.now id }
{
    machine.keeps();
    match machine.hart(id) {
        Some(hart) => match hart.status() {
            Status::Running => true,
            Status::Exited(_) | Status::Stopped(..) => false,
        },
        None => false,
    }
}

/// Whether a hart of a machine is just like this one.
pub fn is_hart<const SETS: usize, const WAYS: usize>(
    machine: &Machine<SETS, WAYS>,
    id: HartId,
    hart: &Hart<SETS, WAYS>,
) -> bool
    requires { SETS * WAYS < 2 ^ 32 }
    ensures { IsTrue result ↔ (hart_if machine.now id ≡ Some hart.now) }
{
    match machine.hart(id) {
        Some(here) => here.same(hart),
        None => false,
    }
}
