ghost use Rattle.std.specs.Prelude.{◌≡◌, ◌<◌, ◌*◌, ◌^◌, IfSome, IfNone, Some, None};
ghost use Rattle.machine.specs.States.{setting_of, geometry};
ghost use Rattle.schedule.specs.Steps.{IsChoiceOf, IsWithin};
ghost use Rattle.board.specs.Visits.{Owes};

use crate::journal::Chosen;
use machine::Machine;
use schedule::{Choice, named};
use words::{HartId, Step};

/// The step that is owed on a visit to a hart.
pub(crate) fn owed<const SETS: usize, const WAYS: usize>(
    machine: &Machine<SETS, WAYS>,
    id: HartId,
) -> Option<Chosen>
    ensures owes { IfSome result (λ x. Owes (geometry SETS WAYS) id machine.now (Some x.step)) }
    ensures chosen { IfSome result (λ x. IsChoiceOf SETS machine.now x.step x.choice) }
    ensures within { IfSome result (λ x. IsWithin (setting_of machine.now) x.choice) }
    ensures none { IfNone result (Owes (geometry SETS WAYS) id machine.now None) }
{
    let step = machine.owed(id)?;
    let choice = match step {
        Step::Core(hart) => {
            let _few = hart.index();
            Choice::Core(hart)
        }
        Step::Deliver(number) => Choice::Deliver(named(machine, number as u64)?),
        Step::Evict(..) => return None,
    };
    Some(Chosen { step, choice })
}
