ghost use Rattle.std.specs.Prelude.{◌≡◌, ◌<◌, ◌*◌, ◌^◌, Some};
ghost use Rattle.words.specs.Limits.{most_harts};
ghost use Rattle.machine.specs.States.{geometry};
ghost use Rattle.machine.specs.Lent.{hart_if, with_hart};
ghost use Rattle.board.specs.Histories.{LeadsAlone};

use crate::lease::Lease;
use crate::trace::Trace;
use machine::Machine;

/// Puts the hart of a lease back in its place. What it is now it has become by itself, in steps of its core, each of which is a choice.
pub(crate) fn take_back<const SETS: usize, const WAYS: usize, T: Trace<SETS, WAYS>>(
    machine: &mut Machine<SETS, WAYS>,
    lease: &Lease<'_, SETS, WAYS, T>,
)
    requires lines { SETS * WAYS < 2 ^ 32 }
    requires hart { hart_if machine.old lease.now.id ≡ Some lease.now.before }
    requires text { machine.old.program.segments ≡ lease.now.program.segments }
    ensures few { lease.now.id < most_harts }
    ensures hart { machine.new ≡ with_hart machine.old lease.now.id lease.now.after }
    ensures leads { LeadsAlone (geometry SETS WAYS) T.traces machine.old lease.now machine.new }
{
    machine.keeps();
    let hart = lease.hart();
    let _few = hart.index();
    machine.adopt(hart, lease.after(), lease.len());
}
