ghost use Rattle.std.specs.Prelude.{◌≡◌, None, OnOk, OnErr, IfSome};
ghost use Rattle.flat.specs.Causes.{act_cause};
ghost use Rattle.flat.specs.Steps.{IsRunning, retired, aborted, stopped};
ghost use Rattle.reference.specs.Machines.{setting_of, flat_of};

use crate::machine::Machine;
use std::alloc::{AllocError, Global};
use table::Effect;
use words::{AbortCause, Addr, Cause, Status};

impl Machine {
    /// Hart i retires an effect. It fails only if memory runs out.
    pub(crate) fn retire(
        &mut self,
        alloc: Global,
        i: usize,
        effect: &Effect,
    ) -> Result<(), AllocError>
        requires running { IsRunning (flat_of self.old) i }
        requires uncaused { act_cause (setting_of self.old) ((flat_of self.old).hart i) effect.now.act ≡ None }
        ensures ok { OnOk result (flat_of self.new ≡ retired (flat_of self.old) i effect.now) }
        ensures err { OnErr result (flat_of self.new ≡ flat_of self.old) }
    {
        let hart = &mut self.harts[i];
        hart.retire(alloc, &mut self.memory, effect)
    }

    /// Rolls hart i's transaction back.
    pub(crate) fn abort(&mut self, i: usize, cause: AbortCause)
        requires { IsRunning (flat_of self.old) i }
        ensures { IfSome ((flat_of self.old).hart i).tx (λ t. flat_of self.new ≡ aborted (flat_of self.old) i cause t) }
    {
        self.harts[i].abort(cause);
    }

    /// Stops hart i.
    pub(crate) fn stop(&mut self, i: usize, cause: Cause, pc: Addr)
        requires { IsRunning (flat_of self.old) i }
        ensures { flat_of self.new ≡ stopped (flat_of self.old) i cause pc }
    {
        self.harts[i].status = Status::Stopped(cause, pc);
    }
}
