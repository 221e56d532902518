ghost use Rattle.std.specs.Prelude.{◌≡◌, ◌-◌, []};
ghost use Rattle.machine.specs.States.{setting_of};

use arrayvec::ArrayVec;
use machine::Machine;
use std::marker::Model;
use words::HartId;

/// How many breakpoints there are at most.
pub const BREAKPOINTS: usize = 16;

/// Whether a session goes on.
#[derive(Clone, Copy, Debug, PartialEq, Eq)]
pub enum Flow {
    Go,
    Quit,
}

/// A machine that is debugged: the hart whose core made the last step of a core, and the breakpoints.
#[derive(Drop)]
pub struct Session<const SETS: usize, const WAYS: usize> {
    pub(crate) machine: Machine<SETS, WAYS>,
    pub(crate) last: HartId,
    pub(crate) breakpoints: ArrayVec<u32, BREAKPOINTS>,
}

impl<const SETS: usize, const WAYS: usize> Model for Session<SETS, WAYS> {
    ghost use Rattle.debugger.specs.Sessions.{Session as SessionValue};

    ghost Value = { SessionValue };

    ghost view = { λ s. record { machine = s.machine; last = s.last; breakpoints = s.breakpoints.items } };
}

impl<const SETS: usize, const WAYS: usize> Session<SETS, WAYS> {
    /// A session of a machine, without breakpoints. The first turn is as after one of the hart with the highest number. It takes no memory.
    pub fn new(machine: Machine<SETS, WAYS>) -> Self
        ensures { result ≡ record { machine = machine.entry; last = (setting_of machine.entry).count - 1; breakpoints = [] } }
    {
        let last = machine.last_hart();
        Session {
            machine,
            last,
            breakpoints: ArrayVec::new(),
        }
    }

    /// The machine.
    pub fn machine(&self) -> &Machine<SETS, WAYS>
        ensures { result.now ≡ self.now.machine }
    {
        &self.machine
    }
}
