//! The status that the program ends with after a report.
ghost use Rattle.std.specs.Prelude.{◌≡◌, ◌<◌, ◌↔◌, IsTrue};
ghost use Rattle.flat.specs.State.{Flat};
ghost use Rattle.render.specs.Statuses.{status_for, IsStatusOf, IsReported};

use flat::Engine;
use words::{HartId, Status};

/// Whether a status goes with a report: the whole of it was put.
pub fn is_report(status: u8) -> bool
    ensures { IsTrue result ↔ IsReported status }
{
    match status {
        0 | 1 | 5 => true,
        _ => false,
    }
}

/// Whether a hart runs, or how it ended.
pub(crate) fn status_of<M: Engine>(machine: &M, id: HartId) -> Status
    requires { id < (M.setting machine.now).count }
    ensures { (f : Flat) → M.belongs f machine.now → result ≡ (f.hart id).status }
{
    machine.regs(id).unwrap().2
}

/// The status that a hart asks for: 5 if it runs, 0 if it exited with 0, else 1.
fn status_for(status: Status) -> u8
    ensures { result ≡ status_for status }
{
    match status {
        Status::Running => 5,
        Status::Exited(0) => 0,
        Status::Exited(_) | Status::Stopped(..) => 1,
    }
}

/// The status that the program ends with after a report: the greatest that a hart asks for.
pub fn status<M: Engine>(machine: &M) -> u8
    ensures greatest { (f : Flat) → M.belongs f machine.now → IsStatusOf f result }
    ensures reported { IsReported result }
{
    let mut greatest = 0;
    for number in 0..machine.harts() {
        let id = HartId::new(number as u8);
        greatest = status_for(status_of(machine, id)).max(greatest);
    }
    greatest
}
