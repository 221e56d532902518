ghost use Rattle.std.specs.Prelude.{◌≡◌, ◌<◌, ◌≤◌, ◌-◌, ℕ};
ghost use Rattle.protocol.specs.Hart.{is_running};
ghost use Rattle.machine.specs.Turns.{number_running};

use crate::machine::Machine;
use crate::seat::Seat;
use words::Status;

/// How many steps a run makes from one note of its progress to the next.
pub const PROGRESS_INTERVAL: u32 = 65_536;

/// What is told of a run's progress. Nothing that a run does depends on it.
pub trait Progress {
    /// What comes of telling that so many harts run.
    ghost tells: { Self → ℕ → Self → Type 0 };

    /// The run has made [`PROGRESS_INTERVAL`] steps more, or a few less, and so many harts still run.
    fn tell(&mut self, running: usize)
        ensures { tells self.old running self.new };

    /// The run has ended.
    fn end(&mut self);
}

/// Progress that nobody is told of.
#[derive(Clone, Copy, Debug)]
pub struct Silent;

impl Progress for Silent {
    ghost tells = { λ silent _ after. after ≡ silent };

    fn tell(&mut self, _running: usize) {}

    fn end(&mut self) {}
}

/// Whether the hart in a seat runs.
fn runs<const SETS: usize, const WAYS: usize>(seat: &Seat<SETS, WAYS>) -> bool
    ensures { result ≡ is_running seat.now.hart.status }
{
    seat.hart.status() == Status::Running
}

/// How many of these harts run.
fn running_in<const SETS: usize, const WAYS: usize>(seats: &[Seat<SETS, WAYS>]) -> usize
    ensures { result ≡ number_running seats.now }
{
    let mut running = 0;
    for seat in seats {
        if runs(seat) {
            running += 1;
        }
    }
    running
}

impl<const SETS: usize, const WAYS: usize> Machine<SETS, WAYS> {
    /// How many harts run.
    pub fn running(&self) -> usize
        ensures { result ≡ number_running self.now.seats }
    {
        running_in(&self.seats)
    }

    /// Takes note of steps that were made, where progress is due after so many. It is told if they were as many, and the answer is after how many
    /// it is due then.
    #[inline(always)]
    pub fn note_progress<P: Progress>(&self, made: u32, due: u32, progress: &mut P) -> u32
        ensures sooner { made < due → result ≡ due - made }
        ensures told { due ≤ made → (result ≡ 65536) × P.tells progress.old (number_running self.now.seats) progress.new }
        ensures silent { made < due → progress.new ≡ progress.old }
    {
        if made < due {
            return due - made;
        }
        progress.tell(self.running());
        PROGRESS_INTERVAL
    }
}
