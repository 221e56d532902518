ghost use Rattle.std.specs.Prelude.{◌≡◌, ◌<◌, ◌≤◌, ◌↔◌, ℕ, length, true, is_none, IfSome, IfNone, IsTrue};
ghost use Rattle.words.specs.Limits.{most_harts};
ghost use Rattle.words.specs.declared.cause.Status.TheVariants.{Running};
ghost use Rattle.protocol.specs.Messages.{Block as BlockWords, shown as shown_message, block_of};
ghost use Rattle.protocol.specs.Directory.{directory_row};
ghost use Rattle.protocol.specs.Machine.{Machine as MachineState};
ghost use Rattle.directory.specs.Blocks.{entry_at};
ghost use Rattle.machine.specs.States.{hart_at};
ghost use Rattle.machine.specs.Turns.{AllHeld, IsOldestFree, NoneRuns, NoOtherRuns, NoneFresh, IsFirstFresh, IsHartsTurn, IsNextTurn, IsOwed};

use crate::machine::Machine;
use crate::seat::Seat;
use directory::Directory;
use network::Net;
use words::{HartId, Message, Status, Step};

/// Whether the directory holds a message now.
pub(crate) fn is_held(directory: &Directory, message: &Message) -> bool
    ensures { (n : ℕ) (words : BlockWords) →
        result ≡ is_none (directory_row n (shown_message message.now) (entry_at directory.now (block_of (shown_message message.now))) words) }
{
    match message {
        Message::Get { block, .. } | Message::Put { block, .. } => { directory.is_busy(*block) }
        _ => false,
    }
}

/// The lowest hart that runs and is fresh.
fn first_fresh<const SETS: usize, const WAYS: usize>(seats: &[Seat<SETS, WAYS>]) -> Option<HartId>
    requires { length seats.now ≤ most_harts }
    ensures some { IfSome result (IsFirstFresh (hart_at SETS seats.now) (length seats.now)) }
    ensures none { IfNone result (NoneFresh (hart_at SETS seats.now) (length seats.now)) }
{
    for i in 0..seats.len() {
        let seat = &seats[i];
        if seat.hart.is_fresh() && seat.hart.status() == Status::Running {
            return Some(HartId::new(i as u8));
        }
    }
    None
}

/// Whether no hart that runs is fresh.
pub(crate) fn none_is_fresh<const SETS: usize, const WAYS: usize>(
    seats: &[Seat<SETS, WAYS>],
    count: usize,
) -> bool
    requires count { count ≡ length seats.now }
    requires few { count ≤ most_harts }
    ensures { IsTrue result ↔ NoneFresh (hart_at SETS seats.now) (length seats.now) }
{
    first_fresh(seats).is_none()
}

/// The lowest running hart from one number up to another.
pub(crate) fn lowest_running<const SETS: usize, const WAYS: usize>(
    seats: &[Seat<SETS, WAYS>],
    from: usize,
    to: usize,
) -> Option<HartId>
    requires within { to ≤ length seats.now }
    requires few { to ≤ most_harts }
    ensures some { IfSome result (λ i. (from ≤ i) × (i < to) × ((hart_at SETS seats.now i).status ≡ Running) × NoneRuns (hart_at SETS seats.now) from i) }
    ensures none { IfNone result (NoneRuns (hart_at SETS seats.now) from to) }
{
    for i in from..to {
        let seat = &seats[i];
        if seat.hart.status() == Status::Running {
            return Some(HartId::new(i as u8));
        }
    }
    None
}

/// Whether no other hart than this runs.
#[inline(always)]
pub(crate) fn no_other_runs<const SETS: usize, const WAYS: usize>(
    seats: &[Seat<SETS, WAYS>],
    count: usize,
    id: HartId,
) -> bool
    requires count { count ≡ length seats.now }
    requires few { count ≤ most_harts }
    ensures { IsTrue result ↔ NoOtherRuns (hart_at SETS seats.now) (length seats.now) id }
{
    let i = id.index();
    if count == 1 {
        return i == 0;
    }
    i < count
        && lowest_running(seats, 0, i).is_none()
        && lowest_running(seats, i + 1, count).is_none()
}

/// The turn of one of the harts, after another's.
fn harts_turn<const SETS: usize, const WAYS: usize>(
    seats: &[Seat<SETS, WAYS>],
    count: usize,
    after: HartId,
) -> Option<Step>
    requires count { count ≡ length seats.now }
    requires few { count ≤ most_harts }
    ensures { IsHartsTurn (hart_at SETS seats.now) (length seats.now) after result }
{
    if let Some(fresh) = first_fresh(seats) {
        return Some(Step::Core(fresh));
    }
    match lowest_running(seats, after.index() + 1, count) {
        Some(next) => Some(Step::Core(next)),
        None => match lowest_running(seats, 0, count) {
            Some(next) => Some(Step::Core(next)),
            None => None,
        },
    }
}

/// The number of the oldest message that the directory doesn't hold.
#[inline(always)]
fn oldest_free(directory: &Directory, net: &Net) -> Option<u64>
    ensures some { IfSome result (λ number. (w : MachineState) → w.entries ≡ entry_at directory.now → IsOldestFree w net.now.flights number) }
    ensures none { IfNone result ((w : MachineState) → w.entries ≡ entry_at directory.now → AllHeld w net.now.flights) }
{
    if net.is_empty() {
        return None;
    }
    net.oldest(|message| !is_held(directory, message))
}

impl<const SETS: usize, const WAYS: usize> Machine<SETS, WAYS> {
    ghost use Rattle.machine.specs.States.{shown};

    /// The number of the oldest message that isn't held, whose arrival is the next turn. `None` where there is none.
    #[inline(always)]
    pub fn next_arrival(&self) -> Option<u64>
        ensures some { IfSome result (IsOldestFree (shown SETS self.now) self.now.flights) }
        ensures none { IfNone result (AllHeld (shown SETS self.now) self.now.flights) }
    {
        oldest_free(&self.directory, &self.net)
    }

    /// The turn after a hart's: the first that there is of the arrival of the oldest message that isn't held, the step of the lowest
    /// running hart that is fresh, and that of the next running hart in the order of the numbers, and round. `None` where there is none.
    #[inline(always)]
    pub fn next_turn(&self, after: HartId) -> Option<Step>
        ensures { IsNextTurn (shown SETS self.now) self.now.flights after result }
    {
        if let Some(number) = self.next_arrival() {
            return Some(Step::Deliver(number as usize));
        }
        harts_turn(&self.seats, self.directory.harts(), after)
    }

    /// What is owed on a visit to a hart: the arrival of the oldest message that isn't held, or else the hart's step, if it is fresh. `None`
    /// where nothing is.
    pub fn owed(&self, id: HartId) -> Option<Step>
        ensures { IsOwed (shown SETS self.now) self.now.flights id result }
    {
        if let Some(number) = self.next_arrival() {
            return Some(Step::Deliver(number as usize));
        }
        if self.fresh(id) {
            return Some(Step::Core(id));
        }
        None
    }
}
