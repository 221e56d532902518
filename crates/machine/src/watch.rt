ghost use Rattle.std.specs.Prelude.{◌≡◌, ◌<◌, ℕ, Option, None, length, IfOk, IfSome, IfNone, OnErr, MatchBool};
ghost use Rattle.std.specs.Option.{option_map};
ghost use Rattle.words.specs.declared.entry.Step.{Step as StepValue};
ghost use Rattle.words.specs.declared.entry.Step.TheVariants.{Core, Evict};
ghost use Rattle.flat.specs.State.{Flat};
ghost use Rattle.network.specs.Flights.{flight_at, AreInOrder, AreNumbered, IsNewest, HasNewestArrived};
ghost use Rattle.isolation.specs.Belongs.{Belongs};
ghost use Rattle.machine.specs.Turns.{IsNextTurn, TakesTurn, hart_after};
ghost use Rattle.machine.specs.Watch.{IsOver, IsEnabled, IsEnabledByRule};

use crate::machine::Machine;
use crate::mail::receiver;
use crate::play::hart_after;
use crate::turns::{is_held, lowest_running};
use network::Flight;
use std::alloc::AllocError;
use words::{BlockNo, Entry, HartId, Step};

/// What came of a turn: its entry, if it gave one, and the hart of the last core step.
#[derive(Clone, Copy, Debug, PartialEq, Eq)]
pub struct Turn {
    pub entry: Option<Entry>,
    pub last: HartId,
}

/// What a debugger watches.
impl<const SETS: usize, const WAYS: usize> Machine<SETS, WAYS> {
    ghost use Rattle.machine.specs.States.{shown, geometry};

    /// Whether a hart runs.
    pub fn runs(&self) -> bool
        ensures { MatchBool result (IsOver SETS self.now → ⊥) (IsOver SETS self.now) }
    {
        match lowest_running(&self.seats, 0, self.directory.harts()) {
            Some(_) => true,
            None => false,
        }
    }

    /// How many messages are in flight.
    pub fn in_flight(&self) -> usize
        ensures { result ≡ length self.now.flights }
    {
        self.net.len()
    }

    /// The number that the next message gets.
    pub fn sent(&self) -> u64
        ensures { result ≡ self.now.sent }
    {
        self.net.sent()
    }

    /// The messages in flight stand in the order of their numbers, each below that of the next.
    pub fn are_in_order(&self)
        ensures order { AreInOrder self.now.flights }
        ensures numbered { AreNumbered self.now.flights self.now.sent }
    {
        self.net.are_in_order();
    }

    /// The message in flight with a number, and the number with it.
    pub fn flight(&self, number: u64) -> Option<Flight>
        ensures { result ≡ flight_at self.now.flights number }
    {
        self.net.flight(number)
    }

    /// The same, where it stands.
    #[inline(always)]
    pub fn peek_flight(&self, number: u64) -> Option<&Flight>
        ensures { option_map (λ flight. flight.now) result ≡ flight_at self.now.flights number }
    {
        self.net.peek_flight(number)
    }

    /// The number of the message that was sent last, if it is in flight. It isn't said once the numbers have come to their end.
    #[inline(always)]
    pub fn newest(&self) -> Option<u64>
        ensures some { self.now.sent < 18446744073709551615 → IfSome result (IsNewest self.now.flights self.now.sent) }
        ensures none { self.now.sent < 18446744073709551615 → IfNone result (HasNewestArrived self.now.flights self.now.sent) }
    {
        self.net.newest()
    }

    /// Whether a hart's core has a step to make.
    #[inline(always)]
    fn is_core_enabled(&self, id: HartId) -> bool
        ensures { IsEnabledByRule (geometry SETS WAYS) self.now (Core id) result }
    {
        match self.seats.get(id.index()) {
            Some(seat) => match seat.glance() {
                Some(known) => known,
                None => seat.has_step(&self.program.text()),
            },
            None => false,
        }
    }

    /// Whether a hart has a line of a block that it can give up.
    fn is_evict_enabled(&self, id: HartId, block: BlockNo) -> bool
        ensures { IsEnabledByRule (geometry SETS WAYS) self.now (Evict id block) result }
    {
        match self.seats.get(id.index()) {
            Some(seat) => seat.can_evict(block),
            None => false,
        }
    }

    /// Whether a step is enabled: one that isn't changes nothing.
    #[inline(always)]
    pub fn is_enabled(&self, step: Step) -> bool
        ensures steps { IsEnabled (geometry SETS WAYS) (shown SETS self.now) step result }
        ensures rule { IsEnabledByRule (geometry SETS WAYS) self.now step result }
    {
        self.has_row(step)
    }

    /// Whether a row of the protocol applies to a step.
    #[inline(always)]
    fn has_row(&self, step: Step) -> bool
        ensures { IsEnabledByRule (geometry SETS WAYS) self.now step result }
    {
        match step {
            Step::Core(id) => self.is_core_enabled(id),
            Step::Evict(id, block) => self.is_evict_enabled(id, block),
            Step::Deliver(number) => match self.net.peek(number as u64) {
                Some(message) => match receiver(message) {
                    Some(id) => id.index() < self.directory.harts(),
                    None => !is_held(&self.directory, message),
                },
                None => false,
            },
        }
    }

    /// A flat state belongs to the machine.
    fn belongs(&self)
        ensures { (f : Flat) × Belongs (geometry SETS WAYS) f (shown SETS self.now) }
    {
        let _seats = &self.seats;
    }

    /// The turn after a hart's, as [`Machine::next_turn`] names it. `None`, and nothing changes, where there is none. It fails only if
    /// memory runs out.
    pub fn turn_after(&mut self, last: HartId) -> Result<Option<Turn>, AllocError>
        ensures made { IfOk result (λ t. IfSome t (λ made. (step : StepValue) × TakesTurn (geometry SETS WAYS) self.old last step made.entry self.new × (made.last ≡ hart_after step last))) }
        // A hart stops only with an entry.
        ensures over { IfOk result (λ t. IfSome t (λ made. made.entry ≡ None → IsOver SETS self.new → IsOver SETS self.old)) }
        ensures none { IfOk result (λ t. IfNone t (IsNextTurn (shown SETS self.old) self.old.flights last None × (self.new ≡ self.old))) }
        ensures err { OnErr result (self.new ≡ self.old) }
    {
        let Some(step) = self.next_turn(last) else {
            return Ok(None);
        };
        self.belongs();
        let entry = self.step(step)?;
        Ok(Some(Turn {
            entry,
            last: hart_after(&step, last),
        }))
    }
}
