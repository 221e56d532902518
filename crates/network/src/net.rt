ghost use Rattle.std.specs.Prelude.{◌≡◌, ◌≢◌, ◌+◌, ◌%◌, ◌<◌, ◌≤◌, ◌↔◌, ℕ, [], Some, None, min, length, slice_index, IsTrue, OnOk, IsSome, IfSome, IfNone};
ghost use Rattle.std.specs.Fn.{FnReturnsAt};
ghost use Rattle.std.specs.Option.{option_map};
ghost use Rattle.network.specs.Flights.{message_at, flight_at, without, first_from, AreInOrder, AreNumbered, IsNextNumber, number_after, IsAlone, IsOldest, IsNewest, HasNewestArrived, NonePasses};
ghost use Rattle.network.specs.Sorted.{in_order, AreKept, AreBelow, AreFrom, IsUnder, IsAbsent, is_lower};
ghost use Rattle.slab.specs.Slab.{get, slab_len, HasRoomFor, Updates};

use slab::Slab;
use std::alloc::{AllocError, Global};
use std::marker::Model;
use words::Message;

/// A message that was sent, with its number: how many were sent before, up to the greatest u64.
#[derive(Clone, Copy, Debug, PartialEq, Eq)]
pub struct Flight {
    pub message: Message,
    pub number: u64,
}

/// How many numbers back a net knows where the messages lie.
const RECENT: u64 = 64;

/// The messages in flight, each known by its number.
#[derive(Drop)]
pub struct Net {
    flights: Slab<Flight>,
    next: u64,
    /// While numbers last, no message in flight has a lower number.
    first: u64,
    /// The keys in the slab of the last messages, each where its number's remainder says.
    keys: [usize; RECENT as usize],
}

impl Model for Net {
    ghost use Rattle.std.specs.Prelude.{◌-◌, ◌≤◌};
    ghost use Rattle.slab.specs.Slab.{slab_len};
    ghost use Rattle.network.specs.Flights.{Flights};
    ghost use Rattle.network.specs.Sorted.{in_order, AreKept, AreFrom};

    ghost Value = { Flights };

    ghost view = { λ n. record { flights = in_order n.flights.slots; next = n.next; room = n.flights.capacity - slab_len n.flights } };

    ghost invariant = { λ n. (slab_len n.flights ≤ n.flights.capacity) × AreKept n.flights.slots n.next n.keys × AreFrom n.flights.slots n.next n.first };
}

impl Net {
    /// No messages, and no memory taken.
    pub fn new(alloc: Global) -> Self
        ensures empty { result.flights ≡ [] }
        ensures first { result.next ≡ 0 }
    {
        Net {
            flights: Slab::new(alloc),
            next: 0,
            first: 0,
            keys: [0; RECENT as usize],
        }
    }

    /// The number that the next message gets, until numbers have come to their end.
    pub fn sent(&self) -> u64
        ensures { result ≡ self.now.next }
    {
        self.next
    }

    /// The messages in flight stand in the order of their numbers, each below the next.
    pub fn are_in_order(&self)
        ensures order { AreInOrder self.now.flights }
        ensures numbered { AreNumbered self.now.flights self.now.next }
        ensures range { self.now.next ≤ 18446744073709551615 }
    {
        let _next = &self.next;
    }

    /// How many messages can be sent with no further memory.
    pub fn room(&self) -> usize
        ensures { result ≡ self.now.room }
    {
        self.flights.capacity() - self.flights.len()
    }

    /// Whether no message is in flight.
    pub fn is_empty(&self) -> bool
        ensures { IsTrue result ↔ (self.now.flights ≡ []) }
    {
        self.flights.is_empty()
    }

    /// How many messages are in flight.
    pub fn len(&self) -> usize
        ensures { result ≡ length self.now.flights }
    {
        self.flights.len()
    }

    /// Whether each message in flight is known to be one of the last 64 that were sent: then the oldest is found at once.
    #[inline(always)]
    pub fn is_recent(&self) -> bool
        ensures { IsTrue result → (number : ℕ) (f : Flight) → flight_at self.now.flights number ≡ Some f → self.now.next ≤ number + 64 }
    {
        is_known(self.first, self.next)
    }

    /// Makes room for so many messages. It fails only if memory runs out; what is in flight stays in either outcome.
    pub fn reserve(&mut self, count: usize) -> Result<(), AllocError>
        ensures ok { OnOk result (count ≤ self.new.room) }
        ensures same { self.new.flights ≡ self.old.flights }
        ensures number { self.new.next ≡ self.old.next }
        ensures grows { self.old.room ≤ self.new.room }
    {
        self.flights.reserve(count)
    }

    /// Sends a message, and answers the number that it gets.
    #[inline(always)]
    pub fn send(&mut self, message: Message) -> u64
        requires { 0 < self.old.room }
        ensures number { IsNextNumber (flight_at self.old.flights) self.old.next result }
        ensures sent { flight_at self.new.flights result ≡ Some (record { message = message; number = result }) }
        ensures others { (number : ℕ) → number ≢ result → flight_at self.new.flights number ≡ flight_at self.old.flights number }
        ensures next { self.new.next ≡ number_after self.old.next }
        ensures count { self.old.next ≤ self.new.next }
        ensures room { self.new.room + 1 ≡ self.old.room }
    {
        let number = next_number(&self.flights, self.next);
        let key = put(&mut self.flights, Flight { message, number });
        self.keys[(number % RECENT) as usize] = key;
        self.next = self.next.saturating_add(1);
        number
    }

    /// Takes the message with a number out, and sends another, whose number it answers: the one that it gets where the first is no
    /// more in flight. It needs no further room.
    #[inline(always)]
    pub fn answer(&mut self, number: u64, message: Message) -> u64
        requires { IsSome (message_at self.old.flights number) }
        ensures number { IsNextNumber (without number (flight_at self.old.flights)) self.old.next result }
        ensures sent { flight_at self.new.flights result ≡ Some (record { message = message; number = result }) }
        ensures others { (other : ℕ) → other ≢ result → flight_at self.new.flights other ≡ without number (flight_at self.old.flights) other }
        ensures next { self.new.next ≡ number_after self.old.next }
        ensures count { self.old.next ≤ self.new.next }
        ensures room { self.new.room ≡ self.old.room }
    {
        self.take(number);
        self.send(message)
    }

    /// The message with a number.
    pub fn get(&self, number: u64) -> Option<Message>
        ensures { result ≡ message_at self.now.flights number }
    {
        match self.peek_flight(number) {
            Some(flight) => Some(flight.message),
            None => None,
        }
    }

    /// The same message, where it stands.
    #[inline(always)]
    pub fn peek(&self, number: u64) -> Option<&Message>
        ensures { option_map (λ message. message.now) result ≡ message_at self.now.flights number }
    {
        match self.peek_flight(number) {
            Some(flight) => Some(&flight.message),
            None => None,
        }
    }

    /// The message with a number, and the number with it.
    pub fn flight(&self, number: u64) -> Option<Flight>
        ensures { result ≡ flight_at self.now.flights number }
    {
        match self.peek_flight(number) {
            Some(flight) => Some(*flight),
            None => None,
        }
    }

    /// The same, where it stands.
    #[inline(always)]
    pub fn peek_flight(&self, number: u64) -> Option<&Flight>
        ensures { option_map (λ flight. flight.now) result ≡ flight_at self.now.flights number }
    {
        match find(&self.flights, &self.keys, self.next, number) {
            Some(key) => self.flights.get(key),
            None => None,
        }
    }

    /// The first message in flight that has this number or a greater one: so all are met in the order of sending.
    pub fn next_from(&self, number: u64) -> Option<&Flight>
        ensures { option_map (λ flight. flight.now) result ≡ first_from number self.now.flights }
    {
        if !is_known(self.first, self.next) {
            return self.next_of_all(number);
        }
        for other in number.max(self.first)..self.next {
            if let Some(key) = key_of(&self.flights, &self.keys, other) {
                return self.flights.get(key);
            }
        }
        None
    }

    /// The same, by a look at all messages in flight.
    #[inline(never)]
    fn next_of_all(&self, number: u64) -> Option<&Flight>
        ensures { option_map (λ flight. flight.now) result ≡ first_from number self.now.flights }
    {
        let mut best = None;
        for key in 0..self.flights.capacity() {
            if let Some(flight) = self.flights.get(key) {
                if number <= flight.number && is_lower(flight.number, best) {
                    best = Some(flight.number);
                }
            }
        }
        match best {
            Some(lowest) => self.peek_flight(lowest),
            None => None,
        }
    }

    /// Takes the message with a number out.
    #[inline(always)]
    pub fn take(&mut self, number: u64) -> Option<Message>
        ensures value { result ≡ message_at self.old.flights number }
        ensures taken { flight_at self.new.flights number ≡ None }
        ensures others { (other : ℕ) → other ≢ number → flight_at self.new.flights other ≡ flight_at self.old.flights other }
        ensures number { self.new.next ≡ self.old.next }
        ensures room { IsSome result → self.new.room ≡ self.old.room + 1 }
        ensures none { result ≡ None → self.new ≡ self.old }
    {
        match find(&self.flights, &self.keys, self.next, number) {
            Some(key) => {
                let flight = self.flights.remove(key);
                self.first = lower_bound(&self.flights, &self.keys, self.first, self.next);
                Some(flight.message)
            }
            None => None,
        }
    }

    /// The number of the only message in flight. `None` where there is none or another; one that was sent long before others may not be found either, which
    /// costs time alone.
    #[inline(always)]
    pub fn alone(&self) -> Option<u64>
        ensures { IfSome result (IsAlone self.now.flights) }
    {
        let count = self.flights.len();
        if count != 1 {
            return None;
        }
        match key_of(&self.flights, &self.keys, self.first) {
            Some(_) => Some(self.first),
            None => None,
        }
    }

    /// Takes the message with a number out, beside which there is no other, and has so many numbers pass: those of messages that were sent and arrived after
    /// it, one after another, and that were never kept here.
    #[inline(always)]
    pub fn pass(&mut self, number: u64, count: u64)
        requires { IsAlone self.old.flights number }
        ensures empty { self.new.flights ≡ [] }
        ensures number { self.new.next ≡ min (self.old.next + count) 18446744073709551615 }
        ensures room { self.new.room ≡ self.old.room + 1 }
    {
        let _passed = self.take(number);
        let next = self.next.saturating_add(count);
        self.next = next;
        self.first = next;
    }

    /// The number of the message that was sent first among those that pass.
    #[inline(always)]
    pub fn oldest<F: Fn(&Message) -> bool>(&self, passes: F) -> Option<u64>
        requires { F.IsAlwaysCallable passes }
        ensures none { IfNone result (NonePasses (FnReturnsAt F.Fn passes) self.now.flights) }
        ensures some { IfSome result (IsOldest (FnReturnsAt F.Fn passes) self.now.flights) }
    {
        if !is_known(self.first, self.next) {
            return self.oldest_of_all(passes);
        }
        for number in self.first..self.next {
            if let Some(key) = key_of(&self.flights, &self.keys, number) {
                if let Some(flight) = self.flights.get(key) {
                    if passes(&flight.message) {
                        return Some(number);
                    }
                }
            }
        }
        None
    }

    /// The same, by a look at all messages in flight.
    #[inline(never)]
    fn oldest_of_all<F: Fn(&Message) -> bool>(&self, passes: F) -> Option<u64>
        requires { F.IsAlwaysCallable passes }
        ensures none { IfNone result (NonePasses (FnReturnsAt F.Fn passes) self.now.flights) }
        ensures some { IfSome result (IsOldest (FnReturnsAt F.Fn passes) self.now.flights) }
    {
        let mut best = None;
        for key in 0..self.flights.capacity() {
            if let Some(flight) = self.flights.get(key) {
                if is_lower(flight.number, best) && passes(&flight.message) {
                    best = Some(flight.number);
                }
            }
        }
        best
    }

    /// The number of the message that was sent last, if it is in flight. It isn't said once the numbers have come to their end.
    #[inline(always)]
    pub fn newest(&self) -> Option<u64>
        ensures some { self.now.next < 18446744073709551615 → IfSome result (IsNewest self.now.flights self.now.next) }
        ensures none { self.now.next < 18446744073709551615 → IfNone result (HasNewestArrived self.now.flights self.now.next) }
    {
        if self.next == 0 {
            return None;
        }
        let number = self.next - 1;
        match key_of(&self.flights, &self.keys, number) {
            Some(_) => Some(number),
            None => None,
        }
    }
}

/// Whether the net knows the keys of all numbers from this one on that are in flight, where `next` is the number that the next message gets.
#[inline(always)]
fn is_known(number: u64, next: u64) -> bool
    ensures { IsTrue result ↔ ((next < 18446744073709551615) × (next ≤ number + 64)) }
{
    next < u64::MAX && next.saturating_sub(number) <= RECENT
}

/// The key of the message with a number, if it is in flight where the last message with the number's remainder was sent.
#[inline(always)]
fn key_of(flights: &Slab<Flight>, keys: &[usize; RECENT as usize], number: u64) -> Option<usize>
    ensures some { IfSome result (IsUnder flights.now.slots number) }
    ensures none { IfNone result ((f : Flight) → get flights.now (slice_index keys.now (number % 64)) ≡ Some f → f.number ≢ number) }
{
    let key = keys[(number % RECENT) as usize];
    match flights.get(key) {
        Some(flight) if flight.number == number => Some(key),
        _ => None,
    }
}

/// The key of the message with a number.
#[inline(always)]
fn find(
    flights: &Slab<Flight>,
    keys: &[usize; RECENT as usize],
    next: u64,
    number: u64,
) -> Option<usize>
    requires { AreKept flights.now.slots next keys.now }
    ensures some { IfSome result (IsUnder flights.now.slots number) }
    ensures none { IfNone result (IsAbsent flights.now.slots number) }
{
    let recent = key_of(flights, keys, number);
    if recent.is_some() || is_known(number, next) {
        return recent;
    }
    find_in_all(flights, number)
}

/// The same, by a look at all messages in flight.
#[inline(never)]
fn find_in_all(flights: &Slab<Flight>, number: u64) -> Option<usize>
    ensures some { IfSome result (IsUnder flights.now.slots number) }
    ensures none { IfNone result (IsAbsent flights.now.slots number) }
{
    for key in 0..flights.capacity() {
        if let Some(flight) = flights.get(key) {
            if flight.number == number {
                return Some(key);
            }
        }
    }
    None
}

/// A number from the first on below which no message is in flight.
#[inline(always)]
fn lower_bound(
    flights: &Slab<Flight>,
    keys: &[usize; RECENT as usize],
    first: u64,
    next: u64,
) -> u64
    requires { first ≤ next }
    ensures { AreKept flights.now.slots next keys.now → AreFrom flights.now.slots next first → AreFrom flights.now.slots next result }
{
    if flights.is_empty() {
        return next;
    }
    let mut number = first;
    while number < next && is_known(number, next) {
        if key_of(flights, keys, number).is_some() {
            return number;
        }
        number += 1;
    }
    number
}

/// Whether a number is lower than the best so far.
#[inline(always)]
fn is_lower(number: u64, best: Option<u64>) -> bool
    ensures { result ≡ is_lower number best }
{
    match best {
        Some(lowest) => number < lowest,
        None => true,
    }
}

/// Puts a value under a vacant key, which it answers. (At the type `Flight` the call in it gets no proof.)
#[inline(always)]
fn put<T: Copy>(slab: &mut Slab<T>, value: T) -> usize
    requires { HasRoomFor slab.old 1 }
    ensures vacant { get slab.old result ≡ None }
    ensures updates { Updates slab.old slab.new result (Some value) }
    ensures count { slab_len slab.new ≡ slab_len slab.old + 1 }
    ensures capacity { slab.new.capacity ≡ slab.old.capacity }
{
    slab.insert_reserved(value)
}

/// The number that a message gets, beside those that are in flight.
#[inline(always)]
fn next_number(flights: &Slab<Flight>, next: u64) -> u64
    requires room { HasRoomFor flights.now 1 }
    requires below { AreBelow flights.now.slots next }
    ensures number { IsNextNumber (flight_at (in_order flights.now.slots)) next result }
    ensures next { next < 18446744073709551615 → result ≡ next }
{
    if next < u64::MAX {
        next
    } else {
        greatest_free(flights)
    }
}

/// The greatest number below the greatest u64 that no message in flight has.
#[inline(never)]
fn greatest_free(flights: &Slab<Flight>) -> u64
    requires { HasRoomFor flights.now 1 }
    ensures { IsNextNumber (flight_at (in_order flights.now.slots)) 18446744073709551615 result }
{
    // There is one: else there would be more messages than memory holds.
    let _capacity = flights.capacity();
    let mut number = u64::MAX - 1;
    while find_in_all(flights, number).is_some() {
        number -= 1;
    }
    number
}
