ghost use Rattle.std.specs.Prelude.{◌≡◌, ◌≤◌, ◌<◌, ◌+◌, ◌*◌, ℕ, length, get_or, max, count_by};
ghost use Rattle.watch.specs.Kinds.{one_if};
ghost use Rattle.watch.specs.Traffic.{AddsSent, Rises, capped, figure_at, is_same, nothing, served_as, sum_at, sum_in, sum_of_step, sum_with, told, was_sent};
ghost use Rattle.watch.specs.declared.figures.Figure.{Figure as FigureValue};
ghost use Rattle.watch.specs.declared.figures.Sum.{Sum as SumValue};
ghost use Rattle.watch.specs.declared.figures.Sum.TheVariants.{Cores, Deliveries, Sent};
ghost use Rattle.schedule.specs.declared.choices.Sort.TheVariants.{Get};

use crate::figures::{Figure, Sum};
use machine::{Machine, Service};
use schedule::Sort;
use std::marker::Model;
use words::Step;

/// How many sums there are.
const SUMS: usize = 11;

/// Once so many steps were noted, what was noted is put into the sums.
const MANY_STEPS: u64 = 1 << 63;

/// Once so many requests were noted that were served, likewise.
const MANY_SERVED: u32 = 1 << 31;

/// What is told of the machine of a run.
#[derive(Clone, Copy)]
pub struct Traffic {
    sums: [u64; SUMS],
    pending: Pending,
    most_in_flight: usize,
    most_in_use: usize,
}

impl Traffic {
    /// Nothing has happened.
    pub fn new() -> Self
        ensures { (f : FigureValue) → figure_at result f ≡ 0 }
    {
        Traffic {
            sums: zeros(),
            pending: Pending::none(),
            most_in_flight: 0,
            most_in_use: 0,
        }
    }

    /// What is told of the machine.
    pub fn figure(&self, figure: Figure) -> u64
        ensures { result ≡ figure_at self.now figure }
    {
        match figure {
            Figure::Sum(sum) => self.pending.sum(&self.sums, sum),
            Figure::MostInFlight => self.most_in_flight as u64,
            Figure::MostInUse => self.most_in_use as u64,
        }
    }

    /// Counts so many more, up to the greatest u64.
    #[inline(always)]
    fn add(&mut self, sum: Sum, number: u64)
        ensures added { (s : SumValue) → sum_at self.new s ≡ capped (sum_at self.old s + number * one_if (is_same s sum)) }
        ensures rest { self.new ≡ record self.old { sums = self.new.sums } }
    {
        add(&mut self.sums, sum, number);
    }

    /// Notes how many messages are in flight.
    #[inline(always)]
    fn note_in_flight(&mut self, flying: usize)
        ensures { self.new ≡ record self.old { most_in_flight = max self.old.most_in_flight flying } }
    {
        if flying > self.most_in_flight {
            self.most_in_flight = flying;
        }
    }

    /// Notes how many entries of the directory are in use.
    #[inline(always)]
    fn note_in_use(&mut self, used: usize)
        ensures { self.new ≡ record self.old { most_in_use = max self.old.most_in_use used } }
    {
        if used > self.most_in_use {
            self.most_in_use = used;
        }
    }

    /// Counts the messages that were sent after so many had been, and answers how many are in flight.
    #[inline(always)]
    fn add_sent<const SETS: usize, const WAYS: usize>(
        &mut self,
        sent: u64,
        machine: &Machine<SETS, WAYS>,
    ) -> usize
        ensures added { AddsSent sent machine.now.flights self.old self.new }
        ensures rest { self.new ≡ record self.old { sums = self.new.sums } }
        ensures flying { result ≡ length machine.now.flights }
    {
        let next = machine.sent();
        if next < u64::MAX {
            // Where nothing was sent, each has a lower number.
            machine.are_in_order();
            if next == sent {
                return machine.in_flight();
            }
            if next == sent.saturating_add(1) {
                self.add_newest(sent, machine);
                return machine.in_flight();
            }
        }
        self.add_all(sent, machine)
    }

    /// Counts the message that a step sent, where it sent one.
    #[inline(always)]
    fn add_newest<const SETS: usize, const WAYS: usize>(
        &mut self,
        sent: u64,
        machine: &Machine<SETS, WAYS>,
    )
        requires range { machine.now.sent < 18446744073709551615 }
        requires one { machine.now.sent ≡ sent + 1 }
        ensures added { AddsSent sent machine.now.flights self.old self.new }
        ensures rest { self.new ≡ record self.old { sums = self.new.sums } }
    {
        machine.are_in_order();
        if let Some(number) = machine.newest() {
            if let Some(flight) = machine.peek_flight(number) {
                self.add(Sum::of_message(&flight.message), 1);
            }
        }
    }

    /// Counts the messages that a step sent, by a look at each of them, in the order of sending.
    #[inline(never)]
    fn add_all<const SETS: usize, const WAYS: usize>(
        &mut self,
        sent: u64,
        machine: &Machine<SETS, WAYS>,
    ) -> usize
        ensures added { AddsSent sent machine.now.flights self.old self.new }
        ensures rest { self.new ≡ record self.old { sums = self.new.sums } }
        ensures flying { result ≡ length machine.now.flights }
    {
        machine.are_in_order();
        let _next = machine.sent();
        let mut number = sent;
        while let Some(flight) = machine.next_from(number) {
            self.add(Sum::of_message(&flight.message), 1);
            number = flight.number + 1;
        }
        machine.in_flight()
    }

    /// Counts what a step did, before which so many messages had been sent.
    #[inline(always)]
    pub(crate) fn note<const SETS: usize, const WAYS: usize>(
        &mut self,
        sent: u64,
        step: &Step,
        machine: &Machine<SETS, WAYS>,
    )
        ensures sums { (s : SumValue) → Rises (sum_at self.old s) (one_if (is_same s (sum_of_step step.now)) + count_by (was_sent sent s) machine.now.flights) (sum_at self.new s) }
        ensures most_in_flight { self.new.most_in_flight ≡ max self.old.most_in_flight (length machine.now.flights) }
        ensures most_in_use { self.new.most_in_use ≡ max self.old.most_in_use (length machine.now.directory.kept) }
    {
        self.add(Sum::of_step(step), 1);
        let flying = self.add_sent(sent, machine);
        self.note_in_flight(flying);
        self.note_in_use(machine.used());
    }

    /// Counts the messages of a request that was served at once, how many of them were in flight at most, and how many entries of the directory were in use
    /// while it was served and behind it.
    #[inline(always)]
    pub(crate) fn note_served<const SETS: usize, const WAYS: usize>(
        &mut self,
        service: &Service,
        machine: &Machine<SETS, WAYS>,
    )
        requires { service.now.refusals ≤ service.now.answers }
        ensures sums { (s : SumValue) → sum_at self.new s ≡ capped (sum_at self.old s + served_as s service.now) }
        ensures most_in_flight { self.new.most_in_flight ≡ max self.old.most_in_flight (1 + service.now.answers) }
        ensures most_in_use { self.new.most_in_use ≡ max (max self.old.most_in_use service.now.used) (length machine.now.directory.kept) }
    {
        self.pending.note_served(service, &mut self.sums);
        self.note_in_flight(1 + service.answers as usize);
        self.note_in_use(service.used.max(machine.used()));
    }

    /// Counts so many steps of cores that sent nothing while nothing was in flight, with so many entries of the directory in use behind each.
    #[inline(always)]
    pub(crate) fn note_plain(&mut self, turns: u32, used: usize)
        ensures sums { (s : SumValue) → sum_at self.new s ≡ capped (sum_at self.old s + turns * one_if (is_same s Cores)) }
        ensures most_in_flight { self.new.most_in_flight ≡ self.old.most_in_flight }
        ensures most_in_use { self.new.most_in_use ≡ max self.old.most_in_use used }
    {
        self.pending.note_cores(turns, &mut self.sums);
        self.note_in_use(used);
    }

    /// Counts a step of a core that sent a request while nothing was in flight, with so many entries of the directory in use behind it.
    #[inline(always)]
    pub(crate) fn note_request(&mut self, used: usize)
        ensures sums { (s : SumValue) → sum_at self.new s ≡ capped (sum_at self.old s + (one_if (is_same s Cores) + one_if (is_same s (Sent Get)))) }
        ensures most_in_flight { self.new.most_in_flight ≡ max self.old.most_in_flight 1 }
        ensures most_in_use { self.new.most_in_use ≡ max self.old.most_in_use used }
    {
        self.pending.note_request(&mut self.sums);
        self.note_in_flight(1);
        self.note_in_use(used);
    }
}

/// What was noted of steps that were made in a row.
#[derive(Clone, Copy)]
struct Noted {
    /// Steps of cores that sent nothing.
    cores: u64,
    /// Steps of cores that sent a request.
    requests: u64,
    /// Requests that were served at once.
    served: u32,
    /// Answers of the harts that these were forwarded to.
    answers: u64,
    /// How many of the answers were refusals.
    refusals: u64,
    /// Messages that told the directory that a request had ended.
    ended: u64,
}

impl Noted {
    /// Nothing was noted.
    fn none() -> Self
        ensures { result ≡ nothing }
    {
        Noted {
            cores: 0,
            requests: 0,
            served: 0,
            answers: 0,
            refusals: 0,
            ended: 0,
        }
    }
}

/// What was noted and isn't in the sums yet. It is so little that the steps of one more call can be noted, each number by one plain addition.
#[derive(Clone, Copy)]
struct Pending {
    noted: Noted,
}

impl Model for Pending {
    ghost use Rattle.std.specs.Prelude.{◌<◌, ◌≤◌, ◌*◌, ◌^◌};
    ghost use Rattle.watch.specs.declared.traffic.Noted.{Noted};

    ghost Value = { Noted };

    ghost view = { λ p. p.noted };

    ghost invariant = { λ p. (p.noted.cores < 2 ^ 63) × (p.noted.requests < 2 ^ 63) × (p.noted.served < 2 ^ 31)
        × (p.noted.answers ≤ p.noted.served * 2 ^ 32) × (p.noted.refusals ≤ p.noted.answers) × (p.noted.ended ≤ p.noted.served * 2 ^ 32) };

    ghost inverse = { λ n. record { noted = n } };
}

impl Pending {
    /// Nothing is pending.
    fn none() -> Self
        ensures { (s : SumValue) → told s result ≡ 0 }
    {
        Pending {
            noted: Noted::none(),
        }
    }

    /// A sum with what is pending.
    fn sum(&self, sums: &[u64; SUMS], sum: Sum) -> u64
        ensures { result ≡ sum_with self.now sums.now sum }
    {
        let mut noted = self.noted;
        let mut sums = *sums;
        settle(&mut noted, &mut sums);
        sums[sum.place()]
    }

    /// Notes so many steps of cores that sent nothing.
    #[inline(always)]
    fn note_cores(&mut self, turns: u32, sums: &mut [u64; SUMS])
        ensures { (s : SumValue) → sum_with self.new sums.new s ≡ capped (sum_with self.old sums.old s + turns * one_if (is_same s Cores)) }
    {
        self.noted.cores += u64::from(turns);
        if self.noted.cores >= MANY_STEPS {
            settle(&mut self.noted, sums);
        }
    }

    /// Notes a step of a core that sent a request.
    #[inline(always)]
    fn note_request(&mut self, sums: &mut [u64; SUMS])
        ensures { (s : SumValue) → sum_with self.new sums.new s ≡ capped (sum_with self.old sums.old s + (one_if (is_same s Cores) + one_if (is_same s (Sent Get)))) }
    {
        self.noted.requests += 1;
        if self.noted.requests >= MANY_STEPS {
            settle(&mut self.noted, sums);
        }
    }

    /// Notes the messages of a request that was served at once.
    #[inline(always)]
    fn note_served(&mut self, service: &Service, sums: &mut [u64; SUMS])
        requires { service.now.refusals ≤ service.now.answers }
        ensures { (s : SumValue) → sum_with self.new sums.new s ≡ capped (sum_with self.old sums.old s + served_as s service.now) }
    {
        self.noted.answers += u64::from(service.answers);
        self.noted.refusals += u64::from(service.refusals);
        self.noted.ended += u64::from(service.ended);
        self.noted.served += 1;
        if self.noted.served >= MANY_SERVED {
            settle(&mut self.noted, sums);
        }
    }
}

/// Puts what was noted into the sums, and forgets it.
#[inline(never)]
fn settle(noted: &mut Noted, sums: &mut [u64; SUMS])
    requires { noted.old.refusals ≤ noted.old.answers }
    ensures sums { (s : SumValue) → sum_in sums.new s ≡ capped (sum_in sums.old s + told s noted.old) }
    ensures none { noted.new ≡ nothing }
{
    let served = u64::from(noted.served);
    add(sums, Sum::Cores, noted.cores);
    add(sums, Sum::Cores, noted.requests);
    add(sums, Sum::Sent(Sort::Get), noted.requests);
    // The requests that were served arrived. What was sent to serve them arrived too.
    add(sums, Sum::Deliveries, served);
    add_arrived(sums, Sort::Grant, served);
    add_arrived(sums, Sort::Forward, noted.answers);
    add_arrived(sums, Sort::Ack, noted.answers - noted.refusals);
    add_arrived(sums, Sort::Nack, noted.refusals);
    add_arrived(sums, Sort::Done, noted.ended);
    *noted = Noted::none();
}

/// Counts so many messages of a sort that were sent and have arrived.
#[inline(always)]
fn add_arrived(sums: &mut [u64; SUMS], sort: Sort, number: u64)
    ensures { (s : SumValue) → sum_in sums.new s ≡ capped (sum_in sums.old s + number * (one_if (is_same s (Sent sort)) + one_if (is_same s Deliveries))) }
{
    add(sums, Sum::Sent(sort), number);
    add(sums, Sum::Deliveries, number);
}

/// Counts so many more, up to the greatest u64.
#[inline(always)]
fn add(sums: &mut [u64; SUMS], sum: Sum, number: u64)
    ensures { (s : SumValue) → sum_in sums.new s ≡ capped (sum_in sums.old s + number * one_if (is_same s sum)) }
{
    let place = sum.place();
    sums[place] = sums[place].saturating_add(number);
}

fn zeros() -> [u64; SUMS]
    ensures { (p : ℕ) → get_or result p 0 ≡ 0 }
{
    [0; SUMS]
}
