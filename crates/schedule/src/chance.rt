//! Steps that are chosen by chance, by a seed.
ghost use Rattle.std.specs.Prelude.{◌≡◌, ◌<◌, [], ℕ, Some, None, false, true, IfOk, IfSome, IfNone};
ghost use Rattle.words.specs.declared.entry.Step.TheVariants.{Core, Deliver};
ghost use Rattle.machine.specs.States.{geometry, setting_of};
ghost use Rattle.machine.specs.Watch.{IsEnabledByRule};
ghost use Rattle.schedule.specs.Courses.{IsAtRest, IsChosen};
ghost use Rattle.schedule.specs.Courses.Behind.{Chance as ByChance};

use crate::choices::Choice;
use crate::chooser::Chooser;
use crate::enabled::{Picked, arrival, can_arrive, find_eviction, step_of};
use crate::history::History;
use machine::{Machine, Turned};
use rand_core::SeedableRng;
use rand_core::utils::NextWord;
use rand_pcg::Pcg32;
use std::alloc::{AllocError, Global};
use std::marker::Model;
use words::{HARTS, HartId, Step};

/// The weights by which chance draws what comes next: a step of a core, the arrival of a message, or an eviction. Where nothing of what it draws is
/// enabled, it is another's turn.
#[derive(Clone, Copy, Debug, PartialEq, Eq)]
pub struct Mix {
    pub cores: u32,
    pub arrivals: u32,
    pub evictions: u32,
}

/// What was drawn, where it isn't a core's step that can be made.
#[derive(Clone, Copy)]
enum Other {
    Arrival,
    Eviction,
}

/// Chooses steps by chance, each among those that are enabled: of the harts whose cores have a step to make, of the messages in flight that aren't held,
/// now and then of the lines that can be evicted. It ends where no core has a step to make and no message can arrive. By one seed it chooses the same
/// steps of the same machine on every host.
#[derive(Drop)]
pub struct Chance {
    generator: Pcg32,
    mix: Mix,
}

/// What is left of a number where it is divided by one that isn't 0.
#[inline(always)]
fn remainder(number: usize, by: usize) -> usize {
    if by <= 1 { 0 } else { number % by }
}

impl Chance {
    /// Chance by a seed.
    pub fn new(seed: u64, mix: Mix) -> Self {
        Chance {
            generator: Pcg32::seed_from_u64(seed),
            mix,
        }
    }

    /// A number below 2^32, each as likely.
    #[inline(always)]
    fn word(&mut self) -> usize
        ensures { result < 4294967296 }
    {
        self.generator.next_word() as usize
    }

    /// The same, or one below 2^64, where that is needed for each of so many to be about as likely, and for each hart beside.
    #[inline(always)]
    fn word_for(&mut self, bound: usize) -> usize {
        if bound <= 65_536 {
            self.word()
        } else {
            self.word() * 4_294_967_296 + self.word()
        }
    }

    /// A number below a bound, or 0 if that is 0. Nothing is drawn where there is one such number at most.
    #[inline(always)]
    fn below(&mut self, bound: usize) -> usize
        ensures { 0 < bound → result < bound }
    {
        if bound <= 1 {
            return 0;
        }
        self.word() % bound
    }

    /// A hart whose core has a step to make: the one that a number names, or else one that is drawn.
    #[inline(always)]
    fn draw_hart<const SETS: usize, const WAYS: usize>(
        &mut self,
        machine: &Machine<SETS, WAYS>,
        number: usize,
    ) -> Option<HartId>
        ensures some { IfSome result (λ hart. IsEnabledByRule (geometry SETS WAYS) machine.now (Core hart) true) }
        ensures none { IfNone result ((i : ℕ) → i < (setting_of machine.now).count → IsEnabledByRule (geometry SETS WAYS) machine.now (Core i) false) }
    {
        let hart = HartId::new((number % HARTS) as u8);
        if machine.is_enabled(Step::Core(hart)) {
            return Some(hart);
        }
        self.draw_ready(machine)
    }

    /// The same, where the hart with that number has none. All that have are as likely.
    #[inline(never)]
    fn draw_ready<const SETS: usize, const WAYS: usize>(
        &mut self,
        machine: &Machine<SETS, WAYS>,
    ) -> Option<HartId>
        ensures some { IfSome result (λ hart. IsEnabledByRule (geometry SETS WAYS) machine.now (Core hart) true) }
        ensures none { IfNone result ((i : ℕ) → i < (setting_of machine.now).count → IsEnabledByRule (geometry SETS WAYS) machine.now (Core i) false) }
    {
        let mut drawn = None;
        let mut ready = 0;
        for number in 0..machine.harts() {
            let hart = HartId::new(number as u8);
            if machine.is_enabled(Step::Core(hart)) {
                ready += 1;
                if self.below(ready) == 0 {
                    drawn = Some(hart);
                }
            }
        }
        drawn
    }

    /// A core's step.
    #[inline(always)]
    fn draw_core<const SETS: usize, const WAYS: usize>(
        &mut self,
        machine: &Machine<SETS, WAYS>,
    ) -> Option<Picked>
        ensures some { IfSome result (λ p. IsChosen (geometry SETS WAYS) machine.now p.choice p.step) }
        ensures none { IfNone result ((i : ℕ) → i < (setting_of machine.now).count → IsEnabledByRule (geometry SETS WAYS) machine.now (Core i) false) }
    {
        let number = self.below(machine.harts());
        match self.draw_hart(machine, number) {
            Some(hart) => Some(step_of(machine, hart)),
            None => None,
        }
    }

    /// The number of a message that can arrive. All that can are as likely. Mostly one message is in flight, which was sent last.
    #[inline(always)]
    fn draw_number<const SETS: usize, const WAYS: usize>(
        &mut self,
        machine: &Machine<SETS, WAYS>,
    ) -> Option<u64>
        ensures some { IfSome result (λ number. IsEnabledByRule (geometry SETS WAYS) machine.now (Deliver number) true) }
        ensures none { IfNone result ((number : ℕ) → IsEnabledByRule (geometry SETS WAYS) machine.now (Deliver number) false) }
    {
        let in_flight = machine.in_flight();
        if in_flight == 0 {
            return None;
        }
        if in_flight == 1 {
            if let Some(number) = machine.newest() {
                if can_arrive(machine, number) {
                    return Some(number);
                }
            }
        }
        self.draw_arriving(machine)
    }

    /// The same, by a look at all messages in flight, in the order of sending.
    #[inline(never)]
    fn draw_arriving<const SETS: usize, const WAYS: usize>(
        &mut self,
        machine: &Machine<SETS, WAYS>,
    ) -> Option<u64>
        ensures some { IfSome result (λ number. IsEnabledByRule (geometry SETS WAYS) machine.now (Deliver number) true) }
        ensures none { IfNone result ((number : ℕ) → IsEnabledByRule (geometry SETS WAYS) machine.now (Deliver number) false) }
    {
        machine.are_in_order();
        let _next = machine.sent();
        let mut drawn = None;
        let mut arriving = 0;
        let mut number = 0;
        while let Some(flight) = machine.next_from(number) {
            if machine.is_enabled(Step::Deliver(flight.number as usize)) {
                arriving += 1;
                if self.below(arriving) == 0 {
                    drawn = Some(flight.number);
                }
            }
            number = flight.number + 1;
        }
        drawn
    }

    /// A message's arrival.
    #[inline(always)]
    fn draw_arrival<const SETS: usize, const WAYS: usize>(
        &mut self,
        machine: &Machine<SETS, WAYS>,
    ) -> Option<Picked>
        ensures some { IfSome result (λ p. IsChosen (geometry SETS WAYS) machine.now p.choice p.step) }
        ensures none { IfNone result ((number : ℕ) → IsEnabledByRule (geometry SETS WAYS) machine.now (Deliver number) false) }
    {
        match self.draw_number(machine) {
            Some(number) => Some(arrival(machine, number)),
            None => None,
        }
    }

    /// A message's arrival. If none can arrive, it is a core's step.
    #[inline(always)]
    fn draw_arrival_or_core<const SETS: usize, const WAYS: usize>(
        &mut self,
        machine: &Machine<SETS, WAYS>,
    ) -> Option<Picked>
        ensures some { IfSome result (λ p. IsChosen (geometry SETS WAYS) machine.now p.choice p.step) }
        ensures none { IfNone result (IsAtRest (geometry SETS WAYS) machine.now) }
    {
        match self.draw_arrival(machine) {
            Some(picked) => Some(picked),
            None => self.draw_core(machine),
        }
    }

    /// A core's step, or a message's arrival, which are drawn by their weights. If nothing of what is drawn is enabled, it is the other.
    #[inline(always)]
    fn draw_step<const SETS: usize, const WAYS: usize>(
        &mut self,
        machine: &Machine<SETS, WAYS>,
    ) -> Option<Picked>
        ensures some { IfSome result (λ p. IsChosen (geometry SETS WAYS) machine.now p.choice p.step) }
        ensures none { IfNone result (IsAtRest (geometry SETS WAYS) machine.now) }
    {
        let (cores, arrivals) = (self.mix.cores as usize, self.mix.arrivals as usize);
        if self.below(cores + arrivals) < cores {
            match self.draw_core(machine) {
                Some(picked) => Some(picked),
                None => self.draw_arrival(machine),
            }
        } else {
            self.draw_arrival_or_core(machine)
        }
    }

    /// An eviction, where a line can be given up, unless the machine is at rest. It goes through the blocks in use from one on that is drawn, and through
    /// the harts from one on. Where no line can be given up, it is a core's step or an arrival.
    #[inline(never)]
    fn draw_eviction<const SETS: usize, const WAYS: usize>(
        &mut self,
        machine: &Machine<SETS, WAYS>,
    ) -> Option<Picked>
        ensures some { IfSome result (λ p. IsChosen (geometry SETS WAYS) machine.now p.choice p.step) }
        ensures none { IfNone result (IsAtRest (geometry SETS WAYS) machine.now) }
    {
        let step = self.draw_step(machine)?;
        let first = self.below(machine.used());
        let hart = self.below(machine.harts());
        match find_eviction(machine, first, hart) {
            Some(eviction) => Some(eviction),
            None => Some(step),
        }
    }

    /// Draws by the weights. Where it is a core's step, and a hart has one to make, it answers that hart. Else it answers what [`Chance::draw_other`] goes on by.
    /// One number tells both: what is left of it, divided by the weights, names the hart.
    #[inline(always)]
    fn draw<const SETS: usize, const WAYS: usize>(
        &mut self,
        machine: &Machine<SETS, WAYS>,
    ) -> Result<HartId, Other>
        ensures { IfOk result (λ hart. IsEnabledByRule (geometry SETS WAYS) machine.now (Core hart) true) }
    {
        let (cores, evictions) = (self.mix.cores as usize, self.mix.evictions as usize);
        let none_in_flight = machine.in_flight() == 0;
        let number = if evictions > 0 || !none_in_flight {
            let weights = (evictions + cores + self.mix.arrivals as usize).max(1);
            let word = self.word_for(weights);
            let drawn = word % weights;
            if drawn < evictions {
                return Err(Other::Eviction);
            }
            if drawn >= evictions + cores && !none_in_flight {
                return Err(Other::Arrival);
            }
            remainder(word / weights, machine.harts())
        } else {
            self.below(machine.harts())
        };
        match self.draw_hart(machine, number) {
            Some(hart) => Ok(hart),
            None => Err(Other::Arrival),
        }
    }

    /// What comes next, where it isn't the core's step that was drawn at once. `None` where no core has a step to make, and no message can arrive.
    #[inline(never)]
    fn draw_other<const SETS: usize, const WAYS: usize>(
        &mut self,
        machine: &Machine<SETS, WAYS>,
        other: Other,
    ) -> Option<Picked>
        ensures some { IfSome result (λ p. IsChosen (geometry SETS WAYS) machine.now p.choice p.step) }
        ensures none { IfNone result (IsAtRest (geometry SETS WAYS) machine.now) }
    {
        match other {
            Other::Eviction => self.draw_eviction(machine),
            Other::Arrival => self.draw_arrival_or_core(machine),
        }
    }
}

impl<const SETS: usize, const WAYS: usize> Chooser<SETS, WAYS> for Chance {
    ghost behind = { λ _. ByChance None };

    #[inline(always)]
    fn takes_turns(&self) -> bool {
        false
    }

    #[inline(always)]
    fn next(
        &mut self,
        machine: &Machine<SETS, WAYS>,
        _last: Turned,
    ) -> Result<Option<Step>, AllocError> {
        match self.draw(machine) {
            Ok(hart) => Ok(Some(step_of(machine, hart).step)),
            Err(other) => match self.draw_other(machine, other) {
                Some(picked) => Ok(Some(picked.step)),
                None => Ok(None),
            },
        }
    }
}

/// Chance that keeps what it chooses in a history.
#[derive(Drop)]
pub struct KeptChance {
    chance: Chance,
    history: History,
}

impl Model for KeptChance {
    ghost use Rattle.std.specs.Prelude.{List};
    ghost use Rattle.schedule.specs.declared.choices.Choice.{Choice as ChoiceValue};

    // The choices so far.
    ghost Value = { List ChoiceValue };

    ghost view = { λ k. k.history.choices };
}

impl KeptChance {
    /// Chance of which nothing was asked yet.
    pub fn new(alloc: Global, chance: Chance) -> Self
        ensures { result ≡ [] }
    {
        KeptChance {
            chance,
            history: History::new(alloc),
        }
    }

    /// What was chosen so far.
    pub fn history(&self) -> &History
        ensures { result.now.choices ≡ self.now }
    {
        &self.history
    }
}

impl<const SETS: usize, const WAYS: usize> Chooser<SETS, WAYS> for KeptChance {
    ghost behind = { λ kept. ByChance (Some kept) };

    #[inline(always)]
    fn takes_turns(&self) -> bool {
        false
    }

    #[inline(always)]
    fn next(
        &mut self,
        machine: &Machine<SETS, WAYS>,
        _last: Turned,
    ) -> Result<Option<Step>, AllocError> {
        self.history.make_room()?;
        let drawn = match self.chance.draw(machine) {
            Ok(hart) => Some(step_of(machine, hart)),
            Err(other) => self.chance.draw_other(machine, other),
        };
        let Some(picked) = drawn else {
            return Ok(None);
        };
        self.history.note(picked.choice, 1);
        Ok(Some(picked.step))
    }
}
