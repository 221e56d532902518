//! The steps among which chance chooses.
ghost use Rattle.std.specs.Prelude.{IfSome, true};
ghost use Rattle.words.specs.declared.entry.Step.TheVariants.{Core, Deliver};
ghost use Rattle.machine.specs.States.{geometry};
ghost use Rattle.machine.specs.Watch.{IsEnabledByRule};
ghost use Rattle.schedule.specs.Courses.{IsChosen};

use crate::choices::Choice;
use crate::step::named;
use machine::Machine;
use words::{BlockNo, HartId, Step};

/// A step, and the choice that it is.
#[derive(Clone, Copy, Debug)]
pub(crate) struct Picked {
    pub(crate) choice: Choice,
    pub(crate) step: Step,
}

/// Whether a message is in flight with a number, and can arrive.
#[inline(always)]
pub(crate) fn can_arrive<const SETS: usize, const WAYS: usize>(
    machine: &Machine<SETS, WAYS>,
    number: u64,
) -> bool
    ensures { IsEnabledByRule (geometry SETS WAYS) machine.now (Deliver number) result }
{
    match machine.peek_flight(number) {
        Some(_) => machine.is_enabled(Step::Deliver(number as usize)),
        None => false,
    }
}

/// A step of the core of a hart, which has one to make.
#[inline(always)]
pub(crate) fn step_of<const SETS: usize, const WAYS: usize>(
    machine: &Machine<SETS, WAYS>,
    hart: HartId,
) -> Picked
    requires { IsEnabledByRule (geometry SETS WAYS) machine.now (Core hart) true }
    ensures { IsChosen (geometry SETS WAYS) machine.now result.choice result.step }
{
    let _few = hart.index();
    let _harts = machine.harts();
    Picked {
        choice: Choice::Core(hart),
        step: Step::Core(hart),
    }
}

/// The arrival of the message with a number, which can arrive.
pub(crate) fn arrival<const SETS: usize, const WAYS: usize>(
    machine: &Machine<SETS, WAYS>,
    number: u64,
) -> Picked
    requires { IsEnabledByRule (geometry SETS WAYS) machine.now (Deliver number) true }
    ensures { IsChosen (geometry SETS WAYS) machine.now result.choice result.step }
{
    let name = named(machine, number).unwrap();
    Picked {
        choice: Choice::Deliver(name),
        step: Step::Deliver(number as usize),
    }
}

/// An eviction that is enabled, if any is: of the first block that a line can be given up of, from a place among the blocks in use on, and round; by the
/// first hart that can, from one on, and round.
pub(crate) fn find_eviction<const SETS: usize, const WAYS: usize>(
    machine: &Machine<SETS, WAYS>,
    first: usize,
    hart: usize,
) -> Option<Picked>
    ensures { IfSome result (λ p. IsChosen (geometry SETS WAYS) machine.now p.choice p.step) }
{
    match eviction_among(machine, first, usize::MAX, hart) {
        Some(picked) => Some(picked),
        None => eviction_among(machine, 0, first, hart),
    }
}

/// An eviction that is enabled, among the blocks in use from one place up to another.
fn eviction_among<const SETS: usize, const WAYS: usize>(
    machine: &Machine<SETS, WAYS>,
    from: usize,
    to: usize,
    hart: usize,
) -> Option<Picked>
    ensures { IfSome result (λ p. IsChosen (geometry SETS WAYS) machine.now p.choice p.step) }
{
    for (place, (number, _entry)) in machine.kept().iter().enumerate() {
        if from <= place && place < to {
            if let Some(picked) = eviction_of(machine, BlockNo::new(*number), hart) {
                return Some(picked);
            }
        }
    }
    None
}

/// An eviction of one block that is enabled.
fn eviction_of<const SETS: usize, const WAYS: usize>(
    machine: &Machine<SETS, WAYS>,
    block: BlockNo,
    hart: usize,
) -> Option<Picked>
    ensures { IfSome result (λ p. IsChosen (geometry SETS WAYS) machine.now p.choice p.step) }
{
    let harts = machine.harts();
    for offset in 0..harts {
        let id = HartId::new((hart.wrapping_add(offset) % harts) as u8);
        if let Some(picked) = eviction_by(machine, block, id) {
            return Some(picked);
        }
    }
    None
}

/// An eviction of one block by one hart, if it is enabled.
fn eviction_by<const SETS: usize, const WAYS: usize>(
    machine: &Machine<SETS, WAYS>,
    block: BlockNo,
    id: HartId,
) -> Option<Picked>
    ensures { IfSome result (λ p. IsChosen (geometry SETS WAYS) machine.now p.choice p.step) }
{
    machine.keeps();
    let _few = id.index();
    if !machine.is_enabled(Step::Evict(id, block)) {
        return None;
    }
    Some(Picked {
        choice: Choice::Evict(id, block),
        step: Step::Evict(id, block),
    })
}
