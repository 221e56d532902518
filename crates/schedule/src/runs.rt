ghost use Rattle.std.specs.Prelude.{ℕ, ◌≡◌, ◌≤◌, Option, Some, None, IsTrue, IfOk, OnErr, MatchOption, MatchResult};
ghost use Rattle.words.specs.declared.entry.Step.{Step as StepValue};
ghost use Rattle.machine.specs.States.{geometry};
ghost use Rattle.machine.specs.Turns.{IsQuiescent, hart_after};
ghost use Rattle.schedule.specs.Begun.{HasBegun};
ghost use Rattle.schedule.specs.Courses.{Behind, IsNoneNext, IsUnbegun, course, forgotten};
ghost use Rattle.schedule.specs.Observed.{MakesSeen, StopsAt, GoesSeen, GoesUnseen, MoreSeen, MoreUnseen, IsSeen, IsHalted};
ghost use Rattle.schedule.specs.Runs.{last_after};
ghost use Rattle.schedule.specs.Steps.{IsStepOf};

use crate::choices::Choice;
use crate::chooser::Chooser;
use crate::halt::{Halt, Unseen};
use crate::observer::Observer;
use machine::{Machine, PROGRESS_INTERVAL, Progress, Turned, hart_after};
use words::HartId;

/// Makes the step that is chosen, where the last core step was a hart's, enabled or not. It answers whose the last core step was then.
fn choose<const SETS: usize, const WAYS: usize, L, O: Observer<SETS, WAYS, L>>(
    machine: &mut Machine<SETS, WAYS>,
    choice: &Choice,
    last: HartId,
    observer: &O,
    log: &mut L,
) -> Result<HartId, Halt>
    ensures { MatchResult result
        (λ hart. (step : Option StepValue) × IsStepOf SETS machine.old last choice.now step
        × MakesSeen (O.saw observer.now) (geometry SETS WAYS) machine.old step machine.new log.old log.new × (hart ≡ last_after step last))
        (λ halt. (step : StepValue) × IsStepOf SETS machine.old last choice.now (Some step)
        × StopsAt (O.missed observer.now) (geometry SETS WAYS) machine.old step machine.new log.old log.new halt) }
{
    let Some(step) = choice.step(machine, last) else {
        return Ok(last);
    };
    observer.make(machine, step, false, log)?;
    Ok(hart_after(&step, last))
}

/// Makes the step that a chooser gives next, behind the last one. It answers how that left the machine; `None`, and nothing changes, where there is no
/// such step.
#[inline(always)]
fn go_on<
    const SETS: usize,
    const WAYS: usize,
    L,
    C: Chooser<SETS, WAYS>,
    O: Observer<SETS, WAYS, L>,
>(
    machine: &mut Machine<SETS, WAYS>,
    last: Turned,
    chooser: &mut C,
    observer: &O,
    log: &mut L,
) -> Result<Option<Turned>, Halt>
    requires { IsTrue last.quiescent → IsQuiescent SETS machine.old }
    ensures { MatchResult result
        (λ t. MatchOption t
        (IsNoneNext (geometry SETS WAYS) machine.old last.hart (C.behind chooser.old) × (C.behind chooser.new ≡ C.behind chooser.old)
        × (machine.new ≡ machine.old) × (log.new ≡ log.old))
        (λ next. (step : StepValue)
        × GoesSeen (O.saw observer.now) (geometry SETS WAYS) machine.old last.hart (C.behind chooser.old) step (C.behind chooser.new) machine.new log.old log.new
        × (next.hart ≡ hart_after step last.hart) × (IsTrue next.quiescent → IsQuiescent SETS machine.new)))
        (GoesUnseen (O.missed observer.now) (geometry SETS WAYS) machine.old last.hart (C.behind chooser.old) (C.behind chooser.new) machine.new log.old log.new) }
{
    let Turned { hart, quiescent } = last;
    let Some(step) = chooser.next(machine, last)? else {
        return Ok(None);
    };
    observer.make(machine, step, quiescent, log)?;
    Ok(Some(Turned {
        hart: hart_after(&step, hart),
        quiescent: chooser.takes_turns() && machine.is_quiescent(),
    }))
}

/// How far the choices of a list led.
#[derive(Clone, Copy)]
struct Begun {
    /// The hart of the last core step.
    hart: HartId,
    /// How many steps are left.
    left: u32,
    /// After how many steps progress is due.
    due: u32,
}

/// Makes the choices in order, so many steps at most: each is made, enabled or not, and counts as a step.
fn make_choices<const SETS: usize, const WAYS: usize, L, O: Observer<SETS, WAYS, L>, P: Progress>(
    machine: &mut Machine<SETS, WAYS>,
    choices: &[Choice],
    steps: u32,
    observer: &O,
    log: &mut L,
    progress: &mut P,
) -> Result<Begun, Halt>
    ensures { MatchResult result
        (λ begun. HasBegun (O.saw observer.now) (geometry SETS WAYS) choices.now steps machine.old machine.new begun.hart begun.left log.old log.new)
        (λ halt. (behind : Behind) → IsUnbegun behind →
        IsHalted (O.saw observer.now) (O.missed observer.now) (geometry SETS WAYS) (course choices.now (forgotten behind)) steps machine.old machine.new log.old log.new halt) }
{
    let mut hart = machine.last_hart();
    let mut left = steps;
    let mut due = PROGRESS_INTERVAL;
    for choice in choices {
        if left == 0 {
            break;
        }
        hart = choose(machine, choice, hart, observer, log)?;
        left -= 1;
        due = machine.note_progress(1, due, progress);
    }
    Ok(Begun { hart, left, due })
}

/// Makes the choices in order, so many steps at most: each is made, enabled or not, and counts as a step. Behind the last of them come the steps that
/// the chooser gives. An observer sees each moment before the next step, or those of turns that are taken at once behind the last of them. Progress is
/// told on the way.
///
/// If memory runs out, the machine and the log are left where the steps before led. If the observer can't tell of a moment, its step was made, and so
/// were the turns that were taken at once with it.
pub fn run<
    const SETS: usize,
    const WAYS: usize,
    L,
    C: Chooser<SETS, WAYS>,
    O: Observer<SETS, WAYS, L>,
    P: Progress,
>(
    machine: &mut Machine<SETS, WAYS>,
    choices: &[Choice],
    steps: u32,
    chooser: &mut C,
    observer: &O,
    log: &mut L,
    progress: &mut P,
) -> Result<(), Halt>
    requires { IsUnbegun (C.behind chooser.old) }
    ensures { MatchResult result
        (λ _. IsSeen (O.saw observer.now) (geometry SETS WAYS) (course choices.now (C.behind chooser.new)) steps machine.old machine.new log.old log.new)
        (IsHalted (O.saw observer.now) (O.missed observer.now) (geometry SETS WAYS) (course choices.now (forgotten (C.behind chooser.new)))
        steps machine.old machine.new log.old log.new) }
{
    let begun = make_choices(machine, choices, steps, observer, log, progress)?;
    let mut last = Turned {
        hart: begun.hart,
        quiescent: false,
    };
    let mut left = begun.left;
    let mut due = begun.due;
    while left > 0 {
        let Some(next) = go_on(machine, last, chooser, observer, log)? else {
            return Ok(());
        };
        left -= 1;
        let (taken, behind) = take_turns(machine, next, left.min(due), chooser, observer, log)?;
        left -= taken;
        last = behind;
        due = machine.note_progress(1 + taken, due, progress);
    }
    Ok(())
}

/// Takes turns quickly behind a step, so many at most, where it is turns that come next.
#[inline(always)]
fn take_turns<
    const SETS: usize,
    const WAYS: usize,
    L,
    C: Chooser<SETS, WAYS>,
    O: Observer<SETS, WAYS, L>,
>(
    machine: &mut Machine<SETS, WAYS>,
    last: Turned,
    most: u32,
    chooser: &C,
    observer: &O,
    log: &mut L,
) -> Result<(u32, Turned), Unseen>
    requires { IsTrue last.quiescent → IsQuiescent SETS machine.old }
    ensures turns { IfOk result (λ taken. MoreSeen (O.saw observer.now) (geometry SETS WAYS) (C.behind chooser.now) machine.old last.hart taken.0 machine.new taken.1.hart log.old log.new) }
    ensures most { IfOk result (λ taken. taken.0 ≤ most) }
    ensures quiescent { IfOk result (λ taken. IsTrue taken.1.quiescent → IsQuiescent SETS machine.new) }
    ensures missed { OnErr result (MoreUnseen (O.missed observer.now) (geometry SETS WAYS) (C.behind chooser.now) machine.old last.hart most machine.new log.old log.new) }
{
    if chooser.takes_turns() {
        observer.take_turns(machine, last, most, log)
    } else {
        Ok((0, last))
    }
}
