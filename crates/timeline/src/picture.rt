ghost use Rattle.std.specs.Prelude.{◌≡◌, ◌≤◌, ◌+◌, ◌++◌, [], ◌∷◌, MatchResult, IfOk, OnErr, IsErr, Ok, vec_len, vec_capacity};
ghost use Rattle.machine.specs.States.{geometry};
ghost use Rattle.schedule.specs.declared.halt.Halt.TheVariants.{Untold};
ghost use Rattle.schedule.specs.Courses.{IsUnbegun, course, forgotten};
ghost use Rattle.timeline.specs.Pictures.{IsNoted, IsCut, IsPictured, IsNotPictured};
ghost use Rattle.timeline.specs.Notes.{NotesRows, IsFull};

use crate::drawing::put_drawing;
use crate::edge::edge_at;
use crate::row::Row;
use machine::{Machine, Silent};
use network::Flight;
use schedule::{Choice, Chooser, Halt, Observer, Unseen, run};
use std::alloc::{AllocError, Global};
use words::{Entry, Sink, SinkFault, Step};

/// Notes steps as rows.
#[derive(Clone, Copy, Debug)]
struct Noter;

impl<const SETS: usize, const WAYS: usize> Observer<SETS, WAYS, Vec<Row>> for Noter {
    ghost saw = { λ _ before rows after. NotesRows SETS before rows after };

    ghost missed = { λ _ before rows after. IsFull before rows after };

    fn note(
        &self,
        sent: u64,
        step: &Step,
        arrival: &Option<Flight>,
        entry: &Option<Entry>,
        machine: &Machine<SETS, WAYS>,
        rows: &mut Vec<Row>,
    ) -> Result<(), Unseen> {
        let row = Row {
            number: rows.len(),
            sent,
            sent_behind: machine.sent(),
            step: *step,
            arrival: *arrival,
            entry: *entry,
            edge: edge_at(entry, machine),
        };
        match rows.push(row) {
            Ok(()) => Ok(()),
            Err(_) => Err(Unseen),
        }
    }
}

/// The choices in order, so many at most, and behind the last of them the steps that a chooser gives, as rows. Room for all rows is taken before the
/// first step.
fn noted<const SETS: usize, const WAYS: usize, C: Chooser<SETS, WAYS>>(
    alloc: Global,
    machine: &mut Machine<SETS, WAYS>,
    choices: &[Choice],
    steps: u32,
    chooser: &mut C,
) -> Result<Vec<Row>, AllocError>
    requires { IsUnbegun (C.behind chooser.old) }
    ensures ok { IfOk result (λ rows. IsNoted (geometry SETS WAYS) (course choices.now (C.behind chooser.new)) steps machine.old machine.new rows.items) }
    ensures err { OnErr result (IsCut (geometry SETS WAYS) (course choices.now (forgotten (C.behind chooser.new))) steps machine.old machine.new) }
{
    let mut rows = Vec::with_capacity(alloc, steps as usize)?;
    match run(
        machine,
        choices,
        steps,
        chooser,
        &Noter,
        &mut rows,
        &mut Silent,
    ) {
        Ok(()) => Ok(rows),
        Err(Halt::NoMemory) => Err(AllocError),
        Err(Halt::Untold) => unreachable!(),
    }
}

/// The choices in order, so many at most, and behind the last of them the steps that a chooser gives, as [`schedule::run`] makes them. Their picture
/// is put behind the last step.
///
/// If memory runs out, the machine is left where the steps before led, and nothing is put. If a put fails, all steps were made, and a beginning
/// of the picture was taken.
pub fn put_picture<const SETS: usize, const WAYS: usize, C: Chooser<SETS, WAYS>, S: Sink>(
    alloc: Global,
    machine: &mut Machine<SETS, WAYS>,
    choices: &[Choice],
    steps: u32,
    chooser: &mut C,
    sink: &mut S,
) -> Result<(), Halt>
    requires { IsUnbegun (C.behind chooser.old) }
    ensures { MatchResult result
        (λ _. IsPictured (geometry SETS WAYS) (course choices.now (C.behind chooser.new)) steps machine.old machine.new (S.state sink.old) (S.state sink.new))
        (IsNotPictured (geometry SETS WAYS) (course choices.now (forgotten (C.behind chooser.new))) steps machine.old machine.new
        (S.state sink.old) (S.state sink.new)) }
{
    let harts = machine.harts();
    let rows = noted(alloc, machine, choices, steps, chooser)?;
    match put_drawing(sink, harts, &rows) {
        Ok(()) => Ok(()),
        Err(SinkFault) => Err(Halt::Untold),
    }
}
