ghost use Rattle.std.specs.Prelude.{◌≡◌, ◌↔◌, ◌<◌, ◌≤◌, ◌+◌, ◌*◌, [], length, IfOk, OnOk, OnErr, IsTrue, MatchResult};
ghost use Rattle.words.specs.Sinks.{TookAll, TookPart};
ghost use Rattle.machine.specs.States.{geometry};
ghost use Rattle.machine.specs.Turns.{IsQuiescent};
ghost use Rattle.schedule.specs.Courses.{IsUnbegun, course, forgotten};
ghost use Rattle.watch.specs.Rows.{AddsLine, AddsTurns, CutsTurns, PutsTurns};
ghost use Rattle.watch.specs.Traces.{line_if, trace_of, IsTraced, IsCut};

use disassembler::Symbols;
use machine::{Listener, Machine, Progress, TRACED, Turned, hart_after};
use network::Flight;
use render::{ENTRY_BYTES, EntryLines, put_entry};
use schedule::{Choice, Chooser, Halt, Observer, Unseen, run};
use texts::{Line, put_all};
use words::{Entry, HartId, Sink, SinkFault, Step};

/// How many bytes are put at once, at most: the lines of eight entries have room.
const ROW_BYTES: usize = 8 * ENTRY_BYTES;

/// The lines of turns that were taken in a row.
#[derive(Drop)]
struct Lines<'n, 'f> {
    entries: EntryLines<'n, 'f>,
    text: Line<ROW_BYTES>,
}

impl<'n, 'f> Lines<'n, 'f> {
    /// None so far, with these names.
    fn new(names: &'n Symbols<'f>) -> Self
        ensures { result ≡ record { entries = names.now; text = [] } }
    {
        Lines {
            entries: EntryLines::new(names),
            text: Line::new(),
        }
    }

    /// Whether there are none.
    #[inline(always)]
    fn is_empty(&self) -> bool
        ensures { IsTrue result ↔ (self.now.text ≡ []) }
    {
        self.text.as_bytes().is_empty()
    }

    /// How many more have room.
    #[inline(always)]
    fn room(&self) -> u32
        ensures { 0 < result → length self.now.text + 240 * result ≤ 1920 }
    {
        (ROW_BYTES.saturating_sub(self.text.as_bytes().len()) / ENTRY_BYTES) as u32
    }

    /// Puts them at once, if there are any.
    fn put<S: Sink>(&self, sink: &mut S) -> Result<(), Unseen>
        ensures noted { OnOk result (TookAll (S.state sink.old) (S.state sink.new) self.now.text) }
        ensures missed { OnErr result (TookPart (S.state sink.old) (S.state sink.new) self.now.text) }
    {
        let text = self.text.as_bytes();
        if text.is_empty() {
            return Ok(());
        }
        match put_all(sink, &[text]) {
            Ok(()) => Ok(()),
            Err(SinkFault) => Err(Unseen),
        }
    }

    /// Adds those of turns in which harts retire plain words, so many at most, and one behind them begins or ends a transaction or asks for a block. It takes
    /// none where it isn't known to be quiescent. The answer is how many there were, and the last turn.
    #[inline(always)]
    fn add_words<const SETS: usize, const WAYS: usize>(
        &mut self,
        machine: &mut Machine<SETS, WAYS>,
        last: Turned,
        most: u32,
    ) -> (u32, Turned)
        requires quiescent { IsTrue last.quiescent → IsQuiescent SETS machine.old }
        requires room { length self.old.text + 240 * most ≤ 1920 }
        ensures turns { AddsTurns (geometry SETS WAYS) machine.old last.hart result.0 machine.new result.1.hart self.old self.new }
        ensures most { result.0 ≤ most }
        ensures quiescent { IsTrue result.1.quiescent → IsQuiescent SETS machine.new }
    {
        let row = machine.hear_few_turns(last, most, self);
        let Turned { hart, quiescent } = row.last;
        if row.turns == most {
            return (row.turns, Turned { hart, quiescent });
        }
        let behind = Turned { hart, quiescent };
        match machine.hear_common_turn::<Lines<'n, 'f>, TRACED>(behind, self) {
            Some(hart) => {
                let quiescent = machine.is_quiescent();
                (row.turns + 1, Turned { hart, quiescent })
            }
            None => (row.turns, Turned { hart, quiescent }),
        }
    }

    /// Adds that of the turn behind a hart's, of any kind, if there is one and memory lasts.
    #[inline(always)]
    fn add_turn<const SETS: usize, const WAYS: usize>(
        &mut self,
        machine: &mut Machine<SETS, WAYS>,
        after: HartId,
    ) -> (u32, Turned)
        requires room { length self.old.text + 240 ≤ 1920 }
        ensures turns { AddsTurns (geometry SETS WAYS) machine.old after result.0 machine.new result.1.hart self.old self.new }
        ensures most { result.0 ≤ 1 }
        ensures quiescent { IsTrue result.1.quiescent → IsQuiescent SETS machine.new }
    {
        let nothing = Turned {
            hart: after,
            quiescent: false,
        };
        let Some(step) = machine.next_turn(after) else {
            return (0, nothing);
        };
        let Ok(entry) = machine.step(step) else {
            return (0, nothing);
        };
        self.hear(&entry);
        let hart = hart_after(&step, after);
        let quiescent = machine.is_quiescent();
        (1, Turned { hart, quiescent })
    }

    /// Adds those of turns where it isn't known to be quiescent, so many at most. A request that is alone in flight is served at once, if nothing is written
    /// yet.
    #[inline(always)]
    fn add_others<const SETS: usize, const WAYS: usize>(
        &mut self,
        machine: &mut Machine<SETS, WAYS>,
        after: HartId,
        most: u32,
    ) -> (u32, Turned)
        requires some { 0 < most }
        requires room { length self.old.text + 240 ≤ 1920 }
        ensures turns { AddsTurns (geometry SETS WAYS) machine.old after result.0 machine.new result.1.hart self.old self.new }
        ensures most { result.0 ≤ most }
        ensures quiescent { IsTrue result.1.quiescent → IsQuiescent SETS machine.new }
    {
        if machine.in_flight() == 0 {
            return self.add_turn(machine, after);
        }
        if !self.is_empty() {
            let quiescent = false;
            return (
                0,
                Turned {
                    hart: after,
                    quiescent,
                },
            );
        }
        match machine.serve(most, self) {
            Some(service) => {
                let quiescent = machine.is_quiescent();
                (
                    service.turns(),
                    Turned {
                        hart: after,
                        quiescent,
                    },
                )
            }
            None => self.add_turn(machine, after),
        }
    }

    /// Adds those of some turns, so many at most, while they have room. It may take none, which costs time alone.
    #[inline(always)]
    fn add_some<const SETS: usize, const WAYS: usize>(
        &mut self,
        machine: &mut Machine<SETS, WAYS>,
        last: Turned,
        most: u32,
    ) -> (u32, Turned)
        requires quiescent { IsTrue last.quiescent → IsQuiescent SETS machine.old }
        requires some { 0 < most }
        ensures turns { AddsTurns (geometry SETS WAYS) machine.old last.hart result.0 machine.new result.1.hart self.old self.new }
        ensures most { result.0 ≤ most }
        ensures quiescent { IsTrue result.1.quiescent → IsQuiescent SETS machine.new }
    {
        let room = self.room();
        if room == 0 {
            return (0, last);
        }
        let Turned { hart, quiescent } = last;
        if !quiescent {
            return self.add_others(machine, hart, most);
        }
        let (turns, behind) = self.add_words(machine, Turned { hart, quiescent }, most.min(room));
        if turns > 0 {
            return (turns, behind);
        }
        // The hart declined its word.
        self.add_turn(machine, hart)
    }

    /// Adds those of turns, so many at most, one behind another, while they have room. It may stop at any turn, which costs time alone.
    #[inline(never)]
    fn add_turns<const SETS: usize, const WAYS: usize>(
        &mut self,
        machine: &mut Machine<SETS, WAYS>,
        last: Turned,
        most: u32,
    ) -> (u32, Turned)
        requires { IsTrue last.quiescent → IsQuiescent SETS machine.old }
        ensures turns { AddsTurns (geometry SETS WAYS) machine.old last.hart result.0 machine.new result.1.hart self.old self.new }
        ensures most { result.0 ≤ most }
        ensures quiescent { IsTrue result.1.quiescent → IsQuiescent SETS machine.new }
    {
        let mut taken = 0;
        let mut now = last;
        while taken < most {
            let (more, behind) = self.add_some(machine, now, most - taken);
            taken += more;
            now = behind;
            if more == 0 {
                break;
            }
        }
        (taken, now)
    }

    /// Takes some turns, so many at most, puts their lines at once, and leaves none. It may take none, which costs time alone.
    fn put_turns<const SETS: usize, const WAYS: usize, S: Sink>(
        &mut self,
        machine: &mut Machine<SETS, WAYS>,
        last: Turned,
        most: u32,
        sink: &mut S,
    ) -> Result<(u32, Turned), Unseen>
        requires quiescent { IsTrue last.quiescent → IsQuiescent SETS machine.old }
        requires none { self.old.text ≡ [] }
        ensures turns { IfOk result (λ taken. PutsTurns (geometry SETS WAYS) self.old.entries machine.old last.hart taken.0 machine.new taken.1.hart (S.state sink.old) (S.state sink.new)) }
        ensures most { IfOk result (λ taken. taken.0 ≤ most) }
        ensures quiescent { IfOk result (λ taken. IsTrue taken.1.quiescent → IsQuiescent SETS machine.new) }
        ensures none { IfOk result (λ _. self.new ≡ self.old) }
        ensures missed { OnErr result (CutsTurns (geometry SETS WAYS) self.old.entries machine.old last.hart most machine.new (S.state sink.old) (S.state sink.new)) }
    {
        let (turns, behind) = self.add_turns(machine, last, most);
        if turns == 0 {
            return Ok((0, behind));
        }
        self.put(sink)?;
        self.text.clear();
        Ok((turns, behind))
    }
}

impl Listener for Lines<'_, '_> {
    ghost hears = { AddsLine };

    /// Adds the line of an entry, if there is room for it. It is inlined, so that the entry is read where it stands.
    #[inline(always)]
    fn hear(&mut self, entry: &Option<Entry>) {
        if let Some(entry) = entry
            && self.text.as_bytes().len() <= ROW_BYTES - ENTRY_BYTES
        {
            self.entries.add(entry, &mut self.text);
        }
    }
}

/// Puts the entries of steps into a sink, as lines with names.
#[derive(Drop)]
struct Recorder<'n, 'f> {
    names: &'n Symbols<'f>,
}

impl<'n, 'f> Recorder<'n, 'f> {
    /// Puts the line of an entry, if a step gave one.
    #[inline(always)]
    fn put<S: Sink>(&self, entry: &Option<Entry>, sink: &mut S) -> Result<(), Unseen>
        ensures noted { OnOk result (TookAll (S.state sink.old) (S.state sink.new) (line_if self.now.names.now entry.now)) }
        ensures missed { OnErr result (TookPart (S.state sink.old) (S.state sink.new) (line_if self.now.names.now entry.now)) }
    {
        let Some(entry) = entry else {
            return Ok(());
        };
        match put_entry(self.names, entry, sink) {
            Ok(()) => Ok(()),
            Err(_) => Err(Unseen),
        }
    }
}

impl<'n, 'f, const SETS: usize, const WAYS: usize, S: Sink> Observer<SETS, WAYS, S>
    for Recorder<'n, 'f> {
    ghost saw = { λ r before ms after. TookAll (S.state before) (S.state after) (trace_of r.names.now ms) };

    ghost missed = { λ r before ms after. TookPart (S.state before) (S.state after) (trace_of r.names.now ms) };

    fn note(
        &self,
        _sent: u64,
        _step: &Step,
        _arrival: &Option<Flight>,
        entry: &Option<Entry>,
        _machine: &Machine<SETS, WAYS>,
        sink: &mut S,
    ) -> Result<(), Unseen> {
        self.put(entry, sink)
    }

    fn make(
        &self,
        machine: &mut Machine<SETS, WAYS>,
        step: Step,
        _declined: bool,
        sink: &mut S,
    ) -> Result<(), Halt> {
        let entry = machine.step(step)?;
        Ok(self.put(&entry, sink)?)
    }

    /// The lines of a few turns are put at once.
    fn take_turns(
        &self,
        machine: &mut Machine<SETS, WAYS>,
        last: Turned,
        most: u32,
        sink: &mut S,
    ) -> Result<(u32, Turned), Unseen> {
        let mut lines = Lines::new(self.names);
        let mut taken = 0;
        let mut now = last;
        while taken < most {
            let (more, behind) = lines.put_turns(machine, now, most - taken, sink)?;
            taken += more;
            now = behind;
            if more == 0 {
                break;
            }
        }
        Ok((taken, now))
    }
}

/// Makes the choices in order, and behind the last of them the steps that a chooser gives, as [`schedule::run`] does. The line of each step's entry, if it gives one, is put, with names,
/// before the next step, or those of a few turns at once behind the last of them. Progress is told on the way.
///
/// If memory runs out, the machine is left where the steps before led, and their lines were put. If a put fails, the steps of its lines were made,
/// and a beginning of the lines up to them was taken.
pub fn put_trace<
    const SETS: usize,
    const WAYS: usize,
    C: Chooser<SETS, WAYS>,
    S: Sink,
    P: Progress,
>(
    names: &Symbols<'_>,
    machine: &mut Machine<SETS, WAYS>,
    choices: &[Choice],
    steps: u32,
    chooser: &mut C,
    sink: &mut S,
    progress: &mut P,
) -> Result<(), Halt>
    requires { IsUnbegun (C.behind chooser.old) }
    ensures { MatchResult result
        (λ _. IsTraced names.now (geometry SETS WAYS) (course choices.now (C.behind chooser.new)) steps machine.old machine.new (S.state sink.old) (S.state sink.new))
        (IsCut names.now (geometry SETS WAYS) (course choices.now (forgotten (C.behind chooser.new))) steps machine.old machine.new (S.state sink.old) (S.state sink.new)) }
{
    let recorder = Recorder { names };
    run(machine, choices, steps, chooser, &recorder, sink, progress)
}
