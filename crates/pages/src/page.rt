ghost use Rattle.std.specs.Prelude.{◌≡◌, Ok, IsErr, MatchResult};
ghost use Rattle.words.specs.Sinks.{TookAll, TookPart};
ghost use Rattle.texts.specs.Puts.{Puts};
ghost use Rattle.machine.specs.States.{geometry};
ghost use Rattle.schedule.specs.Courses.{IsUnbegun, course, forgotten};
ghost use Rattle.schedule.specs.declared.halt.Halt.TheVariants.{Untold};
ghost use Rattle.pages.specs.Moments.{moments_text};
ghost use Rattle.pages.specs.Pages as spec;
ghost use Rattle.pages.specs.Pages.{IsPaged, IsPagedInPart};

use crate::form::{head, tail};
use crate::harts::put_harts;
use crate::memory::put_addresses;
use crate::moments::{put_moment, put_rest};
use disassembler::Symbols;
use itoa::Buffer;
use machine::{Machine, Progress};
use network::Flight;
use schedule::{Choice, Chooser, Halt, Observer, Unseen, run};
use std::alloc::Global;
use texts::put_all;
use words::{Addr, Entry, Sink, SinkFault, Step};

/// Puts the moments of a run into a sink, with these names, and these words with each.
#[derive(Drop)]
struct Teller<'n, 'f, 'a> {
    alloc: Global,
    names: &'n Symbols<'f>,
    words: &'a [Addr],
}

impl<'n, 'f, 'a, const SETS: usize, const WAYS: usize, S: Sink> Observer<SETS, WAYS, S>
    for Teller<'n, 'f, 'a> {
    ghost saw = { λ o before ms after. TookAll (S.state before) (S.state after) (moments_text o.names.now SETS o.words.now ms) };

    ghost missed = { λ o before ms after. TookPart (S.state before) (S.state after) (moments_text o.names.now SETS o.words.now ms) };

    fn note(
        &self,
        sent: u64,
        step: &Step,
        arrival: &Option<Flight>,
        entry: &Option<Entry>,
        machine: &Machine<SETS, WAYS>,
        sink: &mut S,
    ) -> Result<(), Unseen> {
        match put_moment(
            self.alloc, sink, self.names, self.words, sent, step, arrival, entry, machine,
        ) {
            Ok(()) => Ok(()),
            Err(_) => Err(Unseen),
        }
    }
}

/// Puts what comes before the moments of a run from this machine.
fn put_opening<const SETS: usize, const WAYS: usize, S: Sink>(
    sink: &mut S,
    names: &Symbols<'_>,
    machine: &Machine<SETS, WAYS>,
    words: &[Addr],
) -> Result<(), SinkFault>
    ensures { Puts (S.state sink.old) (S.state sink.new) (spec.opening names.now (geometry SETS WAYS) machine.now words.now) result }
{
    put_sizes(sink, SETS, WAYS, machine.harts())?;
    put_addresses(sink, words)?;
    put_first(sink, names, machine, words)
}

/// Puts the machine before the first step: its harts, the messages in flight, with their texts, and the words.
fn put_first<const SETS: usize, const WAYS: usize, S: Sink>(
    sink: &mut S,
    names: &Symbols<'_>,
    machine: &Machine<SETS, WAYS>,
    words: &[Addr],
) -> Result<(), SinkFault>
    ensures { Puts (S.state sink.old) (S.state sink.new) (spec.first_text names.now SETS words.now machine.now) result }
{
    put_all(sink, &[b"],first:{harts:["])?;
    put_harts(sink, names, machine)?;
    put_all(sink, &[b"],"])?;
    put_rest(sink, words, 0, machine)?;
    put_all(sink, &[b"moments:[\n"])
}

/// Puts the head of the page, how large the caches are, and how many harts there are.
fn put_sizes<S: Sink>(sink: &mut S, sets: usize, ways: usize, harts: usize) -> Result<(), SinkFault>
    ensures { Puts (S.state sink.old) (S.state sink.new) (spec.sizes_text (geometry sets ways) harts) result }
{
    let mut set_digits = Buffer::new();
    let mut way_digits = Buffer::new();
    let mut hart_digits = Buffer::new();
    put_all(
        sink,
        &[
            head().as_bytes(),
            b"sets:",
            set_digits.format(sets).as_bytes(),
            b",ways:",
            way_digits.format(ways).as_bytes(),
            b",harts:",
            hart_digits.format(harts).as_bytes(),
            b",addresses:[",
        ],
    )
}

/// The choices in order, so many at most, and behind the last of them the steps that a chooser gives, as [`schedule::run`] makes them. Each moment is
/// put before the next step, with these words, and with these names. Progress is told on the way.
///
/// If memory runs out, the machine is left where the steps before led, and their moments were put, with no end of the page. If a put fails,
/// the steps of all moments up to it were made, and a beginning of their page was taken.
pub fn put_page<const SETS: usize, const WAYS: usize, C: Chooser<SETS, WAYS>, S: Sink, P: Progress>(
    alloc: Global,
    names: &Symbols<'_>,
    machine: &mut Machine<SETS, WAYS>,
    choices: &[Choice],
    steps: u32,
    chooser: &mut C,
    words: &[Addr],
    sink: &mut S,
    progress: &mut P,
) -> Result<(), Halt>
    requires { IsUnbegun (C.behind chooser.old) }
    ensures { MatchResult result
        (λ _. IsPaged names.now (geometry SETS WAYS) words.now (course choices.now (C.behind chooser.new)) steps machine.old machine.new (S.state sink.old) (S.state sink.new))
        (IsPagedInPart names.now (geometry SETS WAYS) words.now (course choices.now (forgotten (C.behind chooser.new))) steps machine.old machine.new
        (S.state sink.old) (S.state sink.new)) }
{
    put_or_halt(put_opening(sink, names, machine, words))?;
    let teller = Teller {
        alloc,
        names,
        words,
    };
    run(machine, choices, steps, chooser, &teller, sink, progress)?;
    put_or_halt(put_all(sink, &[tail().as_bytes()]))
}

/// A put that fails halts the run.
fn put_or_halt(put: Result<(), SinkFault>) -> Result<(), Halt>
    ensures { MatchResult result (λ _. put ≡ Ok tt) (λ halt. (halt ≡ Untold) × IsErr put) }
{
    match put {
        Ok(()) => Ok(()),
        Err(SinkFault) => Err(Halt::Untold),
    }
}
