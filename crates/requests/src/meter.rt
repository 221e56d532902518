ghost use Rattle.std.specs.Prelude.{◌≡◌, ◌+◌, ◌≤◌, ◌⊎◌, ℕ, Result, None, min, IsFalse, IsTrue, IfSome};
ghost use Rattle.std.specs.Duration.{as_nanos, max_nanos};
ghost use Rattle.texts.specs.Puts.{Puts};
ghost use Rattle.words.specs.declared.sink.SinkFault.{SinkFault as Fault};
ghost use Rattle.requests.specs.ProgressLines.{clear, a_second, progress_line, states_line};

use crate::live::Live;
use itoa::Buffer;
use machine::{PROGRESS_INTERVAL, Progress};
use std::time::{Clock, Duration, Instant};
use texts::put_all;
use words::{Sink, SinkFault};

/// How long a run goes on before its progress is shown, in milliseconds.
const QUIET: u64 = 1000;

/// How long a line of progress stands before the next, in milliseconds.
const STANDS: u64 = 200;

/// Goes to the start of a terminal's line, and clears it.
const CLEAR: &[u8] = b"\r\x1b[K";

/// Shows the progress of a run in one line of a terminal, written anew five times a second from the first second on: the steps made, the steps a
/// second, and how many harts still run; and of a search the states met, and the states a second. The line is cleared at the end. What can't be shown stops no run.
#[derive(Drop)]
pub struct Meter<'c, C, S> {
    clock: &'c C,
    sink: S,
    begun: Option<Instant>,
    /// How long after the beginning the next line is due.
    due: Duration,
    steps: u64,
    stands: bool,
}

impl<'c, C: Clock, S: Sink> Meter<'c, C, S> {
    /// One that starts now. It shows nothing where it isn't live, or where the clock can't be read.
    pub fn new(clock: &'c C, sink: S, live: bool) -> Self
        ensures sink { result.sink ≡ sink }
        ensures live { IsFalse live → result.begun ≡ None }
        ensures due { as_nanos result.due ≡ 1000000000 }
        ensures first { (result.steps ≡ 0) × IsFalse result.stands }
    {
        let begun = if live { Instant::now(clock).ok() } else { None };
        Meter {
            clock,
            sink,
            begun,
            due: Duration::from_millis(QUIET),
            steps: 0,
            stands: false,
        }
    }

    /// The sink, with all that was put into it.
    pub fn into_sink(self) -> S
        ensures { result ≡ self.entry.sink }
    {
        self.sink
    }

    /// How long the run has gone on, if a line is due.
    fn due_after(&self) -> Option<Duration>
        ensures due { IfSome result (λ gone. as_nanos self.now.due ≤ as_nanos gone) }
        ensures quiet { self.now.begun ≡ None → result ≡ None }
    {
        let begun = self.begun?;
        let now = Instant::now(self.clock).ok()?;
        let gone = now.duration_since(begun);
        if gone < self.due { None } else { Some(gone) }
    }
}

impl<'c, C: Clock, S: Sink> Progress for Meter<'c, C, S> {
    ghost tells = { λ before _ after. after.steps ≡ min (before.steps + 65536) 18446744073709551615 };

    fn tell(&mut self, running: usize)
        ensures steps { self.new.steps ≡ min (self.old.steps + 65536) 18446744073709551615 }
        ensures quiet { self.old.begun ≡ None → self.new.sink ≡ self.old.sink }
        // A line is put if one is due, and then the next is due a fifth of a second later.
        ensures shown { (self.new.sink ≡ self.old.sink) ⊎ ((nanos : ℕ) × (as_nanos self.old.due ≤ nanos) × (as_nanos self.new.due ≡ min (nanos + 200000000) max_nanos) × (put : Result Unit Fault)
            × Puts (S.state self.old.sink) (S.state self.new.sink)
            (progress_line self.new.steps (a_second self.new.steps nanos) running) put) }
    {
        self.steps = self.steps.saturating_add(u64::from(PROGRESS_INTERVAL));
        let Some(gone) = self.due_after() else {
            return;
        };
        self.due = gone.saturating_add(Duration::from_millis(STANDS));
        let pace = a_second(self.steps, gone);
        let _ = put_line(&mut self.sink, self.steps, pace, running as u64);
        self.stands = true;
    }

    fn end(&mut self)
        ensures cleared { IsFalse self.new.stands }
        ensures clears { IsTrue self.old.stands → (put : Result Unit Fault)
            × Puts (S.state self.old.sink) (S.state self.new.sink) clear put }
        ensures quiet { IsFalse self.old.stands → self.new ≡ self.old }
    {
        if self.stands {
            let _ = self.sink.put(CLEAR);
            self.stands = false;
        }
    }
}

impl<'c, C: Clock, S: Sink> Live for Meter<'c, C, S> {
    fn tell_states(&mut self, states: usize)
        ensures quiet { self.old.begun ≡ None → self.new.sink ≡ self.old.sink }
        // A line is put if one is due, and then the next is due a fifth of a second later.
        ensures shown { (self.new.sink ≡ self.old.sink) ⊎ ((nanos : ℕ) × (as_nanos self.old.due ≤ nanos) × (as_nanos self.new.due ≡ min (nanos + 200000000) max_nanos) × (put : Result Unit Fault)
            × Puts (S.state self.old.sink) (S.state self.new.sink)
            (states_line states (a_second states nanos)) put) }
    {
        let Some(gone) = self.due_after() else {
            return;
        };
        self.due = gone.saturating_add(Duration::from_millis(STANDS));
        let met = states as u64;
        let pace = a_second(met, gone);
        let _ = put_states(&mut self.sink, met, pace);
        self.stands = true;
    }
}

/// How many of these are a second's, where they took so long.
fn a_second(steps: u64, gone: Duration) -> u64
    ensures { result ≡ a_second steps (as_nanos gone) }
{
    let millis = u128::from(steps) * 1000;
    match u64::try_from(millis / gone.as_millis().max(1)) {
        Ok(pace) => pace,
        Err(_) => u64::MAX,
    }
}

/// Writes the line of a search anew.
fn put_states<S: Sink>(sink: &mut S, states: u64, pace: u64) -> Result<(), SinkFault>
    ensures { Puts (S.state sink.old) (S.state sink.new) (states_line states pace) result }
{
    let (mut met, mut fast) = (Buffer::new(), Buffer::new());
    put_all(
        sink,
        &[
            CLEAR,
            met.format(states / 1000).as_bytes(),
            b" thousand states, ",
            fast.format(pace / 1000).as_bytes(),
            b" thousand a second",
        ],
    )
}

/// Writes the line anew.
fn put_line<S: Sink>(sink: &mut S, steps: u64, pace: u64, running: u64) -> Result<(), SinkFault>
    ensures { Puts (S.state sink.old) (S.state sink.new) (progress_line steps pace running) result }
{
    let (mut made, mut tenth_made) = (Buffer::new(), Buffer::new());
    let (mut fast, mut tenth_fast) = (Buffer::new(), Buffer::new());
    let mut harts = Buffer::new();
    put_all(
        sink,
        &[
            CLEAR,
            made.format(steps / 1_000_000).as_bytes(),
            b".",
            tenth_made.format(steps / 100_000 % 10).as_bytes(),
            b" million steps, ",
            fast.format(pace / 1_000_000).as_bytes(),
            b".",
            tenth_fast.format(pace / 100_000 % 10).as_bytes(),
            b" million a second, harts that run: ",
            harts.format(running).as_bytes(),
        ],
    )
}
