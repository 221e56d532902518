//! What is told of a run's progress, and the line that shows it.
ghost use Rattle.std.specs.Prelude.{⊤};

use super::calls::{Sheets, request_of, run_told};
use super::paper::Paper;
use super::searching::BUFFERING;
use crate::tests::claims::{equal, equal_at, equal_items, holds};
use machine::Progress;
use simulate::{Live, Meter};
use std::io;
use std::process::Abort;
use std::sync::Wait;
use std::sync::atomic::{AtomicU64, Ordering};
use std::test::Fail;
use std::thread::Threads;
use std::time::{Clock, Duration};

/// A clock whose hand is set, in milliseconds.
#[derive(Drop)]
struct Hand(AtomicU64);

impl Clock for Hand {
    fn monotonic(&self) -> io::Result<Duration> {
        Ok(Duration::from_millis(self.0.load(Ordering::Relaxed)))
    }

    fn since_1970(&self) -> io::Result<Duration> {
        Ok(Duration::from_millis(0))
    }
}

/// What a meter has shown that was told at these times, in milliseconds since it was made.
fn shown(rt: &(impl Abort + AllocGlobal), live: bool, times: &[u64], ended: bool) -> Paper {
    let hand = Hand(AtomicU64::new(0));
    let mut meter = Meter::new(&hand, Paper::endless(rt.alloc()), live);
    for time in times {
        hand.0.store(*time, Ordering::Relaxed);
        meter.tell(2);
    }
    if ended {
        meter.end();
    }
    meter.into_sink()
}

#[test]
fn a_line_comes_after_a_second(rt: HostRuntime) -> Result<(), Fail> {
    let none = shown(&rt, true, &[10, 500, 999], true);
    equal_items(&rt, &none.bytes, b"");
    // Sixteen times 65,536 steps are 1,048,576, in a second.
    let line = shown(
        &rt,
        true,
        &[9, 9, 9, 9, 9, 9, 9, 9, 9, 9, 9, 9, 9, 9, 9, 1000],
        false,
    );
    let expected = b"\r\x1b[K1.0 million steps, 1.0 million a second, harts that run: 2";
    equal_items(&rt, &line.bytes, expected);
    Ok(())
}

#[test]
fn a_line_stands_for_a_fifth_of_a_second(rt: HostRuntime) -> Result<(), Fail> {
    let two = shown(&rt, true, &[1000, 1100, 1199, 1200], true);
    let expected =
        b"\r\x1b[K0.0 million steps, 0.0 million a second, harts that run: 2\r\x1b[K0.2 million steps, 0.2 million a second, harts that run: 2\r\x1b[K";
    equal_items(&rt, &two.bytes, expected);
    Ok(())
}

#[test]
fn nothing_is_shown_where_nobody_looks(rt: HostRuntime) -> Result<(), Fail> {
    let none = shown(&rt, false, &[1000, 2000, 3000], true);
    equal_items(&rt, &none.bytes, b"");
    Ok(())
}

#[test]
fn the_line_of_a_search(rt: HostRuntime) -> Result<(), Fail> {
    let hand = Hand(AtomicU64::new(0));
    let mut meter = Meter::new(&hand, Paper::endless(rt.alloc()), true);
    // Of these times, in milliseconds, the second and the fourth are due.
    for (time, states) in [(999, 1), (1000, 4096), (1199, 5000), (2000, 12_345_678)] {
        hand.0.store(time, Ordering::Relaxed);
        meter.tell_states(states);
    }
    meter.end();
    let expected =
        b"\r\x1b[K4 thousand states, 4 thousand a second\r\x1b[K12345 thousand states, 6172 thousand a second\r\x1b[K";
    equal_items(&rt, meter.into_sink().bytes.as_slice(), expected);
    Ok(())
}

/// How often it was told that a run or a search goes on, and that it has ended.
#[derive(Clone, Copy, Debug, PartialEq, Eq)]
struct Tellings {
    goes_on: u32,
    ended: u32,
}

impl Live for Tellings {
    fn tell_states(&mut self, states: usize) {
        if states > 0 {
            self.goes_on = self.goes_on.saturating_add(1);
        }
    }
}

impl Progress for Tellings {
    ghost tells = { λ _ _ _. ⊤ };

    fn tell(&mut self, _running: usize) {
        self.goes_on = self.goes_on.saturating_add(1);
    }

    fn end(&mut self) {
        self.ended = self.ended.saturating_add(1);
    }
}

/// What is told of a run of a hart that jumps to itself.
fn told_of(rt: &(impl Abort + AllocGlobal + Threads + Wait + Sync), option: &str) -> Tellings {
    let words = ["logtm", "run", "f.s", "--steps=70000", option];
    let request = request_of(rt.alloc(), &words).expect(rt, "a request");
    let mut tellings = Tellings {
        goes_on: 0,
        ended: 0,
    };
    let sheets = Sheets::endless(rt.alloc());
    let told = run_told(rt, &request, b"here: j here\n", &mut tellings, sheets);
    equal(rt, &told.status, &5);
    holds(rt, told.out.bytes.ends_with(b"hart 0: running\n"));
    tellings
}

// 70,000 steps are more than the 65,536 behind which it is told that a run goes on. A line of progress would stand in the midst of a trace on a terminal.
#[test]
fn progress_is_told_unless_a_trace_is(rt: HostRuntime) {
    for option in ["--cache=normal", "--trace=t", "--timeline=t.json"] {
        let Tellings { goes_on, ended } = told_of(&rt, option);
        equal_at(&rt, &(goes_on, ended), &(1, 1), &option);
    }
    equal(&rt, &told_of(&rt, "--trace=-").goes_on, &0);
}

// A search tells of itself at its first state, and this one has fewer states than it takes to tell again.
#[test]
fn progress_of_a_search_is_told(rt: HostRuntime) {
    let words = ["logtm", "outcomes", "f.s", "--harts=2"];
    let request = request_of(rt.alloc(), &words).expect(&rt, "a request");
    let mut tellings = Tellings {
        goes_on: 0,
        ended: 0,
    };
    let sheets = Sheets::endless(rt.alloc());
    let told = run_told(&rt, &request, BUFFERING.as_bytes(), &mut tellings, sheets);
    equal(&rt, &told.status, &0);
    equal(&rt, &(tellings.goes_on, tellings.ended), &(1, 1));
}
