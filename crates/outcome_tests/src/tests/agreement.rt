//! Random programs have the ends that all interleavings lead to, and for each of them a run.

ghost use Rattle.outcomes.specs.Searches.{IsSearch};

use super::draws::Draws;
use super::programs::{random_data, random_program};
use super::searches::{
    SIZE, count, picture_after, picture_at, pictures, searched_from, witness_of,
};
use crate::tests::claims::{equal_at, holds_at};
use interleavings::{Ends, Order, Source, all_ends};
use outcomes::Outcomes;
use std::process::Abort;
use std::test::Fail;
use words::{AbortCause, Entry};

/// The most states of a program, without a reduction.
const MOST: usize = 20_000;

/// What was compared.
#[derive(Clone, Copy, Debug, Default)]
pub(crate) struct Tally {
    programs: usize,
    /// Those with more states than the limit.
    skipped: usize,
    /// Those with more than one end.
    forked: usize,
    ends: usize,
    pub(crate) states: usize,
    /// In the runs to the ends: aborts for a conflict, as asked and for a cause, and stops for a cause.
    conflicts: usize,
    asked: usize,
    trapped: usize,
    stopped: usize,
}

/// One more.
fn count_one(number: &mut usize) {
    *number = number.saturating_add(1);
}

impl Tally {
    /// Adds a program of so many ends and states.
    fn add(&mut self, ends: usize, states: usize) {
        count_one(&mut self.programs);
        if ends > 1 {
            count_one(&mut self.forked);
        }
        self.ends = self.ends.saturating_add(ends);
        self.states = self.states.saturating_add(states);
    }

    /// Adds an entry of a run.
    fn note(&mut self, entry: &Entry) {
        match entry {
            Entry::Abort { cause, .. } => match cause {
                AbortCause::Conflict => count_one(&mut self.conflicts),
                AbortCause::Asked => count_one(&mut self.asked),
                AbortCause::Trapped(..) => count_one(&mut self.trapped),
                AbortCause::LogFull => {}
            },
            Entry::Trap { .. } => count_one(&mut self.stopped),
            _ => {}
        }
    }
}

/// That a search found all these ends.
fn check_ends(
    rt: &(impl Abort + AllocGlobal),
    source: &Source<'_>,
    outcomes: &Outcomes,
    ends: &Ends,
) -> Result<(), Fail>
    requires { IsSearch outcomes.now }
{
    holds_at(rt, outcomes.is_all, &source);
    equal_at(rt, &count(rt.alloc(), outcomes)?, &ends.count, &source);
    holds_at(
        rt,
        pictures(rt.alloc(), outcomes)? == ends.pictures,
        &source,
    );
    Ok(())
}

/// That each end has a witness, whose entries are noted.
fn check_witnesses(
    rt: &(impl Abort + AllocGlobal),
    source: &Source<'_>,
    harts: u32,
    outcomes: &Outcomes,
    tally: &mut Tally,
) -> Result<(), Fail>
    requires { IsSearch outcomes.now }
{
    for place in &outcomes.ends(rt.alloc())? {
        let entries = witness_of(rt.alloc(), outcomes, *place)?.ok_or("no witness")?;
        let after = picture_after(rt.alloc(), source, harts, &entries)?;
        let wanted = picture_at(rt.alloc(), outcomes, *place)?;
        holds_at(rt, after.is_some() && after == wanted, &(place, source));
        for entry in &entries {
            tally.note(entry);
        }
    }
    Ok(())
}

/// That a program's search made just the moves of the reduction, that it found all these ends, and that each has a witness.
fn check_search(
    rt: &(impl Abort + AllocGlobal),
    source: &Source<'_>,
    harts: u32,
    ends: (&Ends, &Ends),
    outcomes: &Outcomes,
    tally: &mut Tally,
) -> Result<(), Fail>
    requires { IsSearch outcomes.now }
{
    let (all, reduced) = ends;
    check_ends(rt, source, outcomes, all)?;
    equal_at(rt, &outcomes.len(), &reduced.states, &source);
    holds_at(rt, reduced.pictures == all.pictures, &source);
    check_witnesses(rt, source, harts, outcomes, tally)?;
    tally.add(all.count, all.states);
    Ok(())
}

/// The same of the search that is made of it.
fn check_searched(
    rt: &(impl Abort + AllocGlobal),
    source: &Source<'_>,
    harts: u32,
    ends: (&Ends, &Ends),
    tally: &mut Tally,
) -> Result<(), Fail> {
    let outcomes = searched_from(rt.alloc(), source, harts, MOST)?;
    check_search(rt, source, harts, ends, &outcomes, tally)
}

/// That a program has the ends that all interleavings lead to, that the search makes just the moves of the reduction, and that each end has a witness; if
/// the program has few enough states.
pub(crate) fn check_program(
    rt: &(impl Abort + AllocGlobal),
    source: &Source<'_>,
    harts: u32,
    tally: &mut Tally,
) -> Result<(), Fail> {
    let Some(all) = all_ends(rt.alloc(), source, harts, SIZE, Order::Any, MOST)? else {
        count_one(&mut tally.skipped);
        return Ok(());
    };
    let reduced = all_ends(rt.alloc(), source, harts, SIZE, Order::LocalFirst, MOST)?.ok_or(
        "too many",
    )?;
    check_searched(rt, source, harts, (&all, &reduced), tally)
}

/// Checks the programs of so many seeds, of 2 to so many words beside their first and last ones.
fn check_programs(
    rt: &(impl Abort + AllocGlobal),
    harts: u32,
    seeds: u64,
    most_words: u64,
) -> Result<Tally, Fail> {
    let mut tally = Tally::default();
    for seed in 0..seeds {
        let mut draws = Draws::new(seed.wrapping_add(1_000_000 * u64::from(harts)));
        let data = random_data(rt.alloc(), &mut draws)?;
        let body = 2 + draws.below(most_words.max(2) - 1);
        let text = random_program(rt.alloc(), draws, body.min(1000) as usize)?;
        let source = Source {
            text: &text,
            data: &data,
        };
        check_program(rt, &source, harts, &mut tally)?;
    }
    Ok(tally)
}

#[test]
fn programs_of_one_hart(rt: HostRuntime) -> Result<(), Fail> {
    let tally = check_programs(&rt, 1, 300, 10)?;
    holds_at(&rt, tally.programs > 280 && tally.stopped > 50, &tally);
    holds_at(&rt, tally.asked > 4 && tally.trapped > 12, &tally);
    Ok(())
}

#[test]
fn programs_of_two_harts(rt: HostRuntime) -> Result<(), Fail> {
    let tally = check_programs(&rt, 2, 1_000, 10)?;
    holds_at(&rt, tally.programs > 950 && tally.stopped > 1_000, &tally);
    holds_at(&rt, tally.asked > 60 && tally.trapped > 150, &tally);
    holds_at(&rt, tally.forked > 250 && tally.conflicts > 700, &tally);
    Ok(())
}

#[test]
fn programs_of_three_harts(rt: HostRuntime) -> Result<(), Fail> {
    let tally = check_programs(&rt, 3, 1_000, 6)?;
    holds_at(&rt, tally.programs > 950 && tally.stopped > 3_000, &tally);
    holds_at(&rt, tally.asked > 30 && tally.trapped > 250, &tally);
    holds_at(&rt, tally.forked > 200 && tally.conflicts > 1_500, &tally);
    Ok(())
}
