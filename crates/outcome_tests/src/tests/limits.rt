//! Searches that are cut short, and go on.

ghost use Rattle.outcomes.specs.Searches.{IsSearch};

use super::draws::Draws;
use super::litmus::STORE_BUFFERING;
use super::pictures::picture;
use super::programs::random_program;
use super::searches::{count, picture_after, picture_at, pictures, searched};
use super::sources::text_alone;
use crate::tests::claims::{equal, holds};
use outcomes::{Outcomes, Untold};
use std::alloc::{AllocError, Global};
use std::process::Abort;
use std::test::Fail;

/// That a search which goes on has found so many states then, which are all, and says so.
fn check_resumed(
    rt: &(impl Abort + AllocGlobal),
    outcomes: &mut Outcomes,
    states: usize,
) -> Result<(), Fail>
    requires { IsSearch outcomes.old }
{
    outcomes.find_all(rt.alloc(), states, &mut Untold)?;
    equal(rt, &(outcomes.is_all, outcomes.len()), &(true, states));
    Ok(())
}

/// That a search which was cut found only ends of the program.
fn check_ends(
    rt: &(impl Abort + AllocGlobal),
    cut: &Outcomes,
    whole: &Outcomes,
) -> Result<(), AllocError>
    requires cut { IsSearch cut.now }
    requires whole { IsSearch whole.now }
{
    let all = pictures(rt.alloc(), whole)?;
    for picture in &pictures(rt.alloc(), cut)? {
        holds(rt, all.contains(picture));
    }
    Ok(())
}

/// That a search which was cut at a limit holds so many states as the limit says, and only ends of the program; and that it then finds the rest. (It
/// begins with one state.)
fn check_cut_search(
    rt: &(impl Abort + AllocGlobal),
    whole: &Outcomes,
    limit: usize,
    cut: &mut Outcomes,
) -> Result<(), Fail>
    requires whole { IsSearch whole.now }
    requires cut { IsSearch cut.old }
{
    equal(rt, &(cut.is_all, cut.len()), &(false, limit.max(1)));
    check_ends(rt, cut, whole)?;
    check_resumed(rt, cut, whole.len())
}

/// That a search is cut so at a limit. Here and below what owns a search has one way out: the check takes longer for each.
fn check_cut(
    rt: &(impl Abort + AllocGlobal),
    text: &[u32],
    whole: &Outcomes,
    limit: usize,
) -> Result<(), Fail>
    requires { IsSearch whole.now }
{
    let mut cut = searched(rt.alloc(), text, 2, limit)?;
    check_cut_search(rt, whole, limit, &mut cut)
}

/// That a search which wasn't cut found so many states and ends, and no more if it goes on.
fn check_whole_search(
    rt: &(impl Abort + AllocGlobal),
    wanted: (usize, usize),
    outcomes: &mut Outcomes,
) -> Result<(), Fail>
    requires { IsSearch outcomes.old }
{
    let found = (outcomes.len(), count(rt.alloc(), outcomes)?);
    equal(rt, &(outcomes.is_all, found), &(true, wanted));
    check_resumed(rt, outcomes, wanted.0)
}

/// That a search isn't cut at a limit.
fn check_whole(
    rt: &(impl Abort + AllocGlobal),
    text: &[u32],
    limit: usize,
    found: (usize, usize),
) -> Result<(), Fail> {
    let mut outcomes = searched(rt.alloc(), text, 2, limit)?;
    check_whole_search(rt, found, &mut outcomes)
}

/// That a search is cut at each of these limits that is below the number of its states.
fn check_cuts(
    rt: &(impl Abort + AllocGlobal),
    text: &[u32],
    whole: &Outcomes,
    limits: &[usize],
) -> Result<(), Fail>
    requires { IsSearch whole.now }
{
    for limit in limits {
        if *limit < whole.len() {
            check_cut(rt, text, whole, *limit)?;
        }
    }
    Ok(())
}

/// That a search isn't cut at the number of its states, and above it.
fn check_wholes(
    rt: &(impl Abort + AllocGlobal),
    text: &[u32],
    found: (usize, usize),
) -> Result<(), Fail> {
    let states = found.0;
    check_whole(rt, text, states, found)?;
    check_whole(rt, text, states.saturating_add(1), found)?;
    check_whole(rt, text, states.saturating_add(2), found)?;
    check_whole(rt, text, usize::MAX, found)
}

/// Limits of a search of so many states.
fn limits(states: usize) -> [usize; 9] {
    let last = states.saturating_sub(1);
    [0, 1, 2, 3, 50, 55, states / 2, last.saturating_sub(1), last]
}

/// That a program's search, of which this is the whole, is cut at limits below the number of its states, and not at that number or above it. The answer
/// is how many states and ends there are, none of a program with too many.
fn check_limits_of(
    rt: &(impl Abort + AllocGlobal),
    text: &[u32],
    whole: &Outcomes,
) -> Result<(usize, usize), Fail>
    requires { IsSearch whole.now }
{
    if !whole.is_all {
        return Ok((0, 0));
    }
    let found = (whole.len(), count(rt.alloc(), whole)?);
    check_cuts(rt, text, whole, &limits(found.0))?;
    check_wholes(rt, text, found)?;
    Ok(found)
}

fn check_limits(rt: &(impl Abort + AllocGlobal), text: &[u32]) -> Result<(usize, usize), Fail> {
    let whole = searched(rt.alloc(), text, 2, 20_000)?;
    check_limits_of(rt, text, &whole)
}

#[test]
fn a_limit_cuts_the_search(rt: HostRuntime) -> Result<(), Fail> {
    equal(&rt, &check_limits(&rt, &STORE_BUFFERING)?, &(111, 7));
    for seed in 0..20 {
        let text = random_program(rt.alloc(), Draws::new(seed), 4)?;
        check_limits(&rt, &text)?;
    }
    Ok(())
}

/// That the first state is this one.
fn check_first(
    rt: &(impl Abort + AllocGlobal),
    outcomes: &Outcomes,
    wanted: &[u32],
) -> Result<(), AllocError>
    requires { IsSearch outcomes.now }
{
    let first = picture(rt.alloc(), &outcomes.first())?;
    equal(rt, &first.as_slice(), &wanted);
    match picture_at(rt.alloc(), outcomes, 0)? {
        Some(found) => equal(rt, &found.as_slice(), &wanted),
        None => holds(rt, false),
    }
    Ok(())
}

/// Whether there is a state at a place.
fn is_state(alloc: Global, outcomes: &Outcomes, place: usize) -> Result<bool, AllocError>
    requires { IsSearch outcomes.now }
{
    Ok(picture_at(alloc, outcomes, place)?.is_some())
}

/// That a search of 50 states begins with the one that is wanted.
fn check_fifty(
    rt: &(impl Abort + AllocGlobal),
    outcomes: &Outcomes,
    wanted: &[u32],
) -> Result<(), Fail>
    requires { IsSearch outcomes.now }
{
    check_first(rt, outcomes, wanted)?;
    holds(rt, is_state(rt.alloc(), outcomes, 49)?);
    holds(rt, !is_state(rt.alloc(), outcomes, 50)?);
    Ok(())
}

fn check_begun(rt: &(impl Abort + AllocGlobal), wanted: &[u32]) -> Result<(), Fail> {
    let outcomes = searched(rt.alloc(), &STORE_BUFFERING, 2, 50)?;
    check_fifty(rt, &outcomes, wanted)
}

/// The first state is that of a machine which is booted and makes no step.
#[test]
fn a_search_begins_where_a_machine_does(rt: HostRuntime) -> Result<(), Fail> {
    let booted = picture_after(rt.alloc(), &text_alone(&STORE_BUFFERING), 2, &[])?;
    match &booted {
        Some(wanted) => check_begun(&rt, wanted),
        None => Err("no machine")?,
    }
}
