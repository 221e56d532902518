//! For `rt try --test --fail-alloc N`: a search either finds all, or memory ran out and only that is told.

ghost use Rattle.std.specs.Prelude.{IfSome};
ghost use Rattle.outcomes.specs.Searches.{IsSearch};

use super::searches::{SIZE, count, is_witnessed, searched};
use super::sources::text_alone;
use crate::tests::claims::{equal, holds_at};
use flat::BootFault;
use interleavings::{Order, all_ends};
use outcomes::{Outcomes, Untold, begin};
use reference::program;
use std::process::Abort;
use std::test::Fail;

/// Adds 1 to the word at 0 in a transaction, puts out a byte, and exits with 0; or exits with 1 after an abort.
#[rattlefmt::skip]
const ADDS_ONCE: [u32; 13] = [
    0x0010_0893, // li a7, 1
    0x0200_020b, // tbegin 36
    0x0000_2283, // lw t0, 0(zero)
    0x0012_8293, // addi t0, t0, 1
    0x0050_2023, // sw t0, 0(zero)
    0x0000_100b, // tcommit
    0x0000_0073, // ecall
    0x05d0_0893, // li a7, 93
    0x0000_0513, // li a0, 0
    0x0000_0073, // ecall
    0x05d0_0893, // li a7, 93
    0x0010_0513, // li a0, 1
    0x0000_0073, // ecall
];

/// How many states the search of two such harts meets, and how many of them are ends.
const STATES: usize = 165;

const ENDS: usize = 5;

/// What is expected is what there is.
#[test]
fn all_is_found_where_there_is_memory(rt: HostRuntime) -> Result<(), Fail> {
    let all = all_ends(
        rt.alloc(),
        &text_alone(&ADDS_ONCE),
        2,
        SIZE,
        Order::LocalFirst,
        1_000,
    )?
    .ok_or("too many")?;
    equal(&rt, &(all.states, all.count), &(STATES, ENDS));
    check_found(&rt)
}

/// That the search finds all.
fn check_found(rt: &(impl Abort + AllocGlobal)) -> Result<(), Fail> {
    let outcomes = searched(rt.alloc(), &ADDS_ONCE, 2, 1_000)?;
    check_all(rt, &outcomes);
    check_count(rt, &outcomes)
}

/// That it found so many ends as there are.
fn check_count(rt: &(impl Abort + AllocGlobal), outcomes: &Outcomes) -> Result<(), Fail>
    requires { IsSearch outcomes.now }
{
    equal(rt, &count(rt.alloc(), outcomes)?, &ENDS);
    Ok(())
}

/// The search of all states, or `None` if memory ran out.
fn searched_or_none(rt: &(impl Abort + AllocGlobal), text: &[u32]) -> Option<Outcomes>
    ensures { IfSome result (λ o. IsSearch o) }
{
    let program = program(rt.alloc(), text).ok()?;
    match begin(rt.alloc(), program, 2, SIZE) {
        Ok(mut outcomes) => match outcomes.find_all(rt.alloc(), 1_000, &mut Untold) {
            Ok(()) => Some(outcomes),
            Err(_) => None,
        },
        Err(fault) => {
            equal(rt, &fault, &BootFault::NoMemory);
            None
        }
    }
}

/// That all was found.
fn check_all(rt: &impl Abort, outcomes: &Outcomes) {
    equal(rt, &(outcomes.is_all, outcomes.len()), &(true, STATES));
}

#[test]
fn finds_all_or_wants_memory(rt: HostRuntime) {
    if let Some(outcomes) = searched_or_none(&rt, &ADDS_ONCE) {
        check_all(&rt, &outcomes);
        if let Ok(ends) = outcomes.ends(rt.alloc()) {
            equal(&rt, &ends.len(), &ENDS);
        }
    }
}

/// That each end is witnessed, or memory ran out.
fn check_witnesses(rt: &(impl Abort + AllocGlobal), text: &[u32], outcomes: &Outcomes)
    requires { IsSearch outcomes.now }
{
    let Ok(ends) = outcomes.ends(rt.alloc()) else {
        return;
    };
    equal(rt, &ends.len(), &ENDS);
    for place in &ends {
        match is_witnessed(rt.alloc(), &text_alone(text), 2, outcomes, *place) {
            Ok(yes) => holds_at(rt, yes, &place),
            Err(fault) => equal(rt, &fault, &BootFault::NoMemory),
        }
    }
}

#[test]
fn witnesses_all_or_wants_memory(rt: HostRuntime) {
    let text = ADDS_ONCE;
    if let Some(outcomes) = searched_or_none(&rt, &text) {
        check_all(&rt, &outcomes);
        check_witnesses(&rt, &text, &outcomes);
    }
}
