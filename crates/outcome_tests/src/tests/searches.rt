//! Searches of programs, and what is read of them.

ghost use Rattle.std.specs.Prelude.{IfOk};
ghost use Rattle.outcomes.specs.Searches.{IsSearch};

use super::pictures::picture;
use super::sources::{program_of, text_alone};
use flat::BootFault;
use interleavings::Source;
use outcomes::{Outcomes, Untold, begin};
use reference::Machine;
use std::alloc::{AllocError, Global};
use std::collections::BTreeSet;
use std::test::Fail;
use words::Entry;

/// How many bytes of memory the programs have.
pub(crate) const SIZE: u32 = 131_072;

/// The search of a program's states, so many at most.
pub(crate) fn searched_from(
    alloc: Global,
    source: &Source<'_>,
    harts: u32,
    limit: usize,
) -> Result<Outcomes, Fail>
    ensures { IfOk result (λ o. IsSearch o) }
{
    let mut outcomes = begin(alloc, program_of(alloc, source)?, harts, SIZE)?;
    outcomes.find_all(alloc, limit, &mut Untold)?;
    Ok(outcomes)
}

/// The same of a program without data.
pub(crate) fn searched(
    alloc: Global,
    text: &[u32],
    harts: u32,
    limit: usize,
) -> Result<Outcomes, Fail>
    ensures { IfOk result (λ o. IsSearch o) }
{
    searched_from(alloc, &text_alone(text), harts, limit)
}

/// What is to be seen of the state at a place, if there is one.
pub(crate) fn picture_at(
    alloc: Global,
    outcomes: &Outcomes,
    place: usize,
) -> Result<Option<Vec<u32>>, AllocError>
    requires { IsSearch outcomes.now }
{
    match outcomes.get(place) {
        Some(standing) => Ok(Some(picture(alloc, &standing)?)),
        None => Ok(None),
    }
}

/// What is to be seen of the ends that were found.
pub(crate) fn pictures(alloc: Global, outcomes: &Outcomes) -> Result<BTreeSet<Vec<u32>>, AllocError>
    requires { IsSearch outcomes.now }
{
    let mut pictures = BTreeSet::new(alloc);
    for place in &outcomes.ends(alloc)? {
        if let Some(picture) = picture_at(alloc, outcomes, *place)? {
            pictures.insert(picture)?;
        }
    }
    Ok(pictures)
}

/// How many ends were found.
pub(crate) fn count(alloc: Global, outcomes: &Outcomes) -> Result<usize, AllocError>
    requires { IsSearch outcomes.now }
{
    Ok(outcomes.ends(alloc)?.len())
}

/// A run to the state at a place, if there is one.
pub(crate) fn witness_of(
    alloc: Global,
    outcomes: &Outcomes,
    place: usize,
) -> Result<Option<Vec<Entry>>, AllocError>
    requires { IsSearch outcomes.now }
{
    if place < outcomes.len() {
        Ok(Some(outcomes.witness(alloc, place)?))
    } else {
        Ok(None)
    }
}

/// What is to be seen of the plain machine after these entries, if it accepts one after another.
pub(crate) fn picture_after(
    alloc: Global,
    source: &Source<'_>,
    harts: u32,
    entries: &[Entry],
) -> Result<Option<Vec<u32>>, BootFault> {
    let mut machine = Machine::boot(alloc, program_of(alloc, source)?, harts, SIZE)?;
    for entry in entries {
        if !machine.check(alloc, entry)? {
            return Ok(None);
        }
    }
    Ok(Some(picture(alloc, &machine)?))
}

/// Whether the witness of a state is a run of the plain machine to it.
pub(crate) fn is_witnessed(
    alloc: Global,
    source: &Source<'_>,
    harts: u32,
    outcomes: &Outcomes,
    place: usize,
) -> Result<bool, BootFault>
    requires { IsSearch outcomes.now }
{
    let Some(entries) = witness_of(alloc, outcomes, place)? else {
        return Ok(false);
    };
    let Some(after) = picture_after(alloc, source, harts, &entries)? else {
        return Ok(false);
    };
    Ok(picture_at(alloc, outcomes, place)? == Some(after))
}
