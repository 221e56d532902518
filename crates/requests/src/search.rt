//! The search of all ends of a program.
ghost use Rattle.std.specs.Prelude.{◌≡◌, ◌<◌, ℕ, List, MatchResult, OnOk, length};
ghost use Rattle.std.specs.Option.{option_map};
ghost use Rattle.outcomes.specs.Searches.{setting_at, IsSearch};
ghost use Rattle.render.specs.Reports.{AllReadable};
ghost use Rattle.texts.specs.Puts.{Puts};
ghost use Rattle.outcomes.specs.Ends.{AreEndsOf};
ghost use Rattle.requests.specs.Buffers.{IsHandedOn};
ghost use Rattle.requests.specs.Ends.{search_status, states_told, end_numbered, lines_of, IsSearched, IsUnsearched, IsRunPut, IsRunUnput, IsWitnessed, IsUnwitnessed, AreEndsGiven, AreEndsNotGiven, AreEndsTold, AreEndsUntold};
ghost use Rattle.requests.specs.Runs.{addresses};

use crate::ends_text::put_ends;
use crate::fault::Fault;
use crate::live::{Live, StateGauge};
use crate::page::Buffered;
use crate::readable::readable;
use crate::source::program_in;
use command_line::{Search, Witness};
use disassembler::Symbols;
use outcomes::{End, Outcomes, begin, ends_of};
use render::put_entry;
use std::alloc::Global;
use words::{Addr, Entry, Sink, SinkFault};

/// What a search has found, and the addresses of the words to show of each end.
#[derive(Drop)]
struct Searched {
    outcomes: Outcomes,
    addrs: Vec<Addr>,
}

/// Searches all ends of the program in a file, given its bytes, and puts the reports on them into `out`; and into `page` a run to one of them, if one is
/// asked for. Progress is told on the way. It answers the status that the program ends with: 0 if these are all ends, 5 if there were more states than it may meet.
pub(crate) fn find_ends<'a, P: Live, T: Buffered, O: Sink>(
    alloc: Global,
    asked: &Search<'a>,
    file: &'a [u8],
    progress: &mut P,
    page: &mut T,
    out: &mut O,
) -> Result<u8, Fault<'a>>
    ensures { MatchResult result
        (AreEndsGiven asked.now file.now
        (record { output = O.state out.old; file = T.state page.old }) (record { output = O.state out.new; file = T.state page.new }))
        (AreEndsNotGiven asked.now file.now
        (record { output = O.state out.old; file = T.state page.old }) (record { output = O.state out.new; file = T.state page.new })) }
{
    let searched = search(alloc, asked, file, progress);
    progress.end();
    let found = searched?;
    tell_ends(alloc, asked, &found, page, out)
}

/// Puts the reports on all ends that a search found into `out`; and into `page` a run to one of them, if one is asked for. It answers the status that
/// the program ends with.
fn tell_ends<'a, T: Buffered, O: Sink>(
    alloc: Global,
    asked: &Search<'a>,
    found: &Searched,
    page: &mut T,
    out: &mut O,
) -> Result<u8, Fault<'a>>
    requires search { IsSearch found.now.outcomes }
    requires addrs { found.now.addrs.items ≡ addresses asked.now.words.items }
    requires readable { AllReadable (setting_at found.now.outcomes) found.now.addrs.items }
    ensures { MatchResult result
        (AreEndsTold asked.now found.now.outcomes
        (record { output = O.state out.old; file = T.state page.old }) (record { output = O.state out.new; file = T.state page.new }))
        (AreEndsUntold asked.now found.now.outcomes
        (record { output = O.state out.old; file = T.state page.old }) (record { output = O.state out.new; file = T.state page.new })) }
{
    let ends = ends_of(alloc, &found.outcomes, &found.addrs)?;
    put_witness(alloc, asked.witness, &found.outcomes, &ends, page)?;
    let is_all = found.outcomes.is_all;
    put_ends(&ends, states_told(asked, &found.outcomes), is_all, out)?;
    Ok(search_status(is_all))
}

/// The status that the program ends with, by whether all ends were found.
fn search_status(all: bool) -> u8
    ensures { result ≡ search_status all }
{
    if all { 0 } else { 5 }
}

/// How many states are told: those that were met, if they are all; else the limit.
fn states_told(asked: &Search<'_>, outcomes: &Outcomes) -> usize
    ensures { result ≡ states_told asked.now outcomes.now }
{
    if outcomes.is_all {
        outcomes.len()
    } else {
        asked.states as usize
    }
}

/// Searches the program in a file, and tells its progress on the way.
fn search<'a, P: Live>(
    alloc: Global,
    asked: &Search<'a>,
    file: &'a [u8],
    progress: &mut P,
) -> Result<Searched, Fault<'a>>
    ensures { MatchResult result
        (λ s. IsSearched asked.now file.now s.outcomes × (s.addrs.items ≡ addresses asked.now.words.items) × AllReadable (setting_at s.outcomes) s.addrs.items)
        (IsUnsearched asked.now file.now) }
{
    let program = program_in(alloc, asked.file, file)?;
    let mut outcomes = begin(alloc, program, asked.harts, asked.memory)?;
    let addrs = readable(alloc, &outcomes.first(), &asked.words)?;
    outcomes.find_all(alloc, asked.states as usize, &mut StateGauge { progress })?;
    Ok(Searched { outcomes, addrs })
}

/// The end with a number, from 1, if there is one.
fn end_numbered(ends: &[End], number: u32) -> Option<&End>
    ensures { option_map (λ e. e.now) result ≡ end_numbered ends.now number }
{
    if number == 0 {
        return None;
    }
    ends.get(number as usize - 1)
}

/// Puts a run to an end, if one is asked for, and has it written out.
fn put_witness<'a, T: Buffered>(
    alloc: Global,
    asked: Option<Witness<'a>>,
    outcomes: &Outcomes,
    ends: &[End],
    page: &mut T,
) -> Result<(), Fault<'a>>
    requires search { IsSearch outcomes.now }
    requires ends { (words : List ℕ) × AreEndsOf outcomes.now words ends.now }
    ensures { MatchResult result
        (λ _. IsWitnessed outcomes.now ends.now (T.state page.old) (T.state page.new) asked.entry)
        (IsUnwitnessed outcomes.now ends.now (T.state page.old) (T.state page.new) asked.entry) }
{
    let Some(witness) = asked else {
        return Ok(());
    };
    match end_numbered(ends, witness.outcome) {
        Some(end) => put_run(alloc, outcomes, end.place, witness.path, page),
        None => Err(Fault::NoOutcome(witness.outcome)),
    }
}

/// Puts the lines of a run to the state at a place, and has them written out. If that fails, the fault names the path of the file.
fn put_run<'a, T: Buffered>(
    alloc: Global,
    outcomes: &Outcomes,
    place: usize,
    path: &'a str,
    page: &mut T,
) -> Result<(), Fault<'a>>
    requires search { IsSearch outcomes.now }
    requires place { place < length outcomes.now.states.keys }
    ensures { MatchResult result
        (λ _. IsRunPut outcomes.now place (T.state page.old) (T.state page.new))
        (IsRunUnput outcomes.now place path.entry (T.state page.old) (T.state page.new)) }
{
    let entries = outcomes.witness(alloc, place)?;
    let names = Symbols::none(alloc);
    match put_lines(&names, &entries, page) {
        Ok(()) => Ok(()),
        Err(_) => Err(Fault::Unmade(path)),
    }
}

/// Puts the lines of entries, and has them written out.
fn put_lines<T: Buffered>(
    names: &Symbols<'_>,
    entries: &[Entry],
    page: &mut T,
) -> Result<(), SinkFault>
    ensures lines { Puts (T.state page.old) (T.state page.new) (lines_of names.now entries.now) result }
    ensures written { OnOk result (IsHandedOn (T.handed page.new) (T.kept page.new) (T.state page.new)) }
{
    put_entries(names, entries, page)?;
    page.flush()
}

/// Puts the lines of entries.
fn put_entries<S: Sink>(
    names: &Symbols<'_>,
    entries: &[Entry],
    sink: &mut S,
) -> Result<(), SinkFault>
    ensures { Puts (S.state sink.old) (S.state sink.new) (lines_of names.now entries.now) result }
{
    for entry in entries {
        put_entry(names, entry, sink)?;
    }
    Ok(())
}
