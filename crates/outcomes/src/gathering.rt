//! The distinct reports of the ends of a search.
ghost use Rattle.std.specs.Prelude.{◌≡◌, ◌<◌, ◌+◌, IfOk, OnOk, length};
ghost use Rattle.std.specs.List.Sorted.{IsStrictlySortedBy};
ghost use Rattle.std.specs.Ordering.{nat_cmp};
ghost use Rattle.std.specs.Cmp.Lexicographic.{slice_cmp};
ghost use Rattle.render.specs.Reports.{AllReadable, report_of};
ghost use Rattle.outcomes.specs.Searches.{IsSearch, setting_at};
ghost use Rattle.outcomes.specs.Standings.{setting_of, flat_of};
ghost use Rattle.outcomes.specs.Ends.{AreEndsOf, reports_of};

use crate::breadth_first::Outcomes;
use crate::standing::Standing;
use render::report;
use std::alloc::{AllocError, Global};
use std::collections::BTreeMap;
use words::{Addr, Taken};

/// An end of a program: its report, and the place of the first state that has it.
#[derive(Debug, Drop)]
pub struct End {
    pub report: Vec<u8>,
    pub place: usize,
}

/// The reports found so far, each with the place of the first state that has it.
#[derive(Drop)]
struct Found {
    places: BTreeMap<Vec<u8>, usize>,
}

/// The report on a state. It fails only if memory runs out.
fn report_on(alloc: Global, standing: &Standing<'_>, words: &[Addr]) -> Result<Vec<u8>, AllocError>
    requires { AllReadable (setting_of standing.now.scene) words.now }
    ensures { IfOk result (λ text. text.items ≡ report_of (flat_of standing.now) words.now) }
{
    let mut sink = Taken {
        bytes: Vec::new(alloc),
        failed: 0,
    };
    match report(standing, words, &mut sink) {
        Ok(()) => Ok(sink.bytes),
        Err(_) => Err(AllocError),
    }
}

impl Found {
    ghost use Rattle.outcomes.specs.Found.{ends_in, IsKept, AreEndsAmong};

    /// Keeps a report and its place, unless the report was found before. It fails only if memory runs out.
    fn keep(&mut self, report: Vec<u8>, place: usize) -> Result<(), AllocError>
        ensures { OnOk result (IsKept (ends_in self.old) (ends_in self.new) report.items place) }
    {
        if self.places.contains_key(report.as_slice()) {
            return Ok(());
        }
        self.places.insert(report, place)?;
        Ok(())
    }

    /// Adds the end at the next place, if no hart runs there. It fails only if memory runs out.
    fn add(
        &mut self,
        alloc: Global,
        outcomes: &Outcomes,
        place: usize,
        words: &[Addr],
    ) -> Result<(), AllocError>
        requires search { IsSearch outcomes.now }
        requires readable { AllReadable (setting_at outcomes.now) words.now }
        requires place { place < length outcomes.now.states.keys }
        requires among { AreEndsAmong outcomes.now words.now place (ends_in self.old) }
        ensures { OnOk result (AreEndsAmong outcomes.now words.now (place + 1) (ends_in self.new)) }
    {
        let Some(standing) = outcomes.get(place) else {
            return Ok(());
        };
        if !standing.is_ended() {
            return Ok(());
        }
        let report = report_on(alloc, &standing, words)?;
        self.keep(report, place)
    }

    /// The ends, in the order of their reports. It fails only if memory runs out.
    fn listed(self, alloc: Global) -> Result<Vec<End>, AllocError>
        ensures same { IfOk result (λ ends. ends.items ≡ ends_in self) }
        ensures ascending { IsStrictlySortedBy (slice_cmp nat_cmp) (reports_of (ends_in self)) }
    {
        self.places
            .into_iter()
            .map(|(report, place)| End { report, place })
            .collect(alloc)
    }
}

/// The reports of all ends that a search found, with the words at these addresses: each report once, with the place of the first state that has it,
/// in the order of their bytes. It fails only if memory runs out.
pub fn ends_of(alloc: Global, outcomes: &Outcomes, words: &[Addr]) -> Result<Vec<End>, AllocError>
    requires search { IsSearch outcomes.now }
    requires readable { AllReadable (setting_at outcomes.now) words.now }
    ensures { IfOk result (λ ends. AreEndsOf outcomes.now words.now ends.items) }
{
    let mut found = Found {
        places: BTreeMap::new(alloc),
    };
    for place in 0..outcomes.len() {
        found.add(alloc, outcomes, place, words)?;
    }
    found.listed(alloc)
}
