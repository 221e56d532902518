ghost use Rattle.std.specs.Prelude.{◌≡◌, ◌<◌, ◌++◌, ℕ, List, IfOk, OnOk, reverse, length};
ghost use Rattle.words.specs.declared.entry.Entry.{Entry};
ghost use Rattle.isolation.specs.Walks.{WalksInOrder, entries_of};
ghost use Rattle.outcomes.specs.declared.pool.State.{State};
ghost use Rattle.outcomes.specs.Searches.{place_at, shown_by, Stands, IsSearch};

use crate::breadth_first::{Move, Outcomes};
use crate::list::{push, turn_round};
use std::alloc::{AllocError, Global};
use words::{AbortCause, Entry, HartId};

/// A hart's abort for a conflict.
fn abort(hart: HartId) -> Entry
    ensures { result ≡ Entry.Abort hart AbortCause.Conflict }
{
    Entry::Abort {
        hart,
        cause: AbortCause::Conflict,
    }
}

/// Pushes a move's entries, the last first.
fn push_back(entries: &mut Vec<Entry>, shown: &Move) -> Result<(), AllocError>
    ensures { OnOk result (entries.new.items ≡ entries.old.items ++ reverse (shown_by shown.now)) }
{
    match shown {
        Move::One(entry) => push(entries, *entry)?,
        Move::Two(one, other) => {
            push(entries, abort(*other))?;
            push(entries, abort(*one))?;
        }
    }
    Ok(())
}

impl Outcomes {
    /// A run to the state at a place: its entries. It fails only if memory runs out.
    pub fn witness(&self, alloc: Global, place: usize) -> Result<Vec<Entry>, AllocError>
        requires search { IsSearch self.now }
        requires place { place < length self.now.states.keys }
        ensures { IfOk result (λ es. (x y : State) → Stands self.now 0 x → Stands self.now place y → (ess : List (List Entry)) × (es.items ≡ entries_of ess) × WalksInOrder (place_at self.now x) ess (place_at self.now y)) }
    {
        let mut entries = Vec::new(alloc);
        let mut at = place;
        while at > 0 {
            let origin = &self.origins[at - 1];
            push_back(&mut entries, &origin.shown)?;
            at = origin.from;
        }
        turn_round(&mut entries);
        Ok(entries)
    }
}
