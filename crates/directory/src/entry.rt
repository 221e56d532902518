ghost use Rattle.std.specs.Prelude.{◌≡◌, ◌↔◌, ◌<◌, ◌≤◌, ◌≢◌, ℕ, false, None, Some, IfSome, IfNone, IsTrue};
ghost use Rattle.words.specs.Harts.{names};
ghost use Rattle.words.specs.Limits.{most_harts};
ghost use Rattle.protocol.specs.Directory.{first_entry};

use words::{HartId, HartSet, LineState};

/// Who alone may hold a block in E or M.
#[derive(Clone, Copy, Debug, PartialEq, Eq)]
pub enum Owner {
    Nobody,
    /// A hart that was given the block in E or M.
    Owned(HartId),
    /// An owner that has given the block up in a transaction that may have used it: requests are still forwarded to it, so that
    /// it can refuse them (the sticky state of LogTM, Moore and others, HPCA 2006).
    Sticky(HartId),
}

/// The request that a block is busy with, from its Get to its Done, and what it is given.
#[derive(Clone, Copy, Debug, PartialEq, Eq)]
pub struct Busy {
    pub requester: HartId,
    pub give: LineState,
}

/// What the directory knows of a block.
#[derive(Clone, Copy, Debug, PartialEq, Eq)]
pub struct DirEntry {
    pub owner: Owner,
    /// The harts that may hold the block in S. An owner leaves no sharers, and a sharer may have dropped the block since.
    pub sharers: HartSet,
    pub busy: Option<Busy>,
}

impl DirEntry {
    ghost use Rattle.directory.specs.Entries.{shown_entry, NamesBelow};
    ghost use Rattle.directory.specs.declared.entry.Busy.{Busy};

    /// The entry of a block that nobody has asked for.
    pub fn first() -> Self
        ensures { shown_entry result ≡ first_entry }
    {
        DirEntry {
            owner: Owner::Nobody,
            sharers: HartSet::empty(),
            busy: None,
        }
    }

    /// What a hart is given by the request that the block is busy with, if it is the hart's own.
    #[inline(always)]
    pub(crate) fn given_to(&self, hart: HartId) -> Option<LineState>
        ensures some { IfSome result (λ give. self.now.busy ≡ Some (record { requester = hart; give = give })) }
        ensures none { IfNone result ((q : Busy) → self.now.busy ≡ Some q → q.requester ≢ hart) }
    {
        match self.busy {
            Some(busy) if busy.requester.index() == hart.index() => Some(busy.give),
            _ => None,
        }
    }

    /// The entry once a request was refused.
    pub(crate) fn ended(&self) -> Self
        ensures { result ≡ record self.now { busy = None } }
    {
        DirEntry {
            busy: None,
            ..*self
        }
    }

    /// Whether this is the entry of a block that nobody has asked for.
    pub(crate) fn is_first(&self, harts: usize) -> bool
        requires harts { harts ≤ most_harts }
        requires named { NamesBelow harts (shown_entry self.now) }
        ensures { IsTrue result ↔ (shown_entry self.now ≡ first_entry) }
    {
        match (self.owner, self.busy) {
            (Owner::Nobody, None) => is_empty(&self.sharers, harts),
            _ => false,
        }
    }
}

/// Whether a set names none of the first harts.
fn is_empty(set: &HartSet, harts: usize) -> bool
    requires { harts ≤ most_harts }
    ensures { IsTrue result ↔ ((h : ℕ) → h < harts → names set.now h ≡ false) }
{
    set.below(harts).is_empty()
}
