//! The blocks that LR has reserved, and what a move leaves of them.
ghost use Rattle.std.specs.Prelude.{◌≡◌, [], ◌∷◌, ℕ, Some, None, false, IsTrue, IfSome, IfNone};
ghost use Rattle.std.specs.Option.{option_map};
ghost use Rattle.table.specs.Table.{decoded};
ghost use Rattle.flat.specs.Bytes.{put_at};
ghost use Rattle.flat.specs.Reservation.{without_block};
ghost use Rattle.flat.specs.Reservations.{block_of, reserved_after, reserved_by, reserved_beside, IsConditional, StoreHasReason};
ghost use Rattle.isolation.specs.Moves.{depths, IsReserved, reserved_behind};
ghost use Rattle.outcomes.specs.Standings.{flat_of};

use crate::breadth_first::Move;
use crate::standing::Standing;
use table::{Instr, decode};
use words::{Access, Entry, HARTS, HartId};

/// For each hart the number of the block that it has reserved.
#[derive(Clone, Copy, PartialEq, Eq, Hash)]
pub struct Reservations {
    pub blocks: [Option<u32>; HARTS],
}

/// The block of an access.
fn block_of(access: &Access) -> u32
    ensures { result ≡ block_of access.now }
{
    access.addr.block().number()
}

/// Whether a word is SC.
fn is_conditional(word: u32) -> bool
    ensures yes { IsTrue result → IsConditional (decoded word) }
    ensures no { result ≡ false → IsConditional (decoded word) → ⊥ }
{
    match decode(word) {
        Some(Instr::StoreConditional { .. }) => true,
        _ => false,
    }
}

/// A reservation, unless it is of this block.
fn without_block(block: u32, reserved: Option<u32>) -> Option<u32>
    ensures { result ≡ without_block block reserved }
{
    match reserved {
        Some(other) if other == block => None,
        _ => reserved,
    }
}

/// What a store of another hart leaves of a reservation.
fn reserved_beside(store: &Option<Access>, reserved: Option<u32>) -> Option<u32>
    ensures { result ≡ reserved_beside store.now reserved }
{
    match store {
        Some(store) => without_block(block_of(store), reserved),
        None => reserved,
    }
}

/// The block that is loaded from, if one is.
fn block_loaded(load: &Option<Access>) -> Option<u32>
    ensures { result ≡ option_map block_of load.now }
{
    match load {
        Some(load) => Some(block_of(load)),
        None => None,
    }
}

/// What a hart's word leaves of its own reservation, by how deep the hart was in transactions.
fn reserved_by(word: u32, depth: u8, load: &Option<Access>, reserved: Option<u32>) -> Option<u32>
    ensures { result ≡ reserved_by (decoded word) depth load.now reserved }
{
    match decode(word) {
        Some(Instr::LoadReserved { .. }) => block_loaded(load),
        Some(Instr::StoreConditional { .. }) => None,
        Some(Instr::TBegin { .. }) if depth == 0 => None,
        Some(Instr::TCommit) if depth == 1 => None,
        _ => reserved,
    }
}

impl Reservations {
    ghost use Rattle.outcomes.specs.Reservations.{reserved_of};
    ghost use Rattle.outcomes.specs.Searches.{shown_by};

    /// No hart has reserved a block.
    pub fn none() -> Self
        ensures { (i : ℕ) → reserved_of result i ≡ None }
    {
        Reservations {
            blocks: [None; HARTS],
        }
    }

    /// The block that a hart has reserved.
    fn of(&self, hart: HartId) -> Option<u32>
        ensures { result ≡ reserved_of self.now hart }
    {
        self.blocks[hart.index()]
    }

    /// The same with another reservation of a hart.
    fn with(&self, hart: HartId, reserved: Option<u32>) -> Reservations
        ensures { (k : ℕ) → reserved_of result k ≡ put_at hart reserved (reserved_of self.now) k }
    {
        let mut next = *self;
        next.blocks[hart.index()] = reserved;
        next
    }

    /// What a store leaves of all reservations.
    fn beside(&self, store: &Option<Access>) -> Reservations
        ensures { (k : ℕ) → reserved_of result k ≡ reserved_beside store.now (reserved_of self.now k) }
    {
        let mut next = *self;
        for k in 0..HARTS {
            next.blocks[k] = reserved_beside(store, self.blocks[k]);
        }
        next
    }

    /// Whether a hart may store by this word: if it is SC, the block is reserved.
    fn lets_store(&self, hart: HartId, word: u32, store: &Access) -> bool
        ensures yes { IsTrue result → StoreHasReason (reserved_of self.now) hart word (Some store.now) }
        ensures no { result ≡ false → StoreHasReason (reserved_of self.now) hart word (Some store.now) → ⊥ }
    {
        !is_conditional(word) || self.of(hart) == Some(block_of(store))
    }

    /// Whether an entry has its reason, where it is of an SC that succeeds.
    fn has_reason(&self, entry: &Entry) -> bool
        ensures yes { IsTrue result → IsReserved (reserved_of self.now) (entry.now ∷ []) }
        ensures no { result ≡ false → IsReserved (reserved_of self.now) (entry.now ∷ []) → ⊥ }
    {
        match entry {
            Entry::Retire {
                hart,
                word,
                store: Some(store),
                ..
            } => self.lets_store(*hart, *word, store),
            _ => true,
        }
    }

    /// The reservations after an entry that a state gives.
    fn after(&self, standing: &Standing<'_>, entry: &Entry) -> Reservations
        ensures { (k : ℕ) → reserved_of result k ≡ reserved_after (depths (flat_of standing.now)) entry.now (reserved_of self.now) k }
    {
        match entry {
            Entry::Retire {
                hart,
                word,
                load,
                store,
                ..
            } => {
                let own = reserved_by(*word, standing.depth(*hart), load, self.of(*hart));
                self.beside(store).with(*hart, own)
            }
            Entry::Abort { hart, .. } | Entry::Trap { hart, .. } => self.with(*hart, None),
            Entry::Refuse { .. } | Entry::Spill { .. } => *self,
        }
    }

    /// The reservations behind a move from a state. None where an SC would succeed without a reservation.
    pub fn behind(&self, standing: &Standing<'_>, shown: &Move) -> Option<Reservations>
        ensures some { IfSome result (λ r. IsReserved (reserved_of self.now) (shown_by shown.now) × ((k : ℕ) → reserved_of r k ≡ reserved_behind (flat_of standing.now) (reserved_of self.now) (shown_by shown.now) k)) }
        ensures none { IfNone result (IsReserved (reserved_of self.now) (shown_by shown.now) → ⊥) }
    {
        match shown {
            Move::One(entry) => {
                if self.has_reason(entry) {
                    Some(self.after(standing, entry))
                } else {
                    None
                }
            }
            Move::Two(one, other) => Some(self.with(*one, None).with(*other, None)),
        }
    }
}
