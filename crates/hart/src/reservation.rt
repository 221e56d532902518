//! The block that LR reserves, for SC.
ghost use Rattle.std.specs.Prelude.{◌≡◌, ℕ, List, Some, None, false};
ghost use Rattle.flat.specs.Reservation.{is_reserved, without_block};
ghost use Rattle.protocol.specs.Hart.{Transaction};
ghost use Rattle.protocol.specs.Core.{no_memory, reserved_with, retire_row};
ghost use Rattle.protocol.specs.HartMessages.{reserved_given};
ghost use Rattle.hart.specs.Shown.{shown_tx};

use crate::hart::Hart;
use crate::reply::CoreStep;
use table::{Effect, MemoryAct};
use transaction::Tx;
use words::{BlockNo, Kind};

/// A reservation, unless it is of this block.
#[inline(always)]
pub(crate) fn without_block(block: BlockNo, reserved: Option<BlockNo>) -> Option<BlockNo>
    ensures { result ≡ without_block block reserved }
{
    match reserved {
        Some(other) if other == block => None,
        _ => reserved,
    }
}

/// What another hart's request leaves of a reservation, where it is met: a block that is written there is reserved no longer.
#[inline(always)]
pub(crate) fn reserved_given(
    kind: Kind,
    block: BlockNo,
    reserved: Option<BlockNo>,
) -> Option<BlockNo>
    ensures { result ≡ reserved_given kind block reserved }
{
    match kind {
        Kind::Read => reserved,
        Kind::Write => without_block(block, reserved),
    }
}

/// What the begin of a transaction leaves of a reservation: none, if it is an outermost one.
#[inline(always)]
pub(crate) fn reserved_begun(tx: &Tx, reserved: Option<BlockNo>) -> Option<BlockNo>
    ensures outside { shown_tx tx.now ≡ None → result ≡ None }
    ensures inside { (t : Transaction) → shown_tx tx.now ≡ Some t → result ≡ reserved }
{
    if tx.depth() == 0 { None } else { reserved }
}

impl<const SETS: usize, const WAYS: usize> Hart<SETS, WAYS> {
    ghost use Rattle.hart.specs.Staying.{StaysPut};
    ghost use Rattle.hart.specs.Shown.{shown_hart};
    ghost use Rattle.hart.specs.Rows.{stepped, is_access};

    /// Whether this is the block that is reserved.
    #[inline(always)]
    pub(crate) fn has_reserved(&self, block: BlockNo) -> bool
        ensures { result ≡ is_reserved block self.now.reserved }
    {
        match self.reserved {
            Some(reserved) => reserved == block,
            None => false,
        }
    }

    /// The block that is reserved after an access: its own, if it is a load that reserves it.
    #[inline(always)]
    pub(crate) fn reserved_with(&self, m: &MemoryAct) -> Option<BlockNo>
        ensures { result ≡ reserved_with m.now m.now.load self.now.reserved }
    {
        match &m.load {
            Some(load) if load.reserves => Some(m.addr.block()),
            _ => self.reserved,
        }
    }

    /// Reserves the block of an access, if it is a load that does so. The field isn't written by any other: in a function that is
    /// inlined for one kind of word nothing is left of this.
    #[inline(always)]
    pub(crate) fn reserve(&mut self, m: &MemoryAct)
        ensures hart { self.new ≡ record self.old { reserved = reserved_with m.now m.now.load self.old.reserved } }
        ensures stays { StaysPut self.old self.new }
    {
        match &m.load {
            Some(load) if load.reserves => self.reserved = Some(m.addr.block()),
            _ => {}
        }
    }

    /// Retires a word without an access, which leaves no block reserved: a conditional store that fails.
    pub(crate) fn retire_unreserved(&mut self, word: u32, effect: &Effect) -> CoreStep
        requires { is_access effect.now.act ≡ false }
        ensures row { (output : List ℕ) →
            retire_row self.old.index no_memory word effect.now (record (shown_hart SETS output self.old) { reserved = None })
            ≡ stepped SETS output self.new result }
        ensures cache { self.new.cache ≡ self.old.cache }
        ensures stays { StaysPut self.old self.new }
    {
        self.reserved = None;
        self.retire(word, effect)
    }
}
