//! The states that the moves of a state lead to.

use crate::harts::FULL;
use crate::rules::{Next, Order, Rules};
use crate::states::{Core, Whole};
use std::alloc::{AllocError, Global};
use table::{Act, Effect, MemoryAct};
use words::{Addr, Cause, Status};

/// Whether an effect loads or stores, or may.
fn is_access(effect: &Effect) -> bool {
    matches!(&effect.act, Act::Memory(_) | Act::Conditional(_, _))
}

/// Whether an effect stores, or may.
fn is_store(effect: &Effect) -> bool {
    match &effect.act {
        Act::Memory(m) | Act::Conditional(_, m) => m.store.is_some(),
        _ => false,
    }
}

/// The block of an access.
fn block_of(m: &MemoryAct) -> u32 {
    m.addr.value() / 32
}

/// The block that an act stores to.
fn block_stored(act: &Act) -> Option<u32> {
    match act {
        Act::Memory(m) if m.store.is_some() => Some(block_of(m)),
        _ => None,
    }
}

/// The block that a hart has reserved after its own word.
fn reserved_after(core: &Core, act: &Act) -> Option<u32> {
    match act {
        Act::Memory(m) => match m.load {
            Some(load) if load.reserves => Some(block_of(m)),
            _ => core.reserved,
        },
        Act::Conditional(_, _) => None,
        Act::Begin(_) if core.depth() == 0 => None,
        Act::Commit if core.depth() == 1 => None,
        _ => core.reserved,
    }
}

/// Ends the reservations of a block, but for this hart's.
fn end_reservations(cores: &mut Vec<Core>, this: usize, block: u32) {
    for k in 0..cores.len() {
        if let Some(core) = cores.get_mut(k) {
            if k != this && core.reserved == Some(block) {
                core.reserved = None;
            }
        }
    }
}

/// The state with a hart's transaction rolled back, and the hart stopped if a cause is given. Without a transaction it is only stopped.
fn rolled_back(state: &Whole, i: usize, cause: Option<Cause>) -> Result<Whole, AllocError> {
    let mut next = state.copy()?;
    if let Some(core) = next.cores.get_mut(i) {
        if let Some(cause) = cause {
            core.status = Status::Stopped(cause, Addr::new(core.pc));
        }
        core.reserved = None;
        if let Some(attempt) = core.attempt.take() {
            let checkpoint = attempt.checkpoint;
            core.regs = checkpoint;
            core.pc = attempt.abort_pc;
        }
    }
    Ok(next)
}

// What a hart is about to do.
impl Rules<'_> {
    fn next_of(&self, state: &Whole, i: usize) -> Next {
        match state.cores.get(i) {
            Some(core) => self.next(core),
            None => Next::Nothing,
        }
    }

    /// Whether an effect is kept out by another hart's transaction.
    fn is_kept_out(&self, state: &Whole, i: usize, effect: &Effect) -> bool {
        match &effect.act {
            Act::Memory(m) | Act::Conditional(_, m) => {
                state.is_kept_from(i, block_of(m), m.store.is_some())
            }
            _ => false,
        }
    }

    /// Whether an effect is a conditional store to a block that its hart hasn't reserved.
    fn has_lost(&self, state: &Whole, i: usize, effect: &Effect) -> bool {
        match (&effect.act, state.cores.get(i)) {
            (Act::Conditional(_, m), Some(core)) => core.reserved != Some(block_of(m)),
            _ => false,
        }
    }

    /// Whether a hart is in a transaction at a load or a store, and another is in a transaction.
    fn may_give_way(&self, state: &Whole, i: usize) -> bool {
        let Some(core) = state.cores.get(i) else {
            return false;
        };
        match self.next(core) {
            Next::Does(effect) => {
                core.depth() > 0 && is_access(&effect) && state.is_beside(i, i)
            }
            Next::Nothing | Next::Stops(_) => false,
        }
    }

    /// Whether a hart is at a store after as many stores in its transaction as a log holds.
    fn may_overflow(&self, state: &Whole, i: usize) -> bool {
        let Some(core) = state.cores.get(i) else {
            return false;
        };
        match (self.next(core), &core.attempt) {
            (Next::Does(effect), Some(attempt)) => is_store(&effect) && attempt.stores >= FULL,
            _ => false,
        }
    }

    /// The lowest hart at a register operation, a jump or a branch.
    fn first_local(&self, state: &Whole) -> Option<usize> {
        for i in 0..state.cores.len() {
            if let Next::Does(effect) = self.next_of(state, i) {
                if effect.act == Act::Nothing {
                    return Some(i);
                }
            }
        }
        None
    }
}

// The moves.
impl Rules<'_> {
    /// The state after an effect of a hart, where a conditional store succeeds or fails.
    fn retired(
        &self,
        alloc: Global,
        state: &Whole,
        i: usize,
        effect: &Effect,
        succeeds: bool,
    ) -> Result<Whole, AllocError> {
        let done = effect.resolved(succeeds);
        let Whole {
            mut cores,
            mut memory,
        } = state.copy()?;
        if let Some(core) = cores.get_mut(i) {
            let reserved = reserved_after(core, &effect.act);
            self.retire(alloc, core, &mut memory, &done)?;
            core.reserved = reserved;
        }
        if let Some(block) = block_stored(&done.act) {
            end_reservations(&mut cores, i, block);
        }
        Ok(Whole { cores, memory })
    }

    /// Pushes what a hart's own word leads to.
    fn push_own(
        &self,
        alloc: Global,
        state: &Whole,
        i: usize,
        moves: &mut Vec<Whole>,
    ) -> Result<(), AllocError> {
        match self.next_of(state, i) {
            Next::Nothing => {}
            Next::Stops(cause) => moves.push(rolled_back(state, i, Some(cause))?)?,
            Next::Does(effect) if effect.act == Act::Abort => {
                moves.push(rolled_back(state, i, None)?)?;
            }
            Next::Does(effect) => {
                let is_failure = self.has_lost(state, i, &effect);
                if !is_failure && !self.is_kept_out(state, i, &effect) {
                    moves.push(self.retired(alloc, state, i, &effect, true)?)?;
                }
                if let Act::Conditional(_, _) = effect.act {
                    moves.push(self.retired(alloc, state, i, &effect, false)?)?;
                }
            }
        }
        Ok(())
    }

    /// Pushes the two harts' aborts for each other, where both may give way and no third is in a transaction.
    fn push_pair(
        &self,
        state: &Whole,
        i: usize,
        j: usize,
        moves: &mut Vec<Whole>,
    ) -> Result<(), AllocError> {
        if self.may_give_way(state, i) && self.may_give_way(state, j) && !state.is_beside(i, j) {
            let between = rolled_back(state, i, None)?;
            moves.push(rolled_back(&between, j, None)?)?;
        }
        Ok(())
    }

    /// Pushes what all moves of a hart lead to, alone and with each above it.
    fn push_all(
        &self,
        alloc: Global,
        state: &Whole,
        i: usize,
        moves: &mut Vec<Whole>,
    ) -> Result<(), AllocError> {
        self.push_own(alloc, state, i, moves)?;
        if self.may_give_way(state, i) || self.may_overflow(state, i) {
            moves.push(rolled_back(state, i, None)?)?;
        }
        for j in 0..state.cores.len() {
            if j > i {
                self.push_pair(state, i, j, moves)?;
            }
        }
        Ok(())
    }

    /// The states that the moves of a state lead to.
    pub(crate) fn moves(&self, alloc: Global, state: &Whole) -> Result<Vec<Whole>, AllocError> {
        let mut moves = Vec::new(alloc);
        if self.order == Order::LocalFirst {
            if let Some(i) = self.first_local(state) {
                self.push_own(alloc, state, i, &mut moves)?;
                return Ok(moves);
            }
        }
        for i in 0..state.cores.len() {
            self.push_all(alloc, state, i, &mut moves)?;
        }
        Ok(moves)
    }
}
