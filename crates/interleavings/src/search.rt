//! All states of a program.

use crate::pictures::{push_hart, push_number};
use crate::rules::{Order, Rules, Source};
use crate::states::Whole;
use std::alloc::{AllocError, Global};
use std::collections::{BTreeSet, HashSet};

/// What was found: how many states there are, how many of them are ends, and the pictures of these.
#[derive(Debug, Drop)]
pub struct Ends {
    pub states: usize,
    pub count: usize,
    pub pictures: BTreeSet<Vec<u32>>,
}

/// The states that were met, and those of them whose moves are still to be made.
#[derive(Drop)]
struct Search<'p> {
    rules: Rules<'p>,
    met: HashSet<Whole>,
    open: Vec<Whole>,
    count: usize,
    pictures: BTreeSet<Vec<u32>>,
}

impl Search<'_> {
    /// What is to be seen of an end.
    fn picture(&self, alloc: Global, state: &Whole) -> Result<Vec<u32>, AllocError> {
        let mut picture = Vec::new(alloc);
        for core in &state.cores {
            push_hart(
                &mut picture,
                &core.regs,
                core.pc,
                &core.status,
                &core.output,
            )?;
        }
        for word in 0..32u32 {
            let mut bytes = [0u8; 4];
            for k in 0..4u32 {
                bytes[k as usize] = self.rules.byte(&state.memory, 4 * word + k);
            }
            push_number(&mut picture, u32::from_le_bytes(bytes))?;
        }
        Ok(picture)
    }

    /// Notes a state, if it is new.
    fn meet(&mut self, alloc: Global, state: Whole) -> Result<(), AllocError> {
        if self.met.contains(&state) {
            return Ok(());
        }
        if state.is_ended() {
            self.count = self.count.saturating_add(1);
            let picture = self.picture(alloc, &state)?;
            self.pictures.insert(picture)?;
        }
        self.met.insert(state.copy()?)?;
        self.open.push(state)?;
        Ok(())
    }

    /// Makes the moves of states, so many at most. Whether none is left.
    fn go(&mut self, alloc: Global, limit: usize) -> Result<bool, AllocError> {
        for _ in 0..limit {
            let Some(state) = self.open.pop() else {
                return Ok(true);
            };
            for next in self.rules.moves(alloc, &state)? {
                self.meet(alloc, next)?;
            }
        }
        Ok(self.open.is_empty())
    }
}

/// All ends of a program on a machine of so many harts and bytes of memory. `None` where it has more states than the limit.
pub fn all_ends(
    alloc: Global,
    source: &Source<'_>,
    harts: u32,
    size: u32,
    order: Order,
    limit: usize,
) -> Result<Option<Ends>, AllocError> {
    let rules = Rules {
        source: *source,
        size,
        harts,
        order,
    };
    let mut search = Search {
        rules,
        met: HashSet::new(alloc),
        open: Vec::new(alloc),
        count: 0,
        pictures: BTreeSet::new(alloc),
    };
    search.meet(alloc, rules.first(alloc)?)?;
    if !search.go(alloc, limit)? {
        return Ok(None);
    }
    Ok(Some(Ends {
        states: search.met.len(),
        count: search.count,
        pictures: search.pictures,
    }))
}
