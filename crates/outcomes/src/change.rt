use crate::hart::Hart;
use crate::memory::Memory;
use words::{Entry, HartId};

/// What a hart becomes, and memory, if it changes.
#[derive(Drop)]
pub struct Change {
    pub id: HartId,
    pub hart: Hart,
    pub memory: Option<Memory>,
}

/// A move: of one hart, with its entry, or of two that abort for each other.
#[derive(Drop)]
pub enum Turn {
    Alone(Entry, Change),
    Together(Change, Change),
}
