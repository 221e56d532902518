//! The cache of one hart: SETS sets of WAYS lines, found by the number of a block. A cache is a plain value,
//! which is copied and compared as a whole and takes no memory of its own.
#![tactic(auto)]

mod bytes;
mod cache;
mod line;
mod occupied;
mod sets;
mod ways;

pub use bytes::with_bytes;
pub use cache::Cache;
pub use line::Line;
pub use ways::Victim;
