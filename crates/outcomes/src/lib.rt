//! All ends of a program: a search of every state that the moves of its harts lead to, breadth first; the distinct reports of the ends that it found;
//! and the laws that each end of the coherent machine is among them, and that each of them is reached.
#![tactic(auto)]

mod abort;
mod breadth_first;
mod change;
mod engine;
mod gathering;
mod gauge;
mod hart;
mod laws;
mod list;
mod memory;
mod overlay;
mod pool;
mod reservations;
mod scene;
mod standing;
mod start;
mod turns;
mod witness;

pub use breadth_first::{Move, Origin, Outcomes};
pub use change::{Change, Turn};
pub use gathering::{End, ends_of};
pub use gauge::{GAUGE_INTERVAL, Gauge, Untold};
pub use hart::{Hart, Transaction};
pub use laws::{all_ends_are_listed, end_is_told, listed_ends_are_reached, lists_are_one};
pub use memory::Memory;
pub use overlay::{Footprint, Overlay};
pub use pool::{Pool, State};
pub use reservations::Reservations;
pub use scene::Scene;
pub use standing::Standing;
pub use start::begin;
