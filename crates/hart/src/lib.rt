//! One hart of the coherent machine, with its cache, its transaction and its undo log: what its core does in a step, and what it
//! does with a message. A hart is a plain value, which is copied and compared as a whole and takes no memory of its own. Refusals,
//! the overflow bit and the possible-cycle flag are LogTM's (Moore, Bobba, Moravan, Hill and Wood, HPCA 2006).
#![tactic(auto)]

mod aborts;
mod access;
mod advance;
mod assign;
mod causes;
mod common;
mod enabled;
mod evict;
mod hart;
mod local;
mod messages;
mod reads;
mod reply;
mod reservation;
mod retire;
mod step;
mod transactions;

pub use conflict::{Granted, PutOut, Request};
pub use hart::Hart;
pub use reply::{Asked, CommonStep, CoreStep, ForwardAnswer, Local, Reply, Settled};
