//! The directory of the coherent machine: what it knows of each block, the words of memory, and its answers to the harts. Owners
//! that stay sticky and forwards to those who may refuse are LogTM's (Moore, Bobba, Moravan, Hill and Wood, HPCA 2006).
#![tactic(auto)]

mod directory;
mod entry;
mod received;
mod rules;

pub use directory::{BLOCKS, Directory};
pub use entry::{Busy, DirEntry, Owner};
pub use received::{Answer, Given, Outgoing, Received, Sends};
pub use rules::Request;
