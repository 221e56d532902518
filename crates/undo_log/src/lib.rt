//! The undo log of a hart: the blocks that its transaction stored to, as they were before.
//!
//! A log is its bytes and a pointer, a plain value that takes no memory. Contracts speak of the list of records that the bytes
//! below the pointer say, the oldest first.
#![tactic(auto)]

mod laws;
mod log;
mod record;

pub use laws::undoing_restores;
pub use log::{LogFull, UndoLog};
pub use record::{RECORD_BYTES, Record};
