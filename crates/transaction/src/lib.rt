//! The transaction of one hart: how deep it is nested, what to go back to when it is aborted, its stamp, and its undo log.
#![tactic(auto)]

mod fault;
mod tx;

pub use fault::TxFault;
pub use tx::{DEPTHS, Restart, Tx};
