//! The flat machine: what a run of a program on one memory is, and the laws that hold of every run.
//!
//! There is no state of the simulator here: the definitions stand in `specs/`, and each function in `laws` is a law, whose
//! contract is the statement and whose body is empty. `Engine` says what is read of a machine that flat states belong to, and
//! `BootFault` why there is none.
#![tactic(auto)]

mod boot_fault;
mod engine;
mod laws;

pub use boot_fault::BootFault;
pub use engine::Engine;
pub use laws::{
    aborted_attempts_leave_nothing, aborts_leave_memory, commits_are_whole, one_end, one_result,
    others_stay, plain_runs_are_sequential, run_of_two, settings_stay, touched_blocks_stay,
    transactions_are_serial, transactions_keep_apart, unwritten_blocks_are_memory,
    writes_are_seen_alone,
};
