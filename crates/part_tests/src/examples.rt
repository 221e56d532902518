//! Example runs of the protocol: small programs, step by step, with the entries that they give and what they lead to. So steps of every
//! kind are enabled, and do what is said of them.
//!
//! Nobody who believes the definitions of crate `protocol` has to read this. Each function is an example: its contract says what is
//! reached, and its body is empty.
mod aborts;
mod atomics;
mod conflicts;
mod nesting;
mod sharing;
mod spills;

pub use aborts::{
    a_full_log_starts_an_abort, a_trap_rolls_the_transaction_back, an_abort_keeps_others_out,
    an_exit_stops_a_hart, the_newest_record_is_undone_first,
};
pub use atomics::{an_atomic_operation_asks_to_write, an_atomic_operation_is_undone};
pub use conflicts::{
    a_store_is_kept_until_the_commit, one_refusal_is_enough, the_later_of_two_gives_way,
};
pub use nesting::{an_inner_abort_goes_back_to_the_outermost_begin, an_inner_commit_ends_nothing};
pub use sharing::{
    a_put_is_overtaken, a_store_to_an_exclusive_line_is_silent, an_exclusive_line_goes_back,
    an_outdated_put_overwrites_nothing, an_owner_answers_a_read, an_unused_line_is_shared,
    an_upgrade_keeps_the_line,
};
pub use spills::{
    a_dropped_line_still_refuses, a_full_set_evicts_a_line, a_second_put_waits,
    a_spilled_store_is_kept_and_undone, a_sticky_owner_is_forgotten,
    a_sticky_owner_is_given_the_block_to_write,
};
