//! Isolation: the machine of crate `protocol` is the flat machine, whatever the steps and their order; and each of its ends is an end of a search that
//! interleaves no more than has to be.
//!
//! There is no state of the simulator here: the definitions stand in `specs/`, and each function below is a law, whose
//! contract is the statement and whose body is empty. docs/ISOLATION.md tells the argument. The proof works at one block at a time
//! (`proofs/OneBlock`): the protocol there, and the invariant that each step keeps.
#![tactic(auto)]

mod bounds;
mod earliest;
mod endings;
mod facts;
mod laws;

pub use bounds::{accesses_lie_in_memory, blocks_are_in_memory};
pub use earliest::{conflicts_spare_the_earliest, conflicts_spare_the_first};
pub use endings::{
    coherent_runs_have_reasons, conflicts_come_beside_others, ended_states_are_last,
    ends_are_reached, local_words_need_no_interleaving, settings_stay_along_walks, walks_are_runs,
};
pub use facts::{
    each_message_is_awaited, lines_agree, lines_fit, logs_fit, logs_undo_to_memory,
    requests_are_one, sets_are_covered, undos_go_through, unreachable_cases_never_occur,
    victims_make_room, who_acknowledged_has_given_up,
};
pub use laws::{
    answers_are_the_flat_machines, conditional_stores_have_reasons, conflicts_have_reasons,
    entries_are_a_flat_run, entries_lead_on_with_reasons, refusals_have_reasons,
    reservations_are_known, retirements_are_rows, steps_exist,
};
