//! The protocol by which harts with caches and a directory share memory, as definitions: the state of each part, a row for each event, and
//! the whole machine's steps.
//!
//! There is no state of the simulator here: the definitions stand in `specs/`, and each function below is a law, whose
//! contract is the statement and whose body is empty.
#![tactic(auto)]

mod laws;

pub use laws::{
    held_messages_stay, more_keys_change_no_value, nothing_is_in_flight_at_the_start, runs_split,
    settings_stay, stopped_harts_rest,
};
