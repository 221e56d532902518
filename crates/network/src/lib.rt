//! The messages in flight between harts and the directory.
#![tactic(auto)]

mod net;

pub use net::{Flight, Net};
