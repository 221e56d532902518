//! The coherent machine: harts with caches and undo logs, a directory, and the messages in flight between them.
#![tactic(auto)]

mod arrivals;
mod engine;
mod flights;
mod info;
mod kept;
mod laws;
mod lent;
mod listener;
mod loaded;
mod machine;
mod mail;
mod peek;
mod play;
mod progress;
mod reads;
mod ring;
mod rows;
mod run;
mod seat;
mod seating;
mod serving;
mod slices;
mod start;
mod step;
mod taking;
mod turns;
mod values;
mod watch;

pub use info::TxInfo;
pub use laws::{a_step_has_one_outcome, a_turn_is_one_step, steps_that_are_made_are_steps};
pub use listener::{Listener, Meter, Nobody};
pub use machine::Machine;
pub use mail::receiver;
pub use play::{COUNTED, COUNTED_APART, PlainTurns, TRACED, Turned, hart_after};
pub use progress::{PROGRESS_INTERVAL, Progress, Silent};
pub use rows::LONG_ROW;
pub use serving::Service;
pub use watch::Turn;
