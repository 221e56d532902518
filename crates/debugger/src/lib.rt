//! A debugging session: a machine, the breakpoints that were set, and what each command does and tells.
//!
//! A session goes on by turns, as [`machine::Machine::next_turn`] names them, or by steps that are chosen by hand.
//!
//! It answers lines that are asked for and read from an input, as standard input, one after the other, until no more are wanted or there is none.
#![tactic(auto)]

mod answer;
mod choices;
mod command;
pub mod commands;
mod debugging;
mod fault;
mod input;
mod laws;
mod line_answers;
mod playing;
mod report;
mod session;
mod tell;
mod turns;

pub use debugging::debug;
pub use fault::ConsoleFault;
pub use input::{KEPT, LineInput, Reading, Typed};
pub use laws::sessions_are_one;
pub use line_answers::Debugged;
pub use playing::play;
pub use report::Report;
pub use session::{Flow, Session};
