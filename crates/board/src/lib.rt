//! A board: a machine with a journal of the steps that have led to it. Harts are lent out, as to threads, make steps by themselves, and come back.
//!
//! Workers are such threads: each has a hart lent, run and settled, turn after turn, under one lock.
//!
//! What a board's journal keeps is its user's choice: all steps with their entries, the choices that the steps were, or nothing.
#![tactic(auto)]

mod board;
mod code;
mod desk;
mod end;
mod journal;
mod laws;
mod lease;
mod lending;
mod owed;
mod refusal;
mod served;
mod status;
mod trace;
mod turn;
mod visit;
mod worker;

pub use board::{Board, Finished};
pub use code::Code;
pub use desk::{Desk, Gate};
pub use end::End;
pub use journal::{Chosen, Journal, Replay, Unkept};
pub use laws::a_history_makes_its_machine;
pub use lease::Lease;
pub use refusal::Refusal;
pub use served::Served;
pub use status::{is_hart, is_running, running};
pub use trace::{STEPS, Trace, Traced, Untraced};
pub use worker::{serve, work};
