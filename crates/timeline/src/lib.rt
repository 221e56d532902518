//! A run to look at: its timeline, in the Trace Event format, which Perfetto and chrome://tracing read, and its picture, a sequence chart in SVG 1.1.
//! The format of the first is Google's "Trace Event Format".
//!
//! A unit of a timeline's time is a step. Each hart has a lane, by its number, and the directory has one behind those of all harts. A step is a slice one
//! unit long, under the text of its entry, of the message that arrives, or of the step itself. A transaction is a slice around its steps,
//! `committed` or `aborted` at its end; transactions in it are parts of it. A message is a flow from the step that sent it to that in which it arrives.
//!
//! In a picture time runs downwards, a row a step, in the same lanes. A step is a mark in its lane, with the text that a timeline gives it.
//! A transaction is a bar from the row in which it begins to that in which it ends, or to the bottom if it still runs; a message is an arrow
//! from the row that sent it to the one in which it arrives. One in flight at the end has none.
#![tactic(auto)]

mod chart;
mod drawing;
mod edge;
mod events;
mod label;
mod picture;
mod row;
mod shapes;

pub use chart::{Chart, put_timeline};
pub use picture::put_picture;
