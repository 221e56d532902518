//! The plain values that every other crate speaks of: registers, addresses, blocks, harts, stamps,
//! causes, entries, steps, messages, and where bytes are put.
#![tactic(auto)]

mod address;
mod cause;
mod entry;
mod hart;
mod limits;
mod marks;
mod message;
mod register;
mod sink;
mod stamp;

pub use address::{Addr, BLOCK_BYTES, BLOCK_WORDS, Block, BlockNo};
pub use cause::{AbortCause, Cause, Status};
pub use entry::{Access, Entry, Step, Width};
pub use hart::{HARTS, HartId, HartSet};
pub use limits::{LOG_BYTES, LOG_RECORDS, STACK_BYTES};
pub use marks::Marks;
pub use message::{Kind, LineState, Message};
pub use register::{Reg, Regs};
pub use sink::{Counted, Sink, SinkFault, Taken};
pub use stamp::Stamp;
