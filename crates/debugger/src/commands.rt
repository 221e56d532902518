//! The debugger's commands: what a line of words asks for, why it may be refused, and what the looks at a machine show: registers, words of memory,
//! lines of caches, entries of the directory, transactions, undo logs, instructions, messages in flight, and how far the harts have come.
//!
//! | A look | Its text |
//! |---|---|
//! | `regs H` | eight lines of four registers, then a line of pc and status |
//! | `word A`, `raw A`, `view H A`, `log A` | `0x00002000 = 0x00000007` |
//! | `line H A` | `none`, or `M -w-`: the state, and the marks R, W and X |
//! | `dir A` | `owner none sharers 0,1 busy -` |
//! | `dirs` | a line `0x00002000 owned 0 sharers - busy -` for each entry that is kept |
//! | `tx H` | `none`, or `depth 1 records 1 stamp 0.0`, then `overflow`, `cycle` and `aborting` where so |
//! | `dis B` | `0x00001004: 00000513  addi a0, zero, 0` |
//! | `messages` | a line for each message in flight, the oldest first, with `held` behind it where the directory holds it |
//! | `harts` | a line `0 pc=0x00001004 running depth 1 waits 0x00002000` for each: depth in a transaction, waits while a request is out, `reserves 0x00002000` while a block is reserved |
mod blocks;
mod command;
mod fault;
mod flights;
mod harts;
mod looking;
mod manual;
mod memory;
mod parts;
mod places;
mod spelling;

pub use crate::commands::command::{Command, Look};
pub use crate::commands::fault::DebugFault;
pub use crate::commands::looking::look;
pub use crate::commands::manual::help;
pub use crate::commands::places::{hart_of, text_at, word_at};
pub use crate::commands::spelling::command_of;
