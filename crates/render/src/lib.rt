//! What a user reads of the machine: the lines of entries, and the texts of messages, of the directory's entries, of a cache's lines, of words
//! and of registers; and the report on a machine that has stopped, or was stopped, with the status that goes with it. The report is of any machine
//! that is read through `Engine`.
//!
//! A hart stands by its number, a block by the address of its first byte, a stamp as the number of new stamps given before and its hart, and a
//! set of harts as its numbers with commas between them. A dash stands for what is left out, and for an empty set.
//!
//! | A message | Its text |
//! |---|---|
//! | `Get` | `get 1 0x00002000 read stamp 0.1`, or `write`, or `stamp -` outside a transaction |
//! | `Put` | `put 0 0x00002000 marked content 0x00000007`, or `unmarked` |
//! | `Done` | `done 1 0x00002000 ok content -`, or `refused` |
//! | `Grant` | `grant 1 0x00002000 M expect 0,2 content 0x00000007`, or `S` or `E` |
//! | `Forward` | `forward 0 0x00002000 read for 1 stamp 0.1`, or `write` |
//! | `PutAck` | `putack 0 0x00002000` |
//! | `Ack` | `ack 0 0x00002000 to 1 content 0x00000007`, or `content -` |
//! | `Nack` | `nack 0 0x00002000 to 1 stamp 0.0` |
//!
//! After the sort comes the hart that the message is from, or that it goes to from the directory; and a content is told by its first word.
#![tactic(auto)]

mod blocks;
mod entries;
mod entry_lines;
mod messages;
mod parts;
mod registers;
mod reporting;
mod statuses;

pub use blocks::{cached_text, directory_text, put_cached, put_directory, put_word};
pub use entries::{ENTRY_BYTES, put_entry};
pub use entry_lines::EntryLines;
pub use messages::{message_text, put_message};
pub use parts::{first_byte, hart_text, stamp_text};
pub use registers::{put_registers, status_text};
pub use reporting::report;
pub use statuses::{is_report, status};
