//! What requests have in common: the files that they name, how a run of a program begins and is concluded, the words that are shown of it, the line
//! of its progress, and why a request isn't carried out, as the user is told it. And the requests that need no machine: listings, assembled files and
//! searches of all ends.
#![tactic(auto)]

pub mod begin;
pub mod conclude;
mod ends_text;
mod fault;
mod file_requests;
pub mod files;
mod hint;
mod live;
mod meter;
mod page;
mod quote;
pub mod readable;
mod search;
pub mod source;
mod store;

pub use fault::{Fault, RefusedLine, put_line};
pub use file_requests::{Outcome, on_file};
pub use live::Live;
pub use meter::Meter;
pub use page::{Buffered, Outlet, Sheet, Steady};
pub use store::{HostFiles, Store, StoreFault};
