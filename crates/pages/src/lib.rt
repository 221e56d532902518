//! A run as a page that a browser shows: one step after another, with the harts, their caches, the directory, the messages in flight and words of memory.
//!
//! The page is one file of HTML. Its data is a literal of JavaScript, in which each moment of the run has a line, or two with that of its entry. It
//! tells all of the hart that made the step or that a message came to, the directory's entry of the message's block, what is in flight, and
//! the words. Before them stand the harts as the run begins with them. The page's script, `page.js`, puts these together, and finds what changed.
#![tactic(auto)]

mod actor;
mod flights;
mod form;
mod harts;
mod laws;
mod memory;
mod moments;
mod names;
mod page;

pub use laws::{all_lines_are_told, names_are_no_markup, what_is_not_told_stays};
pub use page::put_page;
