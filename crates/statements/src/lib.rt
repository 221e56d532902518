//! Statements: what a line of source makes at its place; and what stands in it: names, numbers, registers and addresses, and the faults of each.
#![tactic(auto)]

mod digits;
mod fault;
mod form;
mod laws;
mod lines;
mod made;
mod number;
mod operand;
mod place;
mod registers;
mod shapes;
mod statement;
mod target;
mod text;

pub use fault::AsmFault;
pub use laws::texts_are_read_back;
pub use lines::{checked_line, line, line_at};
pub use made::Words;
pub use place::{Names, Place, Section, Size, data_start};
pub use statement::read_statement;
pub use text::{Parts, cut, cut_line, cut_word, is_name, trim};
