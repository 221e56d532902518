//! Words as text: the canonical text of an instruction word, and the listing of a program. And names of functions: which symbols of code an ELF file
//! has, and the name and offset of an address.
#![tactic(auto)]

mod entry;
mod fields;
mod label;
mod laws;
mod lister;
mod names;
mod numbers;
mod printer;
mod section;
mod shapes;
mod strings;
mod symbol;
mod symbol_laws;
mod symbol_table;
mod window;

pub use label::Label;
pub use laws::texts_differ;
pub use lister::{listing, put_line};
pub use names::register as register_name;
pub use printer::{add_text, text};
pub use symbol::Symbol;
pub use symbol_laws::nearest_symbol_is_found;
pub use symbol_table::Symbols;
