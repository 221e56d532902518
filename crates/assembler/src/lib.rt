//! The assembler: source text as a program.
#![tactic(auto)]

mod fault;
mod laws;
mod passes;
mod progress;

pub use fault::SourceFault;
pub use laws::sources_spell_one_program;
pub use passes::assemble;
pub use statements::{AsmFault, Names, Place, Section, Size, Words, line};
