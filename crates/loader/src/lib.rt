//! Programs, the ELF files that they are read from and written to, and what they are booted with: the tests that refuse a program, its image in
//! memory, and the registers that its harts begin with. Also the bytes of numbers in memory.
#![tactic(auto)]

mod bytes;
mod elf;
mod fault;
mod headers;
mod laws;
mod memory;
mod program;
mod start;
mod writer;

pub use bytes::{byte_of_value, cut_to, lay, word_at};
pub use elf::read_elf;
pub use fault::LoadFault;
pub use laws::elf_files_hold_one_program;
pub use memory::image;
pub use program::Program;
pub use start::{boot_fault, first_regs};
pub use writer::write_elf;
