//! The plain machine: one memory, and harts whose transactions keep what they did to themselves until they commit.
//!
//! It makes steps of the flat machine (`step`, `run`), and it checks entries (`check`, `check_all`): it accepts an entry if and only if it
//! carries the flat state on. It has no caches, keeps no logs and sends no messages.
//!
//! Beside it stands what else tests share: small programs with their ELF files, and a sink that fails.
#![tactic(auto)]

mod breaking;
mod changes;
mod check;
mod conflicts;
mod hart;
mod machine;
mod overlay;
mod reads;
mod room;
mod samples;
mod start;
mod step;
mod texts;

pub use breaking::Breaking;
pub use machine::Machine;
pub use samples::{elf_file, program};
pub use texts::{ABORTS, ADDS, COMMITS, COUNTS, EXIT};
