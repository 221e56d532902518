//! A machine of the tests' own, which makes every interleaving of a program: by it a program's ends are found without a reduction. Of the product it
//! takes what an instruction does, and nothing else.
#![tactic(auto)]

mod harts;
mod moves;
mod pictures;
mod rules;
mod search;
mod states;

pub use pictures::{push_hart, push_number};
pub use rules::{Order, Source};
pub use search::{Ends, all_ends};
