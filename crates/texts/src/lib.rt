//! Numbers as text and the numbers that texts stand for, and texts put into a sink piece by piece.
#![tactic(auto)]

mod characters;
mod copies;
mod line;
mod numbers;
mod numerals;
mod put;

pub use characters::ascii;
pub use line::Line;
pub use numbers::number;
pub use numerals::hexadecimal;
pub use put::put_all;
