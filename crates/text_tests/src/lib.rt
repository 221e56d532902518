//! The instruction table against the manual's rows, an assembler's words and C's arithmetic; assembled programs as segments and as a file, sources as large
//! as they may be, listings that cannot be put, and memory that runs out; ELF files byte by byte, and what a user reads of the machine, against bytes and
//! texts from outside; command lines with the requests that they stand for.
#![tactic(auto)]

#[cfg(test)]
mod tests;
