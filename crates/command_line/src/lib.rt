//! The command line of the program `logtm`, read with `clap`.
//!
//! The subcommands are:
//!
//! - `logtm run FILE [--harts N] [--memory S] [--steps N] [--cache small|normal|SETSxWAYS] [--schedule LIST] [--trace FILE | --timeline FILE | --stats table|csv] [WORD..]`
//! - `logtm run FILE [--harts N] [--memory S] [--steps N] [--cache small|normal|SETSxWAYS] [--schedule LIST] --seed N [--mix C,D,E] [--trace FILE | --timeline FILE | --stats table|csv] [WORD..]`
//! - `logtm run FILE [--harts N] [--memory S] [--steps N] [--cache small|normal|SETSxWAYS] [--schedule LIST] --seed N [--mix C,D,E] --history FILE [--trace - | --stats table|csv] [WORD..]`
//! - `logtm run FILE [--harts N] [--memory S] [--steps N] [--cache small|normal|SETSxWAYS] --threads [--history FILE] [WORD..]`
//! - `logtm debug FILE [--harts N] [--memory S] [--cache small|normal|SETSxWAYS]`
//! - `logtm outcomes FILE [--harts N] [--memory S] [--states N] [--witness K LIST] [WORD..]`
//! - `logtm dis FILE`
//! - `logtm asm IN OUT`
//!
//! And `logtm --version` names the version, and the logic of the proofs.
//!
//! A number is decimal, or `0x` and hexadecimal digits of either case, and below 2^32.
#![tactic(auto)]

mod argument;
mod fault;
mod mix;
mod options;
mod parser;
mod reading;
mod request;

pub use argument::Argument;
pub use fault::OrderFault;
pub use parser::parse;
pub use request::{
    Cache, Chance, MOST_DRAWN, MOST_PAGED, Mix, Print, Request, Run, Search, Setup, Show, Stats,
    View, Way, Witness, Word,
};
