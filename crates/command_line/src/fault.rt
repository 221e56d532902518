ghost use Rattle.std.specs.Prelude.{◌≡◌};
ghost use Rattle.command_line.specs.declared.fault.OrderFault.TheVariants.{NoMemory};

use crate::argument::Argument;
use std::alloc::{AllocError, AllocFailed};
use thiserror::Error;

/// Why a command line gives no order, or what it asks of clap itself.
#[derive(Debug, Drop, Error)]
pub enum OrderFault<'a> {
    /// The words ask for help or for the version: the text that clap has for the user. clap has no contract on its texts, so none says
    /// which text this is.
    #[error("{0}")]
    Asked(String),
    /// clap refused the words: the text that it has for the user.
    #[error("{0}")]
    Refused(String),
    /// The first malformed value: what it is for, and how the user wrote it. It is no number below 2^32, for `--cache` and `--stats` the
    /// name of no cache and no form, for `--mix` no three numbers that aren't all 0, or for `--trace`, `--timeline`, `--history` and `--witness` a path where nothing
    /// can be written, and for `--timeline` too one that ends in none of `.json`, `.svg` and `.html`.
    #[error("value {1}")]
    Value(Argument, &'a str),
    /// More than one is asked for of a trace, a timeline and counts.
    #[error("more than one view is asked for")]
    TwoViews,
    /// A picture is asked for of a run that may take more steps than a picture shows.
    #[error("the run may be too long for a picture")]
    LongPicture,
    /// A page is asked for of a run that may take more steps than a page shows.
    #[error("the run may be too long for a page")]
    LongPage,
    /// A run in threads is given a schedule or chance, or more is to be shown of it, or it is to be counted; or the history is asked for of a run that is
    /// made neither in threads nor by chance.
    #[error("an option that a run in threads excludes, or a history without a way to choose")]
    ThreadsAlone,
    /// Weights are given, and no seed.
    #[error("weights without a seed")]
    MixAlone,
    /// A history is asked for beside another file.
    #[error("two files are asked for")]
    TwoFiles,
    /// Memory ran out.
    #[error("no memory")]
    NoMemory,
}

impl<'a, T: Drop> From<AllocFailed<T>> for OrderFault<'a> {
    ghost from_gives = { λ _ e. e ≡ NoMemory };

    fn from(_error: AllocFailed<T>) -> OrderFault<'a> {
        OrderFault::NoMemory
    }
}

impl<'a> From<AllocError> for OrderFault<'a> {
    ghost from_gives = { λ _ e. e ≡ NoMemory };

    fn from(_error: AllocError) -> OrderFault<'a> {
        OrderFault::NoMemory
    }
}
