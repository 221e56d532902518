use thiserror::Error;

/// Why a console ended before its end.
#[derive(Clone, Copy, Debug, PartialEq, Eq, Error)]
pub enum ConsoleFault {
    /// A line could not be read.
    #[error("a line could not be read")]
    Unreadable,
    /// A text could not be put.
    #[error("a text could not be put")]
    Unwritten,
}
