use thiserror::Error;

/// Why a lease isn't settled.
#[derive(Clone, Copy, Debug, PartialEq, Eq, Error)]
pub enum Refusal {
    /// It is of another program, number of harts or size of memory, or the hart isn't as it was lent any more.
    #[error("the lease is stale")]
    Stale,
    #[error("no memory")]
    NoMemory,
}
