/// Why a worker ended.
#[derive(Clone, Copy, Debug, Default, PartialEq, Eq)]
pub enum End {
    /// There is no such hart, or it doesn't run any more.
    #[default]
    Stopped,
    /// Its turns were over.
    Limit,
    /// The gate ended it.
    Shut,
}
