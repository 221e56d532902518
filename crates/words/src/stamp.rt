use crate::hart::HartId;

/// When a transaction began: how many new stamps the machine had given before, and its hart.
/// The earlier of two has the smaller count, or at one count the smaller hart.
#[derive(Clone, Copy, Debug, PartialEq, Eq)]
pub struct Stamp {
    pub count: u64,
    pub hart: HartId,
}
