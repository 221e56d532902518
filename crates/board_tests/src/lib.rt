//! Harts in threads over one board: counters with workers, played again, what becomes of leases that come back, the calls of a worker, boards that want
//! memory; and histories as text.
#![tactic(auto)]

#[cfg(test)]
mod tests;
