//! Example runs of the protocol's definitions. The parts of the machine, each by itself: caches, undo logs, transactions, the network and the directory; and a hart with programs of a few words, step by
//! step, with the messages that arrive at it and those that it sends.
#![tactic(auto)]

pub mod examples;
#[cfg(test)]
mod tests;
