//! The search of all ends against a machine of the tests' own, which makes every interleaving and shares only the instruction table with it; and what the
//! search says of programs whose ends are known.
#![tactic(auto)]

#[cfg(test)]
mod tests;
