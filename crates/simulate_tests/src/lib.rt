//! Programs that are run, traced, counted, drawn, played by hand, listed and assembled, where a text can't be put, an input fails or memory runs out;
//! programs whose harts run in threads, from their text to the report and the history.
#![tactic(auto)]

#[cfg(test)]
mod tests;
