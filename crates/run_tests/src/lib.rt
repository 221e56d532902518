//! Schedules, watched runs, traces, counts, pictures and pages, each on programs of a few words. The debugger's commands and looks: how they are spelled, what they
//! do where a put fails or memory runs out, and what a console makes of lines.
#![tactic(auto)]

#[cfg(test)]
mod tests;
