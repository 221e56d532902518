//! Plays the lists of commands that test `logtm`, and shows each command with all that it prints, what it is told on standard error and its status: the
//! gate compares that with what is expected. The last list runs the examples, as the docs do, and is shown as on a terminal.
#![tactic(auto)]

mod answers;
mod echo;
mod lists;

use answers::Telling;
use lists::play;
use std::io;

static LISTS: [&str; 18] = [
    "running",
    "searches",
    "threads",
    "sources",
    "schedules",
    "counting",
    "tracing",
    "drawing",
    "debugger",
    "looks",
    "sharing",
    "traps",
    "conditional",
    "instructions",
    "assembling",
    "faults",
    "listings",
    "command-lines",
];

fn main(rt: HostRuntime) -> io::Result<()> {
    for list in LISTS {
        println!(rt; "== {list}")?;
        play(&rt, list, Telling::Apart)?;
    }
    println!(rt; "== examples")?;
    play(&rt, "examples/commands", Telling::AtOnce)
}
