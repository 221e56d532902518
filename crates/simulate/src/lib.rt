//! What `logtm` does. It runs a program on a machine and reports what became of it, searches all its ends, lists a program, assembles a source, or has a program played by
//! hand: `answer` takes the words of a command line, reads the files that they name, and writes what they ask for; `carry_out` does all but reading and
//! writing files.
#![tactic(auto)]

mod carry;
mod counting;
mod debugging;
mod entry;
mod kept;
mod laws;
mod serving;
mod steps;
mod threads;

pub use carry::carry_out;
pub use entry::answer;
pub use laws::{
    a_history_gives_its_report, a_kept_history_gives_its_report, all_ends_are_told,
    assembled_files_are_one, assembled_files_run_as_spelled, files_hold_one_program,
    listings_are_one, reports_are_of_the_flat_machine, reports_are_one, sessions_by_hand_are_one,
    threaded_reports_are_one, told_ends_are_one, told_ends_are_reached,
};
pub use requests::{
    Buffered, Fault, HostFiles, Live, Meter, Outcome, Outlet, RefusedLine, Steady, Store,
    StoreFault, readable, source,
};
