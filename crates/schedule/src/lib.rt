//! Schedules: which step a machine makes next, chosen by hand. A line has one choice in words, such as `deliver get 1 0x2000`.
//!
//! A run makes the choices of a schedule, and then what a chooser gives: turns, or what chance chooses by a seed. An observer sees each moment of it. The
//! choices of a run are kept in a history as they are made, and written as the lines of a schedule that plays the run again.
#![tactic(auto)]

mod chance;
mod choices;
mod chooser;
mod enabled;
mod halt;
mod history;
mod laws;
mod lines;
mod observer;
mod runs;
mod spelling;
mod step;
mod unobserved;
mod writing;

pub use chance::{Chance, KeptChance, Mix};
pub use choices::{Choice, Name, Sort};
pub use chooser::{Chooser, Turns};
pub use halt::{Halt, Unseen};
pub use history::History;
pub use laws::{a_schedule_makes_one_run, chosen_steps_are_played_again, written_choices_are_read};
pub use lines::{ScheduleFault, read};
pub use observer::Observer;
pub use runs::run;
pub use spelling::{choice, one_word, sort_of, split, three_words, two_words};
pub use step::{name_of, named};
pub use unobserved::play;
pub use writing::{put_choices, put_history};
