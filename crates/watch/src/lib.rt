//! Observers of a run. One traces it: it puts the line of each entry. Another counts: how often each hart retired, aborted, refused and spilled; the
//! machine's steps by kind, its messages by sort, and how much was in flight and in use. As text the counts are a table for people, or lines for scripts.
#![tactic(auto)]

mod asking;
mod batch;
mod cells;
mod counting;
mod csv_text;
mod figures;
mod kinds;
mod machine_text;
mod names;
mod recording;
mod rows;
mod served;
mod skim;
mod table_text;
mod traffic;

pub use cells::Counts;
pub use counting::{Tally, count_run};
pub use csv_text::put_csv;
pub use figures::{Figure, Sum};
pub use kinds::Kind;
pub use machine_text::{put_machine_csv, put_machine_table};
pub use recording::put_trace;
pub use table_text::put_table;
pub use traffic::Traffic;
