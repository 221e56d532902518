//! How fast the parts of a machine are: `bench [PART [ROUNDS]]`, where PART is `table`, `cache`, `transaction`, `listing` or `source`, and 1,000,000 rounds are
//! made if no number is given. Without a PART each makes 1,000 rounds. What was counted goes to standard output, how long it took to standard error.
#![tactic(auto)]

mod caches;
mod instructions;
mod listings;
mod sources;
mod timing;
mod transactions;

use std::rt::Clock;
use std::{env, io};

/// Measures one part, if there is one of this name, and answers whether there is.
fn measure(
    rt: &(impl Print + Eprint + Clock + AllocGlobal),
    part: &str,
    rounds: u64,
) -> io::Result<bool> {
    match part {
        "table" => instructions::measure(rt, rounds)?,
        "cache" => caches::measure(rt, rounds)?,
        "transaction" => transactions::measure(rt, rounds)?,
        "listing" => listings::measure(rt, rounds)?,
        "source" => sources::measure(rt, rounds)?,
        _ => return Ok(false),
    }
    Ok(true)
}

fn main(rt: HostRuntime) -> io::Result<()> {
    let mut arguments = env::args(&rt)?;
    let part = arguments.nth(1);
    let rounds = match arguments.next() {
        Some(text) => text.as_str().parse::<u64>().unwrap_or(1_000_000),
        None => 1_000_000,
    };
    let Some(part) = part else {
        for part in ["table", "cache", "transaction", "listing", "source"] {
            measure(&rt, part, 1000)?;
        }
        return Ok(());
    };
    if !measure(&rt, part.as_str(), rounds)? {
        eprintln!(rt;
            "bench: there is no part {part}: table, cache, transaction, listing or source"
        )?;
    }
    Ok(())
}
