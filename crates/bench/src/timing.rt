//! What is told of a measurement.
use std::io;
use std::rt::Clock;
use std::time::Instant;

/// What was counted, and how long one of so many rounds took, of which the first began at `start`.
pub(crate) fn tell(
    rt: &(impl Print + Eprint + Clock),
    name: &str,
    count: u64,
    start: io::Result<Instant>,
    rounds: u64,
) -> io::Result<()> {
    let took = start?.elapsed(rt)?.as_nanos();
    println!(rt; "{name}: {count}")?;
    if rounds > 0 {
        let hundredths = took.saturating_mul(100) / u128::from(rounds);
        eprintln!(rt;
            "{name}: {}.{:02} ns a round",
            hundredths / 100,
            hundredths % 100
        )?;
    }
    Ok(())
}
