//! The text of each refusal of a lease.

use crate::tests::claims::equal_text;
use board::Refusal;
use std::alloc::AllocError;

#[test]
fn refusals_have_their_texts(rt: HostRuntime) -> Result<(), AllocError> {
    for (fault, text) in [
        (Refusal::Stale, "the lease is stale"),
        (Refusal::NoMemory, "no memory"),
    ] {
        equal_text(&rt, fault.to_string(rt.alloc())?.as_str(), text);
    }
    Ok(())
}
