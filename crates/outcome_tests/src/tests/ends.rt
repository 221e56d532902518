//! The ends of programs of one hart, read out.

ghost use Rattle.outcomes.specs.Searches.{IsSearch};

use flat::Engine;
use outcomes::Outcomes;
use std::alloc::{AllocError, Global};
use words::{Addr, HartId, Reg, Status};

/// What is to be seen of an end: the hart's status, its pc and its t0, and the words at 0, 32, 64 and 0x2000.
pub(crate) type End = (Status, u32, u32, [Option<u32>; 4]);

fn end_of<E: Engine>(engine: &E) -> Option<End> {
    let (regs, pc, status) = engine.regs(HartId::new(0))?;
    let words = [
        engine.peek(Addr::new(0)),
        engine.peek(Addr::new(32)),
        engine.peek(Addr::new(64)),
        engine.peek(Addr::new(0x2000)),
    ];
    Some((status, pc.value(), regs.read(Reg::new(5)), words))
}

/// The ends that were found.
pub(crate) fn ends_found(alloc: Global, outcomes: &Outcomes) -> Result<Vec<End>, AllocError>
    requires { IsSearch outcomes.now }
{
    let mut ends = Vec::new(alloc);
    for place in &outcomes.ends(alloc)? {
        if let Some(standing) = outcomes.get(*place) {
            if let Some(end) = end_of(&standing) {
                ends.push(end)?;
            }
        }
    }
    Ok(ends)
}
