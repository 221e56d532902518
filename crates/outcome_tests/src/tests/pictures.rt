//! What is to be seen of a machine: of each hart its registers, pc, status and output, and then the words from 0 to 0x7c.

use flat::Engine;
use interleavings::{push_hart, push_number};
use std::alloc::{AllocError, Global};
use words::{Addr, HartId};

/// Pushes what is to be seen of a hart of a machine, if there is one with this number.
fn push_hart_of<E: Engine>(
    picture: &mut Vec<u32>,
    engine: &E,
    hart: HartId,
) -> Result<(), AllocError> {
    if hart.index() >= engine.harts() {
        return Ok(());
    }
    let Some(shown) = engine.regs(hart) else {
        return Ok(());
    };
    let (regs, pc, status) = shown;
    push_hart(
        picture,
        regs.values(),
        pc.value(),
        &status,
        engine.output(hart),
    )
}

/// What is to be seen of a machine.
pub(crate) fn picture<E: Engine>(alloc: Global, engine: &E) -> Result<Vec<u32>, AllocError> {
    let mut picture = Vec::new(alloc);
    for number in 0..8 {
        push_hart_of(&mut picture, engine, HartId::new(number))?;
    }
    for word in 0..32u32 {
        push_number(&mut picture, engine.peek(Addr::new(4 * word)).unwrap_or(0))?;
    }
    Ok(picture)
}
