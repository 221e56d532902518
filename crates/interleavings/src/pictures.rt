//! What is to be seen of a state, as a list of numbers: of each hart its registers, pc, status and output, and then words of memory.

use crate::states::Registers;
use std::alloc::AllocError;
use words::Status;

/// Pushes a number.
pub fn push_number(picture: &mut Vec<u32>, number: u32) -> Result<(), AllocError> {
    picture.push(number)?;
    Ok(())
}

/// Pushes a status, as three numbers.
fn push_status(picture: &mut Vec<u32>, status: &Status) -> Result<(), AllocError> {
    let numbers = match status {
        Status::Running => [0, 0, 0],
        Status::Exited(value) => [1, *value, 0],
        Status::Stopped(cause, pc) => [2, cause.number(), pc.value()],
    };
    for number in numbers {
        push_number(picture, number)?;
    }
    Ok(())
}

/// Pushes what is to be seen of a hart.
pub fn push_hart(
    picture: &mut Vec<u32>,
    regs: &Registers,
    pc: u32,
    status: &Status,
    output: &[u8],
) -> Result<(), AllocError> {
    for k in 1..32 {
        push_number(picture, regs[k])?;
    }
    push_number(picture, pc)?;
    push_status(picture, status)?;
    for byte in output {
        push_number(picture, u32::from(*byte))?;
    }
    // The end of the output.
    push_number(picture, 256)
}
