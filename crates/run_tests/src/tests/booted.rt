//! Programs, and the machine as it begins with them.

ghost use Rattle.std.specs.Prelude.{◌<◌, ◌*◌, ◌^◌};

use loader::{Program, read_elf};
use machine::Machine;
use reference::elf_file;
use std::alloc::Global;
use std::process::Abort;
use std::test::Fail;

/// Loads the word at 0x2000 and stores it there again, and exits with 0.
pub(crate) const LOADS_AND_STORES: [u32; 6] = [
    0x0000_22b7,
    0x0002_a303,
    0x0062_a023,
    0x05d0_0893,
    0x0000_0513,
    0x0000_0073,
];

/// Stores 7 to 0x2000, and exits with 0.
pub(crate) const STORES_ONCE: [u32; 6] = [
    0x0000_22b7,
    0x0070_0313,
    0x0062_a023,
    0x05d0_0893,
    0x0000_0513,
    0x0000_0073,
];

/// A program of these words.
fn program_of(alloc: Global, text: &[u32]) -> Result<Program, Fail> {
    let file = elf_file(alloc, text)?;
    let program = read_elf(alloc, &file);
    Ok(program?)
}

/// A machine of so many harts and bytes of memory at the start of a program.
pub(crate) fn booted_in<const SETS: usize, const WAYS: usize>(
    alloc: Global,
    text: &[u32],
    harts: u32,
    size: u32,
) -> Result<Machine<SETS, WAYS>, Fail>
    requires sets { 0 < SETS }
    requires ways { 0 < WAYS }
    requires lines { SETS * WAYS < 2 ^ 32 }
{
    Ok(Machine::boot(alloc, program_of(alloc, text)?, harts, size)?)
}

/// A program of these words, where there is the memory for it.
fn expect_program(rt: &(impl Abort + AllocGlobal), text: &[u32]) -> Program {
    let file = elf_file(rt.alloc(), text).expect(rt, "memory");
    let program = read_elf(rt.alloc(), &file);
    program.expect(rt, "a program")
}

/// A machine of so many harts at the start of a program.
pub(crate) fn booted(rt: &(impl Abort + AllocGlobal), text: &[u32], harts: u32) -> Machine<16, 4> {
    let program = expect_program(rt, text);
    Machine::boot(rt.alloc(), program, harts, 131_072).expect(rt, "a machine")
}
