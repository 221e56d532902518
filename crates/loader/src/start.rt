ghost use Rattle.std.specs.Prelude.{◌≡◌, ◌<◌, ◌≤◌, ◌*◌, ◌^◌, ℕ};
ghost use Rattle.flat.specs.State.{Setting};
ghost use Rattle.flat.specs.Start.{first_regs};
ghost use Rattle.flat.specs.Boots.{is_size, fits_below, boot_fault};

use crate::program::Program;
use flat::BootFault;
use words::{LOG_BYTES, Reg, Regs, STACK_BYTES};

fn is_size(size: u32) -> bool
    ensures { result ≡ is_size size }
{
    size % 4096 == 0 && size >= 65536 && size <= 4194304
}

fn fits_below(program: &Program, harts: usize, size: usize) -> bool
    requires { 8192 * harts ≤ size }
    ensures { result ≡ fits_below size harts program.now.segments }
{
    let limit = size - (STACK_BYTES + LOG_BYTES) * harts;
    program
        .segments()
        .iter()
        .all(|s| s.addr as usize + s.size as usize <= limit)
}

/// Why a program isn't booted with so many harts and bytes of memory: the first test that fails.
pub fn boot_fault(program: &Program, harts: u32, size: u32) -> Option<BootFault>
    ensures { result ≡ boot_fault program.now.segments harts size }
{
    if !is_size(size) {
        return Some(BootFault::BadSize);
    }
    if harts < 1 || harts > 8 {
        return Some(BootFault::BadHarts);
    }
    if !fits_below(program, harts as usize, size as usize) {
        return Some(BootFault::DoesNotFit);
    }
    None
}

/// The registers that hart i begins with, in a memory of a size with a number of harts.
pub fn first_regs(i: usize, harts: usize, size: usize) -> Regs
    requires size { size < 2 ^ 32 }
    requires few { harts ≤ 8 }
    requires room { 8192 * harts ≤ size }
    requires hart { i < harts }
    ensures { (s : Setting) → s.size ≡ size → s.count ≡ harts → result ≡ first_regs s i }
{
    let mut regs = Regs::new();
    let stack_top = size - harts * LOG_BYTES - i * STACK_BYTES;
    regs.write(Reg::new(2), stack_top as u32);
    regs.write(Reg::new(10), i as u32);
    regs.write(Reg::new(11), harts as u32);
    regs
}
