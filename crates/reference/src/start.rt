ghost use Rattle.std.specs.Prelude.{◌≡◌, ◌<◌, ◌≤◌, ◌+◌, ◌-◌, ◌*◌, ◌^◌, ℕ, Some, None, Ok, Err, IfOk, MatchResult, cond, nat_lt, true, length, vec_len, slice_get};
ghost use Rattle.std.specs.Option.{option_map_or};
ghost use Rattle.std.specs.List.{list_all};
ghost use Rattle.table.specs.Program.{holds, byte_in, image_at};
ghost use Rattle.flat.specs.State.{Setting, idle};
ghost use Rattle.flat.specs.Start.{first_hart};
ghost use Rattle.loader.specs.Memory.{mem_of};
ghost use Rattle.reference.specs.States.{hart_of};
ghost use Rattle.flat.specs.Boots.{is_size, ends_by, fits_below};
ghost use Rattle.flat.specs.declared.boot_fault.BootFault.{BootFault};

use crate::hart::Hart;
use crate::machine::Machine;
use flat::BootFault;
use loader::{Program, boot_fault, first_regs, image};
use std::alloc::{AllocError, Global};
use words::{Addr, Status};

/// Hart i as it begins, in a memory of a size with a number of harts.
fn first_hart(alloc: Global, i: usize, count: usize, size: usize, entry: Addr) -> Hart
    requires size { size < 2 ^ 32 }
    requires count { count ≤ 8 }
    requires room { 8192 * count ≤ size }
    requires hart { i < count }
    ensures { (s : Setting) → s.size ≡ size → s.count ≡ count → hart_of size result ≡ first_hart s entry i }
{
    Hart {
        regs: first_regs(i, count, size),
        pc: entry,
        output: Vec::new(alloc),
        status: Status::Running,
        tx: None,
    }
}

/// All harts as they begin.
fn first_harts(
    alloc: Global,
    count: usize,
    size: usize,
    entry: Addr,
) -> Result<Vec<Hart>, AllocError>
    requires size { size < 2 ^ 32 }
    requires count { count ≤ 8 }
    requires room { 8192 * count ≤ size }
    ensures count { IfOk result (λ v. vec_len v ≡ count) }
    ensures harts { IfOk result (λ v. (s : Setting) (j : ℕ) → s.size ≡ size → s.count ≡ count → option_map_or (hart_of size) (slice_get v.items j) idle ≡ cond (nat_lt j count) (first_hart s entry j) idle) }
{
    let mut harts = Vec::with_capacity(alloc, count)?;
    for i in 0..count {
        harts.push(first_hart(alloc, i, count, size, entry))?;
    }
    Ok(harts)
}

impl Machine {
    ghost use Rattle.reference.specs.Machines.{Belongs};
    ghost use Rattle.flat.specs.Boots.{boot_fault, booted};

    /// The machine that a program begins in, with a number of harts and of bytes of memory. The program is given up where it
    /// isn't booted.
    pub fn boot(
        alloc: Global,
        program: Program,
        harts: u32,
        size: u32,
    ) -> Result<Machine, BootFault>
        // The tests come in their order, before memory is asked for.
        ensures refused { (e : BootFault) → boot_fault program.segments harts size ≡ Some e → result ≡ Err e }
        ensures accepted { boot_fault program.segments harts size ≡ None → MatchResult result (λ m. Belongs (booted program.segments program.entry harts size) m) (λ e. e ≡ BootFault.NoMemory) }
    {
        if let Some(fault) = boot_fault(&program, harts, size) {
            return Err(fault);
        }
        Machine::first(alloc, program, harts as usize, size as usize)
    }

    /// The same, of what can be booted. It fails only if memory runs out.
    fn first(
        alloc: Global,
        program: Program,
        harts: usize,
        size: usize,
    ) -> Result<Machine, BootFault>
        requires size { size < 2 ^ 32 }
        requires count { harts ≤ 8 }
        requires room { 8192 * harts ≤ size }
        requires fits { fits_below size harts program.segments ≡ true }
        ensures { MatchResult result (λ m. Belongs (booted program.segments program.entry harts size) m) (λ e. e ≡ BootFault.NoMemory) }
    {
        let memory = image(alloc, &program, size)?;
        let harts = first_harts(alloc, harts, size, program.entry())?;
        Ok(Machine {
            program,
            memory,
            harts,
        })
    }
}
