ghost use Rattle.std.specs.Prelude.{◌≡◌, ◌<◌, ◌≤◌, ◌+◌, ◌*◌, ◌^◌, ◌∷◌, [], ℕ, List, Some, None, Err, true, IfOk, IfErr, length, slice_get};
ghost use Rattle.flat.specs.State.{Setting};
ghost use Rattle.flat.specs.Start.{first_hart, first_state};
ghost use Rattle.flat.specs.Boots.{boot_fault, fits_below};
ghost use Rattle.flat.specs.declared.boot_fault.BootFault.{BootFault};
ghost use Rattle.table.specs.Program.{image_at, AreBytes};
ghost use Rattle.loader.specs.Memory.{mem_of};
ghost use Rattle.outcomes.specs.Harts.{hart_of};
ghost use Rattle.outcomes.specs.Pools.{flat_in, reserved_in, IsWithin};
ghost use Rattle.outcomes.specs.Searches.{booted_place, IsBegun};

use crate::breadth_first::Outcomes;
use crate::hart::Hart;
use crate::memory::Memory;
use crate::pool::{Pool, State};
use crate::reservations::Reservations;
use flat::BootFault;
use indexmap::IndexSet;
use loader::{Program, boot_fault, first_regs, image};
use std::alloc::{AllocError, Global};
use words::{Addr, HARTS, Status};

/// Hart i as it begins.
fn first_hart(alloc: Global, i: usize, count: usize, size: usize, entry: Addr) -> Hart
    requires size { size < 2 ^ 32 }
    requires count { count ≤ 8 }
    requires room { 8192 * count ≤ size }
    requires hart { i < count }
    ensures { (s : Setting) → s.size ≡ size → s.count ≡ count → hart_of size result ≡ first_hart s entry i }
{
    Hart {
        regs: first_regs(i, count, size),
        pc: entry.value(),
        output: Vec::new(alloc),
        status: Status::Running,
        tx: None,
    }
}

/// The state that a program begins in.
fn first_state(
    alloc: Global,
    count: usize,
    size: usize,
    entry: Addr,
    pool: &mut Pool,
) -> Result<State, AllocError>
    requires size { size < 2 ^ 32 }
    requires count { count ≤ 8 }
    requires room { 8192 * count ≤ size }
    ensures within { IfOk result (IsWithin count pool.new) }
    ensures flat { IfOk result (λ x. (s : Setting) (image : List ℕ) → s.size ≡ size → length image ≡ size → s.count ≡ count → ((a : ℕ) → mem_of image a ≡ image_at s.segments a) → flat_in s image pool.new x ≡ first_state s entry) }
    ensures reserved { IfOk result (λ x. (i : ℕ) → reserved_in pool.new x i ≡ None) }
{
    let mut state = State {
        harts: [0; HARTS],
        memory: pool.keep_memory(Memory::new(alloc))?,
        reserved: pool.keep_reservations(Reservations::none())?,
    };
    for i in 0..count {
        state.harts[i] = pool.keep_hart(first_hart(alloc, i, count, size, entry))?;
    }
    Ok(state)
}

/// The state that a program begins in, and no other.
fn first_states(
    alloc: Global,
    count: usize,
    size: usize,
    entry: Addr,
    pool: &mut Pool,
) -> Result<IndexSet<State>, AllocError>
    requires size { size < 2 ^ 32 }
    requires count { count ≤ 8 }
    requires room { 8192 * count ≤ size }
    ensures { IfOk result (λ states. (x : State) × (states.keys ≡ x ∷ []) × IsWithin count pool.new x
        × ((s : Setting) (image : List ℕ) → s.size ≡ size → length image ≡ size → s.count ≡ count → ((a : ℕ) → mem_of image a ≡ image_at s.segments a) → flat_in s image pool.new x ≡ first_state s entry)
        × ((i : ℕ) → reserved_in pool.new x i ≡ None)) }
{
    let first = first_state(alloc, count, size, entry, pool)?;
    let mut states = IndexSet::new(alloc);
    states.insert(first)?;
    Ok(states)
}

/// The search of a program that can be booted. It fails only if memory runs out.
fn begin_booted(
    alloc: Global,
    program: Program,
    count: usize,
    size: usize,
) -> Result<Outcomes, AllocError>
    requires size { size < 2 ^ 32 }
    requires count { count ≤ 8 }
    requires room { 8192 * count ≤ size }
    requires fits { fits_below size count program.segments ≡ true }
    ensures bytes { IfOk result (λ _. AreBytes program.segments) }
    ensures begun { IfOk result (IsBegun (booted_place program.segments program.entry count size)) }
{
    let image = image(alloc, &program, size)?;
    let mut pool = Pool::new(alloc);
    let states = first_states(alloc, count, size, program.entry(), &mut pool)?;
    Ok(Outcomes {
        program,
        image,
        count,
        pool,
        states,
        origins: Vec::new(alloc),
        is_all: false,
    })
}

/// The search of a program with a number of harts and of bytes of memory. It has met the state that the program begins in, and no other.
pub fn begin(alloc: Global, program: Program, harts: u32, size: u32) -> Result<Outcomes, BootFault>
    // The tests come in their order, before memory is asked for.
    ensures refused { (e : BootFault) → boot_fault program.segments harts size ≡ Some e → result ≡ Err e }
    ensures memory { boot_fault program.segments harts size ≡ None → IfErr result (λ e. e ≡ BootFault.NoMemory) }
    ensures bytes { IfOk result (λ _. AreBytes program.segments) }
    ensures begun { IfOk result (IsBegun (booted_place program.segments program.entry harts size)) }
{
    if let Some(fault) = boot_fault(&program, harts, size) {
        return Err(fault);
    }
    match begin_booted(alloc, program, harts as usize, size as usize) {
        Ok(outcomes) => Ok(outcomes),
        Err(_) => Err(BootFault::NoMemory),
    }
}
