ghost use Rattle.std.specs.Prelude.{◌≡◌, ◌<◌, ◌≤◌, ◌+◌, ◌-◌, ◌*◌, ◌^◌, ℕ, Some, None, Err, IfOk, MatchResult, cond, nat_lt, length, replicate, vec_len, slice_get};
ghost use Rattle.words.specs.Limits.{block_bytes, log_bytes, most_harts};
ghost use Rattle.undo_log.specs.Log.{empty_log};
ghost use Rattle.flat.specs.State.{Setting};
ghost use Rattle.flat.specs.Boots.{boot_fault, booted};
ghost use Rattle.flat.specs.declared.boot_fault.BootFault.{BootFault};
ghost use Rattle.loader.specs.Memory.{mem_of};
ghost use Rattle.protocol.specs.Lines.{words_at};
ghost use Rattle.protocol.specs.Start.{start};
ghost use Rattle.isolation.specs.Belongs.{Belongs};
ghost use Rattle.machine.specs.States.{words_of, Seat as SeatValue};
ghost use Rattle.machine.specs.Unused.{IsUnused};

use crate::loaded::Loaded;
use crate::machine::Machine;
use crate::seat::{HOST_LINE, Seat};
use crate::seating::Seats;
use directory::Directory;
use flat::BootFault;
use hart::Hart;
use loader::{Program, boot_fault, image, word_at};
use network::Net;
use std::alloc::{AllocError, Global};
use words::{Addr, BLOCK_BYTES, Block, HartId};

/// The words of a block, in memory as bytes.
fn block_at(memory: &[u8], block: usize) -> Block
    requires { block_bytes * block + block_bytes ≤ length memory.now }
    ensures { result ≡ words_at (mem_of memory.now) block }
{
    let at = BLOCK_BYTES * block;
    [
        word_at(memory, at),
        word_at(memory, at + 4),
        word_at(memory, at + 8),
        word_at(memory, at + 12),
        word_at(memory, at + 16),
        word_at(memory, at + 20),
        word_at(memory, at + 24),
        word_at(memory, at + 28),
    ]
}

/// The blocks of memory.
fn blocks_of(alloc: Global, memory: &[u8], count: usize) -> Result<Vec<Block>, AllocError>
    requires { length memory.now ≡ block_bytes * count }
    ensures count { IfOk result (λ blocks. vec_len blocks ≡ count) }
    ensures words { IfOk result (λ blocks. (b : ℕ) → words_of blocks.items b ≡ words_at (mem_of memory.now) b) }
{
    let mut blocks = Vec::with_capacity(alloc, count)?;
    for block in 0..count {
        blocks.push(block_at(memory, block))?;
    }
    Ok(blocks)
}

impl<const SETS: usize, const WAYS: usize> Seat<SETS, WAYS> {
    ghost use Rattle.std.specs.Prelude.{[]};
    ghost use Rattle.hart.specs.Shown.{shown_hart};
    ghost use Rattle.machine.specs.States.{IsSeated};

    /// Hart i as a machine of so many harts and bytes of memory begins with it.
    fn first(alloc: Global, i: usize, harts: usize, size: usize, entry: Addr) -> Self
        requires sets { 0 < SETS }
        requires ways { 0 < WAYS }
        requires lines { SETS * WAYS < 2 ^ 32 }
        requires hart { i < harts }
        requires few { harts ≤ most_harts }
        requires size { size < 2 ^ 32 }
        ensures start { (s : Setting) → s.size ≡ size → s.count ≡ harts → shown_hart SETS result.output result.hart ≡ (start s entry).harts i }
        ensures seated { (s : Setting) → s.size ≡ size → s.count ≡ harts → IsSeated s i result.hart }
        ensures cache { result.hart.cache ≡ replicate SETS (replicate WAYS None) }
        ensures log { result.hart.tx.log ≡ empty_log (size - log_bytes * (i + 1)) }
    {
        Seat {
            hart: Hart::new(HartId::new(i as u8), harts, size, entry),
            output: Vec::new(alloc),
            apart: [0; HOST_LINE],
        }
    }
}

impl<const SETS: usize, const WAYS: usize> Machine<SETS, WAYS> {
    ghost use Rattle.machine.specs.States.{shown, geometry, hart_at, IsSeated};

    /// All harts as they begin.
    fn first_seats(
        alloc: Global,
        harts: usize,
        size: usize,
        entry: Addr,
    ) -> Result<Seats<SETS, WAYS>, AllocError>
        requires sets { 0 < SETS }
        requires ways { 0 < WAYS }
        requires lines { SETS * WAYS < 2 ^ 32 }
        requires few { harts ≤ most_harts }
        requires size { size < 2 ^ 32 }
        ensures count { IfOk result (λ v. length v.items ≡ harts) }
        ensures harts { IfOk result (λ v. (s : Setting) (j : ℕ) → s.size ≡ size → s.count ≡ harts → hart_at SETS v.items j ≡ (start s entry).harts j) }
        ensures seated { IfOk result (λ v. (s : Setting) (j : ℕ) (x : SeatValue) → s.size ≡ size → s.count ≡ harts → slice_get v.items j ≡ Some x → IsSeated s j x.hart) }
        ensures caches { IfOk result (λ v. (j : ℕ) (x : SeatValue) → slice_get v.items j ≡ Some x → x.hart.cache ≡ replicate SETS (replicate WAYS None)) }
        ensures logs { IfOk result (λ v. (j : ℕ) (x : SeatValue) → slice_get v.items j ≡ Some x → x.hart.tx.log ≡ empty_log (size - log_bytes * (j + 1))) }
    {
        let mut seats = Seats::new(alloc)?;
        for i in 0..harts {
            seats.push(Seat::first(alloc, i, harts, size, entry));
        }
        Ok(seats)
    }

    /// The machine of a program that can be booted. It fails only if memory runs out.
    fn first(alloc: Global, program: Program, harts: usize, size: usize) -> Result<Self, AllocError>
        requires sets { 0 < SETS }
        requires ways { 0 < WAYS }
        requires lines { SETS * WAYS < 2 ^ 32 }
        requires bootable { boot_fault program.segments harts size ≡ None }
        ensures start { IfOk result (λ m. shown SETS m ≡ start (booted program.segments program.entry harts size).setting program.entry) }
        ensures belongs { IfOk result (λ m. Belongs (geometry SETS WAYS) (booted program.segments program.entry harts size) (shown SETS m)) }
        ensures unused { IfOk result (λ m. IsUnused (geometry SETS WAYS) m) }
    {
        let bytes = image(alloc, &program, size)?;
        let memory = blocks_of(alloc, &bytes, size / BLOCK_BYTES)?;
        let seats = Machine::first_seats(alloc, harts, size, program.entry())?;
        let program = Loaded::new(alloc, program)?;
        Ok(Machine {
            program,
            seats,
            directory: Directory::new(alloc, memory, harts),
            net: Net::new(alloc),
            stamps: 0,
        })
    }

    /// The machine that a program begins in, with a number of harts and of bytes of memory: no message was sent yet. The program is given up
    /// where it isn't booted.
    pub fn boot(alloc: Global, program: Program, harts: u32, size: u32) -> Result<Self, BootFault>
        requires sets { 0 < SETS }
        requires ways { 0 < WAYS }
        requires lines { SETS * WAYS < 2 ^ 32 }
        // The tests come in their order, before memory is asked for.
        ensures refused { (e : BootFault) → boot_fault program.segments harts size ≡ Some e → result ≡ Err e }
        ensures accepted { boot_fault program.segments harts size ≡ None →
            MatchResult result (λ m. shown SETS m ≡ start (booted program.segments program.entry harts size).setting program.entry) (λ e. e ≡ BootFault.NoMemory) }
        ensures belongs { IfOk result (λ m. Belongs (geometry SETS WAYS) (booted program.segments program.entry harts size) (shown SETS m)) }
        ensures unused { IfOk result (λ m. IsUnused (geometry SETS WAYS) m) }
    {
        if let Some(fault) = boot_fault(&program, harts, size) {
            return Err(fault);
        }
        Ok(Machine::first(alloc, program, harts as usize, size as usize)?)
    }
}
