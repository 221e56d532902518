ghost use Rattle.std.specs.Prelude.{◌≡◌, ◌<◌, ◌≤◌, ◌+◌, ◌-◌, ℕ, cond, true, length, drop, vec_len, IfOk, OnOk, slice_index};
ghost use Rattle.std.specs.List.{list_all, AllByRecursion};
ghost use Rattle.loader.specs.Programs.{IsSegment};
ghost use Rattle.table.specs.Program.{AreBytes, holds, byte_in, image_at};
ghost use Rattle.flat.specs.Boots.{ends_by};
ghost use Rattle.loader.specs.Memory.{mem_of};

use crate::program::Program;
use std::alloc::{AllocError, Global};
use table::Segment;

/// Lays a segment's bytes into memory.
fn lay_segment(memory: &mut [u8], segment: &Segment)
    requires fits { segment.now.addr + segment.now.size ≤ length memory.old }
    requires given { length segment.now.bytes ≤ segment.now.size }
    ensures bytes { (k : ℕ) → slice_index segment.now.bytes k < 256 }
    ensures memory { (a : ℕ) → mem_of memory.new a ≡ cond (holds segment.now a 1) (byte_in segment.now a) (mem_of memory.old a) }
{
    let start = segment.addr as usize;
    for k in 0..segment.size as usize {
        memory[start + k] = match segment.bytes.get(k) {
            Some(byte) => *byte,
            None => 0,
        };
    }
}

/// Lays a program's segments into memory that is all zeros, the first of them on top.
fn lay_image(memory: &mut [u8], segments: &[Segment])
    requires zeros { (a : ℕ) → mem_of memory.old a ≡ 0 }
    requires fits { list_all (ends_by (length memory.old)) segments.now ≡ true }
    requires segments { AllByRecursion IsSegment segments.now }
    ensures bytes { AreBytes segments.now }
    ensures memory { (a : ℕ) → mem_of memory.new a ≡ image_at segments.now a }
{
    for k in 0..segments.len() {
        lay_segment(memory, &segments[segments.len() - 1 - k]);
    }
}

/// Memory of so many bytes with a program's segments, the first of them on top, and zeros elsewhere. It fails only if memory runs
/// out.
pub fn image(alloc: Global, program: &Program, size: usize) -> Result<Vec<u8>, AllocError>
    requires { list_all (ends_by size) program.now.segments ≡ true }
    ensures size { IfOk result (λ m. vec_len m ≡ size) }
    ensures bytes { OnOk result (AreBytes program.now.segments) }
    ensures memory { IfOk result (λ m. (a : ℕ) → mem_of m.items a ≡ image_at program.now.segments a) }
{
    let mut memory = vec![in alloc; 0; size]?;
    lay_image(&mut memory, program.segments());
    Ok(memory)
}
