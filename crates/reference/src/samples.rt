//! Small programs, and their ELF files.
ghost use Rattle.std.specs.Prelude.{◌≡◌, ◌≤◌, length, IfOk};
ghost use Rattle.std.specs.Int.{w32, to_le_bytes};
ghost use Rattle.std.specs.List.{flat_map};
ghost use Rattle.reference.specs.Samples.{text_of, sample_of};
ghost use Rattle.loader.specs.Writing.{elf_of};

use loader::{Program, write_elf};
use std::alloc::{AllocError, Global};
use table::Segment;
use words::Addr;

/// How many words fit between 0x1000 and 4 MiB.
const MOST_WORDS: usize = 1_047_552;

/// The program of one text segment at 0x1000, where it begins, with these words. (No words make one word 0, and words beyond 4 MiB
/// are left out.)
pub fn program(alloc: Global, text: &[u32]) -> Result<Program, AllocError>
    ensures { IfOk result (λ p. p ≡ sample_of text.now) }
{
    let words = &text[..MOST_WORDS.min(text.len())];
    let mut segments = Vec::new(alloc);
    segments.push(text_of(alloc, words)?)?;
    Ok(Program::new(Addr::new(0x1000), segments))
}

/// The ELF file of that program.
pub fn elf_file(alloc: Global, text: &[u32]) -> Result<Vec<u8>, AllocError>
    ensures { IfOk result (λ file. file.items ≡ elf_of (sample_of text.now)) }
{
    write_elf(alloc, &program(alloc, text)?)
}

/// The text segment of these words.
fn text_of(alloc: Global, words: &[u32]) -> Result<Segment, AllocError>
    requires { length words.now ≤ MOST_WORDS }
    ensures { IfOk result (λ s. s ≡ text_of words.now) }
{
    Ok(Segment {
        addr: 0x1000,
        bytes: bytes_of(alloc, words)?,
        size: 4 * words.len().max(1) as u32,
        exec: true,
    })
}

/// The bytes of words, the lowest byte of each first.
fn bytes_of(alloc: Global, words: &[u32]) -> Result<Vec<u8>, AllocError>
    ensures { IfOk result (λ bytes. bytes.items ≡ flat_map (to_le_bytes w32) words.now) }
{
    let mut bytes = Vec::new(alloc);
    for word in words {
        bytes.extend_from_slice(&word.to_le_bytes())?;
    }
    Ok(bytes)
}
