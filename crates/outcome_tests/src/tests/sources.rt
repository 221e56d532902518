//! Programs with words of data.

ghost use Rattle.std.specs.Prelude.{◌≤◌};

use flat::BootFault;
use interleavings::Source;
use loader::{Program, read_elf};
use reference::program;
use std::alloc::{AllocError, Global};

/// A program without data.
pub(crate) fn text_alone(text: &[u32]) -> Source<'_> {
    Source { text, data: &[] }
}

fn push_words(file: &mut Vec<u8>, words: &[u32]) -> Result<(), AllocError> {
    for word in words {
        file.extend_from_slice(&word.to_le_bytes())?;
    }
    Ok(())
}

/// How many bytes so many words have.
fn bytes(words: &[u32]) -> u32
    ensures { result ≤ 4000000 }
{
    4 * words.len().min(1_000_000) as u32
}

/// Pushes a program header, of words at an offset of the file and at an address of memory.
fn push_header(
    file: &mut Vec<u8>,
    offset: u32,
    address: u32,
    words: &[u32],
    flags: u32,
) -> Result<(), AllocError> {
    let size = bytes(words);
    push_words(file, &[1, offset, address, address, size, size, flags, 1])
}

/// The ELF file of a program with data.
fn file_of(alloc: Global, source: &Source<'_>) -> Result<Vec<u8>, AllocError> {
    let mut file = Vec::new(alloc);
    let first = [
        0x464c_457f,
        0x0001_0101,
        0,
        0,
        0x00f3_0002,
        1,
        0x1000,
        52,
        0,
        0,
        0x0020_0034,
        2,
        0,
    ];
    push_words(&mut file, &first)?;
    push_header(&mut file, 116, 0, source.data, 6)?;
    push_header(&mut file, 116 + bytes(source.data), 0x1000, source.text, 5)?;
    push_words(&mut file, source.data)?;
    push_words(&mut file, source.text)?;
    Ok(file)
}

/// The program, as it is loaded. (One that can't be loaded is told as want of memory.)
pub(crate) fn program_of(alloc: Global, source: &Source<'_>) -> Result<Program, BootFault> {
    if source.data.is_empty() {
        return Ok(program(alloc, source.text)?);
    }
    match read_elf(alloc, &file_of(alloc, source)?) {
        Ok(program) => Ok(program),
        Err(_) => Err(BootFault::NoMemory),
    }
}
