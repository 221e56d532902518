//! How fast a program is listed.
use crate::instructions::WORDS;
use crate::timing::tell;
use disassembler::{Symbols, listing};
use loader::{Program, read_elf};
use std::alloc::{AllocError, Global};
use std::io;
use std::rt::Clock;
use std::time::Instant;
use words::Taken;

/// An ELF file of text segments of so many words each, from 0x1000 on with no byte between them, the last first in the file.
fn file_of(alloc: Global, segments: u16, words: u32) -> Result<Vec<u8>, AllocError> {
    let size = words.wrapping_mul(4);
    let text = 52 + 32 * u32::from(segments);
    let mut file = Vec::new(alloc);
    let header = [
        0x464c_457f,
        0x0001_0101,
        0,
        0,
        0x00f3_0002,
        1,
        0x1000,
        52,
        0,
        0,
        0x0020_0034,
        u32::from(segments),
        0,
    ];
    add_words(&mut file, &header)?;
    for i in (0..u32::from(segments)).rev() {
        let addr = i.wrapping_mul(size).wrapping_add(0x1000);
        add_words(&mut file, &[1, text, addr, addr, size, size, 5, 1])?;
    }
    for i in 0..words as usize {
        add_words(&mut file, &[WORDS[i % 8]])?;
    }
    Ok(file)
}

fn add_words(file: &mut Vec<u8>, words: &[u32]) -> Result<(), AllocError> {
    for word in words {
        file.extend_from_slice(&word.to_le_bytes())?;
    }
    Ok(())
}

fn program_of(alloc: Global, segments: u16, words: u32) -> Option<Program> {
    let file = file_of(alloc, segments, words).ok()?;
    read_elf(alloc, &file).ok()
}

/// Lists a program of so many segments, of so many words each.
fn measure_one(
    rt: &(impl Print + Eprint + Clock + AllocGlobal),
    name: &str,
    segments: u16,
    words: u32,
) -> io::Result<()> {
    let Some(program) = program_of(rt.alloc(), segments, words) else {
        return eprintln!(rt; "{name}: no program");
    };
    let mut out = Taken {
        bytes: Vec::new(rt.alloc()),
        failed: 0,
    };
    let lines = u64::from(segments).saturating_mul(u64::from(words));
    let start = Instant::now(rt);
    let _ = listing(&program, &Symbols::none(rt.alloc()), &mut out);
    tell(rt, name, out.bytes.len() as u64, start, lines)
}

pub(crate) fn measure(
    rt: &(impl Print + Eprint + Clock + AllocGlobal),
    rounds: u64,
) -> io::Result<()> {
    let words = rounds.min(1_047_552) as u32;
    measure_one(rt, "listing, one segment", 1, words)?;
    let segments = words.min(65535) as u16;
    measure_one(rt, "listing, a segment a word", segments, 1)
}
