//! How fast a source is assembled.
use crate::timing::tell;
use assembler::assemble;
use std::alloc::{AllocError, Global};
use std::io;
use std::rt::Clock;
use std::time::Instant;

/// A source of so many lines: a label behind each tenth, and instructions that each make a word, among them branches to the last label.
fn source_of(alloc: Global, lines: u32) -> Result<String, AllocError> {
    let mut source = String::new(alloc);
    for i in 0..lines {
        add_line(alloc, i, &mut source)?;
    }
    Ok(source)
}

fn add_line(alloc: Global, i: u32, source: &mut String) -> Result<(), AllocError> {
    let label = i - i % 10;
    match i % 10 {
        0 => add(source, format!(in alloc; "near{i}: addi t0, t0, -1\n")),
        3 => source.push_str("        lw t1, 8(s0)\n"),
        6 => source.push_str("        sw t1, 12(s0)\n"),
        9 => add(
            source,
            format!(in alloc; "        bne t0, zero, near{label}\n"),
        ),
        _ => source.push_str("        add t2, t1, t0 # a sum\n"),
    }
}

fn add(source: &mut String, line: Result<String, AllocError>) -> Result<(), AllocError> {
    source.push_str(line?.as_str())
}

/// Assembles a source of so many lines.
pub(crate) fn measure(
    rt: &(impl Print + Eprint + Clock + AllocGlobal),
    lines: u64,
) -> io::Result<()> {
    let lines = lines.min(500_000) as u32;
    let Ok(source) = source_of(rt.alloc(), lines) else {
        return eprintln!(rt; "source: no memory");
    };
    let start = Instant::now(rt);
    let Some(bytes) = assembled(rt.alloc(), source.as_str()) else {
        return eprintln!(rt; "source: refused");
    };
    tell(rt, "source", bytes, start, u64::from(lines))
}

/// How many bytes the program has that is made of a source.
fn assembled(alloc: Global, source: &str) -> Option<u64> {
    let program = assemble(alloc, source).ok()?;
    let mut bytes = 0_u64;
    for segment in program.segments() {
        bytes = bytes.saturating_add(segment.bytes.len() as u64);
    }
    Some(bytes)
}
