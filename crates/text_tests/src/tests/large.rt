//! Sources as large as they may be, and one line past it.

use crate::tests::claims::{equal, equal_items, holds};
use assembler::assemble;
use loader::Program;
use std::alloc::{AllocError, Global};
use std::process::Abort;
use std::test::Fail;

/// Puts a line of 255 bytes, which has 64 words 19.
fn put_line(line: &mut String) -> Result<(), AllocError> {
    line.push_str(".word 19")?;
    for _ in 1..64 {
        line.push_str(",19")?;
    }
    line.push_str(" #")?;
    for _ in 199..255 {
        line.push('x')?;
    }
    line.push('\n')
}

/// A mebibyte of source, which makes a mebibyte of text: 4,096 lines of 255 bytes, each with 64 words 19, which are NOPs.
fn largest(alloc: Global) -> Result<String, AllocError> {
    let mut line = String::new(alloc);
    put_line(&mut line)?;
    let mut source = String::new(alloc);
    for _ in 0..4096 {
        source.push_str(line.as_str())?;
    }
    Ok(source)
}

/// That a source is refused at this line, by a fault of this name.
fn check_fault(
    rt: &(impl Abort + AllocGlobal),
    source: &str,
    line: usize,
    name: &str,
) -> Result<(), Fail> {
    let fault = assemble(rt.alloc(), source).err().ok_or("a fault")?;
    equal(rt, &(fault.line, fault.fault.name()), &(line, name));
    Ok(())
}

/// That the text of a program is a mebibyte, and ends with a NOP.
fn check_text(rt: &impl Abort, program: &Program) -> Result<(), Fail> {
    let text = program.segments().first().ok_or("a segment")?;
    holds(rt, text.bytes.len() == 1_048_576);
    equal_items(rt, &text.bytes[1_048_572..], &[0x13, 0, 0, 0][..]);
    Ok(())
}

/// That a source of a mebibyte is assembled to a mebibyte of text.
fn check_source(rt: &(impl Abort + AllocGlobal), source: &str) -> Result<(), Fail> {
    equal(rt, &source.len(), &1_048_576);
    let program = assemble(rt.alloc(), source).ok().ok_or("a program")?;
    check_text(rt, &program)
}

/// That a source is as large as it may be: with a word more, it is too much.
fn check_largest(rt: &(impl Abort + AllocGlobal), source: &mut String) -> Result<(), Fail> {
    check_source(rt, source.as_str())?;
    source.push_str("nop")?;
    check_fault(rt, source.as_str(), 4097, "TooLarge")
}

#[test]
fn a_mebibyte_is_assembled(rt: HostRuntime) -> Result<(), Fail> {
    let mut source = largest(rt.alloc())?;
    check_largest(&rt, &mut source)
}

/// 100,000 instructions, each with a label of its own. The last lines jump back over all of them, and over one.
fn labelled(alloc: Global) -> Result<String, Fail> {
    let mut source = String::new(alloc);
    for i in 0..100_000u32 {
        let line = format!(in alloc; "l{i}: nop\n")?;
        source.push_str(line.as_str())?;
    }
    source.push_str("j l0\nj l99999")?;
    Ok(source)
}

#[test]
fn a_hundred_thousand_labels_are_found(rt: HostRuntime) -> Result<(), Fail> {
    let source = labelled(rt.alloc())?;
    let program = assemble(rt.alloc(), source.as_str())
        .ok()
        .ok_or("a program")?;
    let text = program.segments().first().ok_or("a segment")?;
    holds(&rt, text.bytes.len() == 400_008);
    let jumps = [0x6f, 0xe0, 0x09, 0xd8, 0x6f, 0xf0, 0x9f, 0xff];
    equal_items(&rt, &text.bytes[400_000..400_008], &jumps[..]);
    Ok(())
}
