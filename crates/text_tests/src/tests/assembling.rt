//! Sources and the segments and files that they make.

use crate::tests::claims::{equal_items, equal_text, holds_at};
use assembler::assemble;
use loader::{Program, write_elf};
use std::alloc::{AllocError, Global};
use std::process::Abort;
use std::test::Fail;
use table::Segment;
use words::Addr;

/// Whether a segment is text where text begins.
fn is_text(segment: &Segment) -> bool {
    segment.exec && segment.addr == 0x1000
}

/// Whether a program has text, and these bytes of data or no data.
fn has_parts(program: &Program, data: &[u8]) -> bool {
    match program.segments() {
        [text] => is_text(text) && data.is_empty(),
        [text, other] => is_text(text) && !other.exec && other.bytes.as_slice() == data,
        _ => false,
    }
}

/// The words of a program's text, of a thousand at most: eight digits each, with blanks between them.
fn words_of(alloc: Global, program: &Program) -> Result<String, AllocError> {
    let mut words = String::new(alloc);
    for k in 0..1000 {
        let Some(word) = program.text().word(Addr::new(0x1000 + 4 * k)) else {
            break;
        };
        if k > 0 {
            words.push(' ')?;
        }
        words.push_str(format!(in alloc; "{word:08x}")?.as_str())?;
    }
    Ok(words)
}

/// Checks that the text of a program has these words.
fn check_words(
    rt: &(impl Abort + AllocGlobal),
    program: &Program,
    words: &str,
) -> Result<(), Fail> {
    equal_text(rt, words_of(rt.alloc(), program)?.as_str(), words);
    Ok(())
}

/// Checks that a source is assembled to these words of text and these bytes of data.
fn check(
    rt: &(impl Abort + AllocGlobal),
    source: &str,
    words: &str,
    data: &[u8],
) -> Result<(), Fail> {
    let program = assemble(rt.alloc(), source).ok().ok_or("a program")?;
    holds_at(rt, has_parts(&program, data), &source);
    check_words(rt, &program, words)
}

const EXIT: &str = "li a7, 93\nli a0, 0\necall\n";

/// The file of the program that exits with 0, byte for byte.
#[rattlefmt::skip]
static EXIT_FILE: [u8; 96] = [
    0x7f, 0x45, 0x4c, 0x46, 0x01, 0x01, 0x01, 0x00, 0, 0, 0, 0, 0, 0, 0, 0, 0x02, 0x00, 0xf3, 0x00, 0x01, 0, 0, 0,
    0x00, 0x10, 0, 0, 0x34, 0, 0, 0, 0, 0, 0, 0, 0, 0, 0, 0, 0x34, 0x00, 0x20, 0x00, 0x01, 0x00, 0, 0, 0, 0, 0, 0,
    0x01, 0, 0, 0, 0x54, 0, 0, 0, 0x00, 0x10, 0, 0, 0x00, 0x10, 0, 0, 0x0c, 0, 0, 0, 0x0c, 0, 0, 0, 0x05, 0, 0, 0, 0x01, 0, 0, 0,
    0x93, 0x08, 0xd0, 0x05, 0x13, 0x05, 0x00, 0x00, 0x73, 0x00, 0x00, 0x00,
];

/// Checks that a program is written as the file that exits with 0.
fn check_file(rt: &(impl Abort + AllocGlobal), program: &Program) -> Result<(), Fail> {
    equal_items(rt, &write_elf(rt.alloc(), program)?, &EXIT_FILE);
    Ok(())
}

#[test]
fn the_exit_program_is_its_file(rt: HostRuntime) -> Result<(), Fail> {
    let program = assemble(rt.alloc(), EXIT).ok().ok_or("a program")?;
    check_file(&rt, &program)
}

/// Sources of the same program, which has no data.
static EXITS: [&str; 4] = [
    EXIT,
    "li a7,93\r\n\tli\ta0 ,\t0\r\n\r\n  ecall  # calls\r\n",
    "\n# exits\n_start:li a7, 0x5D\nx: li a0,-0\n\ty:ecall",
    ".globl _start\n.text\n_start: # here\nli a7, 93\nli a0, 0\nlast: ecall\r",
];

#[test]
fn a_program_without_data_is_text_alone(rt: HostRuntime) -> Result<(), Fail> {
    for &source in &EXITS {
        check(&rt, source, "05d00893 00000513 00000073", b"")?;
    }
    Ok(())
}

const DATA: &str = "\
la a0, x+4
la a0, x-4
.data
.word x, x-8192, -1
x: .half 1, 0xffff, -32768
.balign 4
.byte -128, 255, 0
.space 2
.balign 1
.byte 7";

const DATA_BYTES: [u8; 26] =
    *b"\x0c\x20\0\0\x0c\0\0\0\xff\xff\xff\xff\x01\0\xff\xff\0\x80\0\0\x80\xff\0\0\0\x07";

#[test]
fn labels_are_addresses(rt: HostRuntime) -> Result<(), Fail> {
    check(
        &rt,
        "la a0, x\n.data\nx: .word 5",
        "00002537 00050513",
        b"\x05\0\0\0",
    )?;
    check(
        &rt,
        DATA,
        "00002537 01050513 00002537 00850513",
        &DATA_BYTES,
    )?;
    check(&rt, "nop\n.data\nx: .word x", "00000013", b"\0\x20\0\0")
}
