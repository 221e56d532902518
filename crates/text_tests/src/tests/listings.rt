//! Listings that cannot be put.

use crate::tests::claims::{equal_at, holds_at};
use disassembler::{Symbols, listing, texts_differ};
use loader::{Program, read_elf};
use reference::{Breaking, EXIT, elf_file};
use std::alloc::Global;
use std::process::Abort;
use std::test::Fail;

fn program(file: &[u8], alloc: Global) -> Result<Program, Fail> {
    Ok(read_elf(alloc, file).ok().ok_or("a program")?)
}

const EXIT_LISTING: &str = "\
0x00001000: 05d00893  addi a7, zero, 93
0x00001004: 00000513  addi a0, zero, 0
0x00001008: 00000073  ecall
";

/// That a sink took a part of the listing, and that one put failed.
fn check_part(rt: &impl Abort, out: &Breaking, left: u32) {
    equal_at(rt, &out.failed, &1, &left);
    holds_at(rt, EXIT_LISTING.as_bytes().starts_with(&out.bytes), &left);
    holds_at(rt, out.bytes.len() < EXIT_LISTING.len(), &left);
}

/// That the listing of a program fails after so many puts.
fn check_listing(rt: &(impl Abort + AllocGlobal), program: &Program, left: u32) {
    let mut out = Breaking::new(rt.alloc(), left);
    let answer = listing(program, &Symbols::none(rt.alloc()), &mut out);
    holds_at(rt, answer.is_err(), &left);
    check_part(rt, &out, left);
}

/// That the listing of a program fails at each put in turn.
fn check_listings(rt: &(impl Abort + AllocGlobal), program: &Program) {
    for left in 0..21 {
        check_listing(rt, program, left);
    }
}

#[test]
fn each_put_fails_in_turn(rt: HostRuntime) -> Result<(), Fail> {
    texts_differ();
    let file = elf_file(rt.alloc(), &EXIT)?;
    check_listings(&rt, &program(&file, rt.alloc())?);
    Ok(())
}
