//! The small programs that tests share, and their ELF files.

use crate::tests::claims::equal;
use loader::Program;
use reference::{EXIT, elf_file, program};
use std::process::Abort;
use std::test::Fail;
use words::Addr;

/// That a program is the one of three words.
fn check_three(rt: &impl Abort, sample: &Program) {
    equal(rt, &sample.entry(), &Addr::new(0x1000));
    equal(
        rt,
        &sample.text().word(Addr::new(0x1008)),
        &Some(0x0000_0073),
    );
    equal(rt, &sample.text().word(Addr::new(0x100c)), &None);
}

/// That a program of no words has a word 0.
fn check_none(rt: &(impl Abort + AllocGlobal)) -> Result<(), Fail> {
    let none = program(rt.alloc(), &[])?;
    equal(rt, &none.text().word(Addr::new(0x1000)), &Some(0));
    Ok(())
}

/// That the file of three words has its length.
fn check_file(rt: &(impl Abort + AllocGlobal)) -> Result<(), Fail> {
    equal(rt, &elf_file(rt.alloc(), &EXIT)?.len(), &96);
    Ok(())
}

#[test]
fn a_program_of_three_words(rt: HostRuntime) -> Result<(), Fail> {
    check_three(&rt, &program(rt.alloc(), &EXIT)?);
    check_file(&rt)?;
    check_none(&rt)
}
