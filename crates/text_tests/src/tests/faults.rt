//! The text of each fault of a source, a file and a boot, and of a put that failed.

use crate::tests::claims::equal_text;
use assembler::{AsmFault, SourceFault};
use flat::BootFault;
use loader::LoadFault;
use std::alloc::AllocError;
use std::fmt::Display;
use std::process::Abort;
use words::SinkFault;

/// Asserts that a fault has this text.
fn check_text<F: Display>(
    rt: &(impl Abort + AllocGlobal),
    fault: &F,
    text: &str,
) -> Result<(), AllocError> {
    equal_text(rt, fault.to_string(rt.alloc())?.as_str(), text);
    Ok(())
}

/// The faults of a source and their texts.
static SOURCE_FAULTS: [(AsmFault, &str); 10] = [
    (AsmFault::Unknown, "1 Unknown"),
    (AsmFault::Operand, "2 Operand"),
    (AsmFault::Register, "3 Register"),
    (AsmFault::Range, "4 Range"),
    (AsmFault::Alignment, "5 Alignment"),
    (AsmFault::Label, "6 Label"),
    (AsmFault::TwiceDefined, "7 TwiceDefined"),
    (AsmFault::Directive, "8 Directive"),
    (AsmFault::TooLarge, "9 TooLarge"),
    (AsmFault::NoMemory, "10 NoMemory"),
];

#[test]
fn faults_of_a_source_have_their_numbers(rt: HostRuntime) -> Result<(), AllocError> {
    for &(fault, text) in &SOURCE_FAULTS {
        check_text(&rt, &fault, text)?;
    }
    let fault = SourceFault {
        line: 17,
        fault: AsmFault::Range,
    };
    check_text(&rt, &fault, "line 17: 4 Range")
}

/// The faults of a file and their texts.
static FILE_FAULTS: [(LoadFault, &str); 11] = [
    (LoadFault::Truncated, "1 Truncated"),
    (LoadFault::NotElf32, "2 NotElf32"),
    (LoadFault::NotRiscv, "3 NotRiscv"),
    (LoadFault::NotExec, "4 NotExec"),
    (LoadFault::Compressed, "5 Compressed"),
    (LoadFault::BadHeaderSize, "6 BadHeaderSize"),
    (LoadFault::SegmentOutside, "7 SegmentOutside"),
    (LoadFault::SegmentOverlap, "8 SegmentOverlap"),
    (LoadFault::WritableText, "9 WritableText"),
    (LoadFault::BadEntry, "10 BadEntry"),
    (LoadFault::NoMemory, "11 NoMemory"),
];

#[test]
fn faults_of_a_file_have_their_numbers(rt: HostRuntime) -> Result<(), AllocError> {
    for &(fault, text) in &FILE_FAULTS {
        check_text(&rt, &fault, text)?;
    }
    Ok(())
}

/// The faults of a boot and their texts.
static BOOT_FAULTS: [(BootFault, &str); 4] = [
    (BootFault::BadSize, "1 BadSize"),
    (BootFault::BadHarts, "2 BadHarts"),
    (BootFault::DoesNotFit, "3 DoesNotFit"),
    (BootFault::NoMemory, "4 NoMemory"),
];

#[test]
fn faults_of_a_boot_have_their_numbers(rt: HostRuntime) -> Result<(), AllocError> {
    for &(fault, text) in &BOOT_FAULTS {
        check_text(&rt, &fault, text)?;
    }
    check_text(&rt, &SinkFault, "7 Device")
}
