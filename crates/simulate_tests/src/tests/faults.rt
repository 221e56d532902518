//! The text of each fault of a command line, of a file and of the program.

use crate::tests::claims::equal_text;
use assembler::{AsmFault, SourceFault};
use command_line::{Argument, OrderFault};
use flat::BootFault;
use loader::LoadFault;
use simulate::{Fault, RefusedLine, StoreFault};
use std::alloc::AllocError;
use std::fmt::Display;
use std::process::Abort;

/// Asserts that a fault has this text.
fn check_text<F: Display>(
    rt: &(impl Abort + AllocGlobal),
    fault: &F,
    text: &str,
) -> Result<(), AllocError> {
    equal_text(rt, fault.to_string(rt.alloc())?.as_str(), text);
    Ok(())
}

#[test]
fn faults_of_a_command_line_have_their_texts(rt: HostRuntime) -> Result<(), AllocError> {
    for (fault, text) in [
        (OrderFault::Value(Argument::Harts, "nine"), "value nine"),
        (OrderFault::TwoViews, "more than one view is asked for"),
        (
            OrderFault::LongPicture,
            "the run may be too long for a picture",
        ),
        (OrderFault::LongPage, "the run may be too long for a page"),
        (
            OrderFault::ThreadsAlone,
            "an option that a run in threads excludes, or a history without a way to choose",
        ),
        (OrderFault::MixAlone, "weights without a seed"),
        (OrderFault::TwoFiles, "two files are asked for"),
        (OrderFault::NoMemory, "no memory"),
    ] {
        check_text(&rt, &fault, text)?;
    }
    let said = format!(in rt.alloc(); "a usage")?;
    check_text(&rt, &OrderFault::Refused(said), "a usage")?;
    let said = format!(in rt.alloc(); "a version")?;
    check_text(&rt, &OrderFault::Asked(said), "a version")
}

#[test]
fn faults_of_the_options_have_their_texts(rt: HostRuntime) -> Result<(), AllocError> {
    for (fault, text) in [
        (Fault::NotText, "an argument is not text"),
        (Fault::Value(Argument::Steps, "-1"), "value -1"),
        (
            Fault::TwoViews,
            "--trace, --timeline and --stats exclude each other",
        ),
        (
            Fault::LongPicture,
            "a picture takes --steps of at most 2000",
        ),
        (Fault::LongPage, "a page takes --steps of at most 20000"),
        (
            Fault::ThreadsAlone,
            "--threads excludes --schedule, --seed, --trace, --timeline and --stats, and --history needs --threads or --seed",
        ),
        (Fault::MixAlone, "--mix needs --seed"),
        (
            Fault::TwoFiles,
            "--history excludes --timeline, and --trace into a file",
        ),
        (Fault::Word("0x2001"), "word 0x2001"),
        (Fault::NoOutcome(3), "no outcome 3"),
    ] {
        check_text(&rt, &fault, text)?;
    }
    let said = format!(in rt.alloc(); "a usage")?;
    check_text(&rt, &Fault::Refused(said), "a usage")?;
    let said = format!(in rt.alloc(); "a version")?;
    check_text(&rt, &Fault::Asked(said), "a version")
}

#[test]
fn faults_of_files_have_their_texts(rt: HostRuntime) -> Result<(), AllocError> {
    let why = SourceFault {
        line: 17,
        fault: AsmFault::Range,
    };
    for (fault, text) in [
        (
            Fault::Overwrites("a.s"),
            "it would overwrite what it reads: a.s",
        ),
        (Fault::Unread("a.s"), "cannot read a.s"),
        (Fault::TooLong("a.s"), "longer than 33554432 bytes: a.s"),
        (Fault::NotSource, "source is not text"),
        (
            Fault::Source(RefusedLine { why, text: None }),
            "line 17: 4 Range",
        ),
        (Fault::Load(LoadFault::NotElf32), "load 2 NotElf32"),
        (Fault::Boot(BootFault::BadHarts), "boot 2 BadHarts"),
        (Fault::NotSchedule, "schedule is not text"),
        (Fault::Schedule(3), "schedule line 3: no step"),
        (Fault::Exchanged, "the threads gave back another machine"),
        (Fault::Unwritten, "cannot write standard output"),
        (Fault::Unmade("t.json"), "cannot write t.json"),
        (Fault::NoMemory, "no memory"),
    ] {
        check_text(&rt, &fault, text)?;
    }
    check_text(&rt, &StoreFault::Refused, "the file is refused")?;
    check_text(&rt, &StoreFault::NoMemory, "no memory")
}
