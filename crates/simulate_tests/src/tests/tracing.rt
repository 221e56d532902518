//! Traces that cannot be put, in one sink with the report and apart from it.
use super::calls::{Sheets, carried, file_of, request_of};
use super::checks::{Viewed, check, check_each_put, check_each_view_put};
use super::paper::Paper;
use crate::tests::claims::{equal, equal_items};
use reference::COMMITS;
use std::process::Abort;
use std::test::Fail;

/// What the program of the trace leaves: it stores 7 to 0x2000 in a transaction, and exits.
const TRACE: &str = "0 0x00001000 00000a0b tbegin 20\n\
    0 0x00001004 000022b7 lui t0, 0x2 | t0=0x00002000\n\
    0 0x00001008 00700313 addi t1, zero, 7 | t1=0x00000007\n\
    0 0x0000100c 0062a023 sw t1, 0(t0) | store 4 0x00002000=0x00000007\n\
    0 0x00001010 0000100b tcommit\n\
    0 0x00001014 05d00893 addi a7, zero, 93 | a7=0x0000005d\n\
    0 0x00001018 00000513 addi a0, zero, 0 | a0=0x00000000\n\
    0 0x0000101c 00000073 ecall\n";

const REPORT: &str = "hart 0: exit 0\nword 0x00002000 = 0x00000007\n";

const UNMADE: &str = "logtm: cannot write t\n";

const UNWRITTEN: &str = "logtm: cannot write standard output\n";

static APART: [&str; 7] = [
    "logtm",
    "run",
    "f",
    "--memory",
    "65536",
    "--trace=t",
    "0x2000",
];

static BEFORE: [&str; 7] = [
    "logtm",
    "run",
    "f",
    "--memory",
    "65536",
    "--trace=-",
    "0x2000",
];

/// The trace takes three puts: its second and third line are one, and so are all behind them.
const WHOLE: Viewed = Viewed {
    puts: 3,
    view: TRACE,
    status: 0,
    report: REPORT,
    unmade: UNMADE,
};

#[test]
fn each_put_of_the_trace_is_refused(rt: HostRuntime) -> Result<(), Fail> {
    let file = file_of(rt.alloc(), &COMMITS)?;
    check_each_view_put(&rt, APART.as_slice(), &file, 20, &WHOLE);
    Ok(())
}

#[test]
fn a_trace_that_is_not_written_out_is_told(rt: HostRuntime) -> Result<(), Fail> {
    let file = file_of(rt.alloc(), &COMMITS)?;
    let sheets = Sheets::with_page(rt.alloc(), Paper::stuck(rt.alloc()));
    let told = check(&rt, APART.as_slice(), &file, sheets, 3, "", UNMADE);
    equal_items(&rt, &told.page.bytes, TRACE.as_bytes());
    equal(&rt, &told.page.failed, &1);
    Ok(())
}

/// That a text is the trace, and behind it this.
fn check_both(rt: &impl Abort, text: &[u8], behind: &str) {
    let (trace, report) = text.split_at(TRACE.len().min(text.len()));
    equal_items(rt, trace, TRACE.as_bytes());
    equal_items(rt, report, behind.as_bytes());
}

#[test]
fn each_put_of_both_is_refused(rt: HostRuntime) -> Result<(), Fail> {
    let file = file_of(rt.alloc(), &COMMITS)?;
    let text = check_each_put(&rt, BEFORE.as_slice(), &file, 120);
    check_both(&rt, &text, REPORT);
    Ok(())
}

// Three puts are those of the trace, and the next is the report's first: of "hart " half is taken.
#[test]
fn a_report_is_cut_behind_its_trace(rt: HostRuntime) -> Result<(), Fail> {
    let file = file_of(rt.alloc(), &COMMITS)?;
    let request = request_of(rt.alloc(), BEFORE.as_slice()).expect(&rt, "a request");
    let mut sheets = Sheets::cut(rt.alloc(), 3);
    sheets.page = Paper::stuck(rt.alloc());
    let told = carried(&rt, &request, &file, &[], sheets);
    equal(
        &rt,
        &(told.status, told.out.failed, told.page.failed),
        &(3, 1, 0),
    );
    equal_items(&rt, &told.error.bytes, UNWRITTEN.as_bytes());
    check_both(&rt, &told.out.bytes, "ha");
    Ok(())
}
