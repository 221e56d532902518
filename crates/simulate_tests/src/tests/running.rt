//! Programs that are run or listed, what they are refused for, and texts that cannot be put.
use super::calls::{Sheets, carried, file_of, request_of};
use super::checks::{check_each_put, check_told};
use super::paper::Paper;
use crate::tests::claims::{equal, equal_items, holds};
use command_line::Request;
use reference::EXIT;
use simulate::Fault;
use std::process::Abort;
use std::sync::Wait;
use std::test::Fail;
use std::thread::Threads;

/// li a7, 1; li a0, 'H'; ecall; li a0, '\n'; ecall; and then the program that exits with 0.
pub(crate) static PRINTS: [u32; 8] = [
    0x0010_0893,
    0x0480_0513,
    0x0000_0073,
    0x00a0_0513,
    0x0000_0073,
    0x05d0_0893,
    0x0000_0513,
    0x0000_0073,
];

/// Run by two harts, and its first word shown.
pub(crate) const REPORT: &str =
    "hart 0 output 2 bytes\nH\n\nhart 0: exit 0\nhart 1 output 2 bytes\nH\n\nhart 1: exit 0\nword 0x00001000 = 0x00100893\n";

/// The program that exits with 0.
pub(crate) const LISTING: &str =
    "0x00001000: 05d00893  addi a7, zero, 93\n0x00001004: 00000513  addi a0, zero, 0\n0x00001008: 00000073  ecall\n";

#[test]
fn a_failed_put_cuts_the_report(rt: HostRuntime) -> Result<(), Fail> {
    let file = file_of(rt.alloc(), &PRINTS)?;
    let words = ["logtm", "run", "f", "--harts=2", "0x1000"];
    let text = check_each_put(&rt, &words, &file, 100);
    equal_items(&rt, &text, REPORT.as_bytes());
    Ok(())
}

#[test]
fn a_failed_put_cuts_the_listing(rt: HostRuntime) -> Result<(), Fail> {
    let file = file_of(rt.alloc(), &EXIT)?;
    let text = check_each_put(&rt, &["logtm", "dis", "f"], &file, 100);
    equal_items(&rt, &text, LISTING.as_bytes());
    Ok(())
}

/// That a fault which is told with so many puts ends a run with its own status.
fn check_untold(
    rt: &(impl Abort + AllocGlobal + Threads + Wait + Sync),
    request: &Request<'_>,
    left: u32,
) {
    let mut sheets = Sheets::endless(rt.alloc());
    sheets.error = Paper::new(rt.alloc(), left);
    let told = carried(rt, request, &[], &[], sheets);
    equal(rt, &(told.status, told.error.failed), &(4, 1));
    holds(
        rt,
        b"logtm: load 1 Truncated\n".starts_with(&told.error.bytes),
    );
    equal(rt, &told.out.bytes.len(), &0);
}

#[test]
fn a_fault_that_is_not_told_stays(rt: HostRuntime) {
    let words = ["logtm", "run", "f"];
    let request = request_of(rt.alloc(), &words).expect(&rt, "a request");
    for left in 0..5 {
        check_untold(&rt, &request, left);
    }
}

// The program is read before the words to show, and these before the schedule. Nothing is put of a run that has not begun.
/// Checks that a run of a file by a schedule is refused: nothing is put but what is told.
fn check_refused(
    rt: &(impl Abort + AllocGlobal + Threads + Wait + Sync),
    request: &Request<'_>,
    file: &[u8],
    schedule: &[u8],
    status: u8,
    text: &str,
) {
    let told = carried(rt, request, file, schedule, Sheets::endless(rt.alloc()));
    check_told(rt, &told, status, "", text);
    equal(rt, &told.page.bytes.len(), &0);
}

#[test]
fn the_first_of_three_faults_is_told(rt: HostRuntime) -> Result<(), Fail> {
    let file = file_of(rt.alloc(), &PRINTS)?;
    let words = ["logtm", "run", "f", "--schedule=l", "--trace=t", "3"];
    let word = request_of(rt.alloc(), &words).expect(&rt, "a request");
    let words = ["logtm", "run", "f", "--schedule=l", "--trace=-", "8"];
    let none = request_of(rt.alloc(), &words).expect(&rt, "a request");
    let truncated = "logtm: load 1 Truncated\n";
    check_refused(&rt, &word, b"", b"nothing\n", 4, truncated);
    check_refused(&rt, &word, &file, b"nothing\n", 2, "logtm: word 3\n");
    let line = "logtm: schedule line 2: no step\n";
    check_refused(&rt, &none, &file, b"#\nnothing\n", 2, line);
    let text = "logtm: schedule is not text\n";
    check_refused(&rt, &none, &file, b"\xff", 2, text);
    check_refused(&rt, &none, b"", b"\xff", 4, truncated);
    Ok(())
}

#[test]
fn a_request_without_a_view_leaves_its_file(rt: HostRuntime) -> Result<(), Fail> {
    let file = file_of(rt.alloc(), &EXIT)?;
    let cases: [&[&str]; 6] = [
        &["logtm", "run", "f"],
        &["logtm", "run", "f", "--stats=csv"],
        &["logtm", "run", "f", "--trace=-"],
        &["logtm", "run", "f", "--threads"],
        &["logtm", "debug", "f"],
        &["logtm", "dis", "f"],
    ];
    for words in cases {
        let request = request_of(rt.alloc(), words).expect(&rt, "a request");
        let sheets = Sheets::with_page(rt.alloc(), Paper::stuck(rt.alloc()));
        let told = carried(&rt, &request, &file, &[], sheets);
        equal(
            &rt,
            &(told.status, told.page.bytes.len(), told.page.failed),
            &(0, 0, 0),
        );
    }
    Ok(())
}

#[test]
fn an_exchanged_machine_is_told(rt: HostRuntime) {
    let mut error = Paper::endless(rt.alloc());
    equal(&rt, &Fault::Exchanged.tell(&mut error), &7);
    let text = b"logtm: the threads gave back another machine\n";
    equal_items(&rt, &error.bytes, text);
}
