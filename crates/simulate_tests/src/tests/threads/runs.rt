//! A history that makes a run again. (The transcripts have what runs in threads report.)
use super::{COUNTED, COUNTER, KEPT};
use crate::tests::calls::{Sheets, carried, request_of};
use crate::tests::checks::{check, check_told};
use crate::tests::claims::holds;
use std::process::Abort;
use std::sync::Wait;
use std::thread::Threads;

/// That a list, played as a schedule, gives the counters' report.
fn check_again(rt: &(impl Abort + AllocGlobal + Threads + Wait + Sync), list: &[u8]) {
    let words = ["logtm", "run", "f.s", "--harts=2", "--schedule=h", "0x2000"];
    let request = request_of(rt.alloc(), &words).expect(rt, "a request");
    let sheets = Sheets::endless(rt.alloc());
    let told = carried(rt, &request, COUNTER.as_bytes(), list, sheets);
    check_told(rt, &told, 0, COUNTED, "");
}

#[test]
fn a_history_makes_the_run_again(rt: HostRuntime) {
    let sheets = Sheets::endless(rt.alloc());
    let told = check(
        &rt,
        KEPT.as_slice(),
        COUNTER.as_bytes(),
        sheets,
        0,
        COUNTED,
        "",
    );
    holds(&rt, told.page.bytes.starts_with(b"core "));
    check_again(&rt, &told.page.bytes);
}
