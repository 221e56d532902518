//! Runs that are refused, and puts that are.
use super::{COUNTED, COUNTER, KEPT};
use crate::tests::calls::{Sheets, carried, request_of};
use crate::tests::checks::check;
use crate::tests::claims::{equal, equal_items, holds};
use crate::tests::paper::Paper;
use command_line::Request;
use std::process::Abort;
use std::sync::Wait;
use std::thread::Threads;

#[test]
fn a_history_that_cannot_be_put_is_told(rt: HostRuntime) {
    let text = "logtm: cannot write h\n";
    for left in [0, 1, 2, 5] {
        let sheets = Sheets::with_page(rt.alloc(), Paper::new(rt.alloc(), left));
        let told = check(
            &rt,
            KEPT.as_slice(),
            COUNTER.as_bytes(),
            sheets,
            3,
            "",
            text,
        );
        equal(&rt, &(told.page.left, told.page.failed), &(0, 1));
    }
    let sheets = Sheets::with_page(rt.alloc(), Paper::stuck(rt.alloc()));
    let told = check(
        &rt,
        KEPT.as_slice(),
        COUNTER.as_bytes(),
        sheets,
        3,
        "",
        text,
    );
    holds(&rt, told.page.bytes.starts_with(b"core "));
    equal(&rt, &told.page.failed, &1);
}

/// That the user is told where so many puts of the report are taken, and the next is refused.
fn check_cut(
    rt: &(impl Abort + AllocGlobal + Threads + Wait + Sync),
    request: &Request<'_>,
    left: u32,
) {
    let sheets = Sheets::cut(rt.alloc(), left);
    let told = carried(rt, request, COUNTER.as_bytes(), &[], sheets);
    equal(
        rt,
        &(told.status, told.out.left, told.out.failed),
        &(3, 0, 1),
    );
    holds(rt, COUNTED.as_bytes().starts_with(&told.out.bytes));
    holds(rt, told.page.bytes.starts_with(b"core "));
    let text = b"logtm: cannot write standard output\n";
    equal_items(rt, &told.error.bytes, text);
}

// The report has so many puts; each is refused in turn.
#[test]
fn a_report_that_cannot_be_put_is_told(rt: HostRuntime) {
    let request = request_of(rt.alloc(), KEPT.as_slice()).expect(&rt, "a request");
    for left in 0..13 {
        check_cut(&rt, &request, left);
    }
}
