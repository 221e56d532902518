//! Timelines, pictures and pages that cannot be put.
use super::calls::{Sheets, file_of};
use super::checks::{Viewed, check, check_each_view_put};
use super::paper::Paper;
use crate::tests::claims::equal;
use reference::COMMITS;
use std::process::Abort;
use std::sync::Wait;
use std::test::Fail;
use std::thread::Threads;

/// Two steps of a program that begins a transaction.
const TIMELINE: &str = r#"{"traceEvents":[
{"ph":"M","name":"process_name","pid":0,"args":{"name":"logtm"}},
{"ph":"M","name":"thread_name","pid":0,"tid":0,"args":{"name":"hart 0"}},
{"ph":"M","name":"thread_name","pid":0,"tid":8,"args":{"name":"directory"}},
{"ph":"B","name":"transaction","ts":0,"pid":0,"tid":0},
{"ph":"X","dur":1,"ts":0,"pid":0,"tid":0,"name":"tbegin 20"},
{"ph":"X","dur":1,"ts":1,"pid":0,"tid":0,"name":"lui t0, 0x2"}
]}
"#;

static TIMED: [&str; 6] = ["logtm", "run", "f", "--steps", "2", "--timeline=t.json"];

static PAGED: [&str; 6] = ["logtm", "run", "f", "--steps", "2", "--timeline=t.html"];

static DRAWN: [&str; 6] = ["logtm", "run", "f", "--steps", "2", "--timeline=t.svg"];

/// The timeline takes 9 puts for the names of the lanes, 5 for the transaction's begin, 7 for each step, and one for the last line.
const WHOLE: Viewed = Viewed {
    puts: 29,
    view: TIMELINE,
    status: 5,
    report: "hart 0: running\n",
    unmade: "logtm: cannot write t.json\n",
};

#[test]
fn each_put_of_the_timeline_is_refused(rt: HostRuntime) -> Result<(), Fail> {
    let file = file_of(rt.alloc(), &COMMITS)?;
    check_each_view_put(&rt, TIMED.as_slice(), &file, 35, &WHOLE);
    Ok(())
}

/// That a run is told of whose timeline or picture, on this paper, is cut.
fn check_cut(
    rt: &(impl Abort + AllocGlobal + Threads + Wait + Sync),
    words: &[&str],
    file: &[u8],
    page: Paper,
    unmade: &str,
) {
    let sheets = Sheets::with_page(rt.alloc(), page);
    let told = check(rt, words, file, sheets, 3, "", unmade);
    equal(rt, &told.page.failed, &1);
}

#[test]
fn a_timeline_that_is_not_written_out_is_told(rt: HostRuntime) -> Result<(), Fail> {
    let file = file_of(rt.alloc(), &COMMITS)?;
    let stuck = Paper::stuck(rt.alloc());
    check_cut(&rt, TIMED.as_slice(), &file, stuck, WHOLE.unmade);
    Ok(())
}

#[test]
fn a_picture_that_is_cut_is_told(rt: HostRuntime) -> Result<(), Fail> {
    let file = file_of(rt.alloc(), &COMMITS)?;
    for page in [Paper::new(rt.alloc(), 10), Paper::stuck(rt.alloc())] {
        let unmade = "logtm: cannot write t.svg\n";
        check_cut(&rt, DRAWN.as_slice(), &file, page, unmade);
    }
    Ok(())
}

#[test]
fn a_page_that_is_cut_is_told(rt: HostRuntime) -> Result<(), Fail> {
    let file = file_of(rt.alloc(), &COMMITS)?;
    for page in [Paper::new(rt.alloc(), 10), Paper::stuck(rt.alloc())] {
        let unmade = "logtm: cannot write t.html\n";
        check_cut(&rt, PAGED.as_slice(), &file, page, unmade);
    }
    Ok(())
}
