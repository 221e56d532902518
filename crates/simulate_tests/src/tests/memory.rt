//! For `rt try --test --fail-alloc N`: either nothing is missed, or memory ran out and only that is told.
use super::calls::{Sheets, Told, carried, file_of, request_of};
use super::checks::check_told;
use super::paper::Paper;
use super::running::{LISTING, PRINTS, REPORT};
use super::searching::PRINTED;
use super::threads::{COUNTED, COUNTER, TWO};
use crate::tests::claims::{equal, holds};
use reference::EXIT;
use std::process::Abort;
use std::sync::Wait;
use std::test::Fail;
use std::thread::Threads;

/// What becomes of the words on a file, by sinks that take no memory. `None` if memory ran out before they were carried out.
fn told_or_none(
    rt: &(impl AllocGlobal + Threads + Wait + Sync),
    words: &[&str],
    file: &[u8],
) -> Option<Told> {
    let request = request_of(rt.alloc(), words)?;
    let sheets = Sheets {
        out: Paper::roomy(rt.alloc())?,
        error: Paper::roomy(rt.alloc())?,
        page: Paper::roomy(rt.alloc())?,
    };
    Some(carried(rt, &request, file, &[], sheets))
}

/// That the words end with this text and this image, or memory ran out and only that is told. It answers what became of them, unless memory ran out.
fn check(
    rt: &(impl Abort + AllocGlobal + Threads + Wait + Sync),
    words: &[&str],
    file: &[u8],
    out: &str,
    image: Option<&[u8]>,
) -> Option<Told> {
    let told = told_or_none(rt, words, file)?;
    if told.status == 6 {
        check_told(rt, &told, 6, "", "logtm: no memory\n");
        holds(rt, told.image.is_none());
        return None;
    }
    check_told(rt, &told, 0, out, "");
    equal(rt, &told.image.as_deref(), &image);
    Some(told)
}

#[test]
fn runs_or_wants_memory(rt: HostRuntime) -> Result<(), Fail> {
    if let Ok(file) = file_of(rt.alloc(), &PRINTS) {
        let words = ["logtm", "run", "f", "--harts=2", "0x1000"];
        let _ = check(&rt, &words, &file, REPORT, None);
    }
    Ok(())
}

#[test]
fn searches_or_wants_memory(rt: HostRuntime) -> Result<(), Fail> {
    if let Ok(file) = file_of(rt.alloc(), &PRINTS) {
        let words = ["logtm", "outcomes", "f", "--harts=2", "0x1000"];
        let _ = check(&rt, &words, &file, PRINTED, None);
    }
    Ok(())
}

#[test]
fn runs_in_threads_or_wants_memory(rt: HostRuntime) {
    let _ = check(&rt, TWO.as_slice(), COUNTER.as_bytes(), COUNTED, None);
}

#[test]
fn lists_or_wants_memory(rt: HostRuntime) -> Result<(), Fail> {
    if let Ok(file) = file_of(rt.alloc(), &EXIT) {
        let _ = check(&rt, &["logtm", "dis", "f"], &file, LISTING, None);
    }
    Ok(())
}

#[test]
fn assembles_or_wants_memory(rt: HostRuntime) -> Result<(), Fail> {
    if let Ok(file) = file_of(rt.alloc(), &EXIT) {
        let source = b"li a7, 93\nli a0, 0\nend: ecall\n";
        let _ = check(&rt, &["logtm", "asm", "f.s", "f"], source, "", Some(&file));
    }
    Ok(())
}

/// That the file of a view or of a history begins and ends so, where a hart exits at once, or memory ran out.
fn check_page(
    rt: &(impl Abort + AllocGlobal + Threads + Wait + Sync),
    words: &[&str],
    begins: &str,
    ends: &str,
) {
    let source = b"li a7, 93\nli a0, 0\necall\n";
    if let Some(told) = check(rt, words, source, "hart 0: exit 0\n", None) {
        holds(rt, told.page.bytes.starts_with(begins.as_bytes()));
        holds(rt, told.page.bytes.ends_with(ends.as_bytes()));
        equal(rt, &told.page.failed, &0);
    }
}

#[test]
fn shows_or_wants_memory(rt: HostRuntime) {
    let begins = "0 0x00001000 05d00893 addi a7, zero, 93 | a7=0x0000005d\n";
    let ends = "0 0x00001008 00000073 ecall\n";
    check_page(&rt, &["logtm", "run", "f.s", "--trace=t"], begins, ends);
    let words = ["logtm", "run", "f.s", "--timeline=t.json"];
    check_page(&rt, &words, "{\"traceEvents\":[\n", "]}\n");
    let words = ["logtm", "run", "f.s", "--steps=9", "--timeline=t.svg"];
    check_page(&rt, &words, "<svg ", "</svg>\n");
    let words = ["logtm", "run", "f.s", "--steps=9", "--timeline=t.html"];
    check_page(&rt, &words, "<!DOCTYPE html>\n", "</html>\n");
}

#[test]
fn keeps_a_history_or_wants_memory(rt: HostRuntime) {
    let words = ["logtm", "run", "f.s", "--threads", "--history=h"];
    let list = "core 0\ncore 0\ncore 0\n";
    check_page(&rt, &words, list, list);
}
