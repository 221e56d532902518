//! What has to come of command lines.
use super::calls::{Sheets, Told, carried, request_of};
use super::paper::Paper;
use crate::tests::claims::{equal, equal_at, equal_items, holds};
use command_line::Request;
use std::process::Abort;
use std::sync::Wait;
use std::thread::Threads;

/// That a request ended with this status, and put these texts whole.
pub(crate) fn check_told(rt: &impl Abort, told: &Told, status: u8, out: &str, error: &str) {
    equal_at(rt, &told.status, &status, &(out, error));
    equal_items(rt, &told.out.bytes, out.as_bytes());
    equal_items(rt, &told.error.bytes, error.as_bytes());
}

/// That the words, carried out on a file, end with this status and these texts. It answers what became of them.
pub(crate) fn check(
    rt: &(impl Abort + AllocGlobal + Threads + Wait + Sync),
    words: &[&str],
    file: &[u8],
    sheets: Sheets,
    status: u8,
    out: &str,
    error: &str,
) -> Told {
    let request = request_of(rt.alloc(), words).expect(rt, "a request");
    let told = carried(rt, &request, file, &[], sheets);
    check_told(rt, &told, status, out, error);
    told
}

/// What stands on standard output where it takes one put more each time.
#[derive(Drop)]
struct Cuts {
    text: Vec<u8>,
    whole: bool,
}

/// That a request's output is whole, or its last put failed, and only that is told; and that it begins with what it was before.
fn check_cut(rt: &impl Abort, cuts: &mut Cuts, told: &Told) {
    let out = told.out.bytes.as_slice();
    holds(rt, out.starts_with(&cuts.text));
    if told.status == 0 {
        holds(rt, !cuts.whole || out == cuts.text.as_slice());
        cuts.whole = true;
        equal(rt, &(told.out.failed, told.error.bytes.len()), &(0, 0));
    } else {
        holds(rt, !cuts.whole);
        equal(rt, &(told.status, told.out.failed), &(3, 1));
        let error = b"logtm: cannot write standard output\n".as_slice();
        equal_items(rt, &told.error.bytes, error);
    }
    cuts.text.clear();
    cuts.text.extend_from_slice(out).expect(rt, "memory");
}

/// That each put on standard output is refused in turn, until so many are enough. It answers the whole text.
pub(crate) fn check_each_put(
    rt: &(impl Abort + AllocGlobal + Threads + Wait + Sync),
    words: &[&str],
    file: &[u8],
    most: u32,
) -> Vec<u8> {
    let request = request_of(rt.alloc(), words).expect(rt, "a request");
    let mut cuts = Cuts {
        text: Vec::new(rt.alloc()),
        whole: false,
    };
    for left in 0..most {
        let told = carried(rt, &request, file, &[], Sheets::cut(rt.alloc(), left));
        check_cut(rt, &mut cuts, &told);
    }
    holds(rt, cuts.whole);
    let Cuts { text, whole: _ } = cuts;
    text
}

/// A view in a file, and what is told of its run.
#[derive(Clone, Copy)]
pub(crate) struct Viewed {
    /// How many puts the view takes.
    pub(crate) puts: u32,
    pub(crate) view: &'static str,
    /// The status of the run, and its report.
    pub(crate) status: u8,
    pub(crate) report: &'static str,
    /// What is told where the file takes fewer puts.
    pub(crate) unmade: &'static str,
}

/// That a view is whole if the file takes enough puts, and else that it is cut, which is told, and there is no report.
pub(crate) fn check_view_cut(
    rt: &(impl Abort + AllocGlobal + Threads + Wait + Sync),
    request: &Request<'_>,
    file: &[u8],
    left: u32,
    viewed: &Viewed,
) {
    let page = Paper::new(rt.alloc(), left);
    let told = carried(rt, request, file, &[], Sheets::with_page(rt.alloc(), page));
    let view = viewed.view.as_bytes();
    if left >= viewed.puts {
        check_told(rt, &told, viewed.status, viewed.report, "");
        equal_items(rt, &told.page.bytes, view);
        equal(rt, &told.page.failed, &0);
    } else {
        check_told(rt, &told, 3, "", viewed.unmade);
        holds(rt, view.starts_with(&told.page.bytes));
        equal(rt, &told.page.failed, &1);
    }
}

/// The same for each number of puts up to one.
pub(crate) fn check_each_view_put(
    rt: &(impl Abort + AllocGlobal + Threads + Wait + Sync),
    words: &[&str],
    file: &[u8],
    most: u32,
    viewed: &Viewed,
) {
    let request = request_of(rt.alloc(), words).expect(rt, "a request");
    for left in 0..most {
        check_view_cut(rt, &request, file, left, viewed);
    }
}
