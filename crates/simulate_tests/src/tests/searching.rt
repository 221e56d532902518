//! Searches of all ends whose texts are cut, and a run to each end. (The transcripts have more searches; how many states there are is what an enumeration
//! written apart gives.)
use super::calls::{Sheets, file_of};
use super::checks::{check, check_each_put};
use super::paper::Paper;
use super::running::PRINTS;
use crate::tests::claims::{equal, equal_items};
use std::test::Fail;

/// Store buffering: each hart stores to a word, and exits with what it loads of the other's.
pub(crate) const BUFFERING: &str = "        lui     t0, 2
        li      t1, 1
        bnez    a0, second
        lw      t2, 0x40(t0)
        sw      t1, 0(t0)
        lw      a0, 0x40(t0)
        li      a7, 93
        ecall
second: lw      t2, 0(t0)
        sw      t1, 0x40(t0)
        lw      a0, 0(t0)
        li      a7, 93
        ecall
";

/// Its outcomes.
const BUFFERED: &str = "outcome 1
hart 0: exit 0
hart 1: exit 1
outcome 2
hart 0: exit 1
hart 1: exit 0
outcome 3
hart 0: exit 1
hart 1: exit 1
3 outcomes of 111 states
";

/// The outcome of the program that prints, on two harts.
pub(crate) const PRINTED: &str = "outcome 1
hart 0 output 2 bytes
H

hart 0: exit 0
hart 1 output 2 bytes
H

hart 1: exit 0
word 0x00001000 = 0x00100893
1 outcomes of 44 states
";

#[test]
fn a_failed_put_cuts_the_outcomes(rt: HostRuntime) -> Result<(), Fail> {
    let file = file_of(rt.alloc(), &PRINTS)?;
    let words = ["logtm", "outcomes", "f", "--harts=2", "0x1000"];
    let text = check_each_put(&rt, &words, &file, 100);
    equal_items(&rt, &text, PRINTED.as_bytes());
    Ok(())
}

/// The words of a search of store buffering with a run to an outcome.
fn witness_of<'a>(outcome: &'a str) -> [&'a str; 7] {
    [
        "logtm",
        "outcomes",
        "f.s",
        "--harts=2",
        "--witness",
        outcome,
        "w",
    ]
}

#[test]
fn a_run_to_each_outcome(rt: HostRuntime) {
    // Each hart retires eight words, of which its load and its exit are the last two.
    for outcome in ["1", "2", "3"] {
        let words = witness_of(outcome);
        let sheets = Sheets::endless(rt.alloc());
        let told = check(&rt, &words, BUFFERING.as_bytes(), sheets, 0, BUFFERED, "");
        let lines = told
            .page
            .bytes
            .iter()
            .filter(|byte| **byte == b'\n')
            .count();
        equal(&rt, &lines, &16);
    }
}

#[test]
fn a_run_that_cannot_be_written(rt: HostRuntime) {
    let words = witness_of("2");
    for page in [
        Paper::stuck(rt.alloc()),
        Paper::new(rt.alloc(), 0),
        Paper::new(rt.alloc(), 3),
    ] {
        let sheets = Sheets::with_page(rt.alloc(), page);
        let error = "logtm: cannot write w\n";
        check(&rt, &words, BUFFERING.as_bytes(), sheets, 3, "", error);
    }
}
