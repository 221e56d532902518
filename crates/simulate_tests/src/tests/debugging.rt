//! Programs that are played by hand, with a file, an input or an output that fails.
use super::calls::{Sheets, file_of, input_of, played, request_of};
use super::checks::check_told;
use super::paper::Paper;
use crate::tests::claims::{equal, holds};
use command_line::Request;
use reference::COMMITS;
use std::process::Abort;
use std::sync::Wait;
use std::test::Fail;
use std::thread::Threads;

static WORDS: [&str; 5] = ["logtm", "debug", "f", "--memory", "65536"];

const TYPED: &[u8] = b"step\ncore 0\nregs 1\nstep\nquit\nstep\n";

const TOLD: &str = "0 0x00001000 00000a0b tbegin 20\n\
    0 0x00001004 000022b7 lui t0, 0x2 | t0=0x00002000\n\
    refused 2 NoHart\n\
    0 0x00001008 00700313 addi t1, zero, 7 | t1=0x00000007\n";

const UNREAD: &str = "logtm: cannot read standard input\n";

const UNWRITTEN: &str = "logtm: cannot write standard output\n";

/// That a session, with so many puts of each kind, is whole or ends since a put failed; the status is its own.
fn check_cut(
    rt: &(impl Abort + AllocGlobal + Threads + Wait + Sync),
    request: &Request<'_>,
    file: &[u8],
    puts: u32,
    prompts: u32,
) -> u8 {
    let mut input = input_of(TYPED, false);
    let mut sheets = Sheets::cut(rt.alloc(), puts);
    sheets.error = Paper::new(rt.alloc(), prompts);
    let told = played(rt, request, file, &mut input, "? ", sheets);
    holds(rt, TOLD.as_bytes().starts_with(&told.out.bytes));
    if told.status == 0 {
        check_told(rt, &told, 0, TOLD, "? ? ? ? ? ");
        equal(rt, &(told.out.failed, told.error.failed), &(0, 0));
    } else {
        equal(rt, &told.status, &3);
        holds(rt, told.out.failed > 0 || told.error.failed > 0);
    }
    told.status
}

#[test]
fn each_put_of_a_session_is_refused(rt: HostRuntime) -> Result<(), Fail> {
    let file = file_of(rt.alloc(), &COMMITS)?;
    let request = request_of(rt.alloc(), WORDS.as_slice()).expect(&rt, "a request");
    let mut whole = false;
    for puts in 0..60 {
        let status = check_cut(&rt, &request, &file, puts, 100);
        // Once the puts are enough, more of them are too.
        holds(&rt, !whole || status == 0);
        whole = status == 0;
    }
    holds(&rt, whole);
    for prompts in 0..5 {
        equal(&rt, &check_cut(&rt, &request, &file, 100, prompts), &3);
    }
    equal(&rt, &check_cut(&rt, &request, &file, 100, 5), &0);
    Ok(())
}

/// That a session without prompts ends with status 3 and these texts, where the input ends or fails, and so many puts are taken.
fn check_end(
    rt: &(impl Abort + AllocGlobal + Threads + Wait + Sync),
    typed: &[u8],
    fails: bool,
    puts: u32,
    out: &str,
    error: &str,
) {
    let file = file_of(rt.alloc(), &COMMITS).expect(rt, "memory");
    let request = request_of(rt.alloc(), WORDS.as_slice()).expect(rt, "a request");
    let mut input = input_of(typed, fails);
    let sheets = Sheets::cut(rt.alloc(), puts);
    let told = played(rt, &request, &file, &mut input, "", sheets);
    check_told(rt, &told, 3, out, error);
}

#[test]
fn what_ended_a_session_is_told(rt: HostRuntime) {
    let stepped = "0 0x00001000 00000a0b tbegin 20\n";
    let cases: [(&[u8], bool, u32, &str, &str); 4] = [
        // The input fails where a line could go on, and where one could begin.
        (b"step\nste", true, 1000, stepped, UNREAD),
        (b"step\n", true, 1000, stepped, UNREAD),
        (b"", true, 1000, "", UNREAD),
        // The first put, which is that of a line, fails behind half of it.
        (TYPED, false, 0, "0 0x00001000 000", UNWRITTEN),
    ];
    for (typed, fails, puts, out, error) in cases {
        check_end(&rt, typed, fails, puts, out, error);
    }
}

/// That a program is refused, and no line of the input is read.
fn check_refused(
    rt: &(impl Abort + AllocGlobal + Threads + Wait + Sync),
    words: &[&str],
    file: &[u8],
    text: &str,
) {
    let request = request_of(rt.alloc(), words).expect(rt, "a request");
    let mut input = input_of(TYPED, false);
    let sheets = Sheets::endless(rt.alloc());
    let told = played(rt, &request, file, &mut input, "? ", sheets);
    check_told(rt, &told, 4, "", text);
    let first = input.bytes.next().expect(rt, "a byte");
    equal(rt, &first.ok(), &Some(b's'));
}

#[test]
fn a_refused_program_has_no_session(rt: HostRuntime) -> Result<(), Fail> {
    let file = file_of(rt.alloc(), &COMMITS)?;
    let source = b"li a0, 1\nfoo a0\n".as_slice();
    let unknown = "logtm: line 2: 1 Unknown\nfoo a0\n";
    let cut = file.get(..40).expect(&rt, "the file has 116 bytes");
    check_refused(&rt, &WORDS, cut, "logtm: load 1 Truncated\n");
    check_refused(&rt, &["logtm", "debug", "f.s"], source, unknown);
    let words = ["logtm", "debug", "f", "--harts", "9"];
    check_refused(&rt, &words, &file, "logtm: boot 2 BadHarts\n");
    Ok(())
}
