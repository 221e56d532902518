//! Lines that are typed, with what the user is told and how often they are asked for.
use crate::tests::claims::{equal, equal_items};
use debugger::commands::{Command, DebugFault};
use debugger::{ConsoleFault, Debugged, Typed, play};
use disassembler::Symbols;
use std::alloc::Global;
use std::io;
use std::io::{ErrorKind, Read};
use std::process::Abort;
use words::{Sink, SinkFault, Taken};

/// A session that tells each step that it is asked for, and knows no hart.
#[derive(Drop)]
struct Steps;

impl Debugged for Steps {
    ghost use Rattle.std.specs.Prelude.{⊤};

    ghost answers = { λ _ _ _ _ _ _ _. ⊤ };

    fn command<S: Sink>(
        &mut self,
        _names: &Symbols<'_>,
        command: Command,
        sink: &mut S,
    ) -> Result<bool, DebugFault> {
        match command {
            Command::Step => {
                sink.put(b"stepped\n")?;
                Ok(true)
            }
            Command::Core(_) => Err(DebugFault::NoHart),
            Command::Quit => Ok(false),
            _ => Ok(true),
        }
    }
}

/// A sink that takes nothing.
#[derive(Drop)]
struct Closed {
    failed: u64,
}

impl Sink for Closed {
    ghost use Rattle.std.specs.Prelude.{None};

    ghost state = { λ c. record { taken = None; failed = c.failed } };

    fn put(&mut self, _bytes: &[u8]) -> Result<(), SinkFault> {
        self.failed = self.failed.saturating_add(1);
        Err(SinkFault)
    }
}

/// A reader that gives one line and then fails.
#[derive(Drop)]
struct Torn {
    given: usize,
}

impl Read for Torn {
    fn read(&mut self, buf: &mut [u8]) -> io::Result<usize> {
        let line = b"step\n";
        if self.given >= line.len() || buf.is_empty() {
            return Err(io::Error::from(ErrorKind::BrokenPipe));
        }
        buf[0] = line[self.given];
        self.given += 1;
        Ok(1)
    }
}

fn taken(alloc: Global) -> Taken {
    Taken {
        bytes: Vec::new(alloc),
        failed: 0,
    }
}

// That these bytes are asked for so often, by one letter, and that this is told.
fn check(rt: &(impl Abort + AllocGlobal), typed: &[u8], asked: &[u8], told: &str) {
    let mut input = Typed {
        bytes: typed.bytes(),
        failed: 0,
    };
    let mut prompts = taken(rt.alloc());
    let mut out = taken(rt.alloc());
    let end = play(
        &Symbols::none(rt.alloc()),
        &mut Steps,
        &mut input,
        "?",
        &mut prompts,
        &mut out,
    );
    equal(rt, &end, &Ok(()));
    equal_items(rt, &prompts.bytes, asked);
    equal_items(rt, &out.bytes, told.as_bytes());
}

#[test]
fn lines_are_answered_in_order(rt: HostRuntime) {
    check(
        &rt,
        b"step\ncore 9\n# step\n\nstep 1\nquit\nstep\n",
        b"??????",
        "stepped\nrefused 2 NoHart\nrefused 1 Unknown\nrefused 1 Unknown\n",
    );
    check(&rt, b"step\n", b"??", "stepped\n");
    check(&rt, b"step\r\nstep", b"??", "stepped\nstepped\n");
    check(&rt, b"", b"?", "");
    check(&rt, b"quit", b"?", "");
    check(&rt, b"step\r\r\n", b"??", "refused 1 Unknown\n");
    // A line is a text of 255 bytes at most.
    let refused = "refused 1 Unknown\n";
    check(&rt, b"#\xff\n", b"??", refused);
    check(&rt, b"#\xc3\xa4\n", b"??", "");
    let mut longest = [b'#'; 256];
    longest[255] = b'\n';
    check(&rt, &longest, b"??", "");
    let mut long = [b'#'; 257];
    long[256] = b'\n';
    check(&rt, &long, b"??", refused);
    long[255] = b'\r';
    check(&rt, &long, b"??", "");
    let mut longer = [b'#'; 258];
    longer[257] = b'\n';
    check(&rt, &longer, b"??", refused);
    longer[255] = b'\r';
    check(&rt, &longer, b"??", refused);
    let mut very_long = [b'#'; 300];
    very_long[299] = b'\n';
    check(&rt, &very_long, b"??", refused);
}

/// That a session ends where its answer to this line cannot be put.
fn check_unwritten(rt: &(impl Abort + AllocGlobal), typed: &str, closed: &mut Closed) {
    let mut input = Typed {
        bytes: typed.as_bytes().bytes(),
        failed: 0,
    };
    let end = play(
        &Symbols::none(rt.alloc()),
        &mut Steps,
        &mut input,
        "",
        &mut taken(rt.alloc()),
        closed,
    );
    equal(rt, &end, &Err(ConsoleFault::Unwritten));
}

#[test]
fn an_answer_that_cannot_be_put_ends_it(rt: HostRuntime) {
    let mut closed = Closed { failed: 0 };
    for typed in ["step\n", "core 0\n", "?\n"] {
        check_unwritten(&rt, typed, &mut closed);
    }
}

/// That a session ends where its input fails, once it told of the step that was typed.
fn check_unreadable(rt: &(impl Abort + AllocGlobal), out: &mut Taken) {
    let mut input = Typed {
        bytes: Torn { given: 0 }.bytes(),
        failed: 0,
    };
    let end = play(
        &Symbols::none(rt.alloc()),
        &mut Steps,
        &mut input,
        "",
        &mut taken(rt.alloc()),
        out,
    );
    equal(rt, &end, &Err(ConsoleFault::Unreadable));
    equal_items(rt, &out.bytes, b"stepped\n");
}

#[test]
fn what_cannot_be_read_ends_it(rt: HostRuntime) {
    check_unreadable(&rt, &mut taken(rt.alloc()));
}

/// That a session whose prompt cannot be put ends before its first line, and tells nothing more.
fn check_unprompted(rt: &(impl Abort + AllocGlobal), closed: &mut Closed, out: &mut Taken) {
    let mut input = Typed {
        bytes: b"step\n".as_slice().bytes(),
        failed: 0,
    };
    let end = play(
        &Symbols::none(rt.alloc()),
        &mut Steps,
        &mut input,
        "?",
        closed,
        out,
    );
    equal(rt, &end, &Err(ConsoleFault::Unwritten));
    equal_items(rt, &out.bytes, b"stepped\n");
}

#[test]
fn a_prompt_that_cannot_be_put_ends_it(rt: HostRuntime) {
    let mut closed = Closed { failed: 0 };
    check_unwritten(&rt, "step\n", &mut closed);
    let mut out = taken(rt.alloc());
    check_unreadable(&rt, &mut out);
    check_unprompted(&rt, &mut closed, &mut out);
}
