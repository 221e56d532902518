//! The program `logtm`: it answers its command line.
#![tactic(auto)]

use debugger::{LineInput, Typed};
use simulate::{Fault, HostFiles, Live, Meter, Outlet, Steady, answer};
use std::env;
use std::io::{ErrorKind, IsTerminal, Lock, Read};
use std::process::ExitCode;
use std::rt::{Env, Files};
use std::sync::Wait;
use std::thread::Threads;
use words::{Counted, Sink};

fn main(rt: HostRuntime) -> ExitCode {
    let mut error = Counted {
        writer: rt.stderr(),
        failed: 0,
    };
    let prompt = if rt.stdin().is_terminal() {
        "(logtm) "
    } else {
        ""
    };
    let mut input = Typed {
        bytes: rt.stdin().lock().bytes(),
        failed: 0,
    };
    let line = Counted {
        writer: rt.stderr(),
        failed: 0,
    };
    let mut meter = Meter::new(&rt, line, rt.stderr().is_terminal());
    let status = answer_all(&rt, &mut input, prompt, &mut meter, rt.stdout(), &mut error);
    let Counted {
        writer: _,
        failed: _,
    } = meter.into_sink();
    let Counted {
        writer: _,
        failed: _,
    } = error;
    ExitCode::from(status)
}

/// Answers the command line, and gives the status that the program ends with.
fn answer_all<
    R: Env + Files + Threads + Wait + Sync + AllocGlobal,
    I: LineInput,
    P: Live,
    W: Steady + Drop,
    E: Sink,
>(rt: &R, input: &mut I, prompt: &str, progress: &mut P, out: W, error: &mut E) -> u8
where
    R::File: Steady,
{
    let arguments = match arguments(rt) {
        Ok(arguments) => arguments,
        Err(fault) => return fault.tell(error),
    };
    let words = arguments.iter().map(|argument| argument.as_str());
    let (Ok(words), Ok(mut out)) = (
        words.collect::<Vec<&str>>(rt.alloc()),
        Outlet::new(rt.alloc(), out),
    ) else {
        return Fault::NoMemory.tell(error);
    };
    let mut store = HostFiles { host: rt };
    answer(
        rt,
        rt.alloc(),
        &words,
        &mut store,
        input,
        prompt,
        progress,
        &mut out,
        error,
    )
}

/// The words of the command line, the program's name first.
fn arguments<'a, R: Env + AllocGlobal>(rt: &R) -> Result<Vec<String>, Fault<'a>> {
    match env::args(rt) {
        Ok(arguments) => Ok(arguments.collect(rt.alloc())?),
        Err(error) if error.kind() == ErrorKind::OutOfMemory => Err(Fault::NoMemory),
        Err(_) => Err(Fault::NotText),
    }
}
