use crate::echo::Echoed;
use debugger::{LineInput, Typed};
use machine::Silent;
use simulate::{HostFiles, Outlet, Steady, answer};
use std::io::Read;
use std::rt::Files;
use std::sync::Wait;
use std::thread::Threads;
use std::{fs, io, str};
use words::{Counted, Sink, Taken};

/// Where what a command tells on standard error is shown.
#[derive(Clone, Copy)]
pub(crate) enum Telling {
    /// Where it comes, as on a terminal.
    AtOnce,
    /// Behind what it prints on standard output, each line behind `! `. And each line that it reads is shown behind `> `.
    Apart,
}

/// Answers a command whose words are parted by one space, and gives its status. Behind ` < ` stands the file that it reads from. `cat FILE` shows
/// a file.
pub(crate) fn answered<R: Files + Threads + Wait + Sync + AllocGlobal + Print>(
    rt: &R,
    command: &str,
    telling: Telling,
) -> io::Result<u8>
where
    R::File: Steady,
{
    if let Some(path) = command.strip_prefix("cat ") {
        return show_file(rt, path);
    }
    let (command, typed) = match command.split_once(" < ") {
        Some((command, path)) => (command, fs::read(rt, path)?),
        None => (command, Vec::new(rt.alloc())),
    };
    match telling {
        Telling::AtOnce => answered_at_once(rt, command, &typed),
        Telling::Apart => answered_apart(rt, command, &typed),
    }
}

fn show_file<R: Files + AllocGlobal + Print>(rt: &R, path: &str) -> io::Result<u8> {
    let text = fs::read_to_string(rt, path)?;
    print!(rt; "{text}")?;
    Ok(0)
}

fn answered_at_once<R: Files + Threads + Wait + Sync + AllocGlobal + Print>(
    rt: &R,
    command: &str,
    typed: &[u8],
) -> io::Result<u8>
where
    R::File: Steady,
{
    let mut input = Typed {
        bytes: typed.bytes(),
        failed: 0,
    };
    let mut error = Counted {
        writer: io::writer(rt),
        failed: 0,
    };
    let status = status_of(rt, command, &mut input, &mut error);
    let Counted {
        writer: _,
        failed: _,
    } = error;
    status
}

fn answered_apart<R: Files + Threads + Wait + Sync + AllocGlobal + Print>(
    rt: &R,
    command: &str,
    typed: &[u8],
) -> io::Result<u8>
where
    R::File: Steady,
{
    let mut error = Taken {
        bytes: Vec::new(rt.alloc()),
        failed: 0,
    };
    let status = answered_aloud(rt, command, typed, &mut error)?;
    show_told(rt, &error.bytes)?;
    Ok(status)
}

/// The status of a command, each line that it reads shown.
fn answered_aloud<R: Files + Threads + Wait + Sync + AllocGlobal + Print, E: Sink>(
    rt: &R,
    command: &str,
    typed: &[u8],
    error: &mut E,
) -> io::Result<u8>
where
    R::File: Steady,
{
    let mut input = Echoed {
        input: Typed {
            bytes: typed.bytes(),
            failed: 0,
        },
        sink: Counted {
            writer: io::writer(rt),
            failed: 0,
        },
    };
    let status = status_of(rt, command, &mut input, error);
    let Echoed {
        input: _,
        sink: Counted {
            writer: _,
            failed: _,
        },
    } = input;
    status
}

/// Shows each line of what was told.
fn show_told<R: AllocGlobal + Print>(rt: &R, told: &[u8]) -> io::Result<()> {
    let Ok(text) = str::from_utf8(told) else {
        return Err(io::Error::from(io::ErrorKind::InvalidData));
    };
    for line in text.lines() {
        println!(rt; "! {line}")?;
    }
    Ok(())
}

/// The status of a command on an input. What it prints goes to standard output.
fn status_of<R: Files + Threads + Wait + Sync + AllocGlobal + Print, I: LineInput, E: Sink>(
    rt: &R,
    command: &str,
    input: &mut I,
    error: &mut E,
) -> io::Result<u8>
where
    R::File: Steady,
{
    let words = command.split(' ').collect::<Vec<&str>>(rt.alloc())?;
    let mut out = Outlet::new(rt.alloc(), io::writer(rt))?;
    Ok(answer(
        rt,
        rt.alloc(),
        &words,
        &mut HostFiles { host: rt },
        input,
        "",
        &mut Silent,
        &mut out,
        error,
    ))
}
