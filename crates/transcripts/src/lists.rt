use crate::answers::{Telling, answered};
use simulate::Steady;
use std::rt::Files;
use std::sync::Wait;
use std::thread::Threads;
use std::{fs, io};

/// What a line of a list is.
enum Line<'a> {
    /// A comment, which begins with `#`, or nothing.
    Comment,
    /// The name of a file that is made, a colon behind it.
    File(&'a str),
    /// A line of that file, four blanks before it.
    Content(&'a str),
    /// A command.
    Command,
}

fn read(line: &str) -> Line<'_> {
    if line.is_empty() || line.starts_with('#') {
        return Line::Comment;
    }
    if let Some(content) = line.strip_prefix("    ") {
        return Line::Content(content);
    }
    match line.strip_suffix(":") {
        Some(path) => Line::File(path),
        None => Line::Command,
    }
}

/// A file that a list makes.
#[derive(Drop)]
struct Made<'a> {
    path: &'a str,
    text: String,
}

/// Plays a list of commands, a line each, among comments and files that they read. Each line is shown, a command behind `$ `, and behind it what
/// it prints and its status in brackets.
pub(crate) fn play<R: Files + Threads + Wait + Sync + AllocGlobal + Print>(
    rt: &R,
    list: &str,
    telling: Telling,
) -> io::Result<()>
where
    R::File: Steady,
{
    let text = fs::read_to_string(rt, list)?;
    let mut made = Made {
        path: "",
        text: String::new(rt.alloc()),
    };
    for line in text.as_str().lines() {
        play_line(rt, line, &mut made, telling)?;
    }
    Ok(())
}

fn play_line<'a, R: Files + Threads + Wait + Sync + AllocGlobal + Print>(
    rt: &R,
    line: &'a str,
    made: &mut Made<'a>,
    telling: Telling,
) -> io::Result<()>
where
    R::File: Steady,
{
    match read(line) {
        Line::Comment => println!(rt; "{line}"),
        Line::File(path) => {
            println!(rt; "{line}")?;
            made.path = path;
            made.text.clear();
            write(rt, made)
        }
        Line::Content(content) => {
            println!(rt; "{line}")?;
            made.text.push_str(content)?;
            made.text.push('\n')?;
            write(rt, made)
        }
        Line::Command => {
            println!(rt; "$ {line}")?;
            let status = answered(rt, line, telling)?;
            println!(rt; "[{status}]")
        }
    }
}

/// Writes a file as far as it was listed.
fn write<R: Files + AllocGlobal>(rt: &R, made: &Made<'_>) -> io::Result<()> {
    fs::write(rt, made.path, made.text.as_str())
}
