ghost use Rattle.std.specs.Prelude.{◌≡◌, ℕ, List, Option, Result, Bool, MatchOption};
ghost use Rattle.std.specs.Option.{option_map};
ghost use Rattle.words.specs.Sinks.{SinkState};
ghost use Rattle.texts.specs.Puts.{Puts};
ghost use Rattle.debugger.specs.declared.commands.command.Command.{Command as CommandValue};
ghost use Rattle.debugger.specs.declared.commands.fault.DebugFault.{DebugFault as Fault};
ghost use Rattle.disassembler.specs.Tables.{Table};
ghost use Rattle.debugger.specs.Lines.{without_return};
ghost use Rattle.debugger.specs.LineAnswers.{Asks, IsAnswered, Refuses, told_name, refused};

use crate::commands::{Command, DebugFault, command_of};
use crate::fault::ConsoleFault;
use disassembler::Symbols;
use texts::put_all;
use words::{Sink, SinkFault};

/// What answers commands.
pub trait Debugged {
    /// What a command may come to, with these names: the state before it and after it, what the sink had taken before and after, how many puts had failed before
    /// and after, and the answer.
    ghost answers: { Table → Self → CommandValue → Self → SinkState → SinkState → Result Bool Fault → Type 0 };

    /// Carries out a command, and puts what it has to tell. It answers whether more commands are wanted.
    fn command<S: Sink>(
        &mut self,
        names: &Symbols<'_>,
        command: Command,
        sink: &mut S,
    ) -> Result<bool, DebugFault>
        ensures { answers names.now self.old command self.new (S.state sink.old) (S.state sink.new) result };
}

/// A line without the carriage return at its end.
fn without_return(line: &[u8]) -> &[u8]
    ensures { result.now ≡ without_return line.now }
{
    match line {
        [text @ .., b'\r'] => text,
        _ => line,
    }
}

/// The command that a line spells, if it is a text of at most 255 bytes.
fn asked(names: &Symbols<'_>, line: &[u8]) -> Option<Command>
    ensures { Asks names.now line.now result }
{
    let text = without_return(line);
    if text.len() > 255 {
        return None;
    }
    match str::from_utf8(text) {
        Ok(text) => command_of(names, text),
        Err(_) => None,
    }
}

/// The number and the name of a fault that is told, and after which the session goes on.
fn told(fault: DebugFault) -> Option<&'static str>
    ensures { option_map (λ text. text.now) result ≡ told_name fault }
{
    match fault {
        DebugFault::Device => None,
        _ => Some(fault.text()),
    }
}

/// Puts what is told of a refusal.
fn put_refused<S: Sink>(name: &str, out: &mut S) -> Result<(), SinkFault>
    ensures { Puts (S.state out.old) (S.state out.new) (refused name.now) result }
{
    put_all(out, &[b"refused ", name.as_bytes(), b"\n"])
}

/// Puts a text.
pub(crate) fn put_text<S: Sink>(sink: &mut S, text: &str) -> Result<(), SinkFault>
    ensures { Puts (S.state sink.old) (S.state sink.new) text.now result }
{
    sink.put(text.as_bytes())
}

/// Tells a fault, after which more commands are wanted. A put that failed is told by nothing but this function's error.
fn refuse<S: Sink>(fault: DebugFault, out: &mut S) -> Result<bool, ConsoleFault>
    ensures { Refuses (told_name fault) (S.state out.old) (S.state out.new) result }
{
    let Some(name) = told(fault) else {
        return Err(ConsoleFault::Unwritten);
    };
    match put_refused(name, out) {
        Ok(()) => Ok(true),
        Err(_) => Err(ConsoleFault::Unwritten),
    }
}

/// Answers a line, and says whether more are wanted.
pub(crate) fn answer_line<D: Debugged, S: Sink>(
    names: &Symbols<'_>,
    session: &mut D,
    line: &[u8],
    out: &mut S,
) -> Result<bool, ConsoleFault>
    ensures { IsAnswered names.now (D.answers names.now) line.now session.old session.new (S.state out.old) (S.state out.new) result }
{
    let Some(command) = asked(names, line) else {
        return refuse(DebugFault::Unknown, out);
    };
    match session.command(names, command, out) {
        Ok(goes_on) => Ok(goes_on),
        Err(fault) => refuse(fault, out),
    }
}
