ghost use Rattle.std.specs.Prelude.{◌≡◌};
ghost use Rattle.debugger.specs.Plays.{EndsWith, Exchanges, Replies, IsPlayed};

use crate::fault::ConsoleFault;
use crate::input::{LineInput, Reading};
use crate::line_answers::{Debugged, answer_line, put_text};
use disassembler::Symbols;
use words::Sink;

/// Answers what was read, and says whether more is wanted.
fn reply<D: Debugged, S: Sink>(
    names: &Symbols<'_>,
    session: &mut D,
    reading: &Reading,
    out: &mut S,
) -> Result<bool, ConsoleFault>
    ensures { Replies names.now (D.answers names.now) reading.now session.old session.new (S.state out.old) (S.state out.new) result }
{
    match reading {
        Reading::Line(line) => answer_line(names, session, line, out),
        Reading::Last(line) => answer_last(names, session, line, out),
        Reading::Failed => Err(ConsoleFault::Unreadable),
    }
}

/// Answers what stands behind the last line feed, if there is anything. No more is wanted.
fn answer_last<D: Debugged, S: Sink>(
    names: &Symbols<'_>,
    session: &mut D,
    line: &[u8],
    out: &mut S,
) -> Result<bool, ConsoleFault>
    ensures { EndsWith names.now (D.answers names.now) line.now session.old session.new (S.state out.old) (S.state out.new) result }
{
    if line.is_empty() {
        return Ok(false);
    }
    match answer_line(names, session, line, out) {
        Ok(_) => Ok(false),
        Err(fault) => Err(fault),
    }
}

/// Asks for a line, reads it and answers it. It says whether more are wanted.
fn exchange<D: Debugged, I: LineInput, P: Sink, S: Sink>(
    names: &Symbols<'_>,
    session: &mut D,
    input: &mut I,
    prompt: &str,
    prompts: &mut P,
    out: &mut S,
) -> Result<bool, ConsoleFault>
    ensures { Exchanges names.now (D.answers names.now) I.gives prompt.now
        (record { session = session.old; input = input.old; told = S.state out.old; asked = P.state prompts.old })
        (record { session = session.new; input = input.new; told = S.state out.new; asked = P.state prompts.new })
        result }
{
    match put_text(prompts, prompt) {
        Ok(()) => {
            let reading = input.read_line();
            reply(names, session, &reading, out)
        }
        Err(_) => Err(ConsoleFault::Unwritten),
    }
}

/// Asks for lines, by a prompt, reads them and has them answered, until no more are wanted or the input has no more. Where a session refuses a command, that is told, and it goes on.
/// It fails where a text can't be put or a line can't be read; and after 2^64 - 1 lines, as if they could not.
pub fn play<D: Debugged, I: LineInput, P: Sink, S: Sink>(
    names: &Symbols<'_>,
    session: &mut D,
    input: &mut I,
    prompt: &str,
    prompts: &mut P,
    out: &mut S,
) -> Result<(), ConsoleFault>
    ensures { IsPlayed names.now (D.answers names.now) I.gives prompt.now
        (record { session = session.old; input = input.old; told = S.state out.old; asked = P.state prompts.old })
        (record { session = session.new; input = input.new; told = S.state out.new; asked = P.state prompts.new })
        result }
{
    for _count in 0..u64::MAX {
        match exchange(names, session, input, prompt, prompts, out) {
            Ok(true) => {}
            Ok(false) => return Ok(()),
            Err(fault) => return Err(fault),
        }
    }
    Err(ConsoleFault::Unreadable)
}
