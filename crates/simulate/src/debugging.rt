//! A program, played by hand: all but reading its file.
ghost use Rattle.std.specs.Prelude.{◌<◌, ◌*◌, ◌^◌, ◌≡◌, MatchResult};
ghost use Rattle.words.specs.Sinks.{IsUntouched};
ghost use Rattle.machine.specs.States.{geometry};
ghost use Rattle.debugger.specs.Debugging.{answers};
ghost use Rattle.simulate.specs.Debugging.{IsPlayedByHand, TellsEnd};
ghost use Rattle.requests.specs.Starts.{IsStartFault};

use command_line::Setup;
use debugger::{ConsoleFault, LineInput, debug};
use requests::begin::boot;
use requests::source::names_in;
use requests::{Fault, put_line};
use std::alloc::Global;
use words::Sink;

/// Boots the program in a file, given the file's bytes, and has a debugger's session answer the lines of an input: what it tells goes into
/// `out`, and before each line the prompt into `error`. It answers the status that the program ends with: 0 where the session has come to its
/// end, and 3 where a line could not be read or a text not be put.
pub(crate) fn play_by_hand<
    'a,
    const SETS: usize,
    const WAYS: usize,
    I: LineInput,
    O: Sink,
    E: Sink,
>(
    alloc: Global,
    setup: &Setup<'_>,
    file: &'a [u8],
    input: &mut I,
    prompt: &str,
    out: &mut O,
    error: &mut E,
) -> Result<u8, Fault<'a>>
    requires sets { 0 < SETS }
    requires ways { 0 < WAYS }
    requires lines { SETS * WAYS < 2 ^ 32 }
    ensures { MatchResult result
        (IsPlayedByHand answers (geometry SETS WAYS) I.gives setup.now file.now prompt.now input.old input.new
        (O.state out.old) (O.state out.new)
        (E.state error.old) (E.state error.new))
        (λ fault. IsStartFault setup.now file.now fault × (input.new ≡ input.old) × IsUntouched (O.state out.old) (O.state out.new)
        × IsUntouched (E.state error.old) (E.state error.new)) }
{
    let names = names_in(alloc, setup.file, file)?;
    let machine = boot::<SETS, WAYS>(alloc, setup, file)?;
    let end = debug(&names, machine, input, prompt, error, out);
    Ok(tell_end(&end, error))
}

/// Tells why a session ended before its end, if it did, and answers the status.
fn tell_end<E: Sink>(end: &Result<(), ConsoleFault>, error: &mut E) -> u8
    ensures { TellsEnd end.now (E.state error.old) (E.state error.new) result }
{
    match end {
        Ok(()) => 0,
        Err(ConsoleFault::Unreadable) => {
            let _ = put_line(error, "cannot read standard input", "");
            3
        }
        Err(ConsoleFault::Unwritten) => Fault::Unwritten.tell(error),
    }
}
