//! Lines of a source, as the user is shown them.
ghost use Rattle.std.specs.Prelude.{◌≡◌, option_map};
ghost use Rattle.requests.specs.Quotes as spec;

use arrayvec::ArrayVec;

/// How many bytes of a line are shown.
const LONGEST: usize = 255;

/// The line of a source with a number, from 1.
pub(crate) fn line_numbered(source: &str, number: usize) -> Option<&str>
    ensures { option_map (λ line. line.now) result ≡ spec.line_numbered number source.now }
{
    if number == 0 {
        return None;
    }
    source.split('\n').nth(number - 1)
}

/// A byte as it is shown: no other than a printable character of ASCII or a tab reaches the user's terminal.
fn shown_byte(byte: u8) -> u8
    ensures { result ≡ spec.shown_byte byte }
{
    match byte {
        b'\t' | b' '..=b'~' => byte,
        _ => b'?',
    }
}

/// A line without the CR at its end.
fn without_return(line: &[u8]) -> &[u8]
    ensures { result.now ≡ spec.without_return line.now }
{
    match line {
        [text @ .., b'\r'] => text,
        _ => line,
    }
}

/// A line as it is shown.
pub(crate) fn quoted(line: &str) -> ArrayVec<u8, LONGEST>
    ensures { result.items ≡ spec.quoted line.now }
{
    let text = without_return(line.as_bytes());
    let front = &text[..text.len().min(LONGEST)];
    let mut shown = ArrayVec::new();
    for byte in front {
        shown.push(shown_byte(*byte));
    }
    shown
}
