//! How a line of source is cut into its parts.
ghost use Rattle.std.specs.Prelude.{◌≡◌, ◌≤◌, ◌<◌, ◌==◌, length, option_map, position, IfSome};
ghost use Rattle.statements.specs.Cutting as spec;

fn is_blank(byte: u8) -> bool
    ensures { result ≡ spec.is_blank byte }
{
    matches!(byte, b' ' | b'\t')
}

/// The text without the blanks in front.
fn trim_start(text: &[u8]) -> &[u8]
    ensures trimmed { result.now ≡ spec.trim_start text.now }
    ensures short { length result.now ≤ length text.now }
{
    match text {
        [byte, rest @ ..] if is_blank(*byte) => trim_start(rest),
        _ => text,
    }
}

/// The text without the blanks at its end.
fn trim_end(text: &[u8]) -> &[u8]
    ensures trimmed { result.now ≡ spec.trim_end text.now }
    ensures short { length result.now ≤ length text.now }
{
    match text {
        [rest @ .., byte] if is_blank(*byte) => trim_end(rest),
        _ => text,
    }
}

/// The text without the blanks in front and at its end.
pub fn trim(text: &[u8]) -> &[u8]
    ensures trimmed { result.now ≡ spec.trim text.now }
    ensures short { length result.now ≤ length text.now }
{
    trim_end(trim_start(text))
}

fn find_byte(text: &[u8], at: u8) -> Option<usize>
    ensures place { result ≡ position (λ c. c == at) text.now }
    ensures bound { IfSome result (λ i. i < length text.now) }
{
    text.iter().position(|byte| *byte == at)
}

fn find_blank(text: &[u8]) -> Option<usize>
    ensures place { result ≡ position spec.is_blank text.now }
    ensures bound { IfSome result (λ i. i < length text.now) }
{
    text.iter().position(|byte| is_blank(*byte))
}

/// What stands before the first byte of this kind, and what after it, if there is one.
pub fn cut(text: &[u8], at: u8) -> (&[u8], Option<&[u8]>)
    ensures cut { record { front = result.0.now; rest = option_map (λ x. x.now) result.1 } ≡ spec.cut (λ c. c == at) text.now }
    ensures shorter { IfSome result.1 (λ x. length x.now < length text.now) }
    ensures short { length result.0.now ≤ length text.now }
{
    match find_byte(text, at) {
        Some(end) => (&text[..end], Some(&text[end + 1..])),
        None => (text, None),
    }
}

/// The first word of the text, and what stands behind it.
pub fn cut_word(text: &[u8]) -> (&[u8], &[u8])
    ensures cut { (result.0.now, result.1.now) ≡ spec.cut_word text.now }
    ensures short { length result.1.now ≤ length text.now }
{
    match find_blank(text) {
        Some(end) => (&text[..end], trim_start(&text[end + 1..])),
        None => (text, &[]),
    }
}

fn is_name_start(byte: u8) -> bool
    ensures { result ≡ spec.is_name_start byte }
{
    matches!(byte, b'a'..=b'z' | b'A'..=b'Z' | b'_')
}

fn is_name_byte(byte: u8) -> bool
    ensures { result ≡ spec.is_name_byte byte }
{
    is_name_start(byte) || matches!(byte, b'0'..=b'9')
}

fn are_name_bytes(text: &[u8]) -> bool
    ensures { result ≡ spec.are_name_bytes text.now }
{
    match text {
        [first, rest @ ..] => is_name_byte(*first) && are_name_bytes(rest),
        [] => true,
    }
}

/// Whether the text is a letter or `_`, and then letters, digits and `_`.
pub fn is_name(text: &[u8]) -> bool
    ensures { result ≡ spec.is_name text.now }
{
    match text {
        [first, rest @ ..] => is_name_start(*first) && are_name_bytes(rest),
        [] => false,
    }
}

/// What a line of source has.
#[derive(Clone, Copy)]
pub struct Parts<'a> {
    pub label: Option<&'a [u8]>,
    /// Without blanks around it, and empty where the line has none.
    pub statement: &'a [u8],
}

/// The parts of a line: `[NAME:] [statement] [# comment]`.
#[tactic(auto, unfolding(crate::specs::Cutting::parts_of))]
pub fn cut_line(line: &[u8]) -> Parts<'_>
    ensures parts { record { label = option_map (λ x. x.now) result.label; statement = result.statement.now } ≡ spec.parts_of line.now }
    ensures short { length result.statement.now ≤ length line.now }
{
    let (text, _comment) = cut(line, b'#');
    let text = trim_start(text);
    match cut(text, b':') {
        (name, Some(rest)) if is_name(name) => Parts {
            label: Some(name),
            statement: trim(rest),
        },
        _ => Parts {
            label: None,
            statement: trim(text),
        },
    }
}
