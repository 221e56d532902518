//! The strings in which names stand.
ghost use Rattle.std.specs.Prelude.{◌≡◌, ◌≤◌, ◌==◌, length, take, drop, position};
ghost use Rattle.std.specs.List.{position_or_len};
ghost use Rattle.std.specs.Str.{bytes_eq};
ghost use Rattle.disassembler.specs.Names.{string_at};

/// The strings from a place on.
fn strings_from(strings: &[u8], at: u32) -> &[u8]
    ensures { result.now ≡ drop at strings.now }
{
    &strings[strings.len().min(at as usize)..]
}

/// Where the first 0 stands.
fn place_of_zero(text: &[u8]) -> Option<usize>
    ensures { result ≡ position (λ c. c == 0) text.now }
{
    text.iter().position(|byte| *byte == 0)
}

/// How long the string is with which a text begins.
fn string_len(text: &[u8]) -> usize
    ensures { result ≡ position_or_len (λ c. c == 0) text.now }
{
    match place_of_zero(text) {
        Some(place) => place,
        None => text.len(),
    }
}

/// At most so many bytes of a text.
fn cut(text: &[u8], most: usize) -> &[u8]
    ensures text { result.now ≡ take most text.now }
    ensures short { length result.now ≤ most }
{
    if text.len() <= most {
        text
    } else {
        &text[..most]
    }
}

/// At most so many bytes of the string at a place. No more of it is looked at.
pub(crate) fn front_of(strings: &[u8], at: u32, most: usize) -> &[u8]
    ensures text { result.now ≡ take most (string_at strings.now at) }
    ensures short { length result.now ≤ most }
{
    let front = cut(strings_from(strings, at), most);
    &front[..string_len(front)]
}

/// Whether the string at a place is this one.
pub(crate) fn is_string(strings: &[u8], at: u32, text: &[u8]) -> bool
    ensures { result ≡ bytes_eq (string_at strings.now at) text.now }
{
    front_of(strings, at, text.len() + 1) == text
}
