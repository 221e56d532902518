//! Numbers as a user writes them, in the words of a command line, of a schedule and of the debugger.
ghost use Rattle.std.specs.Prelude.{◌≡◌, ◌≤◌};
ghost use Rattle.texts.specs.Numbers.{number_in, number_of};

/// The number that a text stands for: decimal digits, or `0x` and hexadecimal digits of either
/// case. `None` for any other text, a sign or a blank included, and from 2^32 on.
pub fn number(text: &str) -> Option<u32>
    ensures { result ≡ number_of text.now }
{
    match text.strip_prefix("0x") {
        Some(digits) => in_base(digits, 16),
        None => in_base(text, 10),
    }
}

fn in_base(digits: &str, base: u32) -> Option<u32>
    requires least { 2 ≤ base }
    requires most { base ≤ 36 }
    ensures { result ≡ number_in base digits.now }
{
    // The parser of the library takes a plus sign.
    if digits.starts_with('+') {
        return None;
    }
    u32::from_str_radix(digits, base).ok()
}
