ghost use Rattle.std.specs.Prelude.{◌≡◌, IsAscii};

use std::str;

/// ASCII bytes, as digits, as text.
#[tactic(auto, using(crate::proofs::AsciiText::ascii_text))]
pub fn ascii(bytes: &[u8]) -> &str
    requires { IsAscii bytes.now }
    ensures { result.now ≡ bytes.now }
{
    match str::from_utf8(bytes) {
        Ok(text) => text,
        Err(_) => unreachable!(),
    }
}
