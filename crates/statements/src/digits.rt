//! Numbers as source spells them.
ghost use Rattle.std.specs.Prelude.{ℕ, ◌≡◌, ◌≤◌, ◌^◌, min, option_map};
ghost use Rattle.std.specs.Char.{digit_value};
ghost use Rattle.statements.specs.Numbers as spec;

use crate::number::{FAR, Number};

/// The value of a digit or a letter, 10 for `a` and `A`, and 36 for other bytes.
fn digit_value(byte: u8) -> u64
    ensures { result ≡ digit_value byte }
{
    let value = match byte {
        b'0'..=b'9' => byte - b'0',
        b'A'..=b'Z' => byte - b'A' + 10,
        b'a'..=b'z' => byte - b'a' + 10,
        _ => 36,
    };
    u64::from(value)
}

/// The number that digits spell behind the number so far.
#[tactic(auto, using(crate::proofs::Far::capped_step))]
fn digits_after(base: u64, so_far: u64, digits: &[u8]) -> Option<u64>
    requires least { 1 ≤ base }
    requires most { base ≤ 16 }
    requires near { so_far ≤ 2 ^ 40 }
    ensures { (n : ℕ) → so_far ≡ min n (2 ^ 40) → result ≡ option_map (λ v. min v (2 ^ 40)) (spec.digits_after base n digits.now) }
{
    match digits {
        [] => Some(so_far),
        [first, rest @ ..] => {
            let digit = digit_value(*first);
            if digit >= base {
                return None;
            }
            digits_after(base, (so_far * base + digit).min(FAR), rest)
        }
    }
}

/// The number that the digits spell, if there is one.
fn digits_in(base: u64, digits: &[u8]) -> Option<u64>
    requires least { 1 ≤ base }
    requires most { base ≤ 16 }
    ensures { result ≡ option_map (λ v. min v (2 ^ 40)) (spec.digits_in base digits.now) }
{
    if digits.is_empty() {
        return None;
    }
    digits_after(base, 0, digits)
}

#[tactic(auto, unfolding(crate::specs::Numbers::magnitude_of))]
fn magnitude(text: &[u8]) -> Option<u64>
    ensures { result ≡ option_map (λ v. min v (2 ^ 40)) (spec.magnitude_of text.now) }
{
    match text {
        [b'0', b'x', digits @ ..] => digits_in(16, digits),
        _ => digits_in(10, text),
    }
}

/// The number that the text is: decimal, or hexadecimal behind `0x`, with a minus sign in front of a negative one.
#[tactic(auto, using(crate::proofs::Far::capped_once), unfolding(crate::specs::Numbers::number_of))]
pub(crate) fn read_number(text: &[u8]) -> Option<Number>
    ensures { result ≡ spec.number_of text.now }
{
    match text {
        [b'-', rest @ ..] => Some(Number::new(true, magnitude(rest)?)),
        _ => Some(Number::new(false, magnitude(text)?)),
    }
}
