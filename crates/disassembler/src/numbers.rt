ghost use Rattle.std.specs.Prelude.{◌≡◌, ◌≤◌, ◌+◌, ◌++◌, length};
ghost use Rattle.disassembler.specs.Canonical.{trimmed, signed};

use itoa::Buffer;
use texts::Line;

/// Adds a number of 32 bits in two's complement, as a decimal.
#[inline(always)]
pub(crate) fn add_signed<const CAP: usize>(n: u32, line: &mut Line<CAP>)
    requires { length line.old + 11 ≤ CAP }
    ensures text { line.new ≡ line.old ++ signed n }
    ensures longer { length line.new ≤ length line.old + 11 }
{
    if n < 100 {
        line.put_small(n);
    } else if n > u32::MAX - 99 {
        line.put("-");
        line.put_small(u32::MAX - n + 1);
    } else {
        add_large(n, line);
    }
}

/// Adds such a number, of any size.
#[inline(never)]
#[tactic(auto, unfolding(crate::specs::Canonical::signed))]
fn add_large<const CAP: usize>(n: u32, line: &mut Line<CAP>)
    requires { length line.old + 11 ≤ CAP }
    ensures text { line.new ≡ line.old ++ signed n }
    ensures longer { length line.new ≤ length line.old + 11 }
{
    let mut digits = Buffer::new();
    line.put(digits.format(n.cast_signed()));
}

/// The digits without the zeros in front; a last zero stays.
pub(crate) fn trimmed(digits: &[u8]) -> &[u8]
    ensures text { result.now ≡ trimmed digits.now }
    ensures short { length result.now ≤ length digits.now }
{
    match digits {
        [b'0', rest @ ..] if !rest.is_empty() => trimmed(rest),
        _ => digits,
    }
}
