//! What several lines have in common.
ghost use Rattle.std.specs.Prelude.{◌≡◌, ◌≤◌, ◌*◌, ◌+◌, ◌++◌, length, decimal, IsAscii};
ghost use Rattle.words.specs.Limits.{block_bytes};
ghost use Rattle.words.specs.Harts.{names};
ghost use Rattle.texts.specs.Numerals.{hexadecimal};
ghost use Rattle.render.specs.Parts as spec;

use arrayvec::ArrayString;
use itoa::Buffer;
use texts::{ascii, hexadecimal};
use words::{BLOCK_BYTES, BlockNo, HARTS, HartId, HartSet, LineState, Stamp};

/// A hart's number.
pub fn hart_text(hart: HartId) -> ArrayString<3>
    ensures { result.bytes ≡ decimal hart }
{
    let mut text = ArrayString::new();
    text.push_str(ascii(&hart_digit(hart)));
    text
}

/// The one digit of a hart's number.
pub(crate) fn hart_digit(hart: HartId) -> [u8; 1]
    ensures digit { result ≡ decimal hart }
    ensures ascii { IsAscii result }
{
    [b'0' + hart.index() as u8]
}

/// The digits of the address of a block's first byte.
pub fn first_byte(block: BlockNo) -> [u8; 8]
    ensures digits { result ≡ hexadecimal (block_bytes * block) }
    ensures ascii { IsAscii result }
{
    hexadecimal(block.number().wrapping_mul(BLOCK_BYTES as u32))
}

pub(crate) fn letter(state: LineState) -> &'static str
    ensures text { result.now ≡ spec.letter state }
    ensures short { length result.now ≤ 1 }
{
    match state {
        LineState::Shared => "S",
        LineState::Exclusive => "E",
        LineState::Modified => "M",
    }
}

/// The numbers of a set of harts, with commas between them; a dash for an empty set.
pub(crate) fn harts_text(harts: &HartSet) -> ArrayString<32>
    ensures { result.bytes ≡ spec.harts_text (names harts.now) }
{
    let mut text = ArrayString::new();
    for number in 0..HARTS {
        let hart = HartId::new(number as u8);
        if harts.contains(hart) {
            add(hart, &mut text);
        }
    }
    if text.is_empty() {
        text.push_str("-");
    }
    text
}

/// Adds a hart's number to those in a text.
fn add(hart: HartId, text: &mut ArrayString<32>)
    requires { length text.old.bytes ≤ 28 }
    ensures text { text.new.bytes ≡ spec.with_comma text.old.bytes ++ decimal hart }
    ensures longer { length text.new.bytes ≤ length text.old.bytes + 4 }
{
    if !text.is_empty() {
        text.push_str(",");
    }
    text.push_str(hart_text(hart).as_str());
}

/// When a transaction began: the number of new stamps given before, and its hart; or a dash.
pub fn stamp_text(stamp: Option<Stamp>) -> ArrayString<24>
    ensures { result.bytes ≡ spec.stamp_text stamp }
{
    let mut text = ArrayString::new();
    match stamp {
        Some(stamp) => {
            let mut digits = Buffer::new();
            text.push_str(digits.format(stamp.count));
            text.push_str(".");
            text.push_str(hart_text(stamp.hart).as_str());
        }
        None => text.push_str("-"),
    }
    text
}
