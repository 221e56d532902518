ghost use Rattle.std.specs.Prelude.{◌≡◌, length, IsAscii};
ghost use Rattle.texts.specs.Numerals.{hexadecimal};

use std::simd::{u8x4, u8x16, u32x1};

const DIGITS: [u8; 16] = *b"0123456789abcdef";

/// Writes the eight digits of a word: all are looked up at once.
#[inline(always)]
pub(crate) fn write_word(n: u32, to: &mut [u8])
    requires { length to.old ≡ 8 }
    ensures { to.new ≡ hexadecimal n }
{
    let bytes: u8x4 = u32x1::splat(n).to_le_bytes();
    let high = bytes >> u8x4::splat(4);
    let low = bytes & u8x4::splat(15);
    // From the last byte to the first, the two of each. Only the first eight places are used.
    let places: u8x16 = high.shuffle(low, [3, 7, 2, 6, 1, 5, 0, 4, 0, 0, 0, 0, 0, 0, 0, 0]);
    let digits = u8x16::from_array(DIGITS).swizzle_dyn(places);
    digits.extract::<0, 8>().copy_to_slice(to);
}

/// The eight hexadecimal digits of a word, in lower case.
pub fn hexadecimal(n: u32) -> [u8; 8]
    ensures digits { result ≡ hexadecimal n }
    ensures ascii { IsAscii result }
{
    let mut digits = [0; 8];
    write_word(n, &mut digits);
    digits
}
