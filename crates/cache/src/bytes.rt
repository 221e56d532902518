ghost use Rattle.std.specs.Prelude.{◌≡◌, ◌<◌, ◌+◌, ◌≤◌, ◌%◌};
ghost use Rattle.words.specs.Bytes.{bytes_in};
ghost use Rattle.cache.specs.Bytes.{word_with};

use words::Width;

/// The word in which an access's bytes, from the byte `place` on, are the low bytes of `value`.
#[inline(always)]
pub fn with_bytes(word: u32, place: usize, width: Width, value: u32) -> u32
    requires { place + bytes_in width ≤ 4 }
    ensures { result ≡ word_with word place (bytes_in width) value }
{
    match width {
        Width::Byte => with_byte(word, place, value),
        Width::Half => with_half(word, place, value),
        Width::Word => value,
    }
}

#[inline(always)]
fn with_byte(word: u32, place: usize, value: u32) -> u32
    requires { place < 4 }
    ensures { result ≡ word_with word place 1 value }
{
    let mut bytes = word.to_le_bytes();
    let [first, ..] = value.to_le_bytes();
    bytes[place] = first;
    u32::from_le_bytes(bytes)
}

#[inline(always)]
fn with_half(word: u32, place: usize, value: u32) -> u32
    requires { place < 3 }
    ensures { result ≡ word_with word place 2 value }
{
    let mut bytes = word.to_le_bytes();
    let [first, second, ..] = value.to_le_bytes();
    bytes[place] = first;
    bytes[place + 1] = second;
    u32::from_le_bytes(bytes)
}
