ghost use Rattle.std.specs.Prelude.{◌≡◌, ◌<◌, ◌≤◌, ◌+◌, ◌^◌, ℕ, length};
ghost use Rattle.words.specs.Bytes.{bytes_in, byte_of, cut, number_at};
ghost use Rattle.flat.specs.Bytes.{laid};
ghost use Rattle.words.specs.declared.entry.Width.TheVariants.{Word};
ghost use Rattle.loader.specs.Memory.{mem_of};

use table::byte_count;
use words::Width;

/// Byte k of a number, counted from the lowest.
pub fn byte_of_value(value: u32, k: u32) -> u8
    requires { k < 4 }
    ensures { result ≡ byte_of value k }
{
    match k {
        0 => (value % 256) as u8,
        1 => (value / 256 % 256) as u8,
        2 => (value / 65536 % 256) as u8,
        _ => (value / 16777216 % 256) as u8,
    }
}

/// The part of a number that has a width.
pub fn cut_to(width: Width, value: u32) -> u32
    ensures { result ≡ cut width value }
{
    match width {
        Width::Byte => value % 256,
        Width::Half => value % 65536,
        Width::Word => value,
    }
}

/// Writes the low bytes of a number into memory.
pub fn lay(memory: &mut [u8], address: usize, width: Width, value: u32)
    requires { address + bytes_in width ≤ length memory.old }
    ensures { (a : ℕ) → mem_of memory.new a ≡ laid address (bytes_in width) (byte_of value) (mem_of memory.old) a }
{
    for k in 0..byte_count(width) {
        memory[address + k as usize] = byte_of_value(value, k);
    }
}

/// The word of memory at an address.
pub fn word_at(memory: &[u8], address: usize) -> u32
    requires { address + 4 ≤ length memory.now }
    ensures { result ≡ number_at (mem_of memory.now) address Word }
{
    u32::from(memory[address])
        + 256 * u32::from(memory[address + 1])
        + 65536 * u32::from(memory[address + 2])
        + 16777216 * u32::from(memory[address + 3])
}
