//! An entry of a symbol table.
ghost use Rattle.std.specs.Prelude.{◌≡◌, ◌+◌, ◌≤◌, length};
ghost use Rattle.disassembler.specs.Tables.{entry_at, may_be_code, has_name};

use crate::fields::{u16_at, u32_at};

/// How many bytes an entry has.
pub(crate) const ENTRY_BYTES: usize = 16;

/// STT_NOTYPE
const NO_TYPE: u8 = 0;

/// STT_FUNC
const FUNCTION: u8 = 2;

/// What of an entry is read: the Elf32_Sym of the System V ABI.
#[derive(Clone, Copy, Debug)]
pub struct Entry {
    /// st_name
    pub name: u32,
    /// st_value
    pub value: u32,
    /// st_size
    pub size: u32,
    /// st_info
    pub info: u8,
    /// st_shndx
    pub section: u16,
}

impl Entry {
    /// The entry at a place among the bytes of a symbol table.
    pub(crate) fn read(entries: &[u8], at: usize) -> Self
        requires { at + ENTRY_BYTES ≤ length entries.now }
        ensures { result ≡ entry_at entries.now at }
    {
        Entry {
            name: u32_at(entries, at),
            value: u32_at(entries, at + 4),
            size: u32_at(entries, at + 8),
            info: entries[at + 12],
            section: u16_at(entries, at + 14),
        }
    }

    /// Whether it may stand for code, by its type.
    pub(crate) fn may_be_code(&self) -> bool
        ensures { result ≡ may_be_code self.now }
    {
        let kind = self.info % 16;
        kind == NO_TYPE || kind == FUNCTION
    }
}

/// Whether a name stands at a place among the strings, other than that of a mapping symbol.
pub(crate) fn has_name(strings: &[u8], at: u32) -> bool
    ensures { result ≡ has_name strings.now at }
{
    let at = at as usize;
    if at >= strings.len() {
        return false;
    }
    let text = &strings[at..];
    !text.starts_with(b"\0") && !text.starts_with(b"$d") && !text.starts_with(b"$x")
}
