//! A symbol of code.
ghost use Rattle.std.specs.Prelude.{◌≡◌};
ghost use Rattle.disassembler.specs.Tables.{symbol_in, symbol_of};

use crate::entry::{Entry, has_name};
use crate::section::{Section, text_section};

/// A symbol of code: the addresses that it reaches from and to, and where its name stands among the strings.
#[derive(Clone, Copy, Debug)]
pub struct Symbol {
    pub address: u32,
    pub end: u64,
    pub name: u32,
}

/// The symbol of an entry that a section defines.
fn symbol_in(entry: &Entry, section: &Section) -> Symbol
    ensures { result ≡ symbol_in entry.now section.now }
{
    let end = if entry.size == 0 {
        u64::from(section.addr) + u64::from(section.size)
    } else {
        u64::from(entry.value) + u64::from(entry.size)
    };
    Symbol {
        address: entry.value,
        end,
        name: entry.name,
    }
}

/// The symbol of code that an entry stands for, if it does.
pub(crate) fn symbol_of(sections: &[Section], strings: &[u8], entry: &Entry) -> Option<Symbol>
    ensures { result ≡ symbol_of sections.now strings.now entry.now }
{
    if !entry.may_be_code() || !has_name(strings, entry.name) {
        return None;
    }
    let section = text_section(sections, entry.section)?;
    Some(symbol_in(entry, &section))
}
