//! The symbols of a file.
ghost use Rattle.std.specs.Prelude.{◌≡◌, ◌==◌, ◌++◌, nat_lt, OnOk, if◌then◌else◌, IfOk, Some, None, option_map, option_and_then, position, slice_get};
ghost use Rattle.std.specs.Option.{option_to_list};
ghost use Rattle.disassembler.specs.Tables.{symbol_table, strings_of, entries_of, parts_of, symbols_in, table_of, no_symbols};
ghost use Rattle.disassembler.specs.Names.{nearest, symbol_at, place_in, is_named, address_of};
ghost use Rattle.disassembler.specs.Orders.{IsInOrder, IsRising};

use crate::entry::{ENTRY_BYTES, Entry};
use crate::section::{Section, sections};
use crate::strings::is_string;
use crate::symbol::{Symbol, symbol_of};
use std::alloc::{AllocError, Global};
use std::marker::Model;

/// SHT_SYMTAB
const SYMBOL_TABLE: u32 = 2;

/// SHT_STRTAB
const STRING_TABLE: u32 = 3;

/// Which section is the first symbol table.
fn place_of_table(sections: &[Section]) -> Option<usize>
    ensures { result ≡ position (λ s. s.kind == 2) sections.now }
{
    sections.iter().position(|s| s.kind == SYMBOL_TABLE)
}

/// The first symbol table.
fn symbol_table(sections: &[Section]) -> Option<Section>
    ensures { result ≡ symbol_table sections.now }
{
    let place = place_of_table(sections)?;
    sections.get(place).copied()
}

/// The bytes of a string table.
fn strings_of<'a>(bytes: &'a [u8], section: &Section) -> Option<&'a [u8]>
    ensures { option_map (λ strings. strings.now) result ≡ strings_of bytes.now section.now }
{
    let strings = section.contents(bytes)?;
    if section.kind == STRING_TABLE && strings.ends_with(b"\0") {
        Some(strings)
    } else {
        None
    }
}

/// The bytes of a symbol table's entries.
fn entries_of<'a>(bytes: &'a [u8], section: &Section) -> Option<&'a [u8]>
    ensures { option_map (λ entries. entries.now) result ≡ entries_of bytes.now section.now }
{
    if section.entry_size as usize == ENTRY_BYTES {
        section.contents(bytes)
    } else {
        None
    }
}

/// The bytes of the entries, and those of the strings that they name.
fn parts_of<'a>(bytes: &'a [u8], sections: &[Section]) -> Option<(&'a [u8], &'a [u8])>
    ensures { option_map (λ parts. (parts.0.now, parts.1.now)) result ≡ parts_of bytes.now sections.now }
{
    let table = symbol_table(sections)?;
    let entries = entries_of(bytes, &table)?;
    let names = sections.get(table.link as usize)?;
    let strings = strings_of(bytes, names)?;
    Some((entries, strings))
}

/// The symbols of code that the entries stand for, in order.
fn symbols_in(
    alloc: Global,
    sections: &[Section],
    strings: &[u8],
    entries: &[u8],
) -> Result<Vec<Symbol>, AllocError>
    ensures { IfOk result (λ symbols. symbols.items ≡ symbols_in sections.now strings.now entries.now) }
{
    let mut symbols = Vec::new(alloc);
    for i in 0..entries.len() / ENTRY_BYTES {
        let entry = Entry::read(entries, ENTRY_BYTES * i);
        add(&mut symbols, symbol_of(sections, strings, &entry))?;
    }
    Ok(symbols)
}

/// Adds a symbol, if there is one.
fn add(symbols: &mut Vec<Symbol>, symbol: Option<Symbol>) -> Result<(), AllocError>
    ensures { OnOk result (symbols.new.items ≡ symbols.old.items ++ option_to_list symbol) }
{
    match symbol {
        Some(symbol) => Ok(symbols.push(symbol)?),
        None => Ok(()),
    }
}

/// The symbols by rising address, those at one address in their order.
fn in_order(alloc: Global, symbols: &[Symbol]) -> Result<Vec<Symbol>, AllocError>
    ensures { IfOk result (λ rising. IsInOrder symbols.now rising.items) }
{
    let mut rising = Vec::from_slice(alloc, symbols)?;
    rising.sort_by_key(|symbol| symbol.address)?;
    Ok(rising)
}

/// Where an address lies: where the name of its symbol stands among the strings, and how far it lies behind the symbol's first byte.
#[derive(Clone, Copy, Debug)]
pub struct Place {
    pub name: u32,
    pub offset: u32,
}

/// The symbols of code of an ELF32 file, and the strings in which their names stand.
#[derive(Drop)]
pub struct Symbols<'a> {
    strings: &'a [u8],
    symbols: Vec<Symbol>,
    rising: Vec<Symbol>,
}

impl<'a> Model for Symbols<'a> {
    ghost use Rattle.disassembler.specs.Tables.{Table};
    ghost use Rattle.disassembler.specs.Orders.{IsInOrder};

    ghost Value = { Table };

    ghost view = { λ s. record { strings = s.strings.now; symbols = s.symbols.items } };

    ghost invariant = { λ s. IsInOrder s.symbols.items s.rising.items };
}

impl<'a> Symbols<'a> {
    /// The symbols of a file with these bytes, of which no more is asked than that they be bytes: a file whose symbol table isn't whole has none.
    /// The only error is that memory ran out.
    pub fn read(alloc: Global, bytes: &'a [u8]) -> Result<Self, AllocError>
        ensures { IfOk result (λ symbols. symbols ≡ table_of bytes.now) }
    {
        let sections = sections(alloc, bytes)?;
        match parts_of(bytes, &sections) {
            Some((entries, strings)) => Symbols::new(alloc, &sections, strings, entries),
            None => Ok(Symbols::none(alloc)),
        }
    }

    /// The symbols of a table's entries, with the strings that they name.
    fn new(
        alloc: Global,
        sections: &[Section],
        strings: &'a [u8],
        entries: &[u8],
    ) -> Result<Self, AllocError>
        ensures { IfOk result (λ table. table ≡ record { strings = strings.now; symbols = symbols_in sections.now strings.now entries.now }) }
    {
        let symbols = symbols_in(alloc, sections, strings, entries)?;
        let rising = in_order(alloc, &symbols)?;
        Ok(Symbols {
            strings,
            symbols,
            rising,
        })
    }

    /// No symbols, as of a program that is no ELF file. It takes no memory.
    pub fn none(alloc: Global) -> Self
        ensures { result ≡ no_symbols }
    {
        Symbols {
            strings: &[],
            symbols: Vec::new(alloc),
            rising: Vec::new(alloc),
        }
    }

    /// The symbol that an address belongs to, and how far it lies behind the first byte.
    pub(crate) fn place_at(&self, address: u32) -> Option<Place>
        ensures { result ≡ option_map (place_in address) (symbol_at self.now.symbols address) }
    {
        let symbol = self.symbol_at(address)?;
        Some(Place {
            name: symbol.name,
            offset: address.saturating_sub(symbol.address),
        })
    }

    /// The address of a name: that of the first symbol of the table that has it.
    pub fn address_of(&self, name: &str) -> Option<u32>
        ensures { result ≡ address_of self.now name.now }
    {
        let symbol = first_named(&self.symbols, self.strings, name.as_bytes())?;
        Some(symbol.address)
    }

    fn symbol_at(&self, address: u32) -> Option<Symbol>
        ensures { result ≡ symbol_at self.now.symbols address }
    {
        reaching(nearest(&self.rising, address), address)
    }

    /// The strings in which the names stand.
    pub(crate) fn strings(&self) -> &'a [u8]
        ensures { result.now ≡ self.now.strings }
    {
        self.strings
    }
}

/// The nearest symbol at or below an address, of symbols in order.
fn nearest(rising: &[Symbol], address: u32) -> Option<Symbol>
    requires { IsRising rising.now }
    ensures { result ≡ nearest rising.now address }
{
    let below = rising.partition_point(|symbol| symbol.address <= address);
    if below == 0 {
        return None;
    }
    Some(rising[below - 1])
}

/// The symbol, if there is one and it reaches an address.
fn reaching(symbol: Option<Symbol>, address: u32) -> Option<Symbol>
    ensures { result ≡ option_and_then (λ s. if nat_lt address s.end then Some s else None) symbol }
{
    match symbol {
        Some(symbol) if u64::from(address) < symbol.end => Some(symbol),
        _ => None,
    }
}

/// Where the first symbol stands that has a name.
fn place_of_name(symbols: &[Symbol], strings: &[u8], name: &[u8]) -> Option<usize>
    ensures { result ≡ position (is_named strings.now name.now) symbols.now }
{
    symbols
        .iter()
        .position(|symbol| is_string(strings, symbol.name, name))
}

/// The first symbol that has a name.
fn first_named(symbols: &[Symbol], strings: &[u8], name: &[u8]) -> Option<Symbol>
    ensures { result ≡ option_and_then (slice_get symbols.now) (position (is_named strings.now name.now) symbols.now) }
{
    let place = place_of_name(symbols, strings, name)?;
    symbols.get(place).copied()
}
