//! Symbol tables, whole and not: which names they give.
use crate::tests::claims::{equal, equal_at, holds};
use disassembler::{Symbols, nearest_symbol_is_found};
use loader::read_elf;
use std::alloc::{AllocError, Global};
use std::process::Abort;
use std::test::Fail;
use words::Addr;

/// What a file says of its symbol table and its strings.
#[derive(Clone, Copy)]
struct Shape {
    /// Where the headers of the sections begin, e_shoff.
    headers: u32,
    /// sh_offset of the symbol table, how far behind its place
    behind: u32,
    /// its sh_link
    link: u32,
    /// its sh_entsize
    entry_size: u32,
    /// sh_type of the strings
    kind: u32,
}

const WHOLE: Shape = Shape {
    headers: 100,
    behind: 0,
    link: 3,
    entry_size: 16,
    kind: 3,
};

fn put(bytes: &mut Vec<u8>, words: &[u32]) -> Result<(), AllocError> {
    for word in words {
        bytes.extend_from_slice(&word.to_le_bytes())?;
    }
    Ok(())
}

/// The header of the file, that of its segment, and the segment: four words at 0x1000.
fn put_program(bytes: &mut Vec<u8>, shape: Shape) -> Result<(), AllocError> {
    let ident = [0x464c_457f, 0x0001_0101, 0, 0];
    let header = [0x00f3_0002, 1, 0x1000, 52, shape.headers, 0];
    let sizes = [0x0020_0034, 0x0028_0001, 4];
    put(bytes, &ident)?;
    put(bytes, &header)?;
    put(bytes, &sizes)?;
    put(bytes, &[1, 84, 0x1000, 0x1000, 16, 16, 5, 4])?;
    put(bytes, &[0x13, 0x13, 0x13, 0x13])
}

/// The headers of the sections: none, text, the symbol table and its strings.
fn put_headers(
    bytes: &mut Vec<u8>,
    shape: Shape,
    symbols: &[[u32; 4]],
    strings: &[u8],
) -> Result<(), AllocError> {
    let size = 16 * symbols.len().min(100_000) as u32;
    let text = [0, 1, 6, 0x1000, 84, 16, 0, 0, 4, 0];
    let table = [
        0,
        2,
        0,
        0,
        260_u32.saturating_add(shape.behind),
        size,
        shape.link,
        0,
        4,
        shape.entry_size,
    ];
    let names = [
        0,
        shape.kind,
        0,
        0,
        260 + size,
        strings.len().min(1_000_000) as u32,
        0,
        0,
        1,
        0,
    ];
    put(bytes, &[0; 10])?;
    put(bytes, &text)?;
    put(bytes, &table)?;
    put(bytes, &names)
}

/// A file of four words of text, all of it.
fn put_file(
    bytes: &mut Vec<u8>,
    shape: Shape,
    symbols: &[[u32; 4]],
    strings: &[u8],
) -> Result<(), AllocError> {
    put_program(bytes, shape)?;
    put_headers(bytes, shape, symbols, strings)?;
    for symbol in symbols {
        put(bytes, symbol)?;
    }
    bytes.extend_from_slice(strings)
}

/// A file of four words of text with these symbols and strings. A symbol is what its five words say: st_name, st_value, st_size, and st_info with
/// st_shndx above it.
fn file(
    alloc: Global,
    shape: Shape,
    symbols: &[[u32; 4]],
    strings: &[u8],
) -> Result<Vec<u8>, AllocError> {
    let mut bytes = Vec::new(alloc);
    put_file(&mut bytes, shape, symbols, strings)?;
    Ok(bytes)
}

/// STT_NOTYPE, STT_OBJECT and STT_FUNC, defined in the section of text.
const LABEL: u32 = 0x0001_0000;

const OBJECT: u32 = 0x0001_0001;

const FUNCTION: u32 = 0x0001_0002;

const STRINGS: &[u8] = b"\0one\0two\0$xrv32i\0data\0";

static TWO: [[u32; 4]; 6] = [
    [0, 0, 0, 0],
    [1, 0x1000, 8, FUNCTION],
    [9, 0x1004, 0, LABEL],
    [17, 0x1004, 4, OBJECT],
    [17, 0x1004, 4, 0x0000_0002],
    [5, 0x1008, 0, LABEL],
];

/// That these are the labels that symbols give.
fn check_labels(rt: &impl Abort, names: &Symbols, labels: &[(u32, &str)]) {
    for (address, label) in labels {
        let shown = names.label(Addr::new(*address));
        equal_at(rt, &shown.as_bytes(), &label.as_bytes(), &address);
    }
}

/// That the words of a file's text have these labels.
fn check(
    rt: &(impl Abort + AllocGlobal),
    bytes: &[u8],
    labels: &[(u32, &str)],
) -> Result<(), Fail> {
    let names = Symbols::read(rt.alloc(), bytes)?;
    check_labels(rt, &names, labels);
    Ok(())
}

const NO_NAMES: [(u32, &str); 3] = [(0x1000, ""), (0x1004, ""), (0x100c, "")];

static NAMED: [(u32, &str); 8] = [
    (0xffc, ""),
    (0x1000, " <one>"),
    (0x1004, " <one+0x4>"),
    (0x1007, " <one+0x7>"),
    (0x1008, " <two>"),
    (0x100c, " <two+0x4>"),
    (0x1010, ""),
    (0xffff_ffff, ""),
];

#[test]
fn addresses_have_names(rt: HostRuntime) -> Result<(), Fail> {
    nearest_symbol_is_found();
    let bytes = file(rt.alloc(), WHOLE, &TWO, STRINGS)?;
    holds(&rt, read_elf(rt.alloc(), &bytes).is_ok());
    check(&rt, &bytes, &NAMED)
}

/// That names have these addresses, or none.
fn check_addresses(rt: &impl Abort, names: &Symbols, addresses: &[(&str, Option<u32>)]) {
    for (name, address) in addresses {
        equal_at(rt, &names.address_of(name), address, name);
    }
}

/// That names have these addresses in a file, or none.
fn check_named(
    rt: &(impl Abort + AllocGlobal),
    bytes: &[u8],
    addresses: &[(&str, Option<u32>)],
) -> Result<(), Fail> {
    let names = Symbols::read(rt.alloc(), bytes)?;
    check_addresses(rt, &names, addresses);
    Ok(())
}

static ADDRESSES: [(&str, Option<u32>); 8] = [
    ("one", Some(0x1000)),
    ("two", Some(0x1008)),
    ("", None),
    ("on", None),
    ("onee", None),
    ("data", None),
    ("ne", None),
    ("$xrv32i", None),
];

#[test]
fn names_have_addresses(rt: HostRuntime) -> Result<(), Fail> {
    let bytes = file(rt.alloc(), WHOLE, &TWO, STRINGS)?;
    check_named(&rt, &bytes, &ADDRESSES)
}

static SIZED: [[u32; 4]; 2] = [[1, 0x1000, 4, FUNCTION], [5, 0x100c, 0xffff_ffff, LABEL]];

static SIZED_LABELS: [(u32, &str); 5] = [
    (0x1003, " <one+0x3>"),
    (0x1004, ""),
    (0x1008, ""),
    (0x100c, " <two>"),
    (0xffff_ffff, " <two+0xffffeff3>"),
];

#[test]
fn a_symbol_ends_with_its_size(rt: HostRuntime) -> Result<(), Fail> {
    let bytes = file(rt.alloc(), WHOLE, &SIZED, STRINGS)?;
    check(&rt, &bytes, &SIZED_LABELS)
}

static TWICE: [[u32; 4]; 3] = [
    [1, 0x1008, 0, LABEL],
    [1, 0x1000, 0, LABEL],
    [5, 0x1000, 0, FUNCTION],
];

static TWICE_LABELS: [(u32, &str); 3] = [
    (0x1000, " <two>"),
    (0x1004, " <two+0x4>"),
    (0x1008, " <one>"),
];

/// Of two with one name the first is taken.
static TWICE_ADDRESSES: [(&str, Option<u32>); 1] = [("one", Some(0x1008))];

/// That a file has these labels of words, and this address of a name.
fn check_twice(rt: &(impl Abort + AllocGlobal), bytes: &[u8]) -> Result<(), Fail> {
    check(rt, bytes, &TWICE_LABELS)?;
    check_named(rt, bytes, &TWICE_ADDRESSES)
}

#[test]
fn of_two_at_one_address_the_later_is_shown(rt: HostRuntime) -> Result<(), Fail> {
    let bytes = file(rt.alloc(), WHOLE, &TWICE, STRINGS)?;
    check_twice(&rt, &bytes)
}

#[test]
fn no_file_sends_control_codes(rt: HostRuntime) -> Result<(), Fail> {
    let strings = b"\0\x1b[2J a\xc3\xa9\x7f\0";
    let bytes = file(rt.alloc(), WHOLE, &[[1, 0x1000, 0, LABEL]], strings)?;
    check(&rt, &bytes, &[(0x1000, " <?[2J?a???>")])
}

/// That the label of a word with a long name of letters a is cut.
fn check_cut_label(rt: &impl Abort, names: &Symbols) {
    let shown = names.label(Addr::new(0x100c));
    equal(rt, &shown.as_bytes().len(), &(2 + 64 + 4 + 1));
    holds(rt, shown.as_bytes().ends_with(b"aaa+0xc>"));
}

/// That a long name of letters a is shown cut.
fn check_cut(rt: &(impl Abort + AllocGlobal), bytes: &[u8]) -> Result<(), Fail> {
    let names = Symbols::read(rt.alloc(), bytes)?;
    check_cut_label(rt, &names);
    Ok(())
}

#[test]
fn long_names_are_cut(rt: HostRuntime) -> Result<(), Fail> {
    let mut text = [b'a'; 201];
    text[200] = 0;
    let bytes = file(rt.alloc(), WHOLE, &[[0, 0x1000, 0, LABEL]], &text)?;
    check_cut(&rt, &bytes)
}

static NOT_WHOLE: [Shape; 10] = [
    Shape {
        headers: 0,
        ..WHOLE
    },
    Shape {
        headers: 0xffff_fff0,
        ..WHOLE
    },
    Shape {
        behind: 0xffff_0000,
        ..WHOLE
    },
    Shape {
        behind: 100,
        ..WHOLE
    },
    Shape { link: 9, ..WHOLE },
    Shape { link: 1, ..WHOLE },
    Shape {
        link: 0xffff_ffff,
        ..WHOLE
    },
    Shape {
        entry_size: 0,
        ..WHOLE
    },
    Shape {
        entry_size: 24,
        ..WHOLE
    },
    Shape { kind: 1, ..WHOLE },
];

#[test]
fn tables_that_are_not_whole_have_no_names(rt: HostRuntime) -> Result<(), Fail> {
    for &shape in &NOT_WHOLE {
        let bytes = file(rt.alloc(), shape, &TWO, STRINGS)?;
        holds(&rt, read_elf(rt.alloc(), &bytes).is_ok());
        check(&rt, &bytes, &NO_NAMES)?;
    }
    // The last string has no end; or there is none.
    let open = file(rt.alloc(), WHOLE, &TWO, b"\0one\0two\0endless")?;
    check(&rt, &open, &NO_NAMES)?;
    let none = file(rt.alloc(), WHOLE, &TWO, b"")?;
    check(&rt, &none, &NO_NAMES)
}

#[test]
fn entries_without_a_name_are_passed_over(rt: HostRuntime) -> Result<(), Fail> {
    let symbols = [
        [1, 0x1000, 0, FUNCTION],
        [0xffff_ffff, 0x1004, 0, FUNCTION],
        [22, 0x1004, 0, FUNCTION],
        [0, 0x1004, 0, FUNCTION],
        [5, 0x1004, 0, 0xfff1_0002],
        [5, 0x1004, 0, 0x0002_0002],
    ];
    let bytes = file(rt.alloc(), WHOLE, &symbols, STRINGS)?;
    check(&rt, &bytes, &[(0x1000, " <one>"), (0x1004, " <one+0x4>")])
}

/// That a file has no names where it ends early.
fn check_beginnings(rt: &(impl Abort + AllocGlobal), bytes: &[u8]) -> Result<(), Fail> {
    for len in 0..bytes.len() {
        check(rt, &bytes[..len], &NO_NAMES)?;
    }
    Ok(())
}

#[test]
fn a_file_that_is_cut_has_no_other_names(rt: HostRuntime) -> Result<(), Fail> {
    let bytes = file(rt.alloc(), WHOLE, &TWO, STRINGS)?;
    check_beginnings(&rt, &bytes)
}

/// Puts 65,536 symbols of one name, at three addresses by turns, and one of another name.
fn put_many(symbols: &mut Vec<[u32; 4]>) -> Result<(), AllocError> {
    for i in 0..65_536_u32 {
        symbols.push([1, 0x1000 + 4 * ((65_535 - i) % 3), 0, LABEL])?;
    }
    symbols.push([5, 0x1008, 0, LABEL])?;
    Ok(())
}

static MANY_LABELS: [(u32, &str); 4] = [
    (0x1000, " <one>"),
    (0x1004, " <one>"),
    (0x1008, " <two>"),
    (0x100c, " <two+0x4>"),
];

#[test]
fn many_symbols_are_sorted(rt: HostRuntime) -> Result<(), Fail> {
    let mut symbols = Vec::new(rt.alloc());
    put_many(&mut symbols)?;
    let bytes = file(rt.alloc(), WHOLE, &symbols, STRINGS)?;
    check(&rt, &bytes, &MANY_LABELS)
}
