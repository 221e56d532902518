//! A name as it is shown.
ghost use Rattle.std.specs.Prelude.{◌≡◌, ◌+◌, ◌≤◌, ◌<◌, ◌++◌, Some, length, map};
ghost use Rattle.disassembler.specs.Names.{name_of};
ghost use Rattle.disassembler.specs.Labels.{shown_byte, label_of, without_zeros, digits, offset_part, label};

use crate::strings::front_of;
use crate::symbol_table::{Place, Symbols};
use texts::{Line, hexadecimal};
use words::Addr;

/// How many bytes of a name are shown.
const LONGEST: usize = 64;

/// What stands behind an address: a space, and then a name and an offset in angle brackets.
pub type Label = Line<80>;

/// A byte as it is shown: no other than a visible character of ASCII reaches the user's terminal.
fn shown_byte(byte: u8) -> u8
    ensures { result ≡ shown_byte byte }
{
    match byte {
        b'!'..=b'~' => byte,
        _ => b'?',
    }
}

/// Adds a name's bytes, as they are shown.
fn add_shown<const CAP: usize>(name: &[u8], line: &mut Line<CAP>)
    requires { length line.old + length name.now ≤ CAP }
    ensures { line.new ≡ line.old ++ map shown_byte name.now }
{
    for byte in name {
        line.put_bytes(&[shown_byte(*byte)]);
    }
}

/// Digits from the first that isn't 0.
fn without_zeros(digits: &[u8]) -> &[u8]
    ensures text { result.now ≡ without_zeros digits.now }
    ensures short { length result.now ≤ length digits.now }
{
    match digits {
        [b'0', rest @ ..] => without_zeros(rest),
        _ => digits,
    }
}

/// Adds the digits of a number, from the first that isn't 0.
#[tactic(auto, unfolding(crate::specs::Labels::digits))]
fn add_digits<const CAP: usize>(n: u32, line: &mut Line<CAP>)
    requires { length line.old + 8 ≤ CAP }
    ensures text { line.new ≡ line.old ++ digits n }
    ensures short { length line.new ≤ length line.old + 8 }
{
    line.put_bytes(without_zeros(&hexadecimal(n)));
}

/// Adds how far an address lies behind the first one of its symbol, if it does.
fn add_offset<const CAP: usize>(offset: u32, line: &mut Line<CAP>)
    requires { length line.old + 11 ≤ CAP }
    ensures text { line.new ≡ line.old ++ offset_part offset }
    ensures short { length line.new ≤ length line.old + 11 }
{
    if offset != 0 {
        line.put("+0x");
        add_digits(offset, line);
    }
}

/// Adds the label of a place.
#[inline(never)]
fn add_place<const CAP: usize>(strings: &[u8], place: Place, line: &mut Line<CAP>)
    requires { length line.old + 78 ≤ CAP }
    ensures text { line.new ≡ line.old ++ label_of (Some (name_of strings.now place)) }
    ensures longer { length line.new ≤ length line.old + 78 }
{
    line.put(" <");
    add_shown(front_of(strings, place.name, LONGEST), line);
    add_offset(place.offset, line);
    line.put(">");
}

impl Symbols<'_> {
    /// What stands behind an address: its name and how far it lies behind the symbol's first byte, and nothing where it has no name.
    pub fn label(&self, address: Addr) -> Label
        ensures text { result ≡ label self.now address }
        ensures short { length result ≤ 78 }
    {
        let mut line = Label::new();
        self.add_label(address, &mut line);
        line
    }

    /// Adds what stands behind an address to a line that has room for it.
    #[inline]
    #[tactic(auto, unfolding(crate::specs::Labels::label))]
    pub fn add_label<const CAP: usize>(&self, address: Addr, line: &mut Line<CAP>)
        requires { length line.old + 78 ≤ CAP }
        ensures text { line.new ≡ line.old ++ label self.now address }
        ensures longer { length line.new ≤ length line.old + 78 }
    {
        if let Some(place) = self.place_at(address.value()) {
            add_place(self.strings(), place, line);
        }
    }
}
