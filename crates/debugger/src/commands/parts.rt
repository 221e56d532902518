//! Parts of lines.
ghost use Rattle.std.specs.Prelude.{◌≡◌};
ghost use Rattle.debugger.specs.LookTexts as spec;

use arrayvec::ArrayString;
use disassembler::Symbols;
use itoa::Buffer;
use machine::TxInfo;
use render::first_byte;
use texts::{Line, ascii};
use words::{Addr, BlockNo};

/// A word that stands only where something holds.
pub(crate) fn if_so(holds: bool, word: &str) -> &str
    ensures { result.now ≡ spec.if_so holds word.now }
{
    if holds { word } else { "" }
}

/// A hart's pc, with its name.
pub(crate) fn pc_part(names: &Symbols<'_>, pc: Addr) -> Line<96>
    ensures { result ≡ spec.pc_part names.now pc }
{
    let mut part = Line::new();
    part.put(" pc=0x");
    part.put_word(pc.value());
    part.put_bytes(names.label(pc).as_bytes());
    part
}

/// How deep a transaction is nested, if one runs.
pub(crate) fn depth_part(tx: Option<TxInfo>) -> ArrayString<10>
    ensures { result.bytes ≡ spec.depth_part tx }
{
    let mut part = ArrayString::new();
    if let Some(info) = tx {
        let mut digits = Buffer::new();
        part.push_str(" depth ");
        part.push_str(digits.format(info.depth));
    }
    part
}

/// The block that is waited for, if one is.
fn waits_part(block: Option<BlockNo>) -> ArrayString<17>
    ensures { result.bytes ≡ spec.waits_part block }
{
    let mut part = ArrayString::new();
    if let Some(block) = block {
        part.push_str(" waits 0x");
        part.push_str(ascii(&first_byte(block)));
    }
    part
}

/// The block that is reserved, if one is.
fn reserves_part(block: Option<BlockNo>) -> ArrayString<20>
    ensures { result.bytes ≡ spec.reserves_part block }
{
    let mut part = ArrayString::new();
    if let Some(block) = block {
        part.push_str(" reserves 0x");
        part.push_str(ascii(&first_byte(block)));
    }
    part
}

/// The blocks that are waited for and reserved, where one is.
#[tactic(auto, unfolding(crate::specs::LookTexts::blocks_part))]
pub(crate) fn blocks_part(waits: Option<BlockNo>, reserved: Option<BlockNo>) -> ArrayString<37>
    ensures { result.bytes ≡ spec.blocks_part waits reserved }
{
    let mut part = ArrayString::new();
    part.push_str(waits_part(waits).as_str());
    part.push_str(reserves_part(reserved).as_str());
    part
}
