//! Operands that are addresses: a number, or a label and how far beyond it.
ghost use Rattle.std.specs.Prelude.{◌≡◌, ◌≤◌, ◌<◌, ◌-◌, ◌%◌, ◌^◌, option_map, Ok, Err};
ghost use Rattle.statements.specs.Numbers as numbers;
ghost use Rattle.statements.specs.Operands as spec;
ghost use Rattle.statements.specs.Places.{find_in};

use crate::digits::read_number;
use crate::fault::AsmFault;
use crate::number::Number;
use crate::operand::checked;
use crate::place::Names;
use crate::text::{cut, is_name};
use operands::{AbortOffset, BranchOffset, JumpOffset};

/// The farthest that a branch reaches forwards.
const BRANCH_REACH: u64 = 4094;

/// The farthest that a jump reaches forwards.
const JUMP_REACH: u64 = 1_048_574;

/// The farthest that `tbegin` reaches forwards.
const ABORT_REACH: u64 = 4094;

/// A label, and how far beyond it.
#[derive(Clone, Copy)]
struct Named<'a> {
    name: &'a [u8],
    beyond: Number,
}

/// A label with what stands beyond it, if it is a name and that a number.
fn with_name(name: &[u8], beyond: Option<Number>) -> Option<Named<'_>>
    ensures { option_map (λ t. record { name = t.name.now; beyond = t.beyond }) result ≡ spec.named name.now beyond }
{
    match beyond {
        Some(beyond) if is_name(name) => Some(Named { name, beyond }),
        _ => None,
    }
}

/// `NAME`, `NAME+number` or `NAME-number`
#[tactic(auto, unfolding(crate::specs::Operands::named_of))]
fn read_named(text: &[u8]) -> Option<Named<'_>>
    ensures { option_map (λ t. record { name = t.name.now; beyond = t.beyond }) result ≡ spec.named_of text.now }
{
    let (name, after) = cut(text, b'+');
    if let Some(number) = after {
        return with_name(name, read_number(number));
    }
    let (name, after) = cut(text, b'-');
    match after {
        Some(number) => with_name(name, read_number(number).map(Number::negated)),
        None => with_name(name, Some(Number::new(false, 0))),
    }
}

/// How far a label's address, and beyond, is from a place, if the labels are known yet.
fn far_from(
    from: u32,
    name: &[u8],
    beyond: Number,
    names: Option<&Names>,
) -> Result<Option<Number>, AsmFault>
    ensures { result ≡ spec.far_from from (record { name = name.now; beyond = beyond }) (option_map (λ n. find_in n.now) names.entry) }
{
    let Some(names) = names else {
        return Ok(None);
    };
    let address = names.find(name).ok_or(AsmFault::Label)?;
    Ok(Some(beyond.distance(address, from)))
}

/// An address operand: a number as it stands, or how far what it names is from a place.
#[tactic(auto, unfolding(crate::specs::Operands::target))]
fn target(from: u32, names: Option<&Names>, text: &[u8]) -> Result<Option<Number>, AsmFault>
    ensures { result ≡ spec.target from (option_map (λ n. find_in n.now) names.entry) text.now }
{
    if let Some(n) = read_number(text) {
        return Ok(Some(n));
    }
    match read_named(text) {
        Some(target) => far_from(from, target.name, target.beyond, names),
        None => Err(AsmFault::Operand),
    }
}

/// A number from `-low` to `high`, modulo 2^32; one that isn't known yet is put as 0.
fn in_range(low: u64, high: u64, n: Option<Number>) -> Result<u32, AsmFault>
    ensures { result ≡ spec.in_range low high n }
{
    match n {
        Some(n) => checked(n, low, high),
        None => Ok(0),
    }
}

/// The offset of a branch: from the instruction at `pc`.
#[tactic(auto, unfolding(crate::specs::Operands::offset))]
pub fn branch_offset(pc: u32, names: Option<&Names>, text: &[u8]) -> Result<BranchOffset, AsmFault>
    ensures { result ≡ spec.offset 4096 4094 2 pc (option_map (λ n. find_in n.now) names.entry) text.now }
{
    let n = target(pc, names, text)?;
    let value = in_range(4096, BRANCH_REACH, n)?;
    if value % 2 != 0 {
        return Err(AsmFault::Alignment);
    }
    Ok(BranchOffset::new(value))
}

/// The offset of a jump: from the instruction at `pc`.
#[tactic(auto, unfolding(crate::specs::Operands::offset))]
pub fn jump_offset(pc: u32, names: Option<&Names>, text: &[u8]) -> Result<JumpOffset, AsmFault>
    ensures { result ≡ spec.offset 1048576 1048574 2 pc (option_map (λ n. find_in n.now) names.entry) text.now }
{
    let n = target(pc, names, text)?;
    let value = in_range(1_048_576, JUMP_REACH, n)?;
    if value % 2 != 0 {
        return Err(AsmFault::Alignment);
    }
    Ok(JumpOffset::new(value))
}

/// The offset of `tbegin`: from the instruction at `pc`.
#[tactic(auto, unfolding(crate::specs::Operands::offset))]
pub fn abort_offset(pc: u32, names: Option<&Names>, text: &[u8]) -> Result<AbortOffset, AsmFault>
    ensures { result ≡ spec.offset 4096 4094 4 pc (option_map (λ n. find_in n.now) names.entry) text.now }
{
    let n = target(pc, names, text)?;
    let value = in_range(4096, ABORT_REACH, n)?;
    if value % 4 != 0 {
        return Err(AsmFault::Alignment);
    }
    Ok(AbortOffset::new(value))
}

/// A number of 32 bits, signed or unsigned, or an address.
#[tactic(auto, unfolding(crate::specs::Operands::value))]
pub fn value(names: Option<&Names>, text: &[u8]) -> Result<u32, AsmFault>
    ensures { result ≡ spec.value (option_map (λ n. find_in n.now) names.entry) text.now }
{
    let n = target(0, names, text)?;
    in_range(1 << 31, (1 << 32) - 1, n)
}

/// Whether an operand is no number and names a label that no line has.
#[tactic(auto, unfolding(crate::specs::Operands::is_lost))]
pub fn is_lost(names: &Names, text: &[u8]) -> bool
    ensures { result ≡ spec.is_lost (find_in names.now) text.now }
{
    if read_number(text).is_some() {
        return false;
    }
    match read_named(text) {
        Some(target) => names.find(target.name).is_none(),
        None => false,
    }
}
