//! Operands: each kind is tested for its shape, for its register and for its range.
ghost use Rattle.std.specs.Prelude.{◌≡◌, ◌≤◌, ◌<◌, ◌-◌, ◌%◌, ◌^◌, option_map, MatchResult, IfOk, Ok, Err};
ghost use Rattle.statements.specs.Operands as spec;
ghost use Rattle.statements.specs.Numbers as Numbers;

use crate::digits::read_number;
use crate::fault::AsmFault;
use crate::number::Number;
use crate::registers::register_named;
use crate::text::{cut, is_name};
use operands::{Imm12, Shamt, UpperImm};
use words::Reg;

/// The name of a register.
#[tactic(auto, unfolding(crate::specs::Operands::register))]
pub fn register(text: &[u8]) -> Result<Reg, AsmFault>
    ensures { result ≡ spec.register text.now }
{
    if !is_name(text) {
        return Err(AsmFault::Operand);
    }
    register_named(text).ok_or(AsmFault::Register)
}

pub(crate) fn checked(n: Number, low: u64, high: u64) -> Result<u32, AsmFault>
    ensures { result ≡ spec.checked (Numbers.is_from_to low high n) AsmFault.Range (Numbers.wrapped n) }
{
    if n.is_from_to(low, high) {
        Ok(n.wrapped())
    } else {
        Err(AsmFault::Range)
    }
}

/// A number from `-low` to `high`, modulo 2^32.
#[tactic(auto, unfolding(crate::specs::Operands::immediate))]
pub fn immediate(text: &[u8], low: u64, high: u64) -> Result<u32, AsmFault>
    ensures { result ≡ spec.immediate low high text.now }
{
    let n = read_number(text).ok_or(AsmFault::Operand)?;
    checked(n, low, high)
}

/// An immediate of 12 bits.
#[tactic(auto, unfolding(crate::specs::Operands::immediate))]
pub fn imm12(text: &[u8]) -> Result<Imm12, AsmFault>
    ensures { result ≡ spec.immediate 2048 2047 text.now }
{
    let n = read_number(text).ok_or(AsmFault::Operand)?;
    Ok(Imm12::new(checked(n, 2048, 2047)?))
}

/// By how many places a shift goes.
#[tactic(auto, unfolding(crate::specs::Operands::immediate))]
pub fn amount(text: &[u8]) -> Result<Shamt, AsmFault>
    ensures { result ≡ spec.immediate 0 31 text.now }
{
    let n = read_number(text).ok_or(AsmFault::Operand)?;
    Ok(Shamt::new(checked(n, 0, 31)? as u8))
}

/// The upper 20 bits of a number, by that number.
#[tactic(auto, unfolding(crate::specs::Operands::immediate, crate::specs::Operands::upper))]
pub fn upper(text: &[u8]) -> Result<UpperImm, AsmFault>
    ensures { result ≡ spec.upper text.now }
{
    let n = read_number(text).ok_or(AsmFault::Operand)?;
    Ok(UpperImm::new(checked(n, 0, 0xfffff)? << 12))
}

/// The two parts of `front(inner)`.
#[tactic(auto, unfolding(crate::specs::Operands::enclosed))]
fn enclosed(text: &[u8]) -> Result<(&[u8], &[u8]), AsmFault>
    ensures { MatchResult result (λ x. spec.enclosed text.now ≡ Ok (record { front = x.0.now; inner = x.1.now })) (λ e. spec.enclosed text.now ≡ Err e) }
{
    let (front, rest) = cut(text, b'(');
    let (inner, rest) = cut(rest.ok_or(AsmFault::Operand)?, b')');
    if rest.ok_or(AsmFault::Operand)?.is_empty() {
        Ok((front, inner))
    } else {
        Err(AsmFault::Operand)
    }
}

/// `imm(reg)`
#[tactic(auto, unfolding(crate::specs::Operands::based))]
pub fn based(text: &[u8]) -> Result<(Imm12, Reg), AsmFault>
    ensures { MatchResult result (λ x. spec.based text.now ≡ Ok (record { imm = x.0; base = x.1 })) (λ e. spec.based text.now ≡ Err e) }
{
    let (front, inner) = enclosed(text)?;
    let n = read_number(front).ok_or(AsmFault::Operand)?;
    let base = register(inner)?;
    let imm = checked(n, 2048, 2047)?;
    Ok((Imm12::new(imm), base))
}

/// `(reg)`
#[tactic(auto, unfolding(crate::specs::Operands::indirect))]
pub fn indirect(text: &[u8]) -> Result<Reg, AsmFault>
    ensures { result ≡ spec.indirect text.now }
{
    let (front, inner) = enclosed(text)?;
    if !front.is_empty() {
        return Err(AsmFault::Operand);
    }
    register(inner)
}
