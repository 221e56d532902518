ghost use Rattle.std.specs.Prelude.{◌≡◌, ◌<◌, ◌%◌};
ghost use Rattle.table.specs.Numbers.{is_less_signed, min_signed, max_signed, shifted_left, shifted_right, shifted_right_signed, bit_of};
ghost use Rattle.table.specs.Numbers.{widened, upper_product, magnitude, with_sign, differ_in_sign, quotient, remainder, quotient_signed, remainder_signed};
ghost use Rattle.table.specs.Atomics.{amo_row};
ghost use Rattle.table.specs.Table.{branch_row, imm_row, shift_row, op_row};

use crate::instr::{AluOp, AmoOp, BranchOp, ImmOp, ShiftOp};

#[inline(always)]
fn is_less(a: u32, b: u32) -> bool
    ensures { result ≡ is_less_signed a b }
{
    a.wrapping_add(0x8000_0000) < b.wrapping_add(0x8000_0000)
}

fn min_signed(a: u32, b: u32) -> u32
    ensures { result ≡ min_signed a b }
{
    if is_less(a, b) { a } else { b }
}

fn max_signed(a: u32, b: u32) -> u32
    ensures { result ≡ max_signed a b }
{
    if is_less(a, b) { b } else { a }
}

#[inline(always)]
fn shift_left(a: u32, amount: u32) -> u32
    ensures { result ≡ shifted_left a amount }
{
    a << (amount & 31)
}

#[inline(always)]
fn shift_right(a: u32, amount: u32) -> u32
    ensures { result ≡ shifted_right a amount }
{
    a >> (amount & 31)
}

#[inline(always)]
fn shift_right_signed(a: u32, amount: u32) -> u32
    ensures { result ≡ shifted_right_signed a amount }
{
    let places = amount & 31;
    if a < 0x8000_0000 {
        a >> places
    } else {
        !(!a >> places)
    }
}

/// The number extended to 64 bits with its sign.
fn widened(a: u32) -> u64
    ensures { result ≡ widened a }
{
    if a >= 0x8000_0000 {
        u64::from(a) + 0xffff_ffff_0000_0000
    } else {
        u64::from(a)
    }
}

/// The upper half of a product.
fn upper_product(x: u64, y: u64) -> u32
    ensures { result ≡ upper_product x y }
{
    (x.wrapping_mul(y) >> 32) as u32
}

/// How far a signed number is from 0.
fn magnitude(a: u32) -> u32
    ensures value { result ≡ magnitude a }
    ensures some { 0 < a → 0 < result }
{
    if a >= 0x8000_0000 {
        u32::MAX - a + 1
    } else {
        a
    }
}

/// The signed number that is so far from 0, below it or not.
fn with_sign(below: bool, magnitude: u32) -> u32
    ensures { result ≡ with_sign below magnitude }
{
    if below {
        magnitude.wrapping_neg()
    } else {
        magnitude
    }
}

fn differ_in_sign(a: u32, b: u32) -> bool
    ensures { result ≡ differ_in_sign a b }
{
    (a >= 0x8000_0000) != (b >= 0x8000_0000)
}

fn divide(a: u32, b: u32) -> u32
    ensures { result ≡ quotient a b }
{
    if b == 0 { u32::MAX } else { a / b }
}

fn remainder(a: u32, b: u32) -> u32
    ensures { result ≡ remainder a b }
{
    if b == 0 { a } else { a % b }
}

fn divide_signed(a: u32, b: u32) -> u32
    ensures { result ≡ quotient_signed a b }
{
    if b == 0 {
        u32::MAX
    } else {
        with_sign(differ_in_sign(a, b), magnitude(a) / magnitude(b))
    }
}

fn remainder_signed(a: u32, b: u32) -> u32
    ensures { result ≡ remainder_signed a b }
{
    if b == 0 {
        a
    } else {
        with_sign(a >= 0x8000_0000, magnitude(a) % magnitude(b))
    }
}

/// Whether a branch is taken, by what its registers hold.
#[inline(always)]
pub fn is_branch_taken(op: BranchOp, a: u32, b: u32) -> bool
    ensures { result ≡ (branch_row op).test a b }
{
    match op {
        BranchOp::Eq => a == b,
        BranchOp::Ne => a != b,
        BranchOp::Lt => is_less(a, b),
        BranchOp::Ge => !is_less(a, b),
        BranchOp::Ltu => a < b,
        BranchOp::Geu => a >= b,
    }
}

/// The value that an operation makes of a register and an immediate.
#[inline(always)]
pub fn with_immediate(op: ImmOp, a: u32, imm: u32) -> u32
    ensures { result ≡ (imm_row op).value a imm }
{
    match op {
        ImmOp::Add => a.wrapping_add(imm),
        ImmOp::Slt => u32::from(is_less(a, imm)),
        ImmOp::Sltu => u32::from(a < imm),
        ImmOp::Xor => a ^ imm,
        ImmOp::Or => a | imm,
        ImmOp::And => a & imm,
    }
}

/// The value that a shift by a number of bits makes of a register. The low five bits of the number count.
#[inline(always)]
pub fn shift(op: ShiftOp, a: u32, amount: u32) -> u32
    ensures { result ≡ (shift_row op).value a amount }
{
    match op {
        ShiftOp::Sll => shift_left(a, amount),
        ShiftOp::Srl => shift_right(a, amount),
        ShiftOp::Sra => shift_right_signed(a, amount),
    }
}

/// The value that an operation makes of two registers.
#[inline(always)]
pub fn alu(op: AluOp, a: u32, b: u32) -> u32
    ensures { result ≡ (op_row op).value a b }
{
    match op {
        AluOp::Add => a.wrapping_add(b),
        AluOp::Sub => a.wrapping_sub(b),
        AluOp::Sll => shift_left(a, b),
        AluOp::Slt => u32::from(is_less(a, b)),
        AluOp::Sltu => u32::from(a < b),
        AluOp::Xor => a ^ b,
        AluOp::Srl => shift_right(a, b),
        AluOp::Sra => shift_right_signed(a, b),
        AluOp::Or => a | b,
        AluOp::And => a & b,
        AluOp::Mul => a.wrapping_mul(b),
        AluOp::Mulh => upper_product(widened(a), widened(b)),
        AluOp::Mulhsu => upper_product(widened(a), u64::from(b)),
        AluOp::Mulhu => upper_product(u64::from(a), u64::from(b)),
        AluOp::Div => divide_signed(a, b),
        AluOp::Divu => divide(a, b),
        AluOp::Rem => remainder_signed(a, b),
        AluOp::Remu => remainder(a, b),
    }
}

/// What an atomic operation puts in the place of the old word.
#[inline(never)]
pub fn finish_amo(op: AmoOp, old: u32, b: u32) -> u32
    ensures { result ≡ (amo_row op).value old b }
{
    match op {
        AmoOp::Add => old.wrapping_add(b),
        AmoOp::Swap => b,
        AmoOp::Xor => old ^ b,
        AmoOp::Or => old | b,
        AmoOp::And => old & b,
        AmoOp::Min => min_signed(old, b),
        AmoOp::Max => max_signed(old, b),
        AmoOp::Minu => old.min(b),
        AmoOp::Maxu => old.max(b),
    }
}
