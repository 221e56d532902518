//! A mnemonic with operands, by the shapes that instructions have. Each is added to a line.
ghost use Rattle.std.specs.Prelude.{◌≡◌, ◌≤◌, ◌+◌, ◌++◌, length, codes, decimal};
ghost use Rattle.disassembler.specs.Mnemonics.{register};
ghost use Rattle.disassembler.specs.Canonical as spec;

use crate::names::register;
use crate::numbers::{add_signed, trimmed};
use operands::{AbortOffset, Imm12, Shamt, UpperImm};
use texts::{Line, hexadecimal};
use words::Reg;

/// `op a`.
#[inline(always)]
fn first<const CAP: usize>(op: &str, a: Reg, line: &mut Line<CAP>)
    requires op { length op.now ≤ 9 }
    requires room { length line.old + 14 ≤ CAP }
    ensures text { line.new ≡ line.old ++ op.now ++ codes " " ++ register a }
    ensures longer { length line.new ≤ length line.old + 14 }
{
    line.put(op);
    line.put(" ");
    line.put_name(register(a));
}

/// `op a, b`.
#[inline(always)]
fn second<const CAP: usize>(op: &str, a: Reg, b: Reg, line: &mut Line<CAP>)
    requires op { length op.now ≤ 9 }
    requires room { length line.old + 20 ≤ CAP }
    ensures text { line.new ≡ line.old ++ op.now ++ codes " " ++ register a ++ codes ", " ++ register b }
    ensures longer { length line.new ≤ length line.old + 20 }
{
    first(op, a, line);
    line.put(", ");
    line.put_name(register(b));
}

/// `op a, 0x..`, with the upper 20 bits.
#[inline(always)]
#[tactic(auto, unfolding(crate::specs::Canonical::upper))]
pub(crate) fn upper<const CAP: usize>(op: &str, a: Reg, imm: UpperImm, line: &mut Line<CAP>)
    requires op { length op.now ≤ 9 }
    requires room { length line.old + 40 ≤ CAP }
    ensures text { line.new ≡ line.old ++ spec.two op.now (register a) (spec.upper imm) }
    ensures longer { length line.new ≤ length line.old + 40 }
{
    let digits = hexadecimal(imm.value() >> 12);
    first(op, a, line);
    line.put(", 0x");
    line.put_bytes(trimmed(&digits));
}

/// `op a, n`.
#[inline(always)]
pub(crate) fn jump<const CAP: usize>(op: &str, a: Reg, n: u32, line: &mut Line<CAP>)
    requires op { length op.now ≤ 9 }
    requires room { length line.old + 40 ≤ CAP }
    ensures text { line.new ≡ line.old ++ spec.two op.now (register a) (spec.signed n) }
    ensures longer { length line.new ≤ length line.old + 27 }
{
    first(op, a, line);
    line.put(", ");
    add_signed(n, line);
}

/// `op a, n(base)`.
#[inline(always)]
pub(crate) fn based<const CAP: usize>(op: &str, a: Reg, n: Imm12, base: Reg, line: &mut Line<CAP>)
    requires op { length op.now ≤ 9 }
    requires room { length line.old + 40 ≤ CAP }
    ensures text { line.new ≡ line.old ++ spec.offset op.now (register a) (spec.signed n) (register base) }
    ensures longer { length line.new ≤ length line.old + 40 }
{
    jump(op, a, n.value(), line);
    line.put("(");
    line.put_name(register(base));
    line.put(")");
}

/// `op a, b, n`.
#[inline(always)]
pub(crate) fn numbered<const CAP: usize>(op: &str, a: Reg, b: Reg, n: u32, line: &mut Line<CAP>)
    requires op { length op.now ≤ 9 }
    requires room { length line.old + 40 ≤ CAP }
    ensures text { line.new ≡ line.old ++ spec.three op.now (register a) (register b) (spec.signed n) }
    ensures longer { length line.new ≤ length line.old + 40 }
{
    second(op, a, b, line);
    line.put(", ");
    add_signed(n, line);
}

/// `op a, b, amount`.
#[inline(always)]
pub(crate) fn shifted<const CAP: usize>(
    op: &str,
    a: Reg,
    b: Reg,
    amount: Shamt,
    line: &mut Line<CAP>,
)
    requires op { length op.now ≤ 9 }
    requires room { length line.old + 40 ≤ CAP }
    ensures text { line.new ≡ line.old ++ spec.three op.now (register a) (register b) (decimal amount) }
    ensures longer { length line.new ≤ length line.old + 40 }
{
    second(op, a, b, line);
    line.put(", ");
    line.put_small(amount.value());
}

/// `op a, b, c`.
#[inline(always)]
pub(crate) fn registers<const CAP: usize>(op: &str, a: Reg, b: Reg, c: Reg, line: &mut Line<CAP>)
    requires op { length op.now ≤ 9 }
    requires room { length line.old + 40 ≤ CAP }
    ensures text { line.new ≡ line.old ++ spec.three op.now (register a) (register b) (register c) }
    ensures longer { length line.new ≤ length line.old + 40 }
{
    second(op, a, b, line);
    line.put(", ");
    line.put_name(register(c));
}

/// `op a, (base)`, where the order belongs to the mnemonic.
pub(crate) fn indirect<const CAP: usize>(
    op: &str,
    order: &str,
    a: Reg,
    base: Reg,
    line: &mut Line<CAP>,
)
    requires op { length op.now ≤ 9 }
    requires order { length order.now ≤ 5 }
    requires room { length line.old + 40 ≤ CAP }
    ensures text { line.new ≡ line.old ++ spec.indirect (op.now ++ order.now) (register a) (register base) }
    ensures longer { length line.new ≤ length line.old + 40 }
{
    line.put(op);
    first(order, a, line);
    line.put(", (");
    line.put_name(register(base));
    line.put(")");
}

/// `op a, b, (base)`, where the order belongs to the mnemonic.
pub(crate) fn atomic<const CAP: usize>(
    op: &str,
    order: &str,
    a: Reg,
    b: Reg,
    base: Reg,
    line: &mut Line<CAP>,
)
    requires op { length op.now ≤ 9 }
    requires order { length order.now ≤ 5 }
    requires room { length line.old + 40 ≤ CAP }
    ensures text { line.new ≡ line.old ++ spec.atomic (op.now ++ order.now) (register a) (register b) (register base) }
    ensures longer { length line.new ≤ length line.old + 40 }
{
    line.put(op);
    second(order, a, b, line);
    line.put(", (");
    line.put_name(register(base));
    line.put(")");
}

/// `op n`.
pub(crate) fn begin<const CAP: usize>(op: &str, offset: AbortOffset, line: &mut Line<CAP>)
    requires op { length op.now ≤ 9 }
    requires room { length line.old + 40 ≤ CAP }
    ensures text { line.new ≡ line.old ++ spec.one op.now (spec.signed offset) }
    ensures longer { length line.new ≤ length line.old + 40 }
{
    line.put(op);
    line.put(" ");
    add_signed(offset.value(), line);
}
