ghost use Rattle.std.specs.Prelude.{◌≡◌, ◌≤◌, ◌+◌, ◌++◌, [], true, length};
ghost use Rattle.table.specs.declared.instr.Instr.TheVariants.{Amo, Fence, OpImm};
ghost use Rattle.disassembler.specs.Canonical.{canonical, spelled, plain, text_or, is_atomic};

use crate::names::order;
use crate::shapes::{atomic, based, begin, indirect, jump, numbered, registers, shifted, upper};
use operands::{FenceBits, Imm12};
use table::{ImmOp, Instr, Row, decode};
use texts::Line;
use words::Reg;

/// The canonical text of a word: its mnemonic and its operands, or `.word` with its digits. No other word has the same.
pub fn text(word: u32) -> Line<40>
    ensures { result ≡ canonical word }
{
    let mut line = Line::new();
    add_text(word, &mut line);
    line
}

/// Adds the canonical text of a word to a line that has room for it: no text is longer than 40 bytes.
#[inline(always)]
#[tactic(auto, unfolding(crate::specs::Canonical::canonical))]
pub fn add_text<const CAP: usize>(word: u32, line: &mut Line<CAP>)
    requires { length line.old + 40 ≤ CAP }
    ensures text { line.new ≡ line.old ++ canonical word }
    ensures longer { length line.new ≤ length line.old + 40 }
{
    match decode(word) {
        Some(instr) => add_instr(instr, word, line),
        None => add_plain(word, line),
    }
}

#[tactic(auto, unfolding(crate::specs::Canonical::plain))]
fn add_plain<const CAP: usize>(word: u32, line: &mut Line<CAP>)
    requires { length line.old + 40 ≤ CAP }
    ensures text { line.new ≡ line.old ++ plain word }
    ensures longer { length line.new ≤ length line.old + 40 }
{
    line.put(".word 0x");
    line.put_word(word);
}

/// Adds the text of an instruction, or the plain text of its word if it has none.
#[inline(always)]
fn add_instr<const CAP: usize>(instr: Instr, word: u32, line: &mut Line<CAP>)
    requires { length line.old + 40 ≤ CAP }
    ensures text { line.new ≡ line.old ++ text_or (plain word) (spelled instr) }
    ensures longer { length line.new ≤ length line.old + 40 }
{
    match instr {
        Instr::Lui { rd, imm } => upper(Row::Lui.name(), rd, imm, line),
        Instr::Auipc { rd, imm } => upper(Row::Auipc.name(), rd, imm, line),
        Instr::Jal { rd, offset } => jump(Row::Jal.name(), rd, offset.value(), line),
        Instr::Jalr { rd, rs1, imm } => based(Row::Jalr.name(), rd, imm, rs1, line),
        Instr::Branch {
            op,
            rs1,
            rs2,
            offset,
        } => numbered(Row::Branch(op).name(), rs1, rs2, offset.value(), line),
        Instr::Load { op, rd, rs1, imm } => based(Row::Load(op).name(), rd, imm, rs1, line),
        Instr::Store { op, rs1, rs2, imm } => based(Row::Store(op).name(), rs2, imm, rs1, line),
        Instr::OpImm { op, rd, rs1, imm } => immediate(op, rd, rs1, imm, line),
        Instr::ShiftImm {
            op,
            rd,
            rs1,
            amount,
        } => shifted(Row::ShiftImm(op).name(), rd, rs1, amount, line),
        Instr::Op { op, rd, rs1, rs2 } => registers(Row::Op(op).name(), rd, rs1, rs2, line),
        Instr::Amo { .. } | Instr::LoadReserved { .. } | Instr::StoreConditional { .. } => {
            add_atomic(instr, line)
        }
        Instr::Fence { bits } if bits.value() == FULL_FENCE => line.put(Row::Fence.name()),
        Instr::Fence { .. } => add_plain(word, line),
        Instr::Ecall => line.put(Row::Ecall.name()),
        Instr::Ebreak => line.put(Row::Ebreak.name()),
        Instr::TBegin { offset } => begin(Row::TBegin.name(), offset, line),
        Instr::TCommit => line.put(Row::TCommit.name()),
        Instr::TAbort => line.put(Row::TAbort.name()),
    }
}

/// Adds the text of an atomic operation, LR or SC.
#[inline(never)]
fn add_atomic<const CAP: usize>(instr: Instr, line: &mut Line<CAP>)
    requires atomic { is_atomic instr ≡ true }
    requires room { length line.old + 40 ≤ CAP }
    ensures text { line.new ≡ line.old ++ text_or [] (spelled instr) }
    ensures longer { length line.new ≤ length line.old + 40 }
{
    match instr {
        Instr::Amo {
            op,
            rd,
            rs1,
            rs2,
            aq,
            rl,
        } => atomic(Row::Amo(op).name(), order(aq, rl), rd, rs2, rs1, line),
        Instr::LoadReserved { rd, rs1, aq, rl } => {
            indirect(Row::LoadReserved.name(), order(aq, rl), rd, rs1, line)
        }
        Instr::StoreConditional {
            rd,
            rs1,
            rs2,
            aq,
            rl,
        } => {
            let order = order(aq, rl);
            atomic(Row::StoreConditional.name(), order, rd, rs2, rs1, line)
        }
        _ => unreachable!(),
    }
}

/// Adds an operation with an immediate.
#[inline(always)]
fn immediate<const CAP: usize>(op: ImmOp, rd: Reg, rs1: Reg, imm: Imm12, line: &mut Line<CAP>)
    requires { length line.old + 40 ≤ CAP }
    ensures text { line.new ≡ line.old ++ text_or [] (spelled (OpImm op rd rs1 imm)) }
    ensures longer { length line.new ≤ length line.old + 40 }
{
    numbered(Row::OpImm(op).name(), rd, rs1, imm.value(), line)
}

/// The bits of the fence that has a text: of all reads and writes before it, and all after it.
const FULL_FENCE: u32 = 0x3_fc00;
