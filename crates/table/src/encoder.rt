ghost use Rattle.std.specs.Prelude.{◌≡◌, ◌<◌, ◌*◌, ◌/◌, ◌%◌, ◌^◌, ℕ, bit_and, Some};
ghost use Rattle.operands.specs.Fields.{opcode_of, rd_of, funct3_of, rs1_of, rs2_of, funct7_of, funct5_of, aq_of, rl_of, imm_i_of, imm_s_of, imm_b_of, imm_u_of, imm_j_of, fence_bits_of};
ghost use Rattle.table.specs.Groups.{IsAtomic};
ghost use Rattle.table.specs.Table.{decoded};

use crate::instr::{AluOp, AmoOp, BranchOp, ImmOp, Instr, LoadOp, ShiftOp, StoreOp};
use operands::{
    AbortOffset, BranchOffset, FenceBits, Imm12, Shamt, amo_word, b_word, i_word, j_word, r_word,
    s_word, u_word,
};
use words::Reg;

/// The word of an instruction: the only one that is decoded to it.
#[tactic(auto, using(crate::proofs::OneWord::one_word))]
pub fn encode(instr: Instr) -> u32
    ensures again { decoded result ≡ Some instr }
    ensures back { (w : ℕ) → w < 2 ^ 32 → decoded w ≡ Some instr → result ≡ w }
{
    word_of(instr)
}

#[tactic(auto, unfolding(crate::specs::Table::decoded))]
fn word_of(instr: Instr) -> u32
    ensures { decoded result ≡ Some instr }
{
    match instr {
        Instr::Lui { rd, imm } => u_word(0x37, rd, imm),
        Instr::Auipc { rd, imm } => u_word(0x17, rd, imm),
        Instr::Jal { rd, offset } => j_word(0x6f, rd, offset),
        Instr::Jalr { rd, rs1, imm } => i_word(0x67, rd, 0, rs1, imm),
        Instr::Branch {
            op,
            rs1,
            rs2,
            offset,
        } => encode_branch(op, rs1, rs2, offset),
        Instr::Load { op, rd, rs1, imm } => encode_load(op, rd, rs1, imm),
        Instr::Store { op, rs1, rs2, imm } => encode_store(op, rs1, rs2, imm),
        Instr::OpImm { op, rd, rs1, imm } => encode_op_imm(op, rd, rs1, imm),
        Instr::ShiftImm {
            op,
            rd,
            rs1,
            amount,
        } => encode_shift_imm(op, rd, rs1, amount),
        Instr::Op { op, rd, rs1, rs2 } => encode_op(op, rd, rs1, rs2),
        Instr::Amo { .. } | Instr::LoadReserved { .. } | Instr::StoreConditional { .. } => {
            atomic_word(instr)
        }
        Instr::Fence { bits } => fence_word(bits),
        Instr::Ecall => 0x0000_0073,
        Instr::Ebreak => 0x0010_0073,
        Instr::TBegin { offset } => begin_word(offset),
        Instr::TCommit => 0x0000_100b,
        Instr::TAbort => 0x0000_200b,
    }
}

/// The word of an atomic operation, LR or SC.
#[tactic(auto, unfolding(crate::specs::Table::decoded))]
fn atomic_word(instr: Instr) -> u32
    requires { IsAtomic instr }
    ensures { decoded result ≡ Some instr }
{
    match instr {
        Instr::Amo {
            op,
            rd,
            rs1,
            rs2,
            aq,
            rl,
        } => encode_amo(op, rd, rs1, rs2, aq, rl),
        Instr::LoadReserved { rd, rs1, aq, rl } => {
            amo_word(0x2f, rd, 2, rs1, Reg::new(0), 0x02, aq, rl)
        }
        Instr::StoreConditional {
            rd,
            rs1,
            rs2,
            aq,
            rl,
        } => amo_word(0x2f, rd, 2, rs1, rs2, 0x03, aq, rl),
        _ => unreachable!(),
    }
}

#[tactic(auto, unfolding(crate::specs::Table::decoded))]
fn encode_branch(op: BranchOp, rs1: Reg, rs2: Reg, offset: BranchOffset) -> u32
    ensures { decoded result ≡ Some (Instr.Branch op rs1 rs2 offset) }
{
    let funct3 = match op {
        BranchOp::Eq => 0,
        BranchOp::Ne => 1,
        BranchOp::Lt => 4,
        BranchOp::Ge => 5,
        BranchOp::Ltu => 6,
        BranchOp::Geu => 7,
    };
    b_word(0x63, funct3, rs1, rs2, offset)
}

#[tactic(auto, unfolding(crate::specs::Table::decoded))]
fn encode_load(op: LoadOp, rd: Reg, rs1: Reg, imm: Imm12) -> u32
    ensures { decoded result ≡ Some (Instr.Load op rd rs1 imm) }
{
    let funct3 = match op {
        LoadOp::Byte => 0,
        LoadOp::Half => 1,
        LoadOp::Word => 2,
        LoadOp::ByteUnsigned => 4,
        LoadOp::HalfUnsigned => 5,
    };
    i_word(0x03, rd, funct3, rs1, imm)
}

#[tactic(auto, unfolding(crate::specs::Table::decoded))]
fn encode_store(op: StoreOp, rs1: Reg, rs2: Reg, imm: Imm12) -> u32
    ensures { decoded result ≡ Some (Instr.Store op rs1 rs2 imm) }
{
    let funct3 = match op {
        StoreOp::Byte => 0,
        StoreOp::Half => 1,
        StoreOp::Word => 2,
    };
    s_word(0x23, funct3, rs1, rs2, imm)
}

#[tactic(auto, unfolding(crate::specs::Table::decoded))]
fn encode_op_imm(op: ImmOp, rd: Reg, rs1: Reg, imm: Imm12) -> u32
    ensures { decoded result ≡ Some (Instr.OpImm op rd rs1 imm) }
{
    let funct3 = match op {
        ImmOp::Add => 0,
        ImmOp::Slt => 2,
        ImmOp::Sltu => 3,
        ImmOp::Xor => 4,
        ImmOp::Or => 6,
        ImmOp::And => 7,
    };
    i_word(0x13, rd, funct3, rs1, imm)
}

#[tactic(auto, unfolding(crate::specs::Table::decoded))]
fn encode_shift_imm(op: ShiftOp, rd: Reg, rs1: Reg, amount: Shamt) -> u32
    ensures { decoded result ≡ Some (Instr.ShiftImm op rd rs1 amount) }
{
    let (funct3, funct7) = match op {
        ShiftOp::Sll => (1, 0),
        ShiftOp::Srl => (5, 0),
        ShiftOp::Sra => (5, 0x20),
    };
    r_word(0x13, rd, funct3, rs1, amount.value(), funct7)
}

#[tactic(auto, unfolding(crate::specs::Table::decoded))]
fn encode_op(op: AluOp, rd: Reg, rs1: Reg, rs2: Reg) -> u32
    ensures { decoded result ≡ Some (Instr.Op op rd rs1 rs2) }
{
    let (funct3, funct7) = match op {
        AluOp::Add => (0, 0),
        AluOp::Sub => (0, 0x20),
        AluOp::Sll => (1, 0),
        AluOp::Slt => (2, 0),
        AluOp::Sltu => (3, 0),
        AluOp::Xor => (4, 0),
        AluOp::Srl => (5, 0),
        AluOp::Sra => (5, 0x20),
        AluOp::Or => (6, 0),
        AluOp::And => (7, 0),
        AluOp::Mul => (0, 1),
        AluOp::Mulh => (1, 1),
        AluOp::Mulhsu => (2, 1),
        AluOp::Mulhu => (3, 1),
        AluOp::Div => (4, 1),
        AluOp::Divu => (5, 1),
        AluOp::Rem => (6, 1),
        AluOp::Remu => (7, 1),
    };
    r_word(0x33, rd, funct3, rs1, rs2.index() as u32, funct7)
}

#[tactic(auto, unfolding(crate::specs::Table::decoded))]
fn encode_amo(op: AmoOp, rd: Reg, rs1: Reg, rs2: Reg, aq: bool, rl: bool) -> u32
    ensures { decoded result ≡ Some (Instr.Amo op rd rs1 rs2 aq rl) }
{
    let funct5 = match op {
        AmoOp::Add => 0x00,
        AmoOp::Swap => 0x01,
        AmoOp::Xor => 0x04,
        AmoOp::Or => 0x08,
        AmoOp::And => 0x0c,
        AmoOp::Min => 0x10,
        AmoOp::Max => 0x14,
        AmoOp::Minu => 0x18,
        AmoOp::Maxu => 0x1c,
    };
    amo_word(0x2f, rd, 2, rs1, rs2, funct5, aq, rl)
}

fn fence_word(bits: FenceBits) -> u32
    ensures opcode { opcode_of result ≡ 0x0f }
    ensures funct3 { funct3_of result ≡ 0 }
    ensures bits { fence_bits_of result ≡ bits }
{
    ((bits.value() >> 5) << 15) + ((bits.value() & 0x1f) << 7) + 0x0f
}

/// A word of the B format in custom-0, with funct3 0 and x0 for both registers.
#[tactic(auto, using(operands::proofs::Begin::passes_mask))]
fn begin_word(offset: AbortOffset) -> u32
    ensures opcode { opcode_of result ≡ 0x0b }
    ensures masked { bit_and result 0x01fff17f ≡ 0x0000000b }
    ensures imm { imm_b_of result ≡ offset }
{
    let zero = Reg::new(0);
    b_word(0x0b, 0, zero, zero, BranchOffset::new(offset.value()))
}
