#![tactic(auto, unfolding(crate::specs::Table::decoded))]

ghost use Rattle.std.specs.Prelude.{◌≡◌};
ghost use Rattle.operands.specs.Fields.{opcode_of, funct3_of};
ghost use Rattle.table.specs.Table.{decoded, instr};
ghost use Rattle.table.specs.declared.instr.Row.TheVariants as row;

use crate::instr::{AluOp, AmoOp, BranchOp, ImmOp, Instr, LoadOp, ShiftOp, StoreOp};
use operands::{
    abort_offset, aq, fence_bits, funct3, funct5, funct7, imm_b, imm_i, imm_j, imm_s, imm_u,
    opcode, rd, rl, rs1, rs2, shamt,
};

/// The instruction that a word is, or `None` if it is none.
pub fn decode(word: u32) -> Option<Instr>
    ensures { result ≡ decoded word }
{
    match opcode(word) {
        0x37 => Some(Instr::Lui {
            rd: rd(word),
            imm: imm_u(word),
        }),
        0x17 => Some(Instr::Auipc {
            rd: rd(word),
            imm: imm_u(word),
        }),
        0x6f => Some(Instr::Jal {
            rd: rd(word),
            offset: imm_j(word),
        }),
        0x67 => decode_jalr(word),
        0x63 => decode_branch(word),
        0x03 => decode_load(word),
        0x23 => decode_store(word),
        0x13 => decode_op_imm(word),
        0x33 => decode_op(word),
        0x2f => decode_amo(word),
        0x0f => decode_fence(word),
        0x73 => decode_system(word),
        0x0b => decode_transaction(word),
        _ => None,
    }
}

fn decode_jalr(word: u32) -> Option<Instr>
    requires { opcode_of word ≡ 0x67 }
    ensures { result ≡ decoded word }
{
    match funct3(word) {
        0 => Some(Instr::Jalr {
            rd: rd(word),
            rs1: rs1(word),
            imm: imm_i(word),
        }),
        _ => None,
    }
}

fn decode_branch(word: u32) -> Option<Instr>
    requires { opcode_of word ≡ 0x63 }
    ensures { result ≡ decoded word }
{
    let op = match funct3(word) {
        0 => BranchOp::Eq,
        1 => BranchOp::Ne,
        4 => BranchOp::Lt,
        5 => BranchOp::Ge,
        6 => BranchOp::Ltu,
        7 => BranchOp::Geu,
        _ => return None,
    };
    Some(Instr::Branch {
        op,
        rs1: rs1(word),
        rs2: rs2(word),
        offset: imm_b(word),
    })
}

fn decode_load(word: u32) -> Option<Instr>
    requires { opcode_of word ≡ 0x03 }
    ensures { result ≡ decoded word }
{
    let op = match funct3(word) {
        0 => LoadOp::Byte,
        1 => LoadOp::Half,
        2 => LoadOp::Word,
        4 => LoadOp::ByteUnsigned,
        5 => LoadOp::HalfUnsigned,
        _ => return None,
    };
    Some(Instr::Load {
        op,
        rd: rd(word),
        rs1: rs1(word),
        imm: imm_i(word),
    })
}

fn decode_store(word: u32) -> Option<Instr>
    requires { opcode_of word ≡ 0x23 }
    ensures { result ≡ decoded word }
{
    let op = match funct3(word) {
        0 => StoreOp::Byte,
        1 => StoreOp::Half,
        2 => StoreOp::Word,
        _ => return None,
    };
    Some(Instr::Store {
        op,
        rs1: rs1(word),
        rs2: rs2(word),
        imm: imm_s(word),
    })
}

fn decode_op_imm(word: u32) -> Option<Instr>
    requires { opcode_of word ≡ 0x13 }
    ensures { result ≡ decoded word }
{
    let op = match funct3(word) {
        0 => ImmOp::Add,
        1 => return decode_shift_left(word),
        2 => ImmOp::Slt,
        3 => ImmOp::Sltu,
        4 => ImmOp::Xor,
        5 => return decode_shift_right(word),
        6 => ImmOp::Or,
        _ => ImmOp::And,
    };
    Some(Instr::OpImm {
        op,
        rd: rd(word),
        rs1: rs1(word),
        imm: imm_i(word),
    })
}

fn decode_shift_left(word: u32) -> Option<Instr>
    requires opcode { opcode_of word ≡ 0x13 }
    requires funct3 { funct3_of word ≡ 1 }
    ensures { result ≡ decoded word }
{
    match funct7(word) {
        0 => Some(Instr::ShiftImm {
            op: ShiftOp::Sll,
            rd: rd(word),
            rs1: rs1(word),
            amount: shamt(word),
        }),
        _ => None,
    }
}

fn decode_shift_right(word: u32) -> Option<Instr>
    requires opcode { opcode_of word ≡ 0x13 }
    requires funct3 { funct3_of word ≡ 5 }
    ensures { result ≡ decoded word }
{
    let op = match funct7(word) {
        0 => ShiftOp::Srl,
        0x20 => ShiftOp::Sra,
        _ => return None,
    };
    Some(Instr::ShiftImm {
        op,
        rd: rd(word),
        rs1: rs1(word),
        amount: shamt(word),
    })
}

fn decode_op(word: u32) -> Option<Instr>
    requires { opcode_of word ≡ 0x33 }
    ensures { result ≡ decoded word }
{
    let op = match (funct3(word), funct7(word)) {
        (0, 0) => AluOp::Add,
        (0, 0x20) => AluOp::Sub,
        (1, 0) => AluOp::Sll,
        (2, 0) => AluOp::Slt,
        (3, 0) => AluOp::Sltu,
        (4, 0) => AluOp::Xor,
        (5, 0) => AluOp::Srl,
        (5, 0x20) => AluOp::Sra,
        (6, 0) => AluOp::Or,
        (7, 0) => AluOp::And,
        (0, 1) => AluOp::Mul,
        (1, 1) => AluOp::Mulh,
        (2, 1) => AluOp::Mulhsu,
        (3, 1) => AluOp::Mulhu,
        (4, 1) => AluOp::Div,
        (5, 1) => AluOp::Divu,
        (6, 1) => AluOp::Rem,
        (7, 1) => AluOp::Remu,
        _ => return None,
    };
    Some(Instr::Op {
        op,
        rd: rd(word),
        rs1: rs1(word),
        rs2: rs2(word),
    })
}

fn decode_amo(word: u32) -> Option<Instr>
    requires { opcode_of word ≡ 0x2f }
    ensures { result ≡ decoded word }
{
    if funct3(word) != 2 {
        return None;
    }
    let op = match funct5(word) {
        0x00 => AmoOp::Add,
        0x01 => AmoOp::Swap,
        0x02 if rs2(word).index() == 0 => return Some(load_reserved(word)),
        0x03 => return Some(store_conditional(word)),
        0x04 => AmoOp::Xor,
        0x08 => AmoOp::Or,
        0x0c => AmoOp::And,
        0x10 => AmoOp::Min,
        0x14 => AmoOp::Max,
        0x18 => AmoOp::Minu,
        0x1c => AmoOp::Maxu,
        _ => return None,
    };
    Some(Instr::Amo {
        op,
        rd: rd(word),
        rs1: rs1(word),
        rs2: rs2(word),
        aq: aq(word),
        rl: rl(word),
    })
}

fn load_reserved(word: u32) -> Instr
    ensures { result ≡ instr row.LoadReserved word }
{
    let (rd, rs1) = (rd(word), rs1(word));
    let (aq, rl) = (aq(word), rl(word));
    Instr::LoadReserved { rd, rs1, aq, rl }
}

fn store_conditional(word: u32) -> Instr
    ensures { result ≡ instr row.StoreConditional word }
{
    let (rd, rs1, rs2) = (rd(word), rs1(word), rs2(word));
    let (aq, rl) = (aq(word), rl(word));
    Instr::StoreConditional {
        rd,
        rs1,
        rs2,
        aq,
        rl,
    }
}

fn decode_fence(word: u32) -> Option<Instr>
    requires { opcode_of word ≡ 0x0f }
    ensures { result ≡ decoded word }
{
    match funct3(word) {
        0 => Some(Instr::Fence {
            bits: fence_bits(word),
        }),
        _ => None,
    }
}

fn decode_system(word: u32) -> Option<Instr>
    requires { opcode_of word ≡ 0x73 }
    ensures { result ≡ decoded word }
{
    match word {
        0x0000_0073 => Some(Instr::Ecall),
        0x0010_0073 => Some(Instr::Ebreak),
        _ => None,
    }
}

fn decode_transaction(word: u32) -> Option<Instr>
    requires { opcode_of word ≡ 0x0b }
    ensures { result ≡ decoded word }
{
    match word {
        0x0000_100b => Some(Instr::TCommit),
        0x0000_200b => Some(Instr::TAbort),
        _ if word & 0x01ff_f17f == 0x0000_000b => Some(Instr::TBegin {
            offset: abort_offset(word),
        }),
        _ => None,
    }
}
