//! The fields of an instruction word, the operands that stand in them, and the words that formats make of them.
#![tactic(auto)]

mod fields;
mod formats;
mod operand;

pub use fields::{
    abort_offset, aq, fence_bits, funct3, funct5, funct7, imm_b, imm_i, imm_j, imm_s, imm_u,
    opcode, rd, rl, rs1, rs2, shamt,
};
pub use formats::{amo_word, b_word, i_word, j_word, r_word, s_word, u_word};
pub use operand::{AbortOffset, BranchOffset, FenceBits, Imm12, JumpOffset, Shamt, UpperImm};
