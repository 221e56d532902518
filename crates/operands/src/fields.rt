ghost use Rattle.std.specs.Prelude.{◌≡◌, ◌<◌, ◌*◌, ◌/◌, ◌%◌, ◌^◌, ◌==◌, bit_and};
ghost use Rattle.operands.specs.Fields.{opcode_of, rd_of, funct3_of, rs1_of, rs2_of, funct7_of, funct5_of, aq_of, rl_of, imm_i_of, imm_s_of, imm_b_of, imm_u_of, imm_j_of, fence_bits_of};

use crate::operand::{AbortOffset, BranchOffset, FenceBits, Imm12, JumpOffset, Shamt, UpperImm};
use words::Reg;

pub fn opcode(word: u32) -> u32
    ensures { result ≡ opcode_of word }
{
    word & 0x7f
}

pub fn funct3(word: u32) -> u32
    ensures { result ≡ funct3_of word }
{
    (word >> 12) & 7
}

pub fn funct7(word: u32) -> u32
    ensures { result ≡ funct7_of word }
{
    word >> 25
}

/// What selects an atomic operation, above its bits aq and rl.
pub fn funct5(word: u32) -> u32
    ensures { result ≡ funct5_of word }
{
    word >> 27
}

/// Whether an atomic operation acquires.
pub fn aq(word: u32) -> bool
    ensures { result ≡ aq_of word }
{
    (word >> 26) & 1 == 1
}

/// Whether an atomic operation releases.
pub fn rl(word: u32) -> bool
    ensures { result ≡ rl_of word }
{
    (word >> 25) & 1 == 1
}

pub fn rd(word: u32) -> Reg
    ensures { result ≡ rd_of word }
{
    Reg::new(((word >> 7) & 0x1f) as u8)
}

pub fn rs1(word: u32) -> Reg
    ensures { result ≡ rs1_of word }
{
    Reg::new(((word >> 15) & 0x1f) as u8)
}

pub fn rs2(word: u32) -> Reg
    ensures { result ≡ rs2_of word }
{
    Reg::new(((word >> 20) & 0x1f) as u8)
}

/// The amount of a shift by an immediate, which stands where rs2 does.
pub fn shamt(word: u32) -> Shamt
    ensures { result ≡ rs2_of word }
{
    Shamt::new(((word >> 20) & 0x1f) as u8)
}

/// All ones above the lowest bits, if the word's highest bit is set.
fn sign_above(word: u32, ones: u32) -> u32
    ensures { result ≡ word / 2 ^ 31 * ones }
{
    if word >> 31 == 1 { ones } else { 0 }
}

pub fn imm_i(word: u32) -> Imm12
    ensures { result ≡ imm_i_of word }
{
    Imm12::new(sign_above(word, 0xffff_f000) + (word >> 20))
}

pub fn imm_s(word: u32) -> Imm12
    ensures { result ≡ imm_s_of word }
{
    Imm12::new(sign_above(word, 0xffff_f000) + ((word >> 25) << 5) + ((word >> 7) & 0x1f))
}

fn offset_bits(word: u32) -> u32
    ensures { result ≡ imm_b_of word }
{
    sign_above(word, 0xffff_f000)
        + (((word >> 7) & 1) << 11)
        + (((word >> 25) & 0x3f) << 5)
        + (((word >> 8) & 0xf) << 1)
}

pub fn imm_b(word: u32) -> BranchOffset
    ensures { result ≡ imm_b_of word }
{
    BranchOffset::new(offset_bits(word))
}

/// The offset of a word that TBEGIN's mask lets through.
#[tactic(auto, using(crate::proofs::Begin::offset_is_quarter))]
pub fn abort_offset(word: u32) -> AbortOffset
    requires { bit_and word 0x01fff17f ≡ 0x0000000b }
    ensures { result ≡ imm_b_of word }
{
    AbortOffset::new(offset_bits(word))
}

pub fn imm_u(word: u32) -> UpperImm
    ensures { result ≡ imm_u_of word }
{
    UpperImm::new((word >> 12) << 12)
}

pub fn imm_j(word: u32) -> JumpOffset
    ensures { result ≡ imm_j_of word }
{
    JumpOffset::new(
        sign_above(word, 0xfff0_0000)
            + (((word >> 12) & 0xff) << 12)
            + (((word >> 20) & 1) << 11)
            + (((word >> 21) & 0x3ff) << 1),
    )
}

/// The bits of a fence beside opcode and funct3.
pub fn fence_bits(word: u32) -> FenceBits
    ensures { result ≡ fence_bits_of word }
{
    FenceBits::new(((word >> 15) << 5) + ((word >> 7) & 0x1f))
}
