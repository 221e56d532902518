ghost use Rattle.std.specs.Prelude.{◌≡◌, ◌<◌, ◌*◌, ◌/◌, ◌%◌, ◌^◌, ◌==◌};
ghost use Rattle.operands.specs.Fields.{opcode_of, rd_of, funct3_of, rs1_of, rs2_of, funct7_of, funct5_of, aq_of, rl_of, imm_i_of, imm_s_of, imm_b_of, imm_u_of, imm_j_of};

use crate::operand::{BranchOffset, Imm12, JumpOffset, UpperImm};
use words::Reg;

/// The number of a register as it stands in a field.
fn place(r: Reg) -> u32
    ensures value { result ≡ r }
    ensures bound { result < 32 }
{
    r.index() as u32
}

/// The word of the R format with these fields. Where rs2 stands, the shifts have their amount.
pub fn r_word(opcode: u32, rd: Reg, funct3: u32, rs1: Reg, rs2: u32, funct7: u32) -> u32
    requires opcode { opcode < 128 }
    requires funct3 { funct3 < 8 }
    requires rs2 { rs2 < 32 }
    requires funct7 { funct7 < 128 }
    ensures opcode { opcode_of result ≡ opcode }
    ensures rd { rd_of result ≡ rd }
    ensures funct3 { funct3_of result ≡ funct3 }
    ensures rs1 { rs1_of result ≡ rs1 }
    ensures rs2 { rs2_of result ≡ rs2 }
    ensures funct7 { funct7_of result ≡ funct7 }
{
    (funct7 << 25) + (rs2 << 20) + (place(rs1) << 15) + (funct3 << 12) + (place(rd) << 7) + opcode
}

/// The word of the R format with these fields, where funct5 and the bits aq and rl stand in funct7's place.
pub fn amo_word(
    opcode: u32,
    rd: Reg,
    funct3: u32,
    rs1: Reg,
    rs2: Reg,
    funct5: u32,
    aq: bool,
    rl: bool,
) -> u32
    requires opcode { opcode < 128 }
    requires funct3 { funct3 < 8 }
    requires funct5 { funct5 < 32 }
    ensures opcode { opcode_of result ≡ opcode }
    ensures rd { rd_of result ≡ rd }
    ensures funct3 { funct3_of result ≡ funct3 }
    ensures rs1 { rs1_of result ≡ rs1 }
    ensures rs2 { rs2_of result ≡ rs2 }
    ensures funct5 { funct5_of result ≡ funct5 }
    ensures aq { aq_of result ≡ aq }
    ensures rl { rl_of result ≡ rl }
{
    let order = (u32::from(aq) << 1) + u32::from(rl);
    r_word(opcode, rd, funct3, rs1, place(rs2), (funct5 << 2) + order)
}

/// The word of the I format with these fields.
pub fn i_word(opcode: u32, rd: Reg, funct3: u32, rs1: Reg, imm: Imm12) -> u32
    requires opcode { opcode < 128 }
    requires funct3 { funct3 < 8 }
    ensures opcode { opcode_of result ≡ opcode }
    ensures rd { rd_of result ≡ rd }
    ensures funct3 { funct3_of result ≡ funct3 }
    ensures rs1 { rs1_of result ≡ rs1 }
    ensures imm { imm_i_of result ≡ imm }
{
    ((imm.value() & 0xfff) << 20) + (place(rs1) << 15) + (funct3 << 12) + (place(rd) << 7) + opcode
}

/// The word of the S format with these fields.
pub fn s_word(opcode: u32, funct3: u32, rs1: Reg, rs2: Reg, imm: Imm12) -> u32
    requires opcode { opcode < 128 }
    requires funct3 { funct3 < 8 }
    ensures opcode { opcode_of result ≡ opcode }
    ensures funct3 { funct3_of result ≡ funct3 }
    ensures rs1 { rs1_of result ≡ rs1 }
    ensures rs2 { rs2_of result ≡ rs2 }
    ensures imm { imm_s_of result ≡ imm }
{
    let bits = imm.value();
    (((bits >> 5) & 0x7f) << 25)
        + (place(rs2) << 20)
        + (place(rs1) << 15)
        + (funct3 << 12)
        + ((bits & 0x1f) << 7)
        + opcode
}

/// The word of the B format with these fields.
pub fn b_word(opcode: u32, funct3: u32, rs1: Reg, rs2: Reg, offset: BranchOffset) -> u32
    requires opcode { opcode < 128 }
    requires funct3 { funct3 < 8 }
    ensures opcode { opcode_of result ≡ opcode }
    ensures funct3 { funct3_of result ≡ funct3 }
    ensures rs1 { rs1_of result ≡ rs1 }
    ensures rs2 { rs2_of result ≡ rs2 }
    ensures imm { imm_b_of result ≡ offset }
{
    let bits = offset.value();
    (((bits >> 12) & 1) << 31)
        + (((bits >> 5) & 0x3f) << 25)
        + (place(rs2) << 20)
        + (place(rs1) << 15)
        + (funct3 << 12)
        + (((bits >> 1) & 0xf) << 8)
        + (((bits >> 11) & 1) << 7)
        + opcode
}

/// The word of the U format with these fields.
pub fn u_word(opcode: u32, rd: Reg, imm: UpperImm) -> u32
    requires { opcode < 128 }
    ensures opcode { opcode_of result ≡ opcode }
    ensures rd { rd_of result ≡ rd }
    ensures imm { imm_u_of result ≡ imm }
{
    imm.value() + (place(rd) << 7) + opcode
}

/// The word of the J format with these fields.
pub fn j_word(opcode: u32, rd: Reg, offset: JumpOffset) -> u32
    requires { opcode < 128 }
    ensures opcode { opcode_of result ≡ opcode }
    ensures rd { rd_of result ≡ rd }
    ensures imm { imm_j_of result ≡ offset }
{
    let bits = offset.value();
    (((bits >> 20) & 1) << 31)
        + (((bits >> 1) & 0x3ff) << 21)
        + (((bits >> 11) & 1) << 20)
        + (((bits >> 12) & 0xff) << 12)
        + (place(rd) << 7)
        + opcode
}
