//! Words of instructions. Immediates and offsets are those of 32 bits, the negative ones modulo 2^32.

pub(crate) const ZERO: u32 = 0;

pub(crate) const T0: u32 = 5;

pub(crate) const T1: u32 = 6;

pub(crate) const T2: u32 = 7;

pub(crate) const A0: u32 = 10;

pub(crate) const A7: u32 = 17;

pub(crate) const ECALL: u32 = 0x0000_0073;

pub(crate) const EBREAK: u32 = 0x0010_0073;

pub(crate) const TCOMMIT: u32 = 0x0000_100b;

pub(crate) const TABORT: u32 = 0x0000_200b;

/// A word of three registers.
fn r_word(opcode: u32, funct3: u32, funct7: u32, rd: u32, rs1: u32, rs2: u32) -> u32 {
    opcode | (rd << 7) | (funct3 << 12) | (rs1 << 15) | (rs2 << 20) | (funct7 << 25)
}

/// A word of two registers and an immediate.
fn i_word(opcode: u32, funct3: u32, rd: u32, rs1: u32, imm: u32) -> u32 {
    opcode | (rd << 7) | (funct3 << 12) | (rs1 << 15) | (imm << 20)
}

/// A branch, or a begin.
fn b_word(opcode: u32, funct3: u32, rs1: u32, rs2: u32, offset: u32) -> u32 {
    let low = (((offset >> 1) & 0xf) << 8) | (((offset >> 11) & 1) << 7);
    let high = (((offset >> 5) & 0x3f) << 25) | (((offset >> 12) & 1) << 31);
    opcode | (funct3 << 12) | (rs1 << 15) | (rs2 << 20) | low | high
}

pub(crate) fn lui(rd: u32, upper: u32) -> u32 {
    0x37 | (rd << 7) | (upper << 12)
}

pub(crate) fn jal(rd: u32, offset: u32) -> u32 {
    let low = (((offset >> 12) & 0xff) << 12) | (((offset >> 11) & 1) << 20);
    let high = (((offset >> 1) & 0x3ff) << 21) | (((offset >> 20) & 1) << 31);
    0x6f | (rd << 7) | low | high
}

pub(crate) fn jalr(rd: u32, rs1: u32, imm: u32) -> u32 {
    i_word(0x67, 0, rd, rs1, imm)
}

/// The branches by number: 0 BEQ, 1 BNE, 4 BLT, 5 BGE, 6 BLTU, 7 BGEU.
pub(crate) fn branch(number: u32, rs1: u32, rs2: u32, offset: u32) -> u32 {
    b_word(0x63, number, rs1, rs2, offset)
}

pub(crate) fn bnez(rs1: u32, offset: u32) -> u32 {
    branch(1, rs1, ZERO, offset)
}

/// The loads by number: 0 LB, 1 LH, 2 LW, 4 LBU, 5 LHU.
pub(crate) fn load(number: u32, rd: u32, imm: u32, rs1: u32) -> u32 {
    i_word(0x03, number, rd, rs1, imm)
}

/// The stores by number: 0 SB, 1 SH, 2 SW.
pub(crate) fn store(number: u32, rs2: u32, imm: u32, rs1: u32) -> u32 {
    0x23 | (number << 12) | (rs1 << 15) | (rs2 << 20) | ((imm & 0x1f) << 7) | ((imm >> 5) << 25)
}

pub(crate) fn addi(rd: u32, rs1: u32, imm: u32) -> u32 {
    i_word(0x13, 0, rd, rs1, imm)
}

/// Puts a number of 12 bits into a register.
pub(crate) fn li(rd: u32, imm: u32) -> u32 {
    addi(rd, ZERO, imm)
}

/// The operations on two registers by number: 0 ADD, 1 SLL, 2 SLT, 3 SLTU, 4 XOR, 5 SRL, 6 OR, 7 AND.
pub(crate) fn op(number: u32, rd: u32, rs1: u32, rs2: u32) -> u32 {
    r_word(0x33, number, 0, rd, rs1, rs2)
}

/// The atomic operations by number: 0 AMOADD, 1 AMOSWAP, 4 AMOXOR, 8 AMOOR, 12 AMOAND, 16 AMOMIN, 20 AMOMAX, 24 AMOMINU, 28 AMOMAXU.
pub(crate) fn amo(number: u32, rd: u32, rs2: u32, rs1: u32) -> u32 {
    r_word(0x2f, 2, number << 2, rd, rs1, rs2)
}

pub(crate) fn load_reserved(rd: u32, rs1: u32) -> u32 {
    r_word(0x2f, 2, 8, rd, rs1, ZERO)
}

pub(crate) fn store_conditional(rd: u32, rs2: u32, rs1: u32) -> u32 {
    r_word(0x2f, 2, 12, rd, rs1, rs2)
}

/// A begin, after whose abort the hart goes on at this offset.
pub(crate) fn tbegin(offset: u32) -> u32 {
    b_word(0x0b, 0, 0, 0, offset)
}
