ghost use Rattle.std.specs.Prelude.{◌≡◌, ◌≤◌, length};
ghost use Rattle.table.specs.Atomics.{amo_row};
ghost use Rattle.table.specs.Table.{branch_row, load_row, store_row, imm_row, shift_row, op_row, name_of};

use operands::{AbortOffset, BranchOffset, FenceBits, Imm12, JumpOffset, Shamt, UpperImm};
use words::Reg;

/// The test of a branch.
#[derive(Clone, Copy, Debug, PartialEq, Eq)]
pub enum BranchOp {
    Eq,
    Ne,
    Lt,
    Ge,
    Ltu,
    Geu,
}

impl BranchOp {
    fn name(self) -> &'static str
        ensures name { result.now ≡ (branch_row self).name }
        ensures short { length result.now ≤ 9 }
    {
        match self {
            BranchOp::Eq => "beq",
            BranchOp::Ne => "bne",
            BranchOp::Lt => "blt",
            BranchOp::Ge => "bge",
            BranchOp::Ltu => "bltu",
            BranchOp::Geu => "bgeu",
        }
    }
}

/// What a load takes.
#[derive(Clone, Copy, Debug, PartialEq, Eq)]
pub enum LoadOp {
    Byte,
    Half,
    Word,
    ByteUnsigned,
    HalfUnsigned,
}

impl LoadOp {
    fn name(self) -> &'static str
        ensures name { result.now ≡ (load_row self).name }
        ensures short { length result.now ≤ 9 }
    {
        match self {
            LoadOp::Byte => "lb",
            LoadOp::Half => "lh",
            LoadOp::Word => "lw",
            LoadOp::ByteUnsigned => "lbu",
            LoadOp::HalfUnsigned => "lhu",
        }
    }
}

/// What a store puts.
#[derive(Clone, Copy, Debug, PartialEq, Eq)]
pub enum StoreOp {
    Byte,
    Half,
    Word,
}

impl StoreOp {
    fn name(self) -> &'static str
        ensures name { result.now ≡ (store_row self).name }
        ensures short { length result.now ≤ 9 }
    {
        match self {
            StoreOp::Byte => "sb",
            StoreOp::Half => "sh",
            StoreOp::Word => "sw",
        }
    }
}

/// An operation on a register and an immediate.
#[derive(Clone, Copy, Debug, PartialEq, Eq)]
pub enum ImmOp {
    Add,
    Slt,
    Sltu,
    Xor,
    Or,
    And,
}

impl ImmOp {
    fn name(self) -> &'static str
        ensures name { result.now ≡ (imm_row self).name }
        ensures short { length result.now ≤ 9 }
    {
        match self {
            ImmOp::Add => "addi",
            ImmOp::Slt => "slti",
            ImmOp::Sltu => "sltiu",
            ImmOp::Xor => "xori",
            ImmOp::Or => "ori",
            ImmOp::And => "andi",
        }
    }
}

/// A shift by an immediate.
#[derive(Clone, Copy, Debug, PartialEq, Eq)]
pub enum ShiftOp {
    Sll,
    Srl,
    Sra,
}

impl ShiftOp {
    fn name(self) -> &'static str
        ensures name { result.now ≡ (shift_row self).name }
        ensures short { length result.now ≤ 9 }
    {
        match self {
            ShiftOp::Sll => "slli",
            ShiftOp::Srl => "srli",
            ShiftOp::Sra => "srai",
        }
    }
}

/// An operation on two registers.
#[derive(Clone, Copy, Debug, PartialEq, Eq)]
pub enum AluOp {
    Add,
    Sub,
    Sll,
    Slt,
    Sltu,
    Xor,
    Srl,
    Sra,
    Or,
    And,
    Mul,
    Mulh,
    Mulhsu,
    Mulhu,
    Div,
    Divu,
    Rem,
    Remu,
}

impl AluOp {
    fn name(self) -> &'static str
        ensures name { result.now ≡ (op_row self).name }
        ensures short { length result.now ≤ 9 }
    {
        match self {
            AluOp::Add => "add",
            AluOp::Sub => "sub",
            AluOp::Sll => "sll",
            AluOp::Slt => "slt",
            AluOp::Sltu => "sltu",
            AluOp::Xor => "xor",
            AluOp::Srl => "srl",
            AluOp::Sra => "sra",
            AluOp::Or => "or",
            AluOp::And => "and",
            AluOp::Mul => "mul",
            AluOp::Mulh => "mulh",
            AluOp::Mulhsu => "mulhsu",
            AluOp::Mulhu => "mulhu",
            AluOp::Div => "div",
            AluOp::Divu => "divu",
            AluOp::Rem => "rem",
            AluOp::Remu => "remu",
        }
    }
}

/// An atomic operation on a word of memory.
#[derive(Clone, Copy, Debug, PartialEq, Eq)]
pub enum AmoOp {
    Add,
    Swap,
    Xor,
    Or,
    And,
    Min,
    Max,
    Minu,
    Maxu,
}

impl AmoOp {
    fn name(self) -> &'static str
        ensures name { result.now ≡ (amo_row self).name }
        ensures short { length result.now ≤ 9 }
    {
        match self {
            AmoOp::Add => "amoadd.w",
            AmoOp::Swap => "amoswap.w",
            AmoOp::Xor => "amoxor.w",
            AmoOp::Or => "amoor.w",
            AmoOp::And => "amoand.w",
            AmoOp::Min => "amomin.w",
            AmoOp::Max => "amomax.w",
            AmoOp::Minu => "amominu.w",
            AmoOp::Maxu => "amomaxu.w",
        }
    }
}

/// An instruction of RV32IMA (RISC-V Unprivileged ISA 20191213, chapters 2, 7 and 8), or one of the three words for transactions,
/// which stand in the custom-0 opcode. Each value has one word, and each word of a row one value.
#[derive(Clone, Copy, Debug, PartialEq, Eq)]
pub enum Instr {
    Lui {
        rd: Reg,
        imm: UpperImm,
    },
    Auipc {
        rd: Reg,
        imm: UpperImm,
    },
    Jal {
        rd: Reg,
        offset: JumpOffset,
    },
    Jalr {
        rd: Reg,
        rs1: Reg,
        imm: Imm12,
    },
    Branch {
        op: BranchOp,
        rs1: Reg,
        rs2: Reg,
        offset: BranchOffset,
    },
    Load {
        op: LoadOp,
        rd: Reg,
        rs1: Reg,
        imm: Imm12,
    },
    Store {
        op: StoreOp,
        rs1: Reg,
        rs2: Reg,
        imm: Imm12,
    },
    OpImm {
        op: ImmOp,
        rd: Reg,
        rs1: Reg,
        imm: Imm12,
    },
    ShiftImm {
        op: ShiftOp,
        rd: Reg,
        rs1: Reg,
        amount: Shamt,
    },
    Op {
        op: AluOp,
        rd: Reg,
        rs1: Reg,
        rs2: Reg,
    },
    /// `aq` and `rl` are kept and have no effect: each access is in order already.
    Amo {
        op: AmoOp,
        rd: Reg,
        rs1: Reg,
        rs2: Reg,
        aq: bool,
        rl: bool,
    },
    /// LR.W: a load that reserves its block.
    LoadReserved {
        rd: Reg,
        rs1: Reg,
        aq: bool,
        rl: bool,
    },
    /// SC.W: a store to a reserved block, if it succeeds.
    StoreConditional {
        rd: Reg,
        rs1: Reg,
        rs2: Reg,
        aq: bool,
        rl: bool,
    },
    Fence {
        bits: FenceBits,
    },
    Ecall,
    Ebreak,
    /// Begins a transaction, or goes one deeper; an abort goes on at pc + offset.
    TBegin {
        offset: AbortOffset,
    },
    TCommit,
    TAbort,
}

/// A row of the instruction table: an instruction without its operands.
#[derive(Clone, Copy, Debug, PartialEq, Eq)]
pub enum Row {
    Lui,
    Auipc,
    Jal,
    Jalr,
    Branch(BranchOp),
    Load(LoadOp),
    Store(StoreOp),
    OpImm(ImmOp),
    ShiftImm(ShiftOp),
    Op(AluOp),
    Amo(AmoOp),
    LoadReserved,
    StoreConditional,
    Fence,
    Ecall,
    Ebreak,
    TBegin,
    TCommit,
    TAbort,
}

impl Row {
    /// The mnemonic, as assemblers write it.
    pub fn name(self) -> &'static str
        ensures name { result.now ≡ name_of self }
        ensures short { length result.now ≤ 9 }
    {
        match self {
            Row::Lui => "lui",
            Row::Auipc => "auipc",
            Row::Jal => "jal",
            Row::Jalr => "jalr",
            Row::Branch(op) => op.name(),
            Row::Load(op) => op.name(),
            Row::Store(op) => op.name(),
            Row::OpImm(op) => op.name(),
            Row::ShiftImm(op) => op.name(),
            Row::Op(op) => op.name(),
            Row::Amo(op) => op.name(),
            Row::LoadReserved => "lr.w",
            Row::StoreConditional => "sc.w",
            Row::Fence => "fence",
            Row::Ecall => "ecall",
            Row::Ebreak => "ebreak",
            Row::TBegin => "tbegin",
            Row::TCommit => "tcommit",
            Row::TAbort => "tabort",
        }
    }
}

/// The rows of the table.
#[rattlefmt::skip]
pub(crate) const ROWS: [Row; 62] = [
    Row::Lui, Row::Auipc, Row::Jal, Row::Jalr,
    Row::Branch(BranchOp::Eq), Row::Branch(BranchOp::Ne), Row::Branch(BranchOp::Lt),
    Row::Branch(BranchOp::Ge), Row::Branch(BranchOp::Ltu), Row::Branch(BranchOp::Geu),
    Row::Load(LoadOp::Byte), Row::Load(LoadOp::Half), Row::Load(LoadOp::Word),
    Row::Load(LoadOp::ByteUnsigned), Row::Load(LoadOp::HalfUnsigned),
    Row::Store(StoreOp::Byte), Row::Store(StoreOp::Half), Row::Store(StoreOp::Word),
    Row::OpImm(ImmOp::Add), Row::OpImm(ImmOp::Slt), Row::OpImm(ImmOp::Sltu), Row::OpImm(ImmOp::Xor),
    Row::OpImm(ImmOp::Or), Row::OpImm(ImmOp::And),
    Row::ShiftImm(ShiftOp::Sll), Row::ShiftImm(ShiftOp::Srl), Row::ShiftImm(ShiftOp::Sra),
    Row::Op(AluOp::Add), Row::Op(AluOp::Sub), Row::Op(AluOp::Sll), Row::Op(AluOp::Slt),
    Row::Op(AluOp::Sltu), Row::Op(AluOp::Xor), Row::Op(AluOp::Srl), Row::Op(AluOp::Sra),
    Row::Op(AluOp::Or), Row::Op(AluOp::And), Row::Op(AluOp::Mul), Row::Op(AluOp::Mulh),
    Row::Op(AluOp::Mulhsu), Row::Op(AluOp::Mulhu), Row::Op(AluOp::Div), Row::Op(AluOp::Divu),
    Row::Op(AluOp::Rem), Row::Op(AluOp::Remu),
    Row::Amo(AmoOp::Add), Row::Amo(AmoOp::Swap), Row::Amo(AmoOp::Xor), Row::Amo(AmoOp::Or),
    Row::Amo(AmoOp::And), Row::Amo(AmoOp::Min), Row::Amo(AmoOp::Max), Row::Amo(AmoOp::Minu),
    Row::Amo(AmoOp::Maxu),
    Row::LoadReserved, Row::StoreConditional,
    Row::Fence, Row::Ecall, Row::Ebreak,
    Row::TBegin, Row::TCommit, Row::TAbort,
];
