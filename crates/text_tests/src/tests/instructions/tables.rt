//! Values from outside: an assembler, a C compiler and the manual.

use table::AmoOp;
use words::Width;

/// What a compiled C program gives for these: a word over x5 and x6 that writes x7, x5, x6, and the value.
pub static VALUES: [(u32, u32, u32, u32); 121] = [
    (0x0062_83b3, 0x8000_0000, 0xffff_ffff, 0x7fff_ffff), // add x7, x5, x6
    (0x0062_83b3, 0x7fff_ffff, 1, 0x8000_0000), // add x7, x5, x6
    (0x0062_83b3, 0xdead_beef, 0xffff_fff1, 0xdead_bee0), // add x7, x5, x6
    (0x0062_83b3, 5, 5, 0xa), // add x7, x5, x6
    (0x4062_83b3, 0x8000_0000, 0xffff_ffff, 0x8000_0001), // sub x7, x5, x6
    (0x4062_83b3, 0x7fff_ffff, 1, 0x7fff_fffe), // sub x7, x5, x6
    (0x4062_83b3, 0xdead_beef, 0xffff_fff1, 0xdead_befe), // sub x7, x5, x6
    (0x4062_83b3, 5, 5, 0), // sub x7, x5, x6
    (0x0062_93b3, 0x8000_0000, 0xffff_ffff, 0), // sll x7, x5, x6
    (0x0062_93b3, 0x7fff_ffff, 1, 0xffff_fffe), // sll x7, x5, x6
    (0x0062_93b3, 0xdead_beef, 0xffff_fff1, 0x7dde_0000), // sll x7, x5, x6
    (0x0062_93b3, 5, 5, 0xa0), // sll x7, x5, x6
    (0x0062_a3b3, 0x8000_0000, 0xffff_ffff, 1), // slt x7, x5, x6
    (0x0062_a3b3, 0x7fff_ffff, 1, 0), // slt x7, x5, x6
    (0x0062_a3b3, 0xdead_beef, 0xffff_fff1, 1), // slt x7, x5, x6
    (0x0062_a3b3, 5, 5, 0), // slt x7, x5, x6
    (0x0062_b3b3, 0x8000_0000, 0xffff_ffff, 1), // sltu x7, x5, x6
    (0x0062_b3b3, 0x7fff_ffff, 1, 0), // sltu x7, x5, x6
    (0x0062_b3b3, 0xdead_beef, 0xffff_fff1, 1), // sltu x7, x5, x6
    (0x0062_b3b3, 5, 5, 0), // sltu x7, x5, x6
    (0x0062_c3b3, 0x8000_0000, 0xffff_ffff, 0x7fff_ffff), // xor x7, x5, x6
    (0x0062_c3b3, 0x7fff_ffff, 1, 0x7fff_fffe), // xor x7, x5, x6
    (0x0062_c3b3, 0xdead_beef, 0xffff_fff1, 0x2152_411e), // xor x7, x5, x6
    (0x0062_c3b3, 5, 5, 0), // xor x7, x5, x6
    (0x0062_d3b3, 0x8000_0000, 0xffff_ffff, 1), // srl x7, x5, x6
    (0x0062_d3b3, 0x7fff_ffff, 1, 0x3fff_ffff), // srl x7, x5, x6
    (0x0062_d3b3, 0xdead_beef, 0xffff_fff1, 0x6f56), // srl x7, x5, x6
    (0x0062_d3b3, 5, 5, 0), // srl x7, x5, x6
    (0x4062_d3b3, 0x8000_0000, 0xffff_ffff, 0xffff_ffff), // sra x7, x5, x6
    (0x4062_d3b3, 0x7fff_ffff, 1, 0x3fff_ffff), // sra x7, x5, x6
    (0x4062_d3b3, 0xdead_beef, 0xffff_fff1, 0xffff_ef56), // sra x7, x5, x6
    (0x4062_d3b3, 5, 5, 0), // sra x7, x5, x6
    (0x0062_e3b3, 0x8000_0000, 0xffff_ffff, 0xffff_ffff), // or x7, x5, x6
    (0x0062_e3b3, 0x7fff_ffff, 1, 0x7fff_ffff), // or x7, x5, x6
    (0x0062_e3b3, 0xdead_beef, 0xffff_fff1, 0xffff_ffff), // or x7, x5, x6
    (0x0062_e3b3, 5, 5, 5), // or x7, x5, x6
    (0x0062_f3b3, 0x8000_0000, 0xffff_ffff, 0x8000_0000), // and x7, x5, x6
    (0x0062_f3b3, 0x7fff_ffff, 1, 1), // and x7, x5, x6
    (0x0062_f3b3, 0xdead_beef, 0xffff_fff1, 0xdead_bee1), // and x7, x5, x6
    (0x0062_f3b3, 5, 5, 5), // and x7, x5, x6
    (0xfff2_8393, 0x8000_0000, 0, 0x7fff_ffff), // addi x7, x5, -1
    (0x0012_8393, 0x7fff_ffff, 0, 0x8000_0000), // addi x7, x5, 1
    (0x8002_8393, 0xdead_beef, 0, 0xdead_b6ef), // addi x7, x5, -2048
    (0xfff2_8393, 0x1000, 0, 0xfff), // addi x7, x5, -1
    (0xfff2_a393, 0x8000_0000, 0, 1), // slti x7, x5, -1
    (0x0012_a393, 0x7fff_ffff, 0, 0), // slti x7, x5, 1
    (0x8002_a393, 0xdead_beef, 0, 1), // slti x7, x5, -2048
    (0xfff2_a393, 0x1000, 0, 0), // slti x7, x5, -1
    (0xfff2_b393, 0x8000_0000, 0, 1), // sltiu x7, x5, -1
    (0x0012_b393, 0x7fff_ffff, 0, 0), // sltiu x7, x5, 1
    (0x8002_b393, 0xdead_beef, 0, 1), // sltiu x7, x5, -2048
    (0xfff2_b393, 0x1000, 0, 1), // sltiu x7, x5, -1
    (0xfff2_c393, 0x8000_0000, 0, 0x7fff_ffff), // xori x7, x5, -1
    (0x0012_c393, 0x7fff_ffff, 0, 0x7fff_fffe), // xori x7, x5, 1
    (0x8002_c393, 0xdead_beef, 0, 0x2152_46ef), // xori x7, x5, -2048
    (0xfff2_c393, 0x1000, 0, 0xffff_efff), // xori x7, x5, -1
    (0xfff2_e393, 0x8000_0000, 0, 0xffff_ffff), // ori x7, x5, -1
    (0x0012_e393, 0x7fff_ffff, 0, 0x7fff_ffff), // ori x7, x5, 1
    (0x8002_e393, 0xdead_beef, 0, 0xffff_feef), // ori x7, x5, -2048
    (0xfff2_e393, 0x1000, 0, 0xffff_ffff), // ori x7, x5, -1
    (0xfff2_f393, 0x8000_0000, 0, 0x8000_0000), // andi x7, x5, -1
    (0x0012_f393, 0x7fff_ffff, 0, 1), // andi x7, x5, 1
    (0x8002_f393, 0xdead_beef, 0, 0xdead_b800), // andi x7, x5, -2048
    (0xfff2_f393, 0x1000, 0, 0x1000), // andi x7, x5, -1
    (0x01f2_9393, 0x8000_0001, 0, 0x8000_0000), // slli x7, x5, 31
    (0x0042_9393, 0xdead_beef, 0, 0xeadb_eef0), // slli x7, x5, 4
    (0x0002_9393, 0x7fff_ffff, 0, 0x7fff_ffff), // slli x7, x5, 0
    (0x01f2_d393, 0x8000_0001, 0, 1), // srli x7, x5, 31
    (0x0042_d393, 0xdead_beef, 0, 0x0dea_dbee), // srli x7, x5, 4
    (0x0002_d393, 0x7fff_ffff, 0, 0x7fff_ffff), // srli x7, x5, 0
    (0x41f2_d393, 0x8000_0001, 0, 0xffff_ffff), // srai x7, x5, 31
    (0x4042_d393, 0xdead_beef, 0, 0xfdea_dbee), // srai x7, x5, 4
    (0x4002_d393, 0x7fff_ffff, 0, 0x7fff_ffff), // srai x7, x5, 0
    (0x0262_83b3, 0x8000_0000, 0xffff_ffff, 0x8000_0000), // mul x7, x5, x6
    (0x0262_83b3, 0x7fff_ffff, 1, 0x7fff_ffff), // mul x7, x5, x6
    (0x0262_83b3, 0xdead_beef, 0xffff_fff1, 0xf3d1_cfff), // mul x7, x5, x6
    (0x0262_83b3, 5, 5, 0x19), // mul x7, x5, x6
    (0x0262_83b3, 0xffff_fff9, 2, 0xffff_fff2), // mul x7, x5, x6
    (0x0262_83b3, 0xffff_fff9, 0, 0), // mul x7, x5, x6
    (0x0262_93b3, 0x8000_0000, 0xffff_ffff, 0), // mulh x7, x5, x6
    (0x0262_93b3, 0x7fff_ffff, 1, 0), // mulh x7, x5, x6
    (0x0262_93b3, 0xdead_beef, 0xffff_fff1, 1), // mulh x7, x5, x6
    (0x0262_93b3, 5, 5, 0), // mulh x7, x5, x6
    (0x0262_93b3, 0xffff_fff9, 2, 0xffff_ffff), // mulh x7, x5, x6
    (0x0262_93b3, 0xffff_fff9, 0, 0), // mulh x7, x5, x6
    (0x0262_a3b3, 0x8000_0000, 0xffff_ffff, 0x8000_0000), // mulhsu x7, x5, x6
    (0x0262_a3b3, 0x7fff_ffff, 1, 0), // mulhsu x7, x5, x6
    (0x0262_a3b3, 0xdead_beef, 0xffff_fff1, 0xdead_bef0), // mulhsu x7, x5, x6
    (0x0262_a3b3, 5, 5, 0), // mulhsu x7, x5, x6
    (0x0262_a3b3, 0xffff_fff9, 2, 0xffff_ffff), // mulhsu x7, x5, x6
    (0x0262_a3b3, 0xffff_fff9, 0, 0), // mulhsu x7, x5, x6
    (0x0262_b3b3, 0x8000_0000, 0xffff_ffff, 0x7fff_ffff), // mulhu x7, x5, x6
    (0x0262_b3b3, 0x7fff_ffff, 1, 0), // mulhu x7, x5, x6
    (0x0262_b3b3, 0xdead_beef, 0xffff_fff1, 0xdead_bee1), // mulhu x7, x5, x6
    (0x0262_b3b3, 5, 5, 0), // mulhu x7, x5, x6
    (0x0262_b3b3, 0xffff_fff9, 2, 1), // mulhu x7, x5, x6
    (0x0262_b3b3, 0xffff_fff9, 0, 0), // mulhu x7, x5, x6
    (0x0262_c3b3, 0x8000_0000, 0xffff_ffff, 0x8000_0000), // div x7, x5, x6
    (0x0262_c3b3, 0x7fff_ffff, 1, 0x7fff_ffff), // div x7, x5, x6
    (0x0262_c3b3, 0xdead_beef, 0xffff_fff1, 0x0238_af01), // div x7, x5, x6
    (0x0262_c3b3, 5, 5, 1), // div x7, x5, x6
    (0x0262_c3b3, 0xffff_fff9, 2, 0xffff_fffd), // div x7, x5, x6
    (0x0262_c3b3, 0xffff_fff9, 0, 0xffff_ffff), // div x7, x5, x6
    (0x0262_d3b3, 0x8000_0000, 0xffff_ffff, 0), // divu x7, x5, x6
    (0x0262_d3b3, 0x7fff_ffff, 1, 0x7fff_ffff), // divu x7, x5, x6
    (0x0262_d3b3, 0xdead_beef, 0xffff_fff1, 0), // divu x7, x5, x6
    (0x0262_d3b3, 5, 5, 1), // divu x7, x5, x6
    (0x0262_d3b3, 0xffff_fff9, 2, 0x7fff_fffc), // divu x7, x5, x6
    (0x0262_d3b3, 0xffff_fff9, 0, 0xffff_ffff), // divu x7, x5, x6
    (0x0262_e3b3, 0x8000_0000, 0xffff_ffff, 0), // rem x7, x5, x6
    (0x0262_e3b3, 0x7fff_ffff, 1, 0), // rem x7, x5, x6
    (0x0262_e3b3, 0xdead_beef, 0xffff_fff1, 0xffff_fffe), // rem x7, x5, x6
    (0x0262_e3b3, 5, 5, 0), // rem x7, x5, x6
    (0x0262_e3b3, 0xffff_fff9, 2, 0xffff_ffff), // rem x7, x5, x6
    (0x0262_e3b3, 0xffff_fff9, 0, 0xffff_fff9), // rem x7, x5, x6
    (0x0262_f3b3, 0x8000_0000, 0xffff_ffff, 0x8000_0000), // remu x7, x5, x6
    (0x0262_f3b3, 0x7fff_ffff, 1, 0), // remu x7, x5, x6
    (0x0262_f3b3, 0xdead_beef, 0xffff_fff1, 0xdead_beef), // remu x7, x5, x6
    (0x0262_f3b3, 5, 5, 0), // remu x7, x5, x6
    (0x0262_f3b3, 0xffff_fff9, 2, 1), // remu x7, x5, x6
    (0x0262_f3b3, 0xffff_fff9, 0, 0xffff_fff9), // remu x7, x5, x6
];

/// Branches over x5 and x6 by 16 bytes: the word, x5, x6, and whether the branch is taken.
pub static BRANCHES: [(u32, u32, u32, bool); 18] = [
    (0x0062_8863, 0x8000_0000, 1, false), // beq x5, x6, 16
    (0x0062_8863, 1, 0x8000_0000, false), // beq x5, x6, 16
    (0x0062_8863, 7, 7, true), // beq x5, x6, 16
    (0x0062_9863, 0x8000_0000, 1, true), // bne x5, x6, 16
    (0x0062_9863, 1, 0x8000_0000, true), // bne x5, x6, 16
    (0x0062_9863, 7, 7, false), // bne x5, x6, 16
    (0x0062_c863, 0x8000_0000, 1, true), // blt x5, x6, 16
    (0x0062_c863, 1, 0x8000_0000, false), // blt x5, x6, 16
    (0x0062_c863, 7, 7, false), // blt x5, x6, 16
    (0x0062_d863, 0x8000_0000, 1, false), // bge x5, x6, 16
    (0x0062_d863, 1, 0x8000_0000, true), // bge x5, x6, 16
    (0x0062_d863, 7, 7, true), // bge x5, x6, 16
    (0x0062_e863, 0x8000_0000, 1, false), // bltu x5, x6, 16
    (0x0062_e863, 1, 0x8000_0000, true), // bltu x5, x6, 16
    (0x0062_e863, 7, 7, false), // bltu x5, x6, 16
    (0x0062_f863, 0x8000_0000, 1, true), // bgeu x5, x6, 16
    (0x0062_f863, 1, 0x8000_0000, false), // bgeu x5, x6, 16
    (0x0062_f863, 7, 7, true), // bgeu x5, x6, 16
];

/// What a compiled C program gives for these: a word that operates on memory at x5 with x6, its operation, the old word there, x6, and the
/// new word.
pub static ATOMICS: [(u32, AmoOp, u32, u32, u32); 45] = [
    (0x0062_a3af, AmoOp::Add, 0xffff_ffff, 1, 0), // amoadd.w x7, x6, (x5)
    (0x0062_a3af, AmoOp::Add, 1, 0xffff_ffff, 0), // amoadd.w x7, x6, (x5)
    (
        0x0062_a3af,
        AmoOp::Add,
        0x8000_0000,
        0x7fff_ffff,
        0xffff_ffff,
    ), // amoadd.w x7, x6, (x5)
    (
        0x0062_a3af,
        AmoOp::Add,
        0xdead_beef,
        0xffff_fff1,
        0xdead_bee0,
    ), // amoadd.w x7, x6, (x5)
    (0x0062_a3af, AmoOp::Add, 5, 5, 0xa), // amoadd.w x7, x6, (x5)
    (0x0862_a3af, AmoOp::Swap, 0xffff_ffff, 1, 1), // amoswap.w x7, x6, (x5)
    (0x0862_a3af, AmoOp::Swap, 1, 0xffff_ffff, 0xffff_ffff), // amoswap.w x7, x6, (x5)
    (
        0x0862_a3af,
        AmoOp::Swap,
        0x8000_0000,
        0x7fff_ffff,
        0x7fff_ffff,
    ), // amoswap.w x7, x6, (x5)
    (
        0x0862_a3af,
        AmoOp::Swap,
        0xdead_beef,
        0xffff_fff1,
        0xffff_fff1,
    ), // amoswap.w x7, x6, (x5)
    (0x0862_a3af, AmoOp::Swap, 5, 5, 5), // amoswap.w x7, x6, (x5)
    (0x2062_a3af, AmoOp::Xor, 0xffff_ffff, 1, 0xffff_fffe), // amoxor.w x7, x6, (x5)
    (0x2062_a3af, AmoOp::Xor, 1, 0xffff_ffff, 0xffff_fffe), // amoxor.w x7, x6, (x5)
    (
        0x2062_a3af,
        AmoOp::Xor,
        0x8000_0000,
        0x7fff_ffff,
        0xffff_ffff,
    ), // amoxor.w x7, x6, (x5)
    (
        0x2062_a3af,
        AmoOp::Xor,
        0xdead_beef,
        0xffff_fff1,
        0x2152_411e,
    ), // amoxor.w x7, x6, (x5)
    (0x2062_a3af, AmoOp::Xor, 5, 5, 0), // amoxor.w x7, x6, (x5)
    (0x4062_a3af, AmoOp::Or, 0xffff_ffff, 1, 0xffff_ffff), // amoor.w x7, x6, (x5)
    (0x4062_a3af, AmoOp::Or, 1, 0xffff_ffff, 0xffff_ffff), // amoor.w x7, x6, (x5)
    (
        0x4062_a3af,
        AmoOp::Or,
        0x8000_0000,
        0x7fff_ffff,
        0xffff_ffff,
    ), // amoor.w x7, x6, (x5)
    (
        0x4062_a3af,
        AmoOp::Or,
        0xdead_beef,
        0xffff_fff1,
        0xffff_ffff,
    ), // amoor.w x7, x6, (x5)
    (0x4062_a3af, AmoOp::Or, 5, 5, 5), // amoor.w x7, x6, (x5)
    (0x6062_a3af, AmoOp::And, 0xffff_ffff, 1, 1), // amoand.w x7, x6, (x5)
    (0x6062_a3af, AmoOp::And, 1, 0xffff_ffff, 1), // amoand.w x7, x6, (x5)
    (0x6062_a3af, AmoOp::And, 0x8000_0000, 0x7fff_ffff, 0), // amoand.w x7, x6, (x5)
    (
        0x6062_a3af,
        AmoOp::And,
        0xdead_beef,
        0xffff_fff1,
        0xdead_bee1,
    ), // amoand.w x7, x6, (x5)
    (0x6062_a3af, AmoOp::And, 5, 5, 5), // amoand.w x7, x6, (x5)
    (0x8062_a3af, AmoOp::Min, 0xffff_ffff, 1, 0xffff_ffff), // amomin.w x7, x6, (x5)
    (0x8062_a3af, AmoOp::Min, 1, 0xffff_ffff, 0xffff_ffff), // amomin.w x7, x6, (x5)
    (
        0x8062_a3af,
        AmoOp::Min,
        0x8000_0000,
        0x7fff_ffff,
        0x8000_0000,
    ), // amomin.w x7, x6, (x5)
    (
        0x8062_a3af,
        AmoOp::Min,
        0xdead_beef,
        0xffff_fff1,
        0xdead_beef,
    ), // amomin.w x7, x6, (x5)
    (0x8062_a3af, AmoOp::Min, 5, 5, 5), // amomin.w x7, x6, (x5)
    (0xa062_a3af, AmoOp::Max, 0xffff_ffff, 1, 1), // amomax.w x7, x6, (x5)
    (0xa062_a3af, AmoOp::Max, 1, 0xffff_ffff, 1), // amomax.w x7, x6, (x5)
    (
        0xa062_a3af,
        AmoOp::Max,
        0x8000_0000,
        0x7fff_ffff,
        0x7fff_ffff,
    ), // amomax.w x7, x6, (x5)
    (
        0xa062_a3af,
        AmoOp::Max,
        0xdead_beef,
        0xffff_fff1,
        0xffff_fff1,
    ), // amomax.w x7, x6, (x5)
    (0xa062_a3af, AmoOp::Max, 5, 5, 5), // amomax.w x7, x6, (x5)
    (0xc062_a3af, AmoOp::Minu, 0xffff_ffff, 1, 1), // amominu.w x7, x6, (x5)
    (0xc062_a3af, AmoOp::Minu, 1, 0xffff_ffff, 1), // amominu.w x7, x6, (x5)
    (
        0xc062_a3af,
        AmoOp::Minu,
        0x8000_0000,
        0x7fff_ffff,
        0x7fff_ffff,
    ), // amominu.w x7, x6, (x5)
    (
        0xc062_a3af,
        AmoOp::Minu,
        0xdead_beef,
        0xffff_fff1,
        0xdead_beef,
    ), // amominu.w x7, x6, (x5)
    (0xc062_a3af, AmoOp::Minu, 5, 5, 5), // amominu.w x7, x6, (x5)
    (0xe062_a3af, AmoOp::Maxu, 0xffff_ffff, 1, 0xffff_ffff), // amomaxu.w x7, x6, (x5)
    (0xe062_a3af, AmoOp::Maxu, 1, 0xffff_ffff, 0xffff_ffff), // amomaxu.w x7, x6, (x5)
    (
        0xe062_a3af,
        AmoOp::Maxu,
        0x8000_0000,
        0x7fff_ffff,
        0x8000_0000,
    ), // amomaxu.w x7, x6, (x5)
    (
        0xe062_a3af,
        AmoOp::Maxu,
        0xdead_beef,
        0xffff_fff1,
        0xffff_fff1,
    ), // amomaxu.w x7, x6, (x5)
    (0xe062_a3af, AmoOp::Maxu, 5, 5, 5), // amomaxu.w x7, x6, (x5)
];

/// What an assembler (LLVM 14, for riscv32) made of the lines below. The words of custom-0 were written by `.insn`.
pub static WORDS: [u32; 159] = [
    0x0050_0093,
    0xfe20_8ee3,
    0x1234_6537,
    0xfff5_0513,
    0x0000_1537,
    0x8000_0513,
    0xfff5_b513,
    0x0000_0137,
    0x8000_0eb7,
    0x0000_15b7,
    0x0000_1297,
    0x8000_0317,
    0x0000_0697,
    0x0020_076f,
    0x672c_6f6f,
    0x89e2_586f,
    0x0020_0cef,
    0x0010_06ef,
    0xbe9b_0867,
    0x3002_03e7,
    0xfffa_87e7,
    0x6b0f_87e3,
    0x7f27_8fe3,
    0xffd9_0fe3,
    0x5428_9363,
    0xffc7_9fe3,
    0x7e2e_9fe3,
    0x7f03_c0e3,
    0xffe0_cfe3,
    0x7e5d_cfe3,
    0x7e12_5fe3,
    0x7f4b_5fe3,
    0x800e_5063,
    0x9ba9_6ae3,
    0x9b93_6663,
    0x00ac_6163,
    0x00f8_7163,
    0xa236_7de3,
    0x8141_f063,
    0x0012_0683,
    0x7fff_0a83,
    0xfff6_8083,
    0x0013_9003,
    0xfffa_9e83,
    0x5646_1f03,
    0x8000_2603,
    0x7ff1_ac83,
    0xfff8_2f83,
    0x800b_4683,
    0x001a_4b03,
    0xfffc_4883,
    0x7ff7_5983,
    0x7fff_5a03,
    0x000b_5e83,
    0xfeaa_0fa3,
    0x002e_0023,
    0x8141_0023,
    0x00a3_9023,
    0xb13f_18a3,
    0x1d58_1aa3,
    0x7f0e_2fa3,
    0xffca_2fa3,
    0x0180_2023,
    0xfff7_8e93,
    0xfff2_0f93,
    0x0007_8b93,
    0x8003_a313,
    0x0017_2713,
    0x800a_ac13,
    0xe924_bb13,
    0x0016_bb13,
    0x8d20_3113,
    0x7ff8_4f13,
    0x7ffc_4813,
    0x001d_c513,
    0xfffb_ea93,
    0x000f_e793,
    0x0007_6b13,
    0x7ff1_7713,
    0x800c_7313,
    0x0009_f293,
    0x008c_9013,
    0x0005_9113,
    0x0056_1b13,
    0x01a4_d593,
    0x01c8_d293,
    0x0159_df93,
    0x4114_d413,
    0x4116_5093,
    0x40c6_d993,
    0x0038_88b3,
    0x0040_0533,
    0x01bf_0633,
    0x4137_8fb3,
    0x411a_0533,
    0x4177_0b33,
    0x00a7_9a33,
    0x0135_9133,
    0x01c6_9033,
    0x0163_22b3,
    0x0061_22b3,
    0x0112_a733,
    0x0104_bdb3,
    0x00fc_b433,
    0x00c6_3a33,
    0x001b_c6b3,
    0x0038_ccb3,
    0x00d3_4633,
    0x0146_dc33,
    0x0105_5eb3,
    0x002f_56b3,
    0x4182_55b3,
    0x41ef_d233,
    0x41c4_5e33,
    0x0192_e533,
    0x002d_eb33,
    0x0038_ebb3,
    0x0145_7333,
    0x01ea_fcb3,
    0x0116_77b3,
    0x0ff0_000f,
    0x0310_000f,
    0x0840_000f,
    0x0000_0073,
    0x0010_0073,
    0x0000_040b,
    0xfe00_0e8b,
    0x7e00_0e8b,
    0x8000_000b,
    0xfa00_0a8b,
    0x0000_100b,
    0x0000_200b,
    0x02c5_8533,
    0x02c5_9533,
    0x02c5_a533,
    0x02c5_b533,
    0x02c5_c533,
    0x02c5_d533,
    0x02c5_e533,
    0x02c5_f533,
    0x00b2_a52f,
    0x08b2_a52f,
    0x20b2_a52f,
    0x40b2_a52f,
    0x60b2_a52f,
    0x80b2_a52f,
    0xa0b2_a52f,
    0xc0b2_a52f,
    0xe0b2_a52f,
    0x1002_a52f,
    0x18b2_a52f,
    0x04b2_a52f,
    0x0a81_2faf,
    0xe7fd_a02f,
    0x1402_a52f,
    0x120d_a02f,
    0x1601_2faf,
    0x1a81_2faf,
    0x1ffd_a02f,
];

/// Each line is a name and three operands in the order rd, rs1, rs2, immediate, as far as the row has them, else 0. A
/// negative immediate stands as the 32-bit number; the two of a fence are its predecessor and its successor bits.
/// The last eight words have aq, rl or both, which their lines don't tell.
pub const LINES: &str = "\
addi 1 0 5\n\
beq 1 2 4294967292\n\
lui 10 74566 0\n\
addi 10 10 4294967295\n\
lui 10 1 0\n\
addi 10 0 4294965248\n\
sltiu 10 11 4294967295\n\
lui 2 0 0\n\
lui 29 524288 0\n\
lui 11 1 0\n\
auipc 5 1 0\n\
auipc 6 524288 0\n\
auipc 13 0 0\n\
jal 14 2 0\n\
jal 30 812658 0\n\
jal 16 4294070430 0\n\
jal 25 2 0\n\
jal 13 2048 0\n\
jalr 16 22 4294966249\n\
jalr 7 4 768\n\
jalr 15 21 4294967295\n\
beq 31 16 3758\n\
beq 15 18 4094\n\
beq 18 29 4294967294\n\
bne 17 2 1350\n\
bne 15 28 4294967294\n\
bne 29 2 4094\n\
blt 7 16 4064\n\
blt 1 30 4294967294\n\
blt 27 5 4094\n\
bge 4 1 4094\n\
bge 22 20 4094\n\
bge 28 0 4294963200\n\
bltu 18 26 4294965684\n\
bltu 6 25 4294963628\n\
bltu 24 10 2\n\
bgeu 16 15 2\n\
bgeu 12 3 4294965818\n\
bgeu 3 20 4294963200\n\
lb 13 4 1\n\
lb 21 30 2047\n\
lb 1 13 4294967295\n\
lh 0 7 1\n\
lh 29 21 4294967295\n\
lh 30 12 1380\n\
lw 12 0 4294965248\n\
lw 25 3 2047\n\
lw 31 16 4294967295\n\
lbu 13 22 4294965248\n\
lbu 22 20 1\n\
lbu 17 24 4294967295\n\
lhu 19 14 2047\n\
lhu 20 30 2047\n\
lhu 29 22 0\n\
sb 20 10 4294967295\n\
sb 28 2 0\n\
sb 2 20 4294965248\n\
sh 7 10 0\n\
sh 30 19 4294966033\n\
sh 16 21 469\n\
sw 28 16 2047\n\
sw 20 28 4294967295\n\
sw 0 24 0\n\
addi 29 15 4294967295\n\
addi 31 4 4294967295\n\
addi 23 15 0\n\
slti 6 7 4294965248\n\
slti 14 14 1\n\
slti 24 21 4294965248\n\
sltiu 22 9 4294966930\n\
sltiu 22 13 1\n\
sltiu 2 0 4294965458\n\
xori 30 16 2047\n\
xori 16 24 2047\n\
xori 10 27 1\n\
ori 21 23 4294967295\n\
ori 15 31 0\n\
ori 22 14 0\n\
andi 14 2 2047\n\
andi 6 24 4294965248\n\
andi 5 19 0\n\
slli 0 25 8\n\
slli 2 11 0\n\
slli 22 12 5\n\
srli 11 9 26\n\
srli 5 17 28\n\
srli 31 19 21\n\
srai 8 9 17\n\
srai 1 12 17\n\
srai 19 13 12\n\
add 17 17 3\n\
add 10 0 4\n\
add 12 30 27\n\
sub 31 15 19\n\
sub 10 20 17\n\
sub 22 14 23\n\
sll 20 15 10\n\
sll 2 11 19\n\
sll 0 13 28\n\
slt 5 6 22\n\
slt 5 2 6\n\
slt 14 5 17\n\
sltu 27 9 16\n\
sltu 8 25 15\n\
sltu 20 12 12\n\
xor 13 23 1\n\
xor 25 17 3\n\
xor 12 6 13\n\
srl 24 13 20\n\
srl 29 10 16\n\
srl 13 30 2\n\
sra 11 4 24\n\
sra 4 31 30\n\
sra 28 8 28\n\
or 10 5 25\n\
or 22 27 2\n\
or 23 17 3\n\
and 6 10 20\n\
and 25 21 30\n\
and 15 12 17\n\
fence 15 15 0\n\
fence 3 1 0\n\
fence 8 4 0\n\
ecall 0 0 0\n\
ebreak 0 0 0\n\
tbegin 8 0 0\n\
tbegin 4294967292 0 0\n\
tbegin 4092 0 0\n\
tbegin 4294963200 0 0\n\
tbegin 4294967220 0 0\n\
tcommit 0 0 0\n\
tabort 0 0 0\n\
mul 10 11 12\n\
mulh 10 11 12\n\
mulhsu 10 11 12\n\
mulhu 10 11 12\n\
div 10 11 12\n\
divu 10 11 12\n\
rem 10 11 12\n\
remu 10 11 12\n\
amoadd.w 10 5 11\n\
amoswap.w 10 5 11\n\
amoxor.w 10 5 11\n\
amoor.w 10 5 11\n\
amoand.w 10 5 11\n\
amomin.w 10 5 11\n\
amomax.w 10 5 11\n\
amominu.w 10 5 11\n\
amomaxu.w 10 5 11\n\
lr.w 10 5 0\n\
sc.w 10 5 11\n\
amoadd.w 10 5 11\n\
amoswap.w 31 2 8\n\
amomaxu.w 0 27 31\n\
lr.w 10 5 0\n\
lr.w 0 27 0\n\
lr.w 31 2 0\n\
sc.w 31 2 8\n\
sc.w 0 27 31\n\
";

/// Words of atomic operations, LR and SC, and LLVM's text of each (llvm-mc -triple=riscv32 -mattr=+m,+a, LLVM 14.0.6).
pub static SPELLED: [(u32, &str); 26] = [
    (0x1002_a52f, "lr.w a0, (t0)"),
    (0x1001_2faf, "lr.w t6, (sp)"),
    (0x100d_a02f, "lr.w zero, (s11)"),
    (0x1008_a42f, "lr.w s0, (a7)"),
    (0x18b2_a52f, "sc.w a0, a1, (t0)"),
    (0x1881_2faf, "sc.w t6, s0, (sp)"),
    (0x19fd_a02f, "sc.w zero, t6, (s11)"),
    (0x1808_a0af, "sc.w ra, zero, (a7)"),
    (0x1402_a52f, "lr.w.aq a0, (t0)"),
    (0x1202_a52f, "lr.w.rl a0, (t0)"),
    (0x1602_a52f, "lr.w.aqrl a0, (t0)"),
    (0x1cb2_a52f, "sc.w.aq a0, a1, (t0)"),
    (0x1ab2_a52f, "sc.w.rl a0, a1, (t0)"),
    (0x1eb2_a52f, "sc.w.aqrl a0, a1, (t0)"),
    (0x00b2_a52f, "amoadd.w a0, a1, (t0)"),
    (0x04b2_a52f, "amoadd.w.aq a0, a1, (t0)"),
    (0x02b2_a52f, "amoadd.w.rl a0, a1, (t0)"),
    (0x06b2_a52f, "amoadd.w.aqrl a0, a1, (t0)"),
    (0x0e81_2faf, "amoswap.w.aqrl t6, s0, (sp)"),
    (0x23fd_a02f, "amoxor.w.rl zero, t6, (s11)"),
    (0x4408_a0af, "amoor.w.aq ra, zero, (a7)"),
    (0x6691_a42f, "amoand.w.aqrl s0, s1, (gp)"),
    (0x85c2_28af, "amomin.w.aq a7, t3, (tp)"),
    (0xa3a3_a92f, "amomax.w.rl s2, s10, (t2)"),
    (0xc600_202f, "amominu.w.aqrl zero, zero, (zero)"),
    (0xe5b0_2d2f, "amomaxu.w.aq s10, s11, (zero)"),
];

/// Lines whose mnemonics LLVM refuses too: there is no such suffix, or the instruction has none.
pub static UNKNOWN: [&str; 12] = [
    "amoadd.w.rlaq a0, a1, (t0)",
    "amoadd.w.aq.rl a0, a1, (t0)",
    "amoadd.aq a0, a1, (t0)",
    "lr.w. a0, (t0)",
    "lr.w.aq.aq a0, (t0)",
    "sc.w.aqr a0, a1, (t0)",
    "sc.aqrl a0, a1, (t0)",
    "lw.aq a0, 0(t0)",
    "sw.rl a0, 0(t0)",
    "add.aqrl a0, a1, a2",
    "fence.aq",
    "nop.rl",
];

/// Words that are no instruction.
pub static ILLEGAL: [u32; 20] = [
    0x0000_0000,
    0xffff_ffff,
    0x0200_9093, // SLLI with a stray bit
    0x0000_100f, // FENCE.I
    0x0000_010b, // TBEGIN with offset 2
    0x0000_300b,
    0x0000_2063, // no branch has funct3 2
    0x0000_3003, // LD
    0x0000_3023, // SD
    0x0400_0033, // funct7 2
    0x1012_a52f, // LR.W with rs2 1
    0x17f2_a52f, // LR.W with aq, rl and rs2 31
    0x1002_b52f, // LR.D
    0x18b2_b52f, // SC.D
    0x28b2_a52f, // funct5 5
    0x00b2_b52f, // AMOADD.D
    0x0000_1067, // JALR with funct3 1
    0x0020_0073, // URET
    0x0000_00f3, // ECALL with rd 1
    0x0000_100a, // TCOMMIT with another opcode
];

/// Words that go on behind 0x1000, and the register that each writes with its new word.
pub static WRITES: [(u32, Option<(u8, u32)>); 4] = [
    (0x1234_6537, Some((10, 0x1234_6000))), // lui a0, 0x12346
    (0xffff_f297, Some((5, 0))), // auipc x5, 0xfffff
    (0x0012_8013, None), // addi x0, x5, 1
    (0x0000_1037, None), // lui x0, 1
];

/// Jumps at 0x1000 where x5 holds 0x2000: the word, the next pc, and the register that the link goes to.
pub static JUMPS: [(u32, u32, Option<u8>); 5] = [
    (0xffdf_f0ef, 0xffc, Some(1)), // jal x1, -4
    (0x0080_006f, 0x1008, None), // jal x0, 8
    (0x0012_82e7, 0x2000, Some(5)), // jalr x5, 1(x5)
    (0xffc2_8067, 0x1ffc, None), // jalr x0, -4(x5)
    (0x0062_8163, 0x1004, None), // beq x5, x6, 2, which is not taken
];

/// Jumps to an address that is no multiple of 4, where x5 holds 0x2000.
pub static MISALIGNED: [u32; 4] = [
    0x0020_00ef, // jal x1, 2
    0x0022_80e7, // jalr x1, 2(x5)
    0x0032_80e7, // jalr x1, 3(x5)
    0x0062_9163, // bne x5, x6, 2
];

/// Loads to x7 from -2(x5): the word, how many bytes it reads, and whether the number has a sign.
pub static LOADS: [(u32, Width, bool); 5] = [
    (0xffe2_8383, Width::Byte, true), // lb
    (0xffe2_9383, Width::Half, true), // lh
    (0xffe2_a383, Width::Word, false), // lw
    (0xffe2_c383, Width::Byte, false), // lbu
    (0xffe2_d383, Width::Half, false), // lhu
];

/// Stores of x6 to 4(x5), and how many bytes each writes.
pub static STORES: [(u32, Width); 3] = [
    (0x0062_8223, Width::Byte), // sb
    (0x0062_9223, Width::Half), // sh
    (0x0062_a223, Width::Word), // sw
];

/// Loads from the word 0x80ff7f01 at 0x100: the width, whether the number has a sign, the address, and what is loaded.
pub static LOADED: [(Width, bool, u32, u32); 9] = [
    (Width::Byte, true, 0x100, 0x01),
    (Width::Byte, true, 0x101, 0x7f),
    (Width::Byte, true, 0x102, 0xffff_ffff),
    (Width::Byte, true, 0x103, 0xffff_ff80),
    (Width::Byte, false, 0x103, 0x80),
    (Width::Half, true, 0x100, 0x7f01),
    (Width::Half, true, 0x102, 0xffff_80ff),
    (Width::Half, false, 0x102, 0x80ff),
    (Width::Word, false, 0x100, 0x80ff_7f01),
];
