mod tables;

use crate::tests::claims::{equal, equal_at, equal_items, equal_text, holds_at};
use assembler::{AsmFault, assemble};
use disassembler::text;
use std::alloc::{AllocError, Global};
use std::fmt::Write;
use std::process::Abort;
use std::test::Fail;
use table::{
    Act, AmoOp, Effect, Instr, Load, MemoryAct, Row, Segment, Store, Text, byte_count, decode,
    effect_at, encode, execute, extend_load, finish_amo, finish_load, finish_store, one_row,
    row_named, write_register, write_to,
};
use tables::{
    ATOMICS, BRANCHES, ILLEGAL, JUMPS, LINES, LOADED, LOADS, MISALIGNED, SPELLED, STORES, UNKNOWN,
    VALUES, WORDS, WRITES,
};
use words::{Addr, Cause, Reg, Regs, Width};

/// The row of an instruction.
fn row(instr: &Instr) -> Row {
    match *instr {
        Instr::Lui { .. } => Row::Lui,
        Instr::Auipc { .. } => Row::Auipc,
        Instr::Jal { .. } => Row::Jal,
        Instr::Jalr { .. } => Row::Jalr,
        Instr::Branch { op, .. } => Row::Branch(op),
        Instr::Load { op, .. } => Row::Load(op),
        Instr::Store { op, .. } => Row::Store(op),
        Instr::OpImm { op, .. } => Row::OpImm(op),
        Instr::ShiftImm { op, .. } => Row::ShiftImm(op),
        Instr::Op { op, .. } => Row::Op(op),
        Instr::Amo { op, .. } => Row::Amo(op),
        Instr::LoadReserved { .. } => Row::LoadReserved,
        Instr::StoreConditional { .. } => Row::StoreConditional,
        Instr::Fence { .. } => Row::Fence,
        Instr::Ecall => Row::Ecall,
        Instr::Ebreak => Row::Ebreak,
        Instr::TBegin { .. } => Row::TBegin,
        Instr::TCommit => Row::TCommit,
        Instr::TAbort => Row::TAbort,
    }
}

/// The operands of an instruction, in the order of the table `LINES`.
fn operands(instr: &Instr) -> [u32; 3] {
    match *instr {
        Instr::Lui { rd, imm } | Instr::Auipc { rd, imm } => [number(rd), imm.value() >> 12, 0],
        Instr::Jal { rd, offset } => [number(rd), offset.value(), 0],
        Instr::Jalr { rd, rs1, imm }
        | Instr::Load { rd, rs1, imm, .. }
        | Instr::OpImm { rd, rs1, imm, .. } => [number(rd), number(rs1), imm.value()],
        Instr::Branch {
            rs1,
            rs2,
            offset,
            ..
        } => [number(rs1), number(rs2), offset.value()],
        Instr::Store { rs1, rs2, imm, .. } => [number(rs1), number(rs2), imm.value()],
        Instr::ShiftImm {
            rd,
            rs1,
            amount,
            ..
        } => [number(rd), number(rs1), amount.value()],
        Instr::Op { rd, rs1, rs2, .. }
        | Instr::Amo { rd, rs1, rs2, .. }
        | Instr::StoreConditional { rd, rs1, rs2, .. } => [number(rd), number(rs1), number(rs2)],
        Instr::LoadReserved { rd, rs1, .. } => [number(rd), number(rs1), 0],
        Instr::Fence { bits } => [(bits.value() >> 14) & 0xf, (bits.value() >> 10) & 0xf, 0],
        Instr::TBegin { offset } => [offset.value(), 0, 0],
        Instr::Ecall | Instr::Ebreak | Instr::TCommit | Instr::TAbort => [0; 3],
    }
}

fn number(r: Reg) -> u32 {
    r.index() as u32
}

/// Asserts that an instruction is this word again, and that its row is found by its name.
fn check_encodes(rt: &impl Abort, instr: Instr, word: u32) {
    equal(rt, &encode(instr), &word);
    let row = row(&instr);
    equal(rt, &row_named(row.name().as_bytes()), &Some(row));
}

#[test]
fn other_names_have_no_row(rt: HostRuntime) {
    for name in [
        b"".as_slice(),
        b"ad",
        b"addx",
        b"ADD",
        b"mv",
        b"lr",
        b"lr.d",
        b"lr.w.aq",
        b"sc.d",
        b".word",
    ] {
        equal(&rt, &row_named(name), &None);
    }
}

/// Puts the lines of the words behind others, and asserts that each instruction is its word again.
fn put_lines(rt: &impl Abort, lines: &mut String) -> Result<(), Fail> {
    for &word in &WORDS {
        if let Some(instr) = decode(word) {
            let [a, b, c] = operands(&instr);
            writeln!(lines, "{} {a} {b} {c}", row(&instr).name())?;
            check_encodes(rt, instr, word);
        }
    }
    Ok(())
}

#[test]
fn words_are_the_assemblers(rt: HostRuntime) -> Result<(), Fail> {
    let mut lines = String::new(rt.alloc());
    put_lines(&rt, &mut lines)?;
    equal_text(&rt, lines.as_str(), LINES);
    Ok(())
}

/// Asserts that a word is no instruction, and has no effect.
fn check_illegal(rt: &impl Abort, word: u32) {
    equal_at(rt, &decode(word), &None, &word);
    equal_at(
        rt,
        &effect_at(word, Addr::new(0x1000), &Regs::new()),
        &Err(Cause::Illegal),
        &word,
    );
}

#[test]
fn other_words_are_illegal(rt: HostRuntime) {
    for &word in &ILLEGAL {
        check_illegal(&rt, word);
    }
}

#[test]
fn words_beside_the_illegal_ones_are_instructions(rt: HostRuntime) {
    for word in [0x8330_000f, 0x0000_100b, 0x0000_200b] {
        holds_at(&rt, decode(word).is_some(), &word);
    }
}

/// Registers that hold this value, but for x0.
fn filled(value: u32) -> Regs {
    let mut regs = Regs::new();
    for number in 1..32 {
        regs.write(Reg::new(number), value);
    }
    regs
}

/// Registers with these values in x5 and x6.
fn with_values(a: u32, b: u32) -> Regs {
    let mut regs = filled(0x0bad_0bad);
    regs.write(Reg::new(5), a);
    regs.write(Reg::new(6), b);
    regs
}

/// Asserts what a word at 0x1000 does over these values in x5 and x6.
fn check_effect(rt: &impl Abort, word: u32, (a, b): (u32, u32), want: Result<Effect, Cause>) {
    let regs = with_values(a, b);
    equal_at(
        rt,
        &effect_at(word, Addr::new(0x1000), &regs),
        &want,
        &(word, a, b),
    );
}

/// A register's number and the word that it is given.
fn write_of(write: Option<(u8, u32)>) -> Option<(Reg, u32)> {
    let (rd, value) = write?;
    Some((Reg::new(rd & 31), value))
}

fn goes_on(write: Option<(u8, u32)>, act: Act) -> Result<Effect, Cause> {
    Ok(Effect {
        next: Addr::new(0x1004),
        write: write_of(write),
        act,
    })
}

fn jumps(next: u32, write: Option<(u8, u32)>) -> Result<Effect, Cause> {
    Ok(Effect {
        next: Addr::new(next),
        write: write_of(write),
        act: Act::Nothing,
    })
}

#[test]
fn values_are_the_c_compilers(rt: HostRuntime) {
    for &(word, a, b, value) in &VALUES {
        check_effect(&rt, word, (a, b), goes_on(Some((7, value)), Act::Nothing));
    }
}

#[test]
fn branches_are_the_c_compilers(rt: HostRuntime) {
    for &(word, a, b, taken) in &BRANCHES {
        let next = if taken { 0x1010 } else { 0x1004 };
        check_effect(&rt, word, (a, b), jumps(next, None));
    }
}

/// What an atomic operation with this operand does to memory: it loads a word to x7 and stores one.
fn operates(op: AmoOp, b: u32) -> Act {
    Act::Memory(MemoryAct {
        addr: Addr::new(0x2004),
        width: Width::Word,
        load: Some(Load {
            rd: Reg::new(7),
            signed: false,
            reserves: false,
        }),
        store: Some(Store::Atomic(op, b)),
    })
}

/// Asserts the word that an atomic operation stores over an old one.
fn check_atomic(rt: &impl Abort, op: AmoOp, (old, b): (u32, u32), new: u32) {
    equal_at(rt, &finish_amo(op, old, b), &new, &(op, old, b));
    equal(rt, &finish_store(Store::Atomic(op, b), old), &new);
}

#[test]
fn atomic_operations_load_and_store(rt: HostRuntime) {
    for &(word, op, _, b, _) in &ATOMICS {
        check_effect(&rt, word, (0x2004, b), goes_on(None, operates(op, b)));
    }
}

#[test]
fn atomic_values_are_the_c_compilers(rt: HostRuntime) {
    for &(_, op, old, b, new) in &ATOMICS {
        check_atomic(&rt, op, (old, b), new);
    }
}

/// amoadd.w x10, x11, (x5), with these bits.
fn add_in_order(aq: bool, rl: bool) -> Instr {
    Instr::Amo {
        op: AmoOp::Add,
        rd: Reg::new(10),
        rs1: Reg::new(5),
        rs2: Reg::new(11),
        aq,
        rl,
    }
}

/// lr.w x10, (x5), with these bits.
fn reserved(aq: bool, rl: bool) -> Instr {
    Instr::LoadReserved {
        rd: Reg::new(10),
        rs1: Reg::new(5),
        aq,
        rl,
    }
}

/// sc.w x10, x11, (x5), with these bits.
fn conditional(aq: bool, rl: bool) -> Instr {
    Instr::StoreConditional {
        rd: Reg::new(10),
        rs1: Reg::new(5),
        rs2: Reg::new(11),
        aq,
        rl,
    }
}

/// Asserts that a word is this instruction, and the instruction this word.
fn check_instr(rt: &impl Abort, word: u32, instr: &Instr) {
    equal(rt, &encode(*instr), &word);
    equal_at(rt, &decode(word), &Some(*instr), &word);
}

#[test]
fn order_bits_are_operands(rt: HostRuntime) {
    check_instr(&rt, 0x00b2_a52f, &add_in_order(false, false));
    check_instr(&rt, 0x04b2_a52f, &add_in_order(true, false));
    check_instr(&rt, 0x02b2_a52f, &add_in_order(false, true));
    check_instr(&rt, 0x06b2_a52f, &add_in_order(true, true));
}

#[test]
fn order_bits_are_operands_of_lr_and_sc(rt: HostRuntime) {
    check_instr(&rt, 0x1002_a52f, &reserved(false, false));
    check_instr(&rt, 0x1402_a52f, &reserved(true, false));
    check_instr(&rt, 0x1202_a52f, &reserved(false, true));
    check_instr(&rt, 0x1602_a52f, &reserved(true, true));
    check_instr(&rt, 0x18b2_a52f, &conditional(false, false));
    check_instr(&rt, 0x1cb2_a52f, &conditional(true, false));
    check_instr(&rt, 0x1ab2_a52f, &conditional(false, true));
    check_instr(&rt, 0x1eb2_a52f, &conditional(true, true));
}

/// Asserts what a word does once it is known whether a conditional store succeeds.
fn check_resolved(rt: &impl Abort, word: u32, succeeds: bool, want: Result<Effect, Cause>) {
    let regs = with_values(BASE_AND_VALUE.0, BASE_AND_VALUE.1);
    let done = match effect_at(word, Addr::new(0x1000), &regs) {
        Ok(effect) => Ok(effect.resolved(succeeds)),
        Err(cause) => Err(cause),
    };
    equal_at(rt, &done, &want, &(word, succeeds));
}

/// What LR of a0 does: it loads a word and reserves its block.
fn reserves() -> Act {
    let load = Load {
        rd: Reg::new(10),
        signed: false,
        reserves: true,
    };
    accesses(0x2000, Width::Word, Some(load), None)
}

#[test]
fn lr_loads_and_reserves(rt: HostRuntime) {
    for word in [0x1002_a52f, 0x1402_a52f, 0x1202_a52f, 0x1602_a52f] {
        check_act(&rt, word, reserves());
        check_resolved(&rt, word, false, goes_on(None, reserves()));
    }
}

#[test]
fn sc_stores_and_gives_0_or_gives_1(rt: HostRuntime) {
    for word in [0x1862_a52f, 0x1c62_a52f, 0x1a62_a52f, 0x1e62_a52f] {
        let stores = accesses(0x2000, Width::Word, None, Some(Store::Value(0x8765_4321)));
        check_resolved(&rt, word, true, goes_on(Some((10, 0)), stores));
        check_resolved(&rt, word, false, goes_on(Some((10, 1)), Act::Nothing));
    }
}

#[test]
fn sc_to_x0_gives_nothing(rt: HostRuntime) {
    check_resolved(&rt, 0x1862_a02f, false, goes_on(None, Act::Nothing));
}

/// Asserts that a word has this text, and that a source with the text has the word.
fn check_spelled(rt: &(impl Abort + AllocGlobal), word: u32, spelled: &str) -> Result<(), Fail> {
    equal_items(rt, text(word).as_bytes(), spelled.as_bytes());
    let program = assemble(rt.alloc(), spelled).ok().ok_or("a program")?;
    equal_at(
        rt,
        &program.text().word(Addr::new(0x1000)),
        &Some(word),
        &word,
    );
    Ok(())
}

#[test]
fn atomic_words_are_spelled_as_assemblers_do(rt: HostRuntime) -> Result<(), Fail> {
    for &(word, spelled) in &SPELLED {
        check_spelled(&rt, word, spelled)?;
    }
    Ok(())
}

/// Asserts that a line is refused for its mnemonic.
fn check_unknown(rt: &(impl Abort + AllocGlobal), line: &str) -> Result<(), Fail> {
    let fault = assemble(rt.alloc(), line).err().ok_or("a fault")?;
    equal_at(rt, &fault.fault, &AsmFault::Unknown, &line);
    Ok(())
}

#[test]
fn other_suffixes_are_unknown(rt: HostRuntime) -> Result<(), Fail> {
    for &line in &UNKNOWN {
        check_unknown(&rt, line)?;
    }
    Ok(())
}

/// The values of x5 and x6 where words jump and act.
const BASE_AND_VALUE: (u32, u32) = (0x2000, 0x8765_4321);

#[test]
fn words_write_registers_or_nothing(rt: HostRuntime) {
    for &(word, write) in &WRITES {
        check_effect(&rt, word, BASE_AND_VALUE, goes_on(write, Act::Nothing));
    }
}

#[test]
fn jumps_leave_a_link(rt: HostRuntime) {
    for &(word, next, link) in &JUMPS {
        let write = link.map(|rd| (rd, 0x1004));
        check_effect(&rt, word, BASE_AND_VALUE, jumps(next, write));
    }
}

#[test]
fn jumps_go_to_multiples_of_4(rt: HostRuntime) {
    for &word in &MISALIGNED {
        check_effect(&rt, word, BASE_AND_VALUE, Err(Cause::JumpMisaligned));
    }
}

/// Asserts that a word goes on with this act, and writes no register.
fn check_act(rt: &impl Abort, word: u32, act: Act) {
    check_effect(rt, word, BASE_AND_VALUE, goes_on(None, act));
}

fn accesses(addr: u32, width: Width, load: Option<Load>, store: Option<Store>) -> Act {
    Act::Memory(MemoryAct {
        addr: Addr::new(addr),
        width,
        load,
        store,
    })
}

#[test]
fn loads_read_behind_a_register(rt: HostRuntime) {
    for &(word, width, signed) in &LOADS {
        let load = Load {
            rd: Reg::new(7),
            signed,
            reserves: false,
        };
        check_act(&rt, word, accesses(0x1ffe, width, Some(load), None));
    }
}

#[test]
fn stores_write_behind_a_register(rt: HostRuntime) {
    for &(word, width) in &STORES {
        let store = Store::Value(0x8765_4321);
        check_act(&rt, word, accesses(0x2004, width, None, Some(store)));
    }
}

#[test]
fn other_words_act(rt: HostRuntime) {
    check_act(&rt, 0x0ff0_000f, Act::Nothing); // fence
    check_act(&rt, 0x0000_0073, Act::Call); // ecall
    check_act(&rt, 0x0010_0073, Act::Break); // ebreak
    check_act(&rt, 0xfe00_0e8b, Act::Begin(Addr::new(0xffc))); // tbegin -4
    check_act(&rt, 0x0000_100b, Act::Commit); // tcommit
    check_act(&rt, 0x0000_200b, Act::Abort); // tabort
}

#[test]
fn loads_end_with_the_bytes_at_their_address(rt: HostRuntime) {
    // The bytes 01 7f ff 80 by rising address.
    let word = 0x80ff_7f01;
    for &(width, signed, addr, want) in &LOADED {
        equal(
            &rt,
            &finish_load(width, signed, word, Addr::new(addr)),
            &want,
        );
    }
}

#[test]
fn loads_and_stores_end(rt: HostRuntime) {
    equal(&rt, &extend_load(true, Width::Half, 0x8000), &0xffff_8000);
    equal(&rt, &finish_store(Store::Value(7), 9), &7);
    equal(&rt, &byte_count(Width::Half), &2);
}

/// Asserts the words in x0 and x10.
fn check_registers(rt: &impl Abort, regs: &Regs, zero: u32, a0: u32) {
    equal(
        rt,
        &(regs.read(Reg::new(0)), regs.read(Reg::new(10))),
        &(zero, a0),
    );
}

#[test]
fn x0_is_never_written(rt: HostRuntime) {
    let mut regs = filled(9);
    equal(&rt, &write_to(Reg::new(0), 5), &None);
    regs.write(Reg::new(0), 5);
    check_registers(&rt, &regs, 0, 9);
    write_register(&mut regs, write_to(Reg::new(10), 5));
    check_registers(&rt, &regs, 0, 5);
    write_register(&mut regs, None);
    check_registers(&rt, &regs, 0, 5);
}

#[test]
fn an_instruction_has_its_effect(rt: HostRuntime) {
    let mut regs = filled(9);
    regs.write(Reg::new(10), 5);
    equal(
        &rt,
        &execute(Instr::Ecall, Addr::new(0x1000), &regs),
        &goes_on(None, Act::Call),
    );
    one_row();
}

/// A segment of text whose last three bytes are not given, and one of data.
fn segments(alloc: Global) -> Result<Vec<Segment>, AllocError> {
    let text = Segment {
        addr: 0x1000,
        bytes: vec![in alloc; 0x93, 0x08, 0xd0, 0x05, 0x13]?,
        size: 8,
        exec: true,
    };
    let data = Segment {
        addr: 0x2000,
        bytes: vec![in alloc; 1, 2, 3, 4]?,
        size: 4,
        exec: false,
    };
    Ok(vec![in alloc; text, data]?)
}

fn check_word(rt: &impl Abort, text: &Text, pc: u32, want: Option<u32>) {
    equal_at(rt, &text.word(Addr::new(pc)), &want, &pc);
}

fn check_touches(rt: &impl Abort, text: &Text, addr: u32, width: Width, want: bool) {
    equal_at(rt, &text.touches(Addr::new(addr), width), &want, &addr);
}

/// Asserts which words the text of the segments has.
fn check_text(rt: &impl Abort, text: &Text) {
    check_word(rt, text, 0x0ffc, None);
    check_word(rt, text, 0x1000, Some(0x05d0_0893));
    check_word(rt, text, 0x1004, Some(0x13));
    check_word(rt, text, 0x1008, None);
    check_word(rt, text, 0x2000, None);
}

#[test]
fn text_is_what_is_executable(rt: HostRuntime) -> Result<(), Fail> {
    let segments = segments(rt.alloc())?;
    check_text(&rt, &Text::new(&segments));
    Ok(())
}

/// Asserts which accesses touch the text of the segments.
fn check_accesses(rt: &impl Abort, text: &Text) {
    check_touches(rt, text, 0x0fff, Width::Byte, false);
    check_touches(rt, text, 0x0ffe, Width::Word, true);
    check_touches(rt, text, 0x1007, Width::Byte, true);
    check_touches(rt, text, 0x1008, Width::Word, false);
    check_touches(rt, text, 0x2000, Width::Word, false);
}

#[test]
fn accesses_touch_text_or_not(rt: HostRuntime) -> Result<(), Fail> {
    let segments = segments(rt.alloc())?;
    check_accesses(&rt, &Text::new(&segments));
    Ok(())
}
