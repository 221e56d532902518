//! Instructions: the operands of each form, and the instruction that it makes of them.
ghost use Rattle.std.specs.Prelude.{◌≡◌, ◌≤◌, ◌<◌, ◌*◌, ◌%◌, ◌^◌, option_map, Ok, Err, MatchResult};
ghost use Rattle.table.specs.declared.instr.Instr.TheVariants as instr;
ghost use Rattle.statements.specs.Instructions as spec;
ghost use Rattle.statements.specs.Operands as operand;
ghost use Rattle.statements.specs.Places.{find_in};

use crate::fault::AsmFault;
use crate::form::{Alone, Order, Pair};
use crate::operand::{amount as amount_of, based, imm12, indirect, register, upper};
use crate::place::Names;
use crate::target::{abort_offset, branch_offset, jump_offset};
use crate::text::{cut, trim};
use operands::{FenceBits, Imm12};
use table::{AluOp, AmoOp, BranchOp, ImmOp, Instr, LoadOp, Row, ShiftOp, StoreOp};
use words::Reg;

/// The bits of the fence of all reads and writes before all after it.
const FULL_FENCE: u32 = 0x3_fc00;

/// An operand, and what stands behind its comma.
#[tactic(auto, unfolding(crate::specs::Instructions::first))]
fn first(text: &[u8]) -> Result<(&[u8], &[u8]), AsmFault>
    ensures { MatchResult result (λ x. spec.first text.now ≡ Ok (record { operand = x.0.now; others = x.1.now })) (λ e. spec.first text.now ≡ Err e) }
{
    match cut(text, b',') {
        (operand, Some(others)) => Ok((trim(operand), others)),
        (_, None) => Err(AsmFault::Operand),
    }
}

/// The only operand, or the last one.
#[tactic(auto, unfolding(crate::specs::Instructions::last))]
pub(crate) fn last(text: &[u8]) -> Result<&[u8], AsmFault>
    ensures { MatchResult result (λ x. spec.last text.now ≡ Ok x.now) (λ e. spec.last text.now ≡ Err e) }
{
    match cut(text, b',') {
        (operand, None) => Ok(trim(operand)),
        (_, Some(_)) => Err(AsmFault::Operand),
    }
}

#[tactic(auto, unfolding(crate::specs::Instructions::two))]
pub(crate) fn two(text: &[u8]) -> Result<(&[u8], &[u8]), AsmFault>
    ensures { MatchResult result (λ x. spec.two text.now ≡ Ok (x.0.now, x.1.now)) (λ e. spec.two text.now ≡ Err e) }
{
    let (a, others) = first(text)?;
    Ok((a, last(others)?))
}

#[tactic(auto, unfolding(crate::specs::Instructions::three))]
fn three(text: &[u8]) -> Result<(&[u8], &[u8], &[u8]), AsmFault>
    ensures { MatchResult result (λ x. spec.three text.now ≡ Ok (record { first = x.0.now; second = x.1.now; third = x.2.now })) (λ e. spec.three text.now ≡ Err e) }
{
    let (a, others) = first(text)?;
    let (b, others) = first(others)?;
    Ok((a, b, last(others)?))
}

/// `op rd, rs1, rs2`
#[tactic(auto, unfolding(crate::specs::Instructions::op_of))]
fn registers(op: AluOp, text: &[u8]) -> Result<Instr, AsmFault>
    ensures { result ≡ spec.op_of op text.now }
{
    let (rd, rs1, rs2) = three(text)?;
    let rd = register(rd)?;
    let rs1 = register(rs1)?;
    let rs2 = register(rs2)?;
    Ok(Instr::Op { op, rd, rs1, rs2 })
}

/// `op rd, rs1, imm`
#[tactic(auto, unfolding(crate::specs::Instructions::op_imm_of))]
fn op_imm(op: ImmOp, text: &[u8]) -> Result<Instr, AsmFault>
    ensures { result ≡ spec.op_imm_of op text.now }
{
    let (rd, rs1, imm) = three(text)?;
    let rd = register(rd)?;
    let rs1 = register(rs1)?;
    let imm = imm12(imm)?;
    Ok(Instr::OpImm { op, rd, rs1, imm })
}

/// `op rd, rs1, amount`
#[tactic(auto, unfolding(crate::specs::Instructions::shift_imm_of))]
fn shift_imm(op: ShiftOp, text: &[u8]) -> Result<Instr, AsmFault>
    ensures { result ≡ spec.shift_imm_of op text.now }
{
    let (rd, rs1, amount) = three(text)?;
    let rd = register(rd)?;
    let rs1 = register(rs1)?;
    let amount = amount_of(amount)?;
    Ok(Instr::ShiftImm {
        op,
        rd,
        rs1,
        amount,
    })
}

/// `op rd, imm(rs1)`
#[tactic(auto, unfolding(crate::specs::Instructions::load_of))]
fn load(op: LoadOp, text: &[u8]) -> Result<Instr, AsmFault>
    ensures { result ≡ spec.load_of op text.now }
{
    let (rd, at) = two(text)?;
    let rd = register(rd)?;
    let (imm, rs1) = based(at)?;
    Ok(Instr::Load { op, rd, rs1, imm })
}

/// `op rs2, imm(rs1)`
#[tactic(auto, unfolding(crate::specs::Instructions::store_of))]
fn store(op: StoreOp, text: &[u8]) -> Result<Instr, AsmFault>
    ensures { result ≡ spec.store_of op text.now }
{
    let (rs2, at) = two(text)?;
    let rs2 = register(rs2)?;
    let (imm, rs1) = based(at)?;
    Ok(Instr::Store { op, rs1, rs2, imm })
}

/// `op rd, rs2, (rs1)`
#[tactic(auto, unfolding(crate::specs::Instructions::amo_of))]
fn amo(op: AmoOp, order: Order, text: &[u8]) -> Result<Instr, AsmFault>
    ensures { result ≡ spec.amo_of op order text.now }
{
    let (rd, rs2, rs1) = three(text)?;
    let rd = register(rd)?;
    let rs2 = register(rs2)?;
    let rs1 = indirect(rs1)?;
    Ok(Instr::Amo {
        op,
        rd,
        rs1,
        rs2,
        aq: order.aq,
        rl: order.rl,
    })
}

/// `lr.w rd, (rs1)`
#[tactic(auto, unfolding(crate::specs::Instructions::load_reserved_of))]
fn load_reserved(order: Order, text: &[u8]) -> Result<Instr, AsmFault>
    ensures { result ≡ spec.load_reserved_of order text.now }
{
    let (rd, rs1) = two(text)?;
    let rd = register(rd)?;
    let rs1 = indirect(rs1)?;
    Ok(Instr::LoadReserved {
        rd,
        rs1,
        aq: order.aq,
        rl: order.rl,
    })
}

/// `sc.w rd, rs2, (rs1)`
#[tactic(auto, unfolding(crate::specs::Instructions::store_conditional_of))]
fn store_conditional(order: Order, text: &[u8]) -> Result<Instr, AsmFault>
    ensures { result ≡ spec.store_conditional_of order text.now }
{
    let (rd, rs2, rs1) = three(text)?;
    let rd = register(rd)?;
    let rs2 = register(rs2)?;
    let rs1 = indirect(rs1)?;
    Ok(Instr::StoreConditional {
        rd,
        rs1,
        rs2,
        aq: order.aq,
        rl: order.rl,
    })
}

/// `lui rd, n`
#[tactic(auto, unfolding(crate::specs::Instructions::upper_of))]
fn lui(text: &[u8]) -> Result<Instr, AsmFault>
    ensures { result ≡ spec.upper_of instr.Lui text.now }
{
    let (rd, n) = two(text)?;
    let rd = register(rd)?;
    let imm = upper(n)?;
    Ok(Instr::Lui { rd, imm })
}

/// `auipc rd, n`
#[tactic(auto, unfolding(crate::specs::Instructions::upper_of))]
fn auipc(text: &[u8]) -> Result<Instr, AsmFault>
    ensures { result ≡ spec.upper_of instr.Auipc text.now }
{
    let (rd, n) = two(text)?;
    let rd = register(rd)?;
    let imm = upper(n)?;
    Ok(Instr::Auipc { rd, imm })
}

/// `op rs1, rs2, addr`
#[tactic(auto, unfolding(crate::specs::Instructions::branch_of))]
fn branch(op: BranchOp, pc: u32, names: Option<&Names>, text: &[u8]) -> Result<Instr, AsmFault>
    ensures { result ≡ spec.branch_of op pc (option_map (λ n. find_in n.now) names.entry) text.now }
{
    let (rs1, rs2, addr) = three(text)?;
    let rs1 = register(rs1)?;
    let rs2 = register(rs2)?;
    let offset = branch_offset(pc, names, addr)?;
    Ok(Instr::Branch {
        op,
        rs1,
        rs2,
        offset,
    })
}

/// `op rs2, rs1, addr`
#[tactic(auto, unfolding(crate::specs::Instructions::branch_swapped_of))]
pub(crate) fn branch_swapped(
    op: BranchOp,
    pc: u32,
    names: Option<&Names>,
    text: &[u8],
) -> Result<Instr, AsmFault>
    ensures { result ≡ spec.branch_swapped_of op pc (option_map (λ n. find_in n.now) names.entry) text.now }
{
    let (rs2, rs1, addr) = three(text)?;
    let rs2 = register(rs2)?;
    let rs1 = register(rs1)?;
    let offset = branch_offset(pc, names, addr)?;
    Ok(Instr::Branch {
        op,
        rs1,
        rs2,
        offset,
    })
}

/// `op rs1, addr`, with rs2 zero
#[tactic(auto, unfolding(crate::specs::Instructions::branch_zero_of))]
pub(crate) fn branch_zero(
    op: BranchOp,
    pc: u32,
    names: Option<&Names>,
    text: &[u8],
) -> Result<Instr, AsmFault>
    ensures { result ≡ spec.branch_zero_of (λ s n. instr.Branch op s 0 n) pc (option_map (λ n. find_in n.now) names.entry) text.now }
{
    let (rs1, addr) = two(text)?;
    let rs1 = register(rs1)?;
    let offset = branch_offset(pc, names, addr)?;
    Ok(Instr::Branch {
        op,
        rs1,
        rs2: Reg::new(0),
        offset,
    })
}

/// `op rs2, addr`, with rs1 zero
#[tactic(auto, unfolding(crate::specs::Instructions::branch_zero_of))]
pub(crate) fn branch_from_zero(
    op: BranchOp,
    pc: u32,
    names: Option<&Names>,
    text: &[u8],
) -> Result<Instr, AsmFault>
    ensures { result ≡ spec.branch_zero_of (λ s n. instr.Branch op 0 s n) pc (option_map (λ n. find_in n.now) names.entry) text.now }
{
    let (rs2, addr) = two(text)?;
    let rs2 = register(rs2)?;
    let offset = branch_offset(pc, names, addr)?;
    Ok(Instr::Branch {
        op,
        rs1: Reg::new(0),
        rs2,
        offset,
    })
}

/// `jal rd, addr`
#[tactic(auto, unfolding(crate::specs::Instructions::jal_of))]
fn jal(pc: u32, names: Option<&Names>, text: &[u8]) -> Result<Instr, AsmFault>
    ensures { result ≡ spec.jal_of pc (option_map (λ n. find_in n.now) names.entry) text.now }
{
    let (rd, addr) = two(text)?;
    let rd = register(rd)?;
    let offset = jump_offset(pc, names, addr)?;
    Ok(Instr::Jal { rd, offset })
}

/// `jalr rd, imm(rs1)`
#[tactic(auto, unfolding(crate::specs::Instructions::jalr_of))]
fn jalr(text: &[u8]) -> Result<Instr, AsmFault>
    ensures { result ≡ spec.jalr_of text.now }
{
    let (rd, at) = two(text)?;
    let rd = register(rd)?;
    let (imm, rs1) = based(at)?;
    Ok(Instr::Jalr { rd, rs1, imm })
}

/// `tbegin addr`
#[tactic(auto, unfolding(crate::specs::Instructions::tbegin_of))]
fn tbegin(pc: u32, names: Option<&Names>, text: &[u8]) -> Result<Instr, AsmFault>
    ensures { result ≡ spec.tbegin_of pc (option_map (λ n. find_in n.now) names.entry) text.now }
{
    let addr = last(text)?;
    let offset = abort_offset(pc, names, addr)?;
    Ok(Instr::TBegin { offset })
}

/// `j addr`
#[tactic(auto, unfolding(crate::specs::Instructions::j_of))]
pub(crate) fn j(pc: u32, names: Option<&Names>, text: &[u8]) -> Result<Instr, AsmFault>
    ensures { result ≡ spec.j_of pc (option_map (λ n. find_in n.now) names.entry) text.now }
{
    let addr = last(text)?;
    let offset = jump_offset(pc, names, addr)?;
    Ok(Instr::Jal {
        rd: Reg::new(0),
        offset,
    })
}

/// `jr rs1`
#[tactic(auto, unfolding(crate::specs::Instructions::jr_of))]
pub(crate) fn jr(text: &[u8]) -> Result<Instr, AsmFault>
    ensures { result ≡ spec.jr_of text.now }
{
    let rs1 = register(last(text)?)?;
    Ok(Instr::Jalr {
        rd: Reg::new(0),
        rs1,
        imm: Imm12::new(0),
    })
}

/// The instruction of a pseudo-instruction with two registers.
fn pair_instr(pair: Pair, d: Reg, s: Reg) -> Instr
    ensures { result ≡ spec.pair_instr pair d s }
{
    let zero = Reg::new(0);
    let imm = |op, imm| Instr::OpImm {
        op,
        rd: d,
        rs1: s,
        imm,
    };
    let alu = |op, rs1, rs2| Instr::Op {
        op,
        rd: d,
        rs1,
        rs2,
    };
    match pair {
        Pair::Mv => imm(ImmOp::Add, Imm12::new(0)),
        Pair::Not => imm(ImmOp::Xor, Imm12::new(0xffff_ffff)),
        Pair::Neg => alu(AluOp::Sub, zero, s),
        Pair::Seqz => imm(ImmOp::Sltu, Imm12::new(1)),
        Pair::Snez => alu(AluOp::Sltu, zero, s),
        Pair::Sltz => alu(AluOp::Slt, s, zero),
        Pair::Sgtz => alu(AluOp::Slt, zero, s),
    }
}

/// `op d, s`
#[tactic(auto, unfolding(crate::specs::Instructions::pair_of))]
pub(crate) fn registers_of_pair(pair: Pair, text: &[u8]) -> Result<Instr, AsmFault>
    ensures { result ≡ spec.pair_of pair text.now }
{
    let (d, s) = two(text)?;
    let d = register(d)?;
    let s = register(s)?;
    Ok(pair_instr(pair, d, s))
}

/// The instruction of a pseudo-instruction without operands.
pub(crate) fn alone_instr(op: Alone) -> Instr
    ensures { result ≡ spec.alone_instr op }
{
    let zero = Reg::new(0);
    match op {
        Alone::Nop => Instr::OpImm {
            op: ImmOp::Add,
            rd: zero,
            rs1: zero,
            imm: Imm12::new(0),
        },
        Alone::Ret => Instr::Jalr {
            rd: zero,
            rs1: Reg::new(1),
            imm: Imm12::new(0),
        },
    }
}

/// `op`
pub(crate) fn without_operands(instr: Instr, text: &[u8]) -> Result<Instr, AsmFault>
    ensures { result ≡ spec.alone_of instr text.now }
{
    if text.is_empty() {
        Ok(instr)
    } else {
        Err(AsmFault::Operand)
    }
}

/// The instruction that a row, with an order, makes of its operands.
#[tactic(auto, unfolding(crate::specs::Instructions::by_row))]
pub(crate) fn by_row(
    row: Row,
    order: Order,
    pc: u32,
    names: Option<&Names>,
    text: &[u8],
) -> Result<Instr, AsmFault>
    ensures { result ≡ spec.by_row row order pc (option_map (λ n. find_in n.now) names.entry) text.now }
{
    match row {
        Row::Lui => lui(text),
        Row::Auipc => auipc(text),
        Row::Jal => jal(pc, names, text),
        Row::Jalr => jalr(text),
        Row::Branch(op) => branch(op, pc, names, text),
        Row::Load(op) => load(op, text),
        Row::Store(op) => store(op, text),
        Row::OpImm(op) => op_imm(op, text),
        Row::ShiftImm(op) => shift_imm(op, text),
        Row::Op(op) => registers(op, text),
        Row::Amo(op) => amo(op, order, text),
        Row::LoadReserved => load_reserved(order, text),
        Row::StoreConditional => store_conditional(order, text),
        Row::Fence => {
            let bits = FenceBits::new(FULL_FENCE);
            without_operands(Instr::Fence { bits }, text)
        }
        Row::Ecall => without_operands(Instr::Ecall, text),
        Row::Ebreak => without_operands(Instr::Ebreak, text),
        Row::TBegin => tbegin(pc, names, text),
        Row::TCommit => without_operands(Instr::TCommit, text),
        Row::TAbort => without_operands(Instr::TAbort, text),
    }
}
