//! Statements: what each makes at its place.
ghost use Rattle.std.specs.Prelude.{◌≡◌, ◌≤◌, ◌<◌, ◌+◌, ◌++◌, ◌%◌, ◌^◌, length, not, option_map, Ok, Err, MatchResult};
ghost use Rattle.std.specs.List.{list_all};
ghost use Rattle.std.specs.Option.{option_map_or};
ghost use Rattle.arrayvec.specs.ArrayVec.{array_vec_len};
ghost use Rattle.statements.specs.Statements as spec;
ghost use Rattle.statements.specs.Cutting.{trim};
ghost use Rattle.statements.specs.Operands as source;
ghost use Rattle.statements.specs.Places.{address, find_in, labels_of};

use crate::fault::AsmFault;
use crate::form::{Directive, Form, form_named};
use crate::made::Words;
use crate::operand::{immediate, register};
use crate::place::{Names, Place, Section};
use crate::shapes;
use crate::shapes::{last, two};
use crate::target::{is_lost, value};
use crate::text::{cut, cut_word, is_name, trim};
use arrayvec::ArrayVec;
use operands::{Imm12, UpperImm};
use table::{ImmOp, Instr, byte_count};
use words::{Reg, Width};

/// `lui rd` and `addi rd, rd`, by the two parts of a number.
fn in_two(rd: Reg, v: u32) -> Words
    ensures { spec.made result ≡ spec.in_two rd v }
{
    let upper = (v.wrapping_add(2048) >> 12) << 12;
    let lower = v.wrapping_sub(upper);
    Words::Two(
        Instr::Lui {
            rd,
            imm: UpperImm::new(upper),
        },
        Instr::OpImm {
            op: ImmOp::Add,
            rd,
            rs1: rd,
            imm: Imm12::new(lower),
        },
    )
}

/// The instructions that put a number into a register: `addi` alone, `lui` alone, or both.
fn in_register(rd: Reg, v: u32) -> Words
    ensures { spec.made result ≡ spec.in_register rd v }
{
    if v.wrapping_add(2048) < 4096 {
        return Words::One(Instr::OpImm {
            op: ImmOp::Add,
            rd,
            rs1: Reg::new(0),
            imm: Imm12::new(v),
        });
    }
    if v % 4096 == 0 {
        return Words::One(Instr::Lui {
            rd,
            imm: UpperImm::new(v),
        });
    }
    in_two(rd, v)
}

/// `li rd, n`
#[tactic(auto, unfolding(crate::specs::Statements::li_of))]
fn li(text: &[u8]) -> Result<Words, AsmFault>
    ensures { MatchResult result (λ x. spec.li_of text.now ≡ Ok (spec.made x)) (λ e. spec.li_of text.now ≡ Err e) }
{
    let (rd, n) = two(text)?;
    let rd = register(rd)?;
    let v = immediate(n, 1 << 31, (1 << 32) - 1)?;
    Ok(in_register(rd, v))
}

/// `la rd, addr`
#[tactic(auto, unfolding(crate::specs::Statements::la_of))]
fn la(names: Option<&Names>, text: &[u8]) -> Result<Words, AsmFault>
    ensures { MatchResult result (λ x. spec.la_of (option_map (λ n. find_in n.now) names.entry) text.now ≡ Ok (spec.made x)) (λ e. spec.la_of (option_map (λ n. find_in n.now) names.entry) text.now ≡ Err e) }
{
    let (rd, addr) = two(text)?;
    let rd = register(rd)?;
    let v = value(names, addr)?;
    Ok(in_two(rd, v))
}

/// The names of the sections.
#[tactic(auto, unfolding(crate::specs::Statements::enter))]
fn enter(section: Section, text: &[u8]) -> Result<Words, AsmFault>
    ensures { MatchResult result (λ x. spec.enter section text.now ≡ Ok (spec.made x)) (λ e. spec.enter section text.now ≡ Err e) }
{
    if text.is_empty() {
        Ok(Words::Enter(section))
    } else {
        Err(AsmFault::Operand)
    }
}

/// `.globl NAME`
#[tactic(auto, unfolding(crate::specs::Statements::globl))]
fn globl(text: &[u8]) -> Result<Words, AsmFault>
    ensures { MatchResult result (λ x. spec.globl text.now ≡ Ok (spec.made x)) (λ e. spec.globl text.now ≡ Err e) }
{
    if is_name(last(text)?) {
        Ok(Words::Nothing)
    } else {
        Err(AsmFault::Operand)
    }
}

/// `.space n`
#[tactic(auto, unfolding(crate::specs::Statements::space))]
fn space(text: &[u8]) -> Result<Words, AsmFault>
    ensures { MatchResult result (λ x. spec.space text.now ≡ Ok (spec.made x)) (λ e. spec.space text.now ≡ Err e) }
{
    let n = immediate(last(text)?, 0, (1 << 32) - 1)?;
    Ok(Words::Zeros(n))
}

/// `.balign n`: zeros up to a multiple of a power of two to 4096
#[tactic(auto, unfolding(crate::specs::Statements::balign))]
fn balign(at: Place, text: &[u8]) -> Result<Words, AsmFault>
    ensures { MatchResult result (λ x. spec.balign at text.now ≡ Ok (spec.made x)) (λ e. spec.balign at text.now ≡ Err e) }
{
    let n = immediate(last(text)?, 0, 4096)?;
    if n == 0 || 4096 % n != 0 {
        return Err(AsmFault::Range);
    }
    Ok(Words::Zeros((n - at.offset.value() % n) % n))
}

/// One number of data.
#[tactic(auto, unfolding(crate::specs::Statements::datum))]
fn datum(names: Option<&Names>, width: Width, text: &[u8]) -> Result<u32, AsmFault>
    ensures { result ≡ spec.datum (option_map (λ n. find_in n.now) names.entry) width text.now }
{
    match width {
        Width::Byte => immediate(text, 128, 255),
        Width::Half => immediate(text, 32_768, 65_535),
        Width::Word => value(names, text),
    }
}

/// Whether the labels of all operands are there.
fn all_found(names: &Names, text: &[u8]) -> bool
    ensures { result ≡ list_all (λ operand. not (source.is_lost (find_in names.now) (trim operand))) (spec.operands text.now) }
{
    let (operand, others) = cut(text, b',');
    if is_lost(names, trim(operand)) {
        return false;
    }
    match others {
        Some(others) => all_found(names, others),
        None => true,
    }
}

/// Appends numbers of data.
fn push_data(
    names: Option<&Names>,
    width: Width,
    text: &[u8],
    values: &mut ArrayVec<u32, 256>,
) -> Result<(), AsmFault>
    requires { array_vec_len values.old + length text.now < 256 }
    ensures { MatchResult result (λ _. spec.read_data (option_map (λ n. find_in n.now) names.entry) width values.old.items (spec.operands text.now) ≡ Ok values.new.items) (λ e. spec.read_data (option_map (λ n. find_in n.now) names.entry) width values.old.items (spec.operands text.now) ≡ Err e) }
{
    let (operand, others) = cut(text, b',');
    values.push(datum(names, width, trim(operand))?);
    match others {
        Some(others) => push_data(names, width, others, values),
        None => Ok(()),
    }
}

/// `.word a, ..`, `.half a, ..` or `.byte a, ..`
#[tactic(auto, unfolding(crate::specs::Statements::data_of))]
fn data(width: Width, at: Place, names: Option<&Names>, text: &[u8]) -> Result<Words, AsmFault>
    requires { length text.now < 256 }
    ensures { MatchResult result (λ x. spec.data_of width at (option_map (λ n. find_in n.now) names.entry) text.now ≡ Ok (spec.made x)) (λ e. spec.data_of width at (option_map (λ n. find_in n.now) names.entry) text.now ≡ Err e) }
{
    if let Some(names) = names
        && !all_found(names, text)
    {
        return Err(AsmFault::Label);
    }
    let mut values = ArrayVec::new();
    push_data(names, width, text, &mut values)?;
    if at.offset.value() % byte_count(width) != 0 {
        return Err(AsmFault::Alignment);
    }
    Ok(Words::Numbers(width, values))
}

/// Whether a directive stands in data alone.
fn is_of_data(directive: Directive) -> bool
    ensures { result ≡ spec.is_of_data directive }
{
    matches!(
        directive,
        Directive::Half | Directive::Byte | Directive::Space | Directive::Balign
    )
}

/// What a directive makes of its operands.
#[tactic(auto, unfolding(crate::specs::Statements::directive_of))]
fn obey(
    directive: Directive,
    at: Place,
    names: Option<&Names>,
    text: &[u8],
) -> Result<Words, AsmFault>
    requires { length text.now < 256 }
    ensures { MatchResult result (λ x. spec.directive_of directive at (option_map (λ n. find_in n.now) names.entry) text.now ≡ Ok (spec.made x)) (λ e. spec.directive_of directive at (option_map (λ n. find_in n.now) names.entry) text.now ≡ Err e) }
{
    if is_of_data(directive) && at.section == Section::Text {
        return Err(AsmFault::Directive);
    }
    match directive {
        Directive::Text => enter(Section::Text, text),
        Directive::Data => enter(Section::Data, text),
        Directive::Globl => globl(text),
        Directive::Word => data(Width::Word, at, names, text),
        Directive::Half => data(Width::Half, at, names, text),
        Directive::Byte => data(Width::Byte, at, names, text),
        Directive::Space => space(text),
        Directive::Balign => balign(at, text),
    }
}

/// The one instruction of most forms.
#[tactic(auto, unfolding(crate::specs::Statements::instruction_of))]
fn instruction(form: Form, pc: u32, names: Option<&Names>, text: &[u8]) -> Result<Instr, AsmFault>
    ensures { result ≡ spec.instruction_of form pc (option_map (λ n. find_in n.now) names.entry) text.now }
{
    match form {
        Form::Row(row, order) => shapes::by_row(row, order, pc, names, text),
        Form::BranchSwapped(op) => shapes::branch_swapped(op, pc, names, text),
        Form::BranchZero(op) => shapes::branch_zero(op, pc, names, text),
        Form::BranchFromZero(op) => shapes::branch_from_zero(op, pc, names, text),
        Form::J => shapes::j(pc, names, text),
        Form::Jr => shapes::jr(text),
        Form::Pair(op) => shapes::registers_of_pair(op, text),
        Form::Alone(op) => shapes::without_operands(shapes::alone_instr(op), text),
        Form::Li | Form::La | Form::Directive(_) => Err(AsmFault::Unknown),
    }
}

/// What a form makes of its operands.
fn by_form(form: Form, at: Place, names: Option<&Names>, text: &[u8]) -> Result<Words, AsmFault>
    requires { length text.now < 256 }
    ensures { MatchResult result (λ x. spec.by_form form at (option_map (λ n. labels_of n.now) names.entry) text.now ≡ Ok (spec.made x)) (λ e. spec.by_form form at (option_map (λ n. labels_of n.now) names.entry) text.now ≡ Err e) }
{
    if let Form::Directive(directive) = form {
        return obey(directive, at, names, text);
    }
    if at.section == Section::Data {
        return Err(AsmFault::Directive);
    }
    match form {
        Form::Li => li(text),
        Form::La => la(names, text),
        _ => {
            let pc = pc_of(names, at);
            Ok(Words::One(instruction(form, pc, names, text)?))
        }
    }
}

/// The fault of a mnemonic that is none.
fn unknown(name: &[u8]) -> AsmFault
    ensures { result ≡ spec.unknown name.now }
{
    match name {
        [b'.', ..] => AsmFault::Directive,
        _ => AsmFault::Unknown,
    }
}

/// The address of a place, if the labels are known yet.
fn pc_of(names: Option<&Names>, at: Place) -> u32
    ensures { result ≡ option_map_or (λ n. address n.now.text_size at) names.entry 0 }
{
    match names {
        Some(names) => names.address(at),
        None => 0,
    }
}

/// What a statement makes at its place, as far as that is known: in the first pass no label is.
#[tactic(auto, unfolding(crate::specs::Statements::statement_of))]
pub fn read_statement(text: &[u8], at: Place, names: Option<&Names>) -> Result<Words, AsmFault>
    requires { length text.now < 256 }
    ensures { MatchResult result (λ x. spec.statement_of at (option_map (λ n. labels_of n.now) names.entry) text.now ≡ Ok (spec.made x)) (λ e. spec.statement_of at (option_map (λ n. labels_of n.now) names.entry) text.now ≡ Err e) }
{
    if text.is_empty() {
        return Ok(Words::Nothing);
    }
    let (name, operands) = cut_word(text);
    match form_named(name) {
        Some(form) => by_form(form, at, names, operands),
        None => Err(unknown(name)),
    }
}
