//! What each mnemonic stands for.
ghost use Rattle.std.specs.Prelude.{◌≡◌, map};
ghost use Rattle.statements.specs.Forms as spec;

use table::{BranchOp, Row, row_named};

/// A pseudo-instruction without operands.
#[derive(Clone, Copy)]
pub enum Alone {
    Nop,
    Ret,
}

/// A pseudo-instruction `op d, s`.
#[derive(Clone, Copy)]
pub enum Pair {
    Mv,
    Not,
    Neg,
    Seqz,
    Snez,
    Sltz,
    Sgtz,
}

/// A directive.
#[derive(Clone, Copy)]
pub enum Directive {
    Text,
    Data,
    Globl,
    Word,
    Half,
    Byte,
    Space,
    Balign,
}

/// The bits aq and rl of an atomic operation, LR or SC. They are the suffix of its mnemonic.
#[derive(Clone, Copy)]
pub struct Order {
    pub aq: bool,
    pub rl: bool,
}

/// The operands that a mnemonic has, and what it makes of them.
#[derive(Clone, Copy)]
pub enum Form {
    /// The operands of a row of the instruction table, whose words have this order.
    Row(Row, Order),
    /// `op rs2, rs1, addr`
    BranchSwapped(BranchOp),
    /// `op rs1, addr`, with rs2 zero
    BranchZero(BranchOp),
    /// `op rs2, addr`, with rs1 zero
    BranchFromZero(BranchOp),
    /// `j addr`
    J,
    /// `jr rs1`
    Jr,
    /// `li rd, n`
    Li,
    /// `la rd, addr`
    La,
    /// `op d, s`
    Pair(Pair),
    /// `op`
    Alone(Alone),
    Directive(Directive),
}

/// The pseudo-instructions and the directives.
#[rattlefmt::skip]
const FORMS: [(&str, Form); 31] = [
    ("nop", Form::Alone(Alone::Nop)), ("ret", Form::Alone(Alone::Ret)),
    ("j", Form::J), ("jr", Form::Jr), ("li", Form::Li), ("la", Form::La),
    ("mv", Form::Pair(Pair::Mv)), ("not", Form::Pair(Pair::Not)), ("neg", Form::Pair(Pair::Neg)),
    ("seqz", Form::Pair(Pair::Seqz)), ("snez", Form::Pair(Pair::Snez)), ("sltz", Form::Pair(Pair::Sltz)),
    ("sgtz", Form::Pair(Pair::Sgtz)),
    ("beqz", Form::BranchZero(BranchOp::Eq)), ("bnez", Form::BranchZero(BranchOp::Ne)),
    ("bltz", Form::BranchZero(BranchOp::Lt)), ("bgez", Form::BranchZero(BranchOp::Ge)),
    ("bgtz", Form::BranchFromZero(BranchOp::Lt)), ("blez", Form::BranchFromZero(BranchOp::Ge)),
    ("bgt", Form::BranchSwapped(BranchOp::Lt)), ("ble", Form::BranchSwapped(BranchOp::Ge)),
    ("bgtu", Form::BranchSwapped(BranchOp::Ltu)), ("bleu", Form::BranchSwapped(BranchOp::Geu)),
    (".text", Form::Directive(Directive::Text)), (".data", Form::Directive(Directive::Data)),
    (".globl", Form::Directive(Directive::Globl)), (".word", Form::Directive(Directive::Word)),
    (".half", Form::Directive(Directive::Half)), (".byte", Form::Directive(Directive::Byte)),
    (".space", Form::Directive(Directive::Space)), (".balign", Form::Directive(Directive::Balign)),
];

/// The form of the first row with this name.
fn form_in(rows: &[(&str, Form)], name: &[u8]) -> Option<Form>
    ensures { result ≡ spec.form_of (map (λ row. (row.0.now, row.1)) rows.now) name.now }
{
    match rows {
        [] => None,
        [row, rest @ ..] => {
            if row.0.as_bytes() == name {
                return Some(row.1);
            }
            form_in(rest, name)
        }
    }
}

/// A mnemonic without its suffix, and the bits aq and rl that the suffix stands for.
#[tactic(auto, unfolding(crate::specs::Forms::cut_order))]
fn cut_order(name: &[u8]) -> (&[u8], bool, bool)
    ensures { record { name = result.0.now; aq = result.1; rl = result.2 } ≡ spec.cut_order name.now }
{
    if let Some(front) = name.strip_suffix(b".aqrl") {
        (front, true, true)
    } else if let Some(front) = name.strip_suffix(b".aq") {
        (front, true, false)
    } else if let Some(front) = name.strip_suffix(b".rl") {
        (front, false, true)
    } else {
        (name, false, false)
    }
}

/// Whether a row has words with this order.
fn has_order(row: Row, order: Order) -> bool
    ensures { result ≡ spec.has_order row order }
{
    match row {
        Row::Amo(_) | Row::LoadReserved | Row::StoreConditional => true,
        _ => !order.aq && !order.rl,
    }
}

/// The form of a mnemonic, if it is one.
#[tactic(auto, unfolding(crate::specs::Forms::form_named))]
pub(crate) fn form_named(name: &[u8]) -> Option<Form>
    ensures { result ≡ spec.form_named name.now }
{
    let (front, aq, rl) = cut_order(name);
    let order = Order { aq, rl };
    match row_named(front) {
        Some(row) if has_order(row, order) => Some(Form::Row(row, order)),
        _ => form_in(&FORMS, name),
    }
}
