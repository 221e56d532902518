//! Rows by their names.
ghost use Rattle.std.specs.Prelude.{◌≡◌};
ghost use Rattle.table.specs.Table as spec;

use crate::instr::{ROWS, Row};

/// The first of some rows that has a name.
fn row_in(rows: &[Row], name: &[u8]) -> Option<Row>
    ensures { result ≡ spec.row_in rows.now name.now }
{
    match rows {
        [] => None,
        [row, rest @ ..] => {
            if row.name().as_bytes() == name {
                return Some(*row);
            }
            row_in(rest, name)
        }
    }
}

/// The row with a name, if one has it.
#[tactic(auto, unfolding(crate::specs::Table::row_named))]
pub fn row_named(name: &[u8]) -> Option<Row>
    ensures { result ≡ spec.row_named name.now }
{
    row_in(&ROWS, name)
}
