ghost use Rattle.std.specs.Prelude.{◌≡◌, ℕ};
ghost use Rattle.table.specs.Table.{RowHas};

/// No word has two rows in the instruction table: the order of the rows says nothing.
#[tactic(auto, using(crate::proofs::OneRow::one_row))]
pub fn one_row()
    ensures { (w i j : ℕ) → RowHas i w → RowHas j w → i ≡ j }
{}
