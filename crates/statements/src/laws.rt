ghost use Rattle.std.specs.Prelude.{◌≡◌, ◌<◌, ◌%◌, ◌^◌, ℕ, Option};
ghost use Rattle.std.specs.Int.{w32, to_le_bytes};
ghost use Rattle.std.specs.Result.{IsOkAnd};
ghost use Rattle.disassembler.specs.Canonical.{canonical};
ghost use Rattle.statements.specs.declared.place.Place.{Place as PlaceValue};
ghost use Rattle.statements.specs.declared.place.Section.TheVariants.{Text};
ghost use Rattle.statements.specs.Places.{Labels};
ghost use Rattle.statements.specs.Bytes.{AreBytesOf};
ghost use Rattle.statements.specs.Lines.{line_of};

/// The canonical text of each word is read back as that word, at each multiple of 4 in text, whatever the labels are.
#[tactic(auto, using(crate::proofs::Round::Words::texts_are_read_back))]
pub fn texts_are_read_back()
    ensures { (w : ℕ) (at : PlaceValue) (labels : Option Labels) → w < 2 ^ 32 → at.section ≡ Text → at.offset % 4 ≡ 0
        → IsOkAnd (line_of at labels (canonical w)) (λ made. AreBytesOf made (to_le_bytes w32 w)) }
{}
