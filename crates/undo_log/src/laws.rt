ghost use Rattle.std.specs.Prelude.{◌≡◌, ◌++◌, ◌∷◌, [], ℕ, List, true, false};
ghost use Rattle.undo_log.specs.declared.record.Record.{Record};
ghost use Rattle.undo_log.specs.Undo.{holds, restored, with_image, undone};

/// Undoing a log, the newest record first, leaves in each block of the log the image in its oldest record, and changes no other
/// block. To undo the newest record alone changes nothing of what the log restores.
pub fn undoing_restores()
    ensures logged { (records : List Record) (memory : ℕ → List ℕ) (b : ℕ) →
        holds records b ≡ true → undone records memory b ≡ restored records b (memory b) }
    ensures others { (records : List Record) (memory : ℕ → List ℕ) (b : ℕ) →
        holds records b ≡ false → undone records memory b ≡ memory b }
    ensures newest { (records : List Record) (r : Record) (memory : ℕ → List ℕ) (b : ℕ) →
        restored (records ++ r ∷ []) b (memory b) ≡ restored records b (with_image memory r b) }
{}
