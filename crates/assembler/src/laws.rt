ghost use Rattle.std.specs.Prelude.{◌≡◌, ℕ, List};
ghost use Rattle.loader.specs.Programs.{Program};
ghost use Rattle.assembler.specs.Layouts.{IsSourceOf};

/// A source spells at most one program.
pub fn sources_spell_one_program()
    ensures { (source : List ℕ) (p q : Program) → IsSourceOf source p → IsSourceOf source q → q ≡ p }
{}
