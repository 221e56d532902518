ghost use Rattle.std.specs.Prelude.{◌≡◌, ℕ, List};
ghost use Rattle.loader.specs.Programs.{Program};
ghost use Rattle.loader.specs.Elf.{IsElfOf};

/// A file is at most one program.
pub fn elf_files_hold_one_program()
    ensures { (file : List ℕ) (p q : Program) → IsElfOf file p → IsElfOf file q → q ≡ p }
{}
