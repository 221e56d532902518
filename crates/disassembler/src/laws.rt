ghost use Rattle.std.specs.Prelude.{◌≡◌, ◌<◌, ◌^◌, ℕ};
ghost use Rattle.disassembler.specs.Canonical.{canonical};

/// No two words share a text.
#[tactic(auto, using(crate::proofs::Differing::texts_differ))]
pub fn texts_differ()
    ensures { (v w : ℕ) → v < 2 ^ 32 → w < 2 ^ 32 → canonical v ≡ canonical w → v ≡ w }
{}
