ghost use Rattle.std.specs.Prelude.{◌≡◌, ◌⊎◌, false, IsTrue};
ghost use Rattle.words.specs.declared.stamp.Stamp.{Stamp};
ghost use Rattle.words.specs.Stamps.{is_earlier};

/// Stamps are in a total order: none is earlier than itself, and of two different ones one is the earlier.
pub fn stamps_are_ordered()
    ensures irreflexive { (a : Stamp) → is_earlier a a ≡ false }
    ensures transitive { (a b c : Stamp) →
        IsTrue (is_earlier a b) → IsTrue (is_earlier b c) → IsTrue (is_earlier a c) }
    ensures total { (a b : Stamp) → IsTrue (is_earlier a b) ⊎ (a ≡ b) ⊎ IsTrue (is_earlier b a) }
{}
