ghost use Rattle.std.specs.Prelude.{◌≡◌, ◌++◌, ◌∷◌, ℕ, List, Some};
ghost use Rattle.words.specs.declared.entry.Entry.{Entry};
ghost use Rattle.words.specs.declared.entry.Entry.TheVariants.{Abort};
ghost use Rattle.words.specs.declared.entry.Step.{Step};
ghost use Rattle.words.specs.declared.cause.AbortCause.TheVariants.{Conflict};
ghost use Rattle.table.specs.Program.{AreBytes};
ghost use Rattle.flat.specs.State.{Setting};
ghost use Rattle.flat.specs.Reasons.{no_history, history_of};
ghost use Rattle.protocol.specs.Caches.{Geometry};
ghost use Rattle.protocol.specs.Machine.{Machine, Steps, Runs};
ghost use Rattle.protocol.specs.Start.{start};
ghost use Rattle.isolation.specs.Earliest.{IsInsideSince, BeganEarliest};

/// No conflict aborts a transaction that was the earliest as it began: each other stamp that a hart held then, in a transaction or after an abort, was later.
/// So it is of each abort among the entries of a run, and of one that the next step gives.
pub fn conflicts_spare_the_earliest()
    ensures each { (g : Geometry) (s : Setting) (entry : ℕ) (steps : List Step) (before since after : List Entry) (begin : Entry) (w : Machine) (i : ℕ) →
        AreBytes s.segments → Runs g (start s entry) steps ((before ++ begin ∷ since) ++ Abort i Conflict ∷ after) w → BeganEarliest s.count before begin since i → ⊥ }
    ensures next { (g : Geometry) (s : Setting) (entry : ℕ) (steps : List Step) (before since : List Entry) (begin : Entry) (v w : Machine) (next : Step) (i : ℕ) →
        AreBytes s.segments → Runs g (start s entry) steps (before ++ begin ∷ since) v →
        Steps g v next (Some (Abort i Conflict)) w → BeganEarliest s.count before begin since i → ⊥ }
{}

/// So no conflict aborts the first transaction of a run, before which no stamp was taken. Where two harts run one transaction each, conflicts abort one of them
/// at most.
pub fn conflicts_spare_the_first()
    ensures each { (g : Geometry) (s : Setting) (entry : ℕ) (steps : List Step) (before since after : List Entry) (begin : Entry) (w : Machine) (i : ℕ) →
        AreBytes s.segments → Runs g (start s entry) steps ((before ++ begin ∷ since) ++ Abort i Conflict ∷ after) w →
        (history_of no_history before).taken ≡ 0 → IsInsideSince before begin since i → ⊥ }
    ensures next { (g : Geometry) (s : Setting) (entry : ℕ) (steps : List Step) (before since : List Entry) (begin : Entry) (v w : Machine) (next : Step) (i : ℕ) →
        AreBytes s.segments → Runs g (start s entry) steps (before ++ begin ∷ since) v →
        Steps g v next (Some (Abort i Conflict)) w → (history_of no_history before).taken ≡ 0 → IsInsideSince before begin since i → ⊥ }
{}
