ghost use Rattle.std.specs.Prelude.{◌≡◌, ◌<◌, ◌++◌, ◌∷◌, ℕ, List, [], Option, Some, None, IsSome, IsOkAnd, option_to_list};
ghost use Rattle.words.specs.declared.entry.Entry.{Entry};
ghost use Rattle.words.specs.declared.entry.Entry.TheVariants.{Retire, Abort, Refuse, Spill};
ghost use Rattle.words.specs.declared.entry.Access.{Access};
ghost use Rattle.words.specs.declared.entry.Step.{Step};
ghost use Rattle.words.specs.declared.cause.AbortCause.TheVariants.{Conflict, LogFull};
ghost use Rattle.table.specs.declared.effect.Effect.{Effect};
ghost use Rattle.flat.specs.State.{Setting, Flat};
ghost use Rattle.flat.specs.Start.{first_state};
ghost use Rattle.flat.specs.Causes.{next_of};
ghost use Rattle.flat.specs.Steps.{CarriesSome, IsRun};
ghost use Rattle.flat.specs.Reasons.{no_history, history_of, RefusalHasReason, ConflictHasReason};
ghost use Rattle.flat.specs.Reservations.{reservations_of, StoreHasReason};
ghost use Rattle.protocol.specs.Caches.{Geometry};
ghost use Rattle.protocol.specs.Machine.{Machine, Steps, Runs};
ghost use Rattle.protocol.specs.Network.{LiesBelow};
ghost use Rattle.protocol.specs.Start.{start};
ghost use Rattle.table.specs.Program.{AreBytes};
ghost use Rattle.isolation.specs.Belongs.{Belongs, BelongsAfter};
ghost use Rattle.isolation.specs.Footprints.{footprints_of};
ghost use Rattle.isolation.specs.FailedStores.{StoresIfReserved, FailureHasReason};
ghost use Rattle.isolation.specs.Reasons.{LeadOn, SpillHasReason, FullLogHasReason};
ghost use Rattle.isolation.specs.Answers.{AnswersAs, IsRow};

/// Isolation: for every program, number of harts and size of memory, and for every list of core, eviction and delivery steps, the
/// entries are a run of the flat machine. Each step carries a flat state that belongs to the machine, by the entry that it
/// gives, to one that belongs to the machine after it; and so do steps from any machine to which a flat state belongs.
pub fn entries_are_a_flat_run()
    ensures start { (g : Geometry) (s : Setting) (entry : ℕ) → AreBytes s.segments → Belongs g (first_state s entry) (start s entry) }
    ensures step { (g : Geometry) (f : Flat) (v w : Machine) (s : Step) (e : Option Entry) → Belongs g f v → Steps g v s e w → (h : Flat) × CarriesSome f e h × Belongs g h w }
    ensures run { (g : Geometry) (f : Flat) (v w : Machine) (steps : List Step) (es : List Entry) → Belongs g f v → Runs g v steps es w → (h : Flat) × IsRun f es h × Belongs g h w }
    ensures from_start { (g : Geometry) (s : Setting) (entry : ℕ) (steps : List Step) (es : List Entry) (w : Machine) → AreBytes s.segments → Runs g (start s entry) steps es w → (f : Flat) × IsRun (first_state s entry) es f × Belongs g f w }
{}

/// There are such runs: from each machine to which a flat state belongs each step leads on, and so does each list of steps, if
/// a set has at least one way. All messages in flight lie under the first so many keys.
pub fn steps_exist()
    ensures keys { (g : Geometry) (f : Flat) (w : Machine) → Belongs g f w → (keys : ℕ) × LiesBelow keys w.net }
    ensures step { (g : Geometry) (f : Flat) (v : Machine) (s : Step) → 0 < g.ways → Belongs g f v → (e : Option Entry) × (w : Machine) × Steps g v s e w }
    ensures run { (g : Geometry) (f : Flat) (v : Machine) (steps : List Step) → 0 < g.ways → Belongs g f v → (es : List Entry) × (w : Machine) × Runs g v steps es w }
{}

/// What the machine answers is what the flat state that belongs to it has: registers, pc, status and output of each hart, memory
/// with all logs undone, memory as a hart sees it, and memory in place. All messages lie under the first so many keys.
pub fn answers_are_the_flat_machines()
    ensures { (g : Geometry) (f : Flat) (w : Machine) (keys : ℕ) → Belongs g f w → LiesBelow keys w.net → AnswersAs keys w f }
{}

/// Each word that is retired is the text's at the hart's pc, and has the effect that the instruction table gives it.
pub fn retirements_are_rows()
    ensures { (g : Geometry) (f : Flat) (v w : Machine) (s : Step) (i pc word : ℕ) (write : Option (ℕ × ℕ)) (load store : Option Access) →
        Belongs g f v → Steps g v s (Some (Retire i pc word write load store)) w → (does : Effect) × IsRow v w f i pc word write load store does }
{}

/// Each entry is led to by those before it: what a step gives, and what steps give from any machine, carries each flat state that belongs to the machine on to
/// one that belongs to the machine after it, and has its reasons after the entries that have led there.
pub fn entries_lead_on_with_reasons()
    ensures start { (g : Geometry) (s : Setting) (entry : ℕ) → AreBytes s.segments → BelongsAfter g [] (first_state s entry) (start s entry) }
    ensures step { (g : Geometry) (v w : Machine) (s : Step) (e : Option Entry) → Steps g v s e w → LeadOn g v (option_to_list e) w }
    ensures run { (g : Geometry) (v w : Machine) (steps : List Step) (es : List Entry) → Runs g v steps es w → LeadOn g v es w }
{}

/// Each refusal has its reason, in the flat state and the entries at its place: one hart refuses another, the word at the
/// requester's pc wants the block, and the refuser's transaction stands against it, or has given up a marked line and can't tell.
/// So it is of each refusal among the entries of a run, and of one that the next step gives.
pub fn refusals_have_reasons()
    ensures each { (g : Geometry) (s : Setting) (entry : ℕ) (steps : List Step) (before after : List Entry) (f : Flat) (w : Machine) (j i b : ℕ) →
        AreBytes s.segments → Runs g (start s entry) steps (before ++ Refuse j i b ∷ after) w → IsRun (first_state s entry) before f →
        RefusalHasReason f (history_of no_history before) j i b }
    ensures next { (g : Geometry) (s : Setting) (entry : ℕ) (steps : List Step) (es : List Entry) (f : Flat) (v w : Machine) (next : Step) (j i b : ℕ) →
        AreBytes s.segments → Runs g (start s entry) steps es v → IsRun (first_state s entry) es f →
        Steps g v next (Some (Refuse j i b)) w → RefusalHasReason f (history_of no_history es) j i b }
{}

/// A conditional store (SC) that succeeds has its reason: it is to the block that its hart has reserved, by the entries before, and so no other hart has stored to
/// that block since. So it is of each among the entries of a run, and of one that the next step gives.
pub fn conditional_stores_have_reasons()
    ensures each { (g : Geometry) (s : Setting) (entry : ℕ) (steps : List Step) (before after : List Entry) (w : Machine) (i pc word : ℕ) (write : Option (ℕ × ℕ)) (load store : Option Access) →
        AreBytes s.segments → Runs g (start s entry) steps (before ++ Retire i pc word write load store ∷ after) w → StoreHasReason (reservations_of before) i word store }
    ensures next { (g : Geometry) (s : Setting) (entry : ℕ) (steps : List Step) (es : List Entry) (v w : Machine) (next : Step) (i pc word : ℕ) (write : Option (ℕ × ℕ)) (load store : Option Access) →
        AreBytes s.segments → Runs g (start s entry) steps es v →
        Steps g v next (Some (Retire i pc word write load store)) w → StoreHasReason (reservations_of es) i word store }
{}

/// A conditional store (SC) that fails has its reason: its block isn't reserved, by the entries before; or in a step since the hart's last LR its line was taken, by an
/// eviction or by the request of another hart that wanted to store. Only the steps show which, since no entry tells of an unmarked line that is given up. So it is of
/// each among the entries of a run, at the machine to which the steps before it have led, and of one that the next step gives.
pub fn failed_stores_have_reasons()
    ensures each { (g : Geometry) (s : Setting) (entry : ℕ) (steps : List Step) (before after : List Entry) (f : Flat) (w : Machine) (i pc word : ℕ) (write : Option (ℕ × ℕ)) (load : Option Access) (b : ℕ) →
        AreBytes s.segments → Runs g (start s entry) steps (before ++ Retire i pc word write load None ∷ after) w → IsRun (first_state s entry) before f →
        IsOkAnd (next_of f.setting (f.hart i)) (λ e. StoresIfReserved b e.act) →
        (earlier : List Step) × (later : List Step) × (v : Machine) × (steps ≡ earlier ++ later) × Runs g (start s entry) earlier before v × FailureHasReason g (start s entry) earlier before v i b }
    ensures next { (g : Geometry) (s : Setting) (entry : ℕ) (steps : List Step) (es : List Entry) (f : Flat) (v w : Machine) (next : Step) (i pc word : ℕ) (write : Option (ℕ × ℕ)) (load : Option Access) (b : ℕ) →
        AreBytes s.segments → Runs g (start s entry) steps es v → IsRun (first_state s entry) es f → Steps g v next (Some (Retire i pc word write load None)) w →
        IsOkAnd (next_of f.setting (f.hart i)) (λ e. StoresIfReserved b e.act) → FailureHasReason g (start s entry) steps es v i b }
{}

/// A hart's reservation is one that the entries so far know of, and its block has a line.
pub fn reservations_are_known()
    ensures { (g : Geometry) (s : Setting) (entry : ℕ) (steps : List Step) (es : List Entry) (w : Machine) (i b : ℕ) →
        AreBytes s.segments → Runs g (start s entry) steps es w → i < w.setting.count → (w.harts i).reserved ≡ Some b →
        (reservations_of es i ≡ Some b) × IsSome ((w.harts i).lines b) }
{}

/// A transaction that aborts for a conflict has refused an earlier one since its begin, and was refused by an earlier one since
/// its hart last retired a word. So it is of each such abort among the entries of a run, and of one that the next step gives.
pub fn conflicts_have_reasons()
    ensures each { (g : Geometry) (s : Setting) (entry : ℕ) (steps : List Step) (before after : List Entry) (w : Machine) (i : ℕ) →
        AreBytes s.segments → Runs g (start s entry) steps (before ++ Abort i Conflict ∷ after) w → ConflictHasReason (history_of no_history before) i }
    ensures next { (g : Geometry) (s : Setting) (entry : ℕ) (steps : List Step) (es : List Entry) (v w : Machine) (next : Step) (i : ℕ) →
        AreBytes s.segments → Runs g (start s entry) steps es v →
        Steps g v next (Some (Abort i Conflict)) w → ConflictHasReason (history_of no_history es) i }
{}

/// Each Spill has its reason: its hart is in a transaction that has loaded from or stored to the block; or that has given a Spill before, so that its lines are marked
/// as they are filled, and the word at its pc accesses the block. So it is of each among the entries of a run, and of one that the next step gives.
pub fn spills_have_reasons()
    ensures each { (g : Geometry) (s : Setting) (entry : ℕ) (steps : List Step) (before after : List Entry) (f : Flat) (w : Machine) (i b : ℕ) →
        AreBytes s.segments → Runs g (start s entry) steps (before ++ Spill i b ∷ after) w → IsRun (first_state s entry) before f →
        SpillHasReason f (history_of no_history before) (footprints_of before) i b }
    ensures next { (g : Geometry) (s : Setting) (entry : ℕ) (steps : List Step) (es : List Entry) (f : Flat) (v w : Machine) (next : Step) (i b : ℕ) →
        AreBytes s.segments → Runs g (start s entry) steps es v → IsRun (first_state s entry) es f →
        Steps g v next (Some (Spill i b)) w → SpillHasReason f (history_of no_history es) (footprints_of es) i b }
{}

/// A transaction that aborts for a full log has made 113 stores since its begin that were each the first to their block, or the first since the block's last Spill;
/// and the word at its pc is one more such store. So it is of each such abort among the entries of a run, and of one that the next step gives.
pub fn full_logs_have_reasons()
    ensures each { (g : Geometry) (s : Setting) (entry : ℕ) (steps : List Step) (before after : List Entry) (f : Flat) (w : Machine) (i : ℕ) →
        AreBytes s.segments → Runs g (start s entry) steps (before ++ Abort i LogFull ∷ after) w → IsRun (first_state s entry) before f →
        FullLogHasReason f (footprints_of before) i }
    ensures next { (g : Geometry) (s : Setting) (entry : ℕ) (steps : List Step) (es : List Entry) (f : Flat) (v w : Machine) (next : Step) (i : ℕ) →
        AreBytes s.segments → Runs g (start s entry) steps es v → IsRun (first_state s entry) es f →
        Steps g v next (Some (Abort i LogFull)) w → FullLogHasReason f (footprints_of es) i }
{}
