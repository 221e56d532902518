ghost use Rattle.std.specs.Prelude.{◌≡◌, ◌≢◌, ◌<◌, ℕ, List};
ghost use Rattle.words.specs.declared.entry.Entry.{Entry};
ghost use Rattle.words.specs.declared.entry.Step.{Step};
ghost use Rattle.words.specs.declared.cause.Status.TheVariants.{Running};
ghost use Rattle.table.specs.Program.{AreBytes};
ghost use Rattle.flat.specs.State.{Setting, Flat};
ghost use Rattle.flat.specs.Start.{first_state};
ghost use Rattle.flat.specs.Steps.{IsRun};
ghost use Rattle.protocol.specs.Caches.{Geometry};
ghost use Rattle.protocol.specs.Machine.{Machine, Runs};
ghost use Rattle.protocol.specs.Start.{start};
ghost use Rattle.isolation.specs.Belongs.{Belongs};
ghost use Rattle.isolation.specs.Moves.{Moves, Place, first_place};
ghost use Rattle.flat.specs.Reservations.{reservations_of};
ghost use Rattle.isolation.specs.Walks.{IsEnded, Walks, WalksInOrder, entries_of};
ghost use Rattle.isolation.specs.Reasons.{HaveReasons};

/// A walk in order is a walk, and the entries of its moves, one after another, are a run of the flat machine.
pub fn walks_are_runs()
    ensures order { (p q : Place) (ess : List (List Entry)) → WalksInOrder p ess q → Walks p ess q }
    ensures run { (p q : Place) (ess : List (List Entry)) → Walks p ess q → IsRun p.flat (entries_of ess) q.flat }
{}

/// Text, size of memory and number of harts stay as they are.
pub fn settings_stay_along_walks()
    ensures each { (f g : Flat) (es : List Entry) → Moves f es g → g.setting ≡ f.setting }
    ensures all { (p q : Place) (ess : List (List Entry)) → Walks p ess q → q.flat.setting ≡ p.flat.setting }
{}

/// Where no hart runs, there is no move.
pub fn ended_states_are_last()
    ensures { (f g : Flat) (es : List Entry) → IsEnded f → Moves f es g → ⊥ }
{}

/// A conflict's abort may come just where another hart is in a transaction: where all entries have their reasons, a run from a program's first state and some
/// walk have the same end, with the reservations that the entries leave.
pub fn conflicts_come_beside_others()
    ensures { (s : Setting) (entry : ℕ) (es : List Entry) (f : Flat) → HaveReasons (first_state s entry) es → IsRun (first_state s entry) es f →
        (ess : List (List Entry)) × Walks (first_place s entry) ess (record { flat = f; reserved = reservations_of es }) }
{}

/// In each run of the coherent machine from where a program begins, refusals and conflicts have their reasons.
pub fn coherent_runs_have_reasons()
    ensures { (g : Geometry) (s : Setting) (entry : ℕ) (steps : List Step) (es : List Entry) (w : Machine) →
        AreBytes s.segments → Runs g (start s entry) steps es w → HaveReasons (first_state s entry) es }
{}

/// Words that nobody else sees need no interleaving: each end of a walk is the end of a walk in order.
pub fn local_words_need_no_interleaving()
    ensures { (p q : Place) (ess : List (List Entry)) → Walks p ess q → IsEnded q.flat → (fss : List (List Entry)) × WalksInOrder p fss q }
{}

/// All ends are reached: for every geometry and every list of core, eviction and delivery steps from where a program begins to
/// a machine whose harts have all stopped, a flat state belongs to the machine that is the end of a walk in order from the program's
/// first state.
pub fn ends_are_reached()
    ensures { (g : Geometry) (s : Setting) (entry : ℕ) (steps : List Step) (es : List Entry) (w : Machine) →
        AreBytes s.segments → Runs g (start s entry) steps es w → ((i : ℕ) → i < s.count → (w.harts i).status ≢ Running) →
        (f : Flat) × (ess : List (List Entry)) × WalksInOrder (first_place s entry) ess (record { flat = f; reserved = reservations_of es }) × IsEnded f × Belongs g f w }
{}
