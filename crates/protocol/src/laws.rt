ghost use Rattle.std.specs.Prelude.{◌≡◌, ◌≢◌, ◌≤◌, ◌↔◌, ◌++◌, ◌∷◌, ℕ, List, Option, Some, None};
ghost use Rattle.words.specs.declared.entry.Entry.{Entry};
ghost use Rattle.words.specs.declared.entry.Step.{Step};
ghost use Rattle.words.specs.declared.entry.Step.TheVariants.{Core, Deliver};
ghost use Rattle.words.specs.declared.cause.Status.TheVariants.{Running};
ghost use Rattle.flat.specs.State.{Setting};
ghost use Rattle.protocol.specs.Caches.{Geometry};
ghost use Rattle.protocol.specs.Messages.{Message, receiver_of, block_of};
ghost use Rattle.protocol.specs.Directory.{directory_row};
ghost use Rattle.protocol.specs.Machine.{Machine, Steps, Runs};
ghost use Rattle.protocol.specs.Network.{LiesBelow};
ghost use Rattle.protocol.specs.Start.{start};
ghost use Rattle.protocol.specs.Values.{in_place, raw, peek, view};

/// A machine starts with no message in flight.
pub fn nothing_is_in_flight_at_the_start()
    ensures { (s : Setting) (entry key : ℕ) → (start s entry).net key ≡ None }
{}

/// A core step of a hart that has exited or was stopped changes nothing and gives no entry.
pub fn stopped_harts_rest()
    ensures { (g : Geometry) (v w : Machine) (i : ℕ) (e : Option Entry) →
        (v.harts i).status ≢ Running → Steps g v (Core i) e w → (e ≡ None) × (w ≡ v) }
{}

/// A message that the directory holds stays in flight, and nothing else happens.
pub fn held_messages_stay()
    ensures { (g : Geometry) (v w : Machine) (key : ℕ) (m : Message) (e : Option Entry) →
        v.net key ≡ Some m → receiver_of m ≡ None →
        directory_row v.setting.count m (v.entries (block_of m)) (v.memory (block_of m)) ≡ None →
        Steps g v (Deliver key) e w → (e ≡ None) × (w ≡ v) }
{}

/// Text, size of memory and number of harts stay as they are.
pub fn settings_stay()
    ensures { (g : Geometry) (v w : Machine) (s : Step) (e : Option Entry) → Steps g v s e w → w.setting ≡ v.setting }
{}

/// A run splits at any place: of two lists of steps it is a run of the first, and then one of the second; and each of its entries
/// was given by one of its steps, with the entries before it by the steps before, and those after by the steps after.
pub fn runs_split()
    ensures steps { (g : Geometry) (v w : Machine) (first second : List Step) (es : List Entry) → Runs g v (first ++ second) es w ↔
        ((u : Machine) × (fs : List Entry) × (gs : List Entry) × Runs g v first fs u × Runs g u second gs w × (es ≡ fs ++ gs)) }
    ensures entry { (g : Geometry) (v w : Machine) (steps : List Step) (before after : List Entry) (e : Entry) → Runs g v steps (before ++ e ∷ after) w →
        (first : List Step) × (s : Step) × (second : List Step) × (u : Machine) × (x : Machine) ×
        (steps ≡ first ++ s ∷ second) × Runs g v first before u × Steps g u s (Some e) x × Runs g x second after w }
{}

/// Looking under more keys than messages lie below finds no other value.
pub fn more_keys_change_no_value()
    ensures in_place { (w : Machine) (keys more b : ℕ) → LiesBelow keys w.net → keys ≤ more → in_place more w b ≡ in_place keys w b }
    ensures raw { (w : Machine) (keys more a : ℕ) → LiesBelow keys w.net → keys ≤ more → raw more w a ≡ raw keys w a }
    ensures peek { (w : Machine) (keys more a : ℕ) → LiesBelow keys w.net → keys ≤ more → peek more w a ≡ peek keys w a }
    ensures view { (w : Machine) (keys more i a : ℕ) → LiesBelow keys w.net → keys ≤ more → view more w i a ≡ view keys w i a }
{}
