ghost use Rattle.std.specs.Prelude.{◌≡◌, ◌≢◌, ◌<◌, ℕ, List, true};
ghost use Rattle.std.specs.List.{Contains};
ghost use Rattle.words.specs.declared.entry.Entry.{Entry};
ghost use Rattle.words.specs.declared.entry.Step.{Step};
ghost use Rattle.words.specs.declared.cause.Status.TheVariants.{Running};
ghost use Rattle.table.specs.Program.{AreBytes};
ghost use Rattle.flat.specs.State.{Setting, Flat};
ghost use Rattle.protocol.specs.Caches.{Geometry};
ghost use Rattle.protocol.specs.Machine.{Machine, Runs};
ghost use Rattle.protocol.specs.Start.{start};
ghost use Rattle.isolation.specs.Belongs.{Belongs};
ghost use Rattle.isolation.specs.Moves.{Place, first_place};
ghost use Rattle.isolation.specs.Walks.{IsEnded, WalksInOrder};
ghost use Rattle.render.specs.Reports.{report_of};
ghost use Rattle.outcomes.specs.declared.breadth_first.Outcomes.{Outcomes};
ghost use Rattle.outcomes.specs.Searches.{Finds};
ghost use Rattle.outcomes.specs.declared.gathering.End.{End};
ghost use Rattle.outcomes.specs.Ends.{AreEndsOf, reports_of};

/// Where a search found all states, each end of a walk in order has its report in the list.
pub fn all_ends_are_listed()
    ensures { (first : Place) (limit : ℕ) (o : Outcomes) (words : List ℕ) (ends : List End) → Finds first limit o → o.is_all ≡ true → AreEndsOf o words ends →
        (ess : List (List Entry)) (q : Place) → WalksInOrder first ess q → IsEnded q.flat → Contains (reports_of ends) (report_of q.flat words) }
{}

/// Nothing is made up: each report in the list is that of an end of a walk in order, also where there are more states.
pub fn listed_ends_are_reached()
    ensures { (first : Place) (limit : ℕ) (o : Outcomes) (words : List ℕ) (ends : List End) → Finds first limit o → AreEndsOf o words ends →
        (r : List ℕ) → Contains (reports_of ends) r → (ess : List (List Entry)) × (q : Place) × WalksInOrder first ess q × IsEnded q.flat × (report_of q.flat words ≡ r) }
{}

/// Two searches that found all states, whatever their limits, have one list of reports.
pub fn lists_are_one()
    ensures { (first : Place) (limit other : ℕ) (o p : Outcomes) (words : List ℕ) (ends others : List End) → Finds first limit o → Finds first other p →
        o.is_all ≡ true → p.is_all ≡ true → AreEndsOf o words ends → AreEndsOf p words others → reports_of ends ≡ reports_of others }
{}

/// Each end is told: for every geometry and every list of core, eviction and delivery steps from where a program begins to a machine whose harts have
/// all stopped, the report on each flat state that belongs to the machine is in the list, where the search of the program found all states.
pub fn end_is_told()
    ensures { (g : Geometry) (s : Setting) (entry : ℕ) (steps : List Step) (es : List Entry) (w : Machine) →
        AreBytes s.segments → Runs g (start s entry) steps es w → ((i : ℕ) → i < s.count → (w.harts i).status ≢ Running) →
        (limit : ℕ) (o : Outcomes) (words : List ℕ) (ends : List End) → Finds (first_place s entry) limit o → o.is_all ≡ true → AreEndsOf o words ends →
        (f : Flat) → Belongs g f w → Contains (reports_of ends) (report_of f words) }
{}
