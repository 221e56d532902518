ghost use Rattle.std.specs.Prelude.{◌≡◌, ◌-◌, ℕ, List, length};
ghost use Rattle.words.specs.declared.entry.Entry.{Entry};
ghost use Rattle.loader.specs.Programs.{Program};
ghost use Rattle.protocol.specs.Caches.{Geometry};
ghost use Rattle.protocol.specs.Start.{start};
ghost use Rattle.machine.specs.States.{State, setting_of, shown};
ghost use Rattle.machine.specs.Twins.{AreTwins};
ghost use Rattle.machine.specs.Unused.{IsUnused};
ghost use Rattle.schedule.specs.declared.choices.Choice.{Choice};
ghost use Rattle.schedule.specs.Moments.{Moment, entries_of};
ghost use Rattle.schedule.specs.Runs.{Follows};
ghost use Rattle.board.specs.Histories.{IsCourse, first_flat};

/// A history makes its board's machine again: as many steps by its choices, from where the program begins, lead to a twin of that machine, with the same
/// entries.
pub fn a_history_makes_its_machine()
    ensures machine { (g : Geometry) (p : Program) (n size : ℕ) (choices : List Choice) (es : List Entry) (m first w : State) (ms : List Moment) →
        IsCourse g p n size choices es m → shown g.sets first ≡ start (first_flat p n size).setting p.entry → IsUnused g first →
        Follows g choices (length choices) first ((setting_of first).count - 1) ms w → AreTwins g m w }
    ensures entries { (g : Geometry) (p : Program) (n size : ℕ) (choices : List Choice) (es : List Entry) (m first w : State) (ms : List Moment) →
        IsCourse g p n size choices es m → shown g.sets first ≡ start (first_flat p n size).setting p.entry → IsUnused g first →
        Follows g choices (length choices) first ((setting_of first).count - 1) ms w → es ≡ entries_of ms }
{}
