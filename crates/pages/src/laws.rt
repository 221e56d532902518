//! That the lines of a page tell all that changes.
ghost use Rattle.std.specs.Prelude.{ℕ, List, true, ◌≡◌, ◌<◌, Option, Some, IsSome};
ghost use Rattle.std.specs.List.{list_all};
ghost use Rattle.words.specs.declared.entry.Entry.{Entry};
ghost use Rattle.words.specs.declared.entry.Step.{Step};
ghost use Rattle.flat.specs.State.{Flat};
ghost use Rattle.network.specs.Flights.{AreNumbered};
ghost use Rattle.protocol.specs.Caches.{Geometry};
ghost use Rattle.protocol.specs.Lines.{Line};
ghost use Rattle.directory.specs.Blocks.{kept_at};
ghost use Rattle.isolation.specs.Belongs.{Belongs};
ghost use Rattle.machine.specs.States.{State, setting_of, shown};
ghost use Rattle.schedule.specs.Runs.{Makes};
ghost use Rattle.pages.specs.Names.{is_spelling, quoted};
ghost use Rattle.pages.specs.Told.{ChangesWhatIsTold};

/// What the line of a moment doesn't tell is as it was before, and the ways of lines follow from what is told. (Each message in flight before has a number below the next, as in any machine.)
pub fn what_is_not_told_stays()
    ensures { (g : Geometry) (v w : State) (step : Step) (e : Option Entry) → AreNumbered v.flights v.sent → Makes g v (Some step) e w → ChangesWhatIsTold g.sets v step w }
{}

/// A line that tells of a hart tells all lines of its cache: the directory has an entry of the block of each.
pub fn all_lines_are_told()
    ensures { (g : Geometry) (f : Flat) (m : State) (i b : ℕ) (l : Line) → Belongs g f (shown g.sets m) → i < (setting_of m).count →
        ((shown g.sets m).harts i).lines b ≡ Some l → IsSome (kept_at m.directory b) }
{
    isolation::lines_agree();
}

/// A name's text in a page has letters, digits, spaces, plus signs, dots, low lines and backslashes alone, whatever bytes the name has. So no name ends the
/// string of JavaScript that it stands in, and none is markup.
pub fn names_are_no_markup()
    ensures { (name : List ℕ) → list_all is_spelling (quoted name) ≡ true }
{}
