ghost use Rattle.std.specs.Prelude.{◌≡◌, ℕ, Option, Some, slice_get};
ghost use Rattle.words.specs.declared.entry.Entry.{Entry};
ghost use Rattle.words.specs.declared.entry.Step.{Step};
ghost use Rattle.cache.specs.Sets.{IsSound};
ghost use Rattle.protocol.specs.Caches.{Geometry};
ghost use Rattle.protocol.specs.Machine.{Steps};
ghost use Rattle.machine.specs.Making.{MakesStep};
ghost use Rattle.machine.specs.States.{Seat, State, shown};
ghost use Rattle.machine.specs.Turns.{IsNextTurn};
ghost use Rattle.machine.specs.Twins.{AreTwins};
ghost use Rattle.machine.specs.Unused.{IsUnused};

/// A step that is made of a machine is one of the protocol's.
pub fn steps_that_are_made_are_steps()
    ensures { (g : Geometry) (v w : State) (step : Step) (e : Option Entry) → MakesStep g v step e w → Steps g (shown g.sets v) step e (shown g.sets w) }
{}

/// A step has one outcome: of twins it makes twins, and gives one entry. Machines of which no step was made are twins if they are one machine of the
/// protocol; and a machine is its own twin.
pub fn a_step_has_one_outcome()
    ensures first { (g : Geometry) (v w : State) → shown g.sets v ≡ shown g.sets w → IsUnused g v → IsUnused g w → AreTwins g v w }
    ensures itself { (g : Geometry) (v : State) → ((i : ℕ) (seat : Seat) → slice_get v.seats i ≡ Some seat → IsSound g.sets g.ways seat.hart.cache) → AreTwins g v v }
    ensures entry { (g : Geometry) (v w u x : State) (step : Step) (d e : Option Entry) → AreTwins g v w → MakesStep g v step d u → MakesStep g w step e x → d ≡ e }
    ensures machine { (g : Geometry) (v w u x : State) (step : Step) (d e : Option Entry) → AreTwins g v w → MakesStep g v step d u → MakesStep g w step e x → AreTwins g u x }
{}

/// One step at most is the turn after a hart's, and it is the same of twins.
pub fn a_turn_is_one_step()
    ensures { (g : Geometry) (v w : State) (after : ℕ) (s t : Option Step) → AreTwins g v w →
        IsNextTurn (shown g.sets v) v.flights after s → IsNextTurn (shown g.sets w) w.flights after t → s ≡ t }
{}
