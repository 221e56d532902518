ghost use Rattle.std.specs.Prelude.{ℕ, ◌≡◌, ◌++◌, All, List, Option, Some, IsUtf8, length, take};
ghost use Rattle.protocol.specs.Caches.{Geometry};
ghost use Rattle.machine.specs.States.{State};
ghost use Rattle.machine.specs.Twins.{AreTwins};
ghost use Rattle.schedule.specs.declared.choices.Choice.{Choice};
ghost use Rattle.schedule.specs.Lines.{lines_of, AreSpelledBy};
ghost use Rattle.schedule.specs.Moments.{Moment, entries_of};
ghost use Rattle.schedule.specs.Runs.{Follows, FollowsThen};
ghost use Rattle.schedule.specs.Twins.{AreTwinRuns};
ghost use Rattle.schedule.specs.Written.{text_of, IsReadable};

/// The text of choices whose lines can be read again is a schedule, and spells just these choices.
pub fn written_choices_are_read()
    ensures text { (choices : List Choice) → All IsReadable choices → IsUtf8 (text_of choices) }
    ensures spelled { (choices : List Choice) → All IsReadable choices → AreSpelledBy (lines_of (text_of choices)) choices }
{}

/// What was made of a list, and what chance chose behind it, is a schedule of as many steps: it makes the same run.
pub fn chosen_steps_are_played_again()
    ensures { (g : Geometry) (choices chosen : List Choice) (n : ℕ) (v : State) (after : ℕ) (ms : List Moment) (w : State) →
        FollowsThen (Some chosen) g choices n v after ms w →
        Follows g (take n choices ++ chosen) (length (take n choices ++ chosen)) v after ms w }
{}

/// A schedule makes one run, whether turns come behind it or choices of chance that were kept: from twins it leads to twins, moment by moment, and gives the
/// same entries.
pub fn a_schedule_makes_one_run()
    ensures moments { (g : Geometry) (behind : Option (List Choice)) (choices : List Choice) (n : ℕ) (v w u x : State) (after : ℕ) (ms ns : List Moment) → AreTwins g v w →
        FollowsThen behind g choices n v after ms u → FollowsThen behind g choices n w after ns x → AreTwinRuns g ms ns }
    ensures machine { (g : Geometry) (behind : Option (List Choice)) (choices : List Choice) (n : ℕ) (v w u x : State) (after : ℕ) (ms ns : List Moment) → AreTwins g v w →
        FollowsThen behind g choices n v after ms u → FollowsThen behind g choices n w after ns x → AreTwins g u x }
    ensures entries { (g : Geometry) (ms ns : List Moment) → AreTwinRuns g ms ns → entries_of ms ≡ entries_of ns }
{}
