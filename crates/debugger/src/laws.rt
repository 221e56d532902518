ghost use Rattle.std.specs.Prelude.{◌≡◌, ℕ, List, Option, Some, Ok};
ghost use Rattle.words.specs.Sinks.{SinkState, TookAll};
ghost use Rattle.disassembler.specs.Tables.{Table};
ghost use Rattle.protocol.specs.Caches.{Geometry};
ghost use Rattle.machine.specs.States.{State};
ghost use Rattle.machine.specs.Twins.{AreTwins};
ghost use Rattle.debugger.specs.Debugging.{IsDebugged};
ghost use Rattle.debugger.specs.Plays.{Plays, Talk};
ghost use Rattle.debugger.specs.Sessions.{Session};
ghost use Rattle.debugger.specs.Sure.{AreKnown, answers_surely};
ghost use Rattle.debugger.specs.Twins.{AreTwinSessions};

use crate::input::LineInput;

/// Two sessions of machines that no step tells apart are one, where their inputs are the same bytes and no memory is wanting. So many lines that no failed put or read came in: the same was told and asked, no command tells the sessions apart, and the same is left to read. And
/// sessions that have come to their end have told the same, and asked for as many lines.
pub fn sessions_are_one<I: LineInput>()
    ensures lines { (g : Geometry) (names : Table) (bytes : I → Option (List ℕ)) (prompt file : List ℕ) (n : ℕ) (v w x y : Talk Session I) → AreKnown I.gives bytes →
        AreTwinSessions g v.session w.session → bytes v.input ≡ Some file → bytes w.input ≡ Some file →
        Plays names (answers_surely g names) I.gives prompt n v x → Plays names (answers_surely g names) I.gives prompt n w y →
        AreTwinSessions g x.session y.session × (bytes x.input ≡ bytes y.input)
        × ((text : List ℕ) × TookAll v.told x.told text × TookAll w.told y.told text) × ((asked : List ℕ) × TookAll v.asked x.asked asked × TookAll w.asked y.asked asked) }
    ensures ends { (g : Geometry) (names : Table) (bytes : I → Option (List ℕ)) (prompt file : List ℕ) (v w : State) (i j k l : I)
        (told_before told_after told_earlier told_later asked_before asked_after asked_earlier asked_later : SinkState) →
        AreKnown I.gives bytes → AreTwins g v w → bytes i ≡ Some file → bytes k ≡ Some file →
        IsDebugged (answers_surely g names) names I.gives v prompt i j told_before told_after asked_before asked_after (Ok tt) →
        IsDebugged (answers_surely g names) names I.gives w prompt k l told_earlier told_later asked_earlier asked_later (Ok tt) →
        ((text : List ℕ) × TookAll told_before told_after text × TookAll told_earlier told_later text)
        × ((asked : List ℕ) × TookAll asked_before asked_after asked × TookAll asked_earlier asked_later asked) }
{}
