ghost use Rattle.std.specs.Prelude.{◌≡◌, ◌≢◌, ◌<◌, ◌≤◌, ℕ, List, [], Bool, true, false, Option, Some};
ghost use Rattle.std.specs.Borrow.{Bor};
ghost use Rattle.std.specs.List.{Contains};
ghost use Rattle.words.specs.Sinks.{SinkState, TookAll};
ghost use Rattle.words.specs.declared.entry.Entry.{Entry};
ghost use Rattle.words.specs.declared.entry.Step.{Step};
ghost use Rattle.words.specs.declared.cause.Status.TheVariants.{Running};
ghost use Rattle.flat.specs.State.{Flat};
ghost use Rattle.flat.specs.Steps.{IsRun};
ghost use Rattle.protocol.specs.Caches.{Geometry};
ghost use Rattle.protocol.specs.Machine.{Machine, Runs};
ghost use Rattle.protocol.specs.Start.{start};
ghost use Rattle.isolation.specs.Belongs.{Belongs};
ghost use Rattle.loader.specs.Programs.{Program};
ghost use Rattle.render.specs.Reports.{report_of};
ghost use Rattle.isolation.specs.Walks.{IsEnded};
ghost use Rattle.outcomes.specs.declared.gathering.End.{End};
ghost use Rattle.outcomes.specs.Ends.{reports_of};
ghost use Rattle.requests.specs.EndTexts.{ends_text};
ghost use Rattle.command_line.specs.Runs.{shown};
ghost use Rattle.command_line.specs.declared.request.Print.{Print};
ghost use Rattle.command_line.specs.declared.request.Print.TheVariants as print;
ghost use Rattle.command_line.specs.declared.request.Run.{Run};
ghost use Rattle.command_line.specs.declared.request.Search.{Search};
ghost use Rattle.command_line.specs.declared.request.Setup.{Setup};
ghost use Rattle.command_line.specs.declared.request.Show.{Show};
ghost use Rattle.command_line.specs.declared.request.Show.TheVariants.{Report};
ghost use Rattle.schedule.specs.Courses.{Behind, IsTold};
ghost use Rattle.schedule.specs.Courses.Behind.{Chance, Turns};
ghost use Rattle.schedule.specs.declared.choices.Choice.{Choice};
ghost use Rattle.schedule.specs.Moments.{Moment, entries_of};
ghost use Rattle.requests.specs.Ends.{search_start, AreEndsGiven};
ghost use Rattle.requests.specs.Files.{IsListed, IsImageOf};
ghost use Rattle.requests.specs.Runs.{ComesBy, addresses};
ghost use Rattle.requests.specs.Schedules.{HasSteps};
ghost use Rattle.debugger.specs.Sure.{AreKnown, answers_surely};
ghost use Rattle.simulate.specs.Debugging.{IsPlayedByHand};
ghost use Rattle.simulate.specs.Given.{IsGiven};
ghost use Rattle.simulate.specs.Kept.{IsGivenAndKept, IsHistoryOf};
ghost use Rattle.simulate.specs.Promise.{IsPromised};
ghost use Rattle.simulate.specs.Threaded.{IsGivenInThreads, history_text, with_steps};
ghost use Rattle.requests.specs.Outputs.{Sinks, Texts, TakeAll};
ghost use Rattle.requests.specs.Sources.{IsProgramIn, IsSourceOf, is_source};
ghost use Rattle.requests.specs.Starts.{flat_start};

use debugger::LineInput;

/// The promise: of whatever a run shows, with status 0, 1 or 5, the report is one on a run of the flat machine: of one memory, in which each transaction is as
/// if it ran alone, and each refusal, each spill, each abort for a conflict or a full log and each SC that stores has its reason. The run begins where the
/// file's program begins, and its entries are those of the steps that the request makes: of its schedule and then turns, of its seed, as its history says,
/// or of the history of its threads. A trace that is shown has just those. Two promises of one request, whose choices are told, are of one text and one status.
pub fn reports_are_of_the_flat_machine()
    ensures run { (g : Geometry) (run : Run) (behind : Behind) (show : Show) (file list : List ℕ) (before after : Sinks) (status : ℕ) →
        IsGiven g run behind show file list before after status → IsPromised g run behind show file list before after status }
    ensures kept { (g : Geometry) (run : Run) (print : Print) (path : Bor (List ℕ)) (file list : List ℕ) (before after : Sinks) (status : ℕ) →
        IsGivenAndKept g run print path file list before after status → (chosen : List Choice) × ((history : List ℕ) × IsHistoryOf run.steps list chosen history
        × TookAll before.file after.file history) × IsPromised g run (Chance (Some chosen)) (shown print) file list before after status }
    ensures threads { (g : Geometry) (run : Run) (history : Option (Bor (List ℕ))) (file : List ℕ) (before after : Sinks) (status : ℕ) →
        IsGivenInThreads g run history file before after status → (list : List ℕ) × (n : ℕ) × HasSteps list n × TookAll before.file after.file (history_text history list)
        × IsPromised g (with_steps run n) Turns Report file list before after status }
    ensures one { (g : Geometry) (run : Run) (behind : Behind) (show : Show) (file list : List ℕ) (before after earlier later : Sinks) (status other : ℕ) → IsTold behind →
        IsPromised g run behind show file list before after status → IsPromised g run behind show file list earlier later other →
        (other ≡ status) × ((text : List ℕ) × TookAll before.output after.output text × TookAll earlier.output later.output text) }
{}

/// Where a search ends with status 0, all ends are told: for every cache, and for every list of core, eviction and delivery steps from where the file's
/// program begins to a machine whose harts have all stopped, the report on that machine is among those that standard output took.
pub fn all_ends_are_told()
    ensures { (asked : Search) (file : List ℕ) (before after : Sinks) → AreEndsGiven asked file before after 0 →
        (p : Program) × IsProgramIn asked.file.now file p × ((ends : List End) × (states : ℕ) × TookAll before.output after.output (ends_text ends states true)
        × ((g : Geometry) (steps : List Step) (es : List Entry) (w : Machine) (f : Flat) →
        Runs g (start (search_start asked p).setting p.entry) steps es w → ((i : ℕ) → i < asked.harts → (w.harts i).status ≢ Running) → Belongs g f w →
        Contains (reports_of ends) (report_of f (addresses asked.words.items)))) }
{}

/// Each end that is told is reached: standard output took reports of runs of the flat machine, from the state that the file's program begins in to
/// one in which no hart runs.
pub fn told_ends_are_reached()
    ensures { (asked : Search) (file : List ℕ) (before after : Sinks) (status : ℕ) → AreEndsGiven asked file before after status →
        (p : Program) × IsProgramIn asked.file.now file p × ((ends : List End) × (states : ℕ) × (all : Bool) × TookAll before.output after.output (ends_text ends states all)
        × ((report : List ℕ) → Contains (reports_of ends) report →
        (f : Flat) × (es : List Entry) × IsRun (search_start asked p) es f × IsEnded f × (report ≡ report_of f (addresses asked.words.items)))) }
{}

/// Two searches of one program that both end with status 0 tell the same reports, whatever their limits are and whatever else they are asked for: with the
/// same harts, memory and words.
pub fn told_ends_are_one()
    ensures { (asked again : Search) (file : List ℕ) (before after earlier later : Sinks) → AreEndsGiven asked file before after 0 → AreEndsGiven again file earlier later 0 →
        again.file.now ≡ asked.file.now → again.harts ≡ asked.harts → again.memory ≡ asked.memory → addresses again.words.items ≡ addresses asked.words.items →
        (ends others : List End) × (n m : ℕ) × TookAll before.output after.output (ends_text ends n true) × TookAll earlier.output later.output (ends_text others m true)
        × (reports_of ends ≡ reports_of others) }
{}

/// The file with a name and some bytes holds at most one program.
pub fn files_hold_one_program()
    ensures { (path file : List ℕ) (p q : Program) → IsProgramIn path file p → IsProgramIn path file q → q ≡ p }
{}

/// Two listings of the same bytes are one text, with one status.
pub fn listings_are_one()
    ensures { (file : List ℕ) (before after earlier later : SinkState) (status other : ℕ) → IsListed file before after status → IsListed file earlier later other →
        (other ≡ status) × ((text : List ℕ) × TookAll before after text × TookAll earlier later text) }
{}

/// Two files that a source is assembled to have the same bytes.
pub fn assembled_files_are_one()
    ensures { (source image other : List ℕ) → IsImageOf source image → IsImageOf source other → other ≡ image }
{}

/// From a source to a run: what a run of the assembled file comes to, the flat machine comes to from where the source's program begins.
pub fn assembled_files_run_as_spelled()
    ensures { (g : Geometry) (setup : Setup) (behind : Behind) (source image list : List ℕ) (steps : ℕ) (moments : List Moment) (f : Flat) →
        IsImageOf source image → is_source setup.file.now ≡ false → ComesBy g setup behind image list steps moments f →
        (p : Program) × IsSourceOf source p × IsRun (flat_start p setup) (entries_of moments) f }
{}

/// Two runs of one file by one schedule, behind which come turns or choices of chance that were kept, give one report and one status, and all that they show
/// beside it is one: the trace, the counts, the timeline, the picture, the page.
pub fn reports_are_one()
    ensures { (g : Geometry) (run : Run) (behind : Behind) (show : Show) (file list : List ℕ) (before after earlier later : Sinks) (status other : ℕ) →
        IsTold behind → IsGiven g run behind show file list before after status → IsGiven g run behind show file list earlier later other →
        (other ≡ status) × ((texts : Texts) × TakeAll before after texts × TakeAll earlier later texts) }
{}

/// Two sessions of one request, one file and one input tell one text and ask for as many lines, where both come to their end with status 0 and no memory is wanting.
pub fn sessions_by_hand_are_one<I: LineInput>()
    ensures { (g : Geometry) (bytes : I → Option (List ℕ)) (setup : Setup) (file prompt lines : List ℕ) (i j k l : I)
        (told_before told_after asked_before asked_after told_earlier told_later asked_earlier asked_later : SinkState) →
        AreKnown I.gives bytes → bytes i ≡ Some lines → bytes k ≡ Some lines →
        IsPlayedByHand answers_surely g I.gives setup file prompt i j told_before told_after asked_before asked_after 0 →
        IsPlayedByHand answers_surely g I.gives setup file prompt k l told_earlier told_later asked_earlier asked_later 0 →
        ((text : List ℕ) × TookAll told_before told_after text × TookAll told_earlier told_later text)
        × ((asked : List ℕ) × TookAll asked_before asked_after asked × TookAll asked_earlier asked_later asked) }
{}

/// Two runs in threads of one file that have written one history, each in an empty file, give one report and one status.
pub fn threaded_reports_are_one()
    ensures { (g : Geometry) (run : Run) (path : Bor (List ℕ)) (file history : List ℕ) (before after earlier later : Sinks) (status other : ℕ) →
        before.file.taken ≡ Some [] → after.file.taken ≡ Some history → earlier.file.taken ≡ Some [] → later.file.taken ≡ Some history →
        IsGivenInThreads g run (Some path) file before after status → IsGivenInThreads g run (Some path) file earlier later other →
        (other ≡ status) × ((report : List ℕ) × TookAll before.output after.output report × TookAll earlier.output later.output report) }
{}

/// A run in threads is made again by the history that it has written, in an empty file: a run by that schedule gives one report and one status with it, where
/// it has as many steps; and where it has more, unless a hart still ran.
pub fn a_history_gives_its_report()
    ensures steps { (g : Geometry) (run : Run) (path : Bor (List ℕ)) (file history : List ℕ) (n : ℕ) (before after earlier later : Sinks) (status other : ℕ) →
        before.file.taken ≡ Some [] → after.file.taken ≡ Some history → HasSteps history n →
        IsGivenInThreads g run (Some path) file before after status → IsGiven g (with_steps run n) Turns Report file history earlier later other →
        (other ≡ status) × ((report : List ℕ) × TookAll before.output after.output report × TookAll earlier.output later.output report) }
    ensures ended { (g : Geometry) (run : Run) (path : Bor (List ℕ)) (file history : List ℕ) (n m : ℕ) (before after earlier later : Sinks) (status other : ℕ) →
        before.file.taken ≡ Some [] → after.file.taken ≡ Some history → HasSteps history n → n ≤ m → status ≢ 5 →
        IsGivenInThreads g run (Some path) file before after status → IsGiven g (with_steps run m) Turns Report file history earlier later other →
        (other ≡ status) × ((report : List ℕ) × TookAll before.output after.output report × TookAll earlier.output later.output report) }
{}

/// A run by chance is made again by the history that it has written, in an empty file: a run by that schedule gives one text and one status with it, where it
/// has as many steps; and where it has more and only the report is shown, unless a hart still ran.
pub fn a_kept_history_gives_its_report()
    ensures steps { (g : Geometry) (run : Run) (print : Print) (path : Bor (List ℕ)) (file list history : List ℕ) (n : ℕ) (before after earlier later : Sinks) (status other : ℕ) →
        before.file.taken ≡ Some [] → after.file.taken ≡ Some history → HasSteps history n →
        IsGivenAndKept g run print path file list before after status → IsGiven g (with_steps run n) Turns (shown print) file history earlier later other →
        (other ≡ status) × ((text : List ℕ) × TookAll before.output after.output text × TookAll earlier.output later.output text) }
    ensures ended { (g : Geometry) (run : Run) (path : Bor (List ℕ)) (file list history : List ℕ) (n m : ℕ) (before after earlier later : Sinks) (status other : ℕ) →
        before.file.taken ≡ Some [] → after.file.taken ≡ Some history → HasSteps history n → n ≤ m → status ≢ 5 →
        IsGivenAndKept g run print.Report path file list before after status → IsGiven g (with_steps run m) Turns Report file history earlier later other →
        (other ≡ status) × ((report : List ℕ) × TookAll before.output after.output report × TookAll earlier.output later.output report) }
{}
