ghost use Rattle.std.specs.Prelude.{◌≡◌, MatchOption, MatchResult, None, Some, false, true};
ghost use Rattle.command_line.specs.Runs.{IsRunFault, IsRunOf, IsShowFault, IsShowOf, IsTimelineAlone, IsTraceAlone};
ghost use Rattle.command_line.specs.Runs.{IsInFile, IsWayFault, IsWayOf, can_keep, drawing_at, reads, shown, stands_alone};

use crate::argument::Argument;
use crate::fault::OrderFault;
use crate::request::{
    Chance, MOST_DRAWN, MOST_PAGED, Mix, Print, Run, Setup, Show, Stats, View, Way, Word,
};

/// The weights where none are given.
const DEFAULT_MIX: Mix = Mix {
    cores: 30,
    arrivals: 30,
    evictions: 1,
};

/// What a command line says of a run, each option by itself.
#[derive(Drop)]
pub(crate) struct Options<'a> {
    pub setup: Setup<'a>,
    pub steps: u32,
    pub schedule: Option<&'a str>,
    pub seed: Option<u32>,
    pub mix: Option<Mix>,
    pub stats: Option<Stats>,
    pub trace: Option<&'a str>,
    pub timeline: Option<&'a str>,
    pub threads: bool,
    pub history: Option<&'a str>,
    pub words: Vec<Word<'a>>,
}

impl<'a> Options<'a> {
    /// The run that they ask for, if they go together.
    pub(crate) fn run(self) -> Result<Run<'a>, OrderFault<'a>>
        ensures { MatchResult result (IsRunOf self.entry) (IsRunFault self.entry) }
    {
        let show = self.show()?;
        let way = self.way(show)?;
        Ok(Run {
            setup: self.setup,
            steps: self.steps,
            way,
            words: self.words,
        })
    }

    /// What is shown of the run.
    fn show(&self) -> Result<Show<'a>, OrderFault<'a>>
        ensures { MatchResult result (IsShowOf self.now) (IsShowFault self.now) }
    {
        match (self.stats, self.trace, self.timeline) {
            (None, None, None) => Ok(Show::Report),
            (Some(stats), None, None) => Ok(Show::Counts(stats)),
            (None, Some(path), None) => self.trace_to(path),
            (None, None, Some(path)) => self.timeline_to(path),
            _ => Err(OrderFault::TwoViews),
        }
    }

    /// The trace that goes to a path.
    fn trace_to(&self, path: &'a str) -> Result<Show<'a>, OrderFault<'a>>
        requires { IsTraceAlone self.now path }
        ensures { MatchResult result (IsShowOf self.now) (IsShowFault self.now) }
    {
        if path == "-" {
            return Ok(Show::Trace);
        }
        if self.reads(path) {
            return Err(OrderFault::Value(Argument::Trace, path));
        }
        Ok(Show::View(View::Trace, path))
    }

    /// The timeline that goes to a path, in the form that its ending names.
    fn timeline_to(&self, path: &'a str) -> Result<Show<'a>, OrderFault<'a>>
        requires { IsTimelineAlone self.now path }
        ensures { MatchResult result (IsShowOf self.now) (IsShowFault self.now) }
    {
        if self.reads(path) {
            return Err(OrderFault::Value(Argument::Timeline, path));
        }
        match drawing_at(path) {
            Some(View::Picture) if self.steps > MOST_DRAWN => Err(OrderFault::LongPicture),
            Some(View::Page) if self.steps > MOST_PAGED => Err(OrderFault::LongPage),
            Some(view) => Ok(Show::View(view, path)),
            None => Err(OrderFault::Value(Argument::Timeline, path)),
        }
    }

    /// How the run is made, of which this is shown.
    fn way(&self, show: Show<'a>) -> Result<Way<'a>, OrderFault<'a>>
        ensures { MatchResult result (IsWayOf self.now show.entry) (IsWayFault self.now show.entry) }
    {
        if self.threads {
            return self.threaded(show);
        }
        match self.seed {
            Some(seed) => self.by_chance(seed, show),
            None => self.by_turns(show),
        }
    }

    /// A run in threads.
    fn threaded(&self, show: Show<'a>) -> Result<Way<'a>, OrderFault<'a>>
        requires { self.now.threads ≡ true }
        ensures { MatchResult result (IsWayOf self.now show.entry) (IsWayFault self.now show.entry) }
    {
        if !self.stands_alone(show) {
            return Err(OrderFault::ThreadsAlone);
        }
        match self.history {
            Some(path) if !self.can_keep(path) => Err(OrderFault::Value(Argument::History, path)),
            history => Ok(Way::Threads { history }),
        }
    }

    /// A run by turns, behind its schedule.
    fn by_turns(&self, show: Show<'a>) -> Result<Way<'a>, OrderFault<'a>>
        requires threads { self.now.threads ≡ false }
        requires seed { self.now.seed ≡ None }
        ensures { MatchResult result (IsWayOf self.now show.entry) (IsWayFault self.now show.entry) }
    {
        match (self.history, self.mix) {
            (None, None) => Ok(Way::Turns {
                schedule: self.schedule,
                show,
            }),
            (Some(_), _) => Err(OrderFault::ThreadsAlone),
            (None, Some(_)) => Err(OrderFault::MixAlone),
        }
    }

    /// A run by chance, behind its schedule.
    fn by_chance(&self, seed: u32, show: Show<'a>) -> Result<Way<'a>, OrderFault<'a>>
        requires threads { self.now.threads ≡ false }
        requires seed { self.now.seed ≡ Some seed }
        ensures { MatchResult result (IsWayOf self.now show.entry) (IsWayFault self.now show.entry) }
    {
        let chance = Chance {
            seed,
            mix: self.mix.unwrap_or(DEFAULT_MIX),
        };
        let Some(history) = self.history else {
            return Ok(Way::Chance {
                schedule: self.schedule,
                chance,
                show,
            });
        };
        if !self.can_keep(history) {
            return Err(OrderFault::Value(Argument::History, history));
        }
        match print_of(show) {
            Some(print) => Ok(Way::Kept {
                schedule: self.schedule,
                chance,
                history,
                print,
            }),
            None => Err(OrderFault::TwoFiles),
        }
    }

    /// Whether the run has no schedule and no chance, and no more is shown of it than its report.
    fn stands_alone(&self, show: Show<'_>) -> bool
        ensures { result ≡ stands_alone self.now show.entry }
    {
        matches!(show, Show::Report)
            && self.schedule.is_none()
            && self.seed.is_none()
            && self.mix.is_none()
    }

    /// Whether the history can go to a path: no dash, and no file that the run reads.
    fn can_keep(&self, path: &str) -> bool
        ensures { result ≡ can_keep self.now path.now }
    {
        !(path == "-" || self.reads(path))
    }

    /// Whether the run reads the file with a path: the program's, or the schedule's.
    fn reads(&self, path: &str) -> bool
        ensures { result ≡ reads self.now path.now }
    {
        match self.schedule {
            Some(list) => path == self.setup.file || path == list,
            None => path == self.setup.file,
        }
    }
}

/// The form of a timeline in a file with a path, by its ending.
fn drawing_at(path: &str) -> Option<View>
    ensures { result ≡ drawing_at path.now }
{
    if path.as_bytes().ends_with(b".json") {
        Some(View::Timeline)
    } else if path.as_bytes().ends_with(b".svg") {
        Some(View::Picture)
    } else if path.as_bytes().ends_with(b".html") {
        Some(View::Page)
    } else {
        None
    }
}

/// What is shown on standard output alone. `None` where it is shown in a file.
fn print_of(show: Show<'_>) -> Option<Print>
    ensures { MatchOption result (IsInFile show.entry) (λ print. show.entry ≡ shown print) }
{
    match show {
        Show::Report => Some(Print::Report),
        Show::Counts(stats) => Some(Print::Counts(stats)),
        Show::Trace => Some(Print::Trace),
        Show::View(..) => None,
    }
}
