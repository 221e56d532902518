/// What the user asks of the program.
#[derive(Debug, Drop)]
pub enum Request<'a> {
    /// To run a program and report what became of it.
    Run(Run<'a>),
    /// To play a program by hand on a machine.
    Debug(Setup<'a>),
    /// To search all ends of a program.
    Outcomes(Search<'a>),
    /// To list a program.
    Dis {
        /// The path of the program's ELF file.
        file: &'a str,
    },
    /// To assemble a program.
    Asm {
        /// The path of the source.
        source: &'a str,
        /// The path of the ELF file to write.
        target: &'a str,
    },
}

/// A program, and the machine that it begins on.
#[derive(Clone, Copy, Debug)]
pub struct Setup<'a> {
    /// The path of the program's file.
    pub file: &'a str,
    /// How many harts run it. No count is refused here.
    pub harts: u32,
    /// How many bytes of memory they share. No size is refused here.
    pub memory: u32,
    /// The cache that each hart has.
    pub cache: Cache,
}

/// A run of a program.
#[derive(Debug, Drop)]
pub struct Run<'a> {
    pub setup: Setup<'a>,
    /// How many steps are taken at most; in threads, how many turns each hart has at most.
    pub steps: u32,
    pub way: Way<'a>,
    /// The words of memory to show at the end.
    pub words: Vec<Word<'a>>,
}

/// How a run is made.
#[derive(Clone, Copy, Debug)]
pub enum Way<'a> {
    /// Step by step, as a schedule says, and then in turns.
    Turns {
        /// The path of the file whose lines choose the first steps, if there is one.
        schedule: Option<&'a str>,
        show: Show<'a>,
    },
    /// Step by step, as a schedule says, and then by chance.
    Chance {
        /// The path of the file whose lines choose the first steps, if there is one.
        schedule: Option<&'a str>,
        chance: Chance,
        show: Show<'a>,
    },
    /// The same, with its history in a file.
    Kept {
        /// The path of the file whose lines choose the first steps, if there is one.
        schedule: Option<&'a str>,
        chance: Chance,
        /// The path of the file for the history: neither a dash nor that of a file that the run reads.
        history: &'a str,
        print: Print,
    },
    /// With each hart in a thread of its own.
    Threads {
        /// The path of the file for the run's history, if it is to be written: neither a dash nor the program's.
        history: Option<&'a str>,
    },
}

/// What chooses steps by chance.
#[derive(Clone, Copy, Debug, PartialEq, Eq)]
pub struct Chance {
    /// By one seed the same steps are chosen.
    pub seed: u32,
    pub mix: Mix,
}

/// The weights of what chance draws. Not all of them are 0.
#[derive(Clone, Copy, Debug, PartialEq, Eq)]
pub struct Mix {
    /// Of a step of a core.
    pub cores: u32,
    /// Of the arrival of a message.
    pub arrivals: u32,
    /// Of the eviction of a line.
    pub evictions: u32,
}

/// A search of all ends of a program.
#[derive(Debug, Drop)]
pub struct Search<'a> {
    /// The path of the program's file.
    pub file: &'a str,
    /// How many harts run it. No count is refused here.
    pub harts: u32,
    /// How many bytes of memory they share. No size is refused here.
    pub memory: u32,
    /// How many states are met at most. No count is refused here.
    pub states: u32,
    /// The run that is to be written, if one is.
    pub witness: Option<Witness<'a>>,
    /// The words of memory to show of each end.
    pub words: Vec<Word<'a>>,
}

/// A run to one of the outcomes, for a file.
#[derive(Clone, Copy, Debug)]
pub struct Witness<'a> {
    /// The number of the outcome, from 1. No number is refused here.
    pub outcome: u32,
    /// The path of the file for the run: neither a dash nor the program's.
    pub path: &'a str,
}

/// What is shown of a run.
#[derive(Clone, Copy, Debug)]
pub enum Show<'a> {
    /// Its report alone.
    Report,
    /// Its report, and behind it its counts.
    Counts(Stats),
    /// Its trace on standard output, and behind it its report.
    Trace,
    /// Its report, and this in the file with this path, which is none that the run reads.
    View(View, &'a str),
}

/// What is shown of a run on standard output alone.
#[derive(Clone, Copy, Debug)]
pub enum Print {
    /// Its report.
    Report,
    /// Its report, and behind it its counts.
    Counts(Stats),
    /// Its trace, and behind it its report.
    Trace,
}

/// What is shown of a run in a file of its own.
#[derive(Clone, Copy, Debug, PartialEq, Eq)]
pub enum View {
    /// Its trace: a line for each entry.
    Trace,
    /// Its timeline, in the Trace Event format.
    Timeline,
    /// Its timeline as a picture, in SVG. Such a run takes at most [`MOST_DRAWN`] steps.
    Picture,
    /// Its page, for a browser. Such a run takes at most [`MOST_PAGED`] steps.
    Page,
}

/// The most steps of a run that a picture shows.
pub const MOST_DRAWN: u32 = 2000;

/// The most steps of a run that a page shows.
pub const MOST_PAGED: u32 = 20_000;

/// How large a hart's cache is: so many sets, of so many ways each.
#[derive(Clone, Copy, Debug, PartialEq, Eq)]
pub enum Cache {
    /// 1 set of 1 way.
    OneByOne,
    /// 1 set of 2 ways.
    OneByTwo,
    /// 2 sets of 1 way.
    Small,
    /// 2 sets of 2 ways.
    TwoByTwo,
    /// 4 sets of 1 way.
    FourByOne,
    /// 4 sets of 2 ways.
    FourByTwo,
    /// 8 sets of 2 ways.
    EightByTwo,
    /// 8 sets of 4 ways.
    EightByFour,
    /// 16 sets of 4 ways.
    Normal,
    /// 64 sets of 4 ways.
    SixtyFourByFour,
    /// 64 sets of 8 ways.
    SixtyFourByEight,
}

/// A form in which the counts of a run are shown.
#[derive(Clone, Copy, Debug, PartialEq, Eq)]
pub enum Stats {
    /// A table for people.
    Table,
    /// Lines for scripts, with commas.
    Csv,
}

/// A word of memory that is to be shown.
#[derive(Clone, Copy, Debug)]
pub struct Word<'a> {
    /// The address as the user wrote it.
    pub text: &'a str,
    /// The address that this stands for. Any is taken here, also one beyond memory.
    pub addr: u32,
}
