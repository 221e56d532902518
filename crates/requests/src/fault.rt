ghost use Rattle.std.specs.Prelude.{◌≡◌};
ghost use Rattle.words.specs.Sinks.{IsPut};
ghost use Rattle.requests.specs.Faults.{fault_status, fault_text, IsPlain, line, refusal_line, refused_text, refused_line, value_text, unspelled_text, no_outcome_text, of_order, of_load, of_boot, of_schedule, of_halt};
ghost use Rattle.texts.specs.Puts.{Puts};
ghost use Rattle.requests.specs.declared.fault.Fault.TheVariants.{NoMemory, Unwritten};

use crate::hint::hint;
use crate::quote::quoted;
use assembler::SourceFault;
use command_line::{Argument, OrderFault};
use flat::BootFault;
use itoa::Buffer;
use loader::LoadFault;
use schedule::{Halt, ScheduleFault};
use std::alloc::{AllocError, AllocFailed};
use std::fmt;
use texts::put_all;
use thiserror::Error;
use words::{Sink, SinkFault};

/// A line of a source that is refused.
#[derive(Clone, Copy, Debug)]
pub struct RefusedLine<'a> {
    pub why: SourceFault,
    /// The line itself. A source without a word of text is refused at no line.
    pub text: Option<&'a str>,
}

/// Why the program didn't do what it was asked for.
#[derive(Debug, Drop, Error)]
pub enum Fault<'a> {
    /// A word of the command line isn't text.
    NotText,
    /// Help or the version, which clap was asked for, with its line ends. It is printed, and no fault.
    Asked(String),
    /// What clap has to say to the user of a refusal, with its line ends.
    Refused(String),
    /// The first malformed value: what it is for, and how the user wrote it.
    Value(Argument, &'a str),
    /// More than one is asked for of a trace, a timeline and counts.
    TwoViews,
    /// A picture is asked for of a run that may take more steps than a picture shows.
    LongPicture,
    /// A page is asked for of a run that may take more steps than a page shows.
    LongPage,
    /// A run in threads is given a schedule, or more is to be shown of it, or it is to be counted; or the history is asked for of a run that is
    /// made neither in threads nor by chance.
    ThreadsAlone,
    /// Weights are given, and no seed.
    MixAlone,
    /// A history is asked for beside another file.
    TwoFiles,
    /// The path of the file that is to be made, where it leads to one that is read.
    Overwrites(&'a str),
    /// The path of a file that can't be read.
    Unread(&'a str),
    /// The path of a file that is longer than any that is taken.
    TooLong(&'a str),
    /// The source is not text.
    NotSource,
    /// A line of the source is refused.
    Source(RefusedLine<'a>),
    /// The file is no program.
    Load(LoadFault),
    /// The program can't be booted.
    Boot(BootFault),
    /// A WORD where nothing can be read, as the user wrote it.
    Word(&'a str),
    /// The schedule is not text.
    NotSchedule,
    /// The number of a line of the schedule that spells no step.
    Schedule(usize),
    /// The number of an outcome, where there is no outcome of this number.
    NoOutcome(u32),
    /// The lock that the threads share gave back a board of another program, number of harts or size. No worker puts one there, but a lock tells a
    /// proof nothing of what it holds.
    Exchanged,
    /// Standard output failed.
    Unwritten,
    /// The path of a file that can't be written.
    Unmade(&'a str),
    NoMemory,
}

impl<'a> Fault<'a> {
    /// The status that the program ends with: 0 for what clap was asked for, 2 for the command line, a schedule and an outcome that there isn't, 3 for a file, 4 for what is in the file and for
    /// the machine that is asked for, 6 if memory ran out, 7 for what can't be.
    pub fn status(&self) -> u8
        ensures { result ≡ fault_status self.now }
    {
        match self {
            Fault::Asked(_) => 0,
            Fault::NotText | Fault::Refused(_) | Fault::Value(..) | Fault::Word(_) => 2,
            Fault::TwoViews | Fault::LongPicture | Fault::LongPage | Fault::ThreadsAlone => 2,
            Fault::MixAlone | Fault::TwoFiles | Fault::Overwrites(_) => 2,
            Fault::NotSchedule | Fault::Schedule(_) | Fault::NoOutcome(_) => 2,
            Fault::Unread(_) | Fault::TooLong(_) | Fault::Unwritten | Fault::Unmade(_) => 3,
            Fault::NotSource | Fault::Source(_) | Fault::Load(_) | Fault::Boot(_) => 4,
            Fault::NoMemory => 6,
            Fault::Exchanged => 7,
        }
    }

    /// Puts what the user is told.
    pub fn put<S: Sink>(&self, sink: &mut S) -> Result<(), SinkFault>
        ensures { Puts (S.state sink.old) (S.state sink.new) (fault_text self.now) result }
    {
        match self {
            Fault::Asked(text) | Fault::Refused(text) => put_all(sink, &[text.as_bytes()]),
            Fault::Value(argument, text) => put_value(sink, text, hint(*argument)),
            Fault::Source(refused) => put_refused(sink, refused),
            Fault::Load(fault) => put_refusal(sink, b"load ", fault.number(), fault.name()),
            Fault::Boot(fault) => put_refusal(sink, b"boot ", fault.number(), fault.name()),
            Fault::Schedule(line) => put_unspelled(sink, *line),
            Fault::NoOutcome(number) => put_no_outcome(sink, *number),
            _ => {
                let (what, name) = self.plain();
                put_line(sink, what, name)
            }
        }
    }

    /// What is told of a fault in a line with no more than a text and a name, which may be empty.
    fn plain(&self) -> (&'static str, &'a str)
        requires { IsPlain self.now }
        ensures { fault_text self.now ≡ line result.0.now result.1.now }
    {
        match self {
            Fault::NotText => ("an argument is not text", ""),
            Fault::TwoViews => ("--trace, --timeline and --stats exclude each other", ""),
            Fault::LongPicture => ("a picture takes --steps of at most 2000", ""),
            Fault::LongPage => ("a page takes --steps of at most 20000", ""),
            Fault::ThreadsAlone => (
                "--threads excludes --schedule, --seed, --trace, --timeline and --stats, and --history needs --threads or --seed",
                "",
            ),
            Fault::MixAlone => ("--mix needs --seed", ""),
            Fault::TwoFiles => ("--history excludes --timeline, and --trace into a file", ""),
            Fault::Overwrites(file) => ("it would overwrite what it reads: ", *file),
            Fault::Unread(file) => ("cannot read ", *file),
            Fault::TooLong(file) => ("longer than 33554432 bytes: ", *file),
            Fault::NotSource => ("source is not text", ""),
            Fault::Word(text) => ("word ", *text),
            Fault::NotSchedule => ("schedule is not text", ""),
            Fault::Exchanged => ("the threads gave back another machine", ""),
            Fault::Unwritten => ("cannot write standard output", ""),
            Fault::Unmade(file) => ("cannot write ", *file),
            Fault::NoMemory => ("no memory", ""),
            _ => unreachable!(),
        }
    }

    /// Tells the user, and answers the status. A fault that can't be told is still the program's.
    pub fn tell<E: Sink>(&self, error: &mut E) -> u8
        ensures status { result ≡ fault_status self.now }
        ensures told { IsPut (E.state error.old) (E.state error.new) (fault_text self.now) }
    {
        let _ = self.put(error);
        self.status()
    }
}

/// What the user is told, without the program's name and in one line.
impl fmt::Display for Fault<'_> {
    fn fmt<W: fmt::Write>(&self, f: &mut fmt::Formatter<W>) -> fmt::Result {
        match self {
            Fault::Asked(text) | Fault::Refused(text) => f.write_str(text.as_str()),
            Fault::Value(_, text) => write!(f, "value {text}"),
            Fault::Source(refused) => write!(f, "{}", refused.why),
            Fault::Load(fault) => write!(f, "load {fault}"),
            Fault::Boot(fault) => write!(f, "boot {fault}"),
            Fault::Schedule(line) => write!(f, "schedule line {line}: no step"),
            Fault::NoOutcome(number) => write!(f, "no outcome {number}"),
            _ => {
                let (what, name) = self.plain();
                f.write_str(what)?;
                f.write_str(name)
            }
        }
    }
}

/// Puts a line of the program's: a text, and a name behind it, which may be empty.
pub fn put_line<S: Sink>(sink: &mut S, what: &str, name: &str) -> Result<(), SinkFault>
    ensures { Puts (S.state sink.old) (S.state sink.new) (line what.now name.now) result }
{
    put_all(sink, &[b"logtm: ", what.as_bytes(), name.as_bytes(), b"\n"])
}

/// Puts that a value is malformed, and what would do.
fn put_value<S: Sink>(sink: &mut S, text: &str, hint: &str) -> Result<(), SinkFault>
    ensures { Puts (S.state sink.old) (S.state sink.new) (value_text text.now hint.now) result }
{
    put_all(
        sink,
        &[
            b"logtm: value ",
            text.as_bytes(),
            b"\n        ",
            hint.as_bytes(),
            b"\n",
        ],
    )
}

fn put_refusal<S: Sink>(sink: &mut S, what: &[u8], number: u32, name: &str) -> Result<(), SinkFault>
    ensures { Puts (S.state sink.old) (S.state sink.new) (refusal_line what.now number name.now) result }
{
    let mut digits = Buffer::new();
    put_all(
        sink,
        &[
            b"logtm: ",
            what,
            digits.format(number).as_bytes(),
            b" ",
            name.as_bytes(),
            b"\n",
        ],
    )
}

/// Puts that a line of source is refused, and the line.
fn put_refused<S: Sink>(sink: &mut S, refused: &RefusedLine<'_>) -> Result<(), SinkFault>
    ensures { Puts (S.state sink.old) (S.state sink.new) (refused_line refused.now) result }
{
    let why = refused.why;
    put_place(sink, why.line, why.fault.number(), why.fault.name())?;
    match refused.text {
        Some(line) => put_all(sink, &[quoted(line).as_slice(), b"\n"]),
        None => Ok(()),
    }
}

/// Puts where a source is refused, and why.
fn put_place<S: Sink>(sink: &mut S, line: usize, number: u32, name: &str) -> Result<(), SinkFault>
    ensures { Puts (S.state sink.old) (S.state sink.new) (refused_text line number name.now) result }
{
    let mut place = Buffer::new();
    let mut digits = Buffer::new();
    put_all(
        sink,
        &[
            b"logtm: line ",
            place.format(line).as_bytes(),
            b": ",
            digits.format(number).as_bytes(),
            b" ",
            name.as_bytes(),
            b"\n",
        ],
    )
}

/// Puts that a line of a schedule spells no step.
fn put_unspelled<S: Sink>(sink: &mut S, line: usize) -> Result<(), SinkFault>
    ensures { Puts (S.state sink.old) (S.state sink.new) (unspelled_text line) result }
{
    let mut place = Buffer::new();
    put_all(
        sink,
        &[
            b"logtm: schedule line ",
            place.format(line).as_bytes(),
            b": no step",
            b"\n",
        ],
    )
}

/// Puts that there is no outcome of a number.
fn put_no_outcome<S: Sink>(sink: &mut S, number: u32) -> Result<(), SinkFault>
    ensures { Puts (S.state sink.old) (S.state sink.new) (no_outcome_text number) result }
{
    let mut digits = Buffer::new();
    put_all(
        sink,
        &[
            b"logtm: no outcome ",
            digits.format(number).as_bytes(),
            b"\n",
        ],
    )
}

impl<'a> From<OrderFault<'a>> for Fault<'a> {
    ghost from_gives = { λ x e. e ≡ of_order x };

    fn from(fault: OrderFault<'a>) -> Fault<'a> {
        match fault {
            OrderFault::Asked(text) => Fault::Asked(text),
            OrderFault::Refused(text) => Fault::Refused(text),
            OrderFault::Value(argument, text) => Fault::Value(argument, text),
            OrderFault::TwoViews => Fault::TwoViews,
            OrderFault::LongPicture => Fault::LongPicture,
            OrderFault::LongPage => Fault::LongPage,
            OrderFault::ThreadsAlone => Fault::ThreadsAlone,
            OrderFault::MixAlone => Fault::MixAlone,
            OrderFault::TwoFiles => Fault::TwoFiles,
            OrderFault::NoMemory => Fault::NoMemory,
        }
    }
}

impl<'a> From<LoadFault> for Fault<'a> {
    ghost from_gives = { λ x e. e ≡ of_load x };

    fn from(fault: LoadFault) -> Fault<'a> {
        match fault {
            LoadFault::NoMemory => Fault::NoMemory,
            other => Fault::Load(other),
        }
    }
}

impl<'a> From<BootFault> for Fault<'a> {
    ghost from_gives = { λ x e. e ≡ of_boot x };

    fn from(fault: BootFault) -> Fault<'a> {
        match fault {
            BootFault::NoMemory => Fault::NoMemory,
            other => Fault::Boot(other),
        }
    }
}

impl<'a> From<ScheduleFault> for Fault<'a> {
    ghost from_gives = { λ x e. e ≡ of_schedule x };

    fn from(fault: ScheduleFault) -> Fault<'a> {
        match fault {
            ScheduleFault::Line(line) => Fault::Schedule(line),
            ScheduleFault::NoMemory => Fault::NoMemory,
        }
    }
}

impl<'a> From<Halt> for Fault<'a> {
    ghost from_gives = { λ x e. e ≡ of_halt x };

    fn from(halt: Halt) -> Fault<'a> {
        match halt {
            Halt::NoMemory => Fault::NoMemory,
            Halt::Untold => Fault::Unwritten,
        }
    }
}

impl<'a> From<SinkFault> for Fault<'a> {
    ghost from_gives = { λ _ e. e ≡ Unwritten };

    fn from(_fault: SinkFault) -> Fault<'a> {
        Fault::Unwritten
    }
}

impl<'a> From<AllocError> for Fault<'a> {
    ghost from_gives = { λ _ e. e ≡ NoMemory };

    fn from(_error: AllocError) -> Fault<'a> {
        Fault::NoMemory
    }
}

impl<'a, T: Drop> From<AllocFailed<T>> for Fault<'a> {
    ghost from_gives = { λ _ e. e ≡ NoMemory };

    fn from(_error: AllocFailed<T>) -> Fault<'a> {
        Fault::NoMemory
    }
}
