ghost use Rattle.std.specs.Prelude.{◌≡◌, IfOk, MatchResult, [], false, map};
ghost use Rattle.clap.specs.Words.{App, Shape, app_of, kind_of, new_app, rule_of, with_rule, with_subcommand};
ghost use Rattle.clap.specs.declared.builder.command.Command.TheViews.{out-Command};
ghost use Rattle.clap.specs.declared.error.ErrorKind.TheVariants.{OutOfMemory};
ghost use Rattle.command_line.specs.Command as spec;
ghost use Rattle.command_line.specs.Command.{IsApp, Makes, with_rules};
ghost use Rattle.command_line.specs.Reading.{IsFaultOf, IsRequestOf, IsToldBy};
ghost use Rattle.command_line.specs.declared.fault.OrderFault.TheVariants.{NoMemory};

use crate::fault::OrderFault;
use crate::reading::read;
use crate::request::Request;
use clap::error::ErrorKind;
use clap::{Arg, ArgAction, Command, Error};
use std::alloc::{AllocError, Global};

/// An argument with one value: its name, what help calls its value, and what help says of it.
#[derive(Clone, Copy)]
struct Texts {
    name: &'static str,
    value: &'static str,
    help: &'static str,
}

const PROGRAM: Texts = Texts {
    name: "file",
    value: "FILE",
    help: "The program, an ELF file, or assembly text if its name ends in .s",
};

const HARTS: Texts = Texts {
    name: "harts",
    value: "N",
    help: "How many harts run it, 1 if not given",
};

const MEMORY: Texts = Texts {
    name: "memory",
    value: "S",
    help: "How many bytes of memory there are, 1048576 if not given",
};

const STEPS: Texts = Texts {
    name: "steps",
    value: "N",
    help: "How many steps are taken at most, 10000000 if not given",
};

const CACHE: Texts = Texts {
    name: "cache",
    value: "NAME",
    help: "The cache of each hart: small, normal or SETSxWAYS, as 4x2, normal if not given",
};

const SCHEDULE: Texts = Texts {
    name: "schedule",
    value: "LIST",
    help: "A file whose lines choose the first steps",
};

const SEED: Texts = Texts {
    name: "seed",
    value: "N",
    help: "Chooses the steps by chance, behind those of a schedule: by one number the same steps",
};

const MIX: Texts = Texts {
    name: "mix",
    value: "C,D,E",
    help: "The weights of core steps, arrivals of messages and evictions by chance, 30,30,1 if not given",
};

const TRACE: Texts = Texts {
    name: "trace",
    value: "FILE",
    help: "A file for the trace, a line for each entry; - for standard output",
};

const TIMELINE: Texts = Texts {
    name: "timeline",
    value: "FILE",
    help: "A file for the timeline: FILE.json, as trace events, FILE.svg, a picture of 2000 steps at most, or FILE.html, a page of 20000 at most",
};

const STATS: Texts = Texts {
    name: "stats",
    value: "NAME",
    help: "Counts behind the report, as a table or as csv; not with a trace or a timeline",
};

const HISTORY: Texts = Texts {
    name: "history",
    value: "FILE",
    help: "A file for the steps that threads or chance made, as a schedule that plays them again",
};

const STATES: Texts = Texts {
    name: "states",
    value: "N",
    help: "How many states are met at most, 1000000 if not given",
};

const ELF_FILE: Texts = Texts {
    name: "file",
    value: "FILE",
    help: "The program, an ELF file",
};

const SOURCE: Texts = Texts {
    name: "source",
    value: "IN",
    help: "The source",
};

const TARGET: Texts = Texts {
    name: "target",
    value: "OUT",
    help: "The ELF file to write",
};

// What help calls the values of `--witness`.
const WITNESS_VALUES: &[&str] = &["K", "LIST"];

// What stands after the program's name for `--version`. Whether a program is proved isn't for its sources to say: whoever built it does.
const VERSION: &str = "1.0.0";

/// What the words of a command line ask for. The first word is the program's name, as in what the
/// environment gives, and is not read.
///
/// clap says what it refuses, and answers `--help` and `--version`. Where it takes the words of a
/// run, the values of `--harts`, `--memory`, `--steps`, `--cache`, `--stats`, `--seed` and `--mix` and then the WORDs are read, in
/// this order, up to the first malformed one; those of `debug` likewise. Then more than one of `--trace`, `--timeline` and `--stats`
/// is refused; then the value of `--trace` or `--timeline` is malformed where it is the path of a file that the run reads, and that of
/// `--timeline` where it ends in none of `.json`, `.svg` and `.html`; and a picture or a page is refused where `--steps` is above what it shows. Then
/// `--threads` is refused beside `--schedule`, `--seed`, `--mix`, `--trace`, `--timeline` and `--stats`, `--history` without it and without
/// `--seed`, and `--mix` without `--seed`; then the value of `--history` is malformed where it is a dash or the path of a file that the run
/// reads; and last `--history` is refused beside `--timeline`, and beside a trace in a file.
///
/// Of `outcomes` the values of `--harts`, `--memory` and `--states`, the number of `--witness` and then the WORDs are read, in this order,
/// up to the first malformed one; and last the path of `--witness` is malformed where it is a dash or the path of the program's file.
/// Memory may run out at any time: no clause says when.
pub fn parse<'a>(alloc: Global, words: &'a [&'a str]) -> Result<Request<'a>, OrderFault<'a>>
    ensures { MatchResult result (IsRequestOf (map (λ w. w.now) words.entry.now))
        (IsFaultOf (map (λ w. w.now) words.entry.now)) }
{
    match command(alloc)?.try_get_matches_from(words) {
        Ok(matches) => match matches.subcommand() {
            Some((name, values)) => read(alloc, name, values),
            None => unreachable!(),
        },
        Err(error) => Err(told(alloc, &error)),
    }
}

fn command<'a>(alloc: Global) -> Result<Command<'a>, AllocError>
    ensures { IfOk result (λ c. app_of c ≡ spec.logtm) }
{
    let command = with_argument(Ok(program(alloc)), version_flag(alloc));
    let command = with_subcommand(command, run_command(alloc));
    let command = with_subcommand(command, debug_command(alloc));
    let command = with_subcommand(command, outcomes_command(alloc));
    let command = with_subcommand(command, dis_command(alloc));
    with_subcommand(command, asm_command(alloc))
}

/// The command before its option and its subcommands.
fn program<'a>(alloc: Global) -> Command<'a>
    ensures { IsApp result spec.program }
{
    bare(alloc, "logtm", "Simulates harts with transactional memory")
        .version(VERSION)
        .disable_version_flag(true)
        .disable_help_subcommand(true)
        .subcommand_required(true)
}

// Memory may run out with each argument and each subcommand that a command gets. Where it has, the command stays an error.

/// The command with a subcommand more.
fn with_subcommand<'a>(
    command: Result<Command<'a>, AllocError>,
    made: Result<Command<'a>, AllocError>,
) -> Result<Command<'a>, AllocError>
    ensures { (app : App) (shape : Shape) → IfOk command.entry (λ c. app_of c ≡ app) → Makes made.entry (record { top = shape; subs = [] })
        → IfOk result (λ c. app_of c ≡ with_subcommand app shape) }
{
    match command {
        Ok(command) => match made {
            Ok(made) => command.subcommand(made),
            Err(error) => Err(error),
        },
        Err(error) => Err(error),
    }
}

/// The command with an argument more.
fn with_argument<'a>(
    command: Result<Command<'a>, AllocError>,
    argument: Arg<'a>,
) -> Result<Command<'a>, AllocError>
    requires { argument.global ≡ false }
    ensures { (app : App) → Makes command.entry app → Makes result (with_rule app (rule_of argument.entry)) }
{
    match command {
        Ok(command) => command.arg(argument),
        Err(error) => {
            drop(argument);
            Err(error)
        }
    }
}

/// The command with an argument more that has to be there.
fn with_required<'a>(
    alloc: Global,
    command: Result<Command<'a>, AllocError>,
    texts: &'static Texts,
) -> Result<Command<'a>, AllocError>
    ensures { (app : App) → Makes command.entry app → Makes result (with_rule app (spec.required_named texts.now.name.now)) }
{
    with_argument(command, required(alloc, texts))
}

/// The command with an option more.
fn with_option<'a>(
    alloc: Global,
    command: Result<Command<'a>, AllocError>,
    texts: &'static Texts,
) -> Result<Command<'a>, AllocError>
    ensures { (app : App) → Makes command.entry app → Makes result (with_rule app (spec.option_named texts.now.name.now)) }
{
    with_argument(command, option(alloc, texts))
}

fn run_command<'a>(alloc: Global) -> Result<Command<'a>, AllocError>
    ensures { Makes result (record { top = spec.run; subs = [] }) }
{
    let about = "Runs a program, and reports what became of it";
    let command = with_machine(alloc, Ok(bare(alloc, "run", about)));
    let command = with_limits(alloc, command);
    let command = with_choosers(alloc, command);
    let command = with_views(alloc, command);
    with_threads(alloc, command)
}

fn debug_command<'a>(alloc: Global) -> Result<Command<'a>, AllocError>
    ensures { Makes result (record { top = spec.debug; subs = [] }) }
{
    let about = "Plays a program by hand, command by command";
    let command = with_machine(alloc, Ok(bare(alloc, "debug", about)));
    with_option(alloc, command, &CACHE)
}

/// The command with the program and the size of the machine that runs it.
fn with_machine<'a>(
    alloc: Global,
    command: Result<Command<'a>, AllocError>,
) -> Result<Command<'a>, AllocError>
    ensures { (app : App) → Makes command.entry app → Makes result (with_rules spec.machine app) }
{
    let command = with_required(alloc, command, &PROGRAM);
    let command = with_option(alloc, command, &HARTS);
    with_option(alloc, command, &MEMORY)
}

/// The command with how far a run goes, and with which caches.
fn with_limits<'a>(
    alloc: Global,
    command: Result<Command<'a>, AllocError>,
) -> Result<Command<'a>, AllocError>
    ensures { (app : App) → Makes command.entry app → Makes result (with_rules spec.limits app) }
{
    let command = with_option(alloc, command, &STEPS);
    with_option(alloc, command, &CACHE)
}

/// The command with what chooses the steps of a run.
fn with_choosers<'a>(
    alloc: Global,
    command: Result<Command<'a>, AllocError>,
) -> Result<Command<'a>, AllocError>
    ensures { (app : App) → Makes command.entry app → Makes result (with_rules spec.choosers app) }
{
    let command = with_option(alloc, command, &SCHEDULE);
    let command = with_option(alloc, command, &SEED);
    with_option(alloc, command, &MIX)
}

/// The command with what is shown of a run beside its report.
fn with_views<'a>(
    alloc: Global,
    command: Result<Command<'a>, AllocError>,
) -> Result<Command<'a>, AllocError>
    ensures { (app : App) → Makes command.entry app → Makes result (with_rules spec.views app) }
{
    let command = with_option(alloc, command, &TRACE);
    let command = with_option(alloc, command, &TIMELINE);
    with_option(alloc, command, &STATS)
}

/// The command with a run in threads, and with the words of memory that the report shows.
fn with_threads<'a>(
    alloc: Global,
    command: Result<Command<'a>, AllocError>,
) -> Result<Command<'a>, AllocError>
    ensures { (app : App) → Makes command.entry app → Makes result (with_rules spec.threads_and_words app) }
{
    let threads =
        "Runs each hart in a thread of its own, with no schedule, seed, trace, timeline and counts";
    let command = with_argument(command, flag(alloc, "threads", threads));
    let command = with_option(alloc, command, &HISTORY);
    with_argument(command, words(alloc))
}

fn outcomes_command<'a>(alloc: Global) -> Result<Command<'a>, AllocError>
    ensures { Makes result (record { top = spec.outcomes; subs = [] }) }
{
    let about = "Searches all ends of a program";
    let command = with_machine(alloc, Ok(bare(alloc, "outcomes", about)));
    with_search(alloc, command)
}

/// The command with how far a search goes, with the run that it writes, and with the words of memory that it shows of each end.
fn with_search<'a>(
    alloc: Global,
    command: Result<Command<'a>, AllocError>,
) -> Result<Command<'a>, AllocError>
    ensures { (app : App) → Makes command.entry app → Makes result (with_rules spec.search_and_words app) }
{
    let command = with_option(alloc, command, &STATES);
    let command = with_argument(command, witness(alloc));
    with_argument(command, words(alloc))
}

fn dis_command<'a>(alloc: Global) -> Result<Command<'a>, AllocError>
    ensures { Makes result (record { top = spec.dis; subs = [] }) }
{
    let command = Ok(bare(alloc, "dis", "Lists a program"));
    with_required(alloc, command, &ELF_FILE)
}

fn asm_command<'a>(alloc: Global) -> Result<Command<'a>, AllocError>
    ensures { Makes result (record { top = spec.asm; subs = [] }) }
{
    let command = Ok(bare(alloc, "asm", "Assembles a program"));
    let command = with_required(alloc, command, &SOURCE);
    with_required(alloc, command, &TARGET)
}

// A command with no argument yet.
fn bare<'a>(alloc: Global, name: &'a str, about: &'a str) -> Command<'a>
    ensures app { app_of result ≡ new_app name.entry.now }
    ensures local { (out-Command result).has_globals ≡ false }
{
    Command::new(alloc, name).about(about)
}

fn required<'a>(alloc: Global, texts: &'static Texts) -> Arg<'a>
    ensures rule { rule_of result ≡ spec.required_named texts.now.name.now }
    ensures local { result.global ≡ false }
{
    Arg::new(alloc, texts.name)
        .value_name(texts.value)
        .required(true)
        .help(texts.help)
}

fn option<'a>(alloc: Global, texts: &'static Texts) -> Arg<'a>
    ensures rule { rule_of result ≡ spec.option_named texts.now.name.now }
    ensures local { result.global ≡ false }
{
    Arg::new(alloc, texts.name)
        .long(texts.name)
        .value_name(texts.value)
        .help(texts.help)
}

fn flag<'a>(alloc: Global, name: &'a str, help: &'a str) -> Arg<'a>
    ensures rule { rule_of result ≡ spec.flag_named name.entry.now }
    ensures local { result.global ≡ false }
{
    Arg::new(alloc, name)
        .long(name)
        .action(ArgAction::SetTrue)
        .help(help)
}

// It is shown in no help.
fn version_flag<'a>(alloc: Global) -> Arg<'a>
    ensures rule { rule_of result ≡ spec.version }
    ensures local { result.global ≡ false }
{
    Arg::new(alloc, "version")
        .long("version")
        .action(ArgAction::Version)
        .hide(true)
}

fn witness<'a>(alloc: Global) -> Arg<'a>
    ensures rule { rule_of result ≡ spec.witness }
    ensures local { result.global ≡ false }
{
    Arg::new(alloc, "witness")
        .long("witness")
        .value_names(WITNESS_VALUES)
        .help("An outcome, and a file for a run to it")
}

fn words<'a>(alloc: Global) -> Arg<'a>
    ensures rule { rule_of result ≡ spec.words }
    ensures local { result.global ≡ false }
{
    Arg::new(alloc, "words")
        .value_name("WORD")
        .action(ArgAction::Append)
        .help("The addresses of words to show at the end")
}

/// What clap has for the user, who asked for it or whose words it refused.
fn told<'a>(alloc: Global, error: &Error) -> OrderFault<'a>
    ensures memory { kind_of error.now ≡ OutOfMemory → result ≡ NoMemory }
    ensures told { IsToldBy (kind_of error.now) result }
{
    if error.kind() == ErrorKind::OutOfMemory {
        return OrderFault::NoMemory;
    }
    match error.to_string(alloc) {
        Ok(text) if error.use_stderr() => OrderFault::Refused(text),
        Ok(text) => OrderFault::Asked(text),
        Err(_) => OrderFault::NoMemory,
    }
}
