//! What the words of a command line ask for, and how they are refused.

use crate::tests::claims::{equal, equal_at, holds, holds_at};
use command_line::{
    Argument, Cache, OrderFault, Request, Run, Setup, Show, Stats, View, Way, Word, parse,
};
use std::alloc::Global;
use std::process::Abort;
use texts::number;

static NUMBERS: [(&str, Option<u32>); 19] = [
    ("0", Some(0)),
    ("0042", Some(42)),
    ("4294967295", Some(4_294_967_295)),
    ("4294967296", None),
    ("0xdeadBEEF", Some(3_735_928_559)),
    ("0x0000000010", Some(16)),
    ("0x100000000", None),
    ("", None),
    ("0x", None),
    ("0X10", None),
    ("0x1g", None),
    ("1a", None),
    ("+1", None),
    ("0x+1", None),
    ("-1", None),
    (" 1", None),
    ("1 ", None),
    ("1_000", None),
    ("٣", None),
];

#[test]
fn reads_numbers(rt: HostRuntime) {
    for &(text, value) in &NUMBERS {
        equal_at(&rt, &number(text), &value, &text);
    }
}

/// The run that the words ask for.
fn run_of(alloc: Global, words: &'static [&'static str]) -> Option<Run<'static>> {
    match parse(alloc, words) {
        Ok(Request::Run(run)) => Some(run),
        _ => None,
    }
}

/// How the run is made that the words ask for.
fn way_of(alloc: Global, words: &'static [&'static str]) -> Option<Way<'static>> {
    let run = run_of(alloc, words)?;
    Some(run.way)
}

/// The schedule of a run by turns, if it has one, and what is shown of it.
fn turns_of(
    alloc: Global,
    words: &'static [&'static str],
) -> Option<(Option<&'static str>, Show<'static>)> {
    match way_of(alloc, words)? {
        Way::Turns { schedule, show } => Some((schedule, show)),
        Way::Chance { .. } | Way::Kept { .. } | Way::Threads { .. } => None,
    }
}

/// Whether a run has neither schedule nor threads, and no more is shown of it than its report.
fn is_plain(run: &Run<'_>) -> bool {
    match run.way {
        Way::Turns {
            schedule: None,
            show: Show::Report,
        } => true,
        _ => false,
    }
}

/// That a run of this file is as it is where nothing else is asked for.
fn check_first(rt: &impl Abort, run: &Run<'_>) {
    equal(rt, &run.setup.file, &"first.elf");
    equal(
        rt,
        &(run.setup.harts, run.setup.memory, run.steps),
        &(1, 1_048_576, 10_000_000),
    );
    equal(rt, &run.setup.cache, &Cache::Normal);
    holds(rt, is_plain(run));
    equal(rt, &run.words.len(), &0);
}

#[test]
fn reads_a_run(rt: HostRuntime) {
    let run = run_of(rt.alloc(), &["logtm", "run", "first.elf"]).expect(&rt, "a run");
    check_first(&rt, &run);
}

static LONG: [&str; 13] = [
    "logtm",
    "run",
    "--harts",
    "2",
    "first.elf",
    "--memory=0x20aBcD",
    "--cache",
    "small",
    "0x2000",
    "--steps",
    "007",
    "8196",
    "0",
];

/// The words of memory that `LONG` asks for: their texts and addresses.
static LONG_WORDS: [(&str, u32); 3] = [("0x2000", 8192), ("8196", 8196), ("0", 0)];

/// That these are the words that `LONG` asks for.
fn check_words(rt: &impl Abort, words: &[Word<'_>]) {
    equal(rt, &words.len(), &LONG_WORDS.len());
    for (word, &(text, addr)) in words.iter().zip(&LONG_WORDS) {
        equal(rt, &word.text, &text);
        equal(rt, &word.addr, &addr);
    }
}

/// That a run is the one that `LONG` asks for.
fn check_long(rt: &impl Abort, run: &Run<'_>) {
    equal(rt, &run.setup.file, &"first.elf");
    equal(
        rt,
        &(run.setup.harts, run.setup.memory, run.steps),
        &(2, 2_141_133, 7),
    );
    equal(rt, &run.setup.cache, &Cache::Small);
    holds(rt, is_plain(run));
    check_words(rt, &run.words);
}

#[test]
fn reads_options_and_words(rt: HostRuntime) {
    let run = run_of(rt.alloc(), LONG.as_slice()).expect(&rt, "a run");
    check_long(&rt, &run);
}

/// That nothing is asked for of a run but this cache.
fn check_cache(rt: &impl Abort, run: &Run<'_>, cache: Cache) {
    equal(rt, &run.setup.cache, &cache);
    holds(rt, is_plain(run));
}

/// Words that ask for a run, and the cache that they name.
static CACHES: [(&[&str], Cache); 4] = [
    (&["logtm", "run", "f"], Cache::Normal),
    (&["logtm", "run", "f", "--cache", "normal"], Cache::Normal),
    (&["logtm", "run", "--cache", "small", "f"], Cache::Small),
    (&["logtm", "run", "f", "--cache=small"], Cache::Small),
];

#[test]
fn reads_the_name_of_a_cache(rt: HostRuntime) {
    for &(words, cache) in &CACHES {
        let run = run_of(rt.alloc(), words).expect(&rt, "a run");
        check_cache(&rt, &run, cache);
    }
}

/// The paths that an order to list or to assemble names.
fn paths_of(request: &Request<'static>) -> Option<(&'static str, &'static str)> {
    match *request {
        Request::Dis { file } => Some((file, "")),
        Request::Asm { source, target } => Some((source, target)),
        _ => None,
    }
}

/// The paths that words name which ask to list or to assemble.
fn paths(alloc: Global, words: &'static [&'static str]) -> Option<(&'static str, &'static str)> {
    match parse(alloc, words) {
        Ok(request) => paths_of(&request),
        Err(_fault) => None,
    }
}

/// Words that ask to list or to assemble, and the paths that they name.
static SUBCOMMANDS: [(&[&str], (&str, &str)); 5] = [
    (&["logtm", "dis", "first.elf"], ("first.elf", "")),
    (&["logtm", "dis", "--", "--help"], ("--help", "")),
    (&["logtm", "dis", "run"], ("run", "")),
    (&["logtm", "asm", "a.s", "a.elf"], ("a.s", "a.elf")),
    (&["logtm", "asm", "dis", "asm"], ("dis", "asm")),
];

#[test]
fn reads_the_other_subcommands(rt: HostRuntime) {
    for &(words, named) in &SUBCOMMANDS {
        equal(&rt, &paths(rt.alloc(), words), &Some(named));
    }
}

/// The text of help or of the version, where the words ask for it.
fn asked(alloc: Global, words: &'static [&'static str]) -> Option<String> {
    match parse(alloc, words) {
        Err(OrderFault::Asked(text)) => Some(text),
        _ => None,
    }
}

static ASKED: [(&[&str], &str); 6] = [
    (&["logtm", "--version"], "logtm 1.0.0\n"),
    (
        &["logtm", "debug", "--help"],
        "Usage: logtm debug [OPTIONS] <FILE>",
    ),
    (&["logtm", "--help"], "Usage: logtm <COMMAND>"),
    (&["logtm", "dis", "--help"], "Usage: logtm dis <FILE>"),
    (&["logtm", "asm", "--help"], "Usage: logtm asm <IN> <OUT>"),
    (
        &["logtm", "run", "--help"],
        "Usage: logtm run [OPTIONS] <FILE> [WORD]...",
    ),
];

#[test]
fn answers_what_clap_is_asked_for(rt: HostRuntime) {
    for &(words, part) in &ASKED {
        let text = asked(rt.alloc(), words).expect(&rt, "a text");
        holds_at(&rt, text.contains(part), &text);
    }
}

/// The text of a refusal.
fn refusal(alloc: Global, words: &'static [&'static str]) -> Option<String> {
    match parse(alloc, words) {
        Err(OrderFault::Refused(text)) => Some(text),
        _ => None,
    }
}

static REFUSALS: [(&[&str], &str); 31] = [
    (
        &["logtm", "run", "f", "--version"],
        "unexpected argument '--version'",
    ),
    (&["logtm", "-V"], "unexpected argument '-V'"),
    (&["logtm", "debug"], "<FILE>"),
    (&["logtm", "debug", "f", "g"], "unexpected argument 'g'"),
    (
        &["logtm", "debug", "f", "--steps", "3"],
        "unexpected argument '--steps'",
    ),
    (
        &["logtm", "debug", "f", "--cache=small", "--cache=small"],
        "cannot be used multiple times",
    ),
    (
        &["logtm", "run", "f", "--trace"],
        "a value is required for '--trace <FILE>'",
    ),
    (
        &["logtm", "run", "f", "--trace=a", "--trace=b"],
        "cannot be used multiple times",
    ),
    (&[], "requires a subcommand"),
    (&["logtm"], "requires a subcommand"),
    (&["logtm", "walk"], "unrecognized subcommand 'walk'"),
    (&["logtm", "dis"], "<FILE>"),
    (&["logtm", "dis", "f", "g"], "unexpected argument 'g'"),
    (
        &["logtm", "dis", "f", "--harts", "2"],
        "unexpected argument '--harts'",
    ),
    (&["logtm", "asm", "a.s"], "<OUT>"),
    (
        &["logtm", "asm", "a.s", "a.elf", "b"],
        "unexpected argument 'b'",
    ),
    (&["logtm", "help"], "unrecognized subcommand 'help'"),
    (
        &["logtm", "--harts", "2", "run", "f"],
        "unexpected argument '--harts'",
    ),
    (&["logtm", "run"], "<FILE>"),
    (
        &["logtm", "run", "f", "--cache"],
        "a value is required for '--cache <NAME>'",
    ),
    (
        &["logtm", "run", "f", "--cache=small", "--cache=small"],
        "cannot be used multiple times",
    ),
    (
        &["logtm", "debug", "f", "--threads"],
        "unexpected argument '--threads'",
    ),
    (
        &["logtm", "run", "f", "--threads=yes"],
        "unexpected value 'yes' for '--threads'",
    ),
    (
        &["logtm", "run", "f", "--threads", "--threads"],
        "cannot be used multiple times",
    ),
    (
        &["logtm", "run", "f", "--threads", "--history"],
        "a value is required for '--history <FILE>'",
    ),
    (
        &["logtm", "run", "f", "--harts"],
        "a value is required for '--harts <N>'",
    ),
    (
        &["logtm", "run", "f", "--harts", "-1"],
        "unexpected argument '-1'",
    ),
    (&["logtm", "run", "f", "-1"], "unexpected argument '-1'"),
    (
        &["logtm", "run", "f", "--steps=1", "--steps=1"],
        "cannot be used multiple times",
    ),
    (
        &["logtm", "run", "f", "x", "--nope"],
        "unexpected argument '--nope'",
    ),
    (&["logtm", "run", "--harts", "x"], "<FILE>"),
];

#[test]
fn refuses_as_clap_does(rt: HostRuntime) {
    for &(words, part) in &REFUSALS {
        let text = refusal(rt.alloc(), words).expect(&rt, "a refusal");
        holds_at(&rt, text.contains(part), &text);
    }
}

/// The malformed value of `--cache`.
fn bad_value(fault: &OrderFault<'static>) -> Option<&'static str> {
    match fault {
        OrderFault::Value(Argument::Cache, value) => Some(*value),
        _ => None,
    }
}

/// The malformed value of `--cache` in the words.
fn bad_cache(alloc: Global, words: &'static [&'static str]) -> Option<&'static str> {
    match &parse(alloc, words) {
        Ok(_) => None,
        Err(fault) => bad_value(fault),
    }
}

#[test]
fn a_blank_is_no_part_of_a_name(rt: HostRuntime) {
    let words = &["logtm", "run", "f", "--cache", "normal "];
    equal(&rt, &bad_cache(rt.alloc(), words), &Some("normal "));
}

/// Whether an order was not read because memory ran out.
fn wants_memory(fault: &OrderFault<'_>) -> bool {
    match fault {
        OrderFault::NoMemory => true,
        OrderFault::Value(..) => false,
        OrderFault::TwoViews | OrderFault::LongPicture | OrderFault::LongPage => false,
        OrderFault::ThreadsAlone | OrderFault::MixAlone | OrderFault::TwoFiles => false,
        OrderFault::Asked(_) | OrderFault::Refused(_) => false,
    }
}

/// Whether a run is asked for, with so many words and nothing more.
fn is_run_with(request: &Request<'_>, count: usize) -> bool {
    match request {
        Request::Run(run) => is_plain(run) && run.words.len() == count,
        _ => false,
    }
}

/// Whether the words give an order with so many words, or memory ran out.
fn gives(alloc: Global, words: &'static [&'static str], count: usize) -> bool {
    match &parse(alloc, words) {
        Ok(request) => is_run_with(request, count),
        Err(fault) => wants_memory(fault),
    }
}

/// Whether it is asked to assemble this source into this target.
fn is_asm(request: &Request<'_>, from: &str, to: &str) -> bool {
    match *request {
        Request::Asm { source, target } => source == from && target == to,
        _ => false,
    }
}

/// Whether the words ask to assemble this source into this target, or memory ran out.
fn assembles(alloc: Global, words: &'static [&'static str], from: &str, to: &str) -> bool {
    match &parse(alloc, words) {
        Ok(request) => is_asm(request, from, to),
        Err(fault) => wants_memory(fault),
    }
}

/// Whether a fault tells of this bad value, or is a refusal with this in its text, or memory ran out.
fn is_fault_with(fault: &OrderFault<'_>, part: &str) -> bool {
    match fault {
        OrderFault::NoMemory => true,
        OrderFault::TwoViews | OrderFault::LongPicture | OrderFault::LongPage => false,
        OrderFault::ThreadsAlone | OrderFault::MixAlone | OrderFault::TwoFiles => false,
        OrderFault::Value(_argument, value) => *value == part,
        OrderFault::Asked(_) => false,
        OrderFault::Refused(text) => text.contains(part),
    }
}

/// Whether the words have this bad value, or clap refuses them with this in its text, or memory ran
/// out.
fn fails(alloc: Global, words: &'static [&'static str], part: &str) -> bool {
    match &parse(alloc, words) {
        Ok(_) => false,
        Err(fault) => is_fault_with(fault, part),
    }
}

/// What the words ask to be played by hand.
fn setup_of(alloc: Global, words: &'static [&'static str]) -> Option<Setup<'static>> {
    match parse(alloc, words) {
        Ok(Request::Debug(setup)) => Some(setup),
        _ => None,
    }
}

/// Words that ask to play by hand: how many harts there are, how much memory, and which cache.
static PLAYED: [(&[&str], (u32, u32), Cache); 6] = [
    (&["logtm", "debug", "f"], (1, 1_048_576), Cache::Normal),
    (
        &["logtm", "debug", "f", "--harts", "2"],
        (2, 1_048_576),
        Cache::Normal,
    ),
    (
        &["logtm", "debug", "--memory=0x20000", "f"],
        (1, 131_072),
        Cache::Normal,
    ),
    (
        &["logtm", "debug", "f", "--cache", "small"],
        (1, 1_048_576),
        Cache::Small,
    ),
    (
        &["logtm", "debug", "f", "--cache=normal"],
        (1, 1_048_576),
        Cache::Normal,
    ),
    (
        &[
            "logtm",
            "debug",
            "--cache=small",
            "--harts=0x8",
            "f",
            "--memory=65536",
        ],
        (8, 65_536),
        Cache::Small,
    ),
];

#[test]
fn reads_what_is_played_by_hand(rt: HostRuntime) {
    for &(words, sizes, cache) in &PLAYED {
        let setup = setup_of(rt.alloc(), words).expect(&rt, "a setup");
        equal(&rt, &setup.file, &"f");
        equal(&rt, &(setup.harts, setup.memory), &sizes);
        equal(&rt, &setup.cache, &cache);
    }
}

/// Where a view of a run goes, if it is to be shown; a trace on standard output to a dash.
fn path_of(alloc: Global, words: &'static [&'static str], view: View) -> Option<&'static str> {
    match turns_of(alloc, words)?.1 {
        Show::View(shown, path) if shown == view => Some(path),
        Show::Trace if view == View::Trace => Some("-"),
        _ => None,
    }
}

/// Words, and where the trace goes that they ask for.
static TRACES: [(&[&str], Option<&str>); 7] = [
    (&["logtm", "run", "f"], None),
    (&["logtm", "run", "f", "--trace", "t"], Some("t")),
    (&["logtm", "run", "--trace=t", "f", "0"], Some("t")),
    (&["logtm", "run", "f", "--trace", "-"], Some("-")),
    (&["logtm", "run", "-", "--trace", "-"], Some("-")),
    (
        &["logtm", "run", "f", "--schedule=l", "--trace=ll"],
        Some("ll"),
    ),
    (&["logtm", "debug", "f"], None),
];

#[test]
fn reads_where_a_trace_goes(rt: HostRuntime) {
    for &(words, path) in &TRACES {
        equal(&rt, &path_of(rt.alloc(), words, View::Trace), &path);
    }
}

/// Words, and where the timeline goes that they ask for.
static TIMELINES: [(&[&str], Option<&str>); 7] = [
    (&["logtm", "run", "f"], None),
    (
        &["logtm", "run", "f", "--timeline", "t.json"],
        Some("t.json"),
    ),
    (&["logtm", "run", "--timeline=.json", "f"], Some(".json")),
    (&["logtm", "run", "f", "--trace", "t.json"], None),
    (&["logtm", "run", "f", "--timeline", "t.svg"], None),
    (&["logtm", "run", "f.json", "--timeline", "f.json"], None),
    (
        &[
            "logtm",
            "run",
            "f",
            "--schedule=l.json",
            "--timeline=l.json",
        ],
        None,
    ),
];

#[test]
fn reads_where_a_timeline_goes(rt: HostRuntime) {
    for &(words, path) in &TIMELINES {
        equal(&rt, &path_of(rt.alloc(), words, View::Timeline), &path);
    }
}

/// Words, and where the picture goes that they ask for.
static PICTURES: [(&[&str], Option<&str>); 4] = [
    (
        &["logtm", "run", "f", "--steps=2000", "--timeline=t.svg"],
        Some("t.svg"),
    ),
    (
        &["logtm", "run", "f", "--steps=2001", "--timeline=t.svg"],
        None,
    ),
    (&["logtm", "run", "f", "--timeline=t.svg"], None),
    (&["logtm", "run", "f", "--trace=t.svg", "--steps=1"], None),
];

#[test]
fn reads_where_a_picture_goes(rt: HostRuntime) {
    for &(words, path) in &PICTURES {
        equal(&rt, &path_of(rt.alloc(), words, View::Picture), &path);
    }
}

/// Words, and where the page goes that they ask for.
static PAGES: [(&[&str], Option<&str>); 4] = [
    (
        &["logtm", "run", "f", "--steps=20000", "--timeline=t.html"],
        Some("t.html"),
    ),
    (
        &["logtm", "run", "f", "--steps=20001", "--timeline=t.html"],
        None,
    ),
    (&["logtm", "run", "f", "--timeline=t.html"], None),
    (&["logtm", "run", "f", "--trace=t.html", "--steps=1"], None),
];

#[test]
fn reads_where_a_page_goes(rt: HostRuntime) {
    for &(words, path) in &PAGES {
        equal(&rt, &path_of(rt.alloc(), words, View::Page), &path);
    }
}

/// The schedule of a run by turns, if it has one, and the form of its counts, if these are shown.
fn counted(
    alloc: Global,
    words: &'static [&'static str],
) -> Option<(Option<&'static str>, Option<Stats>)> {
    let (schedule, show) = turns_of(alloc, words)?;
    match show {
        Show::Report => Some((schedule, None)),
        Show::Counts(form) => Some((schedule, Some(form))),
        Show::Trace | Show::View(..) => None,
    }
}

/// Words, and the schedule and the form of counts that they ask for.
static COUNTED: [(&[&str], Option<(Option<&str>, Option<Stats>)>); 6] = [
    (&["logtm", "run", "f"], Some((None, None))),
    (
        &["logtm", "run", "f", "--stats", "table"],
        Some((None, Some(Stats::Table))),
    ),
    (
        &["logtm", "run", "--stats=csv", "--schedule=l", "f"],
        Some((Some("l"), Some(Stats::Csv))),
    ),
    (
        &["logtm", "run", "f", "--schedule", "f"],
        Some((Some("f"), None)),
    ),
    (&["logtm", "run", "f", "--trace=-"], None),
    (&["logtm", "run", "f", "--threads"], None),
];

#[test]
fn reads_a_schedule_and_a_form_of_counts(rt: HostRuntime) {
    for &(words, expected) in &COUNTED {
        equal(&rt, &counted(rt.alloc(), words), &expected);
    }
}

/// Where the history of a run in threads goes: an empty path where it is not kept.
fn history(alloc: Global, words: &'static [&'static str]) -> Option<&'static str> {
    match way_of(alloc, words)? {
        Way::Threads { history } => Some(history.unwrap_or("")),
        Way::Turns { .. } | Way::Chance { .. } | Way::Kept { .. } => None,
    }
}

/// Words, and where the history goes of the run in threads that they ask for.
static IN_THREADS: [(&[&str], Option<&str>); 7] = [
    (&["logtm", "run", "f"], None),
    (&["logtm", "run", "f", "--threads"], Some("")),
    (&["logtm", "run", "--threads", "f", "0"], Some("")),
    (
        &["logtm", "run", "f", "--threads", "--history", "h"],
        Some("h"),
    ),
    (
        &["logtm", "run", "f", "--history=h", "--threads"],
        Some("h"),
    ),
    (&["logtm", "run", "f", "--", "--threads"], None),
    (&["logtm", "debug", "f"], None),
];

#[test]
fn reads_a_run_in_threads(rt: HostRuntime) {
    for &(words, path) in &IN_THREADS {
        equal(&rt, &history(rt.alloc(), words), &path);
    }
}

/// The seed and the weights of a run by chance, and where its history goes: an empty path where it is not kept.
fn chance(alloc: Global, words: &'static [&'static str]) -> Option<(u32, [u32; 3], &'static str)> {
    let (chance, history) = match way_of(alloc, words)? {
        Way::Chance { chance, .. } => (chance, ""),
        Way::Kept {
            chance,
            history,
            ..
        } => (chance, history),
        Way::Turns { .. } | Way::Threads { .. } => return None,
    };
    let mix = chance.mix;
    Some((
        chance.seed,
        [mix.cores, mix.arrivals, mix.evictions],
        history,
    ))
}

/// Words, and the seed, the weights and the history of the run by chance that they ask for.
static BY_CHANCE: [(&[&str], Option<(u32, [u32; 3], &str)>); 8] = [
    (
        &["logtm", "run", "f", "--seed", "7"],
        Some((7, [30, 30, 1], "")),
    ),
    (
        &["logtm", "run", "f", "--seed=0xff", "--mix=1,2,0"],
        Some((255, [1, 2, 0], "")),
    ),
    (
        &["logtm", "run", "f", "--seed=0", "--mix=0,0,0x10"],
        Some((0, [0, 0, 16], "")),
    ),
    (
        &["logtm", "run", "f", "--seed=1", "--history", "h"],
        Some((1, [30, 30, 1], "h")),
    ),
    (
        &["logtm", "run", "f", "--seed=1", "--history=h", "--trace=-"],
        Some((1, [30, 30, 1], "h")),
    ),
    (
        &[
            "logtm",
            "run",
            "f",
            "--seed=1",
            "--stats=csv",
            "--schedule=l",
        ],
        Some((1, [30, 30, 1], "")),
    ),
    (&["logtm", "run", "f"], None),
    (&["logtm", "run", "f", "--threads"], None),
];

#[test]
fn reads_a_run_by_chance(rt: HostRuntime) {
    for &(words, expected) in &BY_CHANCE {
        equal(&rt, &chance(rt.alloc(), words), &expected);
    }
}

// To be run with each allocation failing in turn.
#[test]
fn answers_nothing_else_without_memory(rt: HostRuntime) {
    holds(&rt, gives(rt.alloc(), LONG.as_slice(), 3));
    holds(
        &rt,
        fails(rt.alloc(), &["logtm", "run", "f", "1", "2", "z"], "z"),
    );
    holds(
        &rt,
        fails(rt.alloc(), &["logtm", "run", "--nope"], "'--nope'"),
    );
    holds(
        &rt,
        assembles(
            rt.alloc(),
            &["logtm", "asm", "a.s", "a.elf"],
            "a.s",
            "a.elf",
        ),
    );
}
