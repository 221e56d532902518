ghost use Rattle.std.specs.Prelude.{◌≡◌, MatchResult, None, Some, codes, map, option_map};
ghost use Rattle.clap.specs.Words.{first_of, found_of, rows_of};
ghost use Rattle.texts.specs.Numbers.{number_of};
ghost use Rattle.command_line.specs.Reading.{AreOptionsOf, AreWordsOf, HasBoth, HasValue, IsComplete, IsReadingFault, IsReadingOf, IsSearchOf, IsSetupOf};
ghost use Rattle.command_line.specs.Reading.{IsWitnessOf, NamesFirstOf, cache_of, can_write, given, is_given, malformed, malformed_of_run, malformed_of_search};
ghost use Rattle.command_line.specs.Reading.{malformed_of_setup, read_or, seed_of, stats_of, words_of};
ghost use Rattle.command_line.specs.Mixes.{mix_of};
ghost use Rattle.command_line.specs.declared.argument.Argument.TheVariants as argument;

use crate::argument::Argument;
use crate::fault::OrderFault;
use crate::mix::mix_named;
use crate::options::Options;
use crate::request::{Cache, Mix, Request, Search, Setup, Stats, Witness, Word};
use clap::ArgMatches;
use std::alloc::Global;
use texts::number;

// What is meant where an option is not given: how many harts, how many bytes of memory, how many
// steps or states at most, and which cache.
const DEFAULT_HARTS: u32 = 1;

const DEFAULT_MEMORY: u32 = 1_048_576;

const DEFAULT_STEPS: u32 = 10_000_000;

const DEFAULT_STATES: u32 = 1_000_000;

const DEFAULT_CACHE: Cache = Cache::Normal;

/// The request that the values of the subcommand of this name stand for.
pub(crate) fn read<'a>(
    alloc: Global,
    name: &str,
    matches: &ArgMatches<'a>,
) -> Result<Request<'a>, OrderFault<'a>>
    requires { IsComplete name.now (rows_of (found_of matches.now)) }
    ensures { MatchResult result (IsReadingOf name.now (rows_of (found_of matches.now)))
        (IsReadingFault name.now (rows_of (found_of matches.now))) }
{
    match name {
        "run" => Ok(Request::Run(read_options(alloc, matches)?.run()?)),
        "debug" => read_setup(matches).map(Request::Debug),
        "outcomes" => read_search(alloc, matches).map(Request::Outcomes),
        "dis" => Ok(Request::Dis {
            file: argument(matches, "file"),
        }),
        "asm" => Ok(Request::Asm {
            source: argument(matches, "source"),
            target: argument(matches, "target"),
        }),
        _ => unreachable!(),
    }
}

/// What the values of a run say.
fn read_options<'a>(alloc: Global, matches: &ArgMatches<'a>) -> Result<Options<'a>, OrderFault<'a>>
    requires { HasValue (codes "file") (rows_of (found_of matches.now)) }
    ensures { MatchResult result (AreOptionsOf (rows_of (found_of matches.now)))
        (NamesFirstOf (malformed_of_run (rows_of (found_of matches.now)))) }
{
    let file = argument(matches, "file");
    let harts = number_given(matches, Argument::Harts, "harts", DEFAULT_HARTS)?;
    let memory = number_given(matches, Argument::Memory, "memory", DEFAULT_MEMORY)?;
    let steps = number_given(matches, Argument::Steps, "steps", DEFAULT_STEPS)?;
    let cache = cache_given(matches, "cache", DEFAULT_CACHE)?;
    let stats = stats_given(matches, "stats")?;
    let seed = seed_given(matches, "seed")?;
    let mix = mix_given(matches, "mix")?;
    let words = words_given(alloc, matches)?;
    Ok(Options {
        setup: Setup {
            file,
            harts,
            memory,
            cache,
        },
        steps,
        schedule: path_given(matches, "schedule"),
        seed,
        mix,
        stats,
        trace: path_given(matches, "trace"),
        timeline: path_given(matches, "timeline"),
        threads: flag_given(matches, "threads"),
        history: path_given(matches, "history"),
        words,
    })
}

/// The machine that is to be played by hand.
fn read_setup<'a>(matches: &ArgMatches<'a>) -> Result<Setup<'a>, OrderFault<'a>>
    requires { HasValue (codes "file") (rows_of (found_of matches.now)) }
    ensures { MatchResult result (IsSetupOf (rows_of (found_of matches.now)))
        (NamesFirstOf (malformed_of_setup (rows_of (found_of matches.now)))) }
{
    let file = argument(matches, "file");
    let harts = number_given(matches, Argument::Harts, "harts", DEFAULT_HARTS)?;
    let memory = number_given(matches, Argument::Memory, "memory", DEFAULT_MEMORY)?;
    let cache = cache_given(matches, "cache", DEFAULT_CACHE)?;
    Ok(Setup {
        file,
        harts,
        memory,
        cache,
    })
}

/// The search of all ends that is to be made.
fn read_search<'a>(alloc: Global, matches: &ArgMatches<'a>) -> Result<Search<'a>, OrderFault<'a>>
    requires file { HasValue (codes "file") (rows_of (found_of matches.now)) }
    requires both { HasBoth (codes "witness") (rows_of (found_of matches.now)) }
    ensures { MatchResult result (IsSearchOf (rows_of (found_of matches.now)))
        (NamesFirstOf (malformed_of_search (rows_of (found_of matches.now)))) }
{
    let file = argument(matches, "file");
    let harts = number_given(matches, Argument::Harts, "harts", DEFAULT_HARTS)?;
    let memory = number_given(matches, Argument::Memory, "memory", DEFAULT_MEMORY)?;
    let states = number_given(matches, Argument::States, "states", DEFAULT_STATES)?;
    let witness = witness_given(matches)?;
    let words = words_given(alloc, matches)?;
    match witness {
        Some(Witness { path, .. }) if !can_write(matches, path) => Err(OrderFault::Value(
            Argument::Witness,
            path,
        )),
        witness => Ok(Search {
            file,
            harts,
            memory,
            states,
            witness,
            words,
        }),
    }
}

// The value of an argument that has one.
fn argument<'a>(matches: &ArgMatches<'a>, id: &str) -> &'a str
    requires { HasValue id.now (rows_of (found_of matches.now)) }
    ensures { first_of id.now (rows_of (found_of matches.now)) ≡ Some result.now }
{
    matches.get_str(id).unwrap()
}

fn number_given<'a>(
    matches: &ArgMatches<'a>,
    argument: Argument,
    id: &str,
    default: u32,
) -> Result<u32, OrderFault<'a>>
    ensures { MatchResult result
        (λ n. read_or number_of default id.now (rows_of (found_of matches.now)) ≡ Some n)
        (NamesFirstOf (malformed argument number_of (given id.now (rows_of (found_of matches.now))))) }
{
    match matches.get_str(id) {
        Some(text) => number(text).ok_or(OrderFault::Value(argument, text)),
        None => Ok(default),
    }
}

fn cache_given<'a>(
    matches: &ArgMatches<'a>,
    id: &str,
    default: Cache,
) -> Result<Cache, OrderFault<'a>>
    ensures { MatchResult result
        (λ cache. read_or cache_of default id.now (rows_of (found_of matches.now)) ≡ Some cache)
        (NamesFirstOf (malformed argument.Cache cache_of (given id.now (rows_of (found_of matches.now))))) }
{
    match matches.get_str(id) {
        Some(text) => cache_named(text).ok_or(OrderFault::Value(Argument::Cache, text)),
        None => Ok(default),
    }
}

/// The form in which counts are asked for, if they are.
fn stats_given<'a>(matches: &ArgMatches<'a>, id: &str) -> Result<Option<Stats>, OrderFault<'a>>
    ensures { MatchResult result
        (λ stats. read_or stats_of None id.now (rows_of (found_of matches.now)) ≡ Some stats)
        (NamesFirstOf (malformed argument.Stats stats_of (given id.now (rows_of (found_of matches.now))))) }
{
    match matches.get_str(id) {
        Some(text) => stats_named(text).ok_or(OrderFault::Value(Argument::Stats, text)),
        None => Ok(None),
    }
}

/// The seed by which chance chooses, if it does.
fn seed_given<'a>(matches: &ArgMatches<'a>, id: &str) -> Result<Option<u32>, OrderFault<'a>>
    ensures { MatchResult result
        (λ seed. read_or seed_of None id.now (rows_of (found_of matches.now)) ≡ Some seed)
        (NamesFirstOf (malformed argument.Seed seed_of (given id.now (rows_of (found_of matches.now))))) }
{
    match matches.get_str(id) {
        Some(text) => seed_named(text).ok_or(OrderFault::Value(Argument::Seed, text)),
        None => Ok(None),
    }
}

/// The weights of what chance draws, if they are given.
fn mix_given<'a>(matches: &ArgMatches<'a>, id: &str) -> Result<Option<Mix>, OrderFault<'a>>
    ensures { MatchResult result
        (λ mix. read_or mix_of None id.now (rows_of (found_of matches.now)) ≡ Some mix)
        (NamesFirstOf (malformed argument.Mix mix_of (given id.now (rows_of (found_of matches.now))))) }
{
    match matches.get_str(id) {
        Some(text) => mix_named(text).ok_or(OrderFault::Value(Argument::Mix, text)),
        None => Ok(None),
    }
}

fn path_given<'a>(matches: &ArgMatches<'a>, id: &str) -> Option<&'a str>
    ensures { option_map (λ path. path.now) result ≡ first_of id.now (rows_of (found_of matches.now)) }
{
    matches.get_str(id)
}

/// Whether a flag was given.
fn flag_given(matches: &ArgMatches<'_>, id: &str) -> bool
    ensures { result ≡ is_given id.now (rows_of (found_of matches.now)) }
{
    match path_given(matches, id) {
        Some(text) => text == "true",
        None => false,
    }
}

/// The run that is to be written, if one is. Whether it can be written to its path is not read.
fn witness_given<'a>(matches: &ArgMatches<'a>) -> Result<Option<Witness<'a>>, OrderFault<'a>>
    requires { HasBoth (codes "witness") (rows_of (found_of matches.now)) }
    ensures { MatchResult result (IsWitnessOf (rows_of (found_of matches.now)))
        (NamesFirstOf (malformed argument.Witness number_of (given (codes "witness") (rows_of (found_of matches.now))))) }
{
    match matches.get_strs("witness") {
        Some(values) => {
            let (text, path) = (values[0], values[1]);
            match number(text) {
                Some(outcome) => Ok(Some(Witness { outcome, path })),
                None => Err(OrderFault::Value(Argument::Witness, text)),
            }
        }
        None => Ok(None),
    }
}

/// Whether a run to an outcome can be written to a path: no dash, and not the program's.
fn can_write(matches: &ArgMatches<'_>, path: &str) -> bool
    requires { HasValue (codes "file") (rows_of (found_of matches.now)) }
    ensures { result ≡ can_write (rows_of (found_of matches.now)) path.now }
{
    !(path == "-" || path == argument(matches, "file"))
}

#[tactic(auto, unfolding(crate::specs::Reading::cache_of))]
fn cache_named(name: &str) -> Option<Cache>
    ensures { result ≡ cache_of name.now }
{
    match name {
        "1x1" => Some(Cache::OneByOne),
        "1x2" => Some(Cache::OneByTwo),
        "small" | "2x1" => Some(Cache::Small),
        "2x2" => Some(Cache::TwoByTwo),
        "4x1" => Some(Cache::FourByOne),
        "4x2" => Some(Cache::FourByTwo),
        "8x2" => Some(Cache::EightByTwo),
        "8x4" => Some(Cache::EightByFour),
        "normal" | "16x4" => Some(Cache::Normal),
        "64x4" => Some(Cache::SixtyFourByFour),
        "64x8" => Some(Cache::SixtyFourByEight),
        _ => None,
    }
}

fn stats_named(name: &str) -> Option<Option<Stats>>
    ensures { result ≡ stats_of name.now }
{
    match name {
        "table" => Some(Some(Stats::Table)),
        "csv" => Some(Some(Stats::Csv)),
        _ => None,
    }
}

fn seed_named(text: &str) -> Option<Option<u32>>
    ensures { result ≡ seed_of text.now }
{
    Some(Some(number(text)?))
}

fn words_given<'a>(alloc: Global, matches: &ArgMatches<'a>) -> Result<Vec<Word<'a>>, OrderFault<'a>>
    ensures { MatchResult result
        (λ words. AreWordsOf (words_of (rows_of (found_of matches.now))) words.items)
        (NamesFirstOf (malformed argument.Word number_of (words_of (rows_of (found_of matches.now))))) }
{
    match matches.get_strs("words") {
        Some(texts) => read_words(alloc, texts),
        None => Ok(Vec::new(alloc)),
    }
}

fn read_words<'a>(alloc: Global, texts: &[&'a str]) -> Result<Vec<Word<'a>>, OrderFault<'a>>
    ensures { MatchResult result (λ words. AreWordsOf (map (λ t. t.now) texts.now) words.items)
        (NamesFirstOf (malformed argument.Word number_of (map (λ t. t.now) texts.now))) }
{
    let mut words = Vec::new(alloc);
    for &text in texts {
        match number(text) {
            Some(address) => words.push(Word {
                text,
                addr: address,
            })?,
            None => return Err(OrderFault::Value(Argument::Word, text)),
        }
    }
    Ok(words)
}
