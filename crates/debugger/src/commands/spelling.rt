ghost use Rattle.std.specs.Prelude.{◌≡◌, ◌∷◌};
ghost use Rattle.schedule.specs.Spelling.{words_of};
ghost use Rattle.debugger.specs.Spelling as spec;

use crate::commands::command::{Command, Look};
use disassembler::Symbols;
use schedule::{one_word, sort_of, split, three_words, two_words};
use texts::number;

/// What no word stands behind.
fn alone<T: Copy>(words: Option<&str>, meant: T) -> Option<T>
    ensures { result ≡ spec.alone (spec.words_in words.entry) meant }
{
    match words {
        None => Some(meant),
        Some(_) => None,
    }
}

/// The one number that the words are.
fn one(words: Option<&str>) -> Option<u32>
    ensures { result ≡ spec.one (spec.words_in words.entry) }
{
    number(one_word(words?)?)
}

/// The address of text that the words are: a number, or the name of a symbol.
fn place(names: &Symbols<'_>, words: Option<&str>) -> Option<u32>
    ensures { result ≡ spec.place names.now (spec.words_in words.entry) }
{
    let word = one_word(words?)?;
    match number(word) {
        Some(address) => Some(address),
        None => names.address_of(word),
    }
}

/// The two numbers that the words are.
fn two(words: Option<&str>) -> Option<(u32, u32)>
    ensures { result ≡ spec.two (spec.words_in words.entry) }
{
    let (first, second) = two_words(words?)?;
    Some((number(first)?, number(second)?))
}

fn run(words: Option<&str>) -> Option<Command>
    ensures { result ≡ spec.run_of (spec.words_in words.entry) }
{
    match words {
        None => Some(Command::Run(1_000_000)),
        Some(_) => one(words).map(Command::Run),
    }
}

fn evict(words: Option<&str>) -> Option<Command>
    ensures { result ≡ spec.evict_of (spec.words_in words.entry) }
{
    let (hart, addr) = two(words)?;
    Some(Command::Evict(hart, addr))
}

fn deliver(words: Option<&str>) -> Option<Command>
    ensures { result ≡ spec.deliver_of (spec.words_in words.entry) }
{
    let (sort, hart, addr) = three_words(words?)?;
    Some(Command::Deliver(sort_of(sort)?, number(hart)?, number(addr)?))
}

/// The look of two numbers.
fn view(words: Option<&str>) -> Option<Look>
    ensures { result ≡ spec.view_of (spec.words_in words.entry) }
{
    let (hart, addr) = two(words)?;
    Some(Look::View(hart, addr))
}

fn line(words: Option<&str>) -> Option<Look>
    ensures { result ≡ spec.line_of (spec.words_in words.entry) }
{
    let (hart, addr) = two(words)?;
    Some(Look::Line(hart, addr))
}

fn look(names: &Symbols<'_>, verb: &str, words: Option<&str>) -> Option<Look>
    ensures { result ≡ spec.look_of names.now verb.now (spec.words_in words.entry) }
{
    match verb {
        "regs" => one(words).map(Look::Regs),
        "word" => one(words).map(Look::Word),
        "raw" => one(words).map(Look::Raw),
        "view" => view(words),
        "line" => line(words),
        "dir" => one(words).map(Look::Dir),
        "dirs" => alone(words, Look::Dirs),
        "tx" => one(words).map(Look::Tx),
        "log" => one(words).map(Look::Log),
        "dis" => place(names, words).map(Look::Dis),
        "messages" => alone(words, Look::Messages),
        "harts" => alone(words, Look::Harts),
        "help" => alone(words, Look::Help),
        _ => None,
    }
}

fn with_words(names: &Symbols<'_>, verb: &str, words: Option<&str>) -> Option<Command>
    ensures { result ≡ spec.spelled names.now (verb.now ∷ spec.words_in words.entry) }
{
    match verb {
        "step" => alone(words, Command::Step),
        "run" => run(words),
        "break" => place(names, words).map(Command::Break),
        "core" => one(words).map(Command::Core),
        "evict" => evict(words),
        "deliver" => deliver(words),
        "quit" => alone(words, Command::Quit),
        _ => look(names, verb, words).map(Command::Look),
    }
}

fn is_comment(line: &str) -> bool
    ensures { result ≡ spec.is_comment line.now }
{
    line.starts_with('#')
}

/// The command that a line's words spell, parted by one space. Numbers are decimal, or hexadecimal behind `0x`; harts and addresses are any
/// numbers, and an address of text can be a symbol's name. `None` where the first word is no command, where there are too few words or too many, and where a word is no number or no sort.
pub fn command_of(names: &Symbols<'_>, line: &str) -> Option<Command>
    ensures { result ≡ spec.command_of names.now line.now }
{
    if is_comment(line) {
        return Some(Command::Comment);
    }
    match split(line) {
        Some((verb, words)) => with_words(names, verb, Some(words)),
        None => with_words(names, line, None),
    }
}
