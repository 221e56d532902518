ghost use Rattle.std.specs.Prelude.{◌≡◌, ◌≢◌, ◌∷◌, [], length, MatchOption};
ghost use Rattle.schedule.specs.Spelling as spec;

use crate::choices::{Choice, Name, Sort};
use texts::number;
use words::{Addr, BlockNo, HartId};

/// The first word of a text, and the text of the others. `None` where it is the only one.
pub fn split(text: &str) -> Option<(&str, &str)>
    ensures { MatchOption result (spec.words_of text.now ≡ text.now ∷ []) (λ x. spec.words_of text.now ≡ x.0.now ∷ spec.words_of x.1.now) }
{
    text.split_once(' ')
}

/// The one word of a text.
pub fn one_word(text: &str) -> Option<&str>
    ensures { MatchOption result (length (spec.words_of text.now) ≢ 1) (λ x. spec.words_of text.now ≡ x.now ∷ []) }
{
    match split(text) {
        Some(_) => None,
        None => Some(text),
    }
}

/// The two words of a text.
pub fn two_words(text: &str) -> Option<(&str, &str)>
    ensures { MatchOption result (length (spec.words_of text.now) ≢ 2) (λ x. spec.words_of text.now ≡ x.0.now ∷ x.1.now ∷ []) }
{
    let (first, rest) = split(text)?;
    Some((first, one_word(rest)?))
}

/// The three words of a text.
pub fn three_words(text: &str) -> Option<(&str, &str, &str)>
    ensures { MatchOption result (length (spec.words_of text.now) ≢ 3) (λ x. spec.words_of text.now ≡ x.0.now ∷ x.1.now ∷ x.2.now ∷ []) }
{
    let (first, rest) = split(text)?;
    let (second, third) = two_words(rest)?;
    Some((first, second, third))
}

/// The sort that a word names.
pub fn sort_of(word: &str) -> Option<Sort>
    ensures { result ≡ spec.sort_of word.now }
{
    match word {
        "get" => Some(Sort::Get),
        "put" => Some(Sort::Put),
        "done" => Some(Sort::Done),
        "grant" => Some(Sort::Grant),
        "forward" => Some(Sort::Forward),
        "putack" => Some(Sort::PutAck),
        "ack" => Some(Sort::Ack),
        "nack" => Some(Sort::Nack),
        _ => None,
    }
}

fn hart(word: &str) -> Option<HartId>
    ensures { result ≡ spec.hart_of word.now }
{
    HartId::try_new(number(word)? as usize)
}

/// The block that the word at an address is in.
fn block(word: &str) -> Option<BlockNo>
    ensures { result ≡ spec.block_of word.now }
{
    let addr = number(word)?;
    if addr % 4 == 0 {
        Some(Addr::new(addr).block())
    } else {
        None
    }
}

fn core(words: &str) -> Option<Choice>
    ensures { result ≡ spec.core_of (spec.words_of words.now) }
{
    Some(Choice::Core(hart(one_word(words)?)?))
}

fn evict(words: &str) -> Option<Choice>
    ensures { result ≡ spec.evict_of (spec.words_of words.now) }
{
    let (hart_word, place) = two_words(words)?;
    Some(Choice::Evict(hart(hart_word)?, block(place)?))
}

fn deliver(words: &str) -> Option<Choice>
    ensures { result ≡ spec.deliver_of (spec.words_of words.now) }
{
    let (sort_word, hart_word, place) = three_words(words)?;
    Some(Choice::Deliver(Name {
        sort: sort_of(sort_word)?,
        hart: hart(hart_word)?,
        block: block(place)?,
    }))
}

/// The choice that one word spells.
fn lone(word: &str) -> Option<Choice>
    ensures { result ≡ spec.choice_of (word.now ∷ []) }
{
    match word {
        "turn" => Some(Choice::Turn),
        _ => None,
    }
}

/// The choice that a text spells: `core H`, `evict H A`, `deliver SORT H A` or `turn`, the words parted by one space. H is a hart's
/// number, 0 to 7, and A the address of a word in the block, a multiple of 4; both are decimal, or hexadecimal behind `0x`.
pub fn choice(text: &str) -> Option<Choice>
    ensures { result ≡ spec.choice_of (spec.words_of text.now) }
{
    let Some((verb, words)) = split(text) else {
        return lone(text);
    };
    match verb {
        "core" => core(words),
        "evict" => evict(words),
        "deliver" => deliver(words),
        _ => None,
    }
}
