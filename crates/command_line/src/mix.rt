//! The weights that a text says.
ghost use Rattle.std.specs.Prelude.{◌≡◌, MatchOption, false, true};
ghost use Rattle.std.specs.List.{after_first, before_first};
ghost use Rattle.command_line.specs.Mixes.{has_comma, is_comma, mix_behind, mix_from, mix_if, mix_of};

use crate::request::Mix;
use texts::number;

/// The weights that three numbers say, with a comma between two: those of core steps, arrivals and evictions. `None` where all are 0.
pub(crate) fn mix_named(text: &str) -> Option<Option<Mix>>
    ensures { result ≡ mix_of text.now }
{
    let (cores, rest) = cut(text)?;
    mix_behind(number(cores), rest)
}

fn mix_behind(cores: Option<u32>, rest: &str) -> Option<Option<Mix>>
    ensures { result ≡ mix_behind cores rest.now }
{
    let (arrivals, evictions) = cut(rest)?;
    mix_from(cores, number(arrivals), number(evictions))
}

fn mix_from(
    cores: Option<u32>,
    arrivals: Option<u32>,
    evictions: Option<u32>,
) -> Option<Option<Mix>>
    ensures { result ≡ mix_from cores arrivals evictions }
{
    mix_if(cores?, arrivals?, evictions?)
}

fn mix_if(cores: u32, arrivals: u32, evictions: u32) -> Option<Option<Mix>>
    ensures { result ≡ mix_if cores arrivals evictions }
{
    let are_none = cores == 0 && arrivals == 0 && evictions == 0;
    if are_none {
        None
    } else {
        Some(Some(Mix {
            cores,
            arrivals,
            evictions,
        }))
    }
}

/// What stands before and behind the first comma. `None` where there is none.
fn cut(text: &str) -> Option<(&str, &str)>
    ensures { MatchOption result (has_comma text.now ≡ false)
        (λ x. (has_comma text.now ≡ true) × (x.0.now ≡ before_first is_comma text.now) × (x.1.now ≡ after_first is_comma text.now)) }
{
    text.split_once(',')
}
