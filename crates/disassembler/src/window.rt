//! The words of text in a window of memory.
ghost use Rattle.std.specs.Prelude.{◌≤◌, ◌+◌, ◌*◌, ◌^◌, length, [], ◌∷◌};
ghost use Rattle.disassembler.specs.Listing.{AddsWords};

use std::slice;
use table::{Segment, Text};
use words::Addr;

/// Adds the words of text from a word of memory on, each where there is none yet: the first at 4 times `start`, and so on.
pub(crate) fn add_words(segments: &[Segment], start: usize, words: &mut [Option<u32>])
    requires { 4 * (start + length words.old) ≤ 2 ^ 32 }
    ensures { AddsWords segments.now start words.old words.new }
{
    for segment in segments {
        add_segment(segment, start, words);
    }
}

fn add_segment(segment: &Segment, start: usize, words: &mut [Option<u32>])
    requires { 4 * (start + length words.old) ≤ 2 ^ 32 }
    ensures { AddsWords (segment.now ∷ []) start words.old words.new }
{
    let text = Text::new(slice::from_ref(segment));
    let addr = segment.addr as usize;
    let first = start.max(addr.div_ceil(4));
    let end = ((addr + segment.size as usize) / 4).min(start + words.len());
    for word in first..end {
        let place = word - start;
        words[place] = words[place].or(text.word(Addr::new(4 * word as u32)));
    }
}
