ghost use Rattle.std.specs.Prelude.{◌≡◌, ◌≤◌, ◌+◌, ◌*◌, ℕ, None, length, slice_index_or};
ghost use Rattle.std.specs.List.{AllByRecursion, flat_map, range_with_len};
ghost use Rattle.loader.specs.Programs.{IsSegment};
ghost use Rattle.table.specs.Program.{word_at};
ghost use Rattle.texts.specs.Puts.{Puts};
ghost use Rattle.disassembler.specs.Listing.{line, line_if, lines_from, listing_of};

use crate::printer::text;
use crate::symbol_table::Symbols;
use crate::window::add_words;
use loader::Program;
use table::Segment;
use texts::{hexadecimal, put_all};
use words::{Addr, Sink, SinkFault};

/// How many words of memory a window has. All segments are looked at once a window, so that a listing takes time by its words, and not
/// by the square of how many segments there are.
const WINDOW: usize = 4096;

/// Puts a line for each word of the program's text that stands at a multiple of 4, by rising address: the address, the word, and its
/// canonical text. By the side of an address its name stands, if it has one. The only error is that a put failed; then a beginning of the listing was taken.
pub fn listing<S: Sink>(
    program: &Program,
    names: &Symbols<'_>,
    out: &mut S,
) -> Result<(), SinkFault>
    ensures { Puts (S.state out.old) (S.state out.new) (listing_of names.now program.now) result }
{
    let segments = program.segments();
    for window in 0..windows(segments) {
        put_window(segments, names, WINDOW * window, out)?;
    }
    Ok(())
}

/// How many windows of memory it takes to hold all text.
fn windows(segments: &[Segment]) -> usize
    requires { AllByRecursion IsSegment segments.now }
    ensures most { result ≤ 256 }
    ensures all { (k : ℕ) → WINDOW * result ≤ k → word_at segments.now (4 * k) ≡ None }
{
    let mut end = 0;
    for segment in segments {
        if segment.exec {
            end = end.max(segment.addr as usize + segment.size as usize);
        }
    }
    end.div_ceil(4 * WINDOW)
}

/// Puts the lines of the words of text in the window that begins with a word of memory.
fn put_window<S: Sink>(
    segments: &[Segment],
    names: &Symbols<'_>,
    start: usize,
    out: &mut S,
) -> Result<(), SinkFault>
    requires { start + WINDOW ≤ 1048576 }
    ensures { Puts (S.state out.old) (S.state out.new) (lines_from names.now segments.now start WINDOW) result }
{
    let mut words = [None; WINDOW];
    add_words(segments, start, &mut words);
    put_words(&words, names, start, out)
}

/// Puts the lines of words, of which the first would stand at 4 times `start`.
fn put_words<S: Sink>(
    words: &[Option<u32>],
    names: &Symbols<'_>,
    start: usize,
    out: &mut S,
) -> Result<(), SinkFault>
    requires { start + length words.now ≤ 1048576 }
    ensures { Puts (S.state out.old) (S.state out.new) (flat_map (λ i. line_if names.now (4 * (start + i)) (slice_index_or words.now i None)) (range_with_len 0 (length words.now))) result }
{
    for i in 0..words.len() {
        put_word(Addr::new(4 * (start + i) as u32), names, words[i], out)?;
    }
    Ok(())
}

/// Puts the line of the word at an address, if there is one.
fn put_word<S: Sink>(
    addr: Addr,
    names: &Symbols<'_>,
    word: Option<u32>,
    out: &mut S,
) -> Result<(), SinkFault>
    ensures { Puts (S.state out.old) (S.state out.new) (line_if names.now addr word) result }
{
    match word {
        Some(word) => put_line(addr, names, word, out),
        None => Ok(()),
    }
}

/// Puts the line of a word at an address, by whose side its name stands, if it has one.
pub fn put_line<S: Sink>(
    addr: Addr,
    names: &Symbols<'_>,
    word: u32,
    out: &mut S,
) -> Result<(), SinkFault>
    ensures { Puts (S.state out.old) (S.state out.new) (line names.now addr word) result }
{
    let text = text(word);
    put_all(
        out,
        &[
            b"0x",
            &hexadecimal(addr.value()),
            names.label(addr).as_bytes(),
            b": ",
            &hexadecimal(word),
            b"  ",
            text.as_bytes(),
            b"\n",
        ],
    )
}
