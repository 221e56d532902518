ghost use Rattle.std.specs.Prelude.{◌≡◌, ◌≤◌, ◌++◌, length, codes};
ghost use Rattle.std.specs.Option.{option_map};
ghost use Rattle.texts.specs.Puts.{Puts};
ghost use Rattle.directory.specs.Entries.{shown_owner, shown_busy, shown_entry};
ghost use Rattle.render.specs.Blocks as spec;

use crate::parts::{hart_text, harts_text, letter};
use arrayvec::ArrayString;
use directory::{Busy, DirEntry, Owner};
use texts::{hexadecimal, put_all};
use words::{Addr, LineState, Marks, Sink, SinkFault};

/// A line of a cache: its state, and the marks R, W and X as `r`, `w` and `x`, or a dash for each that isn't set.
pub fn cached_text(state: LineState, marks: Marks) -> ArrayString<5>
    ensures { result.bytes ≡ spec.cached_text state marks }
{
    let mut text = ArrayString::new();
    text.push_str(letter(state));
    text.push_str(" ");
    text.push_str(mark_text("r", marks.read));
    text.push_str(mark_text("w", marks.written));
    text.push_str(mark_text("x", marks.overflowed));
    text
}

fn mark_text(name: &str, marked: bool) -> &str
    requires { length name.now ≤ 1 }
    ensures text { result.now ≡ spec.mark_text name.now marked }
    ensures short { length result.now ≤ 1 }
{
    if marked { name } else { "-" }
}

/// Puts a line of a cache, with a line end.
pub fn put_cached<S: Sink>(state: LineState, marks: Marks, sink: &mut S) -> Result<(), SinkFault>
    ensures { Puts (S.state sink.old) (S.state sink.new) (spec.cached_text state marks ++ codes "\n") result }
{
    put_all(
        sink,
        &[cached_text(state, marks).as_str().as_bytes(), b"\n"],
    )
}

/// An entry of the directory: the owner, the sharers, and the request that the block is busy with.
pub fn directory_text(entry: &DirEntry) -> ArrayString<64>
    ensures { result.bytes ≡ spec.directory_text (shown_entry entry.now) }
{
    let mut text = ArrayString::new();
    text.push_str(owner_text(entry.owner).as_str());
    text.push_str(" sharers ");
    text.push_str(harts_text(&entry.sharers).as_str());
    text.push_str(" busy ");
    text.push_str(busy_text(entry.busy).as_str());
    text
}

fn owner_text(owner: Owner) -> ArrayString<10>
    ensures { result.bytes ≡ spec.owner_text (shown_owner owner) }
{
    let mut text = ArrayString::new();
    match owner {
        Owner::Nobody => text.push_str("owner none"),
        Owner::Owned(hart) => {
            text.push_str("owned ");
            text.push_str(hart_text(hart).as_str());
        }
        Owner::Sticky(hart) => {
            text.push_str("sticky ");
            text.push_str(hart_text(hart).as_str());
        }
    }
    text
}

fn busy_text(busy: Option<Busy>) -> ArrayString<5>
    ensures { result.bytes ≡ spec.busy_text (option_map shown_busy busy) }
{
    let mut text = ArrayString::new();
    match busy {
        Some(busy) => {
            text.push_str(hart_text(busy.requester).as_str());
            text.push_str(" ");
            text.push_str(letter(busy.give));
        }
        None => text.push_str("-"),
    }
    text
}

/// Puts an entry of the directory, with a line end.
pub fn put_directory<S: Sink>(entry: &DirEntry, sink: &mut S) -> Result<(), SinkFault>
    ensures { Puts (S.state sink.old) (S.state sink.new) (spec.directory_text (shown_entry entry.now) ++ codes "\n") result }
{
    put_all(sink, &[directory_text(entry).as_str().as_bytes(), b"\n"])
}

/// Puts the line of a word of memory: its address and its value.
pub fn put_word<S: Sink>(addr: Addr, value: u32, sink: &mut S) -> Result<(), SinkFault>
    ensures { Puts (S.state sink.old) (S.state sink.new) (spec.word_line addr value) result }
{
    put_all(
        sink,
        &[
            b"0x",
            &hexadecimal(addr.value()),
            b" = 0x",
            &hexadecimal(value),
            b"\n",
        ],
    )
}
