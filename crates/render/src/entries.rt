ghost use Rattle.std.specs.Prelude.{◌≡◌, ◌≤◌, ◌+◌, ◌++◌, length, codes, decimal};
ghost use Rattle.words.specs.declared.entry.Entry.TheVariants.{Retire, Abort, Trap, Refuse, Spill};
ghost use Rattle.texts.specs.Puts.{Puts};
ghost use Rattle.disassembler.specs.Tables.{no_symbols};
ghost use Rattle.render.specs.Entries as spec;
ghost use Rattle.render.specs.Entries.{entry_line};

use crate::parts::{first_byte, hart_digit};
use arrayvec::ArrayString;
use disassembler::{Symbols, add_text, register_name};
use itoa::Buffer;
use table::byte_count;
use texts::{Line, put_all};
use words::{AbortCause, Access, Addr, BlockNo, Cause, Entry, HartId, Reg, Sink, SinkFault};

/// How many bytes the line of an entry has at most.
pub const ENTRY_BYTES: usize = 240;

/// Puts the line of an entry. Behind its pc the name stands, if it has one.
pub fn put_entry<S: Sink>(names: &Symbols<'_>, entry: &Entry, sink: &mut S) -> Result<(), SinkFault>
    ensures { Puts (S.state sink.old) (S.state sink.new) (entry_line names.now entry.now) result }
{
    let mut line = Line::<ENTRY_BYTES>::new();
    add_entry(names, entry, &mut line);
    put_all(sink, &[line.as_bytes()])
}

/// Adds the line of an entry, as [`put_entry`] puts it, where there is room for [`ENTRY_BYTES`].
#[inline(never)]
pub(crate) fn add_entry<const CAP: usize>(names: &Symbols<'_>, entry: &Entry, line: &mut Line<CAP>)
    requires { length line.old + 240 ≤ CAP }
    ensures text { line.new ≡ line.old ++ entry_line names.now entry.now }
    ensures longer { length line.new ≤ length line.old + 240 }
{
    match *entry {
        Entry::Retire {
            hart,
            pc,
            word,
            write,
            load,
            store,
        } => add_retired(names, hart, pc, word, write, load, store, line),
        Entry::Abort { hart, cause } => add_aborted(hart, cause, line),
        Entry::Trap { hart, cause, pc } => add_trapped(names, hart, cause, pc, line),
        Entry::Refuse {
            hart,
            requester,
            block,
        } => add_refused(hart, requester, block, line),
        Entry::Spill { hart, block } => add_spilled(hart, block, line),
    }
}

fn add_retired<const CAP: usize>(
    names: &Symbols<'_>,
    hart: HartId,
    pc: Addr,
    word: u32,
    write: Option<(Reg, u32)>,
    load: Option<Access>,
    store: Option<Access>,
    line: &mut Line<CAP>,
)
    requires { length line.old + 240 ≤ CAP }
    ensures text { line.new ≡ line.old ++ entry_line names.now (Retire hart pc word write load store) }
    ensures longer { length line.new ≤ length line.old + 240 }
{
    line.put_bytes(&hart_digit(hart));
    add_word(names, pc, word, line);
    add_effect(write, load, store, line);
}

/// Adds the pc of a word, with its name, and the word with its text.
#[inline(always)]
pub(crate) fn add_word<const CAP: usize>(
    names: &Symbols<'_>,
    pc: Addr,
    word: u32,
    line: &mut Line<CAP>,
)
    requires { length line.old + 139 ≤ CAP }
    ensures text { line.new ≡ line.old ++ spec.word_part names.now pc word }
    ensures longer { length line.new ≤ length line.old + 139 }
{
    line.put(" 0x");
    line.put_word(pc.value());
    names.add_label(pc, line);
    line.put(" ");
    line.put_word(word);
    line.put(" ");
    add_text(word, line);
}

/// Adds what a word did, and ends the line.
#[inline(always)]
pub(crate) fn add_effect<const CAP: usize>(
    write: Option<(Reg, u32)>,
    load: Option<Access>,
    store: Option<Access>,
    line: &mut Line<CAP>,
)
    requires { length line.old + 83 ≤ CAP }
    ensures text { line.new ≡ line.old ++ spec.effect_part write load store }
    ensures longer { length line.new ≤ length line.old + 83 }
{
    add_write(write, line);
    add_access("load", load, line);
    add_access("store", store, line);
    line.put("\n");
}

/// Adds the register that was written, if one was, and its value.
#[inline(always)]
fn add_write<const CAP: usize>(write: Option<(Reg, u32)>, line: &mut Line<CAP>)
    requires { length line.old + 18 ≤ CAP }
    ensures text { line.new ≡ line.old ++ spec.write_part write }
    ensures longer { length line.new ≤ length line.old + 18 }
{
    if let Some((register, value)) = write {
        line.put(" | ");
        line.put_name(register_name(register));
        line.put("=0x");
        line.put_word(value);
    }
}

/// Adds an access, if there was one.
#[inline(always)]
fn add_access<const CAP: usize>(name: &str, access: Option<Access>, line: &mut Line<CAP>)
    requires short { length name.now ≤ 5 }
    requires room { length line.old + 32 ≤ CAP }
    ensures text { line.new ≡ line.old ++ spec.access_part name.now access }
    ensures longer { length line.new ≤ length line.old + 32 }
{
    if let Some(access) = access {
        line.put(" | ");
        line.put(name);
        line.put(" ");
        line.put_digit(byte_count(access.width));
        line.put(" 0x");
        line.put_word(access.addr.value());
        line.put("=0x");
        line.put_word(access.value);
    }
}

/// A cause, by its number and its name.
pub(crate) fn cause_text(cause: Cause) -> ArrayString<40>
    ensures text { result.bytes ≡ spec.cause_text cause }
{
    let mut digits = Buffer::new();
    let mut text = ArrayString::new();
    text.push_str("trap ");
    text.push_str(digits.format(cause.number()));
    text.push_str(" ");
    text.push_str(cause.name());
    text
}

#[inline(never)]
fn add_aborted<const CAP: usize>(hart: HartId, cause: AbortCause, line: &mut Line<CAP>)
    requires { length line.old + 240 ≤ CAP }
    ensures text { line.new ≡ line.old ++ entry_line no_symbols (Abort hart cause) }
    ensures longer { length line.new ≤ length line.old + 240 }
{
    line.put_bytes(&hart_digit(hart));
    line.put(" abort ");
    line.put(abort_text(cause).as_str());
    line.put("\n");
}

fn abort_text(cause: AbortCause) -> ArrayString<40>
    ensures { result.bytes ≡ spec.abort_text cause }
{
    match cause {
        AbortCause::Asked => named("asked"),
        AbortCause::Conflict => named("conflict"),
        AbortCause::LogFull => named("logfull"),
        AbortCause::Trapped(cause, _) => cause_text(cause),
    }
}

fn named(name: &str) -> ArrayString<40>
    requires { length name.now ≤ 8 }
    ensures { result.bytes ≡ name.now }
{
    let mut text = ArrayString::new();
    text.push_str(name);
    text
}

#[inline(never)]
fn add_trapped<const CAP: usize>(
    names: &Symbols<'_>,
    hart: HartId,
    cause: Cause,
    pc: Addr,
    line: &mut Line<CAP>,
)
    requires { length line.old + 240 ≤ CAP }
    ensures text { line.new ≡ line.old ++ entry_line names.now (Trap hart cause pc) }
    ensures longer { length line.new ≤ length line.old + 240 }
{
    line.put_bytes(&hart_digit(hart));
    line.put(" ");
    line.put(cause_text(cause).as_str());
    line.put(" at 0x");
    line.put_word(pc.value());
    names.add_label(pc, line);
    line.put("\n");
}

#[inline(never)]
fn add_refused<const CAP: usize>(
    hart: HartId,
    requester: HartId,
    block: BlockNo,
    line: &mut Line<CAP>,
)
    requires { length line.old + 240 ≤ CAP }
    ensures text { line.new ≡ line.old ++ entry_line no_symbols (Refuse hart requester block) }
    ensures longer { length line.new ≤ length line.old + 240 }
{
    line.put_bytes(&hart_digit(hart));
    line.put(" refuses ");
    line.put_bytes(&hart_digit(requester));
    line.put(" block 0x");
    line.put_bytes(&first_byte(block));
    line.put("\n");
}

#[inline(never)]
fn add_spilled<const CAP: usize>(hart: HartId, block: BlockNo, line: &mut Line<CAP>)
    requires { length line.old + 240 ≤ CAP }
    ensures text { line.new ≡ line.old ++ entry_line no_symbols (Spill hart block) }
    ensures longer { length line.new ≤ length line.old + 240 }
{
    line.put_bytes(&hart_digit(hart));
    line.put(" spills block 0x");
    line.put_bytes(&first_byte(block));
    line.put("\n");
}
