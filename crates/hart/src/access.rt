ghost use Rattle.std.specs.Prelude.{◌≡◌, ◌<◌, ◌/◌, ◌%◌, ◌^◌, ◌&&◌, slice_set, is_some, Some};
ghost use Rattle.words.specs.Limits.{block_words};
ghost use Rattle.words.specs.Bytes.{bytes_in, cut};
ghost use Rattle.table.specs.declared.effect.Act.TheVariants.{Memory};
ghost use Rattle.flat.specs.Effects.{old_of, put_by, load_by, store_by, write_by};
ghost use Rattle.protocol.specs.Lines.{byte_in, words_put, is_enough};
ghost use Rattle.protocol.specs.Core.{kind_of, is_log_due};
ghost use Rattle.hart.specs.Shown.{shown_line};

use cache::{Line, with_bytes};
use table::{Effect, MemoryAct, extend_load, finish_load, finish_store, write_to};
use words::{Access, BLOCK_WORDS, Block, Kind, Reg, Width};

/// An access needs what a store needs, if it is also one.
#[inline(always)]
pub(crate) fn kind_of(m: &MemoryAct) -> Kind
    ensures { result ≡ kind_of m.now }
{
    if m.store.is_some() {
        Kind::Write
    } else {
        Kind::Read
    }
}

/// Whether a line is enough for an access.
#[inline(always)]
pub(crate) fn is_enough(m: &MemoryAct, line: &Line) -> bool
    ensures { result ≡ is_enough (kind_of m.now) (Some (shown_line line.now)) }
{
    m.store.is_none() || line.state.is_owned()
}

/// Whether a block has to be logged before an access in a transaction: it is a store, to a line without the W mark.
#[inline(always)]
pub(crate) fn is_log_due(m: &MemoryAct, line: &Line) -> bool
    ensures { result ≡ is_log_due m.now (shown_line line.now) }
{
    m.store.is_some() && !line.marks.written
}

/// The number that stands at an access's place, in the words of its block.
#[inline(always)]
fn number(content: &Block, m: &MemoryAct) -> u32
    requires { m.now.addr % bytes_in m.now.width ≡ 0 }
    ensures value { result ≡ old_of (byte_in content.now) m.now }
    ensures bound { result < 256 ^ bytes_in m.now.width }
{
    let word = content[m.addr.index() / 4 % BLOCK_WORDS];
    finish_load(m.width, false, word, m.addr)
}

/// The low bytes of a number, as many as a width has.
#[inline(always)]
fn cut_to(width: Width, value: u32) -> u32
    ensures { result ≡ cut width value }
{
    match width {
        Width::Byte => value % 0x100,
        Width::Half => value % 0x1_0000,
        Width::Word => value,
    }
}

/// The number that an access stores, if it does.
#[inline(always)]
pub(crate) fn put_by(content: &Block, m: &MemoryAct) -> Option<u32>
    requires { m.now.addr % bytes_in m.now.width ≡ 0 }
    ensures { result ≡ put_by (byte_in content.now) m.now }
{
    match &m.store {
        Some(store) => Some(cut_to(m.width, finish_store(*store, number(content, m)))),
        None => None,
    }
}

/// The register that an access writes: that of its load, or without one what the effect says.
#[inline(always)]
pub(crate) fn written_by(content: &Block, effect: &Effect, m: &MemoryAct) -> Option<(Reg, u32)>
    requires { m.now.addr % bytes_in m.now.width ≡ 0 }
    ensures { result ≡ write_by (byte_in content.now) effect.now (Memory m.now) }
{
    match &m.load {
        Some(load) => write_to(
            load.rd,
            extend_load(load.signed, m.width, number(content, m)),
        ),
        None => effect.write,
    }
}

/// The load that an entry shows.
#[inline(always)]
pub(crate) fn load_by(content: &Block, m: &MemoryAct) -> Option<Access>
    requires { m.now.addr % bytes_in m.now.width ≡ 0 }
    ensures { result ≡ load_by (byte_in content.now) (Memory m.now) }
{
    match &m.load {
        Some(_) => Some(Access {
            addr: m.addr,
            width: m.width,
            value: number(content, m),
        }),
        None => None,
    }
}

/// The store that an entry shows.
#[inline(always)]
pub(crate) fn store_by(content: &Block, m: &MemoryAct) -> Option<Access>
    requires { m.now.addr % bytes_in m.now.width ≡ 0 }
    ensures { result ≡ store_by (byte_in content.now) (Memory m.now) }
{
    match put_by(content, m) {
        Some(value) => Some(Access {
            addr: m.addr,
            width: m.width,
            value,
        }),
        None => None,
    }
}

/// The memory word at an access's place, after it has stored a number.
#[inline(always)]
pub(crate) fn word_put(content: &Block, m: &MemoryAct, value: u32) -> u32
    requires { m.now.addr % bytes_in m.now.width ≡ 0 }
    ensures { words_put m.now (Some value) content.now ≡ slice_set content.now (m.now.addr / 4 % block_words) result }
{
    let word = content[m.addr.index() / 4 % BLOCK_WORDS];
    with_bytes(word, m.addr.index() % 4, m.width, value)
}

/// Whether an access marks its line as read: it loads, in a transaction.
#[inline(always)]
pub(crate) fn marks_read(m: &MemoryAct, in_transaction: bool) -> bool
    ensures { result ≡ in_transaction && is_some m.now.load }
{
    in_transaction && m.load.is_some()
}
