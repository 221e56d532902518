//! Names of the program's. A page has them in strings of its script, so they are spelled such that no byte of a file can end one, or become markup.
ghost use Rattle.std.specs.Prelude.{◌≡◌};
ghost use Rattle.texts.specs.Puts.{Puts};
ghost use Rattle.pages.specs.Names as spec;

use texts::{hexadecimal, put_all};
use words::{Sink, SinkFault};

/// Puts what stands behind an address, if anything does.
pub(crate) fn put_name<S: Sink>(sink: &mut S, label: &[u8]) -> Result<(), SinkFault>
    ensures { Puts (S.state sink.old) (S.state sink.new) (spec.name_text label.now) result }
{
    match label {
        [] => Ok(()),
        _ => put_string(sink, label),
    }
}

fn put_string<S: Sink>(sink: &mut S, name: &[u8]) -> Result<(), SinkFault>
    ensures { Puts (S.state sink.old) (S.state sink.new) (spec.string_text name.now) result }
{
    put_all(sink, &[b"name:\""])?;
    put_quoted(sink, name)?;
    put_all(sink, &[b"\","])
}

fn put_quoted<S: Sink>(sink: &mut S, name: &[u8]) -> Result<(), SinkFault>
    ensures { Puts (S.state sink.old) (S.state sink.new) (spec.quoted name.now) result }
{
    for byte in name {
        put_byte(sink, *byte)?;
    }
    Ok(())
}

/// Puts a byte, or its number where it is no plain one.
fn put_byte<S: Sink>(sink: &mut S, byte: u8) -> Result<(), SinkFault>
    ensures { Puts (S.state sink.old) (S.state sink.new) (spec.byte_text byte) result }
{
    if is_plain(byte) {
        put_all(sink, &[&[byte]])
    } else {
        put_all(sink, &[b"\\x", &hexadecimal(byte as u32)[6..]])
    }
}

fn is_plain(byte: u8) -> bool
    ensures { result ≡ spec.is_plain byte }
{
    matches!(byte, b'a'..=b'z' | b'A'..=b'Z' | b'0'..=b'9' | b' ' | b'+' | b'.' | b'_')
}
