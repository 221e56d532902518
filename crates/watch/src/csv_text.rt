ghost use Rattle.std.specs.Prelude.{◌≤◌};
ghost use Rattle.std.specs.List.{flat_map, range_with_len};
ghost use Rattle.texts.specs.Puts.{Puts};
ghost use Rattle.words.specs.Limits.{most_harts};
ghost use Rattle.watch.specs.Kinds.{count_at};
ghost use Rattle.watch.specs.CountTexts.{csv, csv_line, csv_lines};

use crate::cells::Counts;
use crate::kinds::Kind;
use crate::names::{kind_name, kinds};
use itoa::Buffer;
use texts::put_all;
use words::{HartId, Sink, SinkFault};

/// Puts the counts of so many harts as lines for scripts, a line for each count of each hart, behind one that names the columns.
pub fn put_csv<S: Sink>(counts: &Counts, harts: usize, sink: &mut S) -> Result<(), SinkFault>
    requires { harts ≤ most_harts }
    ensures { Puts (S.state sink.old) (S.state sink.new) (csv (count_at counts.now) harts) result }
{
    put_all(sink, &[b"hart,what,count\n"])?;
    put_harts(counts, harts, sink)
}

fn put_harts<S: Sink>(counts: &Counts, harts: usize, sink: &mut S) -> Result<(), SinkFault>
    requires { harts ≤ most_harts }
    ensures { Puts (S.state sink.old) (S.state sink.new)
        (flat_map (csv_lines (count_at counts.now)) (range_with_len 0 harts)) result }
{
    for number in 0..harts {
        put_hart(counts, HartId::new(number as u8), sink)?;
    }
    Ok(())
}

fn put_hart<S: Sink>(counts: &Counts, hart: HartId, sink: &mut S) -> Result<(), SinkFault>
    ensures { Puts (S.state sink.old) (S.state sink.new) (csv_lines (count_at counts.now) hart) result }
{
    put_kinds(&kinds(), counts, hart, sink)
}

fn put_kinds<S: Sink>(
    kinds: &[Kind],
    counts: &Counts,
    hart: HartId,
    sink: &mut S,
) -> Result<(), SinkFault>
    ensures { Puts (S.state sink.old) (S.state sink.new)
        (flat_map (csv_line (count_at counts.now) hart) kinds.now) result }
{
    for kind in kinds {
        put_line(*kind, counts, hart, sink)?;
    }
    Ok(())
}

fn put_line<S: Sink>(
    kind: Kind,
    counts: &Counts,
    hart: HartId,
    sink: &mut S,
) -> Result<(), SinkFault>
    ensures { Puts (S.state sink.old) (S.state sink.new) (csv_line (count_at counts.now) hart kind) result }
{
    let mut number = Buffer::new();
    let mut digits = Buffer::new();
    put_all(
        sink,
        &[
            number.format(hart.index()).as_bytes(),
            b",",
            kind_name(kind).as_bytes(),
            b",",
            digits.format(counts.count(hart, kind)).as_bytes(),
            b"\n",
        ],
    )
}
