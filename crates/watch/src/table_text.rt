ghost use Rattle.std.specs.Prelude.{◌≡◌, ◌≤◌};
ghost use Rattle.std.specs.List.{flat_map, range_with_len};
ghost use Rattle.texts.specs.Puts.{Puts};
ghost use Rattle.words.specs.Limits.{most_harts};
ghost use Rattle.watch.specs.Kinds.{count_at};
ghost use Rattle.watch.specs.CountTexts.{rows, count_cell, head, cell, row_name, row_text, table};

use crate::cells::Counts;
use crate::kinds::Kind;
use crate::names::{kind_name, kinds, padding};
use itoa::Buffer;
use texts::put_all;
use words::{HartId, Sink, SinkFault};

/// Puts a table of the counts of so many harts: a column for each hart, under its number, and a row for each kind.
pub fn put_table<S: Sink>(counts: &Counts, harts: usize, sink: &mut S) -> Result<(), SinkFault>
    requires { harts ≤ most_harts }
    ensures { Puts (S.state sink.old) (S.state sink.new) (table (count_at counts.now) harts) result }
{
    put_rows(&rows(), counts, harts, sink)
}

/// The heads of the columns, and then the kinds.
fn rows() -> [Option<Kind>; 17]
    ensures { result ≡ rows }
{
    let [a, b, c, d, e, f, g, h, i, j, k, l, m, n, o, p] = kinds();
    [
        None,
        Some(a),
        Some(b),
        Some(c),
        Some(d),
        Some(e),
        Some(f),
        Some(g),
        Some(h),
        Some(i),
        Some(j),
        Some(k),
        Some(l),
        Some(m),
        Some(n),
        Some(o),
        Some(p),
    ]
}

fn put_rows<S: Sink>(
    rows: &[Option<Kind>],
    counts: &Counts,
    harts: usize,
    sink: &mut S,
) -> Result<(), SinkFault>
    requires { harts ≤ most_harts }
    ensures { Puts (S.state sink.old) (S.state sink.new) (flat_map (row_text (count_at counts.now) harts) rows.now) result }
{
    for row in rows {
        put_row(*row, counts, harts, sink)?;
    }
    Ok(())
}

fn put_row<S: Sink>(
    row: Option<Kind>,
    counts: &Counts,
    harts: usize,
    sink: &mut S,
) -> Result<(), SinkFault>
    requires { harts ≤ most_harts }
    ensures { Puts (S.state sink.old) (S.state sink.new) (row_text (count_at counts.now) harts row) result }
{
    put_name(row, sink)?;
    put_cells(row, counts, harts, sink)?;
    put_all(sink, &[b"\n"])
}

fn put_name<S: Sink>(row: Option<Kind>, sink: &mut S) -> Result<(), SinkFault>
    ensures { Puts (S.state sink.old) (S.state sink.new) (row_name row) result }
{
    let name = match row {
        Some(kind) => kind_name(kind).as_bytes(),
        None => b"",
    };
    put_all(sink, &[name, padding(17, name.len())])
}

fn put_cells<S: Sink>(
    row: Option<Kind>,
    counts: &Counts,
    harts: usize,
    sink: &mut S,
) -> Result<(), SinkFault>
    requires { harts ≤ most_harts }
    ensures { Puts (S.state sink.old) (S.state sink.new)
        (flat_map (cell (count_at counts.now) row) (range_with_len 0 harts)) result }
{
    for number in 0..harts {
        put_cell(row, counts, HartId::new(number as u8), sink)?;
    }
    Ok(())
}

fn put_cell<S: Sink>(
    row: Option<Kind>,
    counts: &Counts,
    hart: HartId,
    sink: &mut S,
) -> Result<(), SinkFault>
    ensures { Puts (S.state sink.old) (S.state sink.new) (cell (count_at counts.now) row hart) result }
{
    match row {
        Some(kind) => put_count(counts.count(hart, kind), sink),
        None => put_head(hart, sink),
    }
}

pub(crate) fn put_count<S: Sink>(count: u64, sink: &mut S) -> Result<(), SinkFault>
    ensures { Puts (S.state sink.old) (S.state sink.new) (count_cell count) result }
{
    let mut buffer = Buffer::new();
    let digits = buffer.format(count).as_bytes();
    put_all(sink, &[padding(11, digits.len()), digits])
}

fn put_head<S: Sink>(hart: HartId, sink: &mut S) -> Result<(), SinkFault>
    ensures { Puts (S.state sink.old) (S.state sink.new) (head hart) result }
{
    let mut buffer = Buffer::new();
    put_all(
        sink,
        &[b"     hart ", buffer.format(hart.index()).as_bytes()],
    )
}
