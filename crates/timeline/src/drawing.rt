ghost use Rattle.std.specs.Prelude.{◌≡◌};
ghost use Rattle.std.specs.List.{flat_map, range_with_len};
ghost use Rattle.texts.specs.Puts.{Puts};
ghost use Rattle.timeline.specs.Drawings as spec;
ghost use Rattle.timeline.specs.Shapes.{step_of};

use crate::edge::Edge;
use crate::row::{Row, end, sender};
use crate::shapes::{put_arrow, put_bar, put_lifeline, put_step, x_of, y_at};
use itoa::Buffer;
use texts::put_all;
use words::{Sink, SinkFault};

/// The class of the bar of a transaction that ended so.
fn outcome(edge: Edge) -> &'static str
    ensures { result.now ≡ spec.outcome edge }
{
    match edge {
        Edge::Committed => "committed",
        Edge::Aborted => "aborted",
        Edge::Neither | Edge::Begun => "running",
    }
}

/// Puts the bar of the transaction that a row begins, down to its end or to the bottom of so many rows.
fn put_bar_to<S: Sink>(
    sink: &mut S,
    harts: usize,
    rows: usize,
    begin: &Row,
    end: &Option<Row>,
) -> Result<(), SinkFault>
    ensures { Puts (S.state sink.old) (S.state sink.new) (spec.bar_to harts rows begin.now end.now) result }
{
    let x = x_of(harts, begin);
    let from = y_at(begin.number);
    match end {
        Some(end) => put_bar(sink, outcome(end.edge), x, from, y_at(end.number)),
        None => put_bar(sink, "running", x, from, y_at(rows)),
    }
}

/// Puts the bar of the transaction that a row begins, if it does.
fn put_bar_if<S: Sink>(sink: &mut S, harts: usize, rows: &[Row], row: &Row) -> Result<(), SinkFault>
    ensures { Puts (S.state sink.old) (S.state sink.new) (spec.bar_of harts rows.now row.now) result }
{
    match row.edge {
        Edge::Begun => put_bar_to(sink, harts, rows.len(), row, &end(rows, row)),
        _ => Ok(()),
    }
}

/// Puts the bars of all transactions.
fn put_bars<S: Sink>(sink: &mut S, harts: usize, rows: &[Row]) -> Result<(), SinkFault>
    ensures { Puts (S.state sink.old) (S.state sink.new) (flat_map (spec.bar_of harts rows.now) rows.now) result }
{
    for row in rows {
        put_bar_if(sink, harts, rows, row)?;
    }
    Ok(())
}

/// Puts the arrow of the message that arrives in a row, if one does that a row sent.
fn put_arrow_if<S: Sink>(
    sink: &mut S,
    harts: usize,
    rows: &[Row],
    row: &Row,
) -> Result<(), SinkFault>
    ensures { Puts (S.state sink.old) (S.state sink.new) (spec.arrow_of harts rows.now row.now) result }
{
    match &row.arrival {
        Some(flight) => put_arrow_from(sink, harts, &sender(rows, flight.number), row),
        None => Ok(()),
    }
}

/// Puts the arrow from a row, if there is one, to another.
fn put_arrow_from<S: Sink>(
    sink: &mut S,
    harts: usize,
    from: &Option<Row>,
    to: &Row,
) -> Result<(), SinkFault>
    ensures { Puts (S.state sink.old) (S.state sink.new) (spec.arrow_from harts from.now to.now) result }
{
    match from {
        Some(from) => put_arrow(sink, harts, from, to),
        None => Ok(()),
    }
}

/// Puts the arrows of all messages that arrived.
fn put_arrows<S: Sink>(sink: &mut S, harts: usize, rows: &[Row]) -> Result<(), SinkFault>
    ensures { Puts (S.state sink.old) (S.state sink.new) (flat_map (spec.arrow_of harts rows.now) rows.now) result }
{
    for row in rows {
        put_arrow_if(sink, harts, rows, row)?;
    }
    Ok(())
}

/// Puts the marks and texts of all steps.
fn put_steps<S: Sink>(sink: &mut S, harts: usize, rows: &[Row]) -> Result<(), SinkFault>
    ensures { Puts (S.state sink.old) (S.state sink.new) (flat_map (step_of harts) rows.now) result }
{
    for row in rows {
        put_step(sink, harts, row)?;
    }
    Ok(())
}

/// Puts a hart's lane.
fn put_hart<S: Sink>(sink: &mut S, rows: usize, hart: usize) -> Result<(), SinkFault>
    ensures { Puts (S.state sink.old) (S.state sink.new) (spec.hart_lane rows hart) result }
{
    let mut number = Buffer::new();
    put_lifeline(sink, rows, hart)?;
    put_all(
        sink,
        &[b"hart ", number.format(hart).as_bytes(), b"</text></g>\n"],
    )
}

fn put_harts<S: Sink>(sink: &mut S, harts: usize, rows: usize) -> Result<(), SinkFault>
    ensures { Puts (S.state sink.old) (S.state sink.new) (flat_map (spec.hart_lane rows) (range_with_len 0 harts)) result }
{
    for hart in 0..harts {
        put_hart(sink, rows, hart)?;
    }
    Ok(())
}

/// Puts the lanes of so many harts, and the directory's behind them.
fn put_lanes<S: Sink>(sink: &mut S, harts: usize, rows: usize) -> Result<(), SinkFault>
    ensures { Puts (S.state sink.old) (S.state sink.new) (spec.lanes harts rows) result }
{
    put_harts(sink, harts, rows)?;
    put_last(sink, harts, rows)
}

/// Puts the directory's lane.
fn put_last<S: Sink>(sink: &mut S, harts: usize, rows: usize) -> Result<(), SinkFault>
    ensures { Puts (S.state sink.old) (S.state sink.new) (spec.last_lane harts rows) result }
{
    put_lifeline(sink, rows, harts)?;
    put_all(sink, &[b"directory</text></g>\n"])
}

/// Puts the size of a picture.
fn put_size<S: Sink>(sink: &mut S, harts: usize, rows: usize) -> Result<(), SinkFault>
    ensures { Puts (S.state sink.old) (S.state sink.new) (spec.size harts rows) result }
{
    let mut width = Buffer::new();
    let mut height = Buffer::new();
    put_all(
        sink,
        &[
            b"<svg xmlns=\"http://www.w3.org/2000/svg\" version=\"1.1\" width=\"",
            width.format(440 * harts as u128 + 540).as_bytes(),
            b"\" height=\"",
            height.format(20 * rows as u128 + 90).as_bytes(),
            b"\">\n",
        ],
    )
}

/// Puts how each class looks, the head of an arrow, and the ground.
fn put_style<S: Sink>(sink: &mut S) -> Result<(), SinkFault>
    ensures { Puts (S.state sink.old) (S.state sink.new) (spec.style) result }
{
    put_all(
        sink,
        &[
            b"<style>text{font:11px monospace;paint-order:stroke;stroke:#fff;stroke-width:8px;stroke-linejoin:round}circle{stroke:#fff;stroke-width:1px}path{fill:none}",
            b".life{stroke:#bbb}.name{text-anchor:middle;stroke:none}rect.name{fill:#eee;stroke:#999}.number{fill:#888;text-anchor:end}",
            b".arrow{stroke:#69c;marker-end:url(#head)}.committed,.aborted,.running{stroke-width:8px;stroke-linecap:round}",
            b".committed{stroke:#8c8}.aborted{stroke:#e99}.running{stroke:#ccc}",
            b".abort{fill:#c00}.trap{fill:#800}.refuse{fill:#d60}.spill{fill:#83a}.evict{fill:#888}.core{fill:#666}.arrival{fill:#258}</style>\n",
            b"<defs><marker id=\"head\" viewBox=\"0 0 8 8\" refX=\"11\" refY=\"4\" markerWidth=\"8\" markerHeight=\"8\" orient=\"auto\"><path d=\"M0,0L8,4L0,8Z\" style=\"fill:#69c\"/></marker>",
            b"<pattern id=\"rows\" width=\"40\" height=\"40\" patternUnits=\"userSpaceOnUse\"><rect width=\"40\" height=\"20\" fill=\"#f7f7f7\"/></pattern></defs>\n",
            b"<rect width=\"100%\" height=\"100%\" fill=\"#fff\"/><rect y=\"60\" width=\"100%\" height=\"100%\" fill=\"url(#rows)\"/>\n",
        ],
    )
}

/// Puts the picture of rows, beside so many harts.
pub(crate) fn put_drawing<S: Sink>(
    sink: &mut S,
    harts: usize,
    rows: &[Row],
) -> Result<(), SinkFault>
    ensures { Puts (S.state sink.old) (S.state sink.new) (spec.drawn harts rows.now) result }
{
    put_size(sink, harts, rows.len())?;
    put_style(sink)?;
    put_lanes(sink, harts, rows.len())?;
    put_bars(sink, harts, rows)?;
    put_arrows(sink, harts, rows)?;
    put_steps(sink, harts, rows)?;
    put_all(sink, &[b"</svg>\n"])
}
