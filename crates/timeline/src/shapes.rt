ghost use Rattle.std.specs.Prelude.{◌≡◌};
ghost use Rattle.texts.specs.Puts.{Puts};
ghost use Rattle.timeline.specs.Shapes as spec;

use crate::label::put_label;
use crate::row::Row;
use itoa::Buffer;
use texts::put_all;
use words::{Entry, Sink, SinkFault, Step};

/// Where a column stands, in pixels.
fn x_at(column: usize) -> u128
    ensures { result ≡ spec.x_at column }
{
    440 * column as u128 + 100
}

/// Where a row stands, in pixels.
pub(crate) fn y_at(number: usize) -> u128
    ensures { result ≡ spec.y_at number }
{
    20 * number as u128 + 70
}

/// Where a row's lane stands, beside so many harts.
pub(crate) fn x_of(harts: usize, row: &Row) -> u128
    ensures { result ≡ spec.x_of harts row.now }
{
    x_at(row.lane().min(harts))
}

/// Puts a lane, up to its name.
pub(crate) fn put_lifeline<S: Sink>(
    sink: &mut S,
    rows: usize,
    column: usize,
) -> Result<(), SinkFault>
    ensures { Puts (S.state sink.old) (S.state sink.new) (spec.lifeline rows column) result }
{
    let mut x = Buffer::new();
    let mut bottom = Buffer::new();
    put_all(
        sink,
        &[
            b"<g transform=\"translate(",
            x.format(x_at(column)).as_bytes(),
            b",0)\"><path class=\"life\" d=\"M0,40V",
            bottom.format(y_at(rows)).as_bytes(),
            b"\"/><rect class=\"name\" x=\"-45\" y=\"16\" width=\"90\" height=\"24\" rx=\"4\"/><text class=\"name\" y=\"32\">",
        ],
    )
}

/// Puts a bar of a class, in a column, from one height down to another.
pub(crate) fn put_bar<S: Sink>(
    sink: &mut S,
    class: &'static str,
    x: u128,
    from: u128,
    to: u128,
) -> Result<(), SinkFault>
    ensures { Puts (S.state sink.old) (S.state sink.new) (spec.bar class.now x from to) result }
{
    let mut across = Buffer::new();
    let mut top = Buffer::new();
    let mut bottom = Buffer::new();
    put_all(
        sink,
        &[
            b"<path class=\"",
            class.as_bytes(),
            b"\" d=\"M",
            across.format(x).as_bytes(),
            b",",
            top.format(from).as_bytes(),
            b"V",
            bottom.format(to).as_bytes(),
            b"\"/>\n",
        ],
    )
}

/// Puts an arrow from one row to another.
pub(crate) fn put_arrow<S: Sink>(
    sink: &mut S,
    harts: usize,
    from: &Row,
    to: &Row,
) -> Result<(), SinkFault>
    ensures { Puts (S.state sink.old) (S.state sink.new) (spec.arrow harts from.now to.now) result }
{
    let mut x = Buffer::new();
    let mut y = Buffer::new();
    let mut to_x = Buffer::new();
    let mut to_y = Buffer::new();
    put_all(
        sink,
        &[
            b"<path class=\"arrow\" d=\"M",
            x.format(x_of(harts, from)).as_bytes(),
            b",",
            y.format(y_at(from.number)).as_bytes(),
            b"L",
            to_x.format(x_of(harts, to)).as_bytes(),
            b",",
            to_y.format(y_at(to.number)).as_bytes(),
            b"\"/>\n",
        ],
    )
}

/// What a step is drawn as.
fn class_of(step: &Step, entry: &Option<Entry>) -> &'static str
    ensures { result.now ≡ spec.class_of step.now entry.now }
{
    match (step, entry) {
        (_, Some(Entry::Retire { .. })) => "retire",
        (_, Some(Entry::Abort { .. })) => "abort",
        (_, Some(Entry::Trap { .. })) => "trap",
        (_, Some(Entry::Refuse { .. })) => "refuse",
        (_, Some(Entry::Spill { .. })) => "spill",
        (Step::Core(_), None) => "core",
        (Step::Evict(..), None) => "evict",
        (Step::Deliver(_), None) => "arrival",
    }
}

/// Puts a row's number.
fn put_number<S: Sink>(sink: &mut S, row: &Row) -> Result<(), SinkFault>
    ensures { Puts (S.state sink.old) (S.state sink.new) (spec.number_mark row.now) result }
{
    let mut y = Buffer::new();
    let mut number = Buffer::new();
    put_all(
        sink,
        &[
            b"<text class=\"number\" x=\"46\" y=\"",
            y.format(y_at(row.number)).as_bytes(),
            b"\" dy=\"4\">",
            number.format(row.number).as_bytes(),
            b"</text>",
        ],
    )
}

/// Puts the mark of a row's step, up to its text.
fn put_mark<S: Sink>(sink: &mut S, harts: usize, row: &Row) -> Result<(), SinkFault>
    ensures { Puts (S.state sink.old) (S.state sink.new) (spec.mark harts row.now) result }
{
    let mut x = Buffer::new();
    let mut y = Buffer::new();
    put_all(
        sink,
        &[
            b"<g class=\"",
            class_of(&row.step, &row.entry).as_bytes(),
            b"\" transform=\"translate(",
            x.format(x_of(harts, row)).as_bytes(),
            b",",
            y.format(y_at(row.number)).as_bytes(),
            b")\"><circle r=\"3\"/><text x=\"14\" y=\"4\">",
        ],
    )
}

/// Puts a row's number, its mark and the text of its step.
pub(crate) fn put_step<S: Sink>(sink: &mut S, harts: usize, row: &Row) -> Result<(), SinkFault>
    ensures { Puts (S.state sink.old) (S.state sink.new) (spec.step_of harts row.now) result }
{
    put_number(sink, row)?;
    put_mark(sink, harts, row)?;
    put_label(sink, &row.step, &row.arrival, &row.entry)?;
    put_all(sink, &[b"</text></g>\n"])
}
