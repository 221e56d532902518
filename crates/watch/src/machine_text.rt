ghost use Rattle.std.specs.Prelude.{◌≡◌};
ghost use Rattle.std.specs.List.{flat_map};
ghost use Rattle.texts.specs.Puts.{Puts};
ghost use Rattle.watch.specs.Traffic.{figure_at};
ghost use Rattle.watch.specs.MachineTexts.{figures, figure_label, figure_name, figure_row, figure_line, machine_table, machine_lines};

use crate::figures::{Figure, Sum};
use crate::names::padding;
use crate::table_text::put_count;
use crate::traffic::Traffic;
use itoa::Buffer;
use schedule::Sort;
use texts::put_all;
use words::{Sink, SinkFault};

/// The figures, in the order in which they are shown.
fn figures() -> [Figure; 13]
    ensures { result ≡ figures }
{
    [
        Figure::Sum(Sum::Cores),
        Figure::Sum(Sum::Evictions),
        Figure::Sum(Sum::Deliveries),
        Figure::Sum(Sum::Sent(Sort::Get)),
        Figure::Sum(Sum::Sent(Sort::Put)),
        Figure::Sum(Sum::Sent(Sort::Done)),
        Figure::Sum(Sum::Sent(Sort::Grant)),
        Figure::Sum(Sum::Sent(Sort::Forward)),
        Figure::Sum(Sum::Sent(Sort::PutAck)),
        Figure::Sum(Sum::Sent(Sort::Ack)),
        Figure::Sum(Sum::Sent(Sort::Nack)),
        Figure::MostInFlight,
        Figure::MostInUse,
    ]
}

/// What a figure is called.
fn figure_name(figure: Figure) -> &'static str
    ensures { result.now ≡ figure_name figure }
{
    match figure {
        Figure::Sum(Sum::Cores) => "core-steps",
        Figure::Sum(Sum::Evictions) => "evict-steps",
        Figure::Sum(Sum::Deliveries) => "deliver-steps",
        Figure::Sum(Sum::Sent(sort)) => sort.name(),
        Figure::MostInFlight => "most-in-flight",
        Figure::MostInUse => "most-entries",
    }
}

/// Puts a table of what is told of the machine: a row for each figure, under a row with the head of their column.
pub fn put_machine_table<S: Sink>(traffic: &Traffic, sink: &mut S) -> Result<(), SinkFault>
    ensures { Puts (S.state sink.old) (S.state sink.new) (machine_table (figure_at traffic.now)) result }
{
    put_all(sink, &[b"                     machine\n"])?;
    put_rows(&figures(), traffic, sink)
}

fn put_rows<S: Sink>(figures: &[Figure], traffic: &Traffic, sink: &mut S) -> Result<(), SinkFault>
    ensures { Puts (S.state sink.old) (S.state sink.new) (flat_map (figure_row (figure_at traffic.now)) figures.now) result }
{
    for figure in figures {
        put_row(*figure, traffic, sink)?;
    }
    Ok(())
}

fn put_row<S: Sink>(figure: Figure, traffic: &Traffic, sink: &mut S) -> Result<(), SinkFault>
    ensures { Puts (S.state sink.old) (S.state sink.new) (figure_row (figure_at traffic.now) figure) result }
{
    put_label(figure, sink)?;
    put_count(traffic.figure(figure), sink)?;
    put_all(sink, &[b"\n"])
}

fn put_label<S: Sink>(figure: Figure, sink: &mut S) -> Result<(), SinkFault>
    ensures { Puts (S.state sink.old) (S.state sink.new) (figure_label figure) result }
{
    let name = figure_name(figure).as_bytes();
    put_all(sink, &[name, padding(17, name.len())])
}

/// Puts what is told of the machine as lines for scripts, a line for each figure.
pub fn put_machine_csv<S: Sink>(traffic: &Traffic, sink: &mut S) -> Result<(), SinkFault>
    ensures { Puts (S.state sink.old) (S.state sink.new) (machine_lines (figure_at traffic.now)) result }
{
    put_lines(&figures(), traffic, sink)
}

fn put_lines<S: Sink>(figures: &[Figure], traffic: &Traffic, sink: &mut S) -> Result<(), SinkFault>
    ensures { Puts (S.state sink.old) (S.state sink.new) (flat_map (figure_line (figure_at traffic.now)) figures.now) result }
{
    for figure in figures {
        put_line(*figure, traffic, sink)?;
    }
    Ok(())
}

fn put_line<S: Sink>(figure: Figure, traffic: &Traffic, sink: &mut S) -> Result<(), SinkFault>
    ensures { Puts (S.state sink.old) (S.state sink.new) (figure_line (figure_at traffic.now) figure) result }
{
    let mut buffer = Buffer::new();
    put_all(
        sink,
        &[
            b"machine,",
            figure_name(figure).as_bytes(),
            b",",
            buffer.format(traffic.figure(figure)).as_bytes(),
            b"\n",
        ],
    )
}
