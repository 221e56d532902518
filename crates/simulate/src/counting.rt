//! The counts of a run as text.
ghost use Rattle.std.specs.Prelude.{◌≤◌};
ghost use Rattle.words.specs.Limits.{most_harts};
ghost use Rattle.texts.specs.Puts.{Puts};
ghost use Rattle.watch.specs.Kinds.{count_at};
ghost use Rattle.watch.specs.Traffic.{figure_at};
ghost use Rattle.command_line.specs.declared.request.Stats.TheVariants.{Table, Csv};
ghost use Rattle.simulate.specs.Counted.{counts_part, counts_text};

use command_line::{Show, Stats};
use watch::{Tally, put_csv, put_machine_csv, put_machine_table, put_table};
use words::{Sink, SinkFault};

/// Puts the counts of a run, where they are shown.
pub(crate) fn put_counts<S: Sink>(
    show: Show<'_>,
    tally: &Tally,
    harts: usize,
    sink: &mut S,
) -> Result<(), SinkFault>
    requires { harts ≤ most_harts }
    ensures { Puts (S.state sink.old) (S.state sink.new) (counts_part show.entry tally.now harts) result }
{
    match show {
        Show::Counts(form) => put_form(form, tally, harts, sink),
        Show::Report | Show::Trace | Show::View(..) => Ok(()),
    }
}

/// Puts the counts in a form.
fn put_form<S: Sink>(
    form: Stats,
    tally: &Tally,
    harts: usize,
    sink: &mut S,
) -> Result<(), SinkFault>
    requires { harts ≤ most_harts }
    ensures { Puts (S.state sink.old) (S.state sink.new) (counts_text form (count_at tally.now.harts) harts (figure_at tally.now.machine)) result }
{
    match form {
        Stats::Table => put_tables(tally, harts, sink),
        Stats::Csv => put_lines(tally, harts, sink),
    }
}

/// Puts the table of the harts, and behind it that of the machine.
fn put_tables<S: Sink>(tally: &Tally, harts: usize, sink: &mut S) -> Result<(), SinkFault>
    requires { harts ≤ most_harts }
    ensures { Puts (S.state sink.old) (S.state sink.new) (counts_text Table (count_at tally.now.harts) harts (figure_at tally.now.machine)) result }
{
    put_table(&tally.harts, harts, sink)?;
    put_machine_table(&tally.machine, sink)
}

/// Puts the counts as lines for scripts.
fn put_lines<S: Sink>(tally: &Tally, harts: usize, sink: &mut S) -> Result<(), SinkFault>
    requires { harts ≤ most_harts }
    ensures { Puts (S.state sink.old) (S.state sink.new) (counts_text Csv (count_at tally.now.harts) harts (figure_at tally.now.machine)) result }
{
    put_csv(&tally.harts, harts, sink)?;
    put_machine_csv(&tally.machine, sink)
}
