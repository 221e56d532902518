ghost use Rattle.std.specs.Prelude.{◌≡◌};
ghost use Rattle.std.specs.List.{find};
ghost use Rattle.timeline.specs.Rows as spec;

use crate::edge::Edge;
use crate::label::lane;
use network::Flight;
use words::{Entry, Step};

/// What is noted of a step.
#[derive(Clone, Copy, Debug)]
pub(crate) struct Row {
    /// How many steps came before.
    pub(crate) number: usize,
    /// How many messages had been sent before the step, and how many behind it.
    pub(crate) sent: u64,
    pub(crate) sent_behind: u64,
    pub(crate) step: Step,
    pub(crate) arrival: Option<Flight>,
    pub(crate) entry: Option<Entry>,
    pub(crate) edge: Edge,
}

impl Row {
    /// The lane that its step is shown in.
    pub(crate) fn lane(&self) -> usize
        ensures { result ≡ spec.lane_in self.now }
    {
        lane(&self.step, &self.arrival)
    }

    /// Whether its step sent the message with this number.
    fn sends(&self, number: u64) -> bool
        ensures { result ≡ spec.sends number self.now }
    {
        self.sent <= number && number < self.sent_behind
    }

    /// Whether it comes behind another in the same lane, and ends a transaction.
    fn ends(&self, begin: &Row) -> bool
        ensures { result ≡ spec.ends begin.now self.now }
    {
        is_end(self.edge) && self.lane() == begin.lane() && begin.number < self.number
    }
}

fn is_end(edge: Edge) -> bool
    ensures { result ≡ spec.is_end edge }
{
    match edge {
        Edge::Committed | Edge::Aborted => true,
        Edge::Neither | Edge::Begun => false,
    }
}

/// The row that sent the message with this number.
pub(crate) fn sender(rows: &[Row], number: u64) -> Option<Row>
    ensures { result ≡ find (spec.sends number) rows.now }
{
    for row in rows {
        if row.sends(number) {
            return Some(*row);
        }
    }
    None
}

/// The row that ends the transaction which this one begins.
pub(crate) fn end(rows: &[Row], begin: &Row) -> Option<Row>
    ensures { result ≡ find (spec.ends begin.now) rows.now }
{
    for row in rows {
        if row.ends(begin) {
            return Some(*row);
        }
    }
    None
}
