ghost use Rattle.std.specs.Prelude.{◌≡◌};
ghost use Rattle.machine.specs.States.{shown};
ghost use Rattle.table.specs.Table.{decoded};
ghost use Rattle.timeline.specs.Marks.{depth_of, edge_of, edge_of_instr};

use machine::Machine;
use table::{Instr, decode};
use words::{Entry, HartId};

/// What becomes of a hart's transaction, the outermost one.
#[derive(Clone, Copy, Debug, PartialEq, Eq)]
pub(crate) enum Edge {
    /// It stays as it is: one runs, or none.
    Neither,
    Begun,
    Committed,
    Aborted,
}

/// How many transactions of a hart are nested, none outside of them.
fn depth<const SETS: usize, const WAYS: usize>(machine: &Machine<SETS, WAYS>, hart: HartId) -> u8
    ensures { result ≡ depth_of ((shown SETS machine.now).harts hart).tx }
{
    match machine.tx(hart) {
        Some(tx) => tx.depth,
        None => 0,
    }
}

/// What retiring a word did to a transaction, behind which so many are nested.
fn edge_of_word(word: u32, depth: u8) -> Edge
    ensures { result ≡ edge_of_instr (decoded word) depth }
{
    match decode(word) {
        Some(Instr::TBegin { .. }) if depth == 1 => Edge::Begun,
        Some(Instr::TCommit) if depth == 0 => Edge::Committed,
        _ => Edge::Neither,
    }
}

/// What an entry did to the transaction of its hart, on the machine behind it.
pub(crate) fn edge_at<const SETS: usize, const WAYS: usize>(
    entry: &Option<Entry>,
    machine: &Machine<SETS, WAYS>,
) -> Edge
    ensures { result ≡ edge_of entry.now (shown SETS machine.now) }
{
    match entry {
        Some(Entry::Retire { hart, word, .. }) => edge_of_word(*word, depth(machine, *hart)),
        Some(Entry::Abort { .. }) => Edge::Aborted,
        _ => Edge::Neither,
    }
}
