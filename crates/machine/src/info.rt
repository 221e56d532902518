ghost use Rattle.std.specs.Prelude.{◌≡◌};
ghost use Rattle.std.specs.Option.{option_map};
ghost use Rattle.hart.specs.Parts.{IsKept};
ghost use Rattle.hart.specs.Shown.{shown_tx};
ghost use Rattle.machine.specs.Reads.{info_of};

use transaction::Tx;
use words::{AbortCause, Stamp};

/// A transaction that runs or is being aborted.
#[derive(Clone, Copy, Debug, PartialEq, Eq)]
pub struct TxInfo {
    /// How many transactions are nested, 1 to 255.
    pub depth: u8,
    /// How many records its undo log has, 113 at most.
    pub records: usize,
    pub stamp: Stamp,
    /// Whether it has given up a marked line.
    pub overflow: bool,
    /// Whether it has refused an earlier transaction.
    pub cycle: bool,
    /// Why it is being aborted, if it is.
    pub aborting: Option<AbortCause>,
}

/// The transaction that runs, if one does.
pub(crate) fn info(tx: &Tx) -> Option<TxInfo>
    ensures { result ≡ option_map info_of (shown_tx tx.now) }
{
    let stamp = tx.stamp()?;
    Some(TxInfo {
        depth: tx.depth(),
        records: tx.log().len(),
        stamp,
        overflow: tx.overflow(),
        cycle: tx.cycle(),
        aborting: tx.aborting(),
    })
}
