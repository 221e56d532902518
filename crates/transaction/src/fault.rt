ghost use Rattle.std.specs.Prelude.{Some};

use std::fmt;
use thiserror::Error;

/// Why a hart's transaction could not do what was asked.
#[derive(Clone, Copy, Debug, PartialEq, Eq, Error)]
pub enum TxFault {
    /// A transaction was to begin at the greatest depth.
    TooDeep,
    /// No transaction runs.
    Outside,
}

impl fmt::Display for TxFault {
    ghost use Rattle.transaction.specs.Faults.{fault_text};

    ghost output = { λ fault. Some (fault_text fault) };

    fn fmt<W: fmt::Write>(&self, f: &mut fmt::Formatter<W>) -> fmt::Result {
        f.write_str(match self {
            TxFault::TooDeep => "1 TooDeep",
            TxFault::Outside => "2 Outside",
        })
    }
}
