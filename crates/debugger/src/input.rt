ghost use Rattle.std.specs.Prelude.{◌≡◌, ◌++◌, ◌∷◌, [], take};
ghost use Rattle.std.specs.Io.Iter.{bytes_remaining};
ghost use Rattle.debugger.specs.Lines.{Gives, Counts};

use arrayvec::ArrayVec;
use std::io::{Bytes, Read};

/// How many bytes of a line are kept: two more than a command may have, so that a longer one is seen to be longer, with a carriage return or
/// without.
pub const KEPT: usize = 257;

/// What came of reading a line. Of the line, without its line feed, a beginning is kept.
#[derive(Debug, Drop, PartialEq, Eq)]
pub enum Reading {
    /// A line.
    Line(ArrayVec<u8, KEPT>),
    /// What stands behind the last line feed, before the end of the input.
    Last(ArrayVec<u8, KEPT>),
    /// A read failed.
    Failed,
}

/// What lines are read from.
pub trait LineInput {
    ghost use Rattle.debugger.specs.declared.input.Reading.{Reading};

    /// What a reading may be, and what input is left after it.
    ghost gives: { Self → Reading → Self → Type 0 };

    /// Reads a line.
    fn read_line(&mut self) -> Reading
        ensures { gives self.old result self.new };
}

/// Lines that a reader's bytes are. It counts the readings that failed, so that a failure is told from the end, and never made up.
#[derive(Drop)]
pub struct Typed<R> {
    pub bytes: Bytes<R>,
    pub failed: u64,
}

impl<R: Read + Drop> LineInput for Typed<R> {
    ghost gives = { λ s reading t. Gives (bytes_remaining R.remaining s.bytes) reading (bytes_remaining R.remaining t.bytes) × Counts reading s.failed t.failed };

    fn read_line(&mut self) -> Reading {
        let mut kept = ArrayVec::new();
        for _ in 0..u64::MAX {
            match self.bytes.next() {
                Some(Ok(b'\n')) => return Reading::Line(kept),
                Some(Ok(byte)) => keep(&mut kept, byte),
                Some(Err(_)) => break,
                None => return Reading::Last(kept),
            }
        }
        self.failed = self.failed.saturating_add(1);
        Reading::Failed
    }
}

/// Keeps a byte, if there is room.
fn keep(kept: &mut ArrayVec<u8, KEPT>, byte: u8)
    ensures { kept.new.items ≡ take 257 (kept.old.items ++ byte ∷ []) }
{
    if !kept.is_full() {
        kept.push(byte);
    }
}
