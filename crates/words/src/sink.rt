ghost use Rattle.std.specs.Prelude.{◌≡◌, ◌+◌, ◌≤◌, ◌++◌, ℕ, List, Option, Some, None, min, length, take, OnOk, OnErr, codes};
ghost use Rattle.std.specs.Option.{option_map};
ghost use Rattle.std.specs.Io.KnownBytes.{Appends};
ghost use Rattle.words.specs.Sinks.{SinkState, TookBeginning};

use std::fmt;
use std::io::Write;
use thiserror::Error;

/// A put failed.
#[derive(Clone, Copy, Debug, PartialEq, Eq, Error)]
pub struct SinkFault;

impl fmt::Display for SinkFault {
    ghost output = { λ x. Some (codes "7 Device") };

    fn fmt<W: fmt::Write>(&self, f: &mut fmt::Formatter<W>) -> fmt::Result {
        f.write_str("7 Device")
    }
}

/// What bytes are put into.
pub trait Sink {
    /// What it has taken, and how often it failed.
    ghost state: { Self → SinkState };

    /// Takes all the bytes, or a beginning of them.
    fn put(&mut self, bytes: &[u8]) -> Result<(), SinkFault>
        ensures clean { OnOk result ((state self.new).failed ≡ (state self.old).failed) }
        ensures fault { OnErr result ((state self.new).failed ≡ min ((state self.old).failed + 1) 18446744073709551615) }
        ensures all { OnOk result ((state self.new).taken ≡ option_map (λ before. before ++ bytes.now) (state self.old).taken) }
        ensures part { OnErr result (TookBeginning (state self.old).taken (state self.new).taken bytes.now) };
}

/// A sink in memory, which tells its bytes.
#[derive(Drop)]
pub struct Taken {
    pub bytes: Vec<u8>,
    pub failed: u64,
}

impl Sink for Taken {
    ghost state = { λ t. record { taken = Some t.bytes.items; failed = t.failed } };

    fn put(&mut self, bytes: &[u8]) -> Result<(), SinkFault> {
        match self.bytes.extend_from_slice(bytes) {
            Ok(()) => Ok(()),
            Err(_) => {
                self.failed = self.failed.saturating_add(1);
                Err(SinkFault)
            }
        }
    }
}

/// A sink over a writer, as a file or standard output. As a sink it tells only how many puts failed, since a write that fails says nothing of
/// what was written before.
pub struct Counted<W> {
    pub writer: W,
    pub failed: u64,
}

impl<W: Write> Sink for Counted<W> {
    ghost state = { λ c. record { taken = None; failed = c.failed } };

    fn put(&mut self, bytes: &[u8]) -> Result<(), SinkFault>
        ensures clean { OnOk result (self.new.failed ≡ self.old.failed) }
        ensures fault { OnErr result (self.new.failed ≡ min (self.old.failed + 1) 18446744073709551615) }
        // What the writer tells of its bytes.
        ensures written { OnOk result (Appends (W.contents self.old.writer) (W.contents self.new.writer) bytes.now) }
    {
        match self.writer.write_all(bytes) {
            Ok(()) => Ok(()),
            Err(_) => {
                self.failed = self.failed.saturating_add(1);
                Err(SinkFault)
            }
        }
    }
}
