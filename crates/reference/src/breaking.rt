ghost use Rattle.std.specs.Prelude.{◌≡◌, ◌+◌, ◌++◌, [], Some, min, IsErr, OnOk, OnErr};
ghost use Rattle.words.specs.Sinks.{TookBeginning};

use std::alloc::Global;
use words::{Sink, SinkFault, Taken};

/// A sink in memory that takes so many puts whole; each put after them fails, and takes half of its bytes.
#[derive(Drop)]
pub struct Breaking {
    pub bytes: Vec<u8>,
    /// How many puts failed.
    pub failed: u64,
    /// How many more puts it takes.
    pub left: u32,
}

impl Breaking {
    /// One that has taken nothing yet.
    pub fn new(alloc: Global, left: u32) -> Self
        ensures bytes { result.bytes.items ≡ [] }
        ensures failed { result.failed ≡ 0 }
        ensures left { result.left ≡ left }
    {
        Breaking {
            bytes: Vec::new(alloc),
            failed: 0,
            left,
        }
    }
}

impl Sink for Breaking {
    ghost state = { λ b. record { taken = Some b.bytes.items; failed = b.failed } };

    fn put(&mut self, bytes: &[u8]) -> Result<(), SinkFault>
        ensures clean { OnOk result (self.new.failed ≡ self.old.failed) }
        ensures fault { OnErr result (self.new.failed ≡ min (self.old.failed + 1) 18446744073709551615) }
        ensures all { OnOk result (Some self.new.bytes.items ≡ Some (self.old.bytes.items ++ bytes.now)) }
        ensures part { OnErr result (TookBeginning (Some self.old.bytes.items) (Some self.new.bytes.items) bytes.now) }
        // It fails where none is left, and each put that it takes leaves one fewer.
        ensures breaks { self.old.left ≡ 0 → IsErr result }
        ensures left { OnOk result (self.new.left + 1 ≡ self.old.left) }
    {
        if self.left == 0 {
            let _ = self.bytes.extend_from_slice(&bytes[..bytes.len() / 2]);
            self.failed = self.failed.saturating_add(1);
            return Err(SinkFault);
        }
        self.left -= 1;
        match self.bytes.extend_from_slice(bytes) {
            Ok(()) => Ok(()),
            Err(_) => {
                self.failed = self.failed.saturating_add(1);
                Err(SinkFault)
            }
        }
    }
}
