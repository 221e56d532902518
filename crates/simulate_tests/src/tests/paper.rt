//! A sink that fails.
ghost use Rattle.std.specs.Prelude.{None, [], refl};

use simulate::Buffered;
use std::alloc::Global;
use words::{Sink, SinkFault};

/// Takes so many puts whole; each put after them fails, and takes half of its bytes. It may refuse to write out what it took.
#[derive(Drop)]
pub(crate) struct Paper {
    pub(crate) bytes: Vec<u8>,
    /// How many puts failed.
    pub(crate) failed: u64,
    /// How many puts are taken whole from now on.
    pub(crate) left: u32,
    flushes: bool,
}

impl Paper {
    /// One that takes so many puts.
    pub(crate) fn new(alloc: Global, left: u32) -> Self {
        Paper {
            bytes: Vec::new(alloc),
            failed: 0,
            left,
            flushes: true,
        }
    }

    /// One that takes all puts.
    pub(crate) fn endless(alloc: Global) -> Self {
        Paper::new(alloc, u32::MAX)
    }

    /// One that takes all puts, but doesn't write them out.
    pub(crate) fn stuck(alloc: Global) -> Self {
        let mut paper = Paper::endless(alloc);
        paper.flushes = false;
        paper
    }

    /// One that has all the room that it needs, and takes no memory later. `None` if memory ran out.
    pub(crate) fn roomy(alloc: Global) -> Option<Self> {
        let mut paper = Paper::endless(alloc);
        match Vec::with_capacity(alloc, 8192) {
            Ok(bytes) => {
                paper.bytes = bytes;
                Some(paper)
            }
            Err(_) => None,
        }
    }
}

impl Sink for Paper {
    ghost state = { λ p. record { taken = None; failed = p.failed } };

    fn put(&mut self, bytes: &[u8]) -> Result<(), SinkFault> {
        let taken = if self.left > 0 {
            self.left -= 1;
            self.bytes.extend_from_slice(bytes).is_ok()
        } else {
            let _ = self.bytes.extend_from_slice(&bytes[..bytes.len() / 2]);
            false
        };
        if taken {
            return Ok(());
        }
        self.failed = self.failed.saturating_add(1);
        Err(SinkFault)
    }
}

impl Buffered for Paper {
    ghost handed = { λ _. None };

    ghost kept = { λ _. [] };

    ghost in_order = { λ _. refl };

    fn flush(&mut self) -> Result<(), SinkFault> {
        if self.flushes {
            return Ok(());
        }
        self.failed = self.failed.saturating_add(1);
        Err(SinkFault)
    }

    fn write_at_once(&mut self) {}
}
