use words::{Sink, SinkFault};

/// Takes so many puts, and refuses the others.
#[derive(Drop)]
pub(crate) struct Refusing {
    pub(crate) left: u32,
    pub(crate) failed: u64,
}

impl Sink for Refusing {
    ghost use Rattle.std.specs.Prelude.{None};

    ghost state = { λ r. record { taken = None; failed = r.failed } };

    fn put(&mut self, _bytes: &[u8]) -> Result<(), SinkFault> {
        if self.left == 0 {
            self.failed = self.failed.saturating_add(1);
            return Err(SinkFault);
        }
        self.left -= 1;
        Ok(())
    }
}
