ghost use Rattle.std.specs.Prelude.{◌≡◌};
ghost use Rattle.std.specs.List.{flat_map};
ghost use Rattle.texts.specs.Puts.{Puts};

use words::{Sink, SinkFault};

/// Puts pieces one after another, up to the first that the sink fails to take.
pub fn put_all<S: Sink>(sink: &mut S, pieces: &[&[u8]]) -> Result<(), SinkFault>
    ensures { Puts (S.state sink.old) (S.state sink.new) (flat_map (λ p. p.now) pieces.now) result }
{
    for piece in pieces {
        sink.put(piece)?;
    }
    Ok(())
}
