ghost use Rattle.std.specs.Prelude.{◌≡◌};
ghost use Rattle.protocol.specs.Messages.{receiver_of, shown};
ghost use Rattle.pages.specs.Moments as spec;

use network::Flight;
use words::{HartId, Message, Step};

/// The hart that a step changes at most: the one that makes it, or to which the message comes. `None` where it comes to the directory.
pub(crate) fn actor(step: &Step, arrival: &Option<Flight>) -> Option<HartId>
    ensures { result ≡ spec.actor_of step.now arrival.now }
{
    match (step, arrival) {
        (Step::Core(hart), _) | (Step::Evict(hart, _), _) => Some(*hart),
        (Step::Deliver(_), Some(flight)) => receiver(&flight.message),
        (Step::Deliver(_), None) => None,
    }
}

/// The hart that a message goes to, if it goes to one.
fn receiver(message: &Message) -> Option<HartId>
    ensures { result ≡ receiver_of (shown message.now) }
{
    match message {
        Message::Get { .. } | Message::Put { .. } | Message::Done { .. } => None,
        Message::Grant { to, .. }
        | Message::Forward { to, .. }
        | Message::PutAck { to, .. }
        | Message::Ack { to, .. }
        | Message::Nack { to, .. } => Some(*to),
    }
}
