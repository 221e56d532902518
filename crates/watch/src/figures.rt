ghost use Rattle.std.specs.Prelude.{◌≡◌, ◌<◌};
ghost use Rattle.protocol.specs.Messages.{shown};
ghost use Rattle.watch.specs.Traffic.{place_of, sum_of_step, sum_of_message};

use schedule::{Sort, name_of};
use words::{Message, Step};

/// What is counted of the machine.
#[derive(Clone, Copy, Debug, PartialEq, Eq)]
pub enum Sum {
    /// Steps of cores, enabled or not.
    Cores,
    /// Evictions, enabled or not.
    Evictions,
    /// Deliveries, enabled or not.
    Deliveries,
    /// Messages of a sort that were sent.
    Sent(Sort),
}

/// What is told of the machine.
#[derive(Clone, Copy, Debug, PartialEq, Eq)]
pub enum Figure {
    /// How often there was something, up to the greatest u64.
    Sum(Sum),
    /// The largest number of messages in flight behind a step.
    MostInFlight,
    /// The largest number of entries of the directory in use behind a step.
    MostInUse,
}

impl Sum {
    /// Its number, from 0.
    pub(crate) fn place(self) -> usize
        ensures value { result ≡ place_of self }
        ensures bound { result < 11 }
    {
        match self {
            Sum::Cores => 0,
            Sum::Evictions => 1,
            Sum::Deliveries => 2,
            Sum::Sent(Sort::Get) => 3,
            Sum::Sent(Sort::Put) => 4,
            Sum::Sent(Sort::Done) => 5,
            Sum::Sent(Sort::Grant) => 6,
            Sum::Sent(Sort::Forward) => 7,
            Sum::Sent(Sort::PutAck) => 8,
            Sum::Sent(Sort::Ack) => 9,
            Sum::Sent(Sort::Nack) => 10,
        }
    }

    /// What a step counts as.
    pub(crate) fn of_step(step: &Step) -> Sum
        ensures { result ≡ sum_of_step step.now }
    {
        match step {
            Step::Core(_) => Sum::Cores,
            Step::Evict(..) => Sum::Evictions,
            Step::Deliver(_) => Sum::Deliveries,
        }
    }

    /// What a message counts as.
    pub(crate) fn of_message(message: &Message) -> Sum
        ensures { result ≡ sum_of_message (shown message.now) }
    {
        Sum::Sent(name_of(message).sort)
    }
}
