ghost use Rattle.std.specs.Prelude.{◌≡◌, ◌≢◌, ◌<◌, ◌*◌, ◌^◌, ℕ, Some, None, IfSome, IfNone};
ghost use Rattle.std.specs.Bool.{MatchBool};
ghost use Rattle.words.specs.declared.entry.Step.TheVariants.{Deliver};
ghost use Rattle.protocol.specs.Messages.{shown as shown_message};
ghost use Rattle.machine.specs.States.{setting_of, shown};
ghost use Rattle.schedule.specs.Steps.{name_of, FliesAs, IsArrivalOf, IsNamedIn, IsStepOf};

use crate::choices::{Choice, Name, Sort};
use machine::Machine;
use words::{HartId, Message, Step};

/// The name of a message.
pub fn name_of(message: &Message) -> Name
    ensures { result ≡ name_of (shown_message message.now) }
{
    let (sort, hart, block) = match message {
        Message::Get { from, block, .. } => (Sort::Get, from, block),
        Message::Put { from, block, .. } => (Sort::Put, from, block),
        Message::Done { from, block, .. } => (Sort::Done, from, block),
        Message::Grant { to, block, .. } => (Sort::Grant, to, block),
        Message::Forward { to, block, .. } => (Sort::Forward, to, block),
        Message::PutAck { to, block } => (Sort::PutAck, to, block),
        Message::Ack { from, block, .. } => (Sort::Ack, from, block),
        Message::Nack { from, block, .. } => (Sort::Nack, from, block),
    };
    Name {
        sort,
        hart: *hart,
        block: *block,
    }
}

/// The name of the message with a number. `None` where there is none.
pub fn named<const SETS: usize, const WAYS: usize>(
    machine: &Machine<SETS, WAYS>,
    number: u64,
) -> Option<Name>
    ensures only { IfSome result (λ n. IsArrivalOf (shown SETS machine.now) n (Some (Deliver number))) }
    ensures within { IfSome result (IsNamedIn (setting_of machine.now)) }
    ensures none { IfNone result ((shown SETS machine.now).net number ≡ None) }
{
    machine.keeps();
    let message = machine.message(number)?;
    let name = name_of(&message);
    let _few = name.hart.index();
    Some(name)
}

/// Whether a message has a name.
fn has_name(message: &Message, name: &Name) -> bool
    ensures { MatchBool result (name_of (shown_message message.now) ≡ name.now) (name_of (shown_message message.now) ≢ name.now) }
{
    name_of(message) == *name
}

/// The number of the message in flight that has a name.
fn find<const SETS: usize, const WAYS: usize>(
    machine: &Machine<SETS, WAYS>,
    name: &Name,
) -> Option<u64>
    ensures some { IfSome result (λ number. IsArrivalOf (shown SETS machine.now) name.now (Some (Deliver number))) }
    ensures none { IfNone result ((number : ℕ) → FliesAs (shown SETS machine.now) name.now number → ⊥) }
{
    machine.keeps();
    machine.are_in_order();
    let _next = machine.sent();
    let mut number = 0;
    while let Some(flight) = machine.next_from(number) {
        if has_name(&flight.message, name) {
            return Some(flight.number);
        }
        number = flight.number + 1;
    }
    None
}

impl Choice {
    /// The step that is chosen on a machine whose last core step was this hart's. `None` where no message of the name is in flight, and
    /// where there is no further turn.
    pub fn step<const SETS: usize, const WAYS: usize>(
        &self,
        machine: &Machine<SETS, WAYS>,
        last: HartId,
    ) -> Option<Step>
        ensures { IsStepOf SETS machine.now last self.now result }
    {
        match self {
            Choice::Core(hart) => Some(Step::Core(*hart)),
            Choice::Evict(hart, block) => Some(Step::Evict(*hart, *block)),
            Choice::Deliver(name) => match find(machine, name) {
                Some(number) => Some(Step::Deliver(number as usize)),
                None => None,
            },
            Choice::Turn => machine.next_turn(last),
        }
    }
}
