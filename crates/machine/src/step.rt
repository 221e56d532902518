ghost use Rattle.std.specs.Prelude.{◌≡◌, ◌<◌, ℕ, length, IfOk, IfSome, IfNone, IsSome, OnErr, Some, None, option_to_list};
ghost use Rattle.words.specs.declared.cause.Status.TheVariants.{Running};
ghost use Rattle.std.specs.Option.{option_map};
ghost use Rattle.words.specs.declared.entry.Step.TheVariants.{Core, Evict, Deliver};
ghost use Rattle.protocol.specs.Hart.{stamp_of};
ghost use Rattle.protocol.specs.Machine.{Steps, stamps_after};
ghost use Rattle.protocol.specs.Messages.{shown as shown_message};
ghost use Rattle.hart.specs.Shown.{shown_tx};
ghost use Rattle.machine.specs.Rows.{asking};
ghost use Rattle.isolation.specs.Reasons.{LeadOn};
ghost use Rattle.network.specs.Flights.{AreInOrder};
ghost use Rattle.machine.specs.Mail.{SendsOn, mail_of};
ghost use Rattle.machine.specs.Making.{MakesStep};
ghost use Rattle.machine.specs.States.{hart_at};

use crate::listener::{Caller, Listener};
use crate::machine::Machine;
use crate::mail::{send, send_one};
use crate::play::{ELSEWHERE, TOLD_STEP};
use hart::{Asked, CoreStep, Hart};
use network::Net;
use std::alloc::AllocError;
use words::{BlockNo, Entry, HartId, Message, Step};

/// Counts a new stamp, if one was taken, up to the greatest u64. Most steps take none, and write nothing.
#[inline(always)]
fn take_stamp(stamps: &mut u64, stamped: bool)
    ensures { stamps.new ≡ stamps_after stamped stamps.old }
{
    if stamped {
        *stamps = stamps.saturating_add(1);
    }
}

/// Counts the stamp that a core's step took, and sends what it sends.
#[inline(always)]
fn note(stamps: &mut u64, net: &mut Net, made: &CoreStep)
    requires { 0 < net.old.room }
    ensures stamps { stamps.new ≡ stamps_after made.now.stamped stamps.old }
    ensures sent { SendsOn (mail_of net.old.flights) net.old.next (option_to_list (option_map shown_message made.now.message)) (mail_of net.new.flights) net.new.next }
    ensures order { AreInOrder net.new.flights }
{
    take_stamp(stamps, made.stamped);
    send(net, made.message);
}

/// Sends a hart's request for a block, if it asks for one. Its stamp is read only then.
#[inline(always)]
fn ask<const SETS: usize, const WAYS: usize>(
    net: &mut Net,
    from: HartId,
    hart: &Hart<SETS, WAYS>,
    asked: &Option<Asked>,
)
    requires { 0 < net.old.room }
    ensures sent { SendsOn (mail_of net.old.flights) net.old.next (option_to_list (option_map (asking from (stamp_of (shown_tx hart.now.tx))) asked.now)) (mail_of net.new.flights) net.new.next }
    ensures order { AreInOrder net.new.flights }
{
    match asked {
        Some(asked) => {
            let message = Message::Get {
                from,
                block: asked.block,
                kind: asked.kind,
                stamp: hart.stamp(),
            };
            send_one(net, message);
        }
        None => net.are_in_order(),
    }
}

impl<const SETS: usize, const WAYS: usize> Machine<SETS, WAYS> {
    ghost use Rattle.machine.specs.States.{shown, geometry};

    /// One step of a hart's core. It is too large to be inlined at more than one place, so there is one of it for each listener, and the common steps have
    /// a number for each place.
    #[inline(always)]
    pub(crate) fn core<L: Listener, const PLACE: usize>(
        &mut self,
        id: HartId,
    ) -> Result<Option<Entry>, AllocError>
        ensures steps { IfOk result (λ e. MakesStep (geometry SETS WAYS) self.old (Core id) e self.new) }
        ensures err { OnErr result (self.new ≡ self.old) }
    {
        match self.common_core::<L, PLACE>(id)? {
            Some(entry) => Ok(entry),
            None => self.any_core::<L>(id),
        }
    }

    /// One of the common steps of a hart's core, made quickly. The answer is `None`, and nothing changes, where the hart declines.
    #[inline(always)]
    fn common_core<L: Listener, const PLACE: usize>(
        &mut self,
        id: HartId,
    ) -> Result<Option<Option<Entry>>, AllocError>
        ensures steps { IfOk result (λ made. IfSome made (λ e. MakesStep (geometry SETS WAYS) self.old (Core id) e self.new)) }
        ensures none { IfOk result (λ made. IfNone made (self.new ≡ self.old)) }
        ensures err { OnErr result (self.new ≡ self.old) }
    {
        if id.index() >= self.seats.len() {
            return Ok(None);
        }
        self.common_seated::<L, PLACE>(id)
    }

    /// One of the common steps of one of the harts.
    #[inline(always)]
    pub(crate) fn common_seated<L: Listener, const PLACE: usize>(
        &mut self,
        id: HartId,
    ) -> Result<Option<Option<Entry>>, AllocError>
        requires { id < length self.old.seats }
        ensures steps { IfOk result (λ made. IfSome made (λ e. MakesStep (geometry SETS WAYS) self.old (Core id) e self.new)) }
        ensures running { IfOk result (λ made. IsSome made → (hart_at SETS self.old.seats id).status ≡ Running) }
        ensures none { IfOk result (λ made. IfNone made (self.new ≡ self.old)) }
        ensures err { OnErr result (self.new ≡ self.old) }
    {
        let i = id.index();
        self.net.reserve(1)?;
        let seat = &mut self.seats[i];
        let Some(made) = seat.common_step::<PLACE>(&self.program.text(), self.stamps) else {
            return Ok(None);
        };
        ask(&mut self.net, id, &seat.hart, &made.asked);
        take_stamp(&mut self.stamps, made.stamped);
        Ok(Some(made.entry))
    }

    /// Any step of a hart's core.
    #[inline(always)]
    fn any_core<L: Listener>(&mut self, id: HartId) -> Result<Option<Entry>, AllocError>
        ensures steps { IfOk result (λ e. MakesStep (geometry SETS WAYS) self.old (Core id) e self.new) }
        ensures err { OnErr result (self.new ≡ self.old) }
    {
        let i = id.index();
        if i >= self.seats.len() {
            return Ok(None);
        }
        self.net.reserve(1)?;
        match self.seats[i].core_step(&self.program.text(), self.stamps)? {
            None => Ok(None),
            Some(made) => {
                note(&mut self.stamps, &mut self.net, &made);
                Ok(made.entry)
            }
        }
    }

    /// A hart gives up its line of a block.
    #[inline(never)]
    pub(crate) fn evict(&mut self, id: HartId, block: BlockNo) -> Result<Option<Entry>, AllocError>
        ensures steps { IfOk result (λ e. MakesStep (geometry SETS WAYS) self.old (Evict id block) e self.new) }
        ensures err { OnErr result (self.new ≡ self.old) }
    {
        let i = id.index();
        if i >= self.seats.len() {
            return Ok(None);
        }
        self.net.reserve(1)?;
        match self.seats[i].hart.evict(block) {
            None => Ok(None),
            Some(reply) => {
                send(&mut self.net, reply.message);
                Ok(reply.entry)
            }
        }
    }

    /// One step, enabled or not. One that isn't enabled changes nothing, and gives no entry. It fails only if memory runs out.
    pub fn step(&mut self, step: Step) -> Result<Option<Entry>, AllocError>
        // Exactly one step of the protocol's machine is made, in which the cache's rule says which line makes way, and messages are numbered as they are sent.
        // Its entry carries each flat state that belongs on to one that belongs, and has its reason behind the entries that have led to the machine.
        ensures steps { IfOk result (λ e. Steps (geometry SETS WAYS) (shown SETS self.old) step e (shown SETS self.new)) }
        ensures made { IfOk result (λ e. MakesStep (geometry SETS WAYS) self.old step e self.new) }
        ensures leads { IfOk result (λ e. LeadOn (geometry SETS WAYS) (shown SETS self.old) (option_to_list e) (shown SETS self.new)) }
        ensures err { OnErr result (self.new ≡ self.old) }
    {
        match step {
            Step::Core(id) => match self.retire_plain(id) {
                Some(entry) => Ok(Some(entry)),
                None => self.core::<Caller, ELSEWHERE>(id),
            },
            Step::Evict(id, block) => self.evict(id, block),
            Step::Deliver(number) => self.deliver::<TOLD_STEP>(number as u64),
        }
    }
}
