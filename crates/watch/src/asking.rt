//! Requests that are counted: misses and upgrades, and those that are held.
ghost use Rattle.std.specs.Prelude.{◌≡◌, ◌≤◌, ◌+◌, ◌↔◌, ℕ, is_some, IsTrue};
ghost use Rattle.std.specs.Option.{option_map};
ghost use Rattle.words.specs.Limits.{most_harts};
ghost use Rattle.machine.specs.States.{shown};
ghost use Rattle.protocol.specs.Messages.{shown as shown_message};
ghost use Rattle.schedule.specs.Moments.{arrival_of};
ghost use Rattle.watch.specs.Kinds.{Grows, asked_by, asked_in, asks_if, count_at, counts_asked, counts_request, goes_to, held_behind, held_by, kind_asked, number_in, waits_behind};
ghost use Rattle.watch.specs.Runs.{AreFree};
ghost use Rattle.watch.specs.declared.kinds.Kind.{Kind as KindValue};

use crate::cells::Counts;
use crate::kinds::Kind;
use hart::Asked;
use machine::{Machine, receiver};
use network::Flight;
use words::{BlockNo, HartId, Kind as Want, Message, Step};

/// A request, as its hart and its block.
fn asked_by(message: &Message) -> Option<(HartId, BlockNo)>
    ensures { result ≡ asked_by (shown_message message.now) }
{
    match message {
        Message::Get { from, block, .. } => Some((*from, *block)),
        _ => None,
    }
}

/// The request that arrives, if what arrives is one.
pub(crate) fn ask_in(arrival: &Option<Flight>) -> Option<(HartId, BlockNo)>
    ensures { result ≡ asks_if arrival.now }
{
    match arrival {
        Some(flight) => asked_by(&flight.message),
        None => None,
    }
}

/// The hart that what arrives goes to, if it goes to one.
pub(crate) fn taker_in(arrival: &Option<Flight>) -> Option<HartId>
    ensures { result ≡ goes_to arrival.now }
{
    match arrival {
        Some(flight) => receiver(&flight.message),
        None => None,
    }
}

/// The request that a step delivers, if it delivers one, and the hart that it delivers a message to, if it does.
#[inline(always)]
pub(crate) fn arriving<const SETS: usize, const WAYS: usize>(
    machine: &Machine<SETS, WAYS>,
    step: &Step,
) -> (Option<(HartId, BlockNo)>, Option<HartId>)
    ensures ask { result.0 ≡ asks_if (arrival_of machine.now step.now) }
    ensures to { result.1 ≡ goes_to (arrival_of machine.now step.now) }
{
    match step {
        Step::Deliver(number) => match machine.peek_flight(*number as u64) {
            Some(flight) => (asked_by(&flight.message), receiver(&flight.message)),
            None => (None, None),
        },
        Step::Core(_) | Step::Evict(..) => (None, None),
    }
}

/// Whether a hart has a request out for a block, and is another than the one whose request is served.
fn waits_behind<const SETS: usize, const WAYS: usize>(
    machine: &Machine<SETS, WAYS>,
    served: HartId,
    block: BlockNo,
    id: HartId,
) -> bool
    ensures { result ≡ waits_behind (shown SETS machine.now) served block id }
{
    if id.index() == served.index() {
        return false;
    }
    match machine.waits_for(id) {
        Some(other) => other.number() == block.number(),
        None => false,
    }
}

/// What a hart has asked for, while its request is out.
#[inline(always)]
pub(crate) fn request_of<const SETS: usize, const WAYS: usize>(
    machine: &Machine<SETS, WAYS>,
    id: HartId,
) -> Option<Asked>
    ensures { result ≡ option_map asked_in ((shown SETS machine.now).harts id).request }
{
    machine.keeps();
    let request = machine.hart(id)?.request()?;
    Some(Asked {
        kind: request.kind,
        block: request.block,
    })
}

/// Whether all harts are free: none waits for a block, and none is fresh.
#[inline(always)]
pub(crate) fn all_free<const SETS: usize, const WAYS: usize>(machine: &Machine<SETS, WAYS>) -> bool
    ensures { IsTrue result ↔ AreFree (shown SETS machine.now) }
{
    for i in 0..machine.harts() {
        let id = HartId::new(i as u8);
        if machine.waits_for(id).is_some() {
            return false;
        }
        if machine.fresh(id) {
            return false;
        }
    }
    true
}

/// What a hart's request for a block counts as. Whether it has a line is looked up only where that tells.
#[inline(always)]
pub(crate) fn kind_asked<const SETS: usize, const WAYS: usize>(
    machine: &Machine<SETS, WAYS>,
    id: HartId,
    want: Want,
    block: BlockNo,
) -> Kind
    ensures { result ≡ kind_asked want (is_some (((shown SETS machine.now).harts id).lines block)) }
{
    match want {
        Want::Read => Kind::LoadMissed,
        Want::Write => {
            let has_line = machine.line(id, block).is_some();
            Kind::of_request(Want::Write, has_line)
        }
    }
}

impl Counts {
    /// Counts what was asked for in a step, before which so many messages had been sent, and which delivers this request.
    #[inline(always)]
    pub(crate) fn note_asked<const SETS: usize, const WAYS: usize>(
        &mut self,
        sent: u64,
        ask: Option<(HartId, BlockNo)>,
        step: &Step,
        machine: &Machine<SETS, WAYS>,
    )
        ensures { (h : ℕ) (k : KindValue) → Grows (count_at self.old h k) (number_in h k (counts_asked (shown SETS machine.now) sent machine.now.sent ask step.now)) (count_at self.new h k) }
    {
        if sent >= machine.sent() {
            return;
        }
        match (step, ask) {
            (Step::Core(id), _) => self.note_request(*id, machine),
            (Step::Deliver(_), Some((served, block))) => self.note_held(served, block, machine),
            _ => {}
        }
    }

    /// Counts a hart's request, if one is out.
    #[inline(never)]
    fn note_request<const SETS: usize, const WAYS: usize>(
        &mut self,
        id: HartId,
        machine: &Machine<SETS, WAYS>,
    )
        ensures { (h : ℕ) (k : KindValue) → Grows (count_at self.old h k) (number_in h k (counts_request (shown SETS machine.now) id ((shown SETS machine.now).harts id).request)) (count_at self.new h k) }
    {
        let Some(asked) = request_of(machine, id) else {
            return;
        };
        self.add(id, kind_asked(machine, id, asked.kind, asked.block));
        self.note_busy(id, asked.block, machine);
    }

    /// Counts a hart's request for a block as held, if the directory is busy with that block.
    pub(crate) fn note_busy<const SETS: usize, const WAYS: usize>(
        &mut self,
        id: HartId,
        block: BlockNo,
        machine: &Machine<SETS, WAYS>,
    )
        ensures { (h : ℕ) (k : KindValue) → Grows (count_at self.old h k) (number_in h k (held_by id ((shown SETS machine.now).entries block).busy)) (count_at self.new h k) }
    {
        if machine.entry(block).busy.is_some() {
            self.add(id, Kind::Held);
        }
    }

    /// Counts the requests that are held while one is served.
    #[inline(never)]
    pub(crate) fn note_held<const SETS: usize, const WAYS: usize>(
        &mut self,
        served: HartId,
        block: BlockNo,
        machine: &Machine<SETS, WAYS>,
    )
        ensures { (h : ℕ) (k : KindValue) → Grows (count_at self.old h k) (number_in h k (held_behind (shown SETS machine.now) served block most_harts)) (count_at self.new h k) }
    {
        for i in 0..machine.harts() {
            let id = HartId::new(i as u8);
            if waits_behind(machine, served, block, id) {
                self.add(id, Kind::Held);
            }
        }
    }
}
