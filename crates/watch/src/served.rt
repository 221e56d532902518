//! Requests that are served at once, and counted.
ghost use Rattle.std.specs.Prelude.{◌≡◌, ◌≤◌, ◌+◌, ◌*◌, ◌||◌, ◌==◌, ℕ, List, length, max, if◌then◌else◌, IfSome, IfNone};
ghost use Rattle.words.specs.Harts.{names};
ghost use Rattle.words.specs.Limits.{most_harts};
ghost use Rattle.hart.specs.declared.reply.ForwardAnswer.{ForwardAnswer as AnswerValue};
ghost use Rattle.machine.specs.Serving.{HearsReplies, IsServed};
ghost use Rattle.machine.specs.States.{State, geometry, shown};
ghost use Rattle.watch.specs.Kinds.{Grows, count_at, held_behind, number_in};
ghost use Rattle.watch.specs.Runs.{CountsEntry, HasAsked, HasStepped, NotesServed, ServesCounted, TakesCounted};
ghost use Rattle.watch.specs.declared.kinds.Kind.{Kind};

use crate::asking::{kind_asked, request_of};
use crate::counting::{Tally, set_fresh};
use machine::{Machine, Service};
use words::{HartId, HartSet, Step};

/// Notes which harts are fresh behind a request that was served: those that heard a message of it, as the machine has them.
#[inline(always)]
fn note_all_fresh<const SETS: usize, const WAYS: usize>(
    fresh: &mut HartSet,
    service: &Service,
    machine: &Machine<SETS, WAYS>,
)
    ensures { (i : ℕ) → names fresh.new i ≡ (if (service.now.requester == i) || names service.now.asked i then ((shown SETS machine.now).harts i).fresh else names fresh.old i) }
{
    set_fresh(fresh, service.requester, machine.fresh(service.requester));
    let mut from = 0;
    while let Some(id) = service.asked.next(from) {
        set_fresh(fresh, id, machine.fresh(id));
        from = id.index() + 1;
    }
}

/// Counts a request that was served at once, whose refusals are counted.
#[inline(always)]
fn note_served<const SETS: usize, const WAYS: usize>(
    service: &Service,
    machine: &Machine<SETS, WAYS>,
    tally: &mut Tally,
)
    requires { service.now.refusals ≤ service.now.answers }
    ensures { NotesServed SETS service.now machine.now tally.old tally.new }
{
    tally
        .harts
        .note_held(service.requester, service.block, machine);
    tally.machine.note_served(service, machine);
    note_all_fresh(&mut tally.fresh, service, machine);
}

/// Serves the request that is alone in flight, as [`Machine::serve`] does, and counts its refusals.
#[inline(never)]
fn serve<const SETS: usize, const WAYS: usize>(
    machine: &mut Machine<SETS, WAYS>,
    most: u32,
    tally: &mut Tally,
) -> Option<Service>
    ensures served { IfSome result (λ s. (replies : List (ℕ × AnswerValue)) × IsServed (geometry SETS WAYS) machine.old s replies machine.new
        × HearsReplies CountsEntry s.requester s.block tally.old replies tally.new) }
    ensures most { IfSome result (λ s. 2 + 2 * s.answers + s.ended ≤ most) }
    ensures none { IfNone result ((machine.new ≡ machine.old) × (tally.new ≡ tally.old)) }
{
    machine.serve(most, tally)
}

/// Takes the turns in which a request that is alone in flight arrives, and after it each message that it brings about, so many at most, and counts them: how
/// many they were. It may take none, which costs time alone.
pub(crate) fn serve_counted<const SETS: usize, const WAYS: usize>(
    machine: &mut Machine<SETS, WAYS>,
    most: u32,
    tally: &mut Tally,
) -> u32
    ensures turns { (after : ℕ) → TakesCounted (geometry SETS WAYS) machine.old after result machine.new after tally.old tally.new }
    ensures most { result ≤ most }
{
    // So those that are sent have higher numbers.
    machine.are_in_order();
    match serve(machine, most, tally) {
        Some(service) => {
            note_served(&service, machine, tally);
            service.turns()
        }
        None => 0,
    }
}

/// Serves the request that is alone in flight, as [`Machine::serve`] does, and counts its refusals and its messages: how many turns they took.
#[inline(never)]
fn serve_asked<const SETS: usize, const WAYS: usize>(
    machine: &mut Machine<SETS, WAYS>,
    most: u32,
    tally: &mut Tally,
) -> Option<u32>
    ensures served { IfSome result (λ turns. ServesCounted (geometry SETS WAYS) machine.old machine.new turns tally.old tally.new) }
    ensures most { IfSome result (λ turns. turns ≤ most) }
    ensures none { IfNone result ((machine.new ≡ machine.old) × (tally.new ≡ tally.old)) }
{
    let Some(service) = machine.serve(most, tally) else {
        return None;
    };
    tally.machine.note_served(&service, machine);
    Some(service.turns())
}

/// Counts a step of a hart's core whose entry is counted, whatever it sent. So many messages had been sent before it.
#[inline(never)]
fn note_step<const SETS: usize, const WAYS: usize>(
    machine: &Machine<SETS, WAYS>,
    hart: HartId,
    sent: u64,
    tally: &mut Tally,
)
    ensures { (v : State) (after : ℕ) (before : Tally) → HasStepped (geometry SETS WAYS) v after hart machine.now before tally.old → sent ≡ v.sent
        → HasAsked (geometry SETS WAYS) v after hart 1 machine.now before tally.new }
{
    let step = Step::Core(hart);
    tally.harts.note_asked(sent, None, &step, machine);
    tally.machine.note(sent, &step, machine);
}

/// Counts a step of a hart's core whose entry is counted, and in which it mostly has asked for a block. What it asked for is served at once, if it can be, in so many
/// turns more, and counted too, but that the hart isn't put into the tally's set of fresh ones. So many messages had been sent before the step.
#[inline(always)]
pub(crate) fn ask<const SETS: usize, const WAYS: usize>(
    machine: &mut Machine<SETS, WAYS>,
    hart: HartId,
    sent: u64,
    most: u32,
    tally: &mut Tally,
) -> u32
    ensures asked { (v : State) (after : ℕ) (before : Tally) → HasStepped (geometry SETS WAYS) v after hart machine.old before tally.old → sent ≡ v.sent
        → HasAsked (geometry SETS WAYS) v after hart (1 + result) machine.new before tally.new }
    ensures most { result ≤ most }
{
    // Behind the greatest u64 numbers don't tell what was sent.
    if sent >= machine.sent() {
        note_step(machine, hart, sent, tally);
        return 0;
    }
    let Some(asked) = request_of(machine, hart) else {
        note_step(machine, hart, sent, tally);
        return 0;
    };
    let kind = kind_asked(machine, hart, asked.kind, asked.block);
    tally.harts.add(hart, kind);
    tally.machine.note_request(machine.used());
    machine.are_in_order();
    let Some(turns) = serve_asked(machine, most, tally) else {
        tally.harts.note_busy(hart, asked.block, machine);
        return 0;
    };
    turns
}
