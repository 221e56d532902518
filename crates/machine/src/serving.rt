ghost use Rattle.std.specs.Prelude.{◌≡◌, ◌≢◌, ◌+◌, ◌*◌, ◌<◌, ◌≤◌, ◌∷◌, [], length, count_by, Option, Some, None, IfSome, IfNone, ℕ, List, false};
ghost use Rattle.words.specs.Harts.{names};
ghost use Rattle.words.specs.Limits.{most_harts};
ghost use Rattle.words.specs.declared.entry.Entry.{Entry as EntryValue};
ghost use Rattle.conflict.specs.Requests.{shown_granted};
ghost use Rattle.protocol.specs.Messages.{Get, Grant, Forward, block_of};
ghost use Rattle.protocol.specs.Directory.{forwards};
ghost use Rattle.directory.specs.declared.rules.Request.{Request as RequestValue};
ghost use Rattle.hart.specs.declared.reply.ForwardAnswer.{ForwardAnswer as AnswerValue};
ghost use Rattle.hart.specs.Rows.{done_of, answer_of, refusal_of};
ghost use Rattle.machine.specs.Mail.{in_flight};
ghost use Rattle.machine.specs.Serving.{Hears, Settles, Answered, Ends, HearsReplies, IsServed, Tells, forwards_to, refuses};
ghost use Rattle.machine.specs.Turns.{TakesMany};

use crate::listener::{Listener, Nobody};
use crate::machine::Machine;
use crate::seat::Seat;
use directory::{Directory, Request};
use hart::{ForwardAnswer, Granted, Settled};
use network::Net;
use words::{BlockNo, Entry, HartId, HartSet, Message};

/// The most messages that arrive where a request is served: it, its grant, a forward and an answer for each hart, and its end.
const MOST_SERVED: u32 = 19;

/// So many messages may have been sent before it at most: behind the greatest u64 numbers don't tell the order of sending.
const LAST_SERVED: u64 = u64::MAX - 32;

/// A request that was served at once, and what its messages were: they are it, its grant, a forward to each hart that was asked and an answer of each, and
/// its end, if it has ended.
#[derive(Clone, Copy)]
pub struct Service {
    /// The hart that asked.
    pub requester: HartId,
    /// The block that it asked for.
    pub block: BlockNo,
    /// The harts that the request was forwarded to.
    pub asked: HartSet,
    /// How many they were.
    pub answers: u32,
    /// How many of them refused.
    pub refusals: u32,
    /// How many messages told the directory its end: one, or none.
    pub ended: u32,
    /// How many entries of the directory were in use while it was served.
    pub used: usize,
}

impl Service {
    /// How many messages they were, each of which took a turn.
    #[inline(always)]
    pub fn turns(&self) -> u32
        requires { 2 + 2 * self.now.answers + self.now.ended < 4294967296 }
        ensures { result ≡ 2 + 2 * self.now.answers + self.now.ended }
    {
        2 + 2 * self.answers + self.ended
    }
}

/// How harts answered a request.
#[derive(Clone, Copy)]
struct Answers {
    asked: HartSet,
    number: u32,
    refusals: u32,
}

/// A request's grant arrives at its hart.
#[inline(always)]
fn grant<const SETS: usize, const WAYS: usize>(
    seats: &mut [Seat<SETS, WAYS>],
    to: HartId,
    block: BlockNo,
    granted: &Granted,
) -> Settled
    requires { to < length seats.old }
    ensures { Settles SETS to (Grant to block (shown_granted granted.now)) seats.old seats.new result }
{
    let seat = &mut seats[to.index()];
    seat.hart.on_grant(block, granted)
}

/// A request that is forwarded arrives at a hart.
#[inline(always)]
fn forward<const SETS: usize, const WAYS: usize>(
    seats: &mut [Seat<SETS, WAYS>],
    to: HartId,
    request: &Request,
) -> ForwardAnswer
    requires { to < length seats.old }
    ensures { Hears SETS to (Forward to request.now.block request.now.kind request.now.requester request.now.stamp) seats.old seats.new
        (λ n. Some (answer_of n request.now.requester request.now.block result)) (λ n. refusal_of n request.now.requester request.now.block result) }
{
    let seat = &mut seats[to.index()];
    seat.hart
        .on_forward(request.block, request.kind, request.stamp)
}

/// What a hart answers to another's request arrives.
#[inline(always)]
fn reply<const SETS: usize, const WAYS: usize>(
    seats: &mut [Seat<SETS, WAYS>],
    from: HartId,
    request: &Request,
    answer: &ForwardAnswer,
) -> Settled
    requires { request.now.requester < length seats.old }
    ensures { Settles SETS request.now.requester (answer_of from request.now.requester request.now.block answer.now) seats.old seats.new result }
{
    let seat = &mut seats[request.requester.index()];
    match answer {
        ForwardAnswer::Ack(content) => seat.hart.on_ack(request.block, from, content),
        ForwardAnswer::Nack(stamp) => seat.hart.on_nack(request.block, from, *stamp),
    }
}

/// The entry that a hart's answer to another's request gives.
#[inline(always)]
fn refusal(to: HartId, request: &Request, answer: &ForwardAnswer) -> Option<Entry>
    ensures { result ≡ refusal_of to request.now.requester request.now.block answer.now }
{
    match answer {
        ForwardAnswer::Ack(_) => None,
        ForwardAnswer::Nack(_) => Some(Entry::Refuse {
            hart: to,
            requester: request.requester,
            block: request.block,
        }),
    }
}

/// Whether an answer refuses: 1, or 0.
#[inline(always)]
fn refused(answer: &ForwardAnswer) -> u32
    ensures value { result ≡ count_by refuses (answer.now ∷ []) }
    ensures most { result ≤ 1 }
{
    match answer {
        ForwardAnswer::Ack(_) => 0,
        ForwardAnswer::Nack(_) => 1,
    }
}

/// A request is granted, and forwarded to each of the first harts that it has to await, by rising number: each answers it, which is heard, and the answer
/// arrives. How it goes on then, and how they answered. By their turns all forwards arrive before the first answer does. But an answer changes the requester
/// alone, and a forward another hart, so each answer is told at once.
#[inline(always)]
fn ask<const SETS: usize, const WAYS: usize, L: Listener>(
    seats: &mut [Seat<SETS, WAYS>],
    request: &Request,
    granted: &Granted,
    harts: usize,
    listener: &mut L,
) -> (Settled, Answers)
    requires requester { request.now.requester < length seats.old }
    requires harts { harts ≤ length seats.old }
    requires few { harts ≤ most_harts }
    requires others { names granted.now.expect request.now.requester ≡ false }
    ensures answered { (replies : List (ℕ × AnswerValue))
        × (forwards harts (names granted.now.expect) request.now.block request.now.kind request.now.requester request.now.stamp ≡ forwards_to request.now replies)
        × Tells replies result.1.asked result.1.number result.1.refusals
        × Answered SETS request.now (shown_granted granted.now) replies seats.old seats.new result.0
        × HearsReplies L.hears request.now.requester request.now.block listener.old replies listener.new }
    ensures most { result.1.number ≤ most_harts }
{
    let asked = granted.expect.below(harts);
    let mut settled = grant(seats, request.requester, request.block, granted);
    let mut number = 0;
    let mut refusals = 0;
    let mut from = 0;
    while let Some(to) = asked.next(from) {
        let answer = forward(seats, to, request);
        listener.hear(&refusal(to, request, &answer));
        settled = reply(seats, to, request, &answer);
        number += 1;
        refusals += refused(&answer);
        from = to.index() + 1;
    }
    let answers = Answers {
        asked,
        number,
        refusals,
    };
    (settled, answers)
}

/// The directory is told how a hart's request has ended, if it has: with so many messages.
#[inline(always)]
fn end(directory: &mut Directory, from: HartId, settled: &Settled) -> u32
    requires block { IfSome (done_of from settled.now) (λ m. block_of m < length directory.old.memory) }
    requires hart { from < directory.old.harts }
    ensures ends { Ends (done_of from settled.now) directory.old directory.new result }
    ensures most { result ≤ 1 }
{
    match settled {
        Settled::Waiting => return 0,
        Settled::Refused(block) => directory.done(from, *block, false, &None),
        Settled::Granted(block, content) => directory.done(from, *block, true, content),
    }
    1
}

/// The request with a number, if it is one.
#[inline(always)]
fn request_numbered(net: &Net, number: u64) -> Option<Request>
    ensures some { IfSome result (λ q. in_flight net.now.flights number ≡ Some (Get q.requester q.block q.kind q.stamp)) }
    ensures none { IfNone result ((q : RequestValue) → in_flight net.now.flights number ≢ Some (Get q.requester q.block q.kind q.stamp)) }
{
    match net.peek(number)? {
        Message::Get {
            from,
            block,
            kind,
            stamp,
        } => Some(Request {
            requester: *from,
            block: *block,
            kind: *kind,
            stamp: *stamp,
        }),
        _ => None,
    }
}

/// Requests that are served at once.
impl<const SETS: usize, const WAYS: usize> Machine<SETS, WAYS> {
    ghost use Rattle.machine.specs.States.{geometry};

    /// Takes the turns in which a request that is alone in flight arrives, and after it each message that it brings about, so many at most, and has the
    /// harts' answers heard. Nothing else can arrive between them. So none of these is put into flight: what it does is done where it would be sent. `None`,
    /// and nothing changes, where no request is alone in flight, or it is held. It may decline one, which costs time alone.
    #[inline(always)]
    pub fn serve<L: Listener>(&mut self, most: u32, listener: &mut L) -> Option<Service>
        ensures served { IfSome result (λ s. (replies : List (ℕ × AnswerValue)) × IsServed (geometry SETS WAYS) self.old s replies self.new
            × HearsReplies L.hears s.requester s.block listener.old replies listener.new) }
        ensures most { IfSome result (λ s. 2 + 2 * s.answers + s.ended ≤ most) }
        ensures none { IfNone result ((self.new ≡ self.old) × (listener.new ≡ listener.old)) }
    {
        if most < MOST_SERVED {
            return None;
        }
        if self.net.sent() > LAST_SERVED {
            return None;
        }
        let Some(number) = self.net.alone() else {
            return None;
        };
        let Some(request) = request_numbered(&self.net, number) else {
            return None;
        };
        let Ok(answer) = self.directory.get(&request) else {
            return None;
        };
        let Some(given) = answer else {
            return None;
        };
        let used = self.directory.used();
        let granted = Granted {
            give: given.give,
            content: self.directory.memory(request.block),
            expect: given.expect,
        };
        let harts = self.directory.harts();
        let (settled, answers) = ask(&mut self.seats, &request, &granted, harts, listener);
        let ended = end(&mut self.directory, request.requester, &settled);
        let service = Service {
            requester: request.requester,
            block: request.block,
            asked: answers.asked,
            answers: answers.number,
            refusals: answers.refusals,
            ended,
            used,
        };
        self.net
            .pass(number, u64::from(1 + 2 * answers.number + ended));
        Some(service)
    }

    /// Takes those turns while nobody hears the answers, and answers how many they were.
    #[inline(never)]
    pub(crate) fn serve_unheard(&mut self, most: u32) -> u32
        ensures turns { (after : ℕ) → TakesMany (geometry SETS WAYS) self.old after result self.new after }
        ensures most { result ≤ most }
    {
        match self.serve::<Nobody>(most, &mut Nobody) {
            Some(service) => service.turns(),
            None => 0,
        }
    }
}
