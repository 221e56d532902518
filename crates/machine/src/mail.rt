ghost use Rattle.std.specs.Prelude.{◌≡◌, ◌<◌, ◌≤◌, ◌+◌, [], ◌∷◌, None, option_to_list, IsSome};
ghost use Rattle.std.specs.Option.{option_map};
ghost use Rattle.protocol.specs.Messages.{shown, receiver_of, Grant, Granted};
ghost use Rattle.flat.specs.Bytes.{put_at};
ghost use Rattle.network.specs.Flights.{AreInOrder};
ghost use Rattle.words.specs.Harts.{names};
ghost use Rattle.words.specs.Limits.{most_harts};
ghost use Rattle.protocol.specs.Directory.{forwards};
ghost use Rattle.hart.specs.Rows.{done_of, answer_of, refusal_of};
ghost use Rattle.machine.specs.Mail.{in_flight, mail_of, SendsOn};

use directory::{Given, Request};
use hart::{ForwardAnswer, Settled};
use network::Net;
use words::{Block, BlockNo, Entry, HartId, HartSet, Message};

/// The hart that a message goes to. `None` where it goes to the directory.
pub fn receiver(message: &Message) -> Option<HartId>
    ensures { result ≡ receiver_of (shown message.now) }
{
    match message {
        Message::Get { .. } | Message::Put { .. } | Message::Done { .. } => None,
        Message::Grant { to, .. }
        | Message::Forward { to, .. }
        | Message::PutAck { to, .. }
        | Message::Ack { to, .. }
        | Message::Nack { to, .. } => Some(*to),
    }
}

/// Takes the message with a number, where there is one, out of flight.
#[inline(always)]
pub fn take(net: &mut Net, number: u64)
    requires { IsSome (in_flight net.old.flights number) }
    ensures mail { mail_of net.new.flights ≡ put_at number None (mail_of net.old.flights) }
    ensures number { net.new.next ≡ net.old.next }
    ensures order { AreInOrder net.new.flights }
    ensures room { net.new.room ≡ net.old.room + 1 }
{
    net.take(number);
    net.are_in_order();
}

/// Sends a message.
#[inline(always)]
pub fn send_one(net: &mut Net, message: Message)
    requires { 0 < net.old.room }
    ensures sent { SendsOn (mail_of net.old.flights) net.old.next (shown message ∷ []) (mail_of net.new.flights) net.new.next }
    ensures order { AreInOrder net.new.flights }
    ensures room { net.new.room + 1 ≡ net.old.room }
{
    net.send(message);
    net.are_in_order();
}

/// Sends a message, if there is one.
#[inline(always)]
pub fn send(net: &mut Net, message: Option<Message>)
    requires { 0 < net.old.room }
    ensures sent { SendsOn (mail_of net.old.flights) net.old.next (option_to_list (option_map shown message)) (mail_of net.new.flights) net.new.next }
    ensures order { AreInOrder net.new.flights }
{
    match message {
        Some(message) => send_one(net, message),
        None => net.are_in_order(),
    }
}

/// Takes the message with a number out of flight, and sends another.
#[inline(always)]
pub fn answer(net: &mut Net, number: u64, message: Message)
    requires { IsSome (in_flight net.old.flights number) }
    ensures sent { SendsOn (put_at number None (mail_of net.old.flights)) net.old.next (shown message ∷ []) (mail_of net.new.flights) net.new.next }
    ensures order { AreInOrder net.new.flights }
    ensures room { net.new.room ≡ net.old.room }
{
    net.answer(number, message);
    net.are_in_order();
}

/// Takes the answer with a number out of flight, and tells the directory how a hart's request goes on, if it has ended.
#[inline(always)]
pub fn answer_done(net: &mut Net, number: u64, from: HartId, settled: Settled)
    requires { IsSome (in_flight net.old.flights number) }
    ensures sent { SendsOn (put_at number None (mail_of net.old.flights)) net.old.next (option_to_list (done_of from settled)) (mail_of net.new.flights) net.new.next }
    ensures order { AreInOrder net.new.flights }
{
    match settled {
        Settled::Waiting => take(net, number),
        Settled::Refused(block) => answer(
            net,
            number,
            Message::Done {
                from,
                block,
                ok: false,
                content: None,
            },
        ),
        Settled::Granted(block, content) => answer(
            net,
            number,
            Message::Done {
                from,
                block,
                ok: true,
                content,
            },
        ),
    }
}

/// Takes another hart's request for a block, which has this number, out of flight, and sends what a hart answers to it. It gives the entry that there is
/// of that.
#[inline(always)]
pub fn answer_forward(
    net: &mut Net,
    number: u64,
    from: HartId,
    requester: HartId,
    block: BlockNo,
    reply: ForwardAnswer,
) -> Option<Entry>
    requires { IsSome (in_flight net.old.flights number) }
    ensures sent { SendsOn (put_at number None (mail_of net.old.flights)) net.old.next (answer_of from requester block reply ∷ []) (mail_of net.new.flights) net.new.next }
    ensures order { AreInOrder net.new.flights }
    ensures entry { result ≡ refusal_of from requester block reply }
{
    let to = requester;
    match reply {
        ForwardAnswer::Ack(content) => {
            let message = Message::Ack {
                from,
                to,
                block,
                content,
            };
            answer(net, number, message);
            None
        }
        ForwardAnswer::Nack(stamp) => {
            let message = Message::Nack {
                from,
                to,
                block,
                stamp,
            };
            answer(net, number, message);
            Some(Entry::Refuse {
                hart: from,
                requester,
                block,
            })
        }
    }
}

/// Takes a request, which has this number, out of flight, and sends what it is given, with these words. Then it is forwarded to each hart whose answer
/// it has to await, by rising number.
#[inline(always)]
pub fn answer_get(
    net: &mut Net,
    number: u64,
    request: &Request,
    given: &Given,
    content: Block,
    harts: usize,
)
    requires here { IsSome (in_flight net.old.flights number) }
    requires harts { harts ≤ most_harts }
    requires room { harts ≤ net.old.room }
    ensures sent { let granted : Granted = record { give = given.now.give; content = content; expect = names given.now.expect } in
        SendsOn (put_at number None (mail_of net.old.flights)) net.old.next
        (Grant request.now.requester request.now.block granted ∷ forwards harts (names given.now.expect) request.now.block request.now.kind request.now.requester request.now.stamp)
        (mail_of net.new.flights) net.new.next }
    ensures order { AreInOrder net.new.flights }
{
    let message = Message::Grant {
        to: request.requester,
        block: request.block,
        give: given.give,
        content,
        expect: given.expect,
    };
    answer(net, number, message);
    forward(net, request, &given.expect, harts);
}

/// Forwards a request to each hart of a set, by rising number.
#[inline(always)]
fn forward(net: &mut Net, request: &Request, expect: &HartSet, harts: usize)
    requires harts { harts ≤ most_harts }
    requires room { harts ≤ net.old.room }
    ensures sent { SendsOn (mail_of net.old.flights) net.old.next
        (forwards harts (names expect.now) request.now.block request.now.kind request.now.requester request.now.stamp)
        (mail_of net.new.flights) net.new.next }
    ensures order { AreInOrder net.new.flights }
{
    let asked = expect.below(harts);
    let mut from = 0;
    while let Some(to) = asked.next(from) {
        let message = Message::Forward {
            to,
            block: request.block,
            kind: request.kind,
            requester: request.requester,
            stamp: request.stamp,
        };
        send_one(net, message);
        from = to.index() + 1;
    }
    net.are_in_order();
}
