//! Messages in flight, by number and by age. The calls say nothing of what they answer, so that no test's proof has to carry it.

use crate::tests::claims::{equal, holds};
use network::Net;
use std::process::Abort;
use words::{BlockNo, HartId, Message};

/// The message that is told by a block's number.
fn ack(block: u32) -> Message {
    Message::PutAck {
        to: HartId::new(1),
        block: BlockNo::new(block),
    }
}

fn block_of(message: &Message) -> u32 {
    match message {
        Message::PutAck { block, .. } => block.number(),
        _ => 0,
    }
}

/// A message is sent, for which there is room: its number.
fn send(rt: &impl Abort, net: &mut Net, block: u32) -> u64 {
    holds(rt, net.room() > 0);
    net.send(ack(block))
}

/// Three messages are sent, which are told by 1, 2 and 3, where there is no room yet: their numbers.
fn send_three(rt: &impl Abort, net: &mut Net) -> [u64; 3] {
    equal(rt, &net.room(), &0);
    net.reserve(3).expect(rt, "memory");
    let first = send(rt, net, 1);
    let second = send(rt, net, 2);
    let third = send(rt, net, 3);
    [first, second, third]
}

fn check_message(rt: &impl Abort, net: &Net, number: u64, want: Option<Message>) {
    equal(rt, &net.get(number), &want);
}

fn oldest(net: &Net) -> Option<u64> {
    net.oldest(|_| true)
}

fn check_oldest(rt: &impl Abort, net: &Net, want: u64) {
    equal(rt, &oldest(net), &Some(want));
}

/// The number of the oldest message that is told by a block above this one.
fn oldest_above(net: &Net, least: u32) -> Option<u64> {
    net.oldest(|message| block_of(message) > least)
}

fn check_oldest_above(rt: &impl Abort, net: &Net, least: u32, want: Option<u64>) {
    equal(rt, &oldest_above(net, least), &want);
}

/// That this message is the one with a number, and is taken out.
fn check_taken(rt: &impl Abort, net: &mut Net, number: u64, want: Option<Message>) {
    equal(rt, &net.take(number), &want);
}

/// The number of the first message from a number on.
fn next_from(net: &Net, number: u64) -> Option<u64> {
    match net.next_from(number) {
        Some(flight) => Some(flight.number),
        None => None,
    }
}

fn check_next(rt: &impl Abort, net: &Net, number: u64, want: Option<u64>) {
    equal(rt, &next_from(net, number), &want);
}

fn check_number(rt: &impl Abort, number: u64, want: u64) {
    equal(rt, &number, &want);
}

/// That a network which is empty at first keeps the order of its messages.
fn check_order(rt: &impl Abort, net: &mut Net) {
    let [first, second, third] = send_three(rt, net);
    check_message(rt, net, third, Some(ack(3)));
    check_message(rt, net, 100, None);
    check_oldest(rt, net, first);
    check_taken(rt, net, first, Some(ack(1)));
    check_taken(rt, net, first, None);
    // No number is given twice: it is how many messages were sent before.
    let fourth = send(rt, net, 4);
    check_number(rt, fourth, 3);
    check_oldest(rt, net, second);
    check_message(rt, net, second, Some(ack(2)));
    check_oldest_above(rt, net, 3, Some(fourth));
    check_oldest_above(rt, net, 4, None);
}

#[test]
fn messages_keep_their_order(rt: HostRuntime) {
    check_order(&rt, &mut Net::new(rt.alloc()));
}

/// That so much room isn't given.
fn check_refused(rt: &impl Abort, net: &mut Net, count: usize) {
    holds(rt, net.reserve(count).is_err());
}

/// That a network which is empty at first loses nothing where no room is given.
fn check_refusal(rt: &impl Abort, net: &mut Net) {
    let [first, _, third] = send_three(rt, net);
    check_refused(rt, net, usize::MAX / 2);
    check_message(rt, net, third, Some(ack(3)));
    check_oldest(rt, net, first);
    check_message(rt, net, first, Some(ack(1)));
}

#[test]
fn a_refused_growth_loses_nothing(rt: HostRuntime) {
    check_refusal(&rt, &mut Net::new(rt.alloc()));
}

/// That these messages come by age: those told by 2, 3 and 4.
fn check_ages(rt: &impl Abort, net: &Net, [second, third, fourth]: [u64; 3]) {
    check_next(rt, net, 0, Some(second));
    check_next(rt, net, second, Some(second));
    check_next(rt, net, 2, Some(third));
    check_next(rt, net, 3, Some(fourth));
    check_next(rt, net, 4, None);
    check_message(rt, net, second, Some(ack(2)));
    check_message(rt, net, third, Some(ack(3)));
    check_message(rt, net, fourth, Some(ack(4)));
}

/// That in a network which is empty at first the messages come by age.
fn check_by_age(rt: &impl Abort, net: &mut Net) {
    check_next(rt, net, 0, None);
    let [first, second, third] = send_three(rt, net);
    check_next(rt, net, 0, Some(first));
    check_taken(rt, net, first, Some(ack(1)));
    let fourth = send(rt, net, 4);
    check_ages(rt, net, [second, third, fourth]);
}

#[test]
fn messages_come_by_age(rt: HostRuntime) {
    check_by_age(&rt, &mut Net::new(rt.alloc()));
}
