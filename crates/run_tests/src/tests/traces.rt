//! The trace of a program that stores 7 to 0x2000 in a transaction, and exits.
use super::booted::booted;
use super::refusing::Refusing;
use crate::tests::claims::{equal, equal_at, equal_items};
use disassembler::Symbols;
use machine::Silent;
use reference::COMMITS;
use schedule::{Choice, Halt, Turns};
use std::process::Abort;
use watch::put_trace;
use words::{HartId, Sink, Taken};

const TRACE: &str = "0 0x00001000 00000a0b tbegin 20\n\
    0 0x00001004 000022b7 lui t0, 0x2 | t0=0x00002000\n\
    0 0x00001008 00700313 addi t1, zero, 7 | t1=0x00000007\n\
    0 0x0000100c 0062a023 sw t1, 0(t0) | store 4 0x00002000=0x00000007\n\
    0 0x00001010 0000100b tcommit\n\
    0 0x00001014 05d00893 addi a7, zero, 93 | a7=0x0000005d\n\
    0 0x00001018 00000513 addi a0, zero, 0 | a0=0x00000000\n\
    0 0x0000101c 00000073 ecall\n";

/// Traces the program, of whose steps so many are chosen, into a sink.
fn traced<S: Sink>(
    rt: &(impl Abort + AllocGlobal),
    chosen: usize,
    sink: &mut S,
) -> Result<(), Halt> {
    let choices = [Choice::Core(HartId::new(0)); 3];
    let choices = &choices[..chosen.min(3)];
    let mut machine = booted(rt, &COMMITS, 1);
    put_trace(
        &Symbols::none(rt.alloc()),
        &mut machine,
        choices,
        100,
        &mut Turns,
        sink,
        &mut Silent,
    )
}

#[test]
fn each_entry_has_its_line(rt: HostRuntime) {
    for chosen in [0, 3] {
        let mut sink = Taken {
            bytes: Vec::new(rt.alloc()),
            failed: 0,
        };
        match traced(&rt, chosen, &mut sink) {
            Ok(()) => equal_items(&rt, &sink.bytes[..], TRACE.as_bytes()),
            Err(Halt::NoMemory) => {}
            Err(Halt::Untold) => equal(&rt, &sink.failed, &1),
        }
    }
}

#[test]
fn each_put_that_is_refused_is_told(rt: HostRuntime) {
    for left in 0..10 {
        let mut sink = Refusing { left, failed: 0 };
        let put = traced(&rt, 0, &mut sink);
        // The first turn is one put, and so are the two words before the store, and all that follows from it.
        let want = if left < 3 { Err(Halt::Untold) } else { Ok(()) };
        if put != Err(Halt::NoMemory) {
            equal_at(&rt, &put, &want, &left);
            equal(&rt, &sink.failed, &u64::from(left < 3));
        }
    }
}
