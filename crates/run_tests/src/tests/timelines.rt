//! The timeline of a program that stores 7 to 0x2000 in a transaction, and exits: the store misses, and its hart asks the directory for the block.
use super::booted::booted;
use super::refusing::Refusing;
use crate::tests::claims::{equal, equal_at, holds};
use json::{Scratch, is_valid};
use machine::Silent;
use reference::{ABORTS, COMMITS};
use schedule::{Halt, Turns};
use std::alloc::Global;
use std::process::Abort;
use std::str;
use timeline::{Chart, put_timeline};
use words::{Sink, Taken};

const TIMELINE: &str = r#"{"traceEvents":[
{"ph":"M","name":"process_name","pid":0,"args":{"name":"logtm"}},
{"ph":"M","name":"thread_name","pid":0,"tid":0,"args":{"name":"hart 0"}},
{"ph":"M","name":"thread_name","pid":0,"tid":8,"args":{"name":"directory"}},
{"ph":"B","name":"transaction","ts":0,"pid":0,"tid":0},
{"ph":"X","dur":1,"ts":0,"pid":0,"tid":0,"name":"tbegin 20"},
{"ph":"X","dur":1,"ts":1,"pid":0,"tid":0,"name":"lui t0, 0x2"},
{"ph":"X","dur":1,"ts":2,"pid":0,"tid":0,"name":"addi t1, zero, 7"},
{"ph":"X","dur":1,"ts":3,"pid":0,"tid":0,"name":"core"},
{"ph":"s","cat":"message","name":"get","id":0,"ts":3,"pid":0,"tid":0},
{"ph":"X","dur":1,"ts":4,"pid":0,"tid":8,"name":"get 0 0x00002000 write stamp 0.0"},
{"ph":"f","bp":"e","cat":"message","name":"get","id":0,"ts":4,"pid":0,"tid":8},
{"ph":"s","cat":"message","name":"grant","id":1,"ts":4,"pid":0,"tid":8},
{"ph":"X","dur":1,"ts":5,"pid":0,"tid":0,"name":"grant 0 0x00002000 M expect - content 0x00000000"},
{"ph":"f","bp":"e","cat":"message","name":"grant","id":1,"ts":5,"pid":0,"tid":0},
{"ph":"s","cat":"message","name":"done","id":2,"ts":5,"pid":0,"tid":0},
{"ph":"X","dur":1,"ts":6,"pid":0,"tid":8,"name":"done 0 0x00002000 ok content -"},
{"ph":"f","bp":"e","cat":"message","name":"done","id":2,"ts":6,"pid":0,"tid":8},
{"ph":"X","dur":1,"ts":7,"pid":0,"tid":0,"name":"sw t1, 0(t0)"},
{"ph":"X","dur":1,"ts":8,"pid":0,"tid":0,"name":"tcommit"},
{"ph":"E","args":{"outcome":"committed"},"ts":9,"pid":0,"tid":0},
{"ph":"X","dur":1,"ts":9,"pid":0,"tid":0,"name":"addi a7, zero, 93"},
{"ph":"X","dur":1,"ts":10,"pid":0,"tid":0,"name":"addi a0, zero, 0"},
{"ph":"X","dur":1,"ts":11,"pid":0,"tid":0,"name":"ecall"}
]}
"#;

/// Puts the timeline of a program into a sink.
fn shown<S: Sink>(
    rt: &(impl Abort + AllocGlobal),
    text: &[u32],
    harts: u32,
    chart: &mut Chart<S>,
) -> Result<(), Halt> {
    let mut machine = booted(rt, text, harts);
    put_timeline(&mut machine, &[], 1000, &mut Turns, chart, &mut Silent)
}

/// A sink in memory.
fn taken(alloc: Global) -> Chart<Taken> {
    Chart::new(Taken {
        bytes: Vec::new(alloc),
        failed: 0,
    })
}

#[test]
fn each_step_has_its_events(rt: HostRuntime) {
    let mut chart = taken(rt.alloc());
    match shown(&rt, &COMMITS, 1, &mut chart) {
        Ok(()) => {
            equal(
                &rt,
                &str::from_utf8(&chart.sink.bytes).expect(&rt, "text"),
                &TIMELINE,
            );
        }
        Err(Halt::NoMemory) => {}
        Err(Halt::Untold) => equal(&rt, &chart.sink.failed, &1),
    }
}

/// That these bytes are a text in JSON.
fn check_json(rt: &(impl Abort + AllocGlobal), bytes: &[u8]) {
    let text = str::from_utf8(bytes).expect(rt, "text");
    let mut scratch = Scratch::new(rt.alloc());
    holds(rt, is_valid(text, &mut scratch).expect(rt, "memory"));
}

#[test]
fn a_timeline_is_json(rt: HostRuntime) {
    for program in [&COMMITS[..], &ABORTS[..]] {
        let mut chart = taken(rt.alloc());
        if shown(&rt, program, 2, &mut chart) == Ok(()) {
            check_json(&rt, &chart.sink.bytes);
        }
    }
}

#[test]
fn each_put_that_is_refused_is_told(rt: HostRuntime) {
    // 9 pieces of names, 12 slices of 7, a begin of 5, an end of 7, 6 ends of flows of 11, and the last line.
    let pieces = 172;
    for left in 0..180 {
        let mut chart = Chart::new(Refusing { left, failed: 0 });
        let put = shown(&rt, &COMMITS, 1, &mut chart);
        let want = if left < pieces {
            Err(Halt::Untold)
        } else {
            Ok(())
        };
        if put != Err(Halt::NoMemory) {
            equal_at(&rt, &put, &want, &left);
            equal(&rt, &chart.sink.failed, &u64::from(left < pieces));
        }
    }
}
