//! Pictures of programs that store 7 to 0x2000 in a transaction: the store misses, and its hart asks the directory for the block.
use super::booted::booted;
use super::refusing::Refusing;
use crate::tests::claims::{equal, equal_at, holds_at};
use reference::{ABORTS, COMMITS};
use schedule::{Halt, Turns};
use std::alloc::Global;
use std::process::Abort;
use std::str;
use timeline::put_picture;
use words::{Sink, Taken};

const PICTURE: &str =
    r##"<svg xmlns="http://www.w3.org/2000/svg" version="1.1" width="980" height="330">
<style>text{font:11px monospace;paint-order:stroke;stroke:#fff;stroke-width:8px;stroke-linejoin:round}circle{stroke:#fff;stroke-width:1px}path{fill:none}.life{stroke:#bbb}.name{text-anchor:middle;stroke:none}rect.name{fill:#eee;stroke:#999}.number{fill:#888;text-anchor:end}.arrow{stroke:#69c;marker-end:url(#head)}.committed,.aborted,.running{stroke-width:8px;stroke-linecap:round}.committed{stroke:#8c8}.aborted{stroke:#e99}.running{stroke:#ccc}.abort{fill:#c00}.trap{fill:#800}.refuse{fill:#d60}.spill{fill:#83a}.evict{fill:#888}.core{fill:#666}.arrival{fill:#258}</style>
<defs><marker id="head" viewBox="0 0 8 8" refX="11" refY="4" markerWidth="8" markerHeight="8" orient="auto"><path d="M0,0L8,4L0,8Z" style="fill:#69c"/></marker><pattern id="rows" width="40" height="40" patternUnits="userSpaceOnUse"><rect width="40" height="20" fill="#f7f7f7"/></pattern></defs>
<rect width="100%" height="100%" fill="#fff"/><rect y="60" width="100%" height="100%" fill="url(#rows)"/>
<g transform="translate(100,0)"><path class="life" d="M0,40V310"/><rect class="name" x="-45" y="16" width="90" height="24" rx="4"/><text class="name" y="32">hart 0</text></g>
<g transform="translate(540,0)"><path class="life" d="M0,40V310"/><rect class="name" x="-45" y="16" width="90" height="24" rx="4"/><text class="name" y="32">directory</text></g>
<path class="committed" d="M100,70V230"/>
<path class="arrow" d="M100,130L540,150"/>
<path class="arrow" d="M540,150L100,170"/>
<path class="arrow" d="M100,170L540,190"/>
<text class="number" x="46" y="70" dy="4">0</text><g class="retire" transform="translate(100,70)"><circle r="3"/><text x="14" y="4">tbegin 20</text></g>
<text class="number" x="46" y="90" dy="4">1</text><g class="retire" transform="translate(100,90)"><circle r="3"/><text x="14" y="4">lui t0, 0x2</text></g>
<text class="number" x="46" y="110" dy="4">2</text><g class="retire" transform="translate(100,110)"><circle r="3"/><text x="14" y="4">addi t1, zero, 7</text></g>
<text class="number" x="46" y="130" dy="4">3</text><g class="core" transform="translate(100,130)"><circle r="3"/><text x="14" y="4">core</text></g>
<text class="number" x="46" y="150" dy="4">4</text><g class="arrival" transform="translate(540,150)"><circle r="3"/><text x="14" y="4">get 0 0x00002000 write stamp 0.0</text></g>
<text class="number" x="46" y="170" dy="4">5</text><g class="arrival" transform="translate(100,170)"><circle r="3"/><text x="14" y="4">grant 0 0x00002000 M expect - content 0x00000000</text></g>
<text class="number" x="46" y="190" dy="4">6</text><g class="arrival" transform="translate(540,190)"><circle r="3"/><text x="14" y="4">done 0 0x00002000 ok content -</text></g>
<text class="number" x="46" y="210" dy="4">7</text><g class="retire" transform="translate(100,210)"><circle r="3"/><text x="14" y="4">sw t1, 0(t0)</text></g>
<text class="number" x="46" y="230" dy="4">8</text><g class="retire" transform="translate(100,230)"><circle r="3"/><text x="14" y="4">tcommit</text></g>
<text class="number" x="46" y="250" dy="4">9</text><g class="retire" transform="translate(100,250)"><circle r="3"/><text x="14" y="4">addi a7, zero, 93</text></g>
<text class="number" x="46" y="270" dy="4">10</text><g class="retire" transform="translate(100,270)"><circle r="3"/><text x="14" y="4">addi a0, zero, 0</text></g>
<text class="number" x="46" y="290" dy="4">11</text><g class="retire" transform="translate(100,290)"><circle r="3"/><text x="14" y="4">ecall</text></g>
</svg>
"##;

/// Puts the picture of a program's first steps into a sink.
fn drawn<S: Sink>(
    rt: &(impl Abort + AllocGlobal),
    text: &[u32],
    steps: u32,
    sink: &mut S,
) -> Result<(), Halt> {
    let mut machine = booted(rt, text, 1);
    put_picture(rt.alloc(), &mut machine, &[], steps, &mut Turns, sink)
}

/// A sink in memory.
fn taken(alloc: Global) -> Taken {
    Taken {
        bytes: Vec::new(alloc),
        failed: 0,
    }
}

#[test]
fn each_step_is_a_row(rt: HostRuntime) {
    let mut sink = taken(rt.alloc());
    match drawn(&rt, &COMMITS, 1000, &mut sink) {
        Ok(()) => equal(
            &rt,
            &str::from_utf8(&sink.bytes).expect(&rt, "text"),
            &PICTURE,
        ),
        Err(Halt::NoMemory) => equal(&rt, &sink.bytes.len(), &0),
        Err(Halt::Untold) => equal(&rt, &sink.failed, &1),
    }
}

#[test]
fn a_bar_ends_with_its_transaction(rt: HostRuntime) {
    // Steps 8 and 9 restore what was stored, and 10 aborts. Behind 5 steps it still runs.
    for (steps, bar) in [
        (1000, "\n<path class=\"aborted\" d=\"M100,70V270\"/>\n"),
        (5, "\n<path class=\"running\" d=\"M100,70V170\"/>\n"),
    ] {
        let mut sink = taken(rt.alloc());
        if drawn(&rt, &ABORTS, steps, &mut sink) == Ok(()) {
            let text = str::from_utf8(&sink.bytes).expect(&rt, "text");
            holds_at(&rt, text.contains(bar), &steps);
        }
    }
}

#[test]
fn each_put_that_is_refused_is_told(rt: HostRuntime) {
    // 13 pieces before the lanes, 8 and 6 of these, a bar of 9, 3 arrows of 9, 12 steps of 14, and the end.
    let pieces = 232;
    for left in 0..240 {
        let mut sink = Refusing { left, failed: 0 };
        let put = drawn(&rt, &COMMITS, 1000, &mut sink);
        let want = if left < pieces {
            Err(Halt::Untold)
        } else {
            Ok(())
        };
        if put != Err(Halt::NoMemory) {
            equal_at(&rt, &put, &want, &left);
            equal(&rt, &sink.failed, &u64::from(left < pieces));
        }
    }
}
