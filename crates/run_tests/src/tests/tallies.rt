//! What programs of a few words count as.
use super::booted::booted;
use crate::tests::claims::equal;
use machine::Silent;
use reference::{ABORTS, COMMITS};
use schedule::Turns;
use std::process::Abort;
use watch::{Kind, Tally, count_run};
use words::HartId;

fn counted(rt: &(impl Abort + AllocGlobal), text: &[u32], harts: u32) -> Tally {
    let mut machine = booted(rt, text, harts);
    count_run(&mut machine, &[], 1000, &mut Turns, &mut Silent).expect(rt, "memory")
}

/// That each of the two harts has this count.
fn check_both(rt: &impl Abort, tally: &Tally, kind: Kind, want: u64) {
    for hart in [HartId::new(0), HartId::new(1)] {
        equal(rt, &tally.harts.count(hart, kind), &want);
    }
}

#[test]
fn a_commit_is_counted(rt: HostRuntime) {
    let tally = counted(&rt, &COMMITS, 2);
    check_both(&rt, &tally, Kind::Committed, 1);
    check_both(&rt, &tally, Kind::Asked, 0);
    check_both(&rt, &tally, Kind::Spilled, 0);
    let given = tally.harts.count(HartId::new(0), Kind::Refused);
    equal(
        &rt,
        &tally.harts.count(HartId::new(1), Kind::WasRefused),
        &given,
    );
}

#[test]
fn an_abort_is_counted_by_its_cause(rt: HostRuntime) {
    let tally = counted(&rt, &ABORTS, 2);
    check_both(&rt, &tally, Kind::Asked, 1);
    check_both(&rt, &tally, Kind::Committed, 0);
}
