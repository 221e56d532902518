//! Harts that are stopped, outside transactions and inside.

ghost use Rattle.outcomes.specs.Searches.{IsSearch};

use super::ends::{End, ends_found};
use super::searches::searched;
use crate::tests::claims::equal;
use outcomes::Outcomes;
use std::process::Abort;
use std::test::Fail;
use words::{Addr, Cause, Status};

const NOP: u32 = 0x0000_0013;

/// Programs that are stopped at their third word, and why.
#[rattlefmt::skip]
static STOPS: [([u32; 3], Cause); 16] = [
    ([NOP, NOP, 0], Cause::Illegal),
    ([NOP, NOP, 0x0060_006f], Cause::JumpMisaligned), // jal zero, 6
    ([NOP, NOP, 0x0020_2303], Cause::LoadMisaligned), // lw t1, 2(zero)
    ([NOP, NOP, 0x0060_21a3], Cause::StoreMisaligned), // sw t1, 3(zero)
    ([0x0002_02b7, NOP, 0x0002_a303], Cause::LoadOutside), // lui t0, 0x20; lw t1, 0(t0)
    ([0x0002_02b7, NOP, 0x0062_a023], Cause::StoreOutside), // lui t0, 0x20; sw t1, 0(t0)
    ([0x0000_12b7, NOP, 0x0062_a023], Cause::StoreText), // lui t0, 0x1; sw t1, 0(t0)
    ([0x0001_f2b7, NOP, 0x0002_a303], Cause::LogRegion), // lui t0, 0x1f; lw t1, 0(t0)
    ([0x0002_02b7, NOP, 0xfe62_ae23], Cause::LogRegion), // lui t0, 0x20; sw t1, -4(t0)
    ([0x0020_0293, NOP, 0x0072_a32f], Cause::StoreMisaligned), // li t0, 2; amoadd.w t1, t2, (t0)
    ([0x0002_02b7, NOP, 0x0072_a32f], Cause::StoreOutside), // lui t0, 0x20; amoadd.w t1, t2, (t0)
    ([0x0000_12b7, NOP, 0x0072_a32f], Cause::StoreText), // lui t0, 0x1; amoadd.w t1, t2, (t0)
    ([0x0020_0893, NOP, 0x0000_0073], Cause::BadCall), // li a7, 2; ecall
    ([NOP, NOP, 0x0010_0073], Cause::Breakpoint), // ebreak
    ([NOP, NOP, 0x0000_100b], Cause::OutsideTransaction), // tcommit
    ([NOP, NOP, 0x0000_200b], Cause::OutsideTransaction), // tabort
];

/// The only end that a search found, which is to have found all.
fn end_of_all(rt: &(impl Abort + AllocGlobal), outcomes: &Outcomes) -> Result<End, Fail>
    requires { IsSearch outcomes.now }
{
    let mut ends = ends_found(rt.alloc(), outcomes)?;
    equal(rt, &(outcomes.is_all, ends.len()), &(true, 1));
    Ok(ends.pop().ok_or("no end")?)
}

/// The only end of a program of one hart.
fn only_end(rt: &(impl Abort + AllocGlobal), text: &[u32]) -> Result<End, Fail> {
    let outcomes = searched(rt.alloc(), text, 1, 20_000)?;
    end_of_all(rt, &outcomes)
}

/// That a program of one hart has one end: it is stopped for this cause at this pc, and stands there.
fn check_stop(
    rt: &(impl Abort + AllocGlobal),
    text: &[u32],
    cause: Cause,
    at: u32,
) -> Result<(), Fail> {
    let end = only_end(rt, text)?;
    equal(rt, &end.0, &Status::Stopped(cause, Addr::new(at)));
    equal(rt, &end.1, &at);
    Ok(())
}

#[test]
fn a_hart_is_stopped_outside_transactions(rt: HostRuntime) -> Result<(), Fail> {
    for (text, cause) in &STOPS {
        check_stop(&rt, text, *cause, 0x1008)?;
    }
    // Behind the last word, and jal zero, 0x800.
    check_stop(&rt, &[NOP, NOP], Cause::FetchOutside, 0x1008)?;
    check_stop(&rt, &[0x0010_006f], Cause::FetchOutside, 0x1800)
}

/// The cause of a word inside a transaction, if it has one there.
fn cause_inside(cause: Cause) -> Option<Cause> {
    match cause {
        Cause::BadCall | Cause::Breakpoint => Some(Cause::CallInTransaction),
        Cause::OutsideTransaction => None,
        _ => Some(cause),
    }
}

/// Words that stand before others: a transaction stores 7 over the 9 that was stored before.
#[rattlefmt::skip]
const BEGUN: [u32; 8] = [
    0x0090_0293, // li t0, 9
    0x0450_2023, // sw t0, 64(zero)
    0x0400_000b, // tbegin 64
    0x0070_0293, // li t0, 7
    0x0450_2023, // sw t0, 64(zero)
    NOP,
    NOP,
    NOP,
];

/// That a hart which is stopped for this cause in a transaction is rolled back first: it stands at the begin's abort, t0 and the word at 64 are as they
/// were before.
fn check_rolled_back(
    rt: &(impl Abort + AllocGlobal),
    words: &[u32; 3],
    cause: Cause,
) -> Result<(), Fail> {
    let mut text = BEGUN;
    text[5..].copy_from_slice(words);
    let end = only_end(rt, &text)?;
    let stopped = Status::Stopped(cause, Addr::new(0x101c));
    equal(
        rt,
        &end,
        &(stopped, 0x1048, 9, [Some(0), Some(0), Some(9), Some(0)]),
    );
    Ok(())
}

#[test]
fn a_hart_is_stopped_inside_transactions(rt: HostRuntime) -> Result<(), Fail> {
    for (words, cause) in &STOPS {
        if let Some(inside) = cause_inside(*cause) {
            check_rolled_back(&rt, words, inside)?;
        }
    }
    // li a7, 93; ecall
    let exit = [NOP, 0x05d0_0893, 0x0000_0073];
    check_rolled_back(&rt, &exit, Cause::CallInTransaction)
}
