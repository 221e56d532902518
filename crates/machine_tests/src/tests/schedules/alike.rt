use super::machines::{peek, raw, regs, tx, view};
use crate::tests::claims::{equal, equal_at, holds_at};
use flat::Engine;
use machine::Machine;
use reference::Machine as Checker;
use std::process::Abort;
use words::{Addr, HartId};

/// Whether a hart's transaction is being aborted.
fn is_aborting<const SETS: usize, const WAYS: usize>(
    machine: &Machine<SETS, WAYS>,
    hart: HartId,
) -> bool {
    match tx(machine, hart) {
        Some(tx) => tx.aborting.is_some(),
        None => false,
    }
}

/// Whether no hart's transaction is being aborted.
fn none_aborts<const SETS: usize, const WAYS: usize>(machine: &Machine<SETS, WAYS>) -> bool {
    for number in 0..8 {
        if is_aborting(machine, HartId::new(number)) {
            return false;
        }
    }
    true
}

/// That a word is one as a hart sees it. A hart that is being aborted has nothing of its own in the plain machine any more.
fn check_view<const SETS: usize, const WAYS: usize>(
    rt: &impl Abort,
    machine: &Machine<SETS, WAYS>,
    checker: &Checker,
    hart: HartId,
    addr: Addr,
) {
    if !is_aborting(machine, hart) {
        equal_at(
            rt,
            &view(machine, hart, addr),
            &checker.view(hart, addr),
            &addr,
        );
    }
}

/// That the words at an address are one, as every hart sees them and in place. What a hart wrote that is being aborted is still in place: so
/// the word in place is compared only where no hart aborts.
fn check_word<const SETS: usize, const WAYS: usize>(
    rt: &impl Abort,
    machine: &Machine<SETS, WAYS>,
    checker: &Checker,
    addr: Addr,
) {
    equal_at(rt, &peek(machine, addr), &checker.peek(addr), &addr);
    for number in 0..8 {
        check_view(rt, machine, checker, HartId::new(number), addr);
    }
    if none_aborts(machine) {
        equal_at(rt, &raw(machine, addr), &checker.raw(addr), &addr);
    }
}

/// That the harts of both machines have the same registers, pc, status and output.
fn check_harts<const SETS: usize, const WAYS: usize>(
    rt: &impl Abort,
    machine: &Machine<SETS, WAYS>,
    checker: &Checker,
) {
    for number in 0..8 {
        let hart = HartId::new(number);
        holds_at(rt, regs(machine, hart) == checker.regs(hart), &number);
        if hart.index() < machine.harts() && hart.index() < checker.harts() {
            equal(rt, &machine.output(hart), &checker.output(hart));
        }
    }
}

/// That the coherent machine shows what the plain one does: the size, the harts, and the words of memory, one of each block and all of
/// those at 0x2000 and 0x2040.
pub(crate) fn check_alike<const SETS: usize, const WAYS: usize>(
    rt: &impl Abort,
    machine: &Machine<SETS, WAYS>,
    checker: &Checker,
) {
    equal(rt, &machine.harts(), &checker.harts());
    equal(rt, &machine.size(), &checker.size());
    check_harts(rt, machine, checker);
    for block in 0..400 {
        check_word(rt, machine, checker, Addr::new(32 * block));
    }
    for word in 0..32 {
        check_word(rt, machine, checker, Addr::new(0x2000 + 4 * word));
    }
    check_word(rt, machine, checker, Addr::new(0x2002));
}
