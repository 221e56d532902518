//! The calls that workers make of a board and of their gate, in order.

use super::play::{TEN, booted, zero};
use crate::tests::claims::{equal, equal_items};
use board::{Board, Desk, End, Gate, Lease, Refusal, serve, work};
use loader::Program;
use reference::program;
use std::alloc::AllocError;
use std::cell::RefCell;
use std::process::Abort;
use std::sync::{Mutex, Wait};
use std::test::Fail;
use words::HartId;

type SmallLease<'p> = Lease<'p, 2, 1>;

#[derive(Clone, Copy, Debug, PartialEq, Eq)]
enum Call {
    Lend(HartId),
    LendAgain(HartId),
    Lent(HartId),
    Settle(HartId, usize),
    Visit(HartId),
    Settled(HartId),
}

/// A board that notes each call.
#[derive(Drop)]
struct Noted<'p> {
    board: Board<'p, 2, 1>,
    calls: RefCell<Vec<Call>>,
}

impl<'p> Noted<'p> {
    fn note(&self, call: Call) {
        if let Ok(mut calls) = self.calls.try_borrow_mut() {
            let _ = calls.push(call);
        }
    }
}

impl<'p> Desk for Noted<'p> {
    type Lease = SmallLease<'p>;

    ghost settles = { λ _ _ _ _. Unit };

    ghost visits = { λ _ _ _ _. Unit };

    ghost lends = { λ _ _ _. Unit };

    ghost lends_again = { λ _ _ _ _ _. Unit };

    fn lend(&self, id: HartId) -> Option<SmallLease<'p>> {
        self.note(Call::Lend(id));
        self.board.lend(id)
    }

    fn lend_again(&self, id: HartId, lease: &mut SmallLease<'p>) -> bool {
        self.note(Call::LendAgain(id));
        self.board.lend_again(id, lease)
    }

    fn settle(&mut self, lease: &SmallLease<'p>) -> Result<(), Refusal> {
        self.note(Call::Settle(lease.hart(), lease.len()));
        self.board.settle(lease)
    }

    fn visit(&mut self, id: HartId) -> Result<bool, AllocError> {
        self.note(Call::Visit(id));
        self.board.visit(id)
    }
}

fn desk<'p>(rt: &(impl Abort + AllocGlobal), program: &'p Program) -> Mutex<Noted<'p>> {
    Mutex::new(Noted {
        board: booted(rt, program, 1),
        calls: RefCell::new(Vec::new(rt.alloc())),
    })
}

/// Notes its own calls at the board, for which it has to find the lock free.
#[derive(Drop)]
struct Free<'d, 'p> {
    desk: &'d Mutex<Noted<'p>>,
    most: usize,
}

impl<'d, 'p> Free<'d, 'p> {
    /// Whether the lock was free.
    fn note(&self, call: Call) -> bool {
        match self.desk.try_lock() {
            Some(desk) => {
                desk.note(call);
                true
            }
            None => false,
        }
    }
}

impl<'d, 'p> Gate<SmallLease<'p>> for Free<'d, 'p> {
    fn lent(&self, hart: HartId, _turn: u64, lease: &mut SmallLease<'p>) -> bool {
        let free = self.note(Call::Lent(hart));
        lease.run(self.most);
        free
    }

    fn settled(&self, hart: HartId, _turn: u64) {
        let _free = self.note(Call::Settled(hart));
    }
}

/// Asserts how hart 0 ends after so many turns, of leases of so many steps, and which calls it makes.
fn check_calls(
    rt: &(impl Abort + Wait + AllocGlobal),
    program: &Program,
    (most, turns): (usize, u64),
    ends: End,
    calls: &[Call],
) {
    let desk = desk(rt, program);
    let end = work(rt, &desk, zero(), &Free { desk: &desk, most }, turns);
    equal(rt, &end, &Ok(ends));
    let noted = desk.into_inner().calls.into_inner();
    equal_items(rt, &noted, calls);
}

#[test]
fn the_lock_is_free_while_the_gate_is_called(rt: HostRuntime) -> Result<(), Fail> {
    let program = program(rt.alloc(), &TEN)?;
    let h = zero();
    let whole = [
        Call::Lend(h),
        Call::Lent(h),
        Call::Settle(h, 12),
        Call::Visit(h),
        Call::Settled(h),
    ];
    let none = [
        Call::Lend(h),
        Call::Lent(h),
        Call::Settle(h, 0),
        Call::Visit(h),
        Call::LendAgain(h),
        Call::Settled(h),
        Call::Lent(h),
        Call::Settle(h, 0),
        Call::Visit(h),
        Call::Settled(h),
    ];
    check_calls(&rt, &program, (64, 9), End::Stopped, &whole);
    check_calls(&rt, &program, (0, 2), End::Limit, &none);
    check_calls(&rt, &program, (64, 0), End::Limit, &[]);
    Ok(())
}
