mod checks;
mod moves;
mod rows;

use moves::{ONES, block, one};
use rows::{Row, check};
use std::test::Fail;
use words::{
    AbortCause, Access, Addr, Block, BlockNo, Cause, Entry, Kind, LineState, Reg, Status, Width,
};

const LUI_X7_3: u32 = 0x0000_33b7;

const ADDI_X5_7: u32 = 0x0070_0293;

/// `lw x6, 0(x7)`
const LOAD: u32 = 0x0003_a303;

/// `sw x5, 0(x7)`
const STORE: u32 = 0x0053_a023;

/// `lw x6, 64(x7)`: in a cache of two sets the block is one of the same set.
const LOAD_BESIDE: u32 = 0x0403_a303;

/// `lw x6, 32(x7)`: the next block.
const LOAD_NEXT: u32 = 0x0203_a303;

/// `tbegin 0`
const TBEGIN: u32 = 0x0000_000b;

const TCOMMIT: u32 = 0x0000_100b;

const TABORT: u32 = 0x0000_200b;

const ECALL: u32 = 0x0000_0073;

/// The block of ones once the word 7 is stored at its beginning.
const SEVEN_AND_ONES: Block = [7, 1, 1, 1, 1, 1, 1, 1];

#[test]
fn a_store_outside_a_transaction(rt: HostRuntime) -> Result<(), Fail> {
    let store = Entry::Retire {
        hart: one(),
        pc: Addr::new(0x1008),
        word: STORE,
        write: None,
        load: None,
        store: Some(Access {
            addr: Addr::new(0x3000),
            width: Width::Word,
            value: 7,
        }),
    };
    let behind = Addr::new(0x1010);
    let trap = Entry::Trap {
        hart: one(),
        cause: Cause::Illegal,
        pc: behind,
    };
    let rows = [
        Row::Register(2, 65_536 - 2 * 4096 - 4096),
        Row::Register(10, 1),
        Row::Register(11, 2),
        Row::Retires(2),
        Row::Takes(Kind::Write, LineState::Modified),
        Row::Gives(store),
        Row::Fresh(false),
        Row::Owned(SEVEN_AND_ONES),
        // Nobody has used the line in a transaction, so it is shared, with its content.
        Row::Shares(SEVEN_AND_ONES),
        Row::Line(Some(LineState::Shared)),
        Row::Retires(1),
        Row::Register(6, 7),
        // Zeros are no instruction.
        Row::Gives(trap),
        Row::Status(Status::Stopped(Cause::Illegal, behind)),
        Row::Stands,
    ];
    check(&rt, &[LUI_X7_3, ADDI_X5_7, STORE, LOAD], &rows)
}

#[test]
fn an_aborted_transaction(rt: HostRuntime) -> Result<(), Fail> {
    let abort = Entry::Abort {
        hart: one(),
        cause: AbortCause::Asked,
    };
    let rows = [
        Row::Retires(1),
        Row::Begins(9, true),
        Row::Takes(Kind::Read, LineState::Exclusive),
        Row::Retires(1),
        // It has read the block: a later one may read it too, and an earlier one that writes is refused.
        Row::Allows(Kind::Read, Some(10)),
        Row::Refuses(Kind::Write, Some(8)),
        Row::Cycle(true),
        // The line is shared now: the store asks for it, logs it and marks it.
        Row::Takes(Kind::Write, LineState::Modified),
        Row::Retires(1),
        Row::Logged(ONES),
        Row::StepsQuietly,
        // The record goes back, and others are kept out until the end.
        Row::StepsQuietly,
        Row::Owned(ONES),
        Row::Refuses(Kind::Read, None),
        Row::Gives(abort),
        Row::Pc(0x1004),
        Row::Allows(Kind::Read, None),
        // The next begin takes the stamp that is kept.
        Row::KeepsStamp,
        Row::Begins(11, false),
    ];
    check(&rt, &[LUI_X7_3, TBEGIN, LOAD, STORE, TABORT], &rows)
}

#[test]
fn a_spill_in_a_transaction(rt: HostRuntime) -> Result<(), Fail> {
    let beside = BlockNo::new(0x182);
    let rows = [
        Row::Retires(2),
        Row::Takes(Kind::Read, LineState::Exclusive),
        Row::Retires(1),
        // The set has one way: its line makes way first.
        Row::Spills,
        Row::Line(None),
        Row::Refuses(Kind::Write, None),
        // Then the other block is asked for; it is refused by a later transaction, and asked for again.
        Row::Asks,
        Row::IsRefused(beside, 10),
        Row::EndsRefused(beside),
        Row::Aborting(None),
        Row::PutOut(true),
        Row::PutOver,
        Row::PutOut(false),
        Row::Asks,
    ];
    check(&rt, &[LUI_X7_3, TBEGIN, LOAD, LOAD_BESIDE, TCOMMIT], &rows)
}

#[test]
fn a_refused_transaction_gives_way(rt: HostRuntime) -> Result<(), Fail> {
    let next = BlockNo::new(0x181);
    let rows = [
        Row::Retires(2),
        Row::Takes(Kind::Read, LineState::Shared),
        Row::Retires(1),
        Row::Refuses(Kind::Write, Some(8)),
        Row::Asks,
        Row::Waits(next),
        Row::IsRefused(next, 8),
        Row::Aborting(Some(AbortCause::Conflict)),
    ];
    check(&rt, &[LUI_X7_3, TBEGIN, LOAD, LOAD_NEXT], &rows)
}

#[test]
fn what_a_hart_does_by_itself(rt: HostRuntime) -> Result<(), Fail> {
    let lui = Entry::Retire {
        hart: one(),
        pc: Addr::new(0x1000),
        word: LUI_X7_3,
        write: Some((Reg::new(7), 0x3000)),
        load: None,
        store: None,
    };
    let rows = [
        Row::GivesAlone(lui),
        // The block has to be asked for.
        Row::NeedsMachine,
        Row::Takes(Kind::Read, LineState::Exclusive),
        Row::RetiresAlone,
        // An outermost transaction takes a stamp.
        Row::NeedsMachine,
        Row::Retires(1),
        Row::RetiresAlone,
        Row::RetiresAlone,
        Row::Depth(1),
        // A call inside a transaction traps.
        Row::NeedsMachine,
    ];
    check(
        &rt,
        &[LUI_X7_3, LOAD, TBEGIN, TBEGIN, TCOMMIT, ECALL],
        &rows,
    )
}

#[test]
fn the_two_calls(rt: HostRuntime) -> Result<(), Fail> {
    let rows = [
        Row::Retires(1),
        Row::NeedsMachine,
        Row::Calls(Some(1)),
        Row::Retires(1),
        Row::Calls(None),
        Row::Status(Status::Exited(1)),
        Row::NeedsMachine,
    ];
    // addi a7, zero, 1; ecall; addi a7, zero, 93; ecall
    check(&rt, &[0x0010_0893, ECALL, 0x05d0_0893, ECALL], &rows)
}
