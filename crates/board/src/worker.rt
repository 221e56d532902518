ghost use Rattle.std.specs.Prelude.{◌≡◌, ◌≤◌, IfOk};
ghost use Rattle.arrayvec.specs.ArrayVec.{array_vec_len};
ghost use Rattle.words.specs.Limits.{most_harts};

use crate::desk::{Desk, Gate};
use crate::end::End;
use arrayvec::ArrayVec;
use std::alloc::AllocError;
use std::sync::{Mutex, MutexGuard, Wait};
use std::thread::Threads;
use std::{hint, thread};
use words::{HARTS, HartId};

/// How often a worker looks for a free lock before it lets other threads run between its looks. Most turns give the lock back within that time.
const LOOKS: usize = 100;

/// How long it pauses between them, in pauses of the processor.
const PAUSES: usize = 4;

/// How often it looks then, before it sleeps. To wake a sleeper costs far more than most turns take, so workers that handed the lock from
/// sleeper to sleeper would make each turn wait for that.
const YIELDS: usize = 300;

/// Waits for a moment between two looks, each of which takes the lock's word from the processor that has it.
fn pause() {
    for _ in 0..PAUSES {
        hint::spin_loop();
    }
}

/// The lock: looked for a while, then yielded for, and at last slept for.
fn locked<'d, D, R: Wait>(rt: &R, desk: &'d Mutex<D>) -> MutexGuard<'d, D> {
    for look in 0..LOOKS + YIELDS {
        if let Some(held) = desk.try_lock() {
            return held;
        }
        if look < LOOKS {
            pause();
        } else {
            thread::yield_now();
        }
    }
    desk.lock(rt)
}

/// Turns of one hart: it is lent, the gate runs the lease, it is settled and the hart visited. A stale lease is let go, and the hart visited all
/// the same. One lease serves all turns: from the second on the hart is lent in its place, under the lock of the turn before.
pub fn work<D: Desk, G: Gate<D::Lease>, R: Wait>(
    rt: &R,
    desk: &Mutex<D>,
    id: HartId,
    gate: &G,
    turns: u64,
) -> Result<End, AllocError> {
    if turns == 0 {
        return Ok(End::Limit);
    }
    let lent = locked(rt, desk).lend(id);
    let Some(mut lease) = lent else {
        return Ok(End::Stopped);
    };
    for turn in 0..turns {
        if !gate.lent(id, turn, &mut lease) {
            return Ok(End::Shut);
        }
        let is_last = turn + 1 == turns;
        let mut held = locked(rt, desk);
        let runs = held.finish_turn(id, &mut lease, is_last)?;
        drop(held);
        gate.settled(id, turn);
        if !runs {
            return Ok(End::Stopped);
        }
    }
    Ok(End::Limit)
}

/// The work of each of so many harts, in threads, and how each ended, in their order. The caller itself serves a hart for which no thread could be
/// started. It fails if memory ran out for one of them.
pub fn serve<D: Desk + Send, G: Gate<D::Lease> + Sync, R: Threads + Wait + Sync>(
    rt: &R,
    desk: &Mutex<D>,
    harts: usize,
    gate: &G,
    turns: u64,
) -> Result<ArrayVec<End, HARTS>, AllocError>
where
    D::Lease: Send,
    requires { harts ≤ most_harts }
    ensures { IfOk result (λ ends. array_vec_len ends ≡ harts) }
{
    let mut all = [Ok(End::Limit); HARTS];
    let places = &mut all[..harts];
    if harts > 0 {
        thread::for_each_mut(
            rt,
            places,
            harts,
            &|i, end| {
                if let Some(id) = HartId::try_new(i) {
                    *end = work(rt, desk, id, gate, turns);
                }
            },
        );
    }
    let mut ends = ArrayVec::new();
    for end in places.iter() {
        ends.push((*end)?);
    }
    Ok(ends)
}
