ghost use Rattle.std.specs.Prelude.{◌≡◌, ◌≤◌, ◌<◌, ◌*◌, ◌^◌, ◌⊎◌, MatchResult, OnErr};
ghost use Rattle.words.specs.Limits.{most_harts};
ghost use Rattle.machine.specs.States.{geometry};
ghost use Rattle.board.specs.Turns.{IsDone, IsServedEnd};
ghost use Rattle.requests.specs.declared.fault.Fault.TheVariants.{NoMemory, Exchanged};

use board::{Finished, Gate, Journal, Lease, Served, Trace, Untraced, serve};
use loader::Program;
use requests::Fault;
use std::alloc::{AllocError, Global};
use std::sync::{Mutex, Wait};
use std::thread::Threads;
use words::HartId;

/// Runs each lease as far as is worth while.
#[derive(Drop)]
struct Whole;

impl<'p, const SETS: usize, const WAYS: usize, T: Trace<SETS, WAYS>> Gate<Lease<'p, SETS, WAYS, T>>
    for Whole {
    fn lent(&self, _hart: HartId, _turn: u64, lease: &mut Lease<'p, SETS, WAYS, T>) -> bool {
        let pace = lease.pace();
        lease.run(pace);
        true
    }

    /// The next turn is made at once.
    fn settled(&self, _hart: HartId, _turn: u64) {}
}

/// Runs each hart of a board in a thread of its own, each until it doesn't run any more or has had so many turns: it is lent, makes up to 4,096 steps by
/// itself, comes back, and is visited. The caller itself serves a hart for which no thread could be started. The board stands apart from its lock, and
/// what comes back from it is looked at: it has to be one of this program, and no turn may be left.
pub(crate) fn run_board<
    'p,
    'a,
    const SETS: usize,
    const WAYS: usize,
    J: Journal<SETS, WAYS, Trace = Untraced> + Send,
    R: Threads + Wait + Sync,
>(
    rt: &R,
    alloc: Global,
    board: Served<'p, SETS, WAYS, J>,
    program: &Program,
    harts: u32,
    size: u32,
    turns: u64,
) -> Result<Finished<'p, SETS, WAYS, J>, Fault<'a>>
where
    J::Trace: Send,
    requires ways { 0 < WAYS }
    requires lines { SETS * WAYS < 2 ^ 32 }
    requires few { harts ≤ most_harts }
    ensures { MatchResult result (λ end. IsServedEnd (geometry SETS WAYS) program.now harts size (J.tells end.journal) turns end.machine)
        (λ fault. (fault ≡ NoMemory) ⊎ (fault ≡ Exchanged)) }
{
    let desk = locked(alloc, board)?;
    serve::<Box<Served<'p, SETS, WAYS, J>>, Whole, R>(rt, &desk, harts as usize, &Whole, turns)?;
    if_of(
        Box::into_inner(desk.into_inner()),
        program,
        harts,
        size,
        turns,
    )
}

/// A board, apart from its lock. It fails only if memory runs out.
fn locked<'p, const SETS: usize, const WAYS: usize, J: Journal<SETS, WAYS> + Send>(
    alloc: Global,
    board: Served<'p, SETS, WAYS, J>,
) -> Result<Mutex<Box<Served<'p, SETS, WAYS, J>>>, AllocError> {
    match Box::new(alloc, board) {
        Ok(board) => Ok(Mutex::new(board)),
        Err(error) => Err(error.into()),
    }
}

/// What a board was, if it was one of this program, number of harts and size, and each hart that still runs has had just so many turns.
fn if_of<'p, 'a, const SETS: usize, const WAYS: usize, J: Journal<SETS, WAYS>>(
    board: Served<'p, SETS, WAYS, J>,
    program: &Program,
    harts: u32,
    size: u32,
    turns: u64,
) -> Result<Finished<'p, SETS, WAYS, J>, Fault<'a>>
    ensures end { MatchResult result (λ end. IsServedEnd (geometry SETS WAYS) program.now harts size (J.tells end.journal) turns end.machine) (λ fault. fault ≡ Exchanged) }
    // It is answered unless it was another's, or turns are left.
    ensures exchanged { OnErr result (IsDone turns board.entry × (board.entry.board.program ≡ program.now) × (board.entry.board.harts ≡ harts) × (board.entry.board.size ≡ size) → ⊥) }
{
    let is_done = board.is_done(turns);
    let end = board.finish();
    if is_done && end.harts == harts && end.size == size && end.program.same(program) {
        Ok(end)
    } else {
        Err(Fault::Exchanged)
    }
}
