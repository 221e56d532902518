//! A request, carried out: all but reading and writing files.
ghost use Rattle.std.specs.Prelude.{◌≡◌, ◌<◌, ◌*◌, ◌^◌, IsSome, MatchResult, option_map};
ghost use Rattle.words.specs.Sinks.{IsUntouched};
ghost use Rattle.machine.specs.States.{geometry};
ghost use Rattle.requests.specs.FileRequests.{cache_of};
ghost use Rattle.simulate.specs.Carried.{IsCarriedOut, IsDoneOn, IsNotDoneOn, RunGives, RunFails, asked_for};

use crate::debugging::play_by_hand;
use crate::kept::{run_and_keep, run_by_chance};
use crate::steps::run_by_steps;
use crate::threads::run_in_threads;
use command_line::{Cache, Request, Run, Way};
use debugger::LineInput;
use requests::{Buffered, Fault, Live, Outcome, on_file};
use schedule::Turns;
use std::alloc::Global;
use std::sync::Wait;
use std::thread::Threads;
use timeline::Chart;
use words::Sink;

/// Carries out a request, given the bytes of its file and those of its schedule, none where it has none. What it asks for goes into `out`, and into
/// `chart`, whose sink stands for the file of a view, of a history or of a run to an outcome; what the user is told goes into `error`. A program that is played by hand reads
/// `input`, and asks for each line by a prompt. The progress of a run by turns is told while it goes on, unless its trace goes into `out`.
///
/// Memory may run out at any time, which gives 6: no clause says when.
pub fn carry_out<R: Threads + Wait + Sync, I: LineInput, P: Live, T: Buffered, O: Sink, E: Sink>(
    rt: &R,
    alloc: Global,
    request: &Request<'_>,
    file: &[u8],
    schedule: &[u8],
    input: &mut I,
    prompt: &str,
    progress: &mut P,
    chart: &mut Chart<T>,
    out: &mut O,
    error: &mut E,
) -> Outcome
    ensures { IsCarriedOut I.gives file.now schedule.now prompt.now input.old input.new
        (record { output = O.state out.old; file = T.state chart.old.sink }) (record { output = O.state out.new; file = T.state chart.new.sink })
        (E.state error.old) (E.state error.new) request.now result.status (option_map (λ image. image.items) result.image) }
{
    let carried = try_carry_out(
        rt, alloc, request, file, schedule, input, prompt, progress, chart, out, error,
    );
    match carried {
        Ok(outcome) => outcome,
        Err(fault) => Outcome {
            status: fault.tell(error),
            image: None,
        },
    }
}

/// Carries out a request, without telling of a fault.
fn try_carry_out<
    'a,
    R: Threads + Wait + Sync,
    I: LineInput,
    P: Live,
    T: Buffered,
    O: Sink,
    E: Sink,
>(
    rt: &R,
    alloc: Global,
    request: &Request<'a>,
    file: &'a [u8],
    schedule: &[u8],
    input: &mut I,
    prompt: &str,
    progress: &mut P,
    chart: &mut Chart<T>,
    out: &mut O,
    error: &mut E,
) -> Result<Outcome, Fault<'a>>
    ensures { MatchResult result
        (λ o. IsDoneOn (asked_for request.now) I.gives file.now schedule.now prompt.now input.old input.new
        (record { output = O.state out.old; file = T.state chart.old.sink }) (record { output = O.state out.new; file = T.state chart.new.sink })
        (E.state error.old) (E.state error.new) request.now o.status (option_map (λ image. image.items) o.image))
        (λ fault. IsNotDoneOn (asked_for request.now) file.now schedule.now input.old input.new
        (record { output = O.state out.old; file = T.state chart.old.sink }) (record { output = O.state out.new; file = T.state chart.new.sink })
        request.now fault × IsUntouched (E.state error.old) (E.state error.new)) }
{
    // Each size has the machine's code compiled once more.
    macro_rules! on_caches {
        ($sets:literal, $ways:literal) => {
            on_machine::<$sets, $ways, R, I, P, T, O, E>(
                rt, alloc, request, file, schedule, input, prompt, progress, chart, out, error,
            )
        };
    }
    match cache_of(request) {
        Some(Cache::OneByOne) => on_caches!(1, 1),
        Some(Cache::OneByTwo) => on_caches!(1, 2),
        Some(Cache::Small) => on_caches!(2, 1),
        Some(Cache::TwoByTwo) => on_caches!(2, 2),
        Some(Cache::FourByOne) => on_caches!(4, 1),
        Some(Cache::FourByTwo) => on_caches!(4, 2),
        Some(Cache::EightByTwo) => on_caches!(8, 2),
        Some(Cache::EightByFour) => on_caches!(8, 4),
        Some(Cache::Normal) => on_caches!(16, 4),
        Some(Cache::SixtyFourByFour) => on_caches!(64, 4),
        Some(Cache::SixtyFourByEight) => on_caches!(64, 8),
        None => on_file(alloc, request, file, progress, &mut chart.sink, out),
    }
}

/// The cache that a request asks for, where it is carried out on a machine.
fn cache_of(request: &Request<'_>) -> Option<Cache>
    ensures { result ≡ cache_of request.now }
{
    match request {
        Request::Run(run) => Some(run.setup.cache),
        Request::Debug(setup) => Some(setup.cache),
        Request::Outcomes(_) | Request::Dis { .. } | Request::Asm { .. } => None,
    }
}

/// Carries out a request on a machine with caches of SETS sets of WAYS ways.
fn on_machine<
    'a,
    const SETS: usize,
    const WAYS: usize,
    R,
    I,
    P: Live,
    T: Buffered,
    O: Sink,
    E: Sink,
>(
    rt: &R,
    alloc: Global,
    request: &Request<'a>,
    file: &'a [u8],
    schedule: &[u8],
    input: &mut I,
    prompt: &str,
    progress: &mut P,
    chart: &mut Chart<T>,
    out: &mut O,
    error: &mut E,
) -> Result<Outcome, Fault<'a>>
where
    R: Threads + Wait + Sync,
    I: LineInput,
    requires sets { 0 < SETS }
    requires ways { 0 < WAYS }
    requires lines { SETS * WAYS < 2 ^ 32 }
    requires machine { IsSome (cache_of request.now) }
    ensures { MatchResult result
        (λ o. IsDoneOn (geometry SETS WAYS) I.gives file.now schedule.now prompt.now input.old input.new
        (record { output = O.state out.old; file = T.state chart.old.sink }) (record { output = O.state out.new; file = T.state chart.new.sink })
        (E.state error.old) (E.state error.new) request.now o.status (option_map (λ image. image.items) o.image))
        (λ fault. IsNotDoneOn (geometry SETS WAYS) file.now schedule.now input.old input.new
        (record { output = O.state out.old; file = T.state chart.old.sink }) (record { output = O.state out.new; file = T.state chart.new.sink })
        request.now fault × IsUntouched (E.state error.old) (E.state error.new)) }
{
    let status = match request {
        Request::Run(run) => make_run::<SETS, WAYS, R, P, T, O>(
            rt, alloc, run, file, schedule, progress, chart, out,
        )?,
        Request::Debug(setup) => play_by_hand::<SETS, WAYS, I, O, E>(
            alloc, setup, file, input, prompt, out, error,
        )?,
        Request::Outcomes(_) | Request::Dis { .. } | Request::Asm { .. } => unreachable!(),
    };
    Ok(Outcome {
        status,
        image: None,
    })
}

/// Makes a run in its way.
fn make_run<'a, const SETS: usize, const WAYS: usize, R, P: Live, T: Buffered, O: Sink>(
    rt: &R,
    alloc: Global,
    run: &Run<'a>,
    file: &'a [u8],
    schedule: &[u8],
    progress: &mut P,
    chart: &mut Chart<T>,
    out: &mut O,
) -> Result<u8, Fault<'a>>
where
    R: Threads + Wait + Sync,
    requires sets { 0 < SETS }
    requires ways { 0 < WAYS }
    requires lines { SETS * WAYS < 2 ^ 32 }
    ensures { MatchResult result
        (RunGives (geometry SETS WAYS) run.now file.now schedule.now
        (record { output = O.state out.old; file = T.state chart.old.sink }) (record { output = O.state out.new; file = T.state chart.new.sink }) run.now.way)
        (RunFails (geometry SETS WAYS) run.now file.now schedule.now
        (record { output = O.state out.old; file = T.state chart.old.sink }) (record { output = O.state out.new; file = T.state chart.new.sink }) run.now.way) }
{
    match run.way {
        Way::Turns { show, .. } => run_by_steps::<SETS, WAYS, Turns, P, T, O>(
            alloc, run, show, &mut Turns, file, schedule, progress, chart, out,
        ),
        Way::Chance { chance, show, .. } => run_by_chance::<SETS, WAYS, P, T, O>(
            alloc, run, chance, show, file, schedule, progress, chart, out,
        ),
        Way::Kept {
            chance,
            history,
            print,
            ..
        } => run_and_keep::<SETS, WAYS, P, T, O>(
            alloc, run, chance, history, print, file, schedule, progress, chart, out,
        ),
        Way::Threads { history } => {
            let page = &mut chart.sink;
            run_in_threads::<SETS, WAYS, R, T, O>(rt, alloc, run, history, file, page, out)
        }
    }
}
