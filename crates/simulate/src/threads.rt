//! A run whose harts are in threads of the host: all but reading and writing files.
ghost use Rattle.std.specs.Prelude.{◌≡◌, ◌<◌, ◌*◌, ◌^◌, None, Some, ℕ, List, MatchResult, OnOk};
ghost use Rattle.words.specs.Sinks.{SinkState, TookAll};
ghost use Rattle.table.specs.Slots.{AreWordsOf};
ghost use Rattle.machine.specs.States.{geometry, setting_of};
ghost use Rattle.board.specs.Histories.{no_step};
ghost use Rattle.schedule.specs.Written.{text_of};
ghost use Rattle.texts.specs.Puts.{Puts};
ghost use Rattle.requests.specs.Buffers.{IsHandedOn};
ghost use Rattle.requests.specs.Conclusions.{IsConcluded, IsHistoryUnput, IsHalfPut};
ghost use Rattle.render.specs.Reports.{AllReadable};
ghost use Rattle.requests.specs.Sources.{IsProgramIn, IsProgramFault};
ghost use Rattle.simulate.specs.Threaded.{IsReady, IsUnready, IsGivenInThreads, IsNotGivenInThreads};

use crate::serving::run_board;
use board::{Code, Finished, Journal, Served, Unkept};
use command_line::Run;
use loader::Program;
use requests::conclude::conclude;
use requests::readable::readable;
use requests::source::program_in;
use requests::{Buffered, Fault};
use schedule::{History, put_history, written_choices_are_read};
use std::alloc::Global;
use std::sync::Wait;
use std::thread::Threads;
use table::DecodedText;
use words::{Addr, Sink, SinkFault};

/// Runs each hart of the program in a file in a thread of its own, given the bytes of the file, and puts the report into `out`. Before the report it puts the
/// history of the run into `page`, which stands for the file at a path, where there is one: a schedule that makes this run. It answers the status that the
/// program ends with.
///
/// A hart has as many turns as the run has steps: on a turn it makes up to 4,096 steps by itself, and then what it asks of the machine is done, with what
/// is owed by then.
pub(crate) fn run_in_threads<
    'a,
    const SETS: usize,
    const WAYS: usize,
    R: Threads + Wait + Sync,
    T: Buffered,
    O: Sink,
>(
    rt: &R,
    alloc: Global,
    run: &Run<'a>,
    history: Option<&'a str>,
    file: &'a [u8],
    page: &mut T,
    out: &mut O,
) -> Result<u8, Fault<'a>>
    requires sets { 0 < SETS }
    requires ways { 0 < WAYS }
    requires lines { SETS * WAYS < 2 ^ 32 }
    ensures { MatchResult result
        (IsGivenInThreads (geometry SETS WAYS) run.now history.entry file.now
        (record { output = O.state out.old; file = T.state page.old }) (record { output = O.state out.new; file = T.state page.new }))
        (IsNotGivenInThreads (geometry SETS WAYS) run.now history.entry file.now
        (record { output = O.state out.old; file = T.state page.old }) (record { output = O.state out.new; file = T.state page.new })) }
{
    let decoded = decode(alloc, run, file)?;
    let code = decoded.code();
    match history {
        Some(path) => run_kept::<SETS, WAYS, R, T, O>(rt, alloc, run, path, code, page, out),
        None => run_unkept::<SETS, WAYS, R, O>(rt, alloc, run, code, out),
    }
}

/// Runs a decoded program, and keeps no history.
fn run_unkept<'a, const SETS: usize, const WAYS: usize, R: Threads + Wait + Sync, O: Sink>(
    rt: &R,
    alloc: Global,
    run: &Run<'a>,
    code: Code<'_>,
    out: &mut O,
) -> Result<u8, Fault<'a>>
    requires sets { 0 < SETS }
    requires ways { 0 < WAYS }
    requires lines { SETS * WAYS < 2 ^ 32 }
    ensures { (file : List ℕ) (page : SinkState) → IsProgramIn run.now.setup.file.now file code.entry.program.now → MatchResult result
        (IsGivenInThreads (geometry SETS WAYS) run.now None file (record { output = O.state out.old; file = page }) (record { output = O.state out.new; file = page }))
        (IsNotGivenInThreads (geometry SETS WAYS) run.now None file (record { output = O.state out.old; file = page }) (record { output = O.state out.new; file = page })) }
{
    let Ready { board, addrs } = make_ready::<SETS, WAYS, Unkept>(alloc, run, code, Unkept)?;
    let (harts, memory, turns) = (run.setup.harts, run.setup.memory, u64::from(run.steps));
    let end = run_board(rt, alloc, board, code.program, harts, memory, turns)?;
    written_choices_are_read();
    conclude(&end.machine, &addrs, out)
}

/// Runs a decoded program, and puts its history before the report.
fn run_kept<
    'a,
    const SETS: usize,
    const WAYS: usize,
    R: Threads + Wait + Sync,
    T: Buffered,
    O: Sink,
>(
    rt: &R,
    alloc: Global,
    run: &Run<'a>,
    path: &'a str,
    code: Code<'_>,
    page: &mut T,
    out: &mut O,
) -> Result<u8, Fault<'a>>
    requires sets { 0 < SETS }
    requires ways { 0 < WAYS }
    requires lines { SETS * WAYS < 2 ^ 32 }
    ensures { (file : List ℕ) → IsProgramIn run.now.setup.file.now file code.entry.program.now → MatchResult result
        (IsGivenInThreads (geometry SETS WAYS) run.now (Some path.entry) file
        (record { output = O.state out.old; file = T.state page.old }) (record { output = O.state out.new; file = T.state page.new }))
        (IsNotGivenInThreads (geometry SETS WAYS) run.now (Some path.entry) file
        (record { output = O.state out.old; file = T.state page.old }) (record { output = O.state out.new; file = T.state page.new })) }
{
    let journal = History::new(alloc);
    let Ready { board, addrs } = make_ready::<SETS, WAYS, History>(alloc, run, code, journal)?;
    let (harts, memory, turns) = (run.setup.harts, run.setup.memory, u64::from(run.steps));
    let end = run_board(rt, alloc, board, code.program, harts, memory, turns)?;
    written_choices_are_read();
    keep_and_conclude(&end, &addrs, path, page, out)
}

/// Puts the history of a run, and has it written out, and then puts the report. It answers the status.
fn keep_and_conclude<'a, const SETS: usize, const WAYS: usize, T: Buffered, O: Sink>(
    end: &Finished<'_, SETS, WAYS, History>,
    addrs: &[Addr],
    path: &'a str,
    page: &mut T,
    out: &mut O,
) -> Result<u8, Fault<'a>>
    requires { AllReadable (setting_of end.now.machine) addrs.now }
    ensures { MatchResult result
        (λ status. TookAll (T.state page.old) (T.state page.new) (text_of end.now.journal.choices)
        × IsConcluded (geometry SETS WAYS) end.now.machine addrs.now (O.state out.old) (O.state out.new) status)
        (IsHalfPut (geometry SETS WAYS) end.now.machine addrs.now (text_of end.now.journal.choices) path.entry (T.state page.old) (T.state page.new)
        (O.state out.old) (O.state out.new)) }
{
    keep(&end.journal, path, page)?;
    conclude(&end.machine, addrs, out)
}

/// A program and its words, decoded.
#[derive(Drop)]
struct Decoded {
    program: Program,
    words: DecodedText,
    ghost same: { AreWordsOf program.segments words.base words.slots.items },
}

impl Decoded {
    /// What harts are lent with.
    fn code(&self) -> Code<'_>
        ensures { result.program.now ≡ self.now.program }
    {
        Code::decoded(&self.program, &self.words)
    }
}

/// The program in a file, decoded.
fn decode<'a>(alloc: Global, run: &Run<'a>, file: &'a [u8]) -> Result<Decoded, Fault<'a>>
    ensures { MatchResult result (λ decoded. IsProgramIn run.now.setup.file.now file.now decoded.program) (IsProgramFault run.now.setup.file.now file.now) }
{
    let program = program_in(alloc, run.setup.file, file)?;
    let words = DecodedText::new(alloc, program.segments(), program.entry())?;
    Ok(Decoded { program, words })
}

/// A board before the first turn, and the addresses of the words to show.
#[derive(Drop)]
struct Ready<'p, const SETS: usize, const WAYS: usize, J: Journal<SETS, WAYS>> {
    board: Served<'p, SETS, WAYS, J>,
    addrs: Vec<Addr>,
}

/// Boots a program, and finds the words to show.
fn make_ready<'p, 'a, const SETS: usize, const WAYS: usize, J: Journal<SETS, WAYS>>(
    alloc: Global,
    run: &Run<'a>,
    code: Code<'p>,
    journal: J,
) -> Result<Ready<'p, SETS, WAYS, J>, Fault<'a>>
    requires sets { 0 < SETS }
    requires ways { 0 < WAYS }
    requires lines { SETS * WAYS < 2 ^ 32 }
    requires told { J.tells journal no_step }
    ensures { MatchResult result (λ r. IsReady run.now code.entry.program.now r.addrs.items) (IsUnready run.now code.entry.program.now) }
{
    let board: Served<'p, SETS, WAYS, J> = Served::boot(
        alloc,
        code,
        run.setup.harts,
        run.setup.memory,
        journal,
    )?;
    let addrs = readable(alloc, board.machine(), &run.words)?;
    Ok(Ready { board, addrs })
}

/// Puts a history, and has it written out. If that fails, the fault names the path of its file.
fn keep<'a, T: Buffered>(history: &History, path: &'a str, page: &mut T) -> Result<(), Fault<'a>>
    ensures { MatchResult result
        (λ _. TookAll (T.state page.old) (T.state page.new) (text_of history.now.choices))
        (IsHistoryUnput (text_of history.now.choices) path.entry (T.state page.old) (T.state page.new)) }
{
    match put_whole(history, page) {
        Ok(()) => Ok(()),
        Err(_) => Err(Fault::Unmade(path)),
    }
}

/// Puts a history, and has it written out.
fn put_whole<T: Buffered>(history: &History, page: &mut T) -> Result<(), SinkFault>
    ensures puts { Puts (T.state page.old) (T.state page.new) (text_of history.now.choices) result }
    ensures written { OnOk result (IsHandedOn (T.handed page.new) (T.kept page.new) (T.state page.new)) }
{
    put_history(page, history)?;
    page.flush()
}
