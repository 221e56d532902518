//! The words of a command line, answered.
ghost use Rattle.std.specs.Prelude.{◌≡◌, ◌⊎◌, [], IfOk, MatchResult, OnOk, map};
ghost use Rattle.std.specs.Option.{option_map};
ghost use Rattle.words.specs.Sinks.{IsPut, TookPart};
ghost use Rattle.texts.specs.Puts.{Puts};
ghost use Rattle.render.specs.Statuses.{IsReported};
ghost use Rattle.requests.specs.Buffers.{IsHandedOn};
ghost use Rattle.requests.specs.NamedFiles.{page_of, IsUnbegunIf};
ghost use Rattle.simulate.specs.Answered.{IsUnreadyOf, IsReadyOf, IsWritten, IsCarried, IsUnfinished, IsMadeOf, IsUnmadeOf, IsServed, IsUnserved, IsObeyed, IsDisobeyed, IsSaid, IsAnswered};
ghost use Rattle.requests.specs.Faults.{fault_status, fault_text};
ghost use Rattle.requests.specs.declared.fault.Fault.{Fault as TheFault};
ghost use Rattle.requests.specs.declared.fault.Fault.TheVariants.{Unwritten};

use crate::carry::carry_out;
use command_line::{Request, parse};
use debugger::LineInput;
use render::is_report;
use requests::begin::check_run;
use requests::files::{
    close, file_of, make_image, page_of, read, read_if_any, schedule_of, sheet_for, spare_inputs,
};
use requests::{Buffered, Fault, Live, Outcome, Store};
use std::alloc::Global;
use std::sync::Wait;
use std::thread::Threads;
use timeline::Chart;
use words::{Sink, SinkFault};

/// Answers the words of a command line, the program's name first: reads the files that they name, has the request carried out, and makes the
/// file that it asks for. What it prints goes into `out`, and what the user is told into `error`. The lines of an input debug a program, each asked
/// for by a prompt. It gives the status that the program ends with.
pub fn answer<R: Threads + Wait + Sync, S: Store, I: LineInput, P: Live, O: Buffered, E: Sink>(
    rt: &R,
    alloc: Global,
    words: &[&str],
    store: &mut S,
    input: &mut I,
    prompt: &str,
    progress: &mut P,
    out: &mut O,
    error: &mut E,
) -> u8
    ensures answered { IsAnswered S.joins S.reads S.refuses S.begins S.ends S.Page.state I.gives prompt.now (map (λ w. w.now) words.now)
        (record { store = store.old; input = input.old; output = O.state out.old; error = E.state error.old }) result
        (record { store = store.new; input = input.new; output = O.state out.new; error = E.state error.new }) }
    // With the status of a report, standard output keeps nothing back.
    ensures handed_on { IsReported result → IsHandedOn (O.handed out.new) (O.kept out.new) (O.state out.new) }
{
    match obey(rt, alloc, words, store, input, prompt, progress, out, error) {
        Ok(status) => status,
        Err(fault) => say(&fault, out, error),
    }
}

/// Prints what clap was asked for, and tells the user of any other fault. It answers the status.
fn say<O: Buffered, E: Sink>(fault: &Fault<'_>, out: &mut O, error: &mut E) -> u8
    ensures said { IsSaid fault.now (O.state out.old) (E.state error.old) result (O.state out.new) (E.state error.new) }
    ensures handed_on { IsReported result → IsHandedOn (O.handed out.new) (O.kept out.new) (O.state out.new) }
{
    match fault {
        Fault::Asked(_) => match print(fault, out) {
            Ok(()) => 0,
            Err(_) => Fault::Unwritten.tell(error),
        },
        _ => fault.tell(error),
    }
}

/// Prints what there is to say of a fault.
fn print<O: Buffered>(fault: &Fault<'_>, out: &mut O) -> Result<(), SinkFault>
    ensures puts { Puts (O.state out.old) (O.state out.new) (fault_text fault.now) result }
    ensures handed_on { OnOk result (IsHandedOn (O.handed out.new) (O.kept out.new) (O.state out.new)) }
{
    fault.put(out)?;
    out.flush()
}

/// Answers the words, without telling of a fault that [`carry_out`] doesn't meet.
fn obey<'a, R: Threads + Wait + Sync, S: Store, I: LineInput, P: Live, O: Buffered, E: Sink>(
    rt: &R,
    alloc: Global,
    words: &'a [&'a str],
    store: &mut S,
    input: &mut I,
    prompt: &str,
    progress: &mut P,
    out: &mut O,
    error: &mut E,
) -> Result<u8, Fault<'a>>
    ensures obeyed { MatchResult result
        (λ status. IsObeyed S.joins S.reads S.refuses S.begins S.ends S.Page.state I.gives prompt.now (map (λ w. w.now) words.entry.now)
        (record { store = store.old; input = input.old; output = O.state out.old; error = E.state error.old }) status
        (record { store = store.new; input = input.new; output = O.state out.new; error = E.state error.new }))
        (λ fault. IsDisobeyed S.joins S.reads S.refuses S.begins S.ends S.Page.state I.gives prompt.now (map (λ w. w.now) words.entry.now)
        (record { store = store.old; input = input.old; output = O.state out.old; error = E.state error.old }) fault
        (record { store = store.new; input = input.new; output = O.state out.new; error = E.state error.new })) }
    ensures handed_on { IfOk result (λ status. IsReported status → IsHandedOn (O.handed out.new) (O.kept out.new) (O.state out.new)) }
{
    let request = parse(alloc, words)?;
    spare_inputs(store, &request)?;
    serve(
        rt, alloc, &request, store, input, prompt, progress, out, error,
    )
}

/// Reads the files that a request names, and makes what it asks for. It answers the status.
fn serve<'a, R: Threads + Wait + Sync, S: Store, I: LineInput, P: Live, O: Buffered, E: Sink>(
    rt: &R,
    alloc: Global,
    request: &Request<'a>,
    store: &mut S,
    input: &mut I,
    prompt: &str,
    progress: &mut P,
    out: &mut O,
    error: &mut E,
) -> Result<u8, Fault<'a>>
    ensures served { MatchResult result
        (λ status. IsServed S.joins S.reads S.refuses S.begins S.ends S.Page.state I.gives prompt.now request.now
        (record { store = store.old; input = input.old; output = O.state out.old; error = E.state error.old }) status
        (record { store = store.new; input = input.new; output = O.state out.new; error = E.state error.new }))
        (λ fault. IsUnserved S.joins S.reads S.refuses S.begins S.ends S.Page.state I.gives prompt.now request.now
        (record { store = store.old; input = input.old; output = O.state out.old; error = E.state error.old }) fault
        (record { store = store.new; input = input.new; output = O.state out.new; error = E.state error.new })) }
    ensures handed_on { IfOk result (λ status. IsReported status → IsHandedOn (O.handed out.new) (O.kept out.new) (O.state out.new)) }
{
    let file = read(store, file_of(request))?;
    match read_if_any(alloc, store, schedule_of(request)) {
        Ok(list) => make(
            rt, alloc, request, &file, &list, store, input, prompt, progress, out, error,
        ),
        Err(unread) => tell_unready(alloc, request, &file, unread, error),
    }
}

/// Tells why the run of a request couldn't begin even if its schedule were read, and answers that fault's status. Where nothing is wrong before the
/// schedule, the fault is that it wasn't read.
fn tell_unready<'a, E: Sink>(
    alloc: Global,
    request: &Request<'a>,
    file: &[u8],
    unread: Fault<'a>,
    error: &mut E,
) -> Result<u8, Fault<'a>>
    ensures told { MatchResult result
        (λ status. (why : TheFault) × IsUnreadyOf request.now file.now why × (status ≡ fault_status why) × IsPut (E.state error.old) (E.state error.new) (fault_text why))
        (λ fault. (fault ≡ unread.entry) × IsReadyOf request.now file.now × (error.new ≡ error.old)) }
    ensures unreported { IfOk result (λ status. IsReported status → ⊥) }
{
    let Request::Run(run) = request else {
        return Err(unread);
    };
    match check_run(alloc, run, file) {
        Ok(()) => Err(unread),
        Err(why) => Ok(why.tell(error)),
    }
}

/// Makes what a request asks for, given the bytes of its file and of its schedule. It answers the status.
fn make<'a, R: Threads + Wait + Sync, S: Store, I: LineInput, P: Live, O: Buffered, E: Sink>(
    rt: &R,
    alloc: Global,
    request: &Request<'a>,
    file: &[u8],
    list: &[u8],
    store: &mut S,
    input: &mut I,
    prompt: &str,
    progress: &mut P,
    out: &mut O,
    error: &mut E,
) -> Result<u8, Fault<'a>>
    ensures made { MatchResult result
        (λ status. IsMadeOf S.joins S.reads S.refuses S.begins S.ends S.Page.state I.gives prompt.now request.now file.now list.now
        (record { store = store.old; input = input.old; output = O.state out.old; error = E.state error.old }) status
        (record { store = store.new; input = input.new; output = O.state out.new; error = E.state error.new }))
        (λ fault. IsUnmadeOf S.joins S.reads S.refuses S.begins S.ends S.Page.state I.gives prompt.now request.now file.now list.now
        (record { store = store.old; input = input.old; output = O.state out.old; error = E.state error.old }) fault
        (record { store = store.new; input = input.new; output = O.state out.new; error = E.state error.new })) }
    ensures handed_on { IfOk result (λ status. IsReported status → IsHandedOn (O.handed out.new) (O.kept out.new) (O.state out.new)) }
{
    let outcome = carry(
        rt, alloc, request, file, list, store, input, prompt, progress, out, error,
    )?;
    write_out(outcome.status, out)?;
    make_image(request, &outcome, store)?;
    Ok(outcome.status)
}

/// Has a request carried out, with the file of a view, of a history or of a run begun before and done after it. The error is that this file could not
/// be begun; or, after a report, that what it kept back could not be written out.
fn carry<'a, R: Threads + Wait + Sync, S: Store, I: LineInput, P: Live, O: Buffered, E: Sink>(
    rt: &R,
    alloc: Global,
    request: &Request<'a>,
    file: &[u8],
    list: &[u8],
    store: &mut S,
    input: &mut I,
    prompt: &str,
    progress: &mut P,
    out: &mut O,
    error: &mut E,
) -> Result<Outcome, Fault<'a>>
    ensures { MatchResult result
        (λ o. IsCarried S.joins S.reads S.refuses S.begins S.ends S.Page.state I.gives prompt.now request.now file.now list.now
        (record { store = store.old; input = input.old; output = O.state out.old; error = E.state error.old }) o.status (option_map (λ image. image.items) o.image)
        (record { store = store.new; input = input.new; output = O.state out.new; error = E.state error.new }))
        (λ fault. (IsUnbegunIf S.refuses store.old (page_of request.now) fault × (store.new ≡ store.old) × (input.new ≡ input.old) × (out.new ≡ out.old) × (error.new ≡ error.old))
        ⊎ IsUnfinished S.joins S.reads S.refuses S.begins S.ends S.Page.state I.gives prompt.now request.now file.now list.now
        (record { store = store.old; input = input.old; output = O.state out.old; error = E.state error.old }) fault
        (record { store = store.new; input = input.new; output = O.state out.new; error = E.state error.new })) }
{
    let path = page_of(request);
    let mut chart = Chart::new(sheet_for(store, path)?);
    print_at_once(request, out);
    let outcome = carry_out(
        rt, alloc, request, file, list, input, prompt, progress, &mut chart, out, error,
    );
    match close(store, path, chart.into_sink()) {
        Ok(()) => Ok(outcome),
        Err(unmade) if is_report(outcome.status) => Err(unmade),
        Err(_) => Ok(outcome),
    }
}

/// Has what a session prints written at once, so that it precedes the next prompt.
fn print_at_once<O: Buffered>(request: &Request<'_>, out: &mut O)
    ensures { O.state out.new ≡ O.state out.old }
{
    if matches!(request, Request::Debug(_)) {
        out.write_at_once();
    }
}

/// Has written out what standard output kept back. It fails only after a report.
fn write_out<'a, O: Buffered>(status: u8, out: &mut O) -> Result<(), Fault<'a>>
    ensures written { MatchResult result
        (λ _. IsWritten status (O.state out.old) (O.state out.new))
        (λ fault. (fault ≡ Unwritten) × IsReported status × TookPart (O.state out.old) (O.state out.new) []) }
    ensures handed_on { OnOk result (IsReported status → IsHandedOn (O.handed out.new) (O.kept out.new) (O.state out.new)) }
{
    match out.flush() {
        Ok(()) => Ok(()),
        Err(_) if is_report(status) => Err(Fault::Unwritten),
        Err(_) => Ok(()),
    }
}
