//! The files that a request names: which they are, and how they are read and made.
ghost use Rattle.std.specs.Prelude.{◌≡◌, MatchResult};
ghost use Rattle.std.specs.Option.{option_map};
ghost use Rattle.texts.specs.Puts.{Puts};
ghost use Rattle.requests.specs.NamedFiles.{file_of, schedule_of, page_of, target_of, SparesInputs, IsOverwriting, IsReadAt, IsUnreadAt, IsReadIf, IsUnreadIf, IsUnbegunAt, IsUnbegunIf, IsSheetFor, IsClosed, IsUnclosed, IsFileMade, IsFileUnmade, IsImageMade, IsImageUnmade};

use crate::fault::Fault;
use crate::file_requests::Outcome;
use crate::page::Sheet;
use crate::store::{Store, StoreFault};
use command_line::{Request, Show, Way};
use std::alloc::Global;
use words::{Sink, SinkFault};

/// How many bytes a program, a source or a schedule may have: 32 MiB.
const MOST_BYTES: usize = 33_554_432;

/// The path of the file that a request reads: a program's, or a source's.
pub fn file_of<'a>(request: &Request<'a>) -> &'a str
    ensures { result ≡ file_of request.now }
{
    match request {
        Request::Run(run) => run.setup.file,
        Request::Debug(setup) => setup.file,
        Request::Outcomes(asked) => asked.file,
        Request::Dis { file } => file,
        Request::Asm { source, .. } => source,
    }
}

/// The path of the schedule's file, if a request names one.
pub fn schedule_of<'a>(request: &Request<'a>) -> Option<&'a str>
    ensures { result ≡ schedule_of request.now }
{
    match request {
        Request::Run(run) => match run.way {
            Way::Turns { schedule, .. }
            | Way::Chance { schedule, .. }
            | Way::Kept { schedule, .. } => schedule,
            Way::Threads { .. } => None,
        },
        _ => None,
    }
}

/// The path of the file for a view, a history or a run to an outcome, if a request asks for one.
pub fn page_of<'a>(request: &Request<'a>) -> Option<&'a str>
    ensures { result ≡ page_of request.now }
{
    match request {
        Request::Run(run) => match run.way {
            Way::Turns { show, .. } | Way::Chance { show, .. } => match show {
                Show::View(_, path) => Some(path),
                _ => None,
            },
            Way::Kept { history, .. } => Some(history),
            Way::Threads { history } => history,
        },
        Request::Outcomes(asked) => match asked.witness {
            Some(witness) => Some(witness.path),
            None => None,
        },
        _ => None,
    }
}

/// The path of the file that a request makes, if it makes one.
pub fn target_of<'a>(request: &Request<'a>) -> Option<&'a str>
    ensures { result ≡ target_of request.now }
{
    match request {
        Request::Asm { target, .. } => Some(target),
        _ => page_of(request),
    }
}

/// Refuses a request that would overwrite a file that it reads.
pub fn spare_inputs<'a, S: Store>(store: &S, request: &Request<'a>) -> Result<(), Fault<'a>>
    ensures { MatchResult result (λ _. SparesInputs S.joins store.now request.now) (IsOverwriting S.joins store.now request.now) }
{
    let Some(target) = target_of(request) else {
        return Ok(());
    };
    if store.is_one_file(target, file_of(request)) {
        return Err(Fault::Overwrites(target));
    }
    match schedule_of(request) {
        Some(schedule) if store.is_one_file(target, schedule) => Err(Fault::Overwrites(target)),
        _ => Ok(()),
    }
}

/// The bytes of a file, of which one more than are taken is read at most: a file may have no end.
pub fn read<'a, S: Store>(store: &S, path: &'a str) -> Result<Vec<u8>, Fault<'a>>
    ensures { MatchResult result
        (λ bytes. IsReadAt S.reads S.refuses store.now path.now bytes.items)
        (IsUnreadAt S.reads S.refuses store.now path.entry) }
{
    match store.read(path, MOST_BYTES + 1) {
        Ok(bytes) if bytes.len() > MOST_BYTES => Err(Fault::TooLong(path)),
        Ok(bytes) => Ok(bytes),
        Err(StoreFault::Refused) => Err(Fault::Unread(path)),
        Err(StoreFault::NoMemory) => Err(Fault::NoMemory),
    }
}

/// The bytes of a file, or none where there is no path.
pub fn read_if_any<'a, S: Store>(
    alloc: Global,
    store: &S,
    path: Option<&'a str>,
) -> Result<Vec<u8>, Fault<'a>>
    ensures { MatchResult result
        (λ bytes. IsReadIf S.reads S.refuses store.now path.entry bytes.items)
        (IsUnreadIf S.reads S.refuses store.now path.entry) }
{
    match path {
        Some(path) => read(store, path),
        None => Ok(Vec::new(alloc)),
    }
}

/// A file that is begun, where there is a path.
pub fn sheet_for<'a, S: Store>(
    store: &mut S,
    path: Option<&'a str>,
) -> Result<Sheet<S::Page>, Fault<'a>>
    ensures { MatchResult result
        (IsSheetFor S.begins S.ends S.Page.state path.entry store.old store.new)
        (λ fault. IsUnbegunIf S.refuses store.old path.entry fault × (store.new ≡ store.old)) }
{
    match path {
        Some(path) => Ok(Sheet::Made(begin(store, path)?)),
        None => Ok(Sheet::Nowhere),
    }
}

fn begin<'a, S: Store>(store: &mut S, path: &'a str) -> Result<S::Page, Fault<'a>>
    ensures { MatchResult result
        (S.begins store.old path.now store.new)
        (λ fault. IsUnbegunAt S.refuses store.old path.entry fault × (store.new ≡ store.old)) }
{
    match store.begin(path) {
        Ok(page) => Ok(page),
        Err(StoreFault::Refused) => Err(Fault::Unmade(path)),
        Err(StoreFault::NoMemory) => Err(Fault::NoMemory),
    }
}

/// A file at a path is done, where one was begun. It fails where what it kept back can't be written out.
pub fn close<'a, S: Store>(
    store: &mut S,
    path: Option<&'a str>,
    sheet: Sheet<S::Page>,
) -> Result<(), Fault<'a>>
    ensures { MatchResult result
        (λ _. IsClosed S.begins S.ends S.Page.state path.entry store.old sheet store.new)
        (λ fault. IsUnclosed S.begins S.ends S.Page.state path.entry store.old sheet fault store.new) }
{
    match (path, sheet) {
        (Some(path), Sheet::Made(page)) => match store.end(page) {
            Ok(()) => Ok(()),
            Err(_) => Err(Fault::Unmade(path)),
        },
        _ => Ok(()),
    }
}

/// Makes the file that a request asks for, if it asks for one.
pub fn make_image<'a, S: Store>(
    request: &Request<'a>,
    outcome: &Outcome,
    store: &mut S,
) -> Result<(), Fault<'a>>
    ensures { MatchResult result
        (λ _. IsImageMade S.refuses S.begins S.ends S.Page.state request.now (option_map (λ image. image.items) outcome.now.image) store.old store.new)
        (λ fault. IsImageUnmade S.refuses S.begins S.ends S.Page.state request.now (option_map (λ image. image.items) outcome.now.image) store.old fault store.new) }
{
    match (request, &outcome.image) {
        (Request::Asm { target, .. }, Some(image)) => make_file(store, target, image),
        _ => Ok(()),
    }
}

/// Makes a file of some bytes.
fn make_file<'a, S: Store>(store: &mut S, path: &'a str, bytes: &[u8]) -> Result<(), Fault<'a>>
    ensures { MatchResult result
        (λ _. IsFileMade S.begins S.ends S.Page.state path.now bytes.now store.old store.new)
        (λ fault. IsFileUnmade S.refuses S.begins S.ends S.Page.state path.entry bytes.now store.old fault store.new) }
{
    let mut page = begin(store, path)?;
    let put = page.put(bytes);
    let ended = store.end(page);
    match put {
        Ok(()) => match ended {
            Ok(()) => Ok(()),
            Err(_) => Err(Fault::Unmade(path)),
        },
        Err(_) => Err(Fault::Unmade(path)),
    }
}
