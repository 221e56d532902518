//! Requests that need no machine: listings, assembled files and searches, given the bytes of the file that they read.
ghost use Rattle.std.specs.Prelude.{◌≡◌, None, MatchResult, option_map};
ghost use Rattle.requests.specs.FileRequests.{IsMade, IsUnmade, cache_of};
ghost use Rattle.requests.specs.Files.{IsListed, IsUnlisted, IsImageOf};
ghost use Rattle.requests.specs.Sources.{IsSourceFault};

use crate::fault::Fault;
use crate::live::Live;
use crate::page::Buffered;
use crate::search::find_ends;
use crate::source::program_of_source;
use command_line::Request;
use disassembler::{Symbols, listing};
use loader::{read_elf, write_elf};
use std::alloc::Global;
use words::Sink;

/// What came of a request.
#[derive(Debug, Drop)]
pub struct Outcome {
    /// The status that the program ends with.
    pub status: u8,
    /// The bytes of the file that is to be written, where the request asks for one.
    pub image: Option<Vec<u8>>,
}

/// Carries out a request that needs no machine.
pub fn on_file<'a, P: Live, T: Buffered, O: Sink>(
    alloc: Global,
    request: &Request<'a>,
    file: &'a [u8],
    progress: &mut P,
    page: &mut T,
    out: &mut O,
) -> Result<Outcome, Fault<'a>>
    requires { cache_of request.now ≡ None }
    ensures { MatchResult result
        (λ o. IsMade file.now
        (record { output = O.state out.old; file = T.state page.old }) (record { output = O.state out.new; file = T.state page.new })
        request.now o.status (option_map (λ image. image.items) o.image))
        (IsUnmade file.now
        (record { output = O.state out.old; file = T.state page.old }) (record { output = O.state out.new; file = T.state page.new })
        request.now) }
{
    match request {
        Request::Outcomes(asked) => Ok(Outcome {
            status: find_ends(alloc, asked, file, progress, page, out)?,
            image: None,
        }),
        Request::Dis { .. } => Ok(Outcome {
            status: list(alloc, file, out)?,
            image: None,
        }),
        Request::Asm { .. } => Ok(Outcome {
            status: 0,
            image: Some(image(alloc, file)?),
        }),
        Request::Run(_) | Request::Debug(_) => unreachable!(),
    }
}

/// Puts the listing of the program in a file, with its names. It answers the status.
fn list<'a, O: Sink>(alloc: Global, file: &[u8], out: &mut O) -> Result<u8, Fault<'a>>
    ensures { MatchResult result (IsListed file.now (O.state out.old) (O.state out.new)) (IsUnlisted file.now (O.state out.old) (O.state out.new)) }
{
    let program = read_elf(alloc, file)?;
    let names = Symbols::read(alloc, file)?;
    listing(&program, &names, out)?;
    Ok(0)
}

/// The bytes of the file of the program that a source makes.
fn image(alloc: Global, source: &[u8]) -> Result<Vec<u8>, Fault<'_>>
    ensures { MatchResult result (λ bytes. IsImageOf source.now bytes.items) (IsSourceFault source.now) }
{
    let program = program_of_source(alloc, source)?;
    Ok(write_elf(alloc, &program)?)
}
