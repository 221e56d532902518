//! The program in a file: a source's, where the file's name says so, else an ELF file's. And the choices in a schedule's file.
ghost use Rattle.std.specs.Prelude.{◌≡◌, ◌≢◌, Err, IfOk, MatchResult};
ghost use Rattle.assembler.specs.Passes.{assembled};
ghost use Rattle.requests.specs.Sources.{is_source, is_no_memory, IsSourceOf, IsProgramIn, IsSourceFault, IsProgramFault, names_in};
ghost use Rattle.requests.specs.Schedules.{AreChosenBy, IsScheduleFault};

use crate::fault::{Fault, RefusedLine};
use crate::quote::line_numbered;
use assembler::{AsmFault, SourceFault, assemble};
use disassembler::Symbols;
use loader::{Program, read_elf};
use schedule::{Choice, read};
use std::alloc::{AllocError, Global};
use std::str;

/// Whether the name of a file is that of a source.
fn is_source(path: &str) -> bool
    ensures { result ≡ is_source path.now }
{
    path.as_bytes().ends_with(b".s")
}

/// The program that a source makes. Want of memory is no fault of the source.
pub fn program_of_source(alloc: Global, source: &[u8]) -> Result<Program, Fault<'_>>
    ensures { MatchResult result (IsSourceOf source.now) (IsSourceFault source.now) }
{
    let Ok(text) = str::from_utf8(source) else {
        return Err(Fault::NotSource);
    };
    match assemble(alloc, text) {
        Ok(program) => Ok(program),
        Err(why) => Err(refusal(text, why)),
    }
}

/// Whether memory ran out, which is no fault of the source.
fn is_no_memory(fault: AsmFault) -> bool
    ensures { result ≡ is_no_memory fault }
{
    matches!(fault, AsmFault::NoMemory)
}

/// What a source is refused for, with the line.
fn refusal(source: &str, why: SourceFault) -> Fault<'_>
    requires { why.fault ≢ AsmFault.NoMemory → assembled source.now ≡ Err why }
    ensures { IsSourceFault source.now result }
{
    if is_no_memory(why.fault) {
        return Fault::NoMemory;
    }
    Fault::Source(RefusedLine {
        why,
        text: line_numbered(source, why.line),
    })
}

/// The program in a file with this name and these bytes.
pub fn program_in<'a>(alloc: Global, path: &str, file: &'a [u8]) -> Result<Program, Fault<'a>>
    ensures { MatchResult result (IsProgramIn path.now file.now) (IsProgramFault path.now file.now) }
{
    if is_source(path) {
        program_of_source(alloc, file)
    } else {
        Ok(read_elf(alloc, file)?)
    }
}

/// The names that the program in a file with this name and these bytes is shown with. The only error is that memory ran out.
pub fn names_in<'a>(alloc: Global, path: &str, file: &'a [u8]) -> Result<Symbols<'a>, AllocError>
    ensures { IfOk result (λ names. names ≡ names_in path.now file.now) }
{
    if !is_source(path) {
        return Symbols::read(alloc, file);
    }
    Ok(Symbols::none(alloc))
}

/// The choices that the lines of a schedule's file spell. Want of memory is no fault of the schedule.
pub fn choices_in<'a>(alloc: Global, list: &[u8]) -> Result<Vec<Choice>, Fault<'a>>
    ensures { MatchResult result (λ choices. AreChosenBy list.now choices.items) (IsScheduleFault list.now) }
{
    match str::from_utf8(list) {
        Ok(text) => Ok(read(alloc, text)?),
        Err(_) => Err(Fault::NotSchedule),
    }
}
