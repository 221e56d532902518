ghost use Rattle.std.specs.Prelude.{◌≡◌, ◌↔◌, IsTrue, IfOk};
ghost use Rattle.loader.specs.Programs.{IsProgram};

use std::alloc::{AllocError, Global};
use std::marker::Model;
use table::{Segment, Text};
use words::Addr;

/// What a machine is started with: the address of the first instruction, and the segments of memory,
/// at most 65,535 and none beyond the first 4 MiB.
#[derive(Debug, Drop)]
pub struct Program {
    entry: Addr,
    segments: Vec<Segment>,
}

impl Model for Program {
    ghost use Rattle.loader.specs.Programs.{Program as ProgramValue, IsProgram};

    ghost Value = { ProgramValue };

    ghost view = { λ p. record { entry = p.entry; segments = p.segments.items } };

    ghost invariant = { λ p. IsProgram (record { entry = p.entry; segments = p.segments.items }) };
}

impl Program {
    /// A program of this entry and these segments. It takes no memory.
    pub fn new(entry: Addr, segments: Vec<Segment>) -> Self
        requires { IsProgram (record { entry = entry; segments = segments.items }) }
        ensures { result ≡ record { entry = entry; segments = segments.items } }
    {
        Program { entry, segments }
    }

    /// The address of the first instruction.
    pub fn entry(&self) -> Addr
        ensures value { result ≡ self.now.entry }
        ensures program { IsProgram self.now }
    {
        self.entry
    }

    /// The segments, in the order in which they were given.
    pub fn segments(&self) -> &[Segment]
        ensures value { result.now ≡ self.now.segments }
        ensures program { IsProgram self.now }
    {
        &self.segments
    }

    /// The words that the program can fetch.
    pub fn text(&self) -> Text<'_>
        ensures { result.segments.now ≡ self.now.segments }
    {
        Text::new(&self.segments)
    }

    /// The same program in memory of its own. The only error is that memory ran out.
    pub fn copy(&self, alloc: Global) -> Result<Program, AllocError>
        ensures { IfOk result (λ p. p ≡ self.now) }
    {
        Ok(Program {
            entry: self.entry,
            segments: copy_all(alloc, &self.segments)?,
        })
    }

    /// Whether both have the same entry, and the same segments in the same order.
    pub fn same(&self, other: &Program) -> bool
        ensures { IsTrue result ↔ (self.now ≡ other.now) }
    {
        self.entry == other.entry && same_all(&self.segments, &other.segments)
    }
}

fn copy_one(alloc: Global, segment: &Segment) -> Result<Segment, AllocError>
    ensures { IfOk result (λ s. s ≡ segment.now) }
{
    Ok(Segment {
        addr: segment.addr,
        bytes: Vec::from_slice(alloc, &segment.bytes)?,
        size: segment.size,
        exec: segment.exec,
    })
}

fn copy_all(alloc: Global, segments: &[Segment]) -> Result<Vec<Segment>, AllocError>
    ensures { IfOk result (λ copies. copies.items ≡ segments.now) }
{
    let mut copies = Vec::new(alloc);
    for segment in segments {
        copies.push(copy_one(alloc, segment)?)?;
    }
    Ok(copies)
}

fn same_one(a: &Segment, b: &Segment) -> bool
    ensures { IsTrue result ↔ (a.now ≡ b.now) }
{
    a.addr == b.addr && a.size == b.size && a.exec == b.exec && a.bytes[..] == b.bytes[..]
}

fn same_all(a: &[Segment], b: &[Segment]) -> bool
    ensures { IsTrue result ↔ (a.now ≡ b.now) }
{
    if a.len() != b.len() {
        return false;
    }
    for (i, segment) in a.iter().enumerate() {
        if !same_one(segment, &b[i]) {
            return false;
        }
    }
    true
}
