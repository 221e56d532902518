//! The files that the program reads and makes, by their paths.
ghost use Rattle.std.specs.Prelude.{◌≡◌, ⊤, ℕ, Bool, List, Result, [], OnErr, OnOk, IfOk, IfSome, MatchResult, take};
ghost use Rattle.words.specs.declared.sink.SinkFault.{SinkFault as PutFault};
ghost use Rattle.texts.specs.Puts.{Puts};
ghost use Rattle.requests.specs.Buffers.{IsHandedOn};
ghost use Rattle.requests.specs.Stored.{IsRefusedIf};

use crate::page::{Buffered, Outlet, Steady};
use std::alloc::Global;
use std::fs::File;
use std::io::{ErrorKind, Read};
use std::os::unix::fs::MetadataExt;
use std::rt::Files;
use std::{fs, io};
use thiserror::Error;
use words::SinkFault;

/// Why a file was not read, or not begun.
#[derive(Clone, Copy, Debug, PartialEq, Eq, Error)]
pub enum StoreFault {
    /// The store doesn't let it be.
    #[error("the file is refused")]
    Refused,
    #[error("no memory")]
    NoMemory,
}

/// Files by their paths: those that the program reads, and those that it makes.
pub trait Store {
    /// A file that is being made.
    type Page: Buffered + Drop;

    /// From the file with a path so many bytes are read at most, and these were.
    ghost reads: { Self → List ℕ → ℕ → List ℕ → Type 0 };

    /// A file with a path can't be read, or can't be made.
    ghost refuses: { Self → List ℕ → Type 0 };

    /// Asked whether two paths lead to one file, it answers this.
    ghost joins: { Self → List ℕ → List ℕ → Bool → Type 0 };

    /// A file with a path was begun.
    ghost begins: { Self → List ℕ → Self → Self.Page → Type 0 };

    /// A file that was being made is done, once what it kept back was written out, or that failed.
    ghost ends: { Self → Self.Page → Result Unit PutFault → Self → Type 0 };

    /// Reads a file, and so many bytes of it at most.
    fn read(&self, path: &str, most: usize) -> Result<Vec<u8>, StoreFault>
        ensures { MatchResult result (λ bytes. reads self.now path.now most bytes.items) (IsRefusedIf (refuses self.now path.now)) };

    /// Whether two paths lead to one file, whatever their spelling.
    fn is_one_file(&self, one: &str, other: &str) -> bool
        ensures { joins self.now one.now other.now result };

    /// Begins a file, which is empty then.
    fn begin(&mut self, path: &str) -> Result<Self::Page, StoreFault>
        ensures begun { MatchResult result (begins self.old path.now self.new) (IsRefusedIf (refuses self.old path.now)) }
        ensures stays { OnErr result (self.new ≡ self.old) };

    /// A file is done: what it kept back is written out. The error is that it couldn't be.
    fn end(&mut self, page: Self::Page) -> Result<(), SinkFault>
        ensures { ends self.old page result self.new };

    /// Of a file that is done nothing is kept back, unless writing it out failed.
    ghost written: { (before after : Self) (page : Self.Page) (result : Result Unit PutFault) → ends before page result after
        → (closed : Self.Page) × Puts (Self.Page.state page) (Self.Page.state closed) [] result
        × OnOk result (IsHandedOn (Self.Page.handed closed) (Self.Page.kept closed) (Self.Page.state closed)) };
}

/// The host's files. What they hold, no clause can say.
#[derive(Drop)]
pub struct HostFiles<'r, R> {
    pub host: &'r R,
}

impl<R: Files + AllocGlobal> Store for HostFiles<'_, R>
where
    R::File: Steady,
{
    ghost use Rattle.requests.specs.Outlets.{IsFlushed};

    type Page = Outlet<R::File>;

    ghost reads = { λ _ _ _ _. ⊤ };

    ghost refuses = { λ _ _. ⊤ };

    ghost joins = { λ _ _ _ _. ⊤ };

    ghost begins = { λ s _ t _. t ≡ s };

    ghost ends = { λ s page result t. (t ≡ s) × IsFlushed R.File.contents page result };

    ghost written = { λ _ _ _ _ done. done.1 };

    fn read(&self, path: &str, most: usize) -> Result<Vec<u8>, StoreFault> {
        match read_beginning(self.host, path, most) {
            Ok(bytes) => Ok(bytes),
            Err(error) => Err(fault_of(&error)),
        }
    }

    /// Two paths do where the host knows both by the same device and inode, and they are no terminals or the like.
    fn is_one_file(&self, one: &str, other: &str) -> bool {
        match (fs::metadata(self.host, one), fs::metadata(self.host, other)) {
            (Ok(one), Ok(other)) => {
                one.is_file() && one.dev() == other.dev() && one.ino() == other.ino()
            }
            _ => false,
        }
    }

    fn begin(&mut self, path: &str) -> Result<Outlet<R::File>, StoreFault> {
        let file = match fs::create(self.host, path) {
            Ok(file) => file,
            Err(error) => return Err(fault_of(&error)),
        };
        match Outlet::new(self.host.alloc(), file) {
            Ok(page) => Ok(page),
            Err(_) => Err(StoreFault::NoMemory),
        }
    }

    fn end(&mut self, page: Outlet<R::File>) -> Result<(), SinkFault> {
        let mut page = page;
        page.flush()
    }
}

/// Why the host did not let a file be.
fn fault_of(error: &io::Error) -> StoreFault {
    if error.kind() == ErrorKind::OutOfMemory {
        StoreFault::NoMemory
    } else {
        StoreFault::Refused
    }
}

/// The first bytes of a file.
fn read_beginning<R: Files + AllocGlobal>(
    host: &R,
    path: &str,
    most: usize,
) -> io::Result<Vec<u8>> {
    let file = File::open(host, path)?;
    first_bytes(host.alloc(), file, most)
}

/// The first bytes that a reader gives, which may have no end.
fn first_bytes<F: Read + Drop>(alloc: Global, reader: F, most: usize) -> io::Result<Vec<u8>>
    ensures { IfOk result (λ bytes. IfSome (F.remaining reader) (λ left. bytes.items ≡ take most left)) }
{
    let mut bytes = Vec::new(alloc);
    reader.take(most as u64).read_to_end(&mut bytes)?;
    Ok(bytes)
}
