ghost use Rattle.std.specs.Prelude.{◌≡◌, ◌≤◌, ◌+◌, ◌++◌, ℕ, Bool, List, [], Option, Some, None, OnErr, OnOk, IfOk, IsTrue, is_some, min, length, take};
ghost use Rattle.std.specs.Io.Buffered.{writer_buffer, writer_contents, writer_inner};
ghost use Rattle.std.specs.Option.{option_map};
ghost use Rattle.words.specs.Sinks.{TookBeginning};
ghost use Rattle.texts.specs.Puts.{Puts};
ghost use Rattle.requests.specs.Buffers.{IsHandedOn, Wrote};

use std::alloc::Global;
use std::fs::File;
use std::io;
use std::io::{BufWriter, ErrorKind, Print, Printer, Stdout, Write};
use words::{Sink, SinkFault};

/// How often a write is tried again that a signal has interrupted.
const TRIES: u32 = 1_000_000;

/// A writer whose type says whether it tells its bytes: all writers of this type do, or none.
pub trait Steady: Write {
    ghost use Rattle.std.specs.Prelude.{◌≡◌, is_some};

    ghost steady: { (before after : Self) → is_some (Self.Write.contents before) ≡ is_some (Self.Write.contents after) };
}

impl Steady for Stdout {
    ghost use Rattle.std.specs.Prelude.{refl};

    ghost steady = { λ _ _. refl };
}

impl Steady for File {
    ghost use Rattle.std.specs.Prelude.{refl};

    ghost steady = { λ _ _. refl };
}

impl<P: Print> Steady for Printer<'_, P> {
    ghost use Rattle.std.specs.Prelude.{refl};

    ghost steady = { λ _ _. refl };
}

impl Steady for Vec<u8> {
    ghost use Rattle.std.specs.Prelude.{refl};

    ghost steady = { λ _ _. refl };
}

/// A sink that may keep back what it took, as the buffer before a file does, until it is told to write it out.
pub trait Buffered: Sink {
    /// The bytes that it has handed on, where its writer tells them.
    ghost handed: { Self → Option (List ℕ) };

    /// The bytes that it keeps back.
    ghost kept: { Self → List ℕ };

    /// Writes out what was kept back. It takes no more bytes, and fails as a put does.
    fn flush(&mut self) -> Result<(), SinkFault>
        ensures puts { Puts (Self.state self.old) (Self.state self.new) [] result }
        ensures handed_on { OnOk result (IsHandedOn (handed self.new) (kept self.new) (Self.state self.new)) };

    /// From now on nothing is kept back after a put.
    fn write_at_once(&mut self)
        ensures { Self.state self.new ≡ Self.state self.old };

    /// What it has taken is what it has handed on, and then what it keeps back.
    ghost in_order: { (sink : Self) → (Self.state sink).taken ≡ option_map (λ bytes. bytes ++ kept sink) (handed sink) };
}

/// A sink over a writer, with a buffer before it.
#[derive(Drop)]
pub struct Outlet<W: Steady + Drop> {
    writer: BufWriter<W>,
    /// Whether nothing is kept back after a put.
    at_once: bool,
    failed: u64,
}

impl<W: Steady + Drop> Outlet<W> {
    /// One into which nothing was put yet. It fails only if memory runs out.
    pub fn new(alloc: Global, writer: W) -> io::Result<Self>
        ensures { IfOk result (λ o. (writer_inner o.writer ≡ writer) × (writer_buffer o.writer ≡ []) × (o.failed ≡ 0)) }
    {
        Ok(Outlet {
            writer: BufWriter::new(alloc, writer)?,
            at_once: false,
            failed: 0,
        })
    }

    /// Puts bytes into the buffer, and writes it out if nothing is to be kept back.
    fn write(&mut self, bytes: &[u8]) -> io::Result<()>
        ensures wrote { Wrote (writer_contents W.contents self.old.writer) (writer_contents W.contents self.new.writer) bytes.now result }
        ensures at_once { OnOk result (IsTrue self.old.at_once → writer_buffer self.new.writer ≡ []) }
        ensures stays { (self.new.at_once ≡ self.old.at_once) × (self.new.failed ≡ self.old.failed) }
    {
        self.write_all(bytes)?;
        if self.at_once {
            self.writer.flush()?;
        }
        Ok(())
    }

    /// Puts bytes into the buffer, of which the writer takes as many as it has no room for. Where that fails, it says how many were put by then.
    fn write_all(&mut self, bytes: &[u8]) -> io::Result<()>
        ensures wrote { Wrote (writer_contents W.contents self.old.writer) (writer_contents W.contents self.new.writer) bytes.now result }
        ensures stays { (self.new.at_once ≡ self.old.at_once) × (self.new.failed ≡ self.old.failed) }
    {
        let mut written = 0;
        let mut tries = TRIES;
        while written < bytes.len() {
            match self.writer.write(&bytes[written..]) {
                Ok(0) => return Err(io::Error::from(ErrorKind::WriteZero)),
                Ok(count) => written += count,
                Err(error) if error.kind() == ErrorKind::Interrupted && tries > 0 => tries -= 1,
                Err(error) => return Err(error),
            }
        }
        Ok(())
    }

    /// Counts a write that failed.
    fn fail(&mut self) -> SinkFault
        ensures failed { self.new.failed ≡ min (self.old.failed + 1) 18446744073709551615 }
        ensures stays { (self.new.writer ≡ self.old.writer) × (self.new.at_once ≡ self.old.at_once) }
    {
        self.failed = self.failed.saturating_add(1);
        SinkFault
    }
}

impl<W: Steady + Drop> Sink for Outlet<W> {
    ghost use Rattle.requests.specs.Outlets.{outlet_state};

    ghost state = { outlet_state W.contents };

    fn put(&mut self, bytes: &[u8]) -> Result<(), SinkFault>
        ensures clean { OnOk result (self.new.failed ≡ self.old.failed) }
        ensures fault { OnErr result (self.new.failed ≡ min (self.old.failed + 1) 18446744073709551615) }
        ensures all { OnOk result (writer_contents W.contents self.new.writer ≡ option_map (λ before. before ++ bytes.now) (writer_contents W.contents self.old.writer)) }
        ensures part { OnErr result (TookBeginning (writer_contents W.contents self.old.writer) (writer_contents W.contents self.new.writer) bytes.now) }
        // Where nothing is to be kept back, nothing is.
        ensures at_once { OnOk result (IsTrue self.old.at_once → writer_buffer self.new.writer ≡ []) }
        ensures stays { self.new.at_once ≡ self.old.at_once }
    {
        match self.write(bytes) {
            Ok(()) => Ok(()),
            Err(_) => Err(self.fail()),
        }
    }
}

impl<W: Steady + Drop> Buffered for Outlet<W> {
    ghost use Rattle.std.specs.Prelude.{refl};
    ghost use Rattle.requests.specs.Outlets.{handed_by, kept_by};

    ghost handed = { handed_by W.contents };

    ghost kept = { kept_by };

    ghost in_order = { λ _. refl };

    fn flush(&mut self) -> Result<(), SinkFault> {
        match self.writer.flush() {
            Ok(()) => Ok(()),
            Err(_) => Err(self.fail()),
        }
    }

    fn write_at_once(&mut self)
        ensures same { (self.new.writer ≡ self.old.writer) × (self.new.failed ≡ self.old.failed) }
        ensures at_once { IsTrue self.new.at_once }
    {
        self.at_once = true;
    }
}

/// A file that is being made, or none: then all that is put is taken, and is nowhere.
#[derive(Drop)]
pub enum Sheet<P: Drop> {
    Nowhere,
    Made(P),
}

impl<P: Buffered + Drop> Sink for Sheet<P> {
    ghost use Rattle.requests.specs.Sheets.{state_of};

    ghost state = { state_of P.state };

    fn put(&mut self, bytes: &[u8]) -> Result<(), SinkFault> {
        match self {
            Sheet::Made(page) => page.put(bytes),
            Sheet::Nowhere => Ok(()),
        }
    }
}

impl<P: Buffered + Drop> Buffered for Sheet<P> {
    ghost use Rattle.std.specs.Prelude.{refl};
    ghost use Rattle.requests.specs.Sheets.{handed_of, kept_of};
    ghost use Rattle.requests.specs.declared.page.Sheet.TheVariants.{Nowhere, Made};

    ghost handed = { handed_of P.handed };

    ghost kept = { kept_of P.kept };

    ghost in_order = { elim [ Nowhere ↦ refl | Made page ↦ P.in_order page ] };

    fn flush(&mut self) -> Result<(), SinkFault> {
        match self {
            Sheet::Made(page) => page.flush(),
            Sheet::Nowhere => Ok(()),
        }
    }

    fn write_at_once(&mut self) {
        if let Sheet::Made(page) = self {
            page.write_at_once();
        }
    }
}
