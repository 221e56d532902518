//! What command lines ask for, and the call that carries it out. These say nothing of what they answer, so that no test's proof has to carry it.
use super::paper::Paper;
use command_line::{Request, parse};
use debugger::Typed;
use machine::Silent;
use reference::elf_file;
use simulate::{Live, carry_out};
use std::alloc::{AllocError, Global};
use std::io;
use std::io::{ErrorKind, Read};
use std::sync::Wait;
use std::thread::Threads;
use timeline::Chart;

/// The ELF file of a program of these words.
pub(crate) fn file_of(alloc: Global, words: &[u32]) -> Result<Vec<u8>, AllocError> {
    elf_file(alloc, words)
}

/// What the words ask for, if nothing is wrong with them.
pub(crate) fn request_of<'a>(alloc: Global, words: &'a [&'a str]) -> Option<Request<'a>> {
    parse(alloc, words).ok()
}

/// Where the texts of a request go.
#[derive(Drop)]
pub(crate) struct Sheets {
    /// Standard output.
    pub(crate) out: Paper,
    /// Standard error.
    pub(crate) error: Paper,
    /// The file of a view or of a history.
    pub(crate) page: Paper,
}

impl Sheets {
    /// Those that take all puts.
    pub(crate) fn endless(alloc: Global) -> Self {
        Sheets {
            out: Paper::endless(alloc),
            error: Paper::endless(alloc),
            page: Paper::endless(alloc),
        }
    }

    /// Those of which standard output takes so many puts.
    pub(crate) fn cut(alloc: Global, left: u32) -> Self {
        let mut sheets = Sheets::endless(alloc);
        sheets.out = Paper::new(alloc, left);
        sheets
    }

    /// Those with this file.
    pub(crate) fn with_page(alloc: Global, page: Paper) -> Self {
        let mut sheets = Sheets::endless(alloc);
        sheets.page = page;
        sheets
    }
}

/// What became of a request.
#[derive(Drop)]
pub(crate) struct Told {
    pub(crate) status: u8,
    /// The file that is to be written, if there is one.
    pub(crate) image: Option<Vec<u8>>,
    pub(crate) out: Paper,
    pub(crate) error: Paper,
    pub(crate) page: Paper,
}

/// A request, carried out on a file and a schedule, with no input.
pub(crate) fn carried(
    rt: &(impl AllocGlobal + Threads + Wait + Sync),
    request: &Request<'_>,
    file: &[u8],
    schedule: &[u8],
    sheets: Sheets,
) -> Told {
    let mut input = input_of(&[], false);
    let files = (file, schedule);
    carried_all(rt, request, files, &mut input, "", &mut Silent, sheets)
}

/// A program that is played by hand.
pub(crate) fn played(
    rt: &(impl AllocGlobal + Threads + Wait + Sync),
    request: &Request<'_>,
    file: &[u8],
    input: &mut Typed<Keys<'_>>,
    prompt: &str,
    sheets: Sheets,
) -> Told {
    let files = (file, [].as_slice());
    carried_all(rt, request, files, input, prompt, &mut Silent, sheets)
}

/// A run that tells its progress.
pub(crate) fn run_told(
    rt: &(impl AllocGlobal + Threads + Wait + Sync),
    request: &Request<'_>,
    file: &[u8],
    progress: &mut impl Live,
    sheets: Sheets,
) -> Told {
    let mut input = input_of(&[], false);
    let files = (file, [].as_slice());
    carried_all(rt, request, files, &mut input, "", progress, sheets)
}

/// A request, carried out on a file and a schedule.
fn carried_all(
    rt: &(impl AllocGlobal + Threads + Wait + Sync),
    request: &Request<'_>,
    (file, schedule): (&[u8], &[u8]),
    input: &mut Typed<Keys<'_>>,
    prompt: &str,
    progress: &mut impl Live,
    sheets: Sheets,
) -> Told {
    let Sheets {
        mut out,
        mut error,
        page,
    } = sheets;
    let mut chart = Chart::new(page);
    let outcome = carry_out(
        rt,
        rt.alloc(),
        request,
        file,
        schedule,
        input,
        prompt,
        progress,
        &mut chart,
        &mut out,
        &mut error,
    );
    Told {
        status: outcome.status,
        image: outcome.image,
        out,
        error,
        page: chart.into_sink(),
    }
}

/// A reader that gives its bytes one by one, and then ends or fails.
#[derive(Drop)]
pub(crate) struct Keys<'a> {
    pub(crate) bytes: &'a [u8],
    pub(crate) given: usize,
    pub(crate) fails: bool,
}

impl Read for Keys<'_> {
    fn read(&mut self, buf: &mut [u8]) -> io::Result<usize> {
        if self.given < self.bytes.len() && !buf.is_empty() {
            buf[0] = self.bytes[self.given];
            self.given += 1;
            return Ok(1);
        }
        if self.fails {
            return Err(io::Error::from(ErrorKind::BrokenPipe));
        }
        Ok(0)
    }
}

/// What a user types before the input ends or fails.
pub(crate) fn input_of(bytes: &[u8], fails: bool) -> Typed<Keys<'_>> {
    let keys = Keys {
        bytes,
        given: 0,
        fails,
    };
    Typed {
        bytes: keys.bytes(),
        failed: 0,
    }
}
