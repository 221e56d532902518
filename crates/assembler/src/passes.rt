//! A source as a program, in two passes over its lines.
ghost use Rattle.std.specs.Prelude.{ℕ, ◌≡◌, ◌≢◌, ◌≤◌, ◌<◌, ◌+◌, ◌++◌, ◌%◌, ◌^◌, List, [], length, replicate, ◌⊎◌, option_map, codes, Some, Ok, Err, MatchResult, IfOk, OnOk};
ghost use Rattle.statements.specs.Bytes.{IsWordOf, AreBytesOf, low_bytes};
ghost use Rattle.assembler.specs.Programs.{IsAppended, IsImageOf, IsProgramOf};
ghost use Rattle.assembler.specs.Passes.{Assembled, Layout};
ghost use Rattle.assembler.specs.Layouts.{IsSourceOf};
ghost use Rattle.assembler.specs.declared.progress.Progress.{Progress};
ghost use Rattle.statements.specs.Statements.{made};
ghost use Rattle.statements.specs.Places as places;
ghost use Rattle.std.specs.Result.{IfErr, IsErrAnd};
ghost use Rattle.loader.specs.Programs.{Program as ProgramValue};
ghost use Rattle.assembler.specs.Passes as spec;
ghost use Rattle.assembler.specs.Programs as programs;

use crate::fault::SourceFault;
use crate::progress::Progress;
use loader::Program;
use statements::{
    AsmFault, Names, Place, Section, Size, Words, checked_line, cut, cut_line, data_start, line_at,
    read_statement,
};
use std::alloc::{AllocError, Global};
use std::collections::BTreeMap;
use table::{Instr, Segment, byte_count, encode};
use words::{Addr, Width};

/// How many bytes are made.
fn size_of(words: &Words) -> u64
    ensures size { result ≡ spec.size_of (made words.now) }
    ensures bound { result < 2 ^ 33 }
{
    match words {
        Words::Nothing | Words::Enter(_) => 0,
        Words::One(_) => 4,
        Words::Two(_, _) => 8,
        Words::Numbers(width, values) => u64::from(byte_count(*width)) * values.len() as u64,
        Words::Zeros(count) => u64::from(*count),
    }
}

/// Where the line stands that comes behind these words.
fn behind(words: &Words, progress: &Progress) -> Result<Progress, AsmFault>
    ensures { result ≡ spec.behind (made words.now) progress.now }
{
    match words {
        Words::Enter(section) => Ok(Progress {
            section: *section,
            ..*progress
        }),
        _ => progress.grown(size_of(words)).ok_or(AsmFault::TooLarge),
    }
}

/// Keeps the place of a label, if the line has one.
fn keep_label<'a>(
    labels: &mut BTreeMap<&'a [u8], Place>,
    label: Option<&'a [u8]>,
    at: Place,
) -> Result<(), AsmFault>
    ensures { MatchResult result
        (λ _. spec.with_label (option_map (λ x. x.now) label.entry) at (places.places_in labels.old) ≡ Ok (places.places_in labels.new))
        (λ e. e ≢ AsmFault.NoMemory → spec.with_label (option_map (λ x. x.now) label.entry) at (places.places_in labels.old) ≡ Err e) }
{
    let Some(label) = label else {
        return Ok(());
    };
    if labels.contains_key(label) {
        return Err(AsmFault::TwiceDefined);
    }
    match labels.insert(label, at) {
        Ok(_) => Ok(()),
        Err(_) => Err(AsmFault::NoMemory),
    }
}

/// A line of the first pass: its label is kept, and the place of the next line found.
#[tactic(auto, unfolding(crate::specs::Passes::survey_line))]
fn survey_line<'a>(
    labels: &mut BTreeMap<&'a [u8], Place>,
    progress: Progress,
    line: &'a [u8],
) -> Result<Progress, AsmFault>
    ensures { MatchResult result
        (λ p. spec.survey_line line.now (record { progress = progress; places = places.places_in labels.old }) ≡ Ok (record { progress = p; places = places.places_in labels.new }))
        (λ e. e ≢ AsmFault.NoMemory → spec.survey_line line.now (record { progress = progress; places = places.places_in labels.old }) ≡ Err e) }
{
    let parts = cut_line(checked_line(line)?);
    let here = progress.here();
    keep_label(labels, parts.label, here)?;
    let words = read_statement(parts.statement, here, None)?;
    behind(&words, &progress)
}

/// The first pass: where the labels stand, and how many bytes there are.
#[tactic(auto, unfolding(crate::specs::Passes::survey))]
fn survey<'a>(
    source: &'a [u8],
    labels: &mut BTreeMap<&'a [u8], Place>,
) -> Result<Progress, SourceFault>
    requires empty { places.places_in labels.old ≡ spec.nowhere }
    ensures { MatchResult result
        (λ p. spec.survey source.now ≡ Ok (record { progress = p; places = places.places_in labels.new }))
        (λ e. e.fault ≢ AsmFault.NoMemory → spec.survey source.now ≡ Err e) }
{
    let mut progress = Progress::start();
    let mut rest = Some(source);
    let mut number = 1;
    'lines: while let Some(text) = rest {
        let (line, others) = cut(text, b'\n');
        progress = match survey_line(labels, progress, line) {
            Ok(next) => next,
            Err(fault) => return Err(SourceFault {
                line: number,
                fault,
            }),
        };
        rest = others;
        number += 1;
    }
    Ok(progress)
}

/// The bytes of text and of data.
#[derive(Drop)]
struct Image {
    text_bytes: Vec<u8>,
    data_bytes: Vec<u8>,
}

/// Appends the word of an instruction.
fn append_instr(bytes: &mut Vec<u8>, instr: Instr) -> Result<(), AllocError>
    ensures { OnOk result ((more : List ℕ) × IsWordOf instr more × (length more ≡ 4) × (bytes.new.items ≡ bytes.old.items ++ more)) }
{
    bytes.extend_from_slice(&encode(instr).to_le_bytes())
}

/// Appends the low bytes of numbers, as many as the width has.
fn append_numbers(bytes: &mut Vec<u8>, width: Width, values: &[u32]) -> Result<(), AllocError>
    ensures { OnOk result (bytes.new.items ≡ bytes.old.items ++ low_bytes width values.now) }
{
    let count = byte_count(width) as usize;
    for value in values {
        bytes.extend_from_slice(&value.to_le_bytes()[..count])?;
    }
    Ok(())
}

/// Appends so many zeros.
fn append_zeros(bytes: &mut Vec<u8>, count: u32) -> Result<(), AllocError>
    ensures { OnOk result (bytes.new.items ≡ bytes.old.items ++ replicate count 0) }
{
    for i in 0..count {
        bytes.push(0)?;
    }
    Ok(())
}

/// Appends what a line made.
fn append(bytes: &mut Vec<u8>, words: &Words) -> Result<(), AllocError>
    ensures { OnOk result ((more : List ℕ) × AreBytesOf (made words.now) more × (length more ≡ spec.size_of (made words.now)) × (bytes.new.items ≡ bytes.old.items ++ more)) }
{
    match words {
        Words::Nothing | Words::Enter(_) => Ok(()),
        Words::One(instr) => append_instr(bytes, *instr),
        Words::Two(first, second) => {
            append_instr(bytes, *first)?;
            append_instr(bytes, *second)
        }
        Words::Numbers(width, values) => append_numbers(bytes, *width, values.as_slice()),
        Words::Zeros(count) => append_zeros(bytes, *count),
    }
}

/// Appends what a line made in a section.
fn append_to(image: &mut Image, section: Section, words: &Words) -> Result<(), AllocError>
    ensures { OnOk result ((more : List ℕ) × AreBytesOf (made words.now) more × (length more ≡ spec.size_of (made words.now)) × IsAppended section more image.old.text_bytes.items image.old.data_bytes.items image.new.text_bytes.items image.new.data_bytes.items) }
{
    match section {
        Section::Text => append(&mut image.text_bytes, words),
        Section::Data => append(&mut image.data_bytes, words),
    }
}

/// A line of the second pass: its bytes are appended to those of its section.
fn write_line(
    names: &Names,
    progress: &Progress,
    line: &[u8],
    image: &mut Image,
) -> Result<Progress, AsmFault>
    ensures { (l : Layout) → l.progress ≡ progress.now → IsImageOf l image.old.text_bytes.items image.old.data_bytes.items → MatchResult result
        (λ p. (m : Layout) × (spec.lay_line (places.labels_of names.now) line.now l ≡ Ok m) × (m.progress ≡ p) × IsImageOf m image.new.text_bytes.items image.new.data_bytes.items)
        (λ e. e ≢ AsmFault.NoMemory → spec.lay_line (places.labels_of names.now) line.now l ≡ Err e) }
{
    let here = progress.here();
    let words = line_at(line, names, here)?;
    let next = behind(&words, progress)?;
    append_to(image, progress.section, &words)?;
    Ok(next)
}

/// The second pass: the bytes of the lines.
fn write(source: &[u8], names: &Names, image: &mut Image) -> Result<(), SourceFault>
    requires no_text { image.old.text_bytes.items ≡ [] }
    requires no_data { image.old.data_bytes.items ≡ [] }
    ensures { MatchResult result
        (λ _. (l : Layout) × (spec.lay (places.labels_of names.now) source.now ≡ Ok l) × IsImageOf l image.new.text_bytes.items image.new.data_bytes.items)
        (λ e. e.fault ≢ AsmFault.NoMemory → spec.lay (places.labels_of names.now) source.now ≡ Err e) }
{
    let mut progress = Progress::start();
    let mut rest = Some(source);
    let mut number = 1;
    'lines: while let Some(text) = rest {
        let (line, others) = cut(text, b'\n');
        progress = match write_line(names, &progress, line, image) {
            Ok(next) => next,
            Err(fault) => return Err(SourceFault {
                line: number,
                fault,
            }),
        };
        rest = others;
        number += 1;
    }
    Ok(())
}

/// Whether a word of text stands at the place.
fn is_word(text_size: Size, place: Place) -> bool
    ensures { result ≡ programs.is_word text_size place }
{
    let offset = place.offset.value();
    place.section == Section::Text && offset % 4 == 0 && offset + 4 <= text_size.value()
}

/// Where the program begins: at `_start`, if a word of text stands there, else where text begins.
fn entry(names: &Names) -> u32
    ensures { result ≡ programs.entry_at names.now.text_size (places.places_in names.now.labels.now (codes "_start")) }
{
    match names.labels.get(b"_start".as_slice()) {
        Some(place) if is_word(names.text_size, *place) => 4096 + place.offset.value(),
        _ => 4096,
    }
}

/// The segments of text and of data, which has one if it has a byte.
fn segments(alloc: Global, image: Image, text_size: Size) -> Result<Vec<Segment>, AllocError>
    requires text { length image.text_bytes.items ≤ 1048576 }
    requires bytes { length image.data_bytes.items ≤ 1048576 }
    ensures { IfOk result (λ v. v.items ≡ programs.segments_of text_size image.text_bytes.items image.data_bytes.items) }
{
    let Image {
        text_bytes,
        data_bytes,
    } = image;
    let mut segments = Vec::new(alloc);
    segments.push(Segment {
        addr: 4096,
        size: text_bytes.len() as u32,
        bytes: text_bytes,
        exec: true,
    })?;
    if !data_bytes.is_empty() {
        segments.push(Segment {
            addr: data_start(text_size),
            size: data_bytes.len() as u32,
            bytes: data_bytes,
            exec: false,
        })?;
    }
    Ok(segments)
}

/// The program of an image.
fn program(alloc: Global, image: Image, names: &Names) -> Result<Program, AllocError>
    requires some_word { 4 ≤ length image.text_bytes.items }
    requires size { length image.text_bytes.items ≡ names.now.text_size }
    requires most { length image.text_bytes.items + length image.data_bytes.items ≤ 1048576 }
    ensures entry { IfOk result (λ p. p.entry ≡ programs.entry_at names.now.text_size (places.places_in names.now.labels.now (codes "_start"))) }
    ensures segments { IfOk result (λ p. p.segments ≡ programs.segments_of names.now.text_size image.text_bytes.items image.data_bytes.items) }
{
    let entry = entry(names);
    let segments = segments(alloc, image, names.text_size)?;
    Ok(Program::new(Addr::new(entry), segments))
}

/// The program of a source whose first pass is made.
fn finish(
    alloc: Global,
    source: &[u8],
    labels: &BTreeMap<&[u8], Place>,
    text_size: Size,
) -> Result<Program, SourceFault>
    requires some_word { 4 ≤ text_size }
    requires surveyed { (p : Progress) × (spec.survey source.now ≡ Ok (record { progress = p; places = places.places_in labels.now })) × (text_size ≡ p.text_size) }
    ensures { MatchResult result
        (λ p. (l : Layout) × (spec.lay (record { places = places.places_in labels.now; text_size = text_size }) source.now ≡ Ok l) × IsProgramOf (record { places = places.places_in labels.now; text_size = text_size }) l p)
        (λ e. e.fault ≢ AsmFault.NoMemory → spec.lay (record { places = places.places_in labels.now; text_size = text_size }) source.now ≡ Err e) }
{
    let names = Names { labels, text_size };
    let mut image = Image {
        text_bytes: Vec::new(alloc),
        data_bytes: Vec::new(alloc),
    };
    write(source, &names, &mut image)?;
    Ok(program(alloc, image, &names)?)
}

/// The program of a source.
pub fn assemble(alloc: Global, source: &str) -> Result<Program, SourceFault>
    // What is answered is what the source says.
    ensures ok { IfOk result (λ p. IsSourceOf source.now p) }
    // What the source says is answered, unless memory runs out.
    ensures only { (p : ProgramValue) → IsSourceOf source.now p → (result ≡ Ok p) ⊎ IsErrAnd result (λ e. e.fault ≡ AsmFault.NoMemory) }
    // A fault is the first in the order of the passes.
    ensures fault { IfErr result (λ e. e.fault ≢ AsmFault.NoMemory → spec.assembled source.now ≡ Err e) }
{
    run(alloc, source)
}

/// The passes.
#[tactic(auto, unfolding(crate::specs::Passes::assembled))]
fn run(alloc: Global, source: &str) -> Result<Program, SourceFault>
    ensures { MatchResult result
        (λ p. (a : Assembled) × (spec.assembled source.now ≡ Ok a) × IsProgramOf a.labels a.layout p)
        (λ e. e.fault ≢ AsmFault.NoMemory → spec.assembled source.now ≡ Err e) }
{
    let source = source.as_bytes();
    let mut labels = BTreeMap::new(alloc);
    let sizes = survey(source, &mut labels)?;
    if sizes.text_size.value() < 4 {
        return Err(SourceFault {
            line: 0,
            fault: AsmFault::TooLarge,
        });
    }
    finish(alloc, source, &labels, sizes.text_size)
}
