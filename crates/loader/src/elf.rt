ghost use Rattle.std.specs.Prelude.{◌≡◌, ◌≢◌, ◌⊎◌, ◌≤◌, ◌<◌, not, map, take, drop, length, IfOk, Ok, Err, Some, None, MatchResult};
ghost use Rattle.std.specs.Result.{IfErr};
ghost use Rattle.std.specs.List.{flat_map, AllByRecursion, IsAllAdjacentAnswer};
ghost use Rattle.std.specs.List.Sorted.{IsPermutation, IsNonDecreasingBy};
ghost use Rattle.loader.specs.Headers.{file_header, table_end, loaded_headers, segment_of, share};
ghost use Rattle.words.specs.First.{first};
ghost use Rattle.loader.specs.Checks.{is_elf32, file_checks, segment_checks, some_share, table_checks, can_begin, fault_of, IsFault};
ghost use Rattle.loader.specs.Elf.{IsElfOf, program_of};
ghost use Rattle.loader.specs.Programs.{Program as ProgramValue};
ghost use Rattle.loader.specs.declared.fault.LoadFault.TheVariants.{NoMemory};

use crate::fault::LoadFault;
use crate::headers::{FILE_HEADER_BYTES, FileHeader, SEGMENT_HEADER_BYTES, SegmentHeader};
use crate::program::Program;
use std::alloc::{AllocError, Global};
use table::{Segment, Text};
use words::Addr;

/// Where memory ends that a program may fill: 4 MiB.
const MEMORY_END: usize = 4_194_304;

/// How the file begins: the magic number, and then 32-bit, little-endian and version 1.
pub const IDENT: [u8; 7] = [0x7f, b'E', b'L', b'F', 1, 1, 1];

/// EM_RISCV
pub const RISCV: u16 = 243;

/// ET_EXEC
pub const EXECUTABLE: u16 = 2;

/// Whether the file is of this format.
fn is_elf32(bytes: &[u8]) -> bool
    requires { FILE_HEADER_BYTES ≤ length bytes.now }
    ensures { result ≡ is_elf32 bytes.now }
{
    bytes.starts_with(&IDENT) && FileHeader::read(bytes).version == 1
}

/// The checks of the file's header.
fn check_file(bytes: &[u8]) -> Result<(), LoadFault>
    ensures { MatchResult result (λ _. first (file_checks bytes.now) ≡ None) (λ fault. first (file_checks bytes.now) ≡ Some fault) }
{
    if bytes.len() < FILE_HEADER_BYTES {
        return Err(LoadFault::Truncated);
    }
    if !is_elf32(bytes) {
        return Err(LoadFault::NotElf32);
    }
    let header = FileHeader::read(bytes);
    if header.machine != RISCV {
        return Err(LoadFault::NotRiscv);
    }
    if header.kind != EXECUTABLE {
        return Err(LoadFault::NotExec);
    }
    if header.is_compressed() {
        return Err(LoadFault::Compressed);
    }
    if !header.has_sizes() {
        return Err(LoadFault::BadHeaderSize);
    }
    if header.table_end() > bytes.len() {
        return Err(LoadFault::Truncated);
    }
    Ok(())
}

/// The checks of one segment's header.
fn check_segment(bytes: &[u8], header: &SegmentHeader) -> Result<(), LoadFault>
    ensures { MatchResult result (λ _. first (segment_checks bytes.now header.now) ≡ None) (λ fault. first (segment_checks bytes.now header.now) ≡ Some fault) }
{
    if header.file_end() > bytes.len() {
        return Err(LoadFault::Truncated);
    }
    if header.file_size > header.memory_size || header.memory_end() > MEMORY_END {
        return Err(LoadFault::SegmentOutside);
    }
    if header.is_writable() && header.is_executable() {
        return Err(LoadFault::WritableText);
    }
    Ok(())
}

/// The headers of the segments that are loaded, in the table's order, each of them checked.
fn loaded_headers(
    alloc: Global,
    bytes: &[u8],
    header: &FileHeader,
) -> Result<Vec<SegmentHeader>, LoadFault>
    requires header { header.now ≡ file_header bytes.now }
    requires table { table_end header.now ≤ length bytes.now }
    ensures ok { IfOk result (λ headers. (headers.items ≡ loaded_headers bytes.now) × (first (flat_map (segment_checks bytes.now) headers.items) ≡ None)) }
    ensures fault { IfErr result (λ fault. IsFault fault (first (flat_map (segment_checks bytes.now) (loaded_headers bytes.now)))) }
{
    let mut headers = Vec::new(alloc);
    for i in 0..header.table_len {
        let at = header.table_offset as usize + SEGMENT_HEADER_BYTES * usize::from(i);
        let segment = SegmentHeader::read(bytes, at);
        if !segment.is_loaded() {
            continue;
        }
        check_segment(bytes, &segment)?;
        headers.push(segment)?;
    }
    Ok(headers)
}

/// The same headers by rising address.
fn rising(alloc: Global, headers: &[SegmentHeader]) -> Result<Vec<SegmentHeader>, AllocError>
    ensures moved { IfOk result (λ rising. IsPermutation headers.now rising.items) }
    ensures rising { IfOk result (λ rising. IsNonDecreasingBy (λ h. h.addr) rising.items) }
{
    let mut rising = Vec::from_slice(alloc, headers)?;
    rising.sort_unstable_by_key(|header| header.addr);
    Ok(rising)
}

/// Whether no segment shares a byte with the next one.
fn neighbours_stand_apart(headers: &[SegmentHeader]) -> bool
    ensures { IsAllAdjacentAnswer (λ h k yes. yes ≡ not (share h k)) headers.now result }
{
    headers.is_sorted_by(|header, next| !header.shares(next))
}

/// Whether any two segments share a byte. By rising address two neighbours then do.
fn some_share(alloc: Global, headers: &[SegmentHeader]) -> Result<bool, AllocError>
    requires { AllByRecursion (λ h. 0 < h.memory_size) headers.now }
    ensures { IfOk result (λ yes. yes ≡ some_share headers.now) }
{
    let rising = rising(alloc, headers)?;
    Ok(!neighbours_stand_apart(&rising))
}

/// The headers of the segments that are loaded, which are checked each in turn and then all together.
fn checked_headers(
    alloc: Global,
    bytes: &[u8],
    header: &FileHeader,
) -> Result<Vec<SegmentHeader>, LoadFault>
    requires header { header.now ≡ file_header bytes.now }
    requires table { table_end header.now ≤ length bytes.now }
    ensures ok { IfOk result (λ headers. (headers.items ≡ loaded_headers bytes.now) × (first (table_checks bytes.now) ≡ None)) }
    ensures fault { IfErr result (λ fault. IsFault fault (first (table_checks bytes.now))) }
{
    let headers = loaded_headers(alloc, bytes, header)?;
    let share = some_share(alloc, &headers)?;
    if share {
        return Err(LoadFault::SegmentOverlap);
    }
    Ok(headers)
}

/// The segment's bytes in the file.
fn file_bytes<'a>(bytes: &'a [u8], header: &SegmentHeader) -> &'a [u8]
    ensures { result.now ≡ take header.now.file_size (drop header.now.offset bytes.now) }
{
    let start = bytes.len().min(header.offset as usize);
    let end = bytes.len().min(start + header.file_size as usize);
    &bytes[start..end]
}

/// The segments that the headers stand for. No two share memory here, so they have 4 MiB together at most.
fn segments(
    alloc: Global,
    bytes: &[u8],
    headers: &[SegmentHeader],
) -> Result<Vec<Segment>, AllocError>
    ensures { IfOk result (λ segments. segments.items ≡ map (segment_of bytes.now) headers.now) }
{
    let mut segments = Vec::new(alloc);
    for header in headers {
        segments.push(Segment {
            addr: header.addr,
            bytes: Vec::from_slice(alloc, file_bytes(bytes, header))?,
            size: header.memory_size,
            exec: header.is_executable(),
        })?;
    }
    Ok(segments)
}

/// Whether a program of these segments can begin at the entry.
fn can_begin(segments: &[Segment], entry: Addr) -> bool
    ensures { result ≡ can_begin entry segments.now }
{
    entry.value() % 4 == 0 && Text::new(segments).word(entry).is_some()
}

/// Reads the file, its checks in their order.
fn load(alloc: Global, bytes: &[u8]) -> Result<Program, LoadFault>
    ensures ok { IfOk result (λ p. (fault_of bytes.now ≡ None) × (p ≡ program_of bytes.now)) }
    ensures fault { IfErr result (λ fault. IsFault fault (fault_of bytes.now)) }
{
    check_file(bytes)?;
    let header = FileHeader::read(bytes);
    let headers = checked_headers(alloc, bytes, &header)?;
    let segments = segments(alloc, bytes, &headers)?;
    let entry = Addr::new(header.entry);
    if !can_begin(&segments, entry) {
        return Err(LoadFault::BadEntry);
    }
    Ok(Program::new(entry, segments))
}

/// The program that an ELF file is: a 32-bit little-endian executable for RISC-V without compressed
/// instructions, after the System V ABI's chapter on object files and the RISC-V ELF psABI.
///
/// Nothing is asked of sections, of program headers of another kind or without memory, of physical
/// addresses, of alignment or of other flags. A segment's memory beyond its bytes in the file is 0.
/// `NoMemory` can come in place of any other answer.
pub fn read_elf(alloc: Global, bytes: &[u8]) -> Result<Program, LoadFault>
    // What is read is what the file says.
    ensures ok { IfOk result (λ p. IsElfOf bytes.now p) }
    // What the file says is read, unless memory runs out.
    ensures only { (p : ProgramValue) → IsElfOf bytes.now p → (result ≡ Ok p) ⊎ (result ≡ Err NoMemory) }
    // A fault is that of the first check that fails.
    ensures fault { IfErr result (λ fault. fault ≢ NoMemory → fault_of bytes.now ≡ Some fault) }
{
    load(alloc, bytes)
}
