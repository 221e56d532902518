//! The sections of a file.
ghost use Rattle.std.specs.Prelude.{◌≡◌, ◌+◌, ◌≤◌, length, IfOk, option_map};
ghost use Rattle.disassembler.specs.Sections.{section_header, has_headers, headers_offset, headers_len, sections, contents, is_text, text_section};

use crate::fields::{u16_at, u32_at};
use std::alloc::{AllocError, Global};

/// How many bytes the header of the file has.
const FILE_HEADER_BYTES: usize = 52;

/// How many bytes the header of a section has.
const SECTION_HEADER_BYTES: usize = 40;

/// What of a section's header is read: the Elf32_Shdr of the System V ABI.
#[derive(Clone, Copy, Debug)]
pub struct Section {
    /// sh_type
    pub kind: u32,
    /// sh_flags
    pub flags: u32,
    /// sh_addr
    pub addr: u32,
    /// sh_offset, where its bytes begin in the file
    pub offset: u32,
    /// sh_size
    pub size: u32,
    /// sh_link, of a symbol table the section with its names
    pub link: u32,
    /// sh_entsize
    pub entry_size: u32,
}

impl Section {
    /// The header at a place in the file.
    fn read(bytes: &[u8], at: usize) -> Self
        requires { at + SECTION_HEADER_BYTES ≤ length bytes.now }
        ensures { result ≡ section_header bytes.now at }
    {
        Section {
            kind: u32_at(bytes, at + 4),
            flags: u32_at(bytes, at + 8),
            addr: u32_at(bytes, at + 12),
            offset: u32_at(bytes, at + 16),
            size: u32_at(bytes, at + 20),
            link: u32_at(bytes, at + 24),
            entry_size: u32_at(bytes, at + 36),
        }
    }

    /// Its bytes in the file, if the file has them all.
    pub(crate) fn contents<'a>(&self, bytes: &'a [u8]) -> Option<&'a [u8]>
        ensures { option_map (λ part. part.now) result ≡ contents bytes.now self.now }
    {
        let start = self.offset as usize;
        let end = start + self.size as usize;
        if end > bytes.len() {
            return None;
        }
        Some(&bytes[start..end])
    }

    /// Whether it has instructions, SHF_EXECINSTR.
    fn is_text(&self) -> bool
        ensures { result ≡ is_text self.now }
    {
        (self.flags >> 2) & 1 == 1
    }
}

/// Whether the file has the headers of all its sections.
fn has_headers(bytes: &[u8]) -> bool
    ensures { result ≡ has_headers bytes.now }
{
    bytes.len() >= FILE_HEADER_BYTES
        && usize::from(u16_at(bytes, 46)) == SECTION_HEADER_BYTES
        && headers_offset(bytes) + SECTION_HEADER_BYTES * headers_len(bytes) <= bytes.len()
}

/// Where the headers begin in the file, e_shoff.
fn headers_offset(bytes: &[u8]) -> usize
    requires { FILE_HEADER_BYTES ≤ length bytes.now }
    ensures { result ≡ headers_offset bytes.now }
{
    u32_at(bytes, 32) as usize
}

/// How many headers there are, e_shnum.
fn headers_len(bytes: &[u8]) -> usize
    requires { FILE_HEADER_BYTES ≤ length bytes.now }
    ensures { result ≡ headers_len bytes.now }
{
    usize::from(u16_at(bytes, 48))
}

/// The headers of the file's sections, none where not all of them are there.
pub(crate) fn sections(alloc: Global, bytes: &[u8]) -> Result<Vec<Section>, AllocError>
    ensures { IfOk result (λ headers. headers.items ≡ sections bytes.now) }
{
    let mut sections = Vec::new(alloc);
    if has_headers(bytes) {
        let offset = headers_offset(bytes);
        for i in 0..headers_len(bytes) {
            sections.push(Section::read(bytes, offset + SECTION_HEADER_BYTES * i))?;
        }
    }
    Ok(sections)
}

/// The section with a number, if it has instructions. Number 0 is none.
pub(crate) fn text_section(sections: &[Section], number: u16) -> Option<Section>
    ensures { result ≡ text_section sections.now number }
{
    if number == 0 {
        return None;
    }
    match sections.get(usize::from(number)) {
        Some(section) if section.is_text() => Some(*section),
        _ => None,
    }
}
