ghost use Rattle.std.specs.Prelude.{◌≡◌, ◌+◌, ◌*◌, ◌++◌, ◌<◌, ◌≤◌, ◌^◌, length, OnOk, IfOk};
ghost use Rattle.std.specs.List.{flat_map};
ghost use Rattle.loader.specs.Elf.{IsElfOf};
ghost use Rattle.loader.specs.Writing.{field_bytes, file_fields, segment_fields, table_fields, contents, elf_of};

use crate::elf::{EXECUTABLE, IDENT, RISCV};
use crate::headers::{FILE_HEADER_BYTES, LOADED, SEGMENT_HEADER_BYTES};
use crate::program::Program;
use std::alloc::{AllocError, Global};
use table::Segment;
use words::Addr;

/// The flags of text, PF_R and PF_X.
const TEXT_FLAGS: u32 = 5;

/// The flags of data, PF_R and PF_W.
const DATA_FLAGS: u32 = 6;

/// A number in a header, in the sizes of the System V ABI.
#[derive(Clone, Copy, Debug)]
pub enum Field {
    /// Elf32_Half
    Half(u16),
    /// Elf32_Word, Elf32_Addr and Elf32_Off
    Word(u32),
}

/// Appends fields, the lowest byte of each first.
fn append_fields(file: &mut Vec<u8>, fields: &[Field]) -> Result<(), AllocError>
    ensures { OnOk result (file.new.items ≡ file.old.items ++ flat_map field_bytes fields.now) }
{
    for field in fields {
        match field {
            Field::Half(value) => file.extend_from_slice(&value.to_le_bytes())?,
            Field::Word(value) => file.extend_from_slice(&value.to_le_bytes())?,
        }
    }
    Ok(())
}

/// The fields of the file's header behind e_ident.
fn file_fields(entry: Addr, count: u16) -> [Field; 13]
    ensures { result ≡ file_fields entry count }
{
    [
        Field::Half(EXECUTABLE), // e_type
        Field::Half(RISCV), // e_machine
        Field::Word(1), // e_version
        Field::Word(entry.value()), // e_entry
        Field::Word(FILE_HEADER_BYTES as u32), // e_phoff
        Field::Word(0), // e_shoff
        Field::Word(0), // e_flags
        Field::Half(FILE_HEADER_BYTES as u16), // e_ehsize
        Field::Half(SEGMENT_HEADER_BYTES as u16), // e_phentsize
        Field::Half(count), // e_phnum
        Field::Half(0), // e_shentsize
        Field::Half(0), // e_shnum
        Field::Half(0), // e_shstrndx
    ]
}

/// The fields of the header of a segment whose bytes begin at this place in the file.
fn segment_fields(offset: u32, segment: &Segment) -> [Field; 8]
    requires { length segment.now.bytes < 2 ^ 32 }
    ensures { result ≡ segment_fields offset segment.now }
{
    let flags = if segment.exec { TEXT_FLAGS } else { DATA_FLAGS };
    [
        Field::Word(LOADED), // p_type
        Field::Word(offset), // p_offset
        Field::Word(segment.addr), // p_vaddr
        Field::Word(segment.addr), // p_paddr
        Field::Word(segment.bytes.len() as u32), // p_filesz
        Field::Word(segment.size), // p_memsz
        Field::Word(flags), // p_flags
        Field::Word(1), // p_align
    ]
}

/// Appends the headers of the segments, whose bytes are to come next.
fn append_table(file: &mut Vec<u8>, segments: &[Segment]) -> Result<(), AllocError>
    requires few { length segments.now ≤ 65535 }
    requires bytes { length (contents segments.now) ≤ 4194304 }
    ensures { OnOk result (file.new.items ≡ file.old.items ++ flat_map field_bytes (table_fields (52 + 32 * length segments.now) segments.now)) }
{
    let mut offset = FILE_HEADER_BYTES + SEGMENT_HEADER_BYTES * segments.len();
    for segment in segments {
        append_fields(file, &segment_fields(offset as u32, segment))?;
        offset += segment.bytes.len();
    }
    Ok(())
}

/// Appends the bytes of the segments.
fn append_contents(file: &mut Vec<u8>, segments: &[Segment]) -> Result<(), AllocError>
    ensures { OnOk result (file.new.items ≡ file.old.items ++ contents segments.now) }
{
    for segment in segments {
        file.extend_from_slice(&segment.bytes)?;
    }
    Ok(())
}

/// The ELF file of a program: an executable without sections, with a header for each segment in the program's
/// order, and the segments' bytes end to end. Text may be read and executed, data read and written. The only
/// error is that memory ran out.
pub fn write_elf(alloc: Global, program: &Program) -> Result<Vec<u8>, AllocError>
    ensures bytes { IfOk result (λ file. file.items ≡ elf_of program.now) }
    // The file is read as this very program.
    ensures read { IfOk result (λ file. IsElfOf file.items program.now) }
{
    let segments = program.segments();
    let mut file = Vec::from_slice(alloc, &IDENT)?;
    file.extend_from_slice(&[0; 9])?;
    append_fields(
        &mut file,
        &file_fields(program.entry(), segments.len() as u16),
    )?;
    append_table(&mut file, segments)?;
    append_contents(&mut file, segments)?;
    Ok(file)
}
