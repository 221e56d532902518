use crate::tests::claims::{equal, equal_at, equal_items, holds, holds_at};
use crate::tests::sample::SAMPLE;
use loader::{LoadFault, Program, read_elf, write_elf};
use std::alloc::{AllocError, Global};
use std::process::Abort;
use std::test::Fail;
use table::Segment;
use words::Addr;

/// What clang and ld.lld made of a text of five instructions, a word 7 of data and 8 bytes behind it, once llvm-objcopy had taken
/// its sections off. readelf and llvm-readelf accept it, also with 1 for the alignment of text.
#[rattlefmt::skip]
const LINKED: [u8; 140] = [
    0x7f, 0x45, 0x4c, 0x46, 0x01, 0x01, 0x01, 0x00, 0x00, 0x00, 0x00, 0x00, 0x00, 0x00, 0x00, 0x00,
    0x02, 0x00, 0xf3, 0x00, 0x01, 0x00, 0x00, 0x00, 0x00, 0x10, 0x00, 0x00, 0x34, 0x00, 0x00, 0x00,
    0x00, 0x00, 0x00, 0x00, 0x00, 0x00, 0x00, 0x00, 0x34, 0x00, 0x20, 0x00, 0x02, 0x00, 0x00, 0x00,
    0x00, 0x00, 0x00, 0x00,
    0x01, 0x00, 0x00, 0x00, 0x74, 0x00, 0x00, 0x00, 0x00, 0x10, 0x00, 0x00, 0x00, 0x10, 0x00, 0x00,
    0x14, 0x00, 0x00, 0x00, 0x14, 0x00, 0x00, 0x00, 0x05, 0x00, 0x00, 0x00, 0x04, 0x00, 0x00, 0x00,
    0x01, 0x00, 0x00, 0x00, 0x88, 0x00, 0x00, 0x00, 0x00, 0x20, 0x00, 0x00, 0x00, 0x20, 0x00, 0x00,
    0x04, 0x00, 0x00, 0x00, 0x0c, 0x00, 0x00, 0x00, 0x06, 0x00, 0x00, 0x00, 0x01, 0x00, 0x00, 0x00,
    0xb7, 0x22, 0x00, 0x00, 0x03, 0xa5, 0x02, 0x00, 0x23, 0xa2, 0xa2, 0x00, 0x93, 0x08, 0xd0, 0x05, 0x73, 0x00, 0x00, 0x00,
    0x07, 0x00, 0x00, 0x00,
];

/// Places in the sample.
const ENTRY: usize = 24;

const TABLE_LEN: usize = 44;

const KIND: usize = 52;

const ADDR: usize = 60;

const FILE_SIZE: usize = 68;

const MEMORY_SIZE: usize = 72;

const FLAGS: usize = 76;

const ALIGN: usize = 80;

/// How much later a place lies in the second header.
const SECOND: usize = 32;

/// The bytes with a number of four bytes set at each of some places.
fn set(bytes: &mut [u8], changes: &[(usize, u32)]) {
    for (at, number) in changes {
        for (i, byte) in number.to_le_bytes().iter().enumerate() {
            if let Some(place) = bytes.get_mut(at.saturating_add(i)) {
                *place = *byte;
            }
        }
    }
}

fn sample_with(rt: &(impl Abort + AllocGlobal), changes: &[(usize, u32)]) -> Vec<u8> {
    let mut bytes = Vec::from_slice(rt.alloc(), &SAMPLE).expect(rt, "memory");
    set(&mut bytes, changes);
    bytes
}

/// The sample with its segment's header twice, the second at 0x2000 and for data.
fn two_headers_with(rt: &(impl Abort + AllocGlobal), changes: &[(usize, u32)]) -> Vec<u8> {
    let mut bytes = Vec::from_slice(rt.alloc(), &SAMPLE[..84]).expect(rt, "memory");
    bytes.extend_from_slice(&SAMPLE[52..]).expect(rt, "memory");
    let offset = KIND + 4;
    let second = [
        (TABLE_LEN, 2),
        (offset, 116),
        (offset + SECOND, 116),
        (ADDR + SECOND, 0x2000),
        (FLAGS + SECOND, 6),
    ];
    set(&mut bytes, &second);
    set(&mut bytes, changes);
    bytes
}

/// The program of a file, which is read.
fn read(rt: &(impl Abort + AllocGlobal), bytes: &[u8]) -> Program {
    read_elf(rt.alloc(), bytes).expect(rt, "a program")
}

fn fault(alloc: Global, bytes: &[u8]) -> Option<LoadFault> {
    read_elf(alloc, bytes).err()
}

fn is_sample(program: &Program) -> bool {
    program.entry() == Addr::new(0x1000)
        && match program.segments() {
            [segment] => {
                segment.addr == 0x1000
                    && segment.size == 12
                    && segment.exec
                    && segment.bytes[..] == SAMPLE[84..]
            }
            _ => false,
        }
}

/// That the text of a program has this word there, or none.
fn check_word(rt: &impl Abort, program: &Program, addr: u32, want: Option<u32>) {
    equal(rt, &program.text().word(Addr::new(addr)), &want);
}

/// That a program is the sample, and has its words.
fn check_sample(rt: &impl Abort, program: &Program) {
    holds(rt, is_sample(program));
    check_word(rt, program, 0x1000, Some(0x05d0_0893));
    check_word(rt, program, 0x1008, Some(0x0000_0073));
    check_word(rt, program, 0x100c, None);
}

#[test]
fn reads_the_sample(rt: HostRuntime) {
    check_sample(&rt, &read(&rt, &SAMPLE));
}

#[test]
fn prefixes_are_truncated(rt: HostRuntime) -> Result<(), Fail> {
    for len in 0..SAMPLE.len() {
        equal_at(
            &rt,
            &fault(rt.alloc(), &SAMPLE[..len]),
            &Some(LoadFault::Truncated),
            &len,
        );
    }
    Ok(())
}

static FAULTS: [((usize, u32), LoadFault); 22] = [
    ((4, 0x0001_0102), LoadFault::NotElf32),
    ((0, 0x464c_457e), LoadFault::NotElf32),
    ((20, 2), LoadFault::NotElf32),
    ((16, 0x0000_0002), LoadFault::NotRiscv),
    ((16, 0x0000_0003), LoadFault::NotRiscv),
    ((16, 0x00f3_0003), LoadFault::NotExec),
    ((36, 1), LoadFault::Compressed),
    ((40, 0x0020_0000), LoadFault::BadHeaderSize),
    ((40, 0x0000_0034), LoadFault::BadHeaderSize),
    ((TABLE_LEN, 0), LoadFault::BadEntry),
    ((TABLE_LEN, 2), LoadFault::Truncated),
    ((28, 0xffff_fff0), LoadFault::Truncated),
    ((KIND + 4, 0xffff_fff8), LoadFault::Truncated),
    ((KIND + 4, 85), LoadFault::Truncated),
    ((ADDR, 0x003f_fff8), LoadFault::SegmentOutside),
    ((ADDR, 0xffff_fff8), LoadFault::SegmentOutside),
    ((MEMORY_SIZE, 11), LoadFault::SegmentOutside),
    ((FLAGS, 7), LoadFault::WritableText),
    ((FLAGS, 6), LoadFault::BadEntry),
    ((ENTRY, 0x1002), LoadFault::BadEntry),
    ((ENTRY, 0x100c), LoadFault::BadEntry),
    ((KIND, 2), LoadFault::BadEntry),
];

#[test]
fn refuses_each_fault(rt: HostRuntime) {
    for &(change, want) in &FAULTS {
        let bytes = sample_with(&rt, &[change]);
        equal_at(
            &rt,
            &fault(rt.alloc(), &bytes),
            &Some(want),
            &(change.1, change.0),
        );
    }
}

#[test]
fn segments_stand_apart(rt: HostRuntime) {
    let cases = [
        (0x2000, None),
        (0x100c, None),
        (0x0ff4, None),
        (0x1000, Some(LoadFault::SegmentOverlap)),
        (0x100b, Some(LoadFault::SegmentOverlap)),
        (0x0ff5, Some(LoadFault::SegmentOverlap)),
    ];
    for (addr, want) in cases {
        let bytes = two_headers_with(&rt, &[(ADDR + SECOND, addr)]);
        equal_at(&rt, &fault(rt.alloc(), &bytes), &want, &addr);
    }
}

#[test]
fn passes_over_what_is_not_loaded(rt: HostRuntime) {
    let outside = (ADDR + SECOND, 0xffff_ffff);
    let cases = [
        [(KIND + SECOND, 0x7000_0003), outside],
        [(MEMORY_SIZE + SECOND, 0), outside],
        [(32, 0xffff_ffff), (KIND + SECOND, 0)],
    ];
    for changes in cases {
        let bytes = two_headers_with(&rt, &changes);
        holds(&rt, is_sample(&read(&rt, &bytes)));
    }
}

/// That the two words behind those of the sample are 0.
fn check_zeros(rt: &impl Abort, program: &Program) {
    check_word(rt, program, 0x1008, Some(0x0000_0073));
    check_word(rt, program, 0x100c, Some(0));
    check_word(rt, program, 0x1010, Some(0));
}

#[test]
fn memory_beyond_the_file_is_zero(rt: HostRuntime) {
    let bytes = sample_with(&rt, &[(MEMORY_SIZE, 20)]);
    check_zeros(&rt, &read(&rt, &bytes));
}

#[test]
fn an_empty_part_of_the_file_lies_anywhere(rt: HostRuntime) {
    let changes = [(FILE_SIZE + SECOND, 0), (KIND + 4 + SECOND, 0xffff_ffff)];
    let bytes = two_headers_with(&rt, &changes);
    holds(&rt, read_elf(rt.alloc(), &bytes).is_ok());
}

/// Whether the sample is read with this byte there. If not, it isn't for want of memory.
fn is_read_with(rt: &(impl Abort + AllocGlobal), at: usize, value: u8) -> bool {
    let mut bytes = SAMPLE;
    if let Some(byte) = bytes.get_mut(at) {
        *byte = value;
    }
    let fault = fault(rt.alloc(), &bytes);
    holds_at(rt, fault != Some(LoadFault::NoMemory), &(value, at));
    fault.is_none()
}

#[test]
fn any_byte_may_be_any_value(rt: HostRuntime) {
    let mut read: u32 = 0;
    for at in 0..SAMPLE.len() {
        for value in 0..=u8::MAX {
            if is_read_with(&rt, at, value) {
                read = read.saturating_add(1);
            }
        }
    }
    holds(&rt, read > 0);
}

/// Whether two programs are the same.
fn check_same(rt: &impl Abort, program: &Program, other: &Program, want: bool) {
    equal(rt, &program.same(other), &want);
}

#[test]
fn copies_are_the_same(rt: HostRuntime) {
    let program = read(&rt, &SAMPLE);
    let copy = program.copy(rt.alloc()).expect(&rt, "memory");
    holds(&rt, is_sample(&copy));
    check_same(&rt, &program, &copy, true);
    let other = read(&rt, &sample_with(&rt, &[(ENTRY, 0x1004)]));
    check_same(&rt, &program, &other, false);
}

/// Puts the header of a segment of a byte for each address, from the last one down, and then the
/// sample's text.
fn put_headers(bytes: &mut Vec<u8>) -> Result<(), AllocError> {
    let mut header = [0; 32];
    header.copy_from_slice(&SAMPLE[KIND..KIND + SECOND]);
    set(
        &mut header,
        &[
            (FILE_SIZE - KIND, 0),
            (MEMORY_SIZE - KIND, 1),
            (FLAGS - KIND, 6),
        ],
    );
    for i in 1..u32::from(u16::MAX) {
        set(&mut header, &[(ADDR - KIND, 0x0040_0000 - 4 * i)]);
        bytes.extend_from_slice(&header)?;
    }
    bytes.extend_from_slice(&SAMPLE[84..])
}

/// The sample's header with as many segments as a file can have: the sample's, and others of a byte
/// each, one after another from the last address down.
fn full_table(rt: &(impl Abort + AllocGlobal)) -> Vec<u8> {
    let mut bytes = Vec::from_slice(rt.alloc(), &SAMPLE[..84]).expect(rt, "memory");
    put_headers(&mut bytes).expect(rt, "memory");
    let end = KIND + SECOND * usize::from(u16::MAX);
    set(&mut bytes, &[(TABLE_LEN, 0xffff), (KIND + 4, end as u32)]);
    bytes
}

/// The file of a program.
fn written(rt: &(impl Abort + AllocGlobal), program: &Program) -> Vec<u8> {
    write_elf(rt.alloc(), program).expect(rt, "memory")
}

#[test]
fn a_full_table_is_read(rt: HostRuntime) {
    let program = read(&rt, &full_table(&rt));
    equal(&rt, &program.segments().len(), &65_535);
    let again = read(&rt, &written(&rt, &program));
    check_same(&rt, &again, &program, true);
}

/// That these are the text and the data of the linker's file.
fn check_segments(rt: &impl Abort, text: &Segment, data: &Segment) {
    holds(rt, text.exec && !data.exec);
    equal(rt, &(text.addr, text.size), &(0x1000, 20));
    equal(rt, &(data.addr, data.size), &(0x2000, 12));
    equal(rt, &text.bytes.len(), &20);
    equal_items(rt, &data.bytes, &[7, 0, 0, 0]);
}

/// That a program is that of the linker's file.
fn check_linked(rt: &impl Abort, program: &Program) {
    equal(rt, &program.entry(), &Addr::new(0x1000));
    match program.segments() {
        [text, data] => check_segments(rt, text, data),
        _ => holds_at(rt, false, &"the linker's file has two segments"),
    }
}

#[test]
fn a_linked_file_is_read(rt: HostRuntime) {
    check_linked(&rt, &read(&rt, &LINKED));
}

/// That a file is read and written as this one.
fn check_written(rt: &(impl Abort + AllocGlobal), file: &[u8], want: &[u8]) {
    let program = read(rt, file);
    equal_items(rt, written(rt, &program).as_slice(), want);
}

#[test]
fn writes_files(rt: HostRuntime) {
    check_written(&rt, &SAMPLE, &SAMPLE);
    let mut want = LINKED;
    want[ALIGN] = 1;
    check_written(&rt, &LINKED, &want);
}
