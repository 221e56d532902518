ghost use Rattle.std.specs.Prelude.{◌≡◌, ◌+◌, ◌≤◌, length, slice_index};
ghost use Rattle.words.specs.declared.entry.Width.TheVariants.{Half, Word};
ghost use Rattle.words.specs.Bytes.{number_at};
ghost use Rattle.loader.specs.Headers.{file_header, segment_header, is_compressed, has_sizes, table_end, is_loaded, is_executable, is_writable, file_end, memory_end, share};

/// How many bytes the header of the file has.
pub const FILE_HEADER_BYTES: usize = 52;

/// How many bytes the header of a segment has.
pub const SEGMENT_HEADER_BYTES: usize = 32;

/// The kind of a header whose segment is loaded, PT_LOAD.
pub const LOADED: u32 = 1;

/// What of the file's header is read: the Elf32_Ehdr of the System V ABI.
#[derive(Clone, Copy, Debug)]
pub struct FileHeader {
    /// e_type
    pub kind: u16,
    /// e_machine
    pub machine: u16,
    /// e_version
    pub version: u32,
    /// e_entry
    pub entry: u32,
    /// e_phoff, where the headers of the segments begin in the file
    pub table_offset: u32,
    /// e_flags
    pub flags: u32,
    /// e_ehsize
    pub header_size: u16,
    /// e_phentsize
    pub table_entry_size: u16,
    /// e_phnum, how many headers of segments there are
    pub table_len: u16,
}

/// What of a segment's header is read: the Elf32_Phdr of the System V ABI.
#[derive(Clone, Copy, Debug)]
pub struct SegmentHeader {
    /// p_type
    pub kind: u32,
    /// p_offset, where the segment's bytes begin in the file
    pub offset: u32,
    /// p_vaddr
    pub addr: u32,
    /// p_filesz
    pub file_size: u32,
    /// p_memsz
    pub memory_size: u32,
    /// p_flags
    pub flags: u32,
}

fn u16_at(bytes: &[u8], at: usize) -> u16
    requires { at + 2 ≤ length bytes.now }
    ensures { result ≡ number_at (slice_index bytes.now) at Half }
{
    u16::from_le_bytes([bytes[at], bytes[at + 1]])
}

fn u32_at(bytes: &[u8], at: usize) -> u32
    requires { at + 4 ≤ length bytes.now }
    ensures { result ≡ number_at (slice_index bytes.now) at Word }
{
    u32::from_le_bytes([bytes[at], bytes[at + 1], bytes[at + 2], bytes[at + 3]])
}

impl FileHeader {
    /// The header at the file's beginning.
    pub fn read(bytes: &[u8]) -> Self
        requires { FILE_HEADER_BYTES ≤ length bytes.now }
        ensures { result ≡ file_header bytes.now }
    {
        FileHeader {
            kind: u16_at(bytes, 16),
            machine: u16_at(bytes, 18),
            version: u32_at(bytes, 20),
            entry: u32_at(bytes, 24),
            table_offset: u32_at(bytes, 28),
            flags: u32_at(bytes, 36),
            header_size: u16_at(bytes, 40),
            table_entry_size: u16_at(bytes, 42),
            table_len: u16_at(bytes, 44),
        }
    }

    /// Whether the file says that it has compressed instructions, EF_RISCV_RVC.
    pub fn is_compressed(&self) -> bool
        ensures { result ≡ is_compressed self.now }
    {
        self.flags & 1 == 1
    }

    /// Whether both headers have the sizes of this format. That of a segment counts only where there is one.
    pub fn has_sizes(&self) -> bool
        ensures { result ≡ has_sizes self.now }
    {
        usize::from(self.header_size) == FILE_HEADER_BYTES
            && (self.table_len == 0 || usize::from(self.table_entry_size) == SEGMENT_HEADER_BYTES)
    }

    /// Where the headers of the segments end in the file, 0 where there are none.
    pub fn table_end(&self) -> usize
        ensures { result ≡ table_end self.now }
    {
        if self.table_len == 0 {
            0
        } else {
            self.table_offset as usize + SEGMENT_HEADER_BYTES * usize::from(self.table_len)
        }
    }
}

impl SegmentHeader {
    /// The header at a place in the file.
    pub fn read(bytes: &[u8], at: usize) -> Self
        requires { at + SEGMENT_HEADER_BYTES ≤ length bytes.now }
        ensures { result ≡ segment_header bytes.now at }
    {
        SegmentHeader {
            kind: u32_at(bytes, at),
            offset: u32_at(bytes, at + 4),
            addr: u32_at(bytes, at + 8),
            file_size: u32_at(bytes, at + 16),
            memory_size: u32_at(bytes, at + 20),
            flags: u32_at(bytes, at + 24),
        }
    }

    /// Whether it stands for a segment of the program.
    pub fn is_loaded(&self) -> bool
        ensures { result ≡ is_loaded self.now }
    {
        self.kind == LOADED && self.memory_size > 0
    }

    pub fn is_executable(&self) -> bool
        ensures { result ≡ is_executable self.now }
    {
        self.flags & 1 == 1
    }

    pub fn is_writable(&self) -> bool
        ensures { result ≡ is_writable self.now }
    {
        (self.flags >> 1) & 1 == 1
    }

    /// Where its bytes end in the file, 0 where it has none there.
    pub fn file_end(&self) -> usize
        ensures { result ≡ file_end self.now }
    {
        if self.file_size == 0 {
            0
        } else {
            self.offset as usize + self.file_size as usize
        }
    }

    /// Where it ends in memory.
    pub fn memory_end(&self) -> usize
        ensures { result ≡ memory_end self.now }
    {
        self.addr as usize + self.memory_size as usize
    }

    /// Whether the two segments share a byte of memory, where each has one.
    pub fn shares(&self, other: &SegmentHeader) -> bool
        ensures { result ≡ share self.now other.now }
    {
        (self.addr as usize) < other.memory_end() && (other.addr as usize) < self.memory_end()
    }
}
