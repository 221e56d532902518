ghost use Rattle.std.specs.Prelude.{◌≡◌, ◌+◌, ◌*◌, ◌^◌, ◌<◌, ◌≤◌, length};
ghost use Rattle.words.specs.Limits.{block_bytes};
ghost use Rattle.undo_log.specs.Bytes.{record_bytes, record_at, word_at};

use words::{BLOCK_BYTES, BLOCK_WORDS, Block, BlockNo};

/// How many bytes a record has: a word for the block's address, and the block's eight words.
pub const RECORD_BYTES: usize = 36;

/// A block as it was before a store.
#[derive(Clone, Copy, Debug, PartialEq, Eq)]
pub struct Record {
    pub block: BlockNo,
    pub before: Block,
}

impl Record {
    /// The record as it stands in a log.
    pub(crate) fn to_bytes(&self) -> [u8; RECORD_BYTES]
        requires { block_bytes * self.now.block < 2 ^ 32 }
        ensures { result ≡ record_bytes self.now }
    {
        let mut bytes = [0; RECORD_BYTES];
        let address = BLOCK_BYTES as u32 * self.block.number();
        bytes[..4].copy_from_slice(&address.to_le_bytes());
        for k in 0..BLOCK_WORDS {
            let at = 4 + 4 * k;
            bytes[at..at + 4].copy_from_slice(&self.before[k].to_le_bytes());
        }
        bytes
    }
}

/// The word at a place, its lowest byte first.
pub fn read_word(bytes: &[u8], at: usize) -> u32
    requires { at + 4 ≤ length bytes.now }
    ensures { result ≡ word_at bytes.now at }
{
    let mut word = [0; 4];
    word.copy_from_slice(&bytes[at..at + 4]);
    u32::from_le_bytes(word)
}

/// The record at a place.
pub fn read_record(bytes: &[u8], at: usize) -> Record
    requires { at + 36 ≤ length bytes.now }
    ensures { result ≡ record_at bytes.now at }
{
    let mut before = [0; BLOCK_WORDS];
    for k in 0..BLOCK_WORDS {
        before[k] = read_word(bytes, at + 4 + 4 * k);
    }
    Record {
        block: BlockNo::new(read_word(bytes, at) / BLOCK_BYTES as u32),
        before,
    }
}
