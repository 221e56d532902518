use std::alloc::{AllocError, Global};
use std::collections::{BTreeMap, BTreeSet};
use words::Status;

/// The values of the registers. That of x0 stays 0.
pub type Registers = [u32; 32];

/// A running transaction.
#[derive(Clone, Debug, Drop, PartialEq, Eq, Hash)]
pub(crate) struct Attempt {
    pub(crate) checkpoint: Registers,
    pub(crate) abort_pc: u32,
    pub(crate) depth: u32,
    /// How many stores were retired in it, counted up to 113.
    pub(crate) stores: u32,
    /// The bytes that it wrote, by address.
    pub(crate) bytes: BTreeMap<u32, u8>,
    /// The blocks that it read, and those that it wrote.
    pub(crate) read: BTreeSet<u32>,
    pub(crate) written: BTreeSet<u32>,
}

#[derive(Clone, Debug, Drop, PartialEq, Eq)]
#[derive_where(Hash)]
pub(crate) struct Core {
    pub(crate) regs: Registers,
    pub(crate) pc: u32,
    pub(crate) output: Vec<u8>,
    #[derive_where(skip(Hash))]
    pub(crate) status: Status,
    pub(crate) attempt: Option<Attempt>,
    /// The block that it has reserved.
    pub(crate) reserved: Option<u32>,
}

/// A state: the harts, and the bytes of memory that differ from those that it began with.
#[derive(Clone, Debug, Drop, PartialEq, Eq, Hash)]
pub(crate) struct Whole {
    pub(crate) cores: Vec<Core>,
    pub(crate) memory: BTreeMap<u32, u8>,
}

impl Attempt {
    /// One that begins.
    pub(crate) fn new(alloc: Global, checkpoint: Registers, abort_pc: u32) -> Self {
        Attempt {
            checkpoint,
            abort_pc,
            depth: 1,
            stores: 0,
            bytes: BTreeMap::new(alloc),
            read: BTreeSet::new(alloc),
            written: BTreeSet::new(alloc),
        }
    }
}

impl Core {
    pub(crate) fn runs(&self) -> bool {
        self.status == Status::Running
    }

    /// How deep it is in transactions.
    pub(crate) fn depth(&self) -> u32 {
        match &self.attempt {
            Some(attempt) => attempt.depth,
            None => 0,
        }
    }

    /// Whether its transaction keeps others from this access to the block.
    pub(crate) fn keeps(&self, block: u32, stores: bool) -> bool {
        match &self.attempt {
            Some(attempt) => {
                attempt.written.contains(&block) || (stores && attempt.read.contains(&block))
            }
            None => false,
        }
    }
}

impl Whole {
    /// Whether no hart runs.
    pub(crate) fn is_ended(&self) -> bool {
        for core in &self.cores {
            if core.runs() {
                return false;
            }
        }
        true
    }

    /// Whether a hart other than this one, and other than that one, is in a transaction.
    pub(crate) fn is_beside(&self, this: usize, that: usize) -> bool {
        for (k, core) in self.cores.iter().enumerate() {
            if k != this && k != that && core.depth() > 0 {
                return true;
            }
        }
        false
    }

    /// Whether a transaction of another hart than this one keeps it from this access to the block.
    pub(crate) fn is_kept_from(&self, this: usize, block: u32, stores: bool) -> bool {
        for (k, core) in self.cores.iter().enumerate() {
            if k != this && core.keeps(block, stores) {
                return true;
            }
        }
        false
    }

    /// The same in memory of its own.
    pub(crate) fn copy(&self) -> Result<Whole, AllocError> {
        self.clone()
    }
}
