/// How many bytes the undo log of a hart has.
pub const LOG_BYTES: usize = 4096;

/// How many records an undo log holds at most.
pub const LOG_RECORDS: usize = 113;

/// How many bytes the stack of a hart has.
pub const STACK_BYTES: usize = 4096;
