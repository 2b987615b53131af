//! The ranges of the numbers that an engine is made with.

/// The greatest application process identifier of an engine: the next one is that of idle packets.
pub const MAX_APID: u16 = 2_046;

/// The most words of a pool.
pub const MAX_POOL_WORDS: u16 = 256;

/// The most entries of a journal.
pub const MAX_CAPACITY: u32 = 1_000_000;
