//! The limits of a diary. Code and definitions share them.

/// How many entries a diary has at most.
pub const ENTRIES_LIMIT: usize = 1_048_576;

/// How much a diary weighs at most, in bytes of memory.
pub const DIARY_WEIGHT_LIMIT: u64 = 33_554_432;

/// What each identity that a peek found weighs.
pub const IDENTITY_WEIGHT: u64 = 16;
