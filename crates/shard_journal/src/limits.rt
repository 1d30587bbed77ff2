//! The limit of a journal's file. Code and definitions share it.

/// How many bytes a file has at most, up to the byte behind its last block.
pub const FILE_LIMIT: usize = 268_435_456;
