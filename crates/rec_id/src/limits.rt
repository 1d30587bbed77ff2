//! The limits of what an identity and a read may name. Code and definitions share them.

/// The greatest number of a client: one byte in a frame.
pub const MAX_CLIENT: u32 = 255;

/// The most positions of one read, and how many a read that asks for the tail covers from its start on.
pub const READ_LIMIT: u32 = 256;
