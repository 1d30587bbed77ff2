//! The limits of a log: how many nodes each role has, and what depends on the edition alone. Code and
//! definitions share them.

/// The most clients of a log. The number of a client is one byte of a frame.
pub const MAX_CLIENTS: u32 = 256;

/// The most sequencing replicas of a log, its spares among them: three may be lost of a majority, and
/// what each acknowledges costs a message.
pub const MAX_SEQ: u32 = 7;

/// The most shards of a log.
pub const MAX_SHARDS: u32 = 8;

/// The most replicas of a shard.
pub const MAX_COPIES: u32 = 4;

/// How many consecutive numbers of a client may be unfinished in edition One: as many as four words
/// have bits.
pub const WINDOW_ONE: u32 = 256;

/// The same in edition Two: as many as 64 words have bits.
pub const WINDOW_TWO: u32 = 4_096;

/// The most bytes of data that a record has in edition One.
pub const RECORD_LIMIT_ONE: usize = 4_096;

/// The same in edition Two.
pub const RECORD_LIMIT_TWO: usize = 65_536;

/// The most bytes of a line of a script in edition One, its newline not counted: room for the data of a
/// record and for the words before it.
pub const LINE_LIMIT_ONE: usize = 5_000;

/// The same in edition Two.
pub const LINE_LIMIT_TWO: usize = 70_000;
