//! The limits of messages: how many members their lists have, and what they weigh. Code and
//! definitions share them.

/// The most items of a batch, and so of the lists of a Place, a Copy and an Order.
pub const BATCH_LIMIT: u32 = 64;

/// The most items that a sequencing replica keeps unbound, and so of the lists of a Sealed, a Flush and
/// a FlushCopy.
pub const PENDING_LIMIT: u32 = 4_096;

/// Times are below this: a time and a node's number fit a word together.
pub const TIME_LIMIT: u64 = 1_099_511_627_776;

/// What each message weighs beside what it carries, in bytes of memory.
pub const MESSAGE_WEIGHT: u64 = 64;

/// What each item, cell, entry or identity of a list weighs beside its data.
pub const MEMBER_WEIGHT: u64 = 16;

/// What the marks of a client weigh beside their words.
pub const MARKS_WEIGHT: u64 = 32;

/// What a word weighs.
pub const WORD_WEIGHT: u64 = 8;
