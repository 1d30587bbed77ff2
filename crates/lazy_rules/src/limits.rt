//! The limits of the protocol. Code and definitions share them.

/// How many batches of a leader are on their way at most.
pub const FLIGHT_LIMIT: u32 = 4;

/// How many batches a primary is placing at most: as many as a leader has on their way.
pub const JOBS_LIMIT: u32 = FLIGHT_LIMIT;

/// From this position on a sequencing replica takes nothing new: with what a follower may hold unbound
/// on top of it a line has at most 65,536 positions, so each is a number of two bytes.
pub const POSITION_LIMIT: u32 = 61_440;

/// How many unfinished appends of a client are sent again at one tick.
pub const RESENT_LIMIT: u32 = 8;

/// How many messages a world sends at most.
pub const MESSAGES_LIMIT: u32 = 1_048_576;

/// How much the messages of a world weigh together at most, in bytes of memory.
pub const WEIGHT_LIMIT: u64 = 268_435_456;
