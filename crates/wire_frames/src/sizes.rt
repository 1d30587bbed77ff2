//! How many bytes the parts of a frame take: those of one length, the least that a member of a list takes,
//! by which memory is asked for at once, and the most, from which it follows that no length wraps. Code
//! and definitions share them.

use view_config::{MAX_SEQ, RECORD_LIMIT_TWO};

/// The number of a node.
pub const NODE_LEN: usize = 2;

/// A list of nodes has its count and one of them at least.
pub const NODES_LEAST: usize = 1 + NODE_LEN;

/// It has its count and all sequencing replicas at most.
pub const NODES_MOST: usize = 1 + NODE_LEN * MAX_SEQ as usize;

/// An identity: a byte for the client, and four for the number.
pub const ID_LEN: usize = 5;

/// An item or a cell has its identity and a byte for its kind at least.
pub const MEMBER_LEAST: usize = ID_LEN + 1;

/// An entry has its place before these.
pub const PLACED_LEAST: usize = 4 + MEMBER_LEAST;

/// Data has its length in four bytes, and as many bytes as a record may have, at most.
pub const DATA_MOST: usize = 4 + RECORD_LIMIT_TWO;

/// An item, a cell or an entry with its place has data at most behind what it has at least.
pub const MEMBER_MOST: usize = PLACED_LEAST + DATA_MOST;

/// Marks have their greatest number in four bytes, and 64 words of 8 bytes at most.
pub const MARKS_MOST: usize = 4 + 8 * 64;
