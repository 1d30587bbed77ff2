//! The stable entries of a shard, kept on a disk.
//!
//! A [`Journal`] keeps what a shard replica has as final, so that it outlives its machine. After a crash
//! at any moment, inside a call or between two, the file opens to the entries from before the call, or to
//! these and the one block of the call; and what a keep said that it kept is in every file that a crash
//! may leave.
#![tactic(auto)]

mod block;
mod fitting;
mod framing;
mod journal;
mod limits;
mod opening;
mod pieces;
mod refused;
mod scan;

pub use block::Block;
pub use journal::Journal;
pub use journal_disk::{Disk, MemDisk};
pub use limits::FILE_LIMIT;
pub use refused::JournalRefused;
