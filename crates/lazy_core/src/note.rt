//! What one node tells another of its time, so that what the other does next is later.

/// A Lamport time.
#[derive(Clone, Copy, Debug, PartialEq, Eq)]
pub struct Note {
    pub time: u64,
}
