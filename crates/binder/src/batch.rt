//! What callers see of a batch, and of what an answer led to.

/// A batch on its way: its first position and the number of its items. While it isn't `ordering`
/// its shards are placing it, and then the followers order it.
#[derive(Clone, Copy, Debug, PartialEq, Eq)]
pub struct Batch {
    pub from: u32,
    pub count: u32,
    pub ordering: bool,
}

/// What an answer led to.
#[derive(Clone, Copy, Debug, PartialEq, Eq)]
pub enum Progress {
    /// No batch waits for this answer.
    Ignored,
    /// It is noted, and other answers are awaited.
    Waiting,
    /// It is noted, and so many batches are to be ordered from now on.
    Passed(u32),
}
