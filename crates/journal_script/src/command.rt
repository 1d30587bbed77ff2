//! What a line of a script says.

use rec_id::Cell;

/// One variant for each form of a script line, with the values of its words in their order.
#[derive(Drop)]
pub enum Command {
    /// An empty line or a comment.
    Nothing,
    /// The next place gets this cell: one with data or a no-op, or one whose data belongs to another shard.
    Add(Cell),
    /// The places below this one become final.
    Stable(u32),
    /// The next final places are kept.
    Keep,
    /// The bytes of the disk are asked for.
    Show,
    /// The device call of this number, counted from 1, and all later ones fail.
    Stop(u32),
    /// The power goes off and comes on again, and the file is opened.
    Open,
}
