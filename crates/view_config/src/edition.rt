//! The two modes and the two editions, with the limits that depend on the edition alone.

ghost use Rattle.std.specs.Prelude.{◌≡◌};
ghost use Rattle.view_config.specs.Limits.{window_of, record_limit, line_limit};

use crate::limits::{
    LINE_LIMIT_ONE, LINE_LIMIT_TWO, RECORD_LIMIT_ONE, RECORD_LIMIT_TWO, WINDOW_ONE, WINDOW_TWO,
};

/// How the data of a record gets to its shard.
#[derive(Clone, Copy, Debug, PartialEq, Eq)]
pub enum Mode {
    /// Erwin-m: whole records go through the sequencing replicas.
    M,
    /// Erwin-st: the sequencing replicas keep identities alone, the data goes to its shard.
    St,
}

/// Which limits hold, and which version of the frames.
#[derive(Clone, Copy, Debug, PartialEq, Eq)]
pub enum Edition {
    One,
    Two,
}

impl Edition {
    /// How many consecutive numbers of a client may be unfinished.
    pub fn window(self) -> u32
        ensures { result ≡ window_of self }
    {
        match self {
            Edition::One => WINDOW_ONE,
            Edition::Two => WINDOW_TWO,
        }
    }

    /// How many bytes of data a record may have.
    pub fn record_limit(self) -> usize
        ensures { result ≡ record_limit self }
    {
        match self {
            Edition::One => RECORD_LIMIT_ONE,
            Edition::Two => RECORD_LIMIT_TWO,
        }
    }

    /// How many bytes a line of a script may have, its newline not counted.
    pub fn line_limit(self) -> usize
        ensures { result ≡ line_limit self }
    {
        match self {
            Edition::One => LINE_LIMIT_ONE,
            Edition::Two => LINE_LIMIT_TWO,
        }
    }
}
