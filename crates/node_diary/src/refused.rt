//! Why a node isn't fed, and why it doesn't hear a note.

ghost use Rattle.std.specs.Prelude.{◌≡◌};

use lazy_msgs::{BeginRefused, PostRefused, StepRefused, SuspectRefused, TrimRefused};
use std::alloc::AllocError;

/// Why a feed changed nothing. The refusals inside never are `Over` or `Memory`.
#[derive(Clone, Copy, Debug, PartialEq, Eq)]
pub enum FeedRefused {
    /// The time would be 2^40 or more.
    ClockSpent,
    /// The diary has its full number of entries, or would be too heavy.
    DiaryFull,
    Post(PostRefused),
    Begin(BeginRefused),
    Suspect(SuspectRefused),
    Trim(TrimRefused),
    Memory,
}

/// The time of a note is 2^40 or more.
#[derive(Clone, Copy, Debug, PartialEq, Eq)]
pub struct TooLate;

impl From<AllocError> for FeedRefused {
    ghost use Rattle.node_diary.specs.declared.refused.FeedRefused.{FeedRefused};

    ghost from_gives = { λ _ e. e ≡ FeedRefused.Memory };

    fn from(_e: AllocError) -> FeedRefused {
        FeedRefused::Memory
    }
}

impl From<StepRefused> for FeedRefused {
    ghost use Rattle.node_diary.specs.Refusals.{feed_step_refused};

    ghost from_gives = { λ r e. e ≡ feed_step_refused r };

    fn from(refused: StepRefused) -> FeedRefused {
        match refused {
            StepRefused::Over => FeedRefused::DiaryFull,
            StepRefused::Memory => FeedRefused::Memory,
        }
    }
}
