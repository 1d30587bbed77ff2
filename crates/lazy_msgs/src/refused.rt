//! The refusals of the nodes' calls and of a world's events, and how one becomes the other.

ghost use Rattle.std.specs.Prelude.{◌≡◌};

use std::alloc::{AllocError, AllocFailed};

/// Why an outbox took no message.
#[derive(Clone, Copy, Debug, PartialEq, Eq)]
pub enum OutboxRefused {
    /// The room is used up.
    Over,
    Memory,
}

/// Why a node took no step.
#[derive(Clone, Copy, Debug, PartialEq, Eq)]
pub enum StepRefused {
    /// The messages of the step don't fit into the outbox that was handed in.
    Over,
    Memory,
}

/// Why a client appended nothing.
#[derive(Clone, Copy, Debug, PartialEq, Eq)]
pub enum PostRefused {
    /// There are more bytes than a record of the edition may have.
    TooLong,
    /// The client's numbers are used up.
    NumbersSpent,
    /// This number, the lowest unfinished one, is a whole window below the next.
    WindowFull(u32),
    Over,
    Memory,
}

/// Why a client began no read.
#[derive(Clone, Copy, Debug, PartialEq, Eq)]
pub enum BeginRefused {
    /// The read or trim of this number isn't answered yet.
    Outstanding(u32),
    /// The range ends before it begins.
    Backward,
    /// The range has more than 256 places.
    Wide,
    Over,
    Memory,
}

/// Why a client gave up no bytes.
#[derive(Clone, Copy, Debug, PartialEq, Eq)]
pub enum TrimRefused {
    /// The read or trim of this number isn't answered yet.
    Outstanding(u32),
    /// The client has read no further than this place.
    Ahead(u32),
    Over,
    Memory,
}

/// Why the controller replaces no node.
#[derive(Clone, Copy, Debug, PartialEq, Eq)]
pub enum SuspectRefused {
    NotInView,
    /// No sequencing replica would be left.
    LastSeq,
    /// No replica of this shard would be left.
    LastOfShard(u32),
    /// The views' numbers are used up.
    ViewsSpent,
    Over,
    Memory,
}

/// Why an event didn't happen. The refusals inside never are `Over` or `Memory`.
#[derive(Clone, Copy, Debug, PartialEq, Eq)]
pub enum EventRefused {
    /// This node isn't there, or it can't do what the event says.
    NoNode(u32),
    /// No message of this number was sent.
    NoMessage(u32),
    /// This message is a Claim, which nobody is delivered.
    IsClaim(u32),
    /// This message is no Claim, and can't be peeked at.
    NotClaim(u32),
    /// This node crashed before.
    Crashed(u32),
    /// The edition has no trim.
    NoTrim,
    Post(PostRefused),
    Begin(BeginRefused),
    Suspect(SuspectRefused),
    Trim(TrimRefused),
    /// The peeked range ends before it begins.
    Backward,
    /// The peeked range has more than 256 places.
    Wide,
    /// The claim reaches no further than this place.
    NotYet(u32),
    /// The messages of the world would be too many, or too heavy.
    Spent,
    Memory,
}

impl From<AllocError> for OutboxRefused {
    ghost use Rattle.lazy_msgs.specs.declared.refused.OutboxRefused.{OutboxRefused};

    ghost from_gives = { λ _ e. e ≡ OutboxRefused.Memory };

    fn from(_e: AllocError) -> OutboxRefused {
        OutboxRefused::Memory
    }
}

impl From<AllocError> for StepRefused {
    ghost use Rattle.lazy_msgs.specs.declared.refused.StepRefused.{StepRefused};

    ghost from_gives = { λ _ e. e ≡ StepRefused.Memory };

    fn from(_e: AllocError) -> StepRefused {
        StepRefused::Memory
    }
}

impl<T: Drop> From<AllocFailed<T>> for StepRefused {
    ghost use Rattle.lazy_msgs.specs.declared.refused.StepRefused.{StepRefused};

    ghost from_gives = { λ _ e. e ≡ StepRefused.Memory };

    fn from(_e: AllocFailed<T>) -> StepRefused {
        StepRefused::Memory
    }
}

impl From<OutboxRefused> for StepRefused {
    ghost use Rattle.lazy_msgs.specs.Refused.{step_refused};

    ghost from_gives = { λ r e. e ≡ step_refused r };

    fn from(refused: OutboxRefused) -> StepRefused {
        match refused {
            OutboxRefused::Over => StepRefused::Over,
            OutboxRefused::Memory => StepRefused::Memory,
        }
    }
}

impl From<AllocError> for PostRefused {
    ghost use Rattle.lazy_msgs.specs.declared.refused.PostRefused.{PostRefused};

    ghost from_gives = { λ _ e. e ≡ PostRefused.Memory };

    fn from(_e: AllocError) -> PostRefused {
        PostRefused::Memory
    }
}

impl<T: Drop> From<AllocFailed<T>> for PostRefused {
    ghost use Rattle.lazy_msgs.specs.declared.refused.PostRefused.{PostRefused};

    ghost from_gives = { λ _ e. e ≡ PostRefused.Memory };

    fn from(_e: AllocFailed<T>) -> PostRefused {
        PostRefused::Memory
    }
}

impl From<OutboxRefused> for PostRefused {
    ghost use Rattle.lazy_msgs.specs.Refused.{post_refused};

    ghost from_gives = { λ r e. e ≡ post_refused r };

    fn from(refused: OutboxRefused) -> PostRefused {
        match refused {
            OutboxRefused::Over => PostRefused::Over,
            OutboxRefused::Memory => PostRefused::Memory,
        }
    }
}

impl From<StepRefused> for PostRefused {
    ghost use Rattle.lazy_msgs.specs.Refused.{post_step_refused};

    ghost from_gives = { λ r e. e ≡ post_step_refused r };

    fn from(refused: StepRefused) -> PostRefused {
        match refused {
            StepRefused::Over => PostRefused::Over,
            StepRefused::Memory => PostRefused::Memory,
        }
    }
}

impl From<AllocError> for EventRefused {
    ghost use Rattle.lazy_msgs.specs.declared.refused.EventRefused.{EventRefused};

    ghost from_gives = { λ _ e. e ≡ EventRefused.Memory };

    fn from(_e: AllocError) -> EventRefused {
        EventRefused::Memory
    }
}

impl From<StepRefused> for EventRefused {
    ghost use Rattle.lazy_msgs.specs.Refused.{event_step_refused};

    ghost from_gives = { λ r e. e ≡ event_step_refused r };

    fn from(refused: StepRefused) -> EventRefused {
        match refused {
            StepRefused::Over => EventRefused::Spent,
            StepRefused::Memory => EventRefused::Memory,
        }
    }
}

impl From<PostRefused> for EventRefused {
    ghost use Rattle.lazy_msgs.specs.Refused.{event_post_refused};

    ghost from_gives = { λ r e. e ≡ event_post_refused r };

    fn from(refused: PostRefused) -> EventRefused {
        match refused {
            PostRefused::TooLong => EventRefused::Post(PostRefused::TooLong),
            PostRefused::NumbersSpent => EventRefused::Post(PostRefused::NumbersSpent),
            PostRefused::WindowFull(low) => EventRefused::Post(PostRefused::WindowFull(low)),
            PostRefused::Over => EventRefused::Spent,
            PostRefused::Memory => EventRefused::Memory,
        }
    }
}
