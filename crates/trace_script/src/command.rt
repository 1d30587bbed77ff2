//! What a line of a script says.

use crate::NodeWord;
use rec_id::Bytes;
use std::alloc::AllocError;

/// One variant for each form of a script line, with the values of its words in their order.
#[derive(Drop)]
pub enum Command {
    /// An empty line or a comment.
    Nothing,
    /// The client that this word names appends these bytes.
    Append(NodeWord, Bytes),
    /// The client asks for the records of places from the first number up to the second.
    Read(NodeWord, u32, u32),
    /// The client asks for all records from this place on.
    Tail(NodeWord, u32),
    /// The client asks that the places below this one be given up.
    Trim(NodeWord, u32),
    /// The client looks at the claim with this number: at the places from the second number up to the third.
    Peek(NodeWord, u32, u32, u32),
    /// The message with this number is delivered.
    Deliver(u32),
    /// The messages from the first number to the last are delivered, in order.
    Flow(u32, u32),
    /// The time of the node has come to send again.
    Tick(NodeWord),
    /// The time of the node has come to give up data that didn't come.
    Grace(NodeWord),
    /// The node crashes.
    Crash(NodeWord),
    /// The node is suspected of having crashed.
    Suspect(NodeWord),
    /// The line of each holder is asked for.
    Lines,
    /// Whether the line of each holder is lawful is asked for.
    Law,
    /// The frame of the message with this number is asked for.
    Show(u32),
}

/// Why a script line wasn't read.
#[derive(Clone, Copy, Debug, PartialEq, Eq)]
pub enum ScriptError {
    /// It is outside the grammar.
    BadLine,
    Memory,
}

impl From<AllocError> for ScriptError {
    ghost use Rattle.trace_script.specs.declared.command.ScriptError.{ScriptError};
    ghost use Rattle.std.specs.Prelude.{◌≡◌};

    ghost from_gives = { λ _ e. e ≡ ScriptError.Memory };

    fn from(_error: AllocError) -> ScriptError {
        ScriptError::Memory
    }
}
