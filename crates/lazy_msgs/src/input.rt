//! What a node takes in a step, and what happens to a whole world in one event.

ghost use Rattle.std.specs.Prelude.{◌≡◌, IfOk};

use crate::Envelope;
use plain_lists::Sequence;
use rec_id::{Ask, Bytes, IdList};
use std::alloc::AllocError;

/// What a node takes in one step.
#[derive(Drop)]
pub enum Input {
    /// A received envelope.
    Take(Envelope),
    Tick,
    /// At a shard replica: the data that is still missing is given up.
    Grace,
    Crash,
    /// At a client: these bytes are to be appended.
    Post(Bytes),
    Ask(Ask),
    /// At a client: the bytes of the places below this floor may go.
    Trim(u32),
    /// At the controller: this node is to be replaced.
    Suspect(u32),
    /// At a client: the order from `from` on, as claimed up to `stable` by this replica at this time, both
    /// 0 where nothing was claimed. A replica goes by its number less that of the first.
    Peek {
        stable: u32,
        time: u64,
        replica: u32,
        from: u32,
        ids: IdList,
    },
}

impl Clone for Input {
    ghost is_clone = { λ a b. b ≡ a };

    fn clone(&self) -> Result<Self, AllocError> {
        match self {
            Input::Take(envelope) => Ok(Input::Take(envelope.copy()?)),
            Input::Tick => Ok(Input::Tick),
            Input::Grace => Ok(Input::Grace),
            Input::Crash => Ok(Input::Crash),
            Input::Post(bytes) => Ok(Input::Post(bytes.clone()?)),
            Input::Ask(ask) => Ok(Input::Ask(*ask)),
            Input::Trim(floor) => Ok(Input::Trim(*floor)),
            Input::Suspect(node) => Ok(Input::Suspect(*node)),
            Input::Peek {
                stable,
                time,
                replica,
                from,
                ids,
            } => Ok(Input::Peek {
                stable: *stable,
                time: *time,
                replica: *replica,
                from: *from,
                ids: ids.copy()?,
            }),
        }
    }
}

impl Input {
    /// An equal input.
    pub fn copy(&self) -> Result<Input, AllocError>
        ensures { IfOk result (λ made. made ≡ self.now) }
    {
        self.clone()
    }
}

/// One event of a world. Clients and nodes go by their numbers, messages by theirs, from 1 in the
/// order of sending.
#[derive(Drop)]
pub enum WorldEvent {
    /// A client appends these bytes.
    Post(u32, Bytes),
    /// A client reads.
    Ask(u32, Ask),
    /// A client gives up the bytes below a floor.
    Trim(u32, u32),
    /// A client looks up the order `[from, to)` at the sender of a Claim.
    Peek {
        client: u32,
        message: u32,
        from: u32,
        to: u32,
    },
    /// A message reaches its addressee, maybe again.
    Deliver(u32),
    Tick(u32),
    Grace(u32),
    Crash(u32),
    /// The controller is told to replace a node.
    Suspect(u32),
}

pub type WorldEvents = Sequence<WorldEvent>;

impl Clone for WorldEvent {
    ghost is_clone = { λ a b. b ≡ a };

    fn clone(&self) -> Result<Self, AllocError> {
        match self {
            WorldEvent::Post(client, bytes) => Ok(WorldEvent::Post(*client, bytes.clone()?)),
            WorldEvent::Ask(client, ask) => Ok(WorldEvent::Ask(*client, *ask)),
            WorldEvent::Trim(client, floor) => Ok(WorldEvent::Trim(*client, *floor)),
            WorldEvent::Peek {
                client,
                message,
                from,
                to,
            } => Ok(WorldEvent::Peek {
                client: *client,
                message: *message,
                from: *from,
                to: *to,
            }),
            WorldEvent::Deliver(message) => Ok(WorldEvent::Deliver(*message)),
            WorldEvent::Tick(node) => Ok(WorldEvent::Tick(*node)),
            WorldEvent::Grace(node) => Ok(WorldEvent::Grace(*node)),
            WorldEvent::Crash(node) => Ok(WorldEvent::Crash(*node)),
            WorldEvent::Suspect(node) => Ok(WorldEvent::Suspect(*node)),
        }
    }
}

impl WorldEvent {
    /// An equal event.
    pub fn copy(&self) -> Result<WorldEvent, AllocError>
        ensures { IfOk result (λ made. made ≡ self.now) }
    {
        self.clone()
    }
}
