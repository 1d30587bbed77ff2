//! What clients did and were told.

ghost use Rattle.std.specs.Prelude.{◌≡◌, IfOk};

use crate::{Bytes, IdList, Line, RecordId};
use std::alloc::AllocError;

/// What a read asks for.
#[derive(Clone, Copy, Debug, PartialEq, Eq)]
pub enum Ask {
    /// The entries of the places from `from` up to, and without, `to`.
    Range { from: u32, to: u32 },
    /// The entries from `from` on, and how long the log is.
    Tail { from: u32 },
}

/// One event of a history. It tells nothing of replicas.
#[derive(Drop)]
pub enum Event {
    /// An append of these bytes began.
    Invoke(RecordId, Bytes),
    /// The append is in the log for good.
    Acked(RecordId),
    /// The append became the no-op at this place.
    Rejected(RecordId, u32),
    /// A client began the read with this number.
    Begin(u32, u32, Ask),
    /// A read ended. The tail is given where it was forced.
    Answer {
        client: u32,
        read: u32,
        from: u32,
        entries: Line,
        tail: Option<u32>,
    },
    /// A client was shown the order of these identities from a place on.
    Seen {
        client: u32,
        from: u32,
        ids: IdList,
    },
    /// A client asked to give up the bytes of all places below `floor`.
    TrimAsk {
        client: u32,
        read: u32,
        floor: u32,
    },
    /// Every shard replica gave them up.
    TrimDone {
        client: u32,
        read: u32,
        floor: u32,
    },
    /// A read ended, since the bytes that it asked for were given up below `floor`.
    Trimmed {
        client: u32,
        read: u32,
        floor: u32,
    },
}

impl Clone for Event {
    ghost is_clone = { λ a b. b ≡ a };

    fn clone(&self) -> Result<Self, AllocError> {
        match self {
            Event::Invoke(id, bytes) => Ok(Event::Invoke(*id, bytes.clone()?)),
            Event::Acked(id) => Ok(Event::Acked(*id)),
            Event::Rejected(id, place) => Ok(Event::Rejected(*id, *place)),
            Event::Begin(client, read, ask) => Ok(Event::Begin(*client, *read, *ask)),
            Event::Answer {
                client,
                read,
                from,
                entries,
                tail,
            } => Ok(Event::Answer {
                client: *client,
                read: *read,
                from: *from,
                entries: entries.copy()?,
                tail: *tail,
            }),
            Event::Seen { client, from, ids } => Ok(Event::Seen {
                client: *client,
                from: *from,
                ids: ids.copy()?,
            }),
            Event::TrimAsk {
                client,
                read,
                floor,
            } => Ok(Event::TrimAsk {
                client: *client,
                read: *read,
                floor: *floor,
            }),
            Event::TrimDone {
                client,
                read,
                floor,
            } => Ok(Event::TrimDone {
                client: *client,
                read: *read,
                floor: *floor,
            }),
            Event::Trimmed {
                client,
                read,
                floor,
            } => Ok(Event::Trimmed {
                client: *client,
                read: *read,
                floor: *floor,
            }),
        }
    }
}

impl Event {
    /// An equal event.
    pub fn copy(&self) -> Result<Event, AllocError>
        ensures { IfOk result (λ made. made ≡ self.now) }
    {
        self.clone()
    }
}
