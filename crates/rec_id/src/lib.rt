//! The plain data that every part of the log speaks of: identities of records, entries of the log,
//! what a replica keeps of a record, and the events that a client's history is made of.
//!
//! No function here decides anything about the protocol. `specs/` has, beside the words on
//! identities, what it means that an identity is marked or seen in the marks of a client.
#![tactic(auto)]

mod bytes;
mod entry;
mod event;
mod item;
mod limits;
mod lists;
mod marks;
mod record_id;

pub use bytes::Bytes;
pub use entry::Entry;
pub use event::{Ask, Event};
pub use item::{Body, Cell, Item, copy_optional};
pub use limits::{MAX_CLIENT, READ_LIMIT};
pub use lists::{
    CellList, EventList, IdList, ItemList, Line, PlacedList, Text, TextList, WindowList, Words,
};
pub use marks::Marks;
pub use record_id::{IdError, RecordId, shard_of};
