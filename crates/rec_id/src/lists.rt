//! The names of the list types. A contract sees each as the list of its members.

use crate::{Cell, Entry, Event, Item, Marks, RecordId};
use plain_lists::Sequence;

/// Words of 64 bits.
pub type Words = Sequence<u64>;

/// Bytes to be printed.
pub type Text = Sequence<u8>;

/// Several texts, such as the words that a program is called with.
pub type TextList = Sequence<Text>;

/// A piece of the log, from some place on.
pub type Line = Sequence<Entry>;

pub type IdList = Sequence<RecordId>;

pub type ItemList = Sequence<Item>;

pub type CellList = Sequence<Cell>;

/// Entries with their places.
pub type PlacedList = Sequence<(u32, Entry)>;

/// The marks of each client, by the client's number.
pub type WindowList = Sequence<Marks>;

pub type EventList = Sequence<Event>;
