//! How much a message weighs: a bound on the memory that it takes, by which worlds and diaries are
//! limited.

ghost use Rattle.std.specs.Prelude.{◌≡◌};
ghost use Rattle.lazy_msgs.specs.Weight.{weight_of, data_weight, item_weight, cell_weight, entry_weight, marks_weight, ids_weight, items_weight, cells_weight, entries_weight, window_weight, capped};

use crate::limits::{MARKS_WEIGHT, MEMBER_WEIGHT, MESSAGE_WEIGHT, WORD_WEIGHT};
use crate::{Envelope, Msg};
use rec_id::{Body, Bytes, Cell, CellList, Entry, Item, ItemList, Marks, PlacedList, WindowList};

/// 64 for the message, 16 for each member of a list that it carries, the bytes of its data, and for
/// each client of a window 32 and 8 for each word; 2^64 - 1 where that would be more.
pub fn weight(env: &Envelope) -> u64
    ensures { result ≡ weight_of env.now.msg }
{
    message_weight(&env.msg)
}

fn data_weight(bytes: &Option<Bytes>) -> u64
    ensures { result ≡ data_weight bytes.now }
{
    match bytes {
        Some(bytes) => bytes.len() as u64,
        None => 0,
    }
}

fn item_weight(item: &Item) -> u64
    ensures { result ≡ capped (item_weight item.now) }
{
    data_weight(&item.bytes).saturating_add(MEMBER_WEIGHT)
}

fn cell_weight(cell: &Cell) -> u64
    ensures { result ≡ capped (cell_weight cell.now) }
{
    match &cell.body {
        Body::Kept(bytes) => (bytes.len() as u64).saturating_add(MEMBER_WEIGHT),
        Body::Elsewhere | Body::Noop | Body::Open | Body::Gone => MEMBER_WEIGHT,
    }
}

fn entry_weight(entry: &Entry) -> u64
    ensures { result ≡ capped (entry_weight entry.now) }
{
    match entry {
        Entry::Kept(_, bytes) => (bytes.len() as u64).saturating_add(MEMBER_WEIGHT),
        Entry::Noop(_) | Entry::Gone(_) => MEMBER_WEIGHT,
    }
}

fn marks_weight(marks: &Marks) -> u64
    ensures { result ≡ capped (marks_weight marks.now) }
{
    (marks.bits.len() as u64)
        .saturating_mul(WORD_WEIGHT)
        .saturating_add(MARKS_WEIGHT)
}

fn items_weight(items: &ItemList) -> u64
    ensures { result ≡ capped (items_weight items.now) }
{
    let mut sum = 0u64;
    for item in items.as_slice() {
        sum = sum.saturating_add(item_weight(item));
    }
    sum
}

fn cells_weight(cells: &CellList) -> u64
    ensures { result ≡ capped (cells_weight cells.now) }
{
    let mut sum = 0u64;
    for cell in cells.as_slice() {
        sum = sum.saturating_add(cell_weight(cell));
    }
    sum
}

fn entries_weight(entries: &PlacedList) -> u64
    ensures { result ≡ capped (entries_weight entries.now) }
{
    let mut sum = 0u64;
    for placed in entries.as_slice() {
        sum = sum.saturating_add(entry_weight(&placed.1));
    }
    sum
}

fn window_weight(window: &WindowList) -> u64
    ensures { result ≡ capped (window_weight window.now) }
{
    let mut sum = 0u64;
    for marks in window.as_slice() {
        sum = sum.saturating_add(marks_weight(marks));
    }
    sum
}

/// The weight of an envelope with this message.
pub fn message_weight(msg: &Msg) -> u64
    ensures { result ≡ weight_of msg.now }
{
    match msg {
        Msg::Append { bytes, .. } => data_weight(bytes).saturating_add(MESSAGE_WEIGHT),
        Msg::Put { bytes, .. } => (bytes.len() as u64).saturating_add(MESSAGE_WEIGHT),
        Msg::Place { items, .. } | Msg::Flush { items, .. } => {
            items_weight(items).saturating_add(MESSAGE_WEIGHT)
        }
        Msg::Copy { cells, .. } | Msg::FlushCopy { cells, .. } => {
            cells_weight(cells).saturating_add(MESSAGE_WEIGHT)
        }
        Msg::Order { ids, .. } => (ids.len() as u64)
            .saturating_mul(MEMBER_WEIGHT)
            .saturating_add(MESSAGE_WEIGHT),
        Msg::Part { entries, .. } => entries_weight(entries).saturating_add(MESSAGE_WEIGHT),
        Msg::Sealed { window, items, .. } => window_weight(window)
            .saturating_add(items_weight(items))
            .saturating_add(MESSAGE_WEIGHT),
        Msg::NewView { window, .. } => window_weight(window).saturating_add(MESSAGE_WEIGHT),
        Msg::AppendAck { .. }
        | Msg::DataAck { .. }
        | Msg::Rejected { .. }
        | Msg::Placed { .. }
        | Msg::Copied { .. }
        | Msg::Ordered { .. }
        | Msg::Stable { .. }
        | Msg::Probe { .. }
        | Msg::ProbeAck { .. }
        | Msg::TailReady { .. }
        | Msg::Fetch { .. }
        | Msg::Flushed { .. }
        | Msg::Seal { .. }
        | Msg::SealedEmpty { .. }
        | Msg::Started { .. }
        | Msg::AskView
        | Msg::ViewIs { .. }
        | Msg::Claim { .. }
        | Msg::Trim { .. }
        | Msg::TrimAck { .. }
        | Msg::TrimmedAt { .. } => MESSAGE_WEIGHT,
    }
}
