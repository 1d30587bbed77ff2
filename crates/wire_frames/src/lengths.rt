//! How many bytes a frame has, so that its memory is asked for once.

ghost use Rattle.std.specs.Prelude.{◌≡◌, ℕ, ◌+◌, ◌*◌, ◌^◌, ◌≤◌, length};
ghost use Rattle.std.specs.List.{AllByRecursion, flat_map};
ghost use Rattle.lazy_msgs.specs.Frame.{bytes_form, optional_form, item_form, cell_form, body_form, entry_form, placed_form, nodes_form, config_form, marks_form, list_form, id_form, fields_form, frame};
ghost use Rattle.lazy_msgs.specs.declared.limits.TheConstants.{BATCH_LIMIT, PENDING_LIMIT};
ghost use Rattle.rec_id.specs.declared.limits.TheConstants.{READ_LIMIT};
ghost use Rattle.view_config.specs.declared.limits.TheConstants.{MAX_CLIENTS, MAX_SEQ, MAX_SHARDS};
ghost use Rattle.lazy_msgs.specs.FrameLimits.{BytesFit, OptionalFits, ItemFits, BodyFits, CellFits, EntryFits, PlacedFits, NodesFit, ConfigFits, MarksFit, WindowFits, MessageFits, Fits};

use crate::sizes::{
    DATA_MOST, ID_LEN, MARKS_MOST, MEMBER_LEAST, MEMBER_MOST, NODE_LEN, NODES_MOST,
};
use lazy_msgs::{Envelope, Msg};
use rec_id::{
    Body, Bytes, Cell, CellList, Entry, IdList, Item, ItemList, Marks, PlacedList, WindowList,
};
use view_config::{Config, Edition, NodeList};

#[tactic(auto, using(crate::proofs::FieldLengths::field_lengths))]
fn bytes_len(edition: Edition, bytes: &Bytes) -> usize
    requires { BytesFit edition bytes.now }
    ensures exact { result ≡ length (bytes_form edition bytes.now) }
    ensures most { result ≤ DATA_MOST }
{
    match edition {
        Edition::One => 2 + bytes.len(),
        Edition::Two => 4 + bytes.len(),
    }
}

#[tactic(auto, using(crate::proofs::FieldLengths::field_lengths))]
fn optional_len(edition: Edition, bytes: &Option<Bytes>) -> usize
    requires { OptionalFits edition bytes.now }
    ensures exact { result ≡ length (optional_form edition bytes.now) }
    ensures most { result ≤ DATA_MOST + 1 }
{
    match bytes {
        Some(bytes) => 1 + bytes_len(edition, bytes),
        None => 1,
    }
}

#[tactic(auto, using(crate::proofs::FieldLengths::field_lengths))]
fn item_len(edition: Edition, item: &Item) -> usize
    requires { ItemFits edition item.now }
    ensures exact { result ≡ length (item_form edition item.now) }
    ensures most { result ≤ MEMBER_MOST }
{
    ID_LEN + optional_len(edition, &item.bytes)
}

#[tactic(auto, using(crate::proofs::FieldLengths::field_lengths))]
fn body_len(edition: Edition, body: &Body) -> usize
    requires { BodyFits edition body.now }
    ensures exact { result ≡ length (body_form edition body.now) }
    ensures most { result ≤ DATA_MOST + 1 }
{
    match body {
        Body::Elsewhere | Body::Noop => 1,
        Body::Kept(bytes) => 1 + bytes_len(edition, bytes),
        Body::Open | Body::Gone => 0,
    }
}

#[tactic(auto, using(crate::proofs::FieldLengths::field_lengths))]
fn cell_len(edition: Edition, cell: &Cell) -> usize
    requires { CellFits edition cell.now }
    ensures exact { result ≡ length (cell_form edition cell.now) }
    ensures most { result ≤ MEMBER_MOST }
{
    ID_LEN + body_len(edition, &cell.body)
}

#[tactic(auto, using(crate::proofs::FieldLengths::field_lengths))]
fn entry_len(edition: Edition, entry: &Entry) -> usize
    requires { EntryFits edition entry.now }
    ensures exact { result ≡ length (entry_form edition entry.now) }
    ensures most { result ≤ MEMBER_LEAST + DATA_MOST }
{
    match entry {
        Entry::Kept(_, bytes) => MEMBER_LEAST + bytes_len(edition, bytes),
        Entry::Noop(_) => MEMBER_LEAST,
        Entry::Gone(_) => 0,
    }
}

#[tactic(auto, using(crate::proofs::FieldLengths::field_lengths))]
fn placed_len(edition: Edition, placed: &(u32, Entry)) -> usize
    requires { PlacedFits edition placed.now }
    ensures exact { result ≡ length (placed_form edition placed.now) }
    ensures most { result ≤ MEMBER_MOST }
{
    4 + entry_len(edition, &placed.1)
}

#[tactic(auto, using(crate::proofs::FieldLengths::field_lengths))]
fn items_len(edition: Edition, items: &ItemList) -> usize
    requires count { length items.now ≤ PENDING_LIMIT }
    requires each { AllByRecursion (ItemFits edition) items.now }
    ensures exact { result ≡ length (list_form (item_form edition) items.now) }
    ensures most { result ≤ MEMBER_MOST * (PENDING_LIMIT + 1) }
{
    let mut sum = 2;
    for item in items.as_slice() {
        sum += item_len(edition, item);
    }
    sum
}

#[tactic(auto, using(crate::proofs::FieldLengths::field_lengths))]
fn cells_len(edition: Edition, cells: &CellList) -> usize
    requires count { length cells.now ≤ PENDING_LIMIT }
    requires each { AllByRecursion (CellFits edition) cells.now }
    ensures exact { result ≡ length (list_form (cell_form edition) cells.now) }
    ensures most { result ≤ MEMBER_MOST * (PENDING_LIMIT + 1) }
{
    let mut sum = 2;
    for cell in cells.as_slice() {
        sum += cell_len(edition, cell);
    }
    sum
}

#[tactic(auto, using(crate::proofs::FieldLengths::field_lengths))]
fn ids_len(ids: &IdList) -> usize
    requires { length ids.now ≤ BATCH_LIMIT }
    ensures exact { result ≡ length (list_form id_form ids.now) }
    ensures most { result ≤ 2 + ID_LEN * BATCH_LIMIT }
{
    2 + ID_LEN * ids.len()
}

#[tactic(auto, using(crate::proofs::FieldLengths::field_lengths))]
fn entries_len(edition: Edition, entries: &PlacedList) -> usize
    requires count { length entries.now ≤ READ_LIMIT }
    requires each { AllByRecursion (PlacedFits edition) entries.now }
    ensures exact { result ≡ length (list_form (placed_form edition) entries.now) }
    ensures most { result ≤ MEMBER_MOST * (READ_LIMIT + 1) }
{
    let mut sum = 2;
    for placed in entries.as_slice() {
        sum += placed_len(edition, placed);
    }
    sum
}

#[tactic(auto, using(crate::proofs::FieldLengths::field_lengths))]
fn nodes_len(nodes: &NodeList) -> usize
    requires { length nodes.now ≤ MAX_SEQ }
    ensures exact { result ≡ length (nodes_form nodes.now) }
    ensures most { result ≤ NODES_MOST }
{
    1 + NODE_LEN * nodes.len()
}

#[tactic(auto, using(crate::proofs::FieldLengths::field_lengths))]
fn shards_len(config: &Config) -> usize
    requires { ConfigFits config.now }
    ensures exact { result ≡ length (flat_map nodes_form config.now.shards) }
    ensures most { result ≤ NODES_MOST * MAX_SHARDS }
{
    let mut sum = 0;
    for nodes in config.shards.as_slice() {
        sum += nodes_len(nodes);
    }
    sum
}

#[tactic(auto, using(crate::proofs::FieldLengths::field_lengths))]
fn config_len(config: &Config) -> usize
    requires { ConfigFits config.now }
    ensures exact { result ≡ length (config_form config.now) }
    ensures most { result ≤ 5 + NODES_MOST * (MAX_SHARDS + 1) }
{
    5 + nodes_len(&config.seq) + shards_len(config)
}

#[tactic(auto, using(crate::proofs::FieldLengths::field_lengths))]
fn marks_len(edition: Edition, marks: &Marks) -> usize
    requires { MarksFit edition marks.now }
    ensures exact { result ≡ length (marks_form marks.now) }
    ensures most { result ≤ MARKS_MOST }
{
    4 + 8 * marks.bits.len()
}

#[tactic(auto, using(crate::proofs::FieldLengths::field_lengths))]
fn window_len(edition: Edition, window: &WindowList) -> usize
    requires { WindowFits edition window.now }
    ensures exact { result ≡ length (list_form marks_form window.now) }
    ensures most { result ≤ MARKS_MOST * (MAX_CLIENTS + 1) }
{
    let mut sum = 2;
    for marks in window.as_slice() {
        sum += marks_len(edition, marks);
    }
    sum
}

#[tactic(auto, using(crate::proofs::FieldLengths::field_lengths))]
fn fields_len(edition: Edition, msg: &Msg) -> usize
    requires { MessageFits edition msg.now }
    ensures exact { result ≡ length (fields_form edition msg.now) }
    ensures most { result ≤ 2 ^ 32 }
{
    match msg {
        Msg::Append { bytes, .. } => 9 + optional_len(edition, bytes),
        Msg::Put { bytes, .. } => 5 + bytes_len(edition, bytes),
        Msg::Place { items, .. } => 8 + items_len(edition, items),
        Msg::Copy { cells, .. } | Msg::FlushCopy { cells, .. } => 8 + cells_len(edition, cells),
        Msg::Order { ids, .. } => 8 + ids_len(ids),
        Msg::Part { entries, .. } => 12 + entries_len(edition, entries),
        Msg::Flush { config, items, .. } => 4 + config_len(config) + items_len(edition, items),
        Msg::Sealed { window, items, .. } => {
            8 + window_len(edition, window) + items_len(edition, items)
        }
        Msg::NewView { config, window, .. } => {
            4 + config_len(config) + window_len(edition, window)
        }
        Msg::ViewIs { config } => config_len(config),
        Msg::TailReady { .. } | Msg::Fetch { .. } => 12,
        Msg::AppendAck { .. } | Msg::DataAck { .. } | Msg::Rejected { .. } => 9,
        Msg::Placed { .. }
        | Msg::Copied { .. }
        | Msg::Ordered { .. }
        | Msg::Stable { .. }
        | Msg::Probe { .. }
        | Msg::ProbeAck { .. }
        | Msg::Trim { .. }
        | Msg::TrimmedAt { .. } => 8,
        Msg::Flushed { .. }
        | Msg::Seal { .. }
        | Msg::SealedEmpty { .. }
        | Msg::Started { .. }
        | Msg::Claim { .. }
        | Msg::TrimAck { .. } => 4,
        Msg::AskView => 0,
    }
}

#[tactic(auto, using(crate::proofs::FieldLengths::field_lengths))]
/// The length of the envelope's frame.
pub fn frame_len(edition: Edition, env: &Envelope) -> usize
    requires { Fits edition env.now }
    ensures { result ≡ length (frame edition env.now) }
{
    14 + fields_len(edition, &env.msg)
}
