//! Whether an envelope is within the limits of a frame. Nothing is written here.

ghost use Rattle.std.specs.Prelude.{◌≡◌, ◌≤◌, ◌<◌, ◌^◌, ◌↔◌, ◌%◌, length, min, slice_index, IsTrue};
ghost use Rattle.std.specs.List.{AllByRecursion};
ghost use Rattle.rec_id.specs.Identity.{IsIdentity};
ghost use Rattle.lazy_msgs.specs.FrameLimits.{IsWord, IsCounted, IsNode, BytesFit, OptionalFits, ListFits, ItemFits, BodyFits, CellFits, EntryFits, PlacedFits, NodesFit, ConfigFits, EndAt, MarksFit, WindowFits, IsTwo, MessageFits, Fits, words_of};

use lazy_msgs::{BATCH_LIMIT, Envelope, Msg, PENDING_LIMIT, TIME_LIMIT};
use rec_id::{
    Body, Bytes, Cell, CellList, Entry, IdList, Item, ItemList, MAX_CLIENT, Marks, PlacedList,
    READ_LIMIT, RecordId, WindowList, Words,
};
use view_config::{
    BOARD, Config, Edition, MAX_CLIENTS, MAX_COPIES, MAX_NODE, MAX_SEQ, MAX_SHARDS, NodeList,
    ShardList,
};

/// Four bytes have room for every `u32`.
fn is_word(n: u32) -> bool
    ensures { IsTrue result ↔ IsWord n }
{
    n <= u32::MAX
}

fn is_counted(n: u32) -> bool
    ensures { IsTrue result ↔ IsCounted n }
{
    n >= 1
}

fn is_node(n: u32) -> bool
    ensures { IsTrue result ↔ IsNode n }
{
    n <= MAX_NODE
}

fn is_two(edition: Edition) -> bool
    ensures { IsTrue result ↔ IsTwo edition }
{
    match edition {
        Edition::One => false,
        Edition::Two => true,
    }
}

fn id_fits(id: RecordId) -> bool
    ensures { IsTrue result ↔ IsIdentity id }
{
    id.client() <= MAX_CLIENT && id.number() >= 1
}

fn bytes_fit(edition: Edition, bytes: &Bytes) -> bool
    ensures { IsTrue result ↔ BytesFit edition bytes.now }
{
    bytes.len() <= edition.record_limit()
}

fn optional_fits(edition: Edition, bytes: &Option<Bytes>) -> bool
    ensures { IsTrue result ↔ OptionalFits edition bytes.now }
{
    match bytes {
        Some(bytes) => bytes_fit(edition, bytes),
        None => true,
    }
}

fn item_fits(edition: Edition, item: &Item) -> bool
    ensures { IsTrue result ↔ ItemFits edition item.now }
{
    id_fits(item.id) && optional_fits(edition, &item.bytes)
}

fn body_fits(edition: Edition, body: &Body) -> bool
    ensures { IsTrue result ↔ BodyFits edition body.now }
{
    match body {
        Body::Elsewhere | Body::Noop => true,
        Body::Kept(bytes) => bytes_fit(edition, bytes),
        Body::Open | Body::Gone => false,
    }
}

fn cell_fits(edition: Edition, cell: &Cell) -> bool
    ensures { IsTrue result ↔ CellFits edition cell.now }
{
    id_fits(cell.id) && body_fits(edition, &cell.body)
}

fn entry_fits(edition: Edition, entry: &Entry) -> bool
    ensures { IsTrue result ↔ EntryFits edition entry.now }
{
    match entry {
        Entry::Kept(id, bytes) => id_fits(*id) && bytes_fit(edition, bytes),
        Entry::Noop(id) => id_fits(*id),
        Entry::Gone(_) => false,
    }
}

fn placed_fits(edition: Edition, placed: &(u32, Entry)) -> bool
    ensures { IsTrue result ↔ PlacedFits edition placed.now }
{
    is_word(placed.0) && entry_fits(edition, &placed.1)
}

fn items_fit(edition: Edition, limit: u32, items: &ItemList) -> bool
    ensures { IsTrue result ↔ ListFits limit (ItemFits edition) items.now }
{
    items.len() <= limit as usize && items.as_slice().iter().all(|item| item_fits(edition, item))
}

fn cells_fit(edition: Edition, limit: u32, cells: &CellList) -> bool
    ensures { IsTrue result ↔ ListFits limit (CellFits edition) cells.now }
{
    cells.len() <= limit as usize && cells.as_slice().iter().all(|cell| cell_fits(edition, cell))
}

fn ids_fit(ids: &IdList) -> bool
    ensures { IsTrue result ↔ ListFits BATCH_LIMIT IsIdentity ids.now }
{
    ids.len() <= BATCH_LIMIT as usize && ids.as_slice().iter().all(|id| id_fits(*id))
}

fn entries_fit(edition: Edition, entries: &PlacedList) -> bool
    ensures { IsTrue result ↔ ListFits READ_LIMIT (PlacedFits edition) entries.now }
{
    entries.len() <= READ_LIMIT as usize
        && entries
            .as_slice()
            .iter()
            .all(|placed| placed_fits(edition, placed))
}

fn nodes_fit(limit: u32, nodes: &NodeList) -> bool
    ensures { IsTrue result ↔ NodesFit limit nodes.now }
{
    nodes.len() >= 1
        && nodes.len() <= limit as usize
        && nodes.as_slice().iter().all(|node| is_node(*node))
}

fn shards_fit(shards: &ShardList) -> bool
    ensures { IsTrue result ↔ AllByRecursion (NodesFit MAX_COPIES) shards.now }
{
    shards
        .as_slice()
        .iter()
        .all(|nodes| nodes_fit(MAX_COPIES, nodes))
}

fn config_fits(config: &Config) -> bool
    ensures { IsTrue result ↔ ConfigFits config.now }
{
    is_counted(config.view)
        && nodes_fit(MAX_SEQ, &config.seq)
        && config.shards.len() >= 1
        && config.shards.len() <= MAX_SHARDS as usize
        && shards_fit(&config.shards)
}

/// How many words the bits of a client take.
pub fn words_of(edition: Edition) -> usize
    ensures { result ≡ words_of edition }
{
    match edition {
        Edition::One => 4,
        Edition::Two => 64,
    }
}

fn word_ends(word: u64, top: u32) -> bool
    ensures { IsTrue result ↔ (word < 2 ^ min 64 top) }
{
    top >= 64 || word < (1u64 << top)
}

/// Whether no bit of the words from bit `top` on is set.
pub fn words_end(top: u32, words: &Words) -> bool
    ensures { IsTrue result ↔ EndAt top words.now }
{
    let mut left = top;
    for word in words.as_slice() {
        if !word_ends(*word, left) {
            return false;
        }
        left = left.saturating_sub(64);
    }
    true
}

fn highest_is_set(marks: &Marks) -> bool
    requires { 1 ≤ length marks.now.bits }
    ensures { IsTrue result ↔ (1 ≤ marks.now.top → slice_index marks.now.bits 0 % 2 ≡ 1) }
{
    marks.top == 0 || *marks.bits.at(0) % 2 == 1
}

fn marks_fit(edition: Edition, marks: &Marks) -> bool
    ensures { IsTrue result ↔ MarksFit edition marks.now }
{
    is_word(marks.top)
        && marks.bits.len() == words_of(edition)
        && highest_is_set(marks)
        && words_end(marks.top, &marks.bits)
}

fn each_marks_fit(edition: Edition, window: &WindowList) -> bool
    ensures { IsTrue result ↔ AllByRecursion (MarksFit edition) window.now }
{
    for marks in window.as_slice() {
        if !marks_fit(edition, marks) {
            return false;
        }
    }
    true
}

fn window_fits(edition: Edition, window: &WindowList) -> bool
    ensures { IsTrue result ↔ WindowFits edition window.now }
{
    window.len() >= 1 && window.len() <= MAX_CLIENTS as usize && each_marks_fit(edition, window)
}

fn message_fits(edition: Edition, msg: &Msg) -> bool
    ensures { IsTrue result ↔ MessageFits edition msg.now }
{
    match msg {
        Msg::Append { view, id, bytes } => {
            is_counted(*view) && id_fits(*id) && optional_fits(edition, bytes)
        }
        Msg::AppendAck { view, id } => is_counted(*view) && id_fits(*id),
        Msg::Put { id, bytes } => id_fits(*id) && bytes_fit(edition, bytes),
        Msg::DataAck { view, id } => is_counted(*view) && id_fits(*id),
        Msg::Rejected { id, place } => id_fits(*id) && is_word(*place),
        Msg::Place { view, from, items } => {
            is_counted(*view) && is_word(*from) && items_fit(edition, BATCH_LIMIT, items)
        }
        Msg::Placed { view, upto } => is_counted(*view) && is_word(*upto),
        Msg::Copy { view, from, cells } => {
            is_counted(*view) && is_word(*from) && cells_fit(edition, BATCH_LIMIT, cells)
        }
        Msg::Copied { view, upto } => is_counted(*view) && is_word(*upto),
        Msg::Order { view, from, ids } => is_counted(*view) && is_word(*from) && ids_fit(ids),
        Msg::Ordered { view, upto } => is_counted(*view) && is_word(*upto),
        Msg::Stable { view, upto } => is_counted(*view) && is_word(*upto),
        Msg::Probe { view, read } => is_counted(*view) && is_counted(*read),
        Msg::ProbeAck { view, read } => is_counted(*view) && is_counted(*read),
        Msg::TailReady { view, read, tail } => {
            is_counted(*view) && is_counted(*read) && is_word(*tail)
        }
        Msg::Fetch { read, from, to } => is_counted(*read) && is_word(*from) && is_word(*to),
        Msg::Part {
            read,
            from,
            end,
            entries,
        } => {
            is_counted(*read) && is_word(*from) && is_word(*end) && entries_fit(edition, entries)
        }
        Msg::Flush {
            config,
            from,
            items,
        } => config_fits(config) && is_word(*from) && items_fit(edition, PENDING_LIMIT, items),
        Msg::FlushCopy { view, from, cells } => {
            is_counted(*view) && is_word(*from) && cells_fit(edition, PENDING_LIMIT, cells)
        }
        Msg::Flushed { view } => is_counted(*view),
        Msg::Seal { view } => is_counted(*view),
        Msg::Sealed {
            view,
            bound,
            window,
            items,
        } => {
            is_counted(*view)
                && is_word(*bound)
                && window_fits(edition, window)
                && items_fit(edition, PENDING_LIMIT, items)
        }
        Msg::SealedEmpty { view } => is_counted(*view),
        Msg::NewView {
            config,
            base,
            window,
        } => config_fits(config) && is_word(*base) && window_fits(edition, window),
        Msg::Started { view } => is_counted(*view),
        Msg::AskView => true,
        Msg::ViewIs { config } => config_fits(config),
        Msg::Claim { stable } => is_word(*stable),
        Msg::Trim { read, floor } => is_two(edition) && is_counted(*read) && is_word(*floor),
        Msg::TrimAck { read } => is_two(edition) && is_counted(*read),
        Msg::TrimmedAt { read, floor } => is_two(edition) && is_counted(*read) && is_word(*floor),
    }
}

/// Whether all numbers and counts of the envelope are within the limits of the edition, so that it
/// has a frame there.
pub fn fits(edition: Edition, env: &Envelope) -> bool
    ensures { IsTrue result ↔ Fits edition env.now }
{
    is_node(env.from) && env.to <= BOARD && env.time < TIME_LIMIT && message_fits(edition, &env.msg)
}
