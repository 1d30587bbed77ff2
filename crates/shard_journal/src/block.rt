//! Blocks of a journal's file: some positions, and the entries at these.

ghost use Rattle.std.specs.Prelude.{◌≡◌, ◌+◌, ◌-◌, ◌<◌, ◌≤◌, min, true, length, slice_range, IfOk};
ghost use Rattle.std.specs.List.{list_all};
ghost use Rattle.shard_journal.specs.State.{CanKeep, is_short};

use crate::fitting::know_fits;
use rec_id::{Body, Cell, PlacedList, READ_LIMIT};
use shard_store::ShardStore;
use std::alloc::AllocError;
use view_config::Edition;

/// The positions `[from, to)`, and the entries of the shard's own places among them.
#[derive(Drop)]
pub struct Block {
    pub from: u32,
    pub to: u32,
    pub entries: PlacedList,
}

impl Block {
    ghost use Rattle.shard_journal.specs.Blocks.{rises_within, BlockFits};
    ghost use Rattle.shard_journal.specs.State.{next_block};
    ghost use Rattle.shard_journal.specs.Reading.{goes_on_from};

    /// Whether the places of the entries rise strictly from `from` on, and are below `to`.
    fn rises_within(from: u32, to: u32, entries: &PlacedList) -> bool
        ensures { result ≡ rises_within from to entries.now }
    {
        let mut next = from;
        for placed in entries.as_slice() {
            if placed.0 < next {
                return false;
            }
            if placed.0 >= to {
                return false;
            }
            next = placed.0 + 1;
        }
        true
    }

    /// Whether it goes on from position `kept`, and is one that may stand in a file.
    pub(crate) fn goes_on_from(&self, kept: u32) -> bool
        ensures { result ≡ goes_on_from kept self.now }
    {
        if self.from != kept {
            return false;
        }
        if self.from >= self.to {
            return false;
        }
        if self.to - self.from > READ_LIMIT {
            return false;
        }
        Block::rises_within(self.from, self.to, &self.entries)
    }

    /// The block of the next stable positions of a store, of which there are some.
    pub(crate) fn next(store: &ShardStore, kept: u32) -> Result<Block, AllocError>
        requires can { CanKeep store.now kept }
        requires more { kept < store.now.stable }
        ensures block { IfOk result (λ block. block ≡ next_block store.now kept) }
        ensures fits { IfOk result BlockFits }
    {
        let to = next_to(kept, store.stable());
        let entries = store.part(kept, to)?;
        know_fits(&entries);
        Ok(Block {
            from: kept,
            to,
            entries,
        })
    }
}

/// Up to where the next block goes.
fn next_to(kept: u32, stable: u32) -> u32
    requires { kept ≤ stable }
    ensures to { result ≡ kept + min READ_LIMIT (stable - kept) }
    ensures within { result ≤ stable }
{
    kept + (stable - kept).min(READ_LIMIT)
}

/// The cell has no data that is longer than a record's of edition One.
fn is_short(cell: &Cell) -> bool
    ensures { result ≡ is_short cell.now }
{
    match &cell.body {
        Body::Kept(bytes) => bytes.len() <= Edition::One.record_limit(),
        Body::Elsewhere => true,
        Body::Noop => true,
        Body::Open => true,
        Body::Gone => true,
    }
}

/// Whether the cells of `[from, to)` are short.
fn are_short(store: &ShardStore, from: u32, to: u32) -> bool
    requires { to ≤ length store.now.order }
    ensures { result ≡ list_all is_short (slice_range store.now.order from to) }
{
    for place in from..to {
        if !is_short(store.cell(place)) {
            return false;
        }
    }
    true
}

/// Whether the next positions of a store can be kept.
pub(crate) fn can_keep(store: &ShardStore, kept: u32) -> bool
    ensures can { result ≡ true → CanKeep store.now kept }
    ensures cannot { CanKeep store.now kept → result ≡ true }
{
    let _len = store.len();
    if store.floor() > kept {
        return false;
    }
    if kept > store.stable() {
        return false;
    }
    are_short(store, kept, next_to(kept, store.stable()))
}
