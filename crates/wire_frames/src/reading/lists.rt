//! Lists, and what holds lists. Memory for the members of a list is asked for at once where the bytes
//! that are left can hold so many, and else grows with the members that are there.

ghost use Rattle.std.specs.Prelude.{◌≡◌, ◌*◌, ◌<◌, ◌≤◌, length, nat_le};
ghost use Rattle.std.specs.Int.{w16};
ghost use Rattle.wire_frames.specs.Readers.{Gives, allowed, byte_at, limited, number_at, config_at, id_at, item_at, cell_at, placed_at, list_at, members_at, node_at, nodes_at, shards_at};

use super::fields::{cell_of, id_of, item_of, placed_of};
use super::numbers::{byte_of, counted_of, field, node_of, two_of};
use super::pool::Pool;
use crate::offence::FrameError;
use crate::sizes::{ID_LEN, MEMBER_LEAST, NODE_LEN, NODES_LEAST, PLACED_LEAST};
use lazy_msgs::BATCH_LIMIT;
use plain_lists::Sequence;
use rec_id::{CellList, IdList, ItemList, PlacedList, READ_LIMIT};
use std::alloc::Global;
use view_config::{Config, Edition, MAX_COPIES, MAX_SEQ, MAX_SHARDS, NodeList, ShardList};

/// For how many members memory is asked for at once, of at least so many bytes each.
pub fn room(count: usize, least: usize, left: &[u8]) -> usize
    ensures all { count * least ≤ length left.now → result ≡ count }
    ensures none { length left.now < count * least → result ≡ 0 }
{
    if count.saturating_mul(least) <= left.len() {
        return count;
    }
    0
}

/// How many members follow, at most `limit`.
pub fn count_of(limit: u32, left: &mut &[u8]) -> Result<usize, FrameError>
    ensures { Gives result left.new.now (limited limit (number_at w16) left.old.now) }
{
    let count = two_of(left)?;
    if u32::from(count) > limit {
        return Err(FrameError::Over(limit));
    }
    Ok(usize::from(count))
}

/// How many nodes or shards follow, from 1 to `limit`.
fn few_of(size: usize, limit: u32, left: &mut &[u8]) -> Result<usize, FrameError>
    ensures { Gives result left.new.now (allowed size (nat_le 1) (limited limit byte_at) left.old.now) }
{
    let before = *left;
    let count = byte_of(left)?;
    if u32::from(count) > limit {
        return Err(FrameError::Over(limit));
    }
    if count < 1 {
        return Err(field(size, before));
    }
    Ok(usize::from(count))
}

#[tactic(auto, using(crate::proofs::Ends::end_same, crate::proofs::Ends::after_item))]
fn items_in(
    alloc: Global,
    edition: Edition,
    size: usize,
    count: usize,
    left: &mut &[u8],
) -> Result<ItemList, FrameError>
    ensures { Gives result left.new.now (members_at (item_at edition size) count left.old.now) }
{
    let mut items = Sequence::from_vec(Vec::with_capacity(alloc, room(count, MEMBER_LEAST, left))?);
    let mut pool = Pool::new(alloc, count, left);
    let mut rest = *left;
    for _ in 0..count {
        let item = item_of(edition, size, &mut pool, &mut rest)?;
        items.push(item)?;
    }
    *left = rest;
    Ok(items)
}

#[tactic(auto, unfolding(crate::specs::Readers::list_at))]
#[inline(always)]
pub fn items_of(
    alloc: Global,
    edition: Edition,
    size: usize,
    limit: u32,
    left: &mut &[u8],
) -> Result<ItemList, FrameError>
    ensures { Gives result left.new.now (list_at limit (item_at edition size) left.old.now) }
{
    let count = count_of(limit, left)?;
    items_in(alloc, edition, size, count, left)
}

#[tactic(auto, using(crate::proofs::Ends::end_same, crate::proofs::Ends::after_cell))]
fn cells_in(
    alloc: Global,
    edition: Edition,
    size: usize,
    count: usize,
    left: &mut &[u8],
) -> Result<CellList, FrameError>
    ensures { Gives result left.new.now (members_at (cell_at edition size) count left.old.now) }
{
    let mut cells = Sequence::from_vec(Vec::with_capacity(alloc, room(count, MEMBER_LEAST, left))?);
    let mut pool = Pool::new(alloc, count, left);
    let mut rest = *left;
    for _ in 0..count {
        let cell = cell_of(edition, size, &mut pool, &mut rest)?;
        cells.push(cell)?;
    }
    *left = rest;
    Ok(cells)
}

#[tactic(auto, unfolding(crate::specs::Readers::list_at))]
#[inline(always)]
pub fn cells_of(
    alloc: Global,
    edition: Edition,
    size: usize,
    limit: u32,
    left: &mut &[u8],
) -> Result<CellList, FrameError>
    ensures { Gives result left.new.now (list_at limit (cell_at edition size) left.old.now) }
{
    let count = count_of(limit, left)?;
    cells_in(alloc, edition, size, count, left)
}

fn ids_in(alloc: Global, size: usize, count: usize, left: &mut &[u8]) -> Result<IdList, FrameError>
    ensures { Gives result left.new.now (members_at (id_at size) count left.old.now) }
{
    let mut ids = Sequence::from_vec(Vec::with_capacity(alloc, room(count, ID_LEN, left))?);
    let mut rest = *left;
    for _ in 0..count {
        let id = id_of(size, &mut rest)?;
        ids.push(id)?;
    }
    *left = rest;
    Ok(ids)
}

#[tactic(auto, unfolding(crate::specs::Readers::list_at))]
#[inline(always)]
pub fn ids_of(alloc: Global, size: usize, left: &mut &[u8]) -> Result<IdList, FrameError>
    ensures { Gives result left.new.now (list_at BATCH_LIMIT (id_at size) left.old.now) }
{
    let count = count_of(BATCH_LIMIT, left)?;
    ids_in(alloc, size, count, left)
}

#[tactic(auto, using(crate::proofs::Ends::end_same, crate::proofs::Ends::after_placed))]
fn entries_in(
    alloc: Global,
    edition: Edition,
    size: usize,
    count: usize,
    left: &mut &[u8],
) -> Result<PlacedList, FrameError>
    ensures { Gives result left.new.now (members_at (placed_at edition size) count left.old.now) }
{
    let mut entries = Sequence::from_vec(Vec::with_capacity(
        alloc,
        room(count, PLACED_LEAST, left),
    )?);
    let mut pool = Pool::new(alloc, count, left);
    let mut rest = *left;
    for _ in 0..count {
        let placed = placed_of(edition, size, &mut pool, &mut rest)?;
        entries.push(placed)?;
    }
    *left = rest;
    Ok(entries)
}

#[tactic(auto, unfolding(crate::specs::Readers::list_at))]
#[inline(always)]
pub fn entries_of(
    alloc: Global,
    edition: Edition,
    size: usize,
    left: &mut &[u8],
) -> Result<PlacedList, FrameError>
    ensures { Gives result left.new.now (list_at READ_LIMIT (placed_at edition size) left.old.now) }
{
    let count = count_of(READ_LIMIT, left)?;
    entries_in(alloc, edition, size, count, left)
}

fn nodes_in(
    alloc: Global,
    size: usize,
    count: usize,
    left: &mut &[u8],
) -> Result<NodeList, FrameError>
    ensures { Gives result left.new.now (members_at (node_at size) count left.old.now) }
{
    let mut nodes = Sequence::from_vec(Vec::with_capacity(alloc, room(count, NODE_LEN, left))?);
    for _ in 0..count {
        let node = node_of(size, left)?;
        nodes.push(node)?;
    }
    Ok(nodes)
}

#[tactic(auto, unfolding(crate::specs::Readers::nodes_at))]
fn nodes_of(
    alloc: Global,
    size: usize,
    limit: u32,
    left: &mut &[u8],
) -> Result<NodeList, FrameError>
    ensures { Gives result left.new.now (nodes_at size limit left.old.now) }
{
    let count = few_of(size, limit, left)?;
    nodes_in(alloc, size, count, left)
}

fn shards_in(
    alloc: Global,
    size: usize,
    count: usize,
    left: &mut &[u8],
) -> Result<ShardList, FrameError>
    ensures { Gives result left.new.now (members_at (nodes_at size MAX_COPIES) count left.old.now) }
{
    let mut shards = Sequence::from_vec(Vec::with_capacity(alloc, room(count, NODES_LEAST, left))?);
    for _ in 0..count {
        let nodes = nodes_of(alloc, size, MAX_COPIES, left)?;
        shards.push(nodes)?;
    }
    Ok(shards)
}

#[tactic(auto, unfolding(crate::specs::Readers::shards_at))]
fn shards_of(alloc: Global, size: usize, left: &mut &[u8]) -> Result<ShardList, FrameError>
    ensures { Gives result left.new.now (shards_at size left.old.now) }
{
    let count = few_of(size, MAX_SHARDS, left)?;
    shards_in(alloc, size, count, left)
}

#[tactic(auto, unfolding(crate::specs::Readers::config_at))]
pub fn config_of(alloc: Global, size: usize, left: &mut &[u8]) -> Result<Config, FrameError>
    ensures { Gives result left.new.now (config_at size left.old.now) }
{
    let view = counted_of(size, left)?;
    let seq = nodes_of(alloc, size, MAX_SEQ, left)?;
    let shards = shards_of(alloc, size, left)?;
    Ok(Config { view, seq, shards })
}
