//! What items become before the held data is looked at.

ghost use Rattle.std.specs.Prelude.{◌≡◌, ◌+◌, ◌^◌, ◌<◌, length, IfOk};
ghost use Rattle.shard_store.specs.Settling.{owns, drafted, drafts};

use crate::settling::filled_or_open;
use rec_id::{Body, Cell, Item, ItemList, RecordId, copy_optional, shard_of};
use std::alloc::{AllocError, Global};
use std::collections::VecDeque;
use view_config::Mode;

/// The place belongs to this shard, of so many.
fn owns(mode: Mode, shard: u32, shards: u32, place: u32, id: RecordId) -> bool
    requires { shard < shards }
    ensures { result ≡ owns mode shard shards place id }
{
    match mode {
        Mode::M => place % shards == shard,
        Mode::St => shard_of(id, shards) == shard,
    }
}

fn draft(mode: Mode, shard: u32, shards: u32, place: u32, item: &Item) -> Result<Cell, AllocError>
    requires { shard < shards }
    ensures { IfOk result (λ made. made ≡ drafted mode shard shards place item.now) }
{
    if !owns(mode, shard, shards, place, item.id) {
        return Ok(Cell {
            id: item.id,
            body: Body::Elsewhere,
        });
    }
    Ok(Cell {
        id: item.id,
        body: filled_or_open(copy_optional(&item.bytes)?),
    })
}

/// Drafts of the items from place `from` on.
pub(crate) fn draft_all(
    alloc: Global,
    mode: Mode,
    shard: u32,
    shards: u32,
    from: u32,
    items: &ItemList,
) -> Result<VecDeque<Cell>, AllocError>
    requires shard { shard < shards }
    requires short { from + length items.now < 2 ^ 32 }
    ensures { IfOk result (λ made. made.items ≡ drafts mode shard shards from items.now) }
{
    let mut made = Vec::with_capacity(alloc, items.len())?;
    for i in 0..items.len() {
        made.push(draft(mode, shard, shards, from + i as u32, items.at(i))?)?;
    }
    Ok(VecDeque::from_vec(made))
}
