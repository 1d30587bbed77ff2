//! How batches get to the shards and into the order.

ghost use Rattle.std.specs.Int.{w32};
ghost use Rattle.lazy_msgs.specs.declared.msg.Msg.TheVariants.{Place, Placed, Copy, Copied, Order, Ordered, Stable};
ghost use Rattle.wire_frames.specs.Readers.{Gives, cell_at, counted_at, id_at, item_at, list_at, number_at, three_fields, two_fields};

use crate::offence::FrameError;
use crate::reading::lists::{cells_of, ids_of, items_of};
use crate::reading::numbers::{counted_of, four_of};
use lazy_msgs::{BATCH_LIMIT, Msg};
use std::alloc::Global;
use view_config::Edition;

#[inline(always)]
pub fn place_of(
    alloc: Global,
    edition: Edition,
    size: usize,
    left: &mut &[u8],
) -> Result<Msg, FrameError>
    ensures { Gives result left.new.now (three_fields (counted_at size) (number_at w32) (list_at BATCH_LIMIT (item_at edition size)) Place left.old.now) }
{
    let view = counted_of(size, left)?;
    let from = four_of(left)?;
    let items = items_of(alloc, edition, size, BATCH_LIMIT, left)?;
    Ok(Msg::Place { view, from, items })
}

#[inline(always)]
pub fn placed_of(size: usize, left: &mut &[u8]) -> Result<Msg, FrameError>
    ensures { Gives result left.new.now (two_fields (counted_at size) (number_at w32) Placed left.old.now) }
{
    let view = counted_of(size, left)?;
    let upto = four_of(left)?;
    Ok(Msg::Placed { view, upto })
}

#[inline(always)]
pub fn copy_of(
    alloc: Global,
    edition: Edition,
    size: usize,
    left: &mut &[u8],
) -> Result<Msg, FrameError>
    ensures { Gives result left.new.now (three_fields (counted_at size) (number_at w32) (list_at BATCH_LIMIT (cell_at edition size)) Copy left.old.now) }
{
    let view = counted_of(size, left)?;
    let from = four_of(left)?;
    let cells = cells_of(alloc, edition, size, BATCH_LIMIT, left)?;
    Ok(Msg::Copy { view, from, cells })
}

#[inline(always)]
pub fn copied_of(size: usize, left: &mut &[u8]) -> Result<Msg, FrameError>
    ensures { Gives result left.new.now (two_fields (counted_at size) (number_at w32) Copied left.old.now) }
{
    let view = counted_of(size, left)?;
    let upto = four_of(left)?;
    Ok(Msg::Copied { view, upto })
}

#[inline(always)]
pub fn order_of(alloc: Global, size: usize, left: &mut &[u8]) -> Result<Msg, FrameError>
    ensures { Gives result left.new.now (three_fields (counted_at size) (number_at w32) (list_at BATCH_LIMIT (id_at size)) Order left.old.now) }
{
    let view = counted_of(size, left)?;
    let from = four_of(left)?;
    let ids = ids_of(alloc, size, left)?;
    Ok(Msg::Order { view, from, ids })
}

#[inline(always)]
pub fn ordered_of(size: usize, left: &mut &[u8]) -> Result<Msg, FrameError>
    ensures { Gives result left.new.now (two_fields (counted_at size) (number_at w32) Ordered left.old.now) }
{
    let view = counted_of(size, left)?;
    let upto = four_of(left)?;
    Ok(Msg::Ordered { view, upto })
}

#[inline(always)]
pub fn stable_of(size: usize, left: &mut &[u8]) -> Result<Msg, FrameError>
    ensures { Gives result left.new.now (two_fields (counted_at size) (number_at w32) Stable left.old.now) }
{
    let view = counted_of(size, left)?;
    let upto = four_of(left)?;
    Ok(Msg::Stable { view, upto })
}
