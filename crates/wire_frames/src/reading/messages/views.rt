//! Changes of the view.

ghost use Rattle.std.specs.Int.{w32};
ghost use Rattle.lazy_msgs.specs.declared.msg.Msg.TheVariants.{Flush, FlushCopy, Flushed, Seal, Sealed, SealedEmpty, NewView, Started, ViewIs, Claim};
ghost use Rattle.wire_frames.specs.Readers.{Gives, cell_at, config_at, counted_at, four_fields, item_at, list_at, number_at, one_field, three_fields, window_at};

use crate::offence::FrameError;
use crate::reading::lists::{cells_of, config_of, items_of};
use crate::reading::marks::read_window;
use crate::reading::numbers::{counted_of, four_of};
use lazy_msgs::{Msg, PENDING_LIMIT};
use std::alloc::Global;
use view_config::Edition;

#[inline(always)]
pub fn flush_of(
    alloc: Global,
    edition: Edition,
    size: usize,
    left: &mut &[u8],
) -> Result<Msg, FrameError>
    ensures { Gives result left.new.now (three_fields (config_at size) (number_at w32) (list_at PENDING_LIMIT (item_at edition size)) Flush left.old.now) }
{
    let config = config_of(alloc, size, left)?;
    let from = four_of(left)?;
    let items = items_of(alloc, edition, size, PENDING_LIMIT, left)?;
    Ok(Msg::Flush {
        config,
        from,
        items,
    })
}

#[inline(always)]
pub fn flush_copy_of(
    alloc: Global,
    edition: Edition,
    size: usize,
    left: &mut &[u8],
) -> Result<Msg, FrameError>
    ensures { Gives result left.new.now (three_fields (counted_at size) (number_at w32) (list_at PENDING_LIMIT (cell_at edition size)) FlushCopy left.old.now) }
{
    let view = counted_of(size, left)?;
    let from = four_of(left)?;
    let cells = cells_of(alloc, edition, size, PENDING_LIMIT, left)?;
    Ok(Msg::FlushCopy { view, from, cells })
}

#[inline(always)]
pub fn flushed_of(size: usize, left: &mut &[u8]) -> Result<Msg, FrameError>
    ensures { Gives result left.new.now (one_field (counted_at size) Flushed left.old.now) }
{
    let view = counted_of(size, left)?;
    Ok(Msg::Flushed { view })
}

#[inline(always)]
pub fn seal_of(size: usize, left: &mut &[u8]) -> Result<Msg, FrameError>
    ensures { Gives result left.new.now (one_field (counted_at size) Seal left.old.now) }
{
    let view = counted_of(size, left)?;
    Ok(Msg::Seal { view })
}

#[inline(always)]
pub fn sealed_of(
    alloc: Global,
    edition: Edition,
    size: usize,
    left: &mut &[u8],
) -> Result<Msg, FrameError>
    ensures { Gives result left.new.now (four_fields (counted_at size) (number_at w32) (window_at edition size) (list_at PENDING_LIMIT (item_at edition size)) Sealed left.old.now) }
{
    let view = counted_of(size, left)?;
    let bound = four_of(left)?;
    let window = read_window(alloc, edition, size, left)?;
    let items = items_of(alloc, edition, size, PENDING_LIMIT, left)?;
    Ok(Msg::Sealed {
        view,
        bound,
        window,
        items,
    })
}

#[inline(always)]
pub fn sealed_empty_of(size: usize, left: &mut &[u8]) -> Result<Msg, FrameError>
    ensures { Gives result left.new.now (one_field (counted_at size) SealedEmpty left.old.now) }
{
    let view = counted_of(size, left)?;
    Ok(Msg::SealedEmpty { view })
}

#[inline(always)]
pub fn new_view_of(
    alloc: Global,
    edition: Edition,
    size: usize,
    left: &mut &[u8],
) -> Result<Msg, FrameError>
    ensures { Gives result left.new.now (three_fields (config_at size) (number_at w32) (window_at edition size) NewView left.old.now) }
{
    let config = config_of(alloc, size, left)?;
    let base = four_of(left)?;
    let window = read_window(alloc, edition, size, left)?;
    Ok(Msg::NewView {
        config,
        base,
        window,
    })
}

#[inline(always)]
pub fn started_of(size: usize, left: &mut &[u8]) -> Result<Msg, FrameError>
    ensures { Gives result left.new.now (one_field (counted_at size) Started left.old.now) }
{
    let view = counted_of(size, left)?;
    Ok(Msg::Started { view })
}

#[inline(always)]
pub fn view_is_of(alloc: Global, size: usize, left: &mut &[u8]) -> Result<Msg, FrameError>
    ensures { Gives result left.new.now (one_field (config_at size) ViewIs left.old.now) }
{
    let config = config_of(alloc, size, left)?;
    Ok(Msg::ViewIs { config })
}

#[inline(always)]
pub fn claim_of(left: &mut &[u8]) -> Result<Msg, FrameError>
    ensures { Gives result left.new.now (one_field (number_at w32) Claim left.old.now) }
{
    let stable = four_of(left)?;
    Ok(Msg::Claim { stable })
}
