//! Reads and trims.

ghost use Rattle.std.specs.Int.{w32};
ghost use Rattle.lazy_msgs.specs.declared.msg.Msg.TheVariants.{Probe, ProbeAck, TailReady, Fetch, Part, Trim, TrimAck, TrimmedAt};
ghost use Rattle.rec_id.specs.declared.limits.TheConstants.{READ_LIMIT};
ghost use Rattle.wire_frames.specs.Readers.{Gives, counted_at, four_fields, list_at, number_at, one_field, placed_at, three_fields, two_fields};

use crate::offence::FrameError;
use crate::reading::lists::entries_of;
use crate::reading::numbers::{counted_of, four_of};
use lazy_msgs::Msg;
use std::alloc::Global;
use view_config::Edition;

#[inline(always)]
pub fn probe_of(size: usize, left: &mut &[u8]) -> Result<Msg, FrameError>
    ensures { Gives result left.new.now (two_fields (counted_at size) (counted_at size) Probe left.old.now) }
{
    let view = counted_of(size, left)?;
    let read = counted_of(size, left)?;
    Ok(Msg::Probe { view, read })
}

#[inline(always)]
pub fn probe_ack_of(size: usize, left: &mut &[u8]) -> Result<Msg, FrameError>
    ensures { Gives result left.new.now (two_fields (counted_at size) (counted_at size) ProbeAck left.old.now) }
{
    let view = counted_of(size, left)?;
    let read = counted_of(size, left)?;
    Ok(Msg::ProbeAck { view, read })
}

#[inline(always)]
pub fn tail_ready_of(size: usize, left: &mut &[u8]) -> Result<Msg, FrameError>
    ensures { Gives result left.new.now (three_fields (counted_at size) (counted_at size) (number_at w32) TailReady left.old.now) }
{
    let view = counted_of(size, left)?;
    let read = counted_of(size, left)?;
    let tail = four_of(left)?;
    Ok(Msg::TailReady { view, read, tail })
}

#[inline(always)]
pub fn fetch_of(size: usize, left: &mut &[u8]) -> Result<Msg, FrameError>
    ensures { Gives result left.new.now (three_fields (counted_at size) (number_at w32) (number_at w32) Fetch left.old.now) }
{
    let read = counted_of(size, left)?;
    let from = four_of(left)?;
    let to = four_of(left)?;
    Ok(Msg::Fetch { read, from, to })
}

#[inline(always)]
pub fn part_of(
    alloc: Global,
    edition: Edition,
    size: usize,
    left: &mut &[u8],
) -> Result<Msg, FrameError>
    ensures { Gives result left.new.now (four_fields (counted_at size) (number_at w32) (number_at w32) (list_at READ_LIMIT (placed_at edition size)) Part left.old.now) }
{
    let read = counted_of(size, left)?;
    let from = four_of(left)?;
    let end = four_of(left)?;
    let entries = entries_of(alloc, edition, size, left)?;
    Ok(Msg::Part {
        read,
        from,
        end,
        entries,
    })
}

#[inline(always)]
pub fn trim_of(size: usize, left: &mut &[u8]) -> Result<Msg, FrameError>
    ensures { Gives result left.new.now (two_fields (counted_at size) (number_at w32) Trim left.old.now) }
{
    let read = counted_of(size, left)?;
    let floor = four_of(left)?;
    Ok(Msg::Trim { read, floor })
}

#[inline(always)]
pub fn trim_ack_of(size: usize, left: &mut &[u8]) -> Result<Msg, FrameError>
    ensures { Gives result left.new.now (one_field (counted_at size) TrimAck left.old.now) }
{
    let read = counted_of(size, left)?;
    Ok(Msg::TrimAck { read })
}

#[inline(always)]
pub fn trimmed_at_of(size: usize, left: &mut &[u8]) -> Result<Msg, FrameError>
    ensures { Gives result left.new.now (two_fields (counted_at size) (number_at w32) TrimmedAt left.old.now) }
{
    let read = counted_of(size, left)?;
    let floor = four_of(left)?;
    Ok(Msg::TrimmedAt { read, floor })
}
