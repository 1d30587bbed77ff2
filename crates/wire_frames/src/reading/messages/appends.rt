//! What appends send, and what answers them.

ghost use Rattle.std.specs.Int.{w32};
ghost use Rattle.lazy_msgs.specs.declared.msg.Msg.TheVariants.{Append, AppendAck, Put, DataAck, Rejected};
ghost use Rattle.wire_frames.specs.Readers.{Gives, bytes_at, counted_at, id_at, number_at, optional_at, three_fields, two_fields};

use crate::offence::FrameError;
use crate::reading::fields::{bytes_of, id_of, optional_of};
use crate::reading::numbers::{counted_of, four_of};
use crate::reading::pool::Pool;
use lazy_msgs::Msg;
use std::alloc::Global;
use view_config::Edition;

#[tactic(auto, using(crate::proofs::Ends::end_same))]
#[inline(always)]
pub fn append_of(
    alloc: Global,
    edition: Edition,
    size: usize,
    left: &mut &[u8],
) -> Result<Msg, FrameError>
    ensures { Gives result left.new.now (three_fields (counted_at size) (id_at size) (optional_at edition size) Append left.old.now) }
{
    let view = counted_of(size, left)?;
    let id = id_of(size, left)?;
    let mut pool = Pool::new(alloc, 1, left);
    let bytes = optional_of(edition, size, &mut pool, left)?;
    Ok(Msg::Append { view, id, bytes })
}

#[inline(always)]
pub fn append_ack_of(size: usize, left: &mut &[u8]) -> Result<Msg, FrameError>
    ensures { Gives result left.new.now (two_fields (counted_at size) (id_at size) AppendAck left.old.now) }
{
    let view = counted_of(size, left)?;
    let id = id_of(size, left)?;
    Ok(Msg::AppendAck { view, id })
}

#[tactic(auto, using(crate::proofs::Ends::end_same))]
#[inline(always)]
pub fn put_of(
    alloc: Global,
    edition: Edition,
    size: usize,
    left: &mut &[u8],
) -> Result<Msg, FrameError>
    ensures { Gives result left.new.now (two_fields (id_at size) (bytes_at edition) Put left.old.now) }
{
    let id = id_of(size, left)?;
    let mut pool = Pool::new(alloc, 1, left);
    let bytes = bytes_of(edition, &mut pool, left)?;
    Ok(Msg::Put { id, bytes })
}

#[inline(always)]
pub fn data_ack_of(size: usize, left: &mut &[u8]) -> Result<Msg, FrameError>
    ensures { Gives result left.new.now (two_fields (counted_at size) (id_at size) DataAck left.old.now) }
{
    let view = counted_of(size, left)?;
    let id = id_of(size, left)?;
    Ok(Msg::DataAck { view, id })
}

#[inline(always)]
pub fn rejected_of(size: usize, left: &mut &[u8]) -> Result<Msg, FrameError>
    ensures { Gives result left.new.now (two_fields (id_at size) (number_at w32) Rejected left.old.now) }
{
    let id = id_of(size, left)?;
    let place = four_of(left)?;
    Ok(Msg::Rejected { id, place })
}
