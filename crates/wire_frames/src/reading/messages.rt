//! The fields of a message, by its kind.

ghost use Rattle.wire_frames.specs.Readers.{Gives, fields_at};

mod appends;
mod batches;
mod reads;
mod views;

use crate::offence::FrameError;
use appends::{append_ack_of, append_of, data_ack_of, put_of, rejected_of};
use batches::{copied_of, copy_of, order_of, ordered_of, place_of, placed_of, stable_of};
use lazy_msgs::Msg;
use reads::{
    fetch_of, part_of, probe_ack_of, probe_of, tail_ready_of, trim_ack_of, trim_of, trimmed_at_of,
};
use std::alloc::Global;
use view_config::Edition;
use views::{
    claim_of, flush_copy_of, flush_of, flushed_of, new_view_of, seal_of, sealed_empty_of,
    sealed_of, started_of, view_is_of,
};

/// The message of this kind, one that the edition has.
#[tactic(auto, unfolding(crate::specs::Readers::fields_at))]
#[inline(always)]
pub fn message_of(
    alloc: Global,
    edition: Edition,
    size: usize,
    kind: u8,
    left: &mut &[u8],
) -> Result<Msg, FrameError>
    ensures { Gives result left.new.now (fields_at edition size kind left.old.now) }
{
    match kind {
        1 => append_of(alloc, edition, size, left),
        2 => append_ack_of(size, left),
        3 => put_of(alloc, edition, size, left),
        4 => data_ack_of(size, left),
        5 => rejected_of(size, left),
        6 => place_of(alloc, edition, size, left),
        7 => placed_of(size, left),
        8 => copy_of(alloc, edition, size, left),
        9 => copied_of(size, left),
        10 => order_of(alloc, size, left),
        11 => ordered_of(size, left),
        12 => stable_of(size, left),
        13 => probe_of(size, left),
        14 => probe_ack_of(size, left),
        15 => tail_ready_of(size, left),
        16 => fetch_of(size, left),
        17 => part_of(alloc, edition, size, left),
        18 => flush_of(alloc, edition, size, left),
        19 => flush_copy_of(alloc, edition, size, left),
        20 => flushed_of(size, left),
        21 => seal_of(size, left),
        22 => sealed_of(alloc, edition, size, left),
        23 => sealed_empty_of(size, left),
        24 => new_view_of(alloc, edition, size, left),
        25 => started_of(size, left),
        26 => Ok(Msg::AskView),
        27 => view_is_of(alloc, size, left),
        28 => claim_of(left),
        29 => trim_of(size, left),
        30 => trim_ack_of(size, left),
        _ => trimmed_at_of(size, left),
    }
}
