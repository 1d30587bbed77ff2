//! Numbers at the front of the bytes that are left.

ghost use Rattle.std.specs.Prelude.{◌≡◌, ◌-◌, length};
ghost use Rattle.std.specs.Int.{w16, w32, w64};
ghost use Rattle.wire_frames.specs.Readers.{Gives, GivesAs, byte_at, part_at, number_at, counted_at, node_at, addressee_at, time_at};

use crate::offence::FrameError;
use lazy_msgs::TIME_LIMIT;
use view_config::{BOARD, MAX_NODE};

/// The offence of a field that stood before these bytes, of so many in all.
pub fn field(size: usize, before: &[u8]) -> FrameError
    ensures { result ≡ FrameError.Field (size - length before.now) }
{
    FrameError::Field(size.saturating_sub(before.len()))
}

pub fn byte_of(left: &mut &[u8]) -> Result<u8, FrameError>
    ensures { Gives result left.new.now (byte_at left.old.now) }
{
    let all = *left;
    match all {
        [] => Err(FrameError::Short),
        [byte, rest @ ..] => {
            *left = rest;
            Ok(*byte)
        }
    }
}

/// So many bytes.
pub fn part_of<'a>(len: usize, left: &mut &'a [u8]) -> Result<&'a [u8], FrameError>
    ensures { GivesAs (λ part. part.now) result left.new.now (part_at len left.old.now) }
{
    let all: &'a [u8] = *left;
    if all.len() < len {
        return Err(FrameError::Short);
    }
    let (front, rest) = all.split_at(len);
    *left = rest;
    Ok(front)
}

#[tactic(auto, unfolding(crate::specs::Readers::number_at))]
pub fn two_of(left: &mut &[u8]) -> Result<u16, FrameError>
    ensures { Gives result left.new.now (number_at w16 left.old.now) }
{
    let all = *left;
    if all.len() < 2 {
        return Err(FrameError::Short);
    }
    let (front, rest) = all.split_at(2);
    *left = rest;
    Ok(u16::from_be_bytes([front[0], front[1]]))
}

#[tactic(auto, unfolding(crate::specs::Readers::number_at))]
pub fn four_of(left: &mut &[u8]) -> Result<u32, FrameError>
    ensures { Gives result left.new.now (number_at w32 left.old.now) }
{
    let all = *left;
    if all.len() < 4 {
        return Err(FrameError::Short);
    }
    let (front, rest) = all.split_at(4);
    *left = rest;
    Ok(u32::from_be_bytes([front[0], front[1], front[2], front[3]]))
}

#[tactic(auto, unfolding(crate::specs::Readers::number_at))]
pub fn eight_of(left: &mut &[u8]) -> Result<u64, FrameError>
    ensures { Gives result left.new.now (number_at w64 left.old.now) }
{
    let all = *left;
    if all.len() < 8 {
        return Err(FrameError::Short);
    }
    let (front, rest) = all.split_at(8);
    *left = rest;
    Ok(u64::from_be_bytes([
        front[0], front[1], front[2], front[3], front[4], front[5], front[6], front[7],
    ]))
}

/// A view or a read.
#[tactic(auto, unfolding(crate::specs::Readers::counted_at))]
pub fn counted_of(size: usize, left: &mut &[u8]) -> Result<u32, FrameError>
    ensures { Gives result left.new.now (counted_at size left.old.now) }
{
    let before = *left;
    let number = four_of(left)?;
    if number < 1 {
        return Err(field(size, before));
    }
    Ok(number)
}

#[tactic(auto, unfolding(crate::specs::Readers::node_at))]
pub fn node_of(size: usize, left: &mut &[u8]) -> Result<u32, FrameError>
    ensures { Gives result left.new.now (node_at size left.old.now) }
{
    let before = *left;
    let node = u32::from(two_of(left)?);
    if node > MAX_NODE {
        return Err(field(size, before));
    }
    Ok(node)
}

/// A node or the board.
#[tactic(auto, unfolding(crate::specs::Readers::addressee_at))]
pub fn addressee_of(size: usize, left: &mut &[u8]) -> Result<u32, FrameError>
    ensures { Gives result left.new.now (addressee_at size left.old.now) }
{
    let before = *left;
    let node = u32::from(two_of(left)?);
    if node > BOARD {
        return Err(field(size, before));
    }
    Ok(node)
}

#[tactic(auto, unfolding(crate::specs::Readers::time_at))]
pub fn time_of(size: usize, left: &mut &[u8]) -> Result<u64, FrameError>
    ensures { Gives result left.new.now (time_at size left.old.now) }
{
    let before = *left;
    let time = eight_of(left)?;
    if time >= TIME_LIMIT {
        return Err(field(size, before));
    }
    Ok(time)
}
