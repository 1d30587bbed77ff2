//! Fields of several parts. What owns memory takes exactly what it keeps.
//!
//! The members of lists are read from a slice of their own, and `left` is set once behind them: what is
//! behind a reference is written to memory at each part.

ghost use Rattle.std.specs.Prelude.{◌≡◌};
ghost use Rattle.wire_frames.specs.Readers.{Gives, IsEnd, id_at, size_at, bytes_at, optional_at, item_at, body_at, cell_at, entry_at, placed_at};

use super::numbers::{byte_of, field, four_of, part_of, two_of};
use super::pool::Pool;
use crate::offence::FrameError;
use rec_id::{Body, Bytes, Cell, Entry, Item, RecordId};
use view_config::Edition;

#[tactic(auto, unfolding(crate::specs::Readers::id_at, crate::specs::Readers::counted_at, crate::specs::Readers::number_at))]
#[inline(always)]
pub fn id_of(size: usize, left: &mut &[u8]) -> Result<RecordId, FrameError>
    ensures { Gives result left.new.now (id_at size left.old.now) }
{
    let all = *left;
    match all {
        [client, before @ ..] => {
            if before.len() < 4 {
                return Err(FrameError::Short);
            }
            let (number, rest) = before.split_at(4);
            *left = rest;
            let number = u32::from_be_bytes([number[0], number[1], number[2], number[3]]);
            match RecordId::new(u32::from(*client), number) {
                Ok(id) => Ok(id),
                Err(_) => Err(field(size, before)),
            }
        }
        [] => Err(FrameError::Short),
    }
}

/// How many bytes of data follow.
#[inline(always)]
fn size_of(edition: Edition, left: &mut &[u8]) -> Result<usize, FrameError>
    ensures { Gives result left.new.now (size_at edition left.old.now) }
{
    let len = match edition {
        Edition::One => u32::from(two_of(left)?),
        Edition::Two => four_of(left)?,
    };
    let limit = edition.record_limit() as u32;
    if len > limit {
        return Err(FrameError::Over(limit));
    }
    Ok(len as usize)
}

#[tactic(auto, unfolding(crate::specs::Readers::bytes_at), using(crate::proofs::Ends::after_size, crate::proofs::Ends::left_within, crate::proofs::Ends::part_within, crate::proofs::Ends::part_is))]
#[inline(always)]
pub fn bytes_of(
    edition: Edition,
    pool: &mut Pool<'_>,
    left: &mut &[u8],
) -> Result<Bytes, FrameError>
    requires { IsEnd left.old.now pool.old }
    ensures gives { Gives result left.new.now (bytes_at edition left.old.now) }
    ensures same { pool.new ≡ pool.old }
{
    let len = size_of(edition, left)?;
    let at = pool.len() - left.len();
    part_of(len, left)?;
    Ok(pool.slice(at, len)?)
}

#[tactic(auto, unfolding(crate::specs::Readers::optional_at), using(crate::proofs::Ends::after_byte))]
#[inline(always)]
pub fn optional_of(
    edition: Edition,
    size: usize,
    pool: &mut Pool<'_>,
    left: &mut &[u8],
) -> Result<Option<Bytes>, FrameError>
    requires { IsEnd left.old.now pool.old }
    ensures gives { Gives result left.new.now (optional_at edition size left.old.now) }
    ensures same { pool.new ≡ pool.old }
{
    let before = *left;
    match byte_of(left)? {
        0 => Ok(None),
        1 => {
            let bytes = bytes_of(edition, pool, left)?;
            Ok(Some(bytes))
        }
        _ => Err(field(size, before)),
    }
}

#[tactic(auto, unfolding(crate::specs::Readers::item_at), using(crate::proofs::Ends::after_id))]
#[inline(always)]
pub fn item_of(
    edition: Edition,
    size: usize,
    pool: &mut Pool<'_>,
    left: &mut &[u8],
) -> Result<Item, FrameError>
    requires { IsEnd left.old.now pool.old }
    ensures gives { Gives result left.new.now (item_at edition size left.old.now) }
    ensures same { pool.new ≡ pool.old }
{
    let mut rest = *left;
    let id = id_of(size, &mut rest)?;
    let bytes = optional_of(edition, size, pool, &mut rest)?;
    *left = rest;
    Ok(Item { id, bytes })
}

#[tactic(auto, unfolding(crate::specs::Readers::body_at), using(crate::proofs::Ends::after_byte))]
#[inline(always)]
fn body_of(
    edition: Edition,
    size: usize,
    pool: &mut Pool<'_>,
    left: &mut &[u8],
) -> Result<Body, FrameError>
    requires { IsEnd left.old.now pool.old }
    ensures gives { Gives result left.new.now (body_at edition size left.old.now) }
    ensures same { pool.new ≡ pool.old }
{
    let before = *left;
    match byte_of(left)? {
        0 => Ok(Body::Elsewhere),
        1 => {
            let bytes = bytes_of(edition, pool, left)?;
            Ok(Body::Kept(bytes))
        }
        2 => Ok(Body::Noop),
        _ => Err(field(size, before)),
    }
}

#[tactic(auto, unfolding(crate::specs::Readers::cell_at), using(crate::proofs::Ends::after_id))]
#[inline(always)]
pub fn cell_of(
    edition: Edition,
    size: usize,
    pool: &mut Pool<'_>,
    left: &mut &[u8],
) -> Result<Cell, FrameError>
    requires { IsEnd left.old.now pool.old }
    ensures gives { Gives result left.new.now (cell_at edition size left.old.now) }
    ensures same { pool.new ≡ pool.old }
{
    let mut rest = *left;
    let id = id_of(size, &mut rest)?;
    let body = body_of(edition, size, pool, &mut rest)?;
    *left = rest;
    Ok(Cell { id, body })
}

#[tactic(auto, unfolding(crate::specs::Readers::entry_at), using(crate::proofs::Ends::after_id, crate::proofs::Ends::after_byte))]
#[inline(always)]
fn entry_of(
    edition: Edition,
    size: usize,
    pool: &mut Pool<'_>,
    left: &mut &[u8],
) -> Result<Entry, FrameError>
    requires { IsEnd left.old.now pool.old }
    ensures gives { Gives result left.new.now (entry_at edition size left.old.now) }
    ensures same { pool.new ≡ pool.old }
{
    let id = id_of(size, left)?;
    let before = *left;
    match byte_of(left)? {
        1 => {
            let bytes = bytes_of(edition, pool, left)?;
            Ok(Entry::Kept(id, bytes))
        }
        2 => Ok(Entry::Noop(id)),
        _ => Err(field(size, before)),
    }
}

#[tactic(auto, unfolding(crate::specs::Readers::placed_at), using(crate::proofs::Ends::after_four))]
#[inline(always)]
pub fn placed_of(
    edition: Edition,
    size: usize,
    pool: &mut Pool<'_>,
    left: &mut &[u8],
) -> Result<(u32, Entry), FrameError>
    requires { IsEnd left.old.now pool.old }
    ensures gives { Gives result left.new.now (placed_at edition size left.old.now) }
    ensures same { pool.new ≡ pool.old }
{
    let mut rest = *left;
    let place = four_of(&mut rest)?;
    let entry = entry_of(edition, size, pool, &mut rest)?;
    *left = rest;
    Ok((place, entry))
}
