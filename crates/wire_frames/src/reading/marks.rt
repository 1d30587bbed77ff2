//! The marks of each client.

ghost use Rattle.std.specs.Prelude.{◌≡◌, ◌*◌, ◌%◌, ◌≤◌, ◌||◌, ◌==◌, nat_le, length, slice_index, IfOk};
ghost use Rattle.std.specs.Int.{w16, w64, from_le_bytes};
ghost use Rattle.lazy_msgs.specs.FrameLimits.{words_of};
ghost use Rattle.wire_frames.specs.Readers.{Gives, allowed, limited, number_at, are_bits, end_at, marks_at, members_at, window_at, words_at, words_in};

use super::lists::{count_of, room};
use super::numbers::{field, four_of, part_of};
use crate::limits::{words_end, words_of};
use crate::offence::FrameError;
use plain_lists::Sequence;
use rec_id::{Marks, WindowList, Words};
use std::alloc::{AllocError, Global};
use view_config::{Edition, MAX_CLIENTS};

/// The word in these bytes, the lowest byte first.
fn word_of(bytes: &[u8]) -> u64
    requires { length bytes.now ≡ 8 }
    ensures { result ≡ from_le_bytes w64 bytes.now }
{
    u64::from_le_bytes([
        bytes[0], bytes[1], bytes[2], bytes[3], bytes[4], bytes[5], bytes[6], bytes[7],
    ])
}

fn words_in(alloc: Global, count: usize, bytes: &[u8]) -> Result<Words, AllocError>
    requires { length bytes.now ≡ 8 * count }
    ensures { IfOk result (λ words. words ≡ words_in count bytes.now) }
{
    let mut words = Sequence::from_vec(Vec::with_capacity(alloc, count)?);
    let mut left = bytes;
    for _ in 0..count {
        let (front, behind) = left.split_at(8);
        words.push(word_of(front))?;
        left = behind;
    }
    Ok(words)
}

fn bits_of(alloc: Global, edition: Edition, left: &mut &[u8]) -> Result<Words, FrameError>
    ensures { Gives result left.new.now (words_at (words_of edition) left.old.now) }
{
    let count = words_of(edition);
    let part = part_of(8 * count, left)?;
    Ok(words_in(alloc, count, part)?)
}

/// Whether the greatest number is marked, where there is one.
fn highest_is_marked(top: u32, words: &Words) -> bool
    requires { 1 ≤ length words.now }
    ensures { result ≡ (top == 0 || slice_index words.now 0 % 2 == 1) }
{
    top == 0 || *words.at(0) % 2 == 1
}

fn none_below_one(top: u32, words: &Words) -> bool
    ensures { result ≡ end_at top words.now }
{
    words_end(top, words)
}

/// Whether these are bits of marks whose greatest number is `top`.
fn are_bits(top: u32, words: &Words) -> bool
    requires { 1 ≤ length words.now }
    ensures { result ≡ are_bits top words.now }
{
    highest_is_marked(top, words) && none_below_one(top, words)
}

#[tactic(auto, unfolding(crate::specs::Readers::marks_at))]
fn marks_of(
    alloc: Global,
    edition: Edition,
    size: usize,
    left: &mut &[u8],
) -> Result<Marks, FrameError>
    ensures { Gives result left.new.now (marks_at edition size left.old.now) }
{
    let top = four_of(left)?;
    let before = *left;
    let bits = bits_of(alloc, edition, left)?;
    if !are_bits(top, &bits) {
        return Err(field(size, before));
    }
    Ok(Marks { top, bits })
}

fn clients_in(
    alloc: Global,
    edition: Edition,
    size: usize,
    count: usize,
    left: &mut &[u8],
) -> Result<WindowList, FrameError>
    ensures { Gives result left.new.now (members_at (marks_at edition size) count left.old.now) }
{
    let least = 4 + 8 * words_of(edition);
    let mut window = Sequence::from_vec(Vec::with_capacity(alloc, room(count, least, left))?);
    for _ in 0..count {
        let marks = marks_of(alloc, edition, size, left)?;
        window.push(marks)?;
    }
    Ok(window)
}

/// How many clients follow.
fn clients_of(size: usize, left: &mut &[u8]) -> Result<usize, FrameError>
    ensures { Gives result left.new.now (allowed size (nat_le 1) (limited MAX_CLIENTS (number_at w16)) left.old.now) }
{
    let before = *left;
    let count = count_of(MAX_CLIENTS, left)?;
    if count < 1 {
        return Err(field(size, before));
    }
    Ok(count)
}

#[tactic(auto, unfolding(crate::specs::Readers::window_at))]
pub fn read_window(
    alloc: Global,
    edition: Edition,
    size: usize,
    left: &mut &[u8],
) -> Result<WindowList, FrameError>
    ensures { Gives result left.new.now (window_at edition size left.old.now) }
{
    let count = clients_of(size, left)?;
    clients_in(alloc, edition, size, count, left)
}
