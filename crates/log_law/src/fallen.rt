//! Clause (g): the tail of a forced answer is no less than what was shown before its read began.

ghost use Rattle.std.specs.Prelude.{◌≡◌, ◌<◌, ℕ, length, IfOk, OnOk};
ghost use Rattle.std.specs.BTreeMap.{get};
ghost use Rattle.rec_id.specs.Lawful.{TailsNeverFallAt};
ghost use Rattle.log_law.specs.Keys.{key_cmp};
ghost use Rattle.log_law.specs.Pairs.{IsFound};
ghost use Rattle.log_law.specs.Tails.{falls_below, noted, IsFirstFall};

use crate::pairs::first_row;
use crate::reaches::{Reach, reaches_of};
use crate::tails::{forced_key, least_tails};
use crate::told::{Told, event_key};
use rec_id::Event;
use std::alloc::{AllocError, Global};
use std::collections::BTreeMap;

/// The event gives a tail below `reach` to a read that has begun.
fn falls(begun: &BTreeMap<(u32, u32), usize>, told: Option<((u32, u32), u32)>, reach: u64) -> bool
    ensures { result ≡ falls_below begun.now told reach }
{
    match told {
        Some((key, tail)) => u64::from(tail) < reach && begun.contains_key(&key),
        None => false,
    }
}

/// Counts a read that begins at `j` in.
fn note(
    begun: &mut BTreeMap<(u32, u32), usize>,
    told: Option<(u32, u32)>,
    j: usize,
) -> Result<(), AllocError>
    ensures { OnOk result ((key : ℕ × ℕ) → get key_cmp begun.new key ≡ noted told j key (get key_cmp begun.old key)) }
{
    if let Some(key) = told {
        begun.insert(key, j)?;
    }
    Ok(())
}

/// The first index of a forced answer with a tail below `reach` to a read that begins after
/// `row`, and the length of the history where there is none.
fn first_fall(alloc: Global, history: &[Event], row: usize, reach: u64) -> Result<usize, AllocError>
    requires { row < length history.now }
    ensures { IfOk result (IsFirstFall history.now row reach) }
{
    let mut begun = BTreeMap::new(alloc);
    for j in row + 1..history.len() {
        if falls(&begun, forced_key(&history[j]), reach) {
            return Ok(j);
        }
        note(&mut begun, event_key(Told::Begun, &history[j]), j)?;
    }
    Ok(history.len())
}

/// The first pair of an event that showed the order and a forced answer that tells a lesser tail
/// to a read that began later, if there is any.
pub fn tails_breach(alloc: Global, history: &[Event]) -> Result<Option<(usize, usize)>, AllocError>
    ensures { IfOk result (IsFound (TailsNeverFallAt history.now)) }
{
    let bounds = reaches_of(alloc, Reach::Shown, history)?;
    let lows = least_tails(alloc, history)?;
    let row = first_row(&bounds, &lows);
    if row == history.len() {
        return Ok(None);
    }
    Ok(Some((row, first_fall(alloc, history, row, bounds[row])?)))
}
