//! How high and how low keys stand in a line.

ghost use Rattle.std.specs.Prelude.{◌≡◌, ◌+◌, ◌^◌, ◌<◌, ℕ, length, slice_index, IfOk};
ghost use Rattle.log_law.specs.Keys.{key_at};
ghost use Rattle.log_law.specs.Places.{IsLimit, IsLimitOf, IsLowest, IsLowestOf};

use crate::index::KeyIndex;
use std::alloc::{AllocError, Global};

/// A number that is at most a place exactly where the key stands below that place.
pub fn limit(named: &KeyIndex, key: (u32, u32)) -> u64
    ensures { IsLimit named.now key result }
{
    let place = named.first(key);
    if place < named.len() {
        return place as u64 + 1;
    }
    u64::MAX
}

/// The lowest place of the key, and `u64::MAX` where it has none.
pub fn lowest(named: &KeyIndex, key: (u32, u32)) -> u64
    ensures { IsLowest named.now key result }
{
    let place = named.first(key);
    if place < named.len() {
        return place as u64;
    }
    u64::MAX
}

/// The limit of a key, and 0 where there is none.
fn limit_of(named: &KeyIndex, told: Option<(u32, u32)>) -> u64
    ensures { IsLimitOf named.now told result }
{
    match told {
        Some(key) => limit(named, key),
        None => 0,
    }
}

/// The lowest place of a key, and `u64::MAX` where there is none.
fn lowest_of(named: &KeyIndex, told: Option<(u32, u32)>) -> u64
    ensures { IsLowestOf named.now told result }
{
    match told {
        Some(key) => lowest(named, key),
        None => u64::MAX,
    }
}

/// The limits of keys in turn.
pub fn limits(
    alloc: Global,
    told: &[Option<(u32, u32)>],
    named: &KeyIndex,
) -> Result<Vec<u64>, AllocError>
    ensures long { IfOk result (λ made. length made.items ≡ length told.now) }
    ensures each { IfOk result (λ made. (i : ℕ) → i < length told.now → IsLimitOf named.now (key_at told.now i) (slice_index made.items i)) }
{
    let mut made = Vec::with_capacity(alloc, told.len())?;
    for i in 0..told.len() {
        made.push(limit_of(named, told[i]))?;
    }
    Ok(made)
}

/// The lowest places of keys in turn.
pub fn lowest_places(
    alloc: Global,
    told: &[Option<(u32, u32)>],
    named: &KeyIndex,
) -> Result<Vec<u64>, AllocError>
    ensures long { IfOk result (λ made. length made.items ≡ length told.now) }
    ensures each { IfOk result (λ made. (i : ℕ) → i < length told.now → IsLowestOf named.now (key_at told.now i) (slice_index made.items i)) }
{
    let mut made = Vec::with_capacity(alloc, told.len())?;
    for i in 0..told.len() {
        made.push(lowest_of(named, told[i]))?;
    }
    Ok(made)
}
