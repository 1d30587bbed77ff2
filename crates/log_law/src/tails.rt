//! The tails of forced answers, by the reads that they answer.

ghost use Rattle.std.specs.Prelude.{◌≡◌, ◌-◌, ◌^◌, ◌<◌, ℕ, length, slice_index, IfOk, IfSome, OnOk};
ghost use Rattle.std.specs.Option.{option_map_or};
ghost use Rattle.log_law.specs.Tails.{forced_key, tail_in, lowered, IsLeastTailAt};

use crate::told::{Told, event_key};
use rec_id::Event;
use std::alloc::{AllocError, Global};
use std::collections::BTreeMap;

/// The key of the read whose answer is forced, with the tail.
pub fn forced_key(event: &Event) -> Option<((u32, u32), u32)>
    ensures told { result ≡ forced_key event.now }
    ensures fits { IfSome result (λ told. told.1 < 2 ^ 32) }
{
    match event {
        Event::Answer {
            client,
            read,
            tail,
            ..
        } => match tail {
            Some(tail) => Some(((*client, *read), *tail)),
            None => None,
        },
        Event::Invoke(_, _)
        | Event::Acked(_)
        | Event::Rejected(_, _)
        | Event::Begin(_, _, _)
        | Event::Seen { .. }
        | Event::TrimAsk { .. }
        | Event::TrimDone { .. }
        | Event::Trimmed { .. } => None,
    }
}

fn tail_in(tails: &BTreeMap<(u32, u32), u64>, key: (u32, u32)) -> u64
    ensures { result ≡ tail_in tails.now key }
{
    tails.get(&key).copied().unwrap_or(u64::MAX)
}

fn tail_of(tails: &BTreeMap<(u32, u32), u64>, told: Option<(u32, u32)>) -> u64
    ensures { result ≡ option_map_or (λ key. tail_in tails.now key) told (2 ^ 64 - 1) }
{
    match told {
        Some(key) => tail_in(tails, key),
        None => u64::MAX,
    }
}

/// Counts a forced answer in.
fn lower(
    tails: &mut BTreeMap<(u32, u32), u64>,
    told: Option<((u32, u32), u32)>,
) -> Result<(), AllocError>
    ensures { OnOk result ((key : ℕ × ℕ) → tail_in tails.new key ≡ lowered told key (tail_in tails.old key)) }
{
    if let Some((key, tail)) = told {
        let least = tail_in(tails, key).min(u64::from(tail));
        tails.insert(key, least)?;
    }
    Ok(())
}

/// At each index where a read begins the least tail of the later forced answers to it, and
/// `u64::MAX` where there is none and at all other indices.
pub fn least_tails(alloc: Global, history: &[Event]) -> Result<Vec<u64>, AllocError>
    ensures long { IfOk result (λ made. length made.items ≡ length history.now) }
    ensures each { IfOk result (λ made. (b : ℕ) → b < length history.now → IsLeastTailAt history.now b (slice_index made.items b)) }
{
    let count = history.len();
    let mut tails = BTreeMap::new(alloc);
    let mut made = vec![in alloc; 0u64; count]?;
    let mut b = count;
    while b > 0 {
        b -= 1;
        made[b] = tail_of(&tails, event_key(Told::Begun, &history[b]));
        lower(&mut tails, forced_key(&history[b]))?;
    }
    Ok(made)
}
