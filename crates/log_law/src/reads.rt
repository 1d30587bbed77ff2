//! What a read that ends has asked for.

ghost use Rattle.std.specs.Prelude.{◌≡◌, ◌≤◌, ◌<◌, ◌^◌, ℕ, length, map};
ghost use Rattle.std.specs.Bool.{Decides};
ghost use Rattle.std.specs.Option.{MatchOption};
ghost use Rattle.rec_id.specs.History.{asked_from, asked_to, is_tail};
ghost use Rattle.rec_id.specs.Lawful.{EndsRead};
ghost use Rattle.log_law.specs.Reads.{read_of, ask_of, EndsKey, EndsAsked, FitsAsk};
ghost use Rattle.log_law.specs.Told.{event_key};
ghost use Rattle.log_law.specs.declared.told.Told.TheVariants.{Begun, Ended};

use crate::index::KeyIndex;
use rec_id::{Ask, Event};

/// Where the key begins, if it begins once before `j` and does not end before `j`.
fn begin_of(begun: &KeyIndex, ended: &KeyIndex, j: usize, key: (u32, u32)) -> Option<usize>
    requires begun { j ≤ length begun.now }
    requires ended { j ≤ length ended.now }
    ensures { MatchOption result ((b : ℕ) → EndsKey begun.now ended.now j key b → ⊥) (λ b. EndsKey begun.now ended.now j key b) }
{
    let b = begun.first(key);
    if b >= j {
        return None;
    }
    if begun.next(b, key) < j {
        return None;
    }
    if ended.first(key) < j {
        return None;
    }
    Some(b)
}

/// The ask of a read that begins.
fn ask_of(event: &Event) -> Option<Ask>
    ensures { result ≡ ask_of event.now }
{
    match event {
        Event::Begin(_, _, ask) => Some(*ask),
        Event::Invoke(_, _)
        | Event::Acked(_)
        | Event::Rejected(_, _)
        | Event::Answer { .. }
        | Event::Seen { .. }
        | Event::TrimAsk { .. }
        | Event::TrimDone { .. }
        | Event::Trimmed { .. } => None,
    }
}

/// What the read asked for that ends at index `j`, if it has begun once and has not ended before.
pub fn asked_by(
    history: &[Event],
    begun: &KeyIndex,
    ended: &KeyIndex,
    j: usize,
    key: (u32, u32),
) -> Option<Ask>
    requires within { j < length history.now }
    requires begun { begun.now ≡ map (event_key Begun) history.now }
    requires ended { ended.now ≡ map (event_key Ended) history.now }
    ensures { MatchOption result (EndsRead history.now j (read_of key) → ⊥) (λ ask. EndsAsked history.now j (read_of key) ask) }
{
    match begin_of(begun, ended, j, key) {
        Some(b) => ask_of(&history[b]),
        None => None,
    }
}

pub fn asked_from(ask: Ask) -> u32
    ensures { result ≡ asked_from ask }
{
    match ask {
        Ask::Range { from, .. } => from,
        Ask::Tail { from } => from,
    }
}

fn asked_to(ask: Ask) -> u64
    ensures { result ≡ asked_to ask }
{
    match ask {
        Ask::Range { to, .. } => u64::from(to),
        Ask::Tail { from } => u64::from(from) + 256,
    }
}

fn is_tail(ask: Ask) -> bool
    ensures { result ≡ is_tail ask }
{
    match ask {
        Ask::Range { .. } => false,
        Ask::Tail { .. } => true,
    }
}

/// So many entries from `from` on, with this tail, are what was asked for, of a line of so many
/// places.
pub fn fits_ask(ask: Ask, from: u32, count: usize, tail: Option<u32>, long: usize) -> bool
    requires { count < 2 ^ 63 }
    ensures { Decides result (FitsAsk ask from count tail long) }
{
    if asked_from(ask) != from {
        return false;
    }
    match tail {
        Some(tail) => {
            if tail as usize > long {
                return false;
            }
            count as u64
                == asked_to(ask)
                    .min(u64::from(tail))
                    .saturating_sub(u64::from(from))
        }
        None => {
            if is_tail(ask) {
                return false;
            }
            u64::from(from) + count as u64 == asked_to(ask)
        }
    }
}
