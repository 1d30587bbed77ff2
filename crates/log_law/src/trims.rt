//! Clause (i): reads end as trimmed and trims are done only as it was asked for.

ghost use Rattle.std.specs.Prelude.{◌≡◌, ◌≤◌, ◌<◌, Some, length, map, IfOk};
ghost use Rattle.std.specs.Bool.{Decides};
ghost use Rattle.rec_id.specs.History.{OneBefore, asked_trim};
ghost use Rattle.rec_id.specs.Lawful.{IsTrimmedRead, TrimsAt};
ghost use Rattle.log_law.specs.Floors.{IsHighest};
ghost use Rattle.log_law.specs.Keys.{key_at};
ghost use Rattle.log_law.specs.Pairs.{IsFound};
ghost use Rattle.log_law.specs.Reads.{read_of, IsDoneOnce, IsNextAsk, KeepsTrims};
ghost use Rattle.log_law.specs.Told.{event_key};
ghost use Rattle.log_law.specs.declared.told.Told.TheVariants.{Begun, Ended, Asked, Done};

use crate::floors::{floor_of, raised};
use crate::index::KeyIndex;
use crate::reads::{asked_by, asked_from};
use crate::told::{Told, event_keys};
use rec_id::Event;
use std::alloc::{AllocError, Global};

/// The indices of what clause (i) speaks of.
#[derive(Drop)]
struct Trims {
    begun: KeyIndex,
    ended: KeyIndex,
    asked: KeyIndex,
    done: KeyIndex,
}

/// The first index below `j`, from `i` on, at which the trim is asked for with this floor. It
/// goes from one ask of the trim to the next.
fn next_ask(
    history: &[Event],
    asked: &KeyIndex,
    i: usize,
    j: usize,
    key: (u32, u32),
    floor: u32,
) -> usize
    requires within { j ≤ length history.now }
    requires asked { asked.now ≡ map (event_key Asked) history.now }
    requires stands { i < j → key_at asked.now i ≡ Some key }
    ensures { IsNextAsk history.now (read_of key) floor i j result }
{
    let mut n = i;
    while n < j {
        if floor_of(&history[n]) == floor {
            return n;
        }
        n = asked.next(n, key);
    }
    n
}

/// The trim is asked for once before `j` with this floor.
fn is_asked_once(history: &[Event], asked: &KeyIndex, j: usize, key: (u32, u32), floor: u32) -> bool
    requires within { j < length history.now }
    requires asked { asked.now ≡ map (event_key Asked) history.now }
    ensures { Decides result (OneBefore asked_trim history.now j (read_of key, floor)) }
{
    let one = next_ask(history, asked, asked.first(key), j, key, floor);
    if one >= j {
        return false;
    }
    next_ask(history, asked, asked.next(one, key), j, key, floor) >= j
}

/// The trim that is done at `j` was asked for once, and was not done before.
fn is_done_once(history: &[Event], trims: &Trims, j: usize, key: (u32, u32), floor: u32) -> bool
    requires within { j < length history.now }
    requires asked { trims.now.asked ≡ map (event_key Asked) history.now }
    requires done { trims.now.done ≡ map (event_key Done) history.now }
    ensures { Decides result (IsDoneOnce history.now j (read_of key) floor) }
{
    if trims.done.first(key) < j {
        return false;
    }
    is_asked_once(history, &trims.asked, j, key, floor)
}

/// The read that ends at `j` as trimmed asked for what a trim was asked for, where `highest` is the
/// highest floor before `j`.
fn is_trimmed(
    history: &[Event],
    trims: &Trims,
    highest: u32,
    j: usize,
    key: (u32, u32),
    floor: u32,
) -> bool
    requires within { j < length history.now }
    requires begun { trims.now.begun ≡ map (event_key Begun) history.now }
    requires ended { trims.now.ended ≡ map (event_key Ended) history.now }
    requires highest { IsHighest history.now j highest }
    ensures { Decides result (IsTrimmedRead history.now j (read_of key) floor) }
{
    if let Some(ask) = asked_by(history, &trims.begun, &trims.ended, j, key) {
        if asked_from(ask) >= floor {
            return false;
        }
        return floor <= highest;
    }
    false
}

/// The event at `j` keeps the clause.
fn keeps_trims(history: &[Event], trims: &Trims, highest: u32, j: usize, event: &Event) -> bool
    requires within { j < length history.now }
    requires begun { trims.now.begun ≡ map (event_key Begun) history.now }
    requires ended { trims.now.ended ≡ map (event_key Ended) history.now }
    requires asked { trims.now.asked ≡ map (event_key Asked) history.now }
    requires done { trims.now.done ≡ map (event_key Done) history.now }
    requires highest { IsHighest history.now j highest }
    ensures { Decides result (KeepsTrims history.now j event.now) }
{
    match event {
        Event::Trimmed {
            client,
            read,
            floor,
        } => is_trimmed(history, trims, highest, j, (*client, *read), *floor),
        Event::TrimDone {
            client,
            read,
            floor,
        } => is_done_once(history, trims, j, (*client, *read), *floor),
        Event::Invoke(_, _)
        | Event::Acked(_)
        | Event::Rejected(_, _)
        | Event::Begin(_, _, _)
        | Event::Answer { .. }
        | Event::Seen { .. }
        | Event::TrimAsk { .. } => true,
    }
}

/// The first index whose event breaks the clause.
fn first_untrimmed(history: &[Event], trims: &Trims) -> Option<(usize, usize)>
    requires begun { trims.now.begun ≡ map (event_key Begun) history.now }
    requires ended { trims.now.ended ≡ map (event_key Ended) history.now }
    requires asked { trims.now.asked ≡ map (event_key Asked) history.now }
    requires done { trims.now.done ≡ map (event_key Done) history.now }
    ensures { IsFound (λ j _. TrimsAt history.now j) result }
{
    let mut highest = 0;
    for j in 0..history.len() {
        if !keeps_trims(history, trims, highest, j, &history[j]) {
            return Some((j, 0));
        }
        highest = raised(history, j, highest);
    }
    None
}

/// The first index whose event breaks the clause, with 0, if there is any.
pub fn trims_breach(alloc: Global, history: &[Event]) -> Result<Option<(usize, usize)>, AllocError>
    ensures { IfOk result (IsFound (λ j _. TrimsAt history.now j)) }
{
    let trims = Trims {
        begun: KeyIndex::of(alloc, event_keys(alloc, Told::Begun, history)?)?,
        ended: KeyIndex::of(alloc, event_keys(alloc, Told::Ended, history)?)?,
        asked: KeyIndex::of(alloc, event_keys(alloc, Told::Asked, history)?)?,
        done: KeyIndex::of(alloc, event_keys(alloc, Told::Done, history)?)?,
    };
    Ok(first_untrimmed(history, &trims))
}
