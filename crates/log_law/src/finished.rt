//! Clause (c): each append is invoked once and finished once, after it was invoked, and the line
//! has what was told of it.

ghost use Rattle.std.specs.Prelude.{◌≡◌, ◌^◌, ◌<◌, Some, length, map, slice_get, IfOk};
ghost use Rattle.std.specs.Bool.{Decides};
ghost use Rattle.rec_id.specs.Lawful.{FinishedAt};
ghost use Rattle.rec_id.specs.declared.entry.Entry.TheVariants.{Noop};
ghost use Rattle.log_law.specs.Ends.{StandsAsTold};
ghost use Rattle.log_law.specs.Pairs.{IsFound};
ghost use Rattle.log_law.specs.Told.{event_key, entry_key};
ghost use Rattle.log_law.specs.declared.told.Told.TheVariants.{Invoked, Finished};
ghost use Rattle.log_law.specs.declared.told.Names.TheVariants.{Appended};

use crate::index::KeyIndex;
use crate::told::{Names, Told, entry_keys, event_keys, id_key};
use rec_id::{Entry, Event, RecordId};
use std::alloc::{AllocError, Global};

/// The entry is the no-op of this append.
pub(crate) fn is_noop_of(entry: &Entry, id: RecordId) -> bool
    ensures { Decides result (entry.now ≡ Noop id) }
{
    match entry {
        Entry::Noop(own) => *own == id,
        Entry::Kept(_, _) | Entry::Gone(_) => false,
    }
}

/// The place has the no-op of this append.
fn has_noop(line: &[Entry], place: u32, id: RecordId) -> bool
    ensures { Decides result (slice_get line.now place ≡ Some (Noop id)) }
{
    let place = place as usize;
    if place < line.len() {
        return is_noop_of(&line[place], id);
    }
    false
}

/// The line has what the event tells of an append that ended.
fn stands_as_told(line: &[Entry], appended: &KeyIndex, event: &Event) -> bool
    requires { appended.now ≡ map (entry_key Appended) line.now }
    ensures { Decides result (StandsAsTold line.now event.now) }
{
    match event {
        Event::Acked(id) => appended.first(id_key(*id)) < appended.len(),
        Event::Rejected(id, place) => has_noop(line, *place, *id),
        Event::Invoke(_, _)
        | Event::Begin(_, _, _)
        | Event::Answer { .. }
        | Event::Seen { .. }
        | Event::TrimAsk { .. }
        | Event::TrimDone { .. }
        | Event::Trimmed { .. } => true,
    }
}

/// The event at index `j` keeps the clause.
fn is_finished(
    history: &[Event],
    line: &[Entry],
    invoked: &KeyIndex,
    finished: &KeyIndex,
    appended: &KeyIndex,
    j: usize,
) -> bool
    requires within { j < length history.now }
    requires invoked { invoked.now ≡ map (event_key Invoked) history.now }
    requires finished { finished.now ≡ map (event_key Finished) history.now }
    requires appended { appended.now ≡ map (entry_key Appended) line.now }
    ensures { Decides result (FinishedAt history.now line.now j) }
{
    let event = &history[j];
    if let Some(key) = invoked.at(j) {
        return invoked.first(key) >= j;
    }
    if let Some(key) = finished.at(j) {
        if invoked.first(key) >= j {
            return false;
        }
        if finished.first(key) < j {
            return false;
        }
    }
    stands_as_told(line, appended, event)
}

/// The first index whose event breaks the clause.
fn first_unfinished(
    history: &[Event],
    line: &[Entry],
    invoked: &KeyIndex,
    finished: &KeyIndex,
    appended: &KeyIndex,
) -> Option<(usize, usize)>
    requires invoked { invoked.now ≡ map (event_key Invoked) history.now }
    requires finished { finished.now ≡ map (event_key Finished) history.now }
    requires appended { appended.now ≡ map (entry_key Appended) line.now }
    ensures { IsFound (λ j _. FinishedAt history.now line.now j) result }
{
    for j in 0..history.len() {
        if !is_finished(history, line, invoked, finished, appended, j) {
            return Some((j, 0));
        }
    }
    None
}

/// The first index whose event breaks the clause, with 0, if there is any.
pub fn finished_breach(
    alloc: Global,
    history: &[Event],
    line: &[Entry],
) -> Result<Option<(usize, usize)>, AllocError>
    ensures { IfOk result (IsFound (λ j _. FinishedAt history.now line.now j)) }
{
    let invoked = KeyIndex::of(alloc, event_keys(alloc, Told::Invoked, history)?)?;
    let finished = KeyIndex::of(alloc, event_keys(alloc, Told::Finished, history)?)?;
    let appended = KeyIndex::of(alloc, entry_keys(alloc, Names::Appended, line)?)?;
    Ok(first_unfinished(history, line, &invoked, &finished, &appended))
}
