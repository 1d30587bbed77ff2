//! Clause (e): each answer is a slice of the line that was asked for, and what a client was shown
//! is what the line names.

ghost use Rattle.std.specs.Prelude.{◌≡◌, ◌+◌, ◌<◌, Some, length, map, IfOk};
ghost use Rattle.std.specs.Bool.{Decides};
ghost use Rattle.rec_id.specs.Lawful.{IsSlice, SlicesAt};
ghost use Rattle.rec_id.specs.Line.{named_id, id_at, IsToldOf, IsToldAt};
ghost use Rattle.rec_id.specs.declared.entry.Entry.TheVariants.{Kept, Gone};
ghost use Rattle.log_law.specs.Pairs.{IsFound};
ghost use Rattle.log_law.specs.Reads.{read_of, AreTold, AreNamed, KeepsSlices};
ghost use Rattle.log_law.specs.Told.{event_key};
ghost use Rattle.log_law.specs.declared.told.Told.TheVariants.{Begun, Ended, Invoked};

use crate::finished::is_noop_of;
use crate::index::KeyIndex;
use crate::reads::{asked_by, fits_ask};
use crate::records::is_invoked_with;
use crate::told::{Told, event_keys};
use rec_id::{Bytes, Entry, Event, RecordId};
use std::alloc::{AllocError, Global};

/// The indices of what clause (e) speaks of.
#[derive(Drop)]
struct Slices {
    begun: KeyIndex,
    ended: KeyIndex,
    invoked: KeyIndex,
}

fn is_kept(told: &Entry, id: RecordId, bytes: &Bytes) -> bool
    ensures { Decides result (told.now ≡ Kept id bytes.now) }
{
    match told {
        Entry::Kept(own, own_bytes) => {
            if *own != id {
                return false;
            }
            own_bytes.as_slice() == bytes.as_slice()
        }
        Entry::Noop(_) | Entry::Gone(_) => false,
    }
}

/// The entry is the record with bytes that it was invoked with.
fn is_restored(history: &[Event], invoked: &KeyIndex, id: RecordId, told: &Entry) -> bool
    requires { invoked.now ≡ map (event_key Invoked) history.now }
    ensures { Decides result (IsToldOf history.now (Gone id) told.now) }
{
    match told {
        Entry::Kept(own, bytes) => {
            if *own != id {
                return false;
            }
            is_invoked_with(history, invoked, id, bytes)
        }
        Entry::Noop(_) | Entry::Gone(_) => false,
    }
}

/// `told` may be told where `entry` stands.
fn is_told(history: &[Event], invoked: &KeyIndex, entry: &Entry, told: &Entry) -> bool
    requires { invoked.now ≡ map (event_key Invoked) history.now }
    ensures { Decides result (IsToldOf history.now entry.now told.now) }
{
    match entry {
        Entry::Kept(id, bytes) => is_kept(told, *id, bytes),
        Entry::Noop(id) => is_noop_of(told, *id),
        Entry::Gone(id) => is_restored(history, invoked, *id, told),
    }
}

fn is_told_at(
    history: &[Event],
    line: &[Entry],
    invoked: &KeyIndex,
    place: usize,
    told: &Entry,
) -> bool
    requires { invoked.now ≡ map (event_key Invoked) history.now }
    ensures { Decides result (IsToldAt history.now line.now place told.now) }
{
    if place < line.len() {
        return is_told(history, invoked, &line[place], told);
    }
    false
}

/// Each of the entries may be told of its place.
fn are_told(
    history: &[Event],
    line: &[Entry],
    invoked: &KeyIndex,
    from: u32,
    entries: &[Entry],
) -> bool
    requires { invoked.now ≡ map (event_key Invoked) history.now }
    ensures { Decides result (AreTold history.now line.now from entries.now) }
{
    for k in 0..entries.len() {
        if !is_told_at(history, line, invoked, from as usize + k, &entries[k]) {
            return false;
        }
    }
    true
}

/// The line names the identity at the place.
fn names(line: &[Entry], place: usize, id: RecordId) -> bool
    ensures { Decides result (id_at line.now place ≡ Some id) }
{
    if place < line.len() {
        return named_id(&line[place]) == id;
    }
    false
}

fn named_id(entry: &Entry) -> RecordId
    ensures { result ≡ named_id entry.now }
{
    match entry {
        Entry::Kept(id, _) => *id,
        Entry::Noop(id) => *id,
        Entry::Gone(id) => *id,
    }
}

/// Each of the identities is that of its place.
fn are_named(line: &[Entry], from: u32, ids: &[RecordId]) -> bool
    ensures { Decides result (AreNamed line.now from ids.now) }
{
    for k in 0..ids.len() {
        if !names(line, from as usize + k, ids[k]) {
            return false;
        }
    }
    true
}

/// The answer at `j` is a slice of the line that the read asked for.
fn is_slice(
    history: &[Event],
    line: &[Entry],
    slices: &Slices,
    j: usize,
    key: (u32, u32),
    from: u32,
    entries: &[Entry],
    tail: Option<u32>,
) -> bool
    requires within { j < length history.now }
    requires begun { slices.now.begun ≡ map (event_key Begun) history.now }
    requires ended { slices.now.ended ≡ map (event_key Ended) history.now }
    requires invoked { slices.now.invoked ≡ map (event_key Invoked) history.now }
    ensures { Decides result (IsSlice history.now line.now j (read_of key) from entries.now tail) }
{
    if let Some(ask) = asked_by(history, &slices.begun, &slices.ended, j, key) {
        if !fits_ask(ask, from, entries.len(), tail, line.len()) {
            return false;
        }
        return are_told(history, line, &slices.invoked, from, entries);
    }
    false
}

/// The event at `j` keeps the clause.
fn keeps_slices(history: &[Event], line: &[Entry], slices: &Slices, j: usize, event: &Event) -> bool
    requires within { j < length history.now }
    requires begun { slices.now.begun ≡ map (event_key Begun) history.now }
    requires ended { slices.now.ended ≡ map (event_key Ended) history.now }
    requires invoked { slices.now.invoked ≡ map (event_key Invoked) history.now }
    ensures { Decides result (KeepsSlices history.now line.now j event.now) }
{
    match event {
        Event::Answer {
            client,
            read,
            from,
            entries,
            tail,
        } => {
            let entries = entries.as_slice();
            is_slice(
                history,
                line,
                slices,
                j,
                (*client, *read),
                *from,
                entries,
                *tail,
            )
        }
        Event::Seen { from, ids, .. } => are_named(line, *from, ids.as_slice()),
        Event::Invoke(_, _)
        | Event::Acked(_)
        | Event::Rejected(_, _)
        | Event::Begin(_, _, _)
        | Event::TrimAsk { .. }
        | Event::TrimDone { .. }
        | Event::Trimmed { .. } => true,
    }
}

/// The first index whose event breaks the clause.
fn first_unsliced(history: &[Event], line: &[Entry], slices: &Slices) -> Option<(usize, usize)>
    requires begun { slices.now.begun ≡ map (event_key Begun) history.now }
    requires ended { slices.now.ended ≡ map (event_key Ended) history.now }
    requires invoked { slices.now.invoked ≡ map (event_key Invoked) history.now }
    ensures { IsFound (λ j _. SlicesAt history.now line.now j) result }
{
    for j in 0..history.len() {
        if !keeps_slices(history, line, slices, j, &history[j]) {
            return Some((j, 0));
        }
    }
    None
}

/// The first index whose event breaks the clause, with 0, if there is any.
pub fn slices_breach(
    alloc: Global,
    history: &[Event],
    line: &[Entry],
) -> Result<Option<(usize, usize)>, AllocError>
    ensures { IfOk result (IsFound (λ j _. SlicesAt history.now line.now j)) }
{
    let slices = Slices {
        begun: KeyIndex::of(alloc, event_keys(alloc, Told::Begun, history)?)?,
        ended: KeyIndex::of(alloc, event_keys(alloc, Told::Ended, history)?)?,
        invoked: KeyIndex::of(alloc, event_keys(alloc, Told::Invoked, history)?)?,
    };
    Ok(first_unsliced(history, line, &slices))
}
