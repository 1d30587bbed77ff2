//! The keys of what the events of a history tell and of what the entries of a line name.

ghost use Rattle.std.specs.Prelude.{◌≡◌, map, option_map, IfOk};
ghost use Rattle.rec_id.specs.History.{invoked_id, finished_id, begun_read, ended_read, asked_trim, done_trim};
ghost use Rattle.log_law.specs.Told.{id_key, read_key, trim_key, event_key, entry_key};

use rec_id::{Entry, Event, RecordId};
use std::alloc::{AllocError, Global};

/// What an event may tell of.
#[derive(Clone, Copy)]
pub enum Told {
    /// The append that begins.
    Invoked,
    /// The append that is acknowledged or rejected.
    Finished,
    /// The read that begins.
    Begun,
    /// The read that ends.
    Ended,
    /// The trim that is asked for.
    Asked,
    /// The trim that is done.
    Done,
}

/// Which entries of a line count.
#[derive(Clone, Copy)]
pub enum Names {
    All,
    /// Those that have the bytes of their record, or had them.
    Appended,
}

pub(crate) fn id_key(id: RecordId) -> (u32, u32)
    ensures { result ≡ (id.client, id.number) }
{
    (id.client(), id.number())
}

fn invoked_key(event: &Event) -> Option<(u32, u32)>
    ensures { result ≡ option_map id_key (invoked_id event.now) }
{
    match event {
        Event::Invoke(id, _) => Some(id_key(*id)),
        Event::Acked(_)
        | Event::Rejected(_, _)
        | Event::Begin(_, _, _)
        | Event::Answer { .. }
        | Event::Seen { .. }
        | Event::TrimAsk { .. }
        | Event::TrimDone { .. }
        | Event::Trimmed { .. } => None,
    }
}

fn finished_key(event: &Event) -> Option<(u32, u32)>
    ensures { result ≡ option_map id_key (finished_id event.now) }
{
    match event {
        Event::Acked(id) => Some(id_key(*id)),
        Event::Rejected(id, _) => Some(id_key(*id)),
        Event::Invoke(_, _)
        | Event::Begin(_, _, _)
        | Event::Answer { .. }
        | Event::Seen { .. }
        | Event::TrimAsk { .. }
        | Event::TrimDone { .. }
        | Event::Trimmed { .. } => None,
    }
}

fn begun_key(event: &Event) -> Option<(u32, u32)>
    ensures { result ≡ option_map read_key (begun_read event.now) }
{
    match event {
        Event::Begin(client, read, _) => Some((*client, *read)),
        Event::Invoke(_, _)
        | Event::Acked(_)
        | Event::Rejected(_, _)
        | Event::Answer { .. }
        | Event::Seen { .. }
        | Event::TrimAsk { .. }
        | Event::TrimDone { .. }
        | Event::Trimmed { .. } => None,
    }
}

fn ended_key(event: &Event) -> Option<(u32, u32)>
    ensures { result ≡ option_map read_key (ended_read event.now) }
{
    match event {
        Event::Answer { client, read, .. } => Some((*client, *read)),
        Event::Trimmed { client, read, .. } => Some((*client, *read)),
        Event::Invoke(_, _)
        | Event::Acked(_)
        | Event::Rejected(_, _)
        | Event::Begin(_, _, _)
        | Event::Seen { .. }
        | Event::TrimAsk { .. }
        | Event::TrimDone { .. } => None,
    }
}

fn asked_key(event: &Event) -> Option<(u32, u32)>
    ensures { result ≡ option_map trim_key (asked_trim event.now) }
{
    match event {
        Event::TrimAsk { client, read, .. } => Some((*client, *read)),
        Event::Invoke(_, _)
        | Event::Acked(_)
        | Event::Rejected(_, _)
        | Event::Begin(_, _, _)
        | Event::Answer { .. }
        | Event::Seen { .. }
        | Event::TrimDone { .. }
        | Event::Trimmed { .. } => None,
    }
}

fn done_key(event: &Event) -> Option<(u32, u32)>
    ensures { result ≡ option_map read_key (done_trim event.now) }
{
    match event {
        Event::TrimDone { client, read, .. } => Some((*client, *read)),
        Event::Invoke(_, _)
        | Event::Acked(_)
        | Event::Rejected(_, _)
        | Event::Begin(_, _, _)
        | Event::Answer { .. }
        | Event::Seen { .. }
        | Event::TrimAsk { .. }
        | Event::Trimmed { .. } => None,
    }
}

/// The key of what the event tells of this kind.
pub fn event_key(told: Told, event: &Event) -> Option<(u32, u32)>
    ensures { result ≡ event_key told event.now }
{
    match told {
        Told::Invoked => invoked_key(event),
        Told::Finished => finished_key(event),
        Told::Begun => begun_key(event),
        Told::Ended => ended_key(event),
        Told::Asked => asked_key(event),
        Told::Done => done_key(event),
    }
}

/// The key of what the entry names.
pub fn entry_key(names: Names, entry: &Entry) -> Option<(u32, u32)>
    ensures { result ≡ entry_key names entry.now }
{
    match entry {
        Entry::Kept(id, _) => Some(id_key(*id)),
        Entry::Gone(id) => Some(id_key(*id)),
        Entry::Noop(id) => match names {
            Names::All => Some(id_key(*id)),
            Names::Appended => None,
        },
    }
}

/// The keys of what the events tell of this kind.
pub fn event_keys(
    alloc: Global,
    told: Told,
    history: &[Event],
) -> Result<Vec<Option<(u32, u32)>>, AllocError>
    ensures { IfOk result (λ keys. keys.items ≡ map (event_key told) history.now) }
{
    let mut keys = Vec::with_capacity(alloc, history.len())?;
    for event in history {
        keys.push(event_key(told, event))?;
    }
    Ok(keys)
}

/// The keys of what the entries name.
pub fn entry_keys(
    alloc: Global,
    names: Names,
    line: &[Entry],
) -> Result<Vec<Option<(u32, u32)>>, AllocError>
    ensures { IfOk result (λ keys. keys.items ≡ map (entry_key names) line.now) }
{
    let mut keys = Vec::with_capacity(alloc, line.len())?;
    for entry in line {
        keys.push(entry_key(names, entry))?;
    }
    Ok(keys)
}
