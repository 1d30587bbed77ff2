//! How the events of a history are printed.

ghost use Rattle.std.specs.Prelude.{◌≡◌, ◌++◌, IfOk, string_bytes, codes, decimal};
ghost use Rattle.trace_script.specs.EntryTexts.{id_text};
ghost use Rattle.trace_script.specs.EventTexts.{read_text, ask_text, answer_text, seen_text, floor_text, event_text};

use crate::entry_text::{put_entries, put_ids};
use rec_id::{Ask, Event, IdList, Line, RecordId, Text};
use std::alloc::{AllocError, Global};

pub fn text_of(text: String) -> Text
    ensures { result ≡ string_bytes text }
{
    Text::from_vec(text.into_bytes())
}

fn answer_text(
    alloc: Global,
    client: u32,
    read: u32,
    from: u32,
    entries: &Line,
    tail: Option<u32>,
) -> Result<Text, AllocError>
    ensures { IfOk result (λ text. text ≡ answer_text client read from entries.now tail) }
{
    let head = match tail {
        Some(tail) => {
            format!(in alloc; "c{client} read {read} answered: from {from}, tail {tail}: ")?
        }
        None => format!(in alloc; "c{client} read {read} answered: from {from}, tail -: ")?,
    };
    let mut out = head.into_bytes();
    put_entries(&mut out, entries.as_slice())?;
    Ok(Text::from_vec(out))
}

fn seen_text(alloc: Global, client: u32, from: u32, ids: &IdList) -> Result<Text, AllocError>
    ensures { IfOk result (λ text. text ≡ seen_text client from ids.now) }
{
    let mut out = format!(in alloc; "c{client} seen {from}: ")?.into_bytes();
    put_ids(&mut out, ids.as_slice())?;
    Ok(Text::from_vec(out))
}

/// The identity of an append, and what became of it.
fn append_text(alloc: Global, id: RecordId, what: &str) -> Result<Text, AllocError>
    ensures { IfOk result (λ text. text ≡ id_text id ++ (codes " " ++ what.now)) }
{
    let client = id.client();
    let number = id.number();
    Ok(text_of(format!(in alloc; "c{client}#{number} {what}")?))
}

fn rejected_text(alloc: Global, id: RecordId, place: u32) -> Result<Text, AllocError>
    ensures { IfOk result (λ text. text ≡ id_text id ++ (codes " rejected at " ++ decimal place)) }
{
    let client = id.client();
    let number = id.number();
    Ok(text_of(format!(in alloc; "c{client}#{number} rejected at {place}")?))
}

fn begin_text(alloc: Global, client: u32, read: u32, ask: Ask) -> Result<Text, AllocError>
    ensures { IfOk result (λ text. text ≡ read_text client read (codes " begun: " ++ ask_text ask)) }
{
    match ask {
        Ask::Range { from, to } => Ok(text_of(format!(in alloc;
            "c{client} read {read} begun: {from} to {to}"
        )?)),
        Ask::Tail { from } => Ok(text_of(format!(in alloc;
            "c{client} read {read} begun: from {from}"
        )?)),
    }
}

/// A client's read or trim, what became of it, and the floor.
fn floor_text(
    alloc: Global,
    client: u32,
    kind: &str,
    read: u32,
    what: &str,
    floor: u32,
) -> Result<Text, AllocError>
    ensures { IfOk result (λ text. text ≡ floor_text client kind.now read what.now floor) }
{
    Ok(text_of(format!(in alloc; "c{client} {kind} {read} {what}: below {floor}")?))
}

/// What an event of a history is printed as.
pub fn event_text(alloc: Global, event: &Event) -> Result<Text, AllocError>
    ensures { IfOk result (λ text. text ≡ event_text event.now) }
{
    match event {
        Event::Invoke(id, _) => append_text(alloc, *id, "invoked"),
        Event::Acked(id) => append_text(alloc, *id, "acked"),
        Event::Rejected(id, place) => rejected_text(alloc, *id, *place),
        Event::Begin(client, read, ask) => begin_text(alloc, *client, *read, *ask),
        Event::Answer {
            client,
            read,
            from,
            entries,
            tail,
        } => answer_text(alloc, *client, *read, *from, entries, *tail),
        Event::Seen { client, from, ids } => seen_text(alloc, *client, *from, ids),
        Event::TrimAsk {
            client,
            read,
            floor,
        } => floor_text(alloc, *client, "trim", *read, "begun", *floor),
        Event::TrimDone {
            client,
            read,
            floor,
        } => floor_text(alloc, *client, "trim", *read, "done", *floor),
        Event::Trimmed {
            client,
            read,
            floor,
        } => floor_text(alloc, *client, "read", *read, "trimmed", *floor),
    }
}
