//! How far events reach into the log.

ghost use Rattle.std.specs.Prelude.{◌≡◌, ◌^◌, ◌<◌, map, unwrap_or, IfOk};
ghost use Rattle.rec_id.specs.History.{end_of, answer_reach, told_reach, shown_reach};
ghost use Rattle.log_law.specs.Reaches.{reach_of};

use rec_id::{Event, IdList, Line};
use std::alloc::{AllocError, Global};

/// Which events reach into the log.
#[derive(Clone, Copy)]
pub enum Reach {
    /// Those that show it or trim it.
    Told,
    /// Those that show its order.
    Shown,
}

fn entries_end(from: u32, entries: &Line) -> u64
    ensures { result ≡ end_of from entries.now }
{
    let entries = entries.as_slice();
    if entries.is_empty() {
        return 0;
    }
    u64::from(from) + entries.len() as u64
}

fn ids_end(from: u32, ids: &IdList) -> u64
    ensures { result ≡ end_of from ids.now }
{
    let ids = ids.as_slice();
    if ids.is_empty() {
        return 0;
    }
    u64::from(from) + ids.len() as u64
}

fn answer_reach(from: u32, entries: &Line, tail: Option<u32>) -> u64
    ensures { result ≡ answer_reach from entries.now tail }
{
    match tail {
        Some(tail) => u64::from(tail),
        None => entries_end(from, entries),
    }
}

fn shown_reach(event: &Event) -> u64
    ensures { result ≡ unwrap_or (shown_reach event.now) 0 }
{
    match event {
        Event::Answer {
            from,
            entries,
            tail,
            ..
        } => answer_reach(*from, entries, *tail),
        Event::Seen { from, ids, .. } => ids_end(*from, ids),
        Event::Invoke(_, _)
        | Event::Acked(_)
        | Event::Rejected(_, _)
        | Event::Begin(_, _, _)
        | Event::TrimAsk { .. }
        | Event::TrimDone { .. }
        | Event::Trimmed { .. } => 0,
    }
}

fn told_reach(event: &Event) -> u64
    ensures { result ≡ unwrap_or (told_reach event.now) 0 }
{
    match event {
        Event::TrimDone { floor, .. } => u64::from(*floor),
        Event::Trimmed { floor, .. } => u64::from(*floor),
        Event::Answer {
            from,
            entries,
            tail,
            ..
        } => answer_reach(*from, entries, *tail),
        Event::Seen { from, ids, .. } => ids_end(*from, ids),
        Event::Invoke(_, _)
        | Event::Acked(_)
        | Event::Rejected(_, _)
        | Event::Begin(_, _, _)
        | Event::TrimAsk { .. } => 0,
    }
}

fn reach_of(reach: Reach, event: &Event) -> u64
    ensures { result ≡ reach_of reach event.now }
{
    match reach {
        Reach::Told => told_reach(event),
        Reach::Shown => shown_reach(event),
    }
}

/// How far each event reaches, and 0 where it does not.
pub fn reaches_of(alloc: Global, reach: Reach, history: &[Event]) -> Result<Vec<u64>, AllocError>
    ensures { IfOk result (λ made. made.items ≡ map (reach_of reach) history.now) }
{
    let mut made = Vec::with_capacity(alloc, history.len())?;
    for event in history {
        made.push(reach_of(reach, event))?;
    }
    Ok(made)
}
