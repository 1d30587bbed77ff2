//! Clause (b): what stands in the line was invoked, a kept entry with its bytes, and a gone one
//! stands below a trim that was asked for.

ghost use Rattle.std.specs.Prelude.{◌≡◌, ◌<◌, length, map, IfOk};
ghost use Rattle.std.specs.Bool.{Decides};
ghost use Rattle.rec_id.specs.Lawful.{InvokedAt};
ghost use Rattle.log_law.specs.Floors.{IsHighest};
ghost use Rattle.log_law.specs.Pairs.{IsFound};
ghost use Rattle.log_law.specs.Told.{event_key};
ghost use Rattle.log_law.specs.declared.told.Told.TheVariants.{Invoked};

use crate::floors::highest_floor;
use crate::index::KeyIndex;
use crate::records::is_invoked_with;
use crate::told::{Told, event_keys, id_key};
use rec_id::{Entry, Event};
use std::alloc::{AllocError, Global};

/// The place keeps the clause, where trims were asked for up to the floor `highest`.
fn is_invoked(
    history: &[Event],
    line: &[Entry],
    invoked: &KeyIndex,
    highest: u32,
    place: usize,
) -> bool
    requires within { place < length line.now }
    requires invoked { invoked.now ≡ map (event_key Invoked) history.now }
    requires highest { IsHighest history.now (length history.now) highest }
    ensures { Decides result (InvokedAt history.now line.now place) }
{
    match &line[place] {
        Entry::Kept(id, bytes) => is_invoked_with(history, invoked, *id, bytes),
        Entry::Noop(id) => invoked.first(id_key(*id)) < history.len(),
        Entry::Gone(id) => {
            if invoked.first(id_key(*id)) >= history.len() {
                return false;
            }
            (place as u64) < u64::from(highest)
        }
    }
}

/// The first place that breaks the clause.
fn first_uninvoked(
    history: &[Event],
    line: &[Entry],
    invoked: &KeyIndex,
    highest: u32,
) -> Option<(usize, usize)>
    requires invoked { invoked.now ≡ map (event_key Invoked) history.now }
    requires highest { IsHighest history.now (length history.now) highest }
    ensures { IsFound (λ place _. InvokedAt history.now line.now place) result }
{
    for place in 0..line.len() {
        if !is_invoked(history, line, invoked, highest, place) {
            return Some((place, 0));
        }
    }
    None
}

/// The first place that breaks the clause, with 0, if there is any.
pub fn invoked_breach(
    alloc: Global,
    history: &[Event],
    line: &[Entry],
) -> Result<Option<(usize, usize)>, AllocError>
    ensures { IfOk result (IsFound (λ place _. InvokedAt history.now line.now place)) }
{
    let invoked = KeyIndex::of(alloc, event_keys(alloc, Told::Invoked, history)?)?;
    let highest = highest_floor(history, history.len());
    Ok(first_uninvoked(history, line, &invoked, highest))
}
