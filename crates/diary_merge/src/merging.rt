//! The merge of diaries: all their steps in the order of (time, node), as events of a world.

ghost use Rattle.std.specs.Prelude.{◌≡◌, ◌+◌, ◌≤◌, length, IfOk};
ghost use Rattle.list_facts.specs.Lists.{Each};
ghost use Rattle.lazy_msgs.specs.declared.input.WorldEvent.TheVariants.{Peek as PeekEvent};
ghost use Rattle.diary_laws.specs.Merges.{AreEventsOf, IsEventOf, IsFirstNumber, IsMerge, sent_by};
ghost use Rattle.diary_laws.specs.Nodes.{nodes_of_shape};
ghost use Rattle.diary_merge.specs.Acts.{AreNumbered, CanBeEvent, CanBeMerged, IsThere, acts_at};
ghost use Rattle.diary_merge.specs.Merging.{AreWhole};

use crate::numbers::{claim_number, number_of, starts_of};
use crate::place::{Place, entry_at, places_in_order};
use lazy_msgs::{DiaryEntry, DiaryList, Input, WorldEvent, WorldEvents};
use plain_lists::Sequence;
use std::alloc::{AllocError, Global};
use view_config::{FIRST_SHARD, Shape};

/// A look by this message at so many places, all of them among those that it claims.
fn peek(client: u32, message: u32, from: u32, count: usize, claimed: u32) -> WorldEvent
    ensures { from + count ≤ claimed → result ≡ PeekEvent client message from (from + count) }
{
    let count = u32::try_from(count).unwrap_or(0);
    WorldEvent::Peek {
        client,
        message,
        from,
        to: from.saturating_add(count).min(claimed),
    }
}

/// The event that an input of this node becomes.
fn event_of(
    diaries: &DiaryList,
    places: &[Place],
    starts: &[usize],
    node: u32,
    input: &Input,
) -> Result<WorldEvent, AllocError>
    requires there { Each (IsThere diaries.now) places.now }
    requires counted { length starts.now ≡ length places.now }
    ensures { IfOk result (λ event. AreNumbered diaries.now places.now starts.now → CanBeEvent (acts_at diaries.now places.now) input.now → IsEventOf (IsFirstNumber (sent_by (acts_at diaries.now places.now))) node input.now event) }
{
    match input {
        Input::Take(envelope) => {
            let number = number_of(diaries, places, starts, envelope).unwrap_or(0);
            Ok(WorldEvent::Deliver(number))
        }
        Input::Peek {
            stable,
            time,
            replica,
            from,
            ids,
        } => {
            let by = FIRST_SHARD.saturating_add(*replica);
            let number = claim_number(diaries, places, starts, *stable, *time, by).unwrap_or(0);
            Ok(peek(node, number, *from, ids.len(), *stable))
        }
        Input::Tick => Ok(WorldEvent::Tick(node)),
        Input::Grace => Ok(WorldEvent::Grace(node)),
        Input::Crash => Ok(WorldEvent::Crash(node)),
        Input::Post(bytes) => Ok(WorldEvent::Post(node, bytes.clone()?)),
        Input::Ask(ask) => Ok(WorldEvent::Ask(node, *ask)),
        Input::Trim(floor) => Ok(WorldEvent::Trim(node, *floor)),
        Input::Suspect(other) => Ok(WorldEvent::Suspect(*other)),
    }
}

/// The events that the steps at these places become, in their order.
fn events_of(
    alloc: Global,
    diaries: &DiaryList,
    places: &[Place],
    starts: &[usize],
) -> Result<WorldEvents, AllocError>
    requires there { Each (IsThere diaries.now) places.now }
    requires counted { length starts.now ≡ length places.now }
    ensures { IfOk result (λ events. CanBeMerged diaries.now places.now starts.now → AreEventsOf (IsFirstNumber (sent_by (acts_at diaries.now places.now))) (acts_at diaries.now places.now) events) }
{
    let mut events = Sequence::new(alloc);
    for i in 0..places.len() {
        let (node, entry) = entry_at(diaries, places, i);
        events.push(event_of(diaries, places, starts, node, &entry.input)?)?;
    }
    Ok(events)
}

/// All steps of the diaries in the order of (time, node), as events of a world of this shape. A receipt is the delivery of
/// the first of its sender's messages that is the same; a peek that found no claim is left out.
///
/// The diaries are those of all nodes of the shape, well formed and closed and within their limits. Of other diaries the
/// answer means nothing. It takes time n log n in the entries of all diaries.
pub fn merge(alloc: Global, shape: &Shape, diaries: &DiaryList) -> Result<WorldEvents, AllocError>
    ensures { IfOk result (λ events. AreWhole shape.now diaries.now → IsMerge (nodes_of_shape shape.now) diaries.now events) }
{
    let places = places_in_order(alloc, diaries)?;
    let starts = starts_of(alloc, diaries, places.as_slice())?;
    events_of(alloc, diaries, places.as_slice(), starts.as_slice())
}
