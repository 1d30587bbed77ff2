//! One step of a node, written into its diary. The room is made before it, so that nothing fails behind it.

ghost use Rattle.std.specs.Prelude.{◌≡◌, ◌+◌, ◌<◌, ◌≤◌, ◌^◌, ◌++◌, length, vec_len, vec_capacity};
ghost use Rattle.node_diary.specs.Calling.{IsReady};
ghost use Rattle.node_diary.specs.Writing.{Writes, page_of};

use crate::FeedRefused;
use crate::call::call_traced;
use lazy_core::NodeState;
use lazy_msgs::{DiaryEntry, Input, Outbox};
use rec_id::{Event, EventList};

/// How many events one step tells at most.
const TOLD_LIMIT: usize = 2;

/// Puts events behind those told before.
fn add_events(told: &mut Vec<Event>, events: EventList)
    requires { vec_len told.old + length events ≤ vec_capacity told.old }
    ensures { told.new.items ≡ told.old.items ++ events }
{
    let mut events = events.into_vec();
    let Ok(()) = told.append(&mut events) else {
        unreachable!()
    };
}

/// Takes an input at this time, and writes what came of it, unless the node was idle. The sends weigh no more than `left`;
/// what they weigh is told.
pub(crate) fn write(
    state: &mut NodeState,
    entries: &mut Vec<DiaryEntry>,
    told: &mut Vec<Event>,
    time: u64,
    input: Input,
    left: u64,
) -> Result<Option<u64>, FeedRefused>
    requires ready { IsReady state.old }
    requires few { left < 2 ^ 32 }
    ensures { Writes time left input (page_of state.old entries.old.items told.old.items) (page_of state.new entries.new.items told.new.items) result }
{
    entries.reserve(1)?;
    told.reserve(TOLD_LIMIT)?;
    let mut out = Outbox::new(*entries.allocator(), u32::MAX, left);
    if !call_traced(state, &input, &mut out)? {
        return Ok(None);
    }
    let weight = out.weight();
    let (sends, events) = out.into_lists();
    entries.push_reserved(DiaryEntry { time, input, sends });
    add_events(told, events);
    Ok(Some(weight))
}
