//! The highest floor of the trims that were asked for.

ghost use Rattle.std.specs.Prelude.{◌≡◌, ◌+◌, ◌<◌, ◌≤◌, length};
ghost use Rattle.log_law.specs.Floors.{floor_of, IsHighest};

use rec_id::Event;

/// The floor of a trim that is asked for, and 0 where none is.
pub(crate) fn floor_of(event: &Event) -> u32
    ensures { result ≡ floor_of event.now }
{
    match event {
        Event::TrimAsk { floor, .. } => *floor,
        Event::Invoke(_, _)
        | Event::Acked(_)
        | Event::Rejected(_, _)
        | Event::Begin(_, _, _)
        | Event::Answer { .. }
        | Event::Seen { .. }
        | Event::TrimDone { .. }
        | Event::Trimmed { .. } => 0,
    }
}

/// The highest floor of the events up to and with index `j`, where `highest` is that of those
/// before it.
pub fn raised(history: &[Event], j: usize, highest: u32) -> u32
    requires within { j < length history.now }
    requires highest { IsHighest history.now j highest }
    ensures { IsHighest history.now (j + 1) result }
{
    highest.max(floor_of(&history[j]))
}

/// The highest floor of a trim that is asked for before index `end`, and 0 where there is none.
pub fn highest_floor(history: &[Event], end: usize) -> u32
    requires { end ≤ length history.now }
    ensures { IsHighest history.now end result }
{
    let mut highest = 0;
    for j in 0..end {
        highest = raised(history, j, highest);
    }
    highest
}
