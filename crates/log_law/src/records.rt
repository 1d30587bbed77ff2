//! Whether a record was invoked with given bytes.

ghost use Rattle.std.specs.Prelude.{◌≡◌, map};
ghost use Rattle.std.specs.Bool.{Decides};
ghost use Rattle.rec_id.specs.History.{IsInvokedWith};
ghost use Rattle.rec_id.specs.declared.event.Event.TheVariants.{Invoke};
ghost use Rattle.log_law.specs.Told.{event_key};
ghost use Rattle.log_law.specs.declared.told.Told.TheVariants.{Invoked};

use crate::index::KeyIndex;
use crate::told::id_key;
use rec_id::{Bytes, Event, RecordId};

/// The event begins the append with these bytes.
fn invokes(event: &Event, id: RecordId, bytes: &Bytes) -> bool
    ensures { Decides result (event.now ≡ Invoke id bytes.now) }
{
    match event {
        Event::Invoke(own, own_bytes) => {
            if *own != id {
                return false;
            }
            own_bytes.as_slice() == bytes.as_slice()
        }
        Event::Acked(_)
        | Event::Rejected(_, _)
        | Event::Begin(_, _, _)
        | Event::Answer { .. }
        | Event::Seen { .. }
        | Event::TrimAsk { .. }
        | Event::TrimDone { .. }
        | Event::Trimmed { .. } => false,
    }
}

/// The append was invoked with these bytes. It looks at each begin of the append until it finds
/// one with the bytes.
pub fn is_invoked_with(history: &[Event], invoked: &KeyIndex, id: RecordId, bytes: &Bytes) -> bool
    requires { invoked.now ≡ map (event_key Invoked) history.now }
    ensures { Decides result (IsInvokedWith history.now id bytes.now) }
{
    let key = id_key(id);
    let mut i = invoked.first(key);
    while i < history.len() {
        if invokes(&history[i], id, bytes) {
            return true;
        }
        i = invoked.next(i, key);
    }
    false
}
