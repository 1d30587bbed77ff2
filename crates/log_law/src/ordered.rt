//! Clause (d): what was finished stands in front of what was invoked later.

ghost use Rattle.std.specs.Prelude.{◌^◌, ◌<◌, length, IfOk};
ghost use Rattle.rec_id.specs.Lawful.{OrderedAt};
ghost use Rattle.log_law.specs.Pairs.{IsFound};

use crate::index::KeyIndex;
use crate::pairs::first_pair;
use crate::places::{limits, lowest_places};
use crate::told::{Names, Told, entry_keys, event_keys};
use rec_id::{Entry, Event};
use std::alloc::{AllocError, Global};

/// The first pair of an end of an append and a later begin of one that does not stand behind it,
/// if there is any.
pub fn ordered_breach(
    alloc: Global,
    history: &[Event],
    line: &[Entry],
) -> Result<Option<(usize, usize)>, AllocError>
    requires { length line.now < 2 ^ 32 }
    ensures { IfOk result (IsFound (OrderedAt history.now line.now)) }
{
    let named = KeyIndex::of(alloc, entry_keys(alloc, Names::All, line)?)?;
    let finished = event_keys(alloc, Told::Finished, history)?;
    let invoked = event_keys(alloc, Told::Invoked, history)?;
    let bounds = limits(alloc, &finished, &named)?;
    let lows = lowest_places(alloc, &invoked, &named)?;
    Ok(first_pair(&bounds, &lows))
}
