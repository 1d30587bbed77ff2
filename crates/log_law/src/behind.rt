//! Clause (h): what is invoked after something reached up to a place does not stand below it.

ghost use Rattle.std.specs.Prelude.{IfOk};
ghost use Rattle.rec_id.specs.Lawful.{BehindReadAt};
ghost use Rattle.log_law.specs.Pairs.{IsFound};

use crate::index::KeyIndex;
use crate::pairs::first_pair;
use crate::places::lowest_places;
use crate::reaches::{Reach, reaches_of};
use crate::told::{Names, Told, entry_keys, event_keys};
use rec_id::{Entry, Event};
use std::alloc::{AllocError, Global};

/// The first pair of an event of some reach and a later begin of an append that stands below it,
/// if there is any.
pub fn behind_breach(
    alloc: Global,
    history: &[Event],
    line: &[Entry],
) -> Result<Option<(usize, usize)>, AllocError>
    ensures { IfOk result (IsFound (BehindReadAt history.now line.now)) }
{
    let named = KeyIndex::of(alloc, entry_keys(alloc, Names::All, line)?)?;
    let invoked = event_keys(alloc, Told::Invoked, history)?;
    let bounds = reaches_of(alloc, Reach::Told, history)?;
    let lows = lowest_places(alloc, &invoked, &named)?;
    Ok(first_pair(&bounds, &lows))
}
