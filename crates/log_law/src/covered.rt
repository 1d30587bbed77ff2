//! Clause (f): what was finished before a read began stands below the tail of its forced answer.

ghost use Rattle.std.specs.Prelude.{IfOk};
ghost use Rattle.rec_id.specs.Lawful.{CoveredAt};
ghost use Rattle.log_law.specs.Pairs.{IsFound};

use crate::index::KeyIndex;
use crate::pairs::first_pair;
use crate::places::limits;
use crate::tails::least_tails;
use crate::told::{Names, Told, entry_keys, event_keys};
use rec_id::{Entry, Event};
use std::alloc::{AllocError, Global};

/// The first pair of an end of an append and a later begin of a read whose forced answer does not
/// cover it, if there is any.
pub fn covered_breach(
    alloc: Global,
    history: &[Event],
    line: &[Entry],
) -> Result<Option<(usize, usize)>, AllocError>
    ensures { IfOk result (IsFound (CoveredAt history.now line.now)) }
{
    let named = KeyIndex::of(alloc, entry_keys(alloc, Names::All, line)?)?;
    let finished = event_keys(alloc, Told::Finished, history)?;
    let bounds = limits(alloc, &finished, &named)?;
    let lows = least_tails(alloc, history)?;
    Ok(first_pair(&bounds, &lows))
}
