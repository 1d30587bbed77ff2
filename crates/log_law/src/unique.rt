//! Clause (a): no identity stands at two places.

ghost use Rattle.std.specs.Prelude.{IfOk};
ghost use Rattle.rec_id.specs.Lawful.{UniqueAt};
ghost use Rattle.log_law.specs.Keys.{IsApart};
ghost use Rattle.log_law.specs.Pairs.{IsFound};

use crate::index::KeyIndex;
use crate::told::{Names, entry_keys};
use rec_id::Entry;
use std::alloc::{AllocError, Global};

/// The first place whose key stands again later, with its next place.
fn first_repeated(named: &KeyIndex) -> Option<(usize, usize)>
    ensures { IsFound (IsApart named.now) result }
{
    for p in 0..named.len() {
        if let Some(key) = named.at(p) {
            let q = named.next(p, key);
            if q < named.len() {
                return Some((p, q));
            }
        }
    }
    None
}

/// The first two places that name one identity, in the order of pairs, if there are any.
pub fn unique_breach(alloc: Global, line: &[Entry]) -> Result<Option<(usize, usize)>, AllocError>
    ensures { IfOk result (IsFound (UniqueAt line.now)) }
{
    let named = KeyIndex::of(alloc, entry_keys(alloc, Names::All, line)?)?;
    Ok(first_repeated(&named))
}
