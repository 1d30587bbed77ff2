//! Entries of the log that cells give.

ghost use Rattle.std.specs.Prelude.{◌≡◌, ◌++◌, IfOk, OnOk};
ghost use Rattle.lazy_rules.specs.Store.{entry_in, placed_entry};

use rec_id::{Body, Cell, Entry, PlacedList};
use std::alloc::AllocError;

/// The entry of a cell that is kept or a no-op.
pub(crate) fn entry_in(cell: &Cell) -> Result<Option<Entry>, AllocError>
    ensures { IfOk result (λ made. made ≡ entry_in cell.now.id cell.now.body) }
{
    match &cell.body {
        Body::Kept(bytes) => Ok(Some(Entry::Kept(cell.id, bytes.clone()?))),
        Body::Noop => Ok(Some(Entry::Noop(cell.id))),
        Body::Elsewhere => Ok(None),
        Body::Open => Ok(None),
        Body::Gone => Ok(None),
    }
}

/// Appends the entry with its place, if there is one.
pub(crate) fn push_entry(
    made: &mut PlacedList,
    place: u32,
    entry: Option<Entry>,
) -> Result<(), AllocError>
    ensures { OnOk result (made.new ≡ made.old ++ placed_entry place entry) }
{
    match entry {
        Some(entry) => made.push((place, entry)),
        None => Ok(()),
    }
}
