//! What a cell is asked for.

ghost use Rattle.std.specs.Prelude.{◌≡◌};
ghost use Rattle.rec_id.specs.Identity.{same_id};
ghost use Rattle.lazy_rules.specs.Store.{is_cell_of};
ghost use Rattle.shard_store.specs.Kinds.{is_of};

use rec_id::{Body, Cell, RecordId};

/// A kind of cell.
#[derive(Clone, Copy)]
pub(crate) enum Kind {
    /// The data is here, or was given up.
    Data,
    /// The data is here.
    Kept,
    Noop,
    Open,
}

/// The cell is of this kind.
pub(crate) fn is_of(kind: Kind, body: &Body) -> bool
    ensures { result ≡ is_of kind body.now }
{
    match kind {
        Kind::Data => matches!(body, Body::Kept(_) | Body::Gone),
        Kind::Kept => matches!(body, Body::Kept(_)),
        Kind::Noop => matches!(body, Body::Noop),
        Kind::Open => matches!(body, Body::Open),
    }
}

/// The two identities are one.
pub(crate) fn is_same(a: RecordId, b: RecordId) -> bool
    ensures { result ≡ same_id a b }
{
    a == b
}

/// The cell is one of this record, and of this kind.
pub(crate) fn is_cell_of(kind: Kind, id: RecordId, cell: &Cell) -> bool
    ensures { result ≡ is_cell_of (is_of kind) id cell.now }
{
    if !is_same(cell.id, id) {
        return false;
    }
    is_of(kind, &cell.body)
}
