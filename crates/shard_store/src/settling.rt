//! Cells that come behind the order, with the data that was held for them.

ghost use Rattle.std.specs.Prelude.{◌≡◌, ◌+◌, ◌-◌, ◌^◌, ◌≤◌, ◌<◌, ◌++◌, [], ◌∷◌, length, Option, option_map, IfOk};
ghost use Rattle.lazy_rules.specs.Store.{bytes_in, filled_or_open};
ghost use Rattle.shard_store.specs.Settling.{settled, settled_all, held_after, held_beside_all};

use crate::held::Held;
use crate::kinds::{Kind, is_of};
use crate::order::Order;
use rec_id::{Body, Bytes, Cell, CellList};
use std::alloc::{AllocError, Global};
use std::collections::VecDeque;

/// A body with this data, or open.
pub(crate) fn filled_or_open(bytes: Option<Bytes>) -> Body
    ensures { result ≡ filled_or_open bytes }
{
    match bytes {
        Some(bytes) => Body::Kept(bytes),
        None => Body::Open,
    }
}

/// The data that a body has.
pub(crate) fn bytes_in(body: &Body) -> Option<&Bytes>
    ensures { option_map (λ bytes. bytes.now) result ≡ bytes_in body.now }
{
    match body {
        Body::Kept(bytes) => Some(bytes),
        Body::Elsewhere => None,
        Body::Noop => None,
        Body::Open => None,
        Body::Gone => None,
    }
}

/// An open cell gets the data that is held for it, and what is held for a kept one is dropped.
pub(crate) fn settle(held: &mut Held, cell: Cell) -> Cell
    ensures cell { result ≡ settled held.old.records cell }
    ensures held { held.new.records ≡ held_after held.old.records (settled held.old.records cell) }
{
    let Cell { id, body } = cell;
    // Each kind of body has its arm, since `settled` goes by kinds: one arm for all others isn't proved.
    match body {
        Body::Open => Cell {
            id,
            body: filled_or_open(held.take(id)),
        },
        Body::Kept(bytes) => {
            let _ = held.take(id);
            Cell {
                id,
                body: Body::Kept(bytes),
            }
        }
        Body::Elsewhere => Cell {
            id,
            body: Body::Elsewhere,
        },
        Body::Noop => Cell {
            id,
            body: Body::Noop,
        },
        Body::Gone => Cell {
            id,
            body: Body::Gone,
        },
    }
}

/// Settles drafts in turn, and appends them.
pub(crate) fn settle_all(order: &mut Order, held: &mut Held, drafts: VecDeque<Cell>)
    requires room { length drafts.items ≤ order.old.spare }
    requires short { length order.old.cells + length drafts.items < 2 ^ 32 }
    ensures cells { order.new.cells ≡ order.old.cells ++ settled_all held.old.records drafts.items }
    ensures held { held.new.records ≡ held_beside_all held.old.records (settled_all held.old.records drafts.items) }
{
    let mut drafts = drafts;
    while let Some(cell) = drafts.pop_front() {
        order.push(settle(held, cell));
    }
}

/// Drops what is held for a kept cell.
fn drop_held(held: &mut Held, cell: &Cell)
    ensures { held.new.records ≡ held_after held.old.records cell.now }
{
    if is_of(Kind::Kept, &cell.body) {
        let _ = held.take(cell.id);
    }
}

/// Appends cells as they are, and drops what is held for kept ones.
pub(crate) fn append_all(order: &mut Order, held: &mut Held, cells: VecDeque<Cell>)
    requires room { length cells.items ≤ order.old.spare }
    requires short { length order.old.cells + length cells.items < 2 ^ 32 }
    ensures cells { order.new.cells ≡ order.old.cells ++ cells.items }
    ensures held { held.new.records ≡ held_beside_all held.old.records cells.items }
{
    let mut cells = cells;
    while let Some(cell) = cells.pop_front() {
        drop_held(held, &cell);
        order.push(cell);
    }
}

/// Equal cells.
pub(crate) fn copy_all(alloc: Global, cells: &CellList) -> Result<VecDeque<Cell>, AllocError>
    ensures { IfOk result (λ made. made.items ≡ cells.now) }
{
    let mut made = Vec::with_capacity(alloc, cells.len())?;
    for i in 0..cells.len() {
        made.push(cells.at(i).copy()?)?;
    }
    Ok(VecDeque::from_vec(made))
}
