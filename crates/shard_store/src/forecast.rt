//! The cells that a cut and extended order would have.

ghost use Rattle.std.specs.Prelude.{◌≡◌, ◌^◌, ◌<◌, length, take, drop, option_map, IfOk};
ghost use Rattle.std.specs.List.{list_any};
ghost use Rattle.lazy_rules.specs.Store.{held_bytes, kept_bytes, has_data, is_cell_of};
ghost use Rattle.shard_store.specs.Settling.{settled, settled_all, held_beside_all, given_back, bytes_back};

use crate::held::Held;
use crate::kinds::Kind;
use crate::order::Order;
use crate::searching::kept_of;
use crate::settling::filled_or_open;
use plain_lists::Sequence;
use rec_id::{Body, Bytes, Cell, CellList, RecordId};
use std::alloc::AllocError;
use std::collections::VecDeque;
use view_config::Mode;

/// Data of the record is in a cell below `from`, or was given up there.
fn has_before(order: &Order, from: u32, id: RecordId) -> bool
    ensures { result ≡ list_any (is_cell_of has_data id) (take from order.now.cells) }
{
    match order.first(Kind::Data, id) {
        Some(place) => place < from,
        None => false,
    }
}

/// The data that a cut at `from` gives back, where the record's is not held.
fn bytes_back(order: &Order, mode: Mode, from: u32, id: RecordId) -> Option<&Bytes>
    ensures { option_map (λ bytes. bytes.now) result ≡ bytes_back mode (take from order.now.cells) (drop from order.now.cells) id }
{
    match mode {
        Mode::M => None,
        Mode::St => {
            if has_before(order, from, id) {
                return None;
            }
            kept_of(order, id)
        }
    }
}

/// The data that would be held for the record after a cut at `from`.
fn bytes_after_cut<'a>(
    order: &'a Order,
    held: &'a Held,
    mode: Mode,
    from: u32,
    id: RecordId,
) -> Option<&'a Bytes>
    ensures { option_map (λ bytes. bytes.now) result ≡ held_bytes (given_back mode (take from order.now.cells) held.now.records (drop from order.now.cells)) id }
{
    match held.get(id) {
        Some(bytes) => Some(bytes),
        None => bytes_back(order, mode, from, id),
    }
}

/// The data that would be held for the record after a cut at `from` and beside the cells `made`.
fn bytes_beside(
    order: &Order,
    held: &Held,
    mode: Mode,
    from: u32,
    made: &Order,
    id: RecordId,
) -> Result<Option<Bytes>, AllocError>
    ensures { IfOk result (λ bytes. bytes ≡ held_bytes (held_beside_all (given_back mode (take from order.now.cells) held.now.records (drop from order.now.cells)) made.now.cells) id) }
{
    if made.first(Kind::Kept, id).is_some() {
        return Ok(None);
    }
    match bytes_after_cut(order, held, mode, from, id) {
        Some(bytes) => Ok(Some(bytes.clone()?)),
        None => Ok(None),
    }
}

/// The draft with the data that it would get.
fn foresee(
    order: &Order,
    held: &Held,
    mode: Mode,
    from: u32,
    made: &Order,
    draft: Cell,
) -> Result<Cell, AllocError>
    ensures { IfOk result (λ cell. cell ≡ settled (held_beside_all (given_back mode (take from order.now.cells) held.now.records (drop from order.now.cells)) made.now.cells) draft) }
{
    let Cell { id, body } = draft;
    match body {
        Body::Open => Ok(Cell {
            id,
            body: filled_or_open(bytes_beside(order, held, mode, from, made, id)?),
        }),
        Body::Kept(bytes) => Ok(Cell {
            id,
            body: Body::Kept(bytes),
        }),
        Body::Elsewhere => Ok(Cell {
            id,
            body: Body::Elsewhere,
        }),
        Body::Noop => Ok(Cell {
            id,
            body: Body::Noop,
        }),
        Body::Gone => Ok(Cell {
            id,
            body: Body::Gone,
        }),
    }
}

/// The drafts as cells of an order that was cut off at `from`.
pub(crate) fn foresee_all(
    order: &Order,
    held: &Held,
    mode: Mode,
    from: u32,
    drafts: VecDeque<Cell>,
) -> Result<CellList, AllocError>
    requires { length drafts.items < 2 ^ 32 }
    ensures { IfOk result (λ made. made ≡ settled_all (given_back mode (take from order.now.cells) held.now.records (drop from order.now.cells)) drafts.items) }
{
    let mut drafts = drafts;
    let mut made = Order::new(held.allocator());
    made.reserve(drafts.len())?;
    while let Some(draft) = drafts.pop_front() {
        let cell = foresee(order, held, mode, from, &made, draft)?;
        made.push(cell);
    }
    Ok(Sequence::from_vec(made.into_cells()))
}
