//! Orders that are cut off, with the data of their cells held again where it came by itself.

ghost use Rattle.std.specs.Prelude.{◌≡◌, ◌+◌, ◌-◌, ◌<◌, ◌≤◌, [], length, take, drop, Some, IfOk, OnOk};
ghost use Rattle.std.specs.VecDeque.{deque_capacity};
ghost use Rattle.lazy_rules.specs.Store.{bytes_in};
ghost use Rattle.shard_store.specs.Settling.{held_again, held_again_all, given_back, cut_count};

use crate::held::Held;
use crate::order::Order;
use crate::searching::has_data;
use rec_id::{Body, Bytes, Cell, RecordId};
use std::alloc::AllocError;
use std::collections::VecDeque;
use view_config::Mode;

/// How many cells a cut of `count` gives back.
fn cut_count(mode: Mode, count: u32) -> usize
    ensures { result ≡ cut_count mode count }
{
    match mode {
        Mode::M => 0,
        Mode::St => count as usize,
    }
}

/// Room for the cells from place `from` on, and for their data as held data.
pub(crate) fn make_room(
    order: &Order,
    held: &mut Held,
    mode: Mode,
    from: u32,
) -> Result<VecDeque<Cell>, AllocError>
    requires { from ≤ length order.now.cells }
    ensures records { held.new.records ≡ held.old.records }
    ensures held_room { OnOk result (cut_count mode (length order.now.cells - from) ≤ held.new.spare) }
    ensures empty { IfOk result (λ made. made.items ≡ []) }
    ensures room { IfOk result (λ made. cut_count mode (length order.now.cells - from) ≤ deque_capacity made) }
{
    let count = cut_count(mode, order.len() - from);
    held.reserve(count)?;
    VecDeque::with_capacity(held.allocator(), count)
}

/// Drops the cells from place `from` on.
fn drop_from(order: &mut Order, from: u32)
    requires { from ≤ length order.old.cells }
    ensures cells { order.new.cells ≡ take from order.old.cells }
    ensures spare { order.new.spare ≡ order.old.spare }
{
    while order.len() > from {
        let _ = order.pop();
    }
}

/// Moves the cells from place `from` on to `tail`.
fn move_from(order: &mut Order, from: u32, tail: &mut VecDeque<Cell>)
    requires from { from ≤ length order.old.cells }
    requires empty { tail.old.items ≡ [] }
    requires room { length order.old.cells - from ≤ deque_capacity tail.old }
    ensures cells { order.new.cells ≡ take from order.old.cells }
    ensures spare { order.new.spare ≡ order.old.spare }
    ensures tail { tail.new.items ≡ drop from order.old.cells }
{
    while order.len() > from {
        tail.push_front_reserved(order.pop());
    }
}

/// Holds data unless it is there.
pub(crate) fn hold_bytes(order: &Order, held: &mut Held, id: RecordId, bytes: Bytes)
    requires { 0 < held.old.spare }
    ensures records { held.new.records ≡ held_again order.now.cells held.old.records id (Some bytes) }
    ensures spare { held.old.spare ≤ held.new.spare + 1 }
{
    if has_data(order, held, id) {
        return;
    }
    held.push(id, bytes);
}

/// Holds the data of a cell unless it is there.
fn hold_cell(order: &Order, held: &mut Held, cell: Cell)
    requires { 0 < held.old.spare }
    ensures records { held.new.records ≡ held_again order.now.cells held.old.records cell.id (bytes_in cell.body) }
    ensures spare { held.old.spare ≤ held.new.spare + 1 }
{
    let Cell { id, body } = cell;
    match body {
        Body::Kept(bytes) => hold_bytes(order, held, id, bytes),
        Body::Elsewhere => {}
        Body::Noop => {}
        Body::Open => {}
        Body::Gone => {}
    }
}

/// Holds the data of cells in turn.
fn hold_cells(order: &Order, held: &mut Held, cells: &mut VecDeque<Cell>)
    requires { length cells.old.items ≤ held.old.spare }
    ensures { held.new.records ≡ held_again_all order.now.cells held.old.records cells.old.items }
{
    while let Some(cell) = cells.pop_front() {
        hold_cell(order, held, cell);
    }
}

/// Cuts the order off from place `from` on, with the room that was made for it.
pub(crate) fn cut_off(
    order: &mut Order,
    held: &mut Held,
    mode: Mode,
    from: u32,
    tail: &mut VecDeque<Cell>,
)
    requires from { from ≤ length order.old.cells }
    requires held_room { cut_count mode (length order.old.cells - from) ≤ held.old.spare }
    requires empty { tail.old.items ≡ [] }
    requires room { cut_count mode (length order.old.cells - from) ≤ deque_capacity tail.old }
    ensures cells { order.new.cells ≡ take from order.old.cells }
    ensures spare { order.new.spare ≡ order.old.spare }
    ensures records { held.new.records ≡ given_back mode (take from order.old.cells) held.old.records (drop from order.old.cells) }
{
    match mode {
        Mode::M => drop_from(order, from),
        Mode::St => {
            move_from(order, from, tail);
            hold_cells(order, held, tail);
        }
    }
}
