//! A store as it will be: what a row sends is made from it before the store is changed, so that a
//! row that is refused has changed nothing.

ghost use Rattle.std.specs.Prelude.{◌≡◌, ◌+◌, ◌^◌, ◌<◌, ◌≤◌, ◌++◌, Some, length, position, take, slice_get, slice_range, IfOk, IfSome, IsTrue};
ghost use Rattle.lazy_rules.specs.Store.{is_open, has_open, has_open_below, fill, closed, closed_cell, first_open, open_to_noop, recut_cells};
ghost use Rattle.shard_store.specs.Sound.{is_open_at};

use plain_lists::Sequence;
use rec_id::{Body, Bytes, Cell, CellList};
use shard_store::ShardStore;
use std::alloc::{AllocError, Global};
use std::marker::Model;

/// A change of a store.
#[derive(Drop)]
pub(crate) enum Change {
    Nothing,
    /// The data of the open cell at this place has come.
    Filled(u32, Bytes),
    /// The open cells are no-ops.
    Closed,
    /// The order is cut off at this place, and goes on with these cells.
    Recut(u32, CellList),
}

/// A store with a change that isn't made yet.
#[derive(Drop)]
pub(crate) struct Ahead<'a> {
    store: &'a ShardStore,
    change: Change,
    open: Option<u32>,
}

impl<'a> Model for Ahead<'a> {
    ghost use Rattle.lazy_rules.specs.Store.{Store};
    ghost use Rattle.shard_node.specs.Changes.{changed, IsAhead};

    ghost Value = { Store };

    ghost view = { λ a. changed a.change a.store.now };

    ghost invariant = { λ a. IsAhead a.change a.store.now a.open };
}

/// The first open one of some cells.
fn first_open_in(cells: &[Cell]) -> Option<usize>
    ensures place { result ≡ position (λ cell. is_open cell.body) cells.now }
    ensures inside { IfSome result (λ place. place < length cells.now) }
{
    cells.iter().position(|cell| is_open(&cell.body))
}

/// The first open place of an order that is cut off at `from` and goes on with these cells.
fn first_open_after(store: &ShardStore, from: u32, cells: &CellList) -> Option<u32>
    requires from { from ≤ length store.now.order }
    requires short { from + length cells.now < 2 ^ 32 }
    ensures { result ≡ position (λ cell. is_open cell.body) (take from store.now.order ++ cells.now) }
{
    if store.has_open_below(from) {
        return store.first_open();
    }
    match first_open_in(cells.as_slice()) {
        Some(place) => Some(from + place as u32),
        None => None,
    }
}

/// The data is missing.
fn is_open(body: &Body) -> bool
    ensures { result ≡ is_open body.now }
{
    matches!(body, Body::Open)
}

/// The cell, which is a no-op where it was open.
fn closed_cell(cell: &Cell) -> Result<Cell, AllocError>
    ensures { IfOk result (λ made. made ≡ closed_cell cell.now) }
{
    let body = match &cell.body {
        Body::Open => Body::Noop,
        Body::Elsewhere => Body::Elsewhere,
        Body::Kept(bytes) => Body::Kept(bytes.clone()?),
        Body::Noop => Body::Noop,
        Body::Gone => Body::Gone,
    };
    Ok(Cell { id: cell.id, body })
}

#[tactic(auto, using(crate::proofs::Stores::filled_here, crate::proofs::Stores::filled_other))]
/// The cell at `place`, where the open cell at `filled` gets this data.
fn filled_cell(
    store: &ShardStore,
    filled: u32,
    bytes: &Bytes,
    place: u32,
) -> Result<Cell, AllocError>
    requires open_ { IsTrue (is_open_at store.now.order filled) }
    requires inside { place < length store.now.order }
    ensures { IfOk result (λ made. slice_get (fill store.now filled bytes.now).order place ≡ Some made) }
{
    let cell = store.cell(place);
    if place == filled {
        let bytes = bytes.clone()?;
        return Ok(Cell {
            id: cell.id,
            body: Body::Kept(bytes),
        });
    }
    let made = cell.copy()?;
    Ok(made)
}

#[tactic(auto, using(crate::proofs::Stores::closed_at))]
/// The cell at `place`, which is a no-op where it was open.
fn closed_at(store: &ShardStore, place: u32) -> Result<Cell, AllocError>
    requires { place < length store.now.order }
    ensures { IfOk result (λ made. slice_get (open_to_noop store.now).order place ≡ Some made) }
{
    let cell = store.cell(place);
    let made = closed_cell(cell)?;
    Ok(made)
}

#[tactic(auto, using(crate::proofs::Stores::cell_before, crate::proofs::Stores::cell_behind))]
/// The cell at `place` of an order that is cut off at `from` and goes on with these cells.
fn recut_cell(
    store: &ShardStore,
    from: u32,
    cells: &CellList,
    place: u32,
) -> Result<Cell, AllocError>
    requires from { from ≤ length store.now.order }
    requires inside { place < from + length cells.now }
    ensures { IfOk result (λ made. slice_get (take from store.now.order ++ cells.now) place ≡ Some made) }
{
    if place < from {
        let cell = store.cell(place);
        let made = cell.copy()?;
        return Ok(made);
    }
    let cell = cells.at((place - from) as usize);
    let made = cell.copy()?;
    Ok(made)
}

impl<'a> Ahead<'a> {
    /// The store as it is.
    pub(crate) fn unchanged(store: &'a ShardStore) -> Ahead<'a>
        ensures { result ≡ store.now }
    {
        Ahead {
            store,
            change: Change::Nothing,
            open: store.first_open(),
        }
    }

    /// The store with the data of its open cell at `place`.
    pub(crate) fn filled(store: &'a ShardStore, place: u32, bytes: Bytes) -> Ahead<'a>
        requires { IsTrue (is_open_at store.now.order place) }
        ensures { result ≡ fill store.now place bytes }
    {
        let open = store.first_open_but(place);
        Ahead {
            store,
            change: Change::Filled(place, bytes),
            open,
        }
    }

    /// The store with no-ops for its open cells.
    pub(crate) fn closed(store: &'a ShardStore) -> Ahead<'a>
        ensures { result ≡ open_to_noop store.now }
    {
        Ahead {
            store,
            change: Change::Closed,
            open: None,
        }
    }

    /// The store with other cells from `from` on.
    pub(crate) fn recut(store: &'a ShardStore, from: u32, cells: CellList) -> Ahead<'a>
        requires from { from ≤ length store.now.order }
        requires short { from + length cells < 2 ^ 32 }
        ensures { result ≡ recut_cells store.now from cells }
    {
        let open = first_open_after(store, from, &cells);
        Ahead {
            store,
            change: Change::Recut(from, cells),
            open,
        }
    }

    /// How many cells the order has.
    pub(crate) fn len(&self) -> u32
        ensures { result ≡ length self.now.order }
    {
        match &self.change {
            Change::Nothing => self.store.len(),
            Change::Filled(_, _) => self.store.len(),
            Change::Closed => self.store.len(),
            Change::Recut(from, cells) => *from + cells.len() as u32,
        }
    }

    /// Some cell is open.
    pub(crate) fn has_open(&self) -> bool
        ensures { result ≡ has_open self.now }
    {
        match self.open {
            Some(_) => true,
            None => false,
        }
    }

    /// Some cell below `place` is open.
    pub(crate) fn has_open_below(&self, place: u32) -> bool
        ensures { result ≡ has_open_below self.now place }
    {
        match self.open {
            Some(first) => first < place,
            None => false,
        }
    }

    /// The cell at `place`.
    fn cell(&self, place: u32) -> Result<Cell, AllocError>
        requires { place < length self.now.order }
        ensures { IfOk result (λ made. slice_get self.now.order place ≡ Some made) }
    {
        match &self.change {
            Change::Nothing => self.store.cell(place).copy(),
            Change::Filled(filled, bytes) => filled_cell(self.store, *filled, bytes, place),
            Change::Closed => closed_at(self.store, place),
            Change::Recut(from, cells) => recut_cell(self.store, *from, cells, place),
        }
    }

    /// The cells of `[from, to)`.
    pub(crate) fn cells(&self, alloc: Global, from: u32, to: u32) -> Result<CellList, AllocError>
        ensures { IfOk result (λ made. made ≡ slice_range self.now.order from to) }
    {
        let mut made = Sequence::new(alloc);
        let end = to.min(self.len());
        for place in from..end {
            made.push(self.cell(place)?)?;
        }
        Ok(made)
    }
}
