//! The order of all records, found by their identities.

ghost use Rattle.std.specs.Prelude.{◌≡◌, ◌+◌, ◌-◌, ◌^◌, ◌<◌, ◌≤◌, ◌++◌, ◌∷◌, ◌⊎◌, [], ◌==◌, true, false, map, filter, slice_set, ℕ, List, length, position, slice_get, Some, OnOk, vec_len, vec_capacity};
ghost use Rattle.std.specs.List.{remove, position_or_len};
ghost use Rattle.lazy_rules.specs.Store.{bytes_in, given_up, given_up_cell, is_cell_of, is_open, closed_cell};
ghost use Rattle.shard_store.specs.Links.{cell_at};
ghost use Rattle.rec_id.specs.declared.item.Cell.{Cell as CellValue};
ghost use Rattle.shard_store.specs.Kinds.{is_of};
ghost use Rattle.shard_store.specs.Places.{Places, open_from, IsGivenUp, IsClosing};

use crate::kinds::{Kind, is_cell_of, is_of};
use crate::links::{bucket, make_buckets};
use rec_id::{Body, Bytes, Cell, RecordId};
use std::alloc::{AllocError, Global};
use std::marker::Model;
use std::mem;

/// Cells in their order, with room for so many more.
#[derive(Drop)]
pub(crate) struct Order {
    cells: Vec<Cell>,
    /// For each bucket the end of its last place.
    heads: Vec<u32>,
    /// For each place the end of the last one before it in its bucket.
    before: Vec<u32>,
    /// The places of the open cells.
    opens: Vec<u32>,
    spare: usize,
}

impl Model for Order {
    ghost use Rattle.shard_store.specs.Places.{Places};

    ghost Value = { Places };

    ghost use Rattle.std.specs.Prelude.{vec_capacity};
    ghost use Rattle.shard_store.specs.Places.{IsIndexed};

    ghost view = { λ order. record { cells = order.cells.items; spare = order.spare } };

    ghost invariant = { λ order. IsIndexed order.cells.items order.heads.items order.before.items order.opens.items order.spare (vec_capacity order.cells) (vec_capacity order.before) (vec_capacity order.opens) };
}

impl Order {
    pub(crate) fn new(alloc: Global) -> Order
        ensures { result ≡ record { cells = []; spare = 0 } }
    {
        Order {
            cells: Vec::new(alloc),
            heads: Vec::new(alloc),
            before: Vec::new(alloc),
            opens: Vec::new(alloc),
            spare: 0,
        }
    }

    /// The cells alone. It takes no memory.
    pub(crate) fn into_cells(self) -> Vec<Cell>
        ensures { result.items ≡ self.cells }
    {
        let Order {
            cells,
            heads: _,
            before: _,
            opens: _,
            spare: _,
        } = self;
        cells
    }

    pub(crate) fn len(&self) -> u32
        ensures len { result ≡ length self.now.cells }
        ensures short { length self.now.cells < 2 ^ 32 }
    {
        self.cells.len() as u32
    }

    /// How many cells more there is room for.
    pub(crate) fn spare(&self) -> usize
        ensures { result ≡ self.now.spare }
    {
        self.spare
    }

    pub(crate) fn allocator(&self) -> Global {
        *self.cells.allocator()
    }

    /// The cell at `place`.
    pub(crate) fn cell(&self, place: u32) -> &Cell
        requires { place < length self.now.cells }
        ensures { slice_get self.now.cells place ≡ Some result.now }
    {
        &self.cells[place as usize]
    }

    /// The first place of a cell of this record and kind.
    pub(crate) fn first(&self, kind: Kind, id: RecordId) -> Option<u32>
        ensures { result ≡ position (is_cell_of (is_of kind) id) self.now.cells }
    {
        if self.heads.is_empty() {
            return None;
        }
        let mut found = None;
        let mut end = self.heads[bucket(self.heads.len(), id)];
        while end > 0 {
            let place = end - 1;
            if is_cell_of(kind, id, &self.cells[place as usize]) {
                found = Some(place);
            }
            end = self.before[place as usize];
        }
        found
    }

    /// The first open place.
    pub(crate) fn first_open(&self) -> Option<u32>
        ensures { result ≡ position (λ cell. is_open cell.body) self.now.cells }
    {
        first_of(&self.opens)
    }

    /// The first open place but `place`, which is open: the first one once that cell is closed.
    pub(crate) fn first_open_but(&self, place: u32) -> Option<u32>
        requires inside { place < length self.now.cells }
        requires open_ { is_open (cell_at self.now.cells place).body ≡ true }
        ensures { (cell : CellValue) → is_open cell.body ≡ false → result ≡ position (λ cell. is_open cell.body) (slice_set self.now.cells place cell) }
    {
        first_but(&self.opens, place)
    }

    /// Makes room for so many cells more.
    pub(crate) fn reserve(&mut self, more: usize) -> Result<(), AllocError>
        requires { more < 2 ^ 32 }
        ensures cells { self.new.cells ≡ self.old.cells }
        ensures room { OnOk result (more ≤ self.new.spare) }
        ensures spare { (self.new.spare ≡ self.old.spare) ⊎ (self.old.spare ≤ more) × (self.new.spare ≡ more) }
    {
        if more <= self.spare {
            return Ok(());
        }
        self.cells.reserve(more)?;
        self.before.reserve(more)?;
        self.opens.reserve(more)?;
        let needed = self.cells.len() + more;
        make_buckets(&self.cells, &mut self.heads, &mut self.before, needed)?;
        self.spare = more;
        Ok(())
    }

    /// Appends `cell`.
    pub(crate) fn push(&mut self, cell: Cell)
        requires room { 0 < self.old.spare }
        requires short { length self.old.cells + 1 < 2 ^ 32 }
        ensures { self.new ≡ record { cells = self.old.cells ++ cell ∷ []; spare = self.old.spare - 1 } }
    {
        let place = self.cells.len() as u32;
        let at = bucket(self.heads.len(), cell.id);
        self.before.push_reserved(self.heads[at]);
        self.heads[at] = place + 1;
        note_open(&mut self.opens, place, &cell);
        self.cells.push_reserved(cell);
        self.spare -= 1;
    }

    /// Takes off the last cell.
    pub(crate) fn pop(&mut self) -> Cell
        requires { 0 < length self.old.cells }
        ensures cells { self.old.cells ≡ self.new.cells ++ result ∷ [] }
        ensures spare { self.new.spare ≡ self.old.spare }
    {
        let cell = pop_some(&mut self.cells);
        let end = pop_some(&mut self.before);
        let at = bucket(self.heads.len(), cell.id);
        self.heads[at] = end;
        forget_open(&mut self.opens, &cell);
        cell
    }

    /// Gives the open cell at `place` another body.
    pub(crate) fn close(&mut self, place: u32, body: Body)
        requires inside { place < length self.old.cells }
        requires open_ { is_open (cell_at self.old.cells place).body ≡ true }
        requires closed { is_open body ≡ false }
        ensures { self.new ≡ record self.old { cells = slice_set self.old.cells place (record { id = (cell_at self.old.cells place).id; body = body }) } }
    {
        forget_place(&mut self.opens, place);
        set_body(&mut self.cells, place as usize, body);
    }

    /// Makes all open cells no-ops. How many these are is the result.
    pub(crate) fn close_all(&mut self) -> u32
        ensures count { result ≡ length (filter (λ cell. is_open cell.body) self.old.cells) }
        ensures cells { self.new ≡ record self.old { cells = map closed_cell self.old.cells } }
    {
        close_cells(&mut self.cells, &self.opens);
        let count = self.opens.len() as u32;
        self.opens.truncate(0);
        count
    }

    /// Takes the data of the cell at `place` out, which is then given up.
    pub(crate) fn take_data(&mut self, place: u32) -> Option<Bytes>
        requires { place < length self.old.cells }
        ensures bytes { result ≡ bytes_in (cell_at self.old.cells place).body }
        ensures cells { self.new ≡ record self.old { cells = slice_set self.old.cells place (given_up_cell (cell_at self.old.cells place)) } }
    {
        take_bytes(&mut self.cells, place as usize)
    }

    /// Gives the kept data of the cells of `[from, to)` up.
    pub(crate) fn give_up(&mut self, from: u32, to: u32)
        requires range { (from ≤ to) × (to ≤ length self.old.cells) }
        ensures spare { self.new.spare ≡ self.old.spare }
        ensures cells { IsGivenUp from to self.old.cells self.new.cells }
    {
        give_up_cells(&mut self.cells, from as usize, to as usize);
    }
}

/// Takes the data of the cell at `place` out, which is then given up.
fn take_bytes(cells: &mut [Cell], place: usize) -> Option<Bytes>
    requires { place < length cells.old }
    ensures bytes { result ≡ bytes_in (cell_at cells.old place).body }
    ensures cells { cells.new ≡ slice_set cells.old place (given_up_cell (cell_at cells.old place)) }
{
    take_body(&mut cells[place].body)
}

/// Takes the data of a body out, which is then given up.
fn take_body(body: &mut Body) -> Option<Bytes>
    ensures bytes { result ≡ bytes_in body.old }
    ensures body { body.new ≡ given_up body.old }
{
    match mem::replace(body, Body::Gone) {
        Body::Kept(bytes) => return Some(bytes),
        Body::Elsewhere => *body = Body::Elsewhere,
        Body::Noop => *body = Body::Noop,
        Body::Open => *body = Body::Open,
        Body::Gone => {}
    }
    None
}

/// Takes off the last of some members.
fn pop_some<T>(members: &mut Vec<T>) -> T
    requires { 0 < length members.old.items }
    ensures items { members.old.items ≡ members.new.items ++ result ∷ [] }
    ensures capacity { vec_capacity members.new ≡ vec_capacity members.old }
{
    match members.pop() {
        Some(member) => member,
        None => unreachable!(),
    }
}

/// Appends the place of a cell that is open.
fn note_open(opens: &mut Vec<u32>, place: u32, cell: &Cell)
    requires { vec_len opens.old < vec_capacity opens.old }
    ensures items { opens.new.items ≡ opens.old.items ++ open_from place (cell.now ∷ []) }
    ensures capacity { vec_capacity opens.new ≡ vec_capacity opens.old }
{
    if is_of(Kind::Open, &cell.body) {
        opens.push_reserved(place);
    }
}

/// Takes off the last place, if the cell is open.
fn forget_open(opens: &mut Vec<u32>, cell: &Cell)
    ensures items { (rest : List ℕ) (place : ℕ) → opens.old.items ≡ rest ++ open_from place (cell.now ∷ []) → opens.new.items ≡ rest }
    ensures capacity { vec_capacity opens.new ≡ vec_capacity opens.old }
{
    if is_of(Kind::Open, &cell.body) {
        let _ = opens.pop();
    }
}

fn first_of(places: &[u32]) -> Option<u32>
    ensures { result ≡ slice_get places.now 0 }
{
    places.first().copied()
}

/// The first of some places once the first that is this one is left out.
fn first_but(places: &[u32], place: u32) -> Option<u32>
    ensures { result ≡ slice_get (remove places.now (position_or_len (λ other. other == place) places.now)) 0 }
{
    let first = first_of(places)?;
    if first == place {
        return places.get(1).copied();
    }
    Some(first)
}

fn find_place(places: &[u32], place: u32) -> Option<usize>
    ensures { result ≡ position (λ other. other == place) places.now }
{
    places.iter().position(|other| *other == place)
}

/// Takes out the first of some places that is this one.
fn forget_place(opens: &mut Vec<u32>, place: u32)
    ensures items { opens.new.items ≡ remove opens.old.items (position_or_len (λ other. other == place) opens.old.items) }
    ensures capacity { vec_capacity opens.new ≡ vec_capacity opens.old }
{
    if let Some(i) = find_place(opens, place) {
        let _ = opens.remove(i);
    }
}

/// Gives the cell at `place` another body.
fn set_body(cells: &mut [Cell], place: usize, body: Body)
    requires { place < length cells.old }
    ensures { cells.new ≡ slice_set cells.old place (record { id = (cell_at cells.old place).id; body = body }) }
{
    cells[place].body = body;
}

/// Makes the cells at these places no-ops, which are the open ones.
fn close_cells(cells: &mut [Cell], opens: &[u32])
    requires { opens.now ≡ open_from 0 cells.old }
    ensures { IsClosing cells.old cells.new [] }
{
    for place in opens {
        set_body(cells, *place as usize, Body::Noop);
    }
}

/// Gives the kept data of the cells of `[from, to)` up.
fn give_up_cells(cells: &mut [Cell], from: usize, to: usize)
    requires range { (from ≤ to) × (to ≤ length cells.old) }
    ensures { IsGivenUp from to cells.old cells.new }
{
    for place in from..to {
        if is_of(Kind::Kept, &cells[place].body) {
            set_body(cells, place, Body::Gone);
        }
    }
}
