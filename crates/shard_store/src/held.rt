//! The data of records that have no place yet, found by an index as places are.

ghost use Rattle.std.specs.Prelude.{◌≡◌, ◌+◌, ◌-◌, ◌<◌, ◌≤◌, ◌^◌, ◌++◌, ◌∷◌, [], length, None, OnOk, OnErr, option_map};
ghost use Rattle.lazy_rules.specs.Store.{held_bytes, without_held};
ghost use Rattle.shard_store.specs.Holding.{records_in};

use crate::kinds::Kind;
use crate::order::Order;
use crate::settling::bytes_in;
use rec_id::{Body, Bytes, Cell, RecordId};
use std::alloc::{AllocError, Global};
use std::marker::Model;

/// Records of distinct identities with their data, in the order in which they came, with room for
/// so many more. Each is found by its identity.
#[derive(Drop)]
pub(crate) struct Held {
    /// A record that is held is a kept cell. One that was taken out is a cell whose data is gone,
    /// until the cells are packed.
    cells: Order,
    /// How many were taken out since then.
    taken: usize,
}

impl Model for Held {
    ghost use Rattle.shard_store.specs.Holding.{Holding};

    ghost Value = { Holding };

    ghost use Rattle.std.specs.Prelude.{◌+◌, ◌^◌, ◌<◌, length, IsTrue};
    ghost use Rattle.shard_store.specs.Holding.{is_distinct, records_in};

    ghost view = { λ held. record { records = records_in held.cells.cells; spare = held.cells.spare } };

    ghost invariant = { λ held. IsTrue (is_distinct (records_in held.cells.cells)) × (length held.cells.cells + held.cells.spare < 2 ^ 32) };
}

impl Held {
    pub(crate) fn new(alloc: Global) -> Held
        ensures { result ≡ record { records = []; spare = 0 } }
    {
        Held {
            cells: Order::new(alloc),
            taken: 0,
        }
    }

    pub(crate) fn allocator(&self) -> Global {
        self.cells.allocator()
    }

    /// The data of the record.
    pub(crate) fn get(&self, id: RecordId) -> Option<&Bytes>
        ensures { option_map (λ bytes. bytes.now) result ≡ held_bytes self.now.records id }
    {
        match self.cells.first(Kind::Kept, id) {
            Some(place) => bytes_in(&self.cells.cell(place).body),
            None => None,
        }
    }

    /// Takes the data of the record out.
    pub(crate) fn take(&mut self, id: RecordId) -> Option<Bytes>
        ensures bytes { result ≡ held_bytes self.old.records id }
        ensures rest { self.new.records ≡ without_held self.old.records id }
        ensures spare { self.old.spare ≤ self.new.spare }
    {
        match self.cells.first(Kind::Kept, id) {
            Some(place) => {
                self.taken = self.taken.saturating_add(1);
                self.cells.take_data(place)
            }
            None => None,
        }
    }

    /// Makes room for so many records more. Where half of the cells or more are records that were
    /// taken out, these are left out first, so that a record is moved a few times in all.
    pub(crate) fn reserve(&mut self, more: usize) -> Result<(), AllocError>
        ensures records { self.new.records ≡ self.old.records }
        ensures spare { self.old.spare ≤ self.new.spare }
        ensures room { OnOk result (more ≤ self.new.spare) }
    {
        let len = self.cells.len();
        if more >= (u32::MAX - len) as usize {
            return Err(AllocError);
        }
        if more > self.cells.spare() && self.taken >= (len / 2) as usize {
            pack(&mut self.cells, more)?;
            self.taken = 0;
            return Ok(());
        }
        self.cells.reserve(more)
    }

    /// Holds the data of the record.
    pub(crate) fn push(&mut self, id: RecordId, bytes: Bytes)
        requires room { 0 < self.old.spare }
        requires new { held_bytes self.old.records id ≡ None }
        ensures { self.new ≡ record { records = self.old.records ++ (id, bytes) ∷ []; spare = self.old.spare - 1 } }
    {
        self.cells.push(Cell {
            id,
            body: Body::Kept(bytes),
        });
    }
}

/// Leaves out the cells whose data was taken out, and makes room for so many more.
fn pack(cells: &mut Order, more: usize) -> Result<(), AllocError>
    requires short { length cells.old.cells + more < 2 ^ 32 }
    ensures records { records_in cells.new.cells ≡ records_in cells.old.cells }
    ensures room { OnOk result ((more ≤ cells.new.spare) × (length cells.new.cells + cells.new.spare < 2 ^ 32)) }
    ensures same { OnErr result (cells.new ≡ cells.old) }
{
    let mut packed = Order::new(cells.allocator());
    packed.reserve(cells.len() as usize + more)?;
    move_kept(cells, &mut packed);
    *cells = packed;
    Ok(())
}

/// Moves the records that are held behind those of `to`.
fn move_kept(from: &mut Order, to: &mut Order)
    requires room { length from.old.cells ≤ to.old.spare }
    requires short { length to.old.cells + to.old.spare < 2 ^ 32 }
    ensures records { records_in to.new.cells ≡ records_in to.old.cells ++ records_in from.old.cells }
    ensures room { length to.new.cells + to.new.spare ≡ length to.old.cells + to.old.spare }
    ensures left { to.old.spare ≤ to.new.spare + length from.old.cells }
{
    for place in 0..from.len() {
        let id = from.cell(place).id;
        if let Some(bytes) = from.take_data(place) {
            to.push(Cell {
                id,
                body: Body::Kept(bytes),
            });
        }
    }
}
