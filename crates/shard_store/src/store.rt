//! The store of a shard replica.

ghost use Rattle.std.specs.Prelude.{ℕ, List, ◌≡◌, ◌+◌, ◌^◌, ◌<◌, ◌≤◌, [], Some, true, false, length, slice_get, IfOk, IfSome, OnOk, OnErr, option_map, IsTrue};
ghost use Rattle.lazy_rules.specs.Store.{new_store, has, noop_at, open_at, first_open, has_open, has_open_below, bytes_of, hold, extend, extend_cells, fill, open_to_noop, open_count, raise_stable, part, trim, cut, recut, recut_cells};
ghost use Rattle.shard_store.specs.Settling.{cells_of};
ghost use Rattle.shard_store.specs.Sound.{IsSound, is_open_at};

use crate::cutting::{cut_off, make_room};
use crate::drafts::draft_all;
use crate::entries::{entry_in, push_entry};
use crate::forecast::foresee_all;
use crate::held::Held;
use crate::kinds::Kind;
use crate::order::Order;
use crate::searching::{data_of, has_data};
use crate::settling::{append_all, copy_all, settle_all};
use plain_lists::Sequence;
use rec_id::{Body, Bytes, Cell, CellList, ItemList, PlacedList, RecordId};
use std::alloc::{AllocError, Global};
use std::marker::Model;
use view_config::Mode;

/// The order of all records with the data of the own ones, and data that has no place yet.
#[derive(Drop)]
pub struct ShardStore {
    mode: Mode,
    shard: u32,
    shards: u32,
    order: Order,
    held: Held,
    stable: u32,
    floor: u32,
}

impl Model for ShardStore {
    ghost use Rattle.lazy_rules.specs.Store.{Store};

    ghost Value = { Store };

    ghost use Rattle.shard_store.specs.Sound.{IsSound};

    ghost view = { λ s. record { mode = s.mode; shard = s.shard; shards = s.shards; order = s.order.cells; held = s.held.records; stable = s.stable; floor = s.floor } };

    ghost invariant = { λ s. IsSound (record { mode = s.mode; shard = s.shard; shards = s.shards; order = s.order.cells; held = s.held.records; stable = s.stable; floor = s.floor }) };
}

impl ShardStore {
    /// The empty store of shard `shard`, of so many.
    pub fn new(alloc: Global, mode: Mode, shard: u32, shards: u32) -> ShardStore
        requires { shard < shards }
        ensures { result ≡ new_store mode shard shards }
    {
        ShardStore {
            mode,
            shard,
            shards,
            order: Order::new(alloc),
            held: Held::new(alloc),
            stable: 0,
            floor: 0,
        }
    }

    /// How many cells the order has.
    pub fn len(&self) -> u32
        ensures len { result ≡ length self.now.order }
        ensures short { result < 2 ^ 32 }
        ensures sound { IsSound self.now }
    {
        // That `stable` fits 32 bits, as `sound` says, is known where it is read.
        let _stable = self.stable;
        self.order.len()
    }

    /// How many cells are final.
    pub fn stable(&self) -> u32
        ensures { result ≡ self.now.stable }
    {
        self.stable
    }

    /// Which shard's it is.
    pub fn shard(&self) -> u32
        ensures { result ≡ self.now.shard }
    {
        self.shard
    }

    /// Below which place data was given up.
    pub fn floor(&self) -> u32
        ensures { result ≡ self.now.floor }
    {
        self.floor
    }

    /// The cell at `place`.
    pub fn cell(&self, place: u32) -> &Cell
        requires { place < length self.now.order }
        ensures { slice_get self.now.order place ≡ Some result.now }
    {
        self.order.cell(place)
    }

    /// The data of the record is held, or kept, or was given up.
    pub fn has(&self, id: RecordId) -> bool
        ensures { result ≡ has self.now id }
    {
        has_data(&self.order, &self.held, id)
    }

    /// The first place of a no-op of the record.
    pub fn noop_at(&self, id: RecordId) -> Option<u32>
        ensures { result ≡ noop_at self.now id }
    {
        self.order.first(Kind::Noop, id)
    }

    /// The first place of an open cell of the record.
    pub fn open_at(&self, id: RecordId) -> Option<u32>
        ensures place { result ≡ open_at self.now id }
        ensures open_ { IfSome result (λ place. IsTrue (is_open_at self.now.order place)) }
    {
        self.order.first(Kind::Open, id)
    }

    /// The first open place.
    pub fn first_open(&self) -> Option<u32>
        ensures { result ≡ first_open self.now }
    {
        self.order.first_open()
    }

    /// The first open place but `place`, which is open.
    pub fn first_open_but(&self, place: u32) -> Option<u32>
        requires { IsTrue (is_open_at self.now.order place) }
        ensures { (bytes : List ℕ) → result ≡ first_open (fill self.now place bytes) }
    {
        self.order.first_open_but(place)
    }

    /// Some cell is open.
    pub fn has_open(&self) -> bool
        ensures { result ≡ has_open self.now }
    {
        self.order.first_open().is_some()
    }

    /// Some cell below `place` is open.
    pub fn has_open_below(&self, place: u32) -> bool
        ensures { result ≡ has_open_below self.now place }
    {
        match self.order.first_open() {
            Some(first) => first < place,
            None => false,
        }
    }

    /// The data of the record that is held, or else what its first kept cell has.
    pub fn bytes_of(&self, id: RecordId) -> Option<&Bytes>
        ensures { option_map (λ bytes. bytes.now) result ≡ bytes_of self.now id }
    {
        data_of(&self.order, &self.held, id)
    }

    /// Holds the data of a record that has none here.
    pub fn hold(&mut self, id: RecordId, bytes: Bytes) -> Result<(), AllocError>
        ensures ok { OnOk result (self.new ≡ hold self.old id bytes) }
        ensures err { OnErr result (self.new ≡ self.old) }
    {
        if has_data(&self.order, &self.held, id) {
            return Ok(());
        }
        self.held.reserve(1)?;
        self.held.push(id, bytes);
        Ok(())
    }

    /// Appends a cell for each item: a kept one where the place is the shard's and the data is in the
    /// item or held, an open one where it is the shard's and the data is missing.
    pub fn extend(&mut self, items: &ItemList) -> Result<(), AllocError>
        requires { length self.old.order + length items.now < 2 ^ 32 }
        ensures ok { OnOk result (self.new ≡ extend self.old items.now) }
        ensures err { OnErr result (self.new ≡ self.old) }
    {
        let from = self.order.len();
        let drafts = draft_all(
            self.held.allocator(),
            self.mode,
            self.shard,
            self.shards,
            from,
            items,
        )?;
        self.order.reserve(items.len())?;
        settle_all(&mut self.order, &mut self.held, drafts);
        Ok(())
    }

    /// Appends these cells as they are. What is held for a kept one is dropped.
    pub fn extend_cells(&mut self, cells: &CellList) -> Result<(), AllocError>
        requires { length self.old.order + length cells.now < 2 ^ 32 }
        ensures ok { OnOk result (self.new ≡ extend_cells self.old cells.now) }
        ensures err { OnErr result (self.new ≡ self.old) }
    {
        let copies = copy_all(self.held.allocator(), cells)?;
        self.order.reserve(cells.len())?;
        append_all(&mut self.order, &mut self.held, copies);
        Ok(())
    }

    /// Keeps the data of the open cell at `place`.
    pub fn fill(&mut self, place: u32, bytes: Bytes)
        requires { IsTrue (is_open_at self.old.order place) }
        ensures { self.new ≡ fill self.old place bytes }
    {
        self.order.close(place, Body::Kept(bytes));
    }

    /// Makes all open cells no-ops. How many these are is the result.
    pub fn open_to_noop(&mut self) -> u32
        ensures count { result ≡ open_count self.old }
        ensures store { self.new ≡ open_to_noop self.old }
    {
        self.order.close_all()
    }

    /// Makes the cells below `to` final.
    pub fn raise_stable(&mut self, to: u32)
        requires range { (self.old.stable ≤ to) × (to ≤ length self.old.order) }
        requires closed { has_open_below self.old to ≡ false }
        ensures { self.new ≡ raise_stable self.old to }
    {
        self.stable = to;
    }

    /// The places and entries of the kept cells and the no-ops of `[from, to)`.
    pub fn part(&self, from: u32, to: u32) -> Result<PlacedList, AllocError>
        requires from { self.now.floor ≤ from }
        requires to { to ≤ self.now.stable }
        ensures { IfOk result (λ made. made ≡ part self.now from to) }
    {
        let mut made = Sequence::new(self.held.allocator());
        for place in from..to {
            push_entry(&mut made, place, entry_in(self.order.cell(place))?)?;
        }
        Ok(made)
    }

    /// Gives up the kept data below `to`, or below the floor where that is greater.
    pub fn trim(&mut self, to: u32)
        requires { to ≤ self.old.stable }
        ensures { self.new ≡ trim self.old to }
    {
        if to <= self.floor {
            return;
        }
        self.order.give_up(self.floor, to);
        self.floor = to;
    }

    /// Cuts the order off at `from`. In Erwin-st the data of the cells that go is held again.
    pub fn cut(&mut self, from: u32) -> Result<(), AllocError>
        requires { (self.old.stable ≤ from) × (from ≤ length self.old.order) }
        ensures ok { OnOk result (self.new ≡ cut self.old from) }
        ensures err { OnErr result (self.new ≡ self.old) }
    {
        let mut tail = make_room(&self.order, &mut self.held, self.mode, from)?;
        cut_off(&mut self.order, &mut self.held, self.mode, from, &mut tail);
        Ok(())
    }

    /// Cuts the order off at `from`, and extends it by items, or does neither.
    pub fn recut(&mut self, from: u32, items: &ItemList) -> Result<(), AllocError>
        requires cut { (self.old.stable ≤ from) × (from ≤ length self.old.order) }
        requires short { from + length items.now < 2 ^ 32 }
        ensures ok { OnOk result (self.new ≡ recut self.old from items.now) }
        ensures err { OnErr result (self.new ≡ self.old) }
    {
        let drafts = draft_all(
            self.held.allocator(),
            self.mode,
            self.shard,
            self.shards,
            from,
            items,
        )?;
        self.order.reserve(items.len())?;
        let mut tail = make_room(&self.order, &mut self.held, self.mode, from)?;
        cut_off(&mut self.order, &mut self.held, self.mode, from, &mut tail);
        settle_all(&mut self.order, &mut self.held, drafts);
        Ok(())
    }

    /// Cuts the order off at `from`, and extends it by cells, or does neither.
    pub fn recut_cells(&mut self, from: u32, cells: &CellList) -> Result<(), AllocError>
        requires cut { (self.old.stable ≤ from) × (from ≤ length self.old.order) }
        requires short { from + length cells.now < 2 ^ 32 }
        ensures ok { OnOk result (self.new ≡ recut_cells self.old from cells.now) }
        ensures err { OnErr result (self.new ≡ self.old) }
    {
        let copies = copy_all(self.held.allocator(), cells)?;
        self.order.reserve(cells.len())?;
        let mut tail = make_room(&self.order, &mut self.held, self.mode, from)?;
        cut_off(&mut self.order, &mut self.held, self.mode, from, &mut tail);
        append_all(&mut self.order, &mut self.held, copies);
        Ok(())
    }

    /// The cells that the order would have from `from` on after `recut(from, items)`.
    pub fn cells_of(&self, from: u32, items: &ItemList) -> Result<CellList, AllocError>
        requires cut { (self.now.stable ≤ from) × (from ≤ length self.now.order) }
        requires short { from + length items.now < 2 ^ 32 }
        ensures { IfOk result (λ made. made ≡ cells_of self.now from items.now) }
    {
        let drafts = draft_all(
            self.held.allocator(),
            self.mode,
            self.shard,
            self.shards,
            from,
            items,
        )?;
        foresee_all(&self.order, &self.held, self.mode, from, drafts)
    }
}
