//! What the log is, as a holder has it: the bound places as the shards have them, each asked at its first replica
//! that isn't crashed, and then the items that the holder has itself.

ghost use Rattle.std.specs.Prelude.{◌≡◌, ◌≤◌, ◌++◌, ℕ, length, map, take, min, unwrap_or, IfOk, OnOk, [], option_copied};
ghost use Rattle.rec_id.specs.declared.entry.Entry.TheVariants.{Kept as KeptEntry};
ghost use Rattle.rec_id.specs.declared.item.Body.TheVariants.{Open};
ghost use Rattle.lazy_rules.specs.ControlState.{newest};
ghost use Rattle.lazy_rules.specs.Lines.{body_at, bound_entries, entry_of, entry_with, first_alive, item_entry, order_of, owner_of, store_of};
ghost use Rattle.lazy_rules.specs.Store.{Store};
ghost use Rattle.lazy_core.specs.declared.line.LineError.TheVariants.{Lost};
ghost use Rattle.lazy_core.specs.LinesOf.{FindsFirst, IsLawfulWhere, TellsLine, stores_at};
ghost use Rattle.lazy_core.specs.Standing.{world_of_standing};

use crate::snapshot::Snapshot;
use plain_lists::Sequence;
use rec_id::{Body, Bytes, Entry, Item, Line, RecordId, shard_of};
use shard_store::ShardStore;
use std::alloc::{AllocError, Global};
use view_config::{Mode, NodeList};

/// Why there is no line.
#[derive(Clone, Copy, Debug, PartialEq, Eq)]
pub enum LineError {
    /// This is the first shard of which no replica in the newest configuration is left.
    Lost(u32),
    Memory,
}

impl From<AllocError> for LineError {
    ghost use Rattle.lazy_core.specs.declared.line.LineError.{LineError};

    ghost from_gives = { λ _ e. e ≡ LineError.Memory };

    fn from(_e: AllocError) -> LineError {
        LineError::Memory
    }
}

/// Shard `shard` is lost. No memory holds more shards than there are numbers for them.
fn lost(shard: usize) -> LineError
    ensures { (number : ℕ) → result ≡ Lost number → number ≡ shard }
{
    if shard > u32::MAX as usize {
        return LineError::Memory;
    }
    LineError::Lost(shard as u32)
}

/// The entry of a bound place.
fn bound_entry(id: RecordId, body: Option<&Body>) -> Result<Entry, AllocError>
    ensures { IfOk result (λ entry. entry ≡ entry_of id (unwrap_or (option_copied body.entry) Open)) }
{
    match body {
        Some(Body::Kept(bytes)) => Ok(Entry::Kept(id, bytes.clone()?)),
        Some(Body::Gone) => Ok(Entry::Gone(id)),
        Some(Body::Elsewhere) | Some(Body::Noop) | Some(Body::Open) | None => Ok(Entry::Noop(id)),
    }
}

/// The entry of an item that has its bytes with it.
fn whole_entry(alloc: Global, item: &Item) -> Result<Entry, AllocError>
    ensures { IfOk result (λ entry. entry ≡ KeptEntry item.now.id (unwrap_or item.now.bytes [])) }
{
    match &item.bytes {
        Some(bytes) => Ok(Entry::Kept(item.id, bytes.clone()?)),
        None => Ok(Entry::Kept(item.id, Bytes::new(alloc))),
    }
}

/// The entry of a record with this data.
fn entry_with(id: RecordId, bytes: Option<&Bytes>) -> Result<Entry, AllocError>
    ensures { IfOk result (λ entry. entry ≡ entry_with id (option_copied bytes.entry)) }
{
    match bytes {
        Some(bytes) => Ok(Entry::Kept(id, bytes.clone()?)),
        None => Ok(Entry::Noop(id)),
    }
}

impl Snapshot {
    /// The first of these nodes that isn't crashed.
    fn first_alive(&self, nodes: &[u32]) -> Option<u32>
        ensures { result ≡ first_alive (world_of_standing self.now) nodes.now }
    {
        for node in nodes {
            if !self.is_crashed(*node) {
                return Some(*node);
            }
        }
        None
    }

    /// The replicas of each shard in the newest configuration.
    fn newest_shards(&self) -> &[NodeList]
        ensures { result.now ≡ (newest (world_of_standing self.now).control).shards }
    {
        self.control().newest().shards.as_slice()
    }

    /// The first replica of each shard, in order, or the first shard that has none.
    fn first_replicas(&self) -> Result<NodeList, LineError>
        ensures { FindsFirst (world_of_standing self.now) result }
    {
        let mut first = Sequence::new(self.allocator());
        let shards = self.newest_shards();
        for shard in 0..shards.len() {
            match self.first_alive(shards[shard].as_slice()) {
                Some(node) => first.push(node)?,
                None => return Err(lost(shard)),
            }
        }
        Ok(first)
    }

    /// What a shard's first replica stores.
    fn store_of(&self, first: &NodeList, shard: u32) -> Option<&ShardStore>
        ensures { option_copied result ≡ store_of (stores_at (world_of_standing self.now) first.now) shard }
    {
        if shard as usize >= first.len() {
            return None;
        }
        self.store(*first.at(shard as usize))
    }

    /// The shard that a place belongs to: by its number where records go whole, else by its record.
    fn owner_of(&self, place: u32, id: RecordId) -> u32
        ensures { result ≡ owner_of self.now.shape place id }
    {
        match self.shape.mode {
            Mode::M => place % self.shape.shards,
            Mode::St => shard_of(id, self.shape.shards),
        }
    }

    /// The body that a place's own shard has.
    fn body_at(&self, first: &NodeList, place: u32, id: RecordId) -> Option<&Body>
        ensures { unwrap_or (option_copied result) Open ≡ body_at (stores_at (world_of_standing self.now) first.now) (owner_of self.now.shape place id) place }
    {
        let store = self.store_of(first, self.owner_of(place, id))?;
        if place < store.len() {
            Some(&store.cell(place).body)
        } else {
            None
        }
    }

    /// The entries of the first `bound` places, as the first shard orders them.
    fn bound_entries(&self, first: &NodeList, bound: u32) -> Result<Line, AllocError>
        ensures { IfOk result (λ line. line ≡ bound_entries self.now.shape (stores_at (world_of_standing self.now) first.now) 0 (take bound (order_of (stores_at (world_of_standing self.now) first.now) 0))) }
    {
        let mut line = Sequence::new(self.allocator());
        let Some(store) = self.store_of(first, 0) else {
            return Ok(line);
        };
        for place in 0..bound.min(store.len()) {
            let id = store.cell(place).id;
            line.push(bound_entry(id, self.body_at(first, place, id))?)?;
        }
        Ok(line)
    }

    /// The entry of an item that isn't bound: its own bytes where records go whole, else its shard's data.
    fn item_entry(&self, first: &NodeList, item: &Item) -> Result<Entry, AllocError>
        ensures { IfOk result (λ entry. entry ≡ item_entry self.now.shape (stores_at (world_of_standing self.now) first.now) item.now) }
    {
        match self.shape.mode {
            Mode::M => whole_entry(self.allocator(), item),
            Mode::St => {
                let shard = shard_of(item.id, self.shape.shards);
                match self.store_of(first, shard) {
                    Some(store) => entry_with(item.id, store.bytes_of(item.id)),
                    None => Ok(Entry::Noop(item.id)),
                }
            }
        }
    }

    /// Adds the entries of items that aren't bound.
    fn add_items(&self, first: &NodeList, items: &[Item], line: &mut Line) -> Result<(), AllocError>
        ensures { OnOk result (line.new ≡ line.old ++ map (item_entry self.now.shape (stores_at (world_of_standing self.now) first.now)) items.now) }
    {
        for item in items {
            line.push(self.item_entry(first, item)?)?;
        }
        Ok(())
    }

    /// The log, as this holder has it, whatever led to these states.
    fn line_of(&self, holder: u32) -> Result<Line, LineError>
        ensures { TellsLine (world_of_standing self.now) holder result }
    {
        let first = self.first_replicas()?;
        let held = self.holding(holder)?;
        let mut line = self.bound_entries(&first, held.bound)?;
        self.add_items(&first, held.items.as_slice(), &mut line)?;
        Ok(line)
    }

    /// The log, as this holder has it; `Lost` where a shard has no replica left.
    pub fn line(&self, holder: u32) -> Result<Line, LineError>
        ensures told { TellsLine (world_of_standing self.now) holder result }
        ensures lawful { IsLawfulWhere (world_of_standing self.now) holder result }
    {
        self.line_of(holder)
    }
}
