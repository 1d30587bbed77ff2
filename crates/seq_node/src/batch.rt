//! A batch as the shards and the followers are given it.

ghost use Rattle.std.specs.Prelude.{◌≡◌, ℕ, ◌+◌, ◌-◌, ◌++◌, ◌∷◌, [], ◌≤◌, ◌<◌, length, slice_get, Some, IfOk};
ghost use Rattle.lazy_msgs.specs.declared.msg.Msg.TheVariants.{Order};
ghost use Rattle.lazy_rules.specs.Ids.{ids_of};
ghost use Rattle.lazy_rules.specs.Items.{bytes_for, items_for};
ghost use Rattle.lazy_rules.specs.Roles.{followers_of, replicas_at};
ghost use Rattle.seq_node.specs.Batches.{IsWithin, items_at, place_at};

use crate::SeqNode;
use lazy_msgs::{Msg, SendList};
use plain_lists::Sequence;
use rec_id::{Bytes, IdList, Item, ItemList, copy_optional};
use std::alloc::AllocError;
use view_config::{Mode, Shape};

/// The bytes of a record at this place, as the shard is given them: only where records go whole, and only
/// to the shard that the place belongs to.
fn bytes_for(
    shape: &Shape,
    shard: u32,
    place: u32,
    bytes: &Option<Bytes>,
) -> Result<Option<Bytes>, AllocError>
    ensures { IfOk result (λ made. made ≡ bytes_for shape.now shard place bytes.now) }
{
    match shape.mode {
        Mode::M => {}
        Mode::St => return Ok(None),
    }
    if place % shape.shards != shard {
        return Ok(None);
    }
    copy_optional(bytes)
}

impl SeqNode {
    /// The item at position `from + i`.
    fn pending_at(&self, from: u32, i: u32) -> &Item
        requires begins { self.now.bound ≤ from }
        requires there { from + i < self.now.bound + length self.now.pending }
        ensures { slice_get self.now.pending (from - self.now.bound + i) ≡ Some result.now }
    {
        self.pending.item((from - self.bound) as usize + i as usize)
    }

    /// The `count` items from position `from` on, as the shard is given them.
    fn items_for(&self, shard: u32, from: u32, count: u32) -> Result<ItemList, AllocError>
        requires { IsWithin self.now from count }
        ensures { IfOk result (λ made. made ≡ items_for self.now.shape shard from (items_at self.now from count)) }
    {
        let mut items = Vec::with_capacity(self.alloc, count as usize)?;
        for i in 0..count {
            let item = self.pending_at(from, i);
            let bytes = bytes_for(&self.shape, shard, from + i, &item.bytes)?;
            items.push(Item { id: item.id, bytes })?;
        }
        Ok(Sequence::from_vec(items))
    }

    /// The `count` identities from position `from` on.
    fn ids_in(&self, from: u32, count: u32) -> Result<IdList, AllocError>
        requires { IsWithin self.now from count }
        ensures { IfOk result (λ made. made ≡ ids_of (items_at self.now from count)) }
    {
        let mut ids = Vec::with_capacity(self.alloc, count as usize)?;
        for i in 0..count {
            ids.push(self.pending_at(from, i).id)?;
        }
        Ok(Sequence::from_vec(ids))
    }

    /// Gives the batch to the shard's primary.
    pub(crate) fn add_place(
        &self,
        shard: u32,
        from: u32,
        count: u32,
        sends: &mut SendList,
    ) -> Result<(), AllocError>
        requires within { IsWithin self.now from count }
        requires there { shard < length self.now.config.shards }
        ensures { IfOk result (λ _. sends.new ≡ sends.old ++ place_at self.now from count shard (replicas_at self.now.config shard)) }
    {
        let view = self.view;
        if let Some(primary) = self.config.shards.at(shard as usize).as_slice().first() {
            let items = self.items_for(shard, from, count)?;
            sends.push((*primary, Msg::Place { view, from, items }))?;
        }
        Ok(())
    }

    /// Gives the batch to follower `i`.
    pub(crate) fn add_order(
        &self,
        i: u32,
        from: u32,
        count: u32,
        sends: &mut SendList,
    ) -> Result<(), AllocError>
        requires within { IsWithin self.now from count }
        requires there { i < length (followers_of self.now.config) }
        ensures { (follower : ℕ) → slice_get (followers_of self.now.config) i ≡ Some follower → IfOk result (λ _. sends.new ≡ sends.old ++ (follower, Order self.now.view from (ids_of (items_at self.now from count))) ∷ []) }
    {
        let view = self.view;
        let follower = *self.config.seq.at(i as usize + 1);
        let ids = self.ids_in(from, count)?;
        sends.push((follower, Msg::Order { view, from, ids }))?;
        Ok(())
    }

    /// How many shards the view has.
    pub(crate) fn shards(&self) -> u32
        ensures { result ≡ length self.now.config.shards }
    {
        self.binder.shards()
    }

    /// How many followers the view has.
    pub(crate) fn followers(&self) -> u32
        ensures { result ≡ length (followers_of self.now.config) }
    {
        self.binder.followers()
    }
}
