//! What is sent in a flush: to the primary of each shard the whole order of the taken state from its
//! bound position on, and the bytes of the shard's own places alone.

ghost use Rattle.std.specs.Prelude.{◌≡◌, ◌+◌, ◌%◌, ◌==◌, ◌&&◌, ◌++◌, IfOk, OnOk};
ghost use Rattle.lazy_msgs.specs.declared.msg.Msg.TheVariants.{Flush};
ghost use Rattle.lazy_rules.specs.ControlRules.{flush_again_to};
ghost use Rattle.lazy_rules.specs.Items.{bytes_for, is_whole, items_for};
ghost use Rattle.lazy_rules.specs.Rows.{each_numbered};
ghost use Rattle.view_ctl.specs.Flushes.{to_flush};

use crate::controller::Controller;
use lazy_msgs::{Msg, SendList};
use plain_lists::Sequence;
use rec_id::{Item, ItemList};
use std::alloc::{AllocError, Global};
use view_config::{Config, Mode, NodeList, Shape};

/// The shard gets the bytes of the record at this place.
fn gets_bytes(shape: &Shape, shard: usize, place: u64) -> bool
    ensures { result ≡ (is_whole shape.now.mode && (place % shape.now.shards == shard)) }
{
    match shape.mode {
        Mode::M => place % u64::from(shape.shards) == shard as u64,
        Mode::St => false,
    }
}

/// The item at this place, as the shard is given it.
fn item_for(shape: &Shape, shard: usize, place: u64, item: &Item) -> Result<Item, AllocError>
    ensures { IfOk result (λ made. made ≡ record { id = item.now.id; bytes = bytes_for shape.now shard place item.now.bytes }) }
{
    if gets_bytes(shape, shard, place) {
        return item.copy();
    }
    Ok(Item {
        id: item.id,
        bytes: None,
    })
}

/// The items from place `from` on, as the shard is given them.
#[tactic(auto, using(crate::proofs::Flushes::items_more))]
fn items_for(
    alloc: Global,
    shape: &Shape,
    shard: usize,
    from: u32,
    items: &ItemList,
) -> Result<ItemList, AllocError>
    ensures { IfOk result (λ made. made ≡ items_for shape.now shard from items.now) }
{
    let count = items.as_slice().len();
    let mut made = Vec::with_capacity(alloc, count)?;
    for i in 0..count {
        let place = u64::from(from) + i as u64;
        made.push(item_for(shape, shard, place, items.at(i))?)?;
    }
    Ok(Sequence::from_vec(made))
}

impl Controller {
    /// What the shard's primary is sent.
    fn flush(
        &self,
        shard: usize,
        config: &Config,
        from: u32,
        items: &ItemList,
    ) -> Result<Msg, AllocError>
        ensures { IfOk result (λ made. made ≡ Flush config.now from (items_for self.now.shape shard from items.now)) }
    {
        Ok(Msg::Flush {
            config: config.copy()?,
            from,
            items: items_for(self.alloc, &self.shape, shard, from, items)?,
        })
    }

    /// Adds what is sent for one shard, unless it has answered.
    fn add_flush(
        &self,
        sends: &mut SendList,
        shard: usize,
        nodes: &NodeList,
        config: &Config,
        from: u32,
        items: &ItemList,
        answered: &[usize],
    ) -> Result<(), AllocError>
        ensures { OnOk result (sends.new ≡ sends.old ++ flush_again_to self.now (to_flush config.now from items.now answered.now) shard nodes.now) }
    {
        if answered.contains(&shard) {
            return Ok(());
        }
        match nodes.as_slice().first() {
            Some(primary) => sends.push((*primary, self.flush(shard, config, from, items)?)),
            None => Ok(()),
        }
    }

    #[tactic(auto, using(crate::proofs::Flushes::each_more))]
    /// The flush of these items, which begin at `from`, to the primary of each shard of `config` that
    /// hasn't answered.
    pub(crate) fn flushes(
        &self,
        config: &Config,
        from: u32,
        items: &ItemList,
        answered: &[usize],
    ) -> Result<SendList, AllocError>
        ensures { IfOk result (λ made. made ≡ each_numbered (flush_again_to self.now (to_flush config.now from items.now answered.now)) 0 config.now.shards) }
    {
        let mut sends = Sequence::new(self.alloc);
        for shard in 0..config.shards.len() {
            let nodes = config.shards.at(shard);
            self.add_flush(&mut sends, shard, nodes, config, from, items, answered)?;
        }
        Ok(sends)
    }
}
