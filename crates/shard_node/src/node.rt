//! The replica: its state, and what it tells of itself.

ghost use Rattle.std.specs.Prelude.{◌≡◌, ◌<◌, IfOk};
ghost use Rattle.view_config.specs.Config.{first_copies};
ghost use Rattle.lazy_rules.specs.ShardState.{first_shard, first_backups};
ghost use Rattle.std.specs.List.{list_all};
ghost use Rattle.lazy_msgs.specs.Step.{StepsTo};
ghost use Rattle.lazy_rules.specs.Door.{has_client, is_config, is_node};
ghost use Rattle.lazy_rules.specs.Rows.{stays};
ghost use Rattle.lazy_rules.specs.ShardRules.{is_primary, is_backup};

use crate::door::{cells_have_clients, is_config, is_node, items_have_clients};
use crate::seat::{Backup, FlushJob, PlaceJob, Seat, backups_of, replicas_at};
use lazy_msgs::{Outbox, StepRefused};
use rec_id::{CellList, ItemList};
use shard_store::ShardStore;
use std::alloc::{AllocError, Global};
use std::marker::Model;
use view_config::{Config, Shape, shard_id};

/// A shard replica.
#[derive(Drop)]
pub struct ShardNode {
    pub(crate) seat: Seat,
    pub(crate) store: ShardStore,
    pub(crate) jobs: Vec<PlaceJob>,
    pub(crate) flush: Option<FlushJob>,
}

impl Model for ShardNode {
    ghost use Rattle.lazy_rules.specs.ShardState.{ShardState};
    ghost use Rattle.shard_node.specs.Seated.{seated};

    ghost Value = { ShardState };

    ghost view = { λ a. seated a.seat a.store a.jobs.items a.flush };
}

#[tactic(auto, using(crate::proofs::Stores::initial_replicas))]
/// The backups of replica `copy` of a shard at first: those of the first are all others.
fn first_backups(
    alloc: Global,
    shape: &Shape,
    shard: u32,
    copy: u32,
) -> Result<Vec<Backup>, AllocError>
    requires { shard < shape.now.shards }
    ensures { IfOk result (λ made. made.items ≡ first_backups (first_copies shape.now.copies shard) copy) }
{
    if copy != 0 {
        return Ok(Vec::new(alloc));
    }
    let config = Config::initial(alloc, shape)?;
    backups_of(alloc, replicas_at(&config, shard))
}

impl ShardNode {
    /// Replica `copy` of shard `shard` in view 1. Replica 0 is the primary.
    pub fn new(alloc: Global, shape: &Shape, shard: u32, copy: u32) -> Result<ShardNode, AllocError>
        requires shard { shard < shape.now.shards }
        requires copy { copy < shape.now.copies }
        ensures { IfOk result (λ made. made ≡ first_shard shape.now shard copy) }
    {
        Ok(ShardNode {
            seat: Seat {
                shape: *shape,
                node: shard_id(shard, copy),
                view: 1,
                primary: copy == 0,
                backups: first_backups(alloc, shape, shard, copy)?,
            },
            store: ShardStore::new(alloc, shape.mode, shard, shape.shards),
            jobs: Vec::new(alloc),
            flush: None,
        })
    }

    /// What it stores.
    pub fn store(&self) -> &ShardStore
        ensures { result.now ≡ self.now.store }
    {
        &self.store
    }

    /// The view that it is in.
    pub fn view(&self) -> u32
        ensures { result ≡ self.now.view }
    {
        self.seat.view
    }

    /// The shape has this node.
    pub(crate) fn knows(&self, node: u32) -> bool
        ensures { result ≡ is_node self.now.shape node }
    {
        is_node(&self.seat.shape, node)
    }

    /// The items name clients that the shape has.
    pub(crate) fn knows_items(&self, items: &ItemList) -> bool
        ensures { result ≡ list_all (λ item. has_client self.now.shape item.id) items.now }
    {
        items_have_clients(&self.seat.shape, items)
    }

    /// The cells name clients that the shape has.
    pub(crate) fn knows_cells(&self, cells: &CellList) -> bool
        ensures { result ≡ list_all (λ cell. has_client self.now.shape cell.id) cells.now }
    {
        cells_have_clients(&self.seat.shape, cells)
    }

    /// The configuration is one of the shape.
    pub(crate) fn knows_config(&self, config: &Config) -> bool
        ensures { result ≡ is_config self.now.shape config.now }
    {
        is_config(&self.seat.shape, config)
    }

    /// What meets no rule changes nothing.
    pub(crate) fn stays(&self, _out: &mut Outbox) -> Result<(), StepRefused>
        ensures { StepsTo (stays self.now) self.now self.now _out.old _out.new result StepRefused.Over }
    {
        Ok(())
    }

    pub(crate) fn allocator(&self) -> Global {
        *self.jobs.allocator()
    }

    /// It is the primary of this view.
    pub(crate) fn is_primary(&self, view: u32) -> bool
        ensures { result ≡ is_primary self.now view }
    {
        if !self.seat.primary {
            return false;
        }
        self.seat.view == view
    }

    /// It is a backup of this view.
    pub(crate) fn is_backup(&self, view: u32) -> bool
        ensures { result ≡ is_backup self.now view }
    {
        if self.seat.primary {
            return false;
        }
        self.seat.view == view
    }
}
