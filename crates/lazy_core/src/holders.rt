//! Who holds the log, and what each holder has of it.

ghost use Rattle.std.specs.Prelude.{◌≡◌, [], ◌∷◌, filter, IfOk};
ghost use Rattle.view_config.specs.Nodes.{taken_state};
ghost use Rattle.lazy_rules.specs.Holders.{holders, holding, holding_of, is_alive, member_holding, shared_holding};
ghost use Rattle.lazy_core.specs.Standing.{world_of_standing};

use crate::snapshot::Snapshot;
use plain_lists::Sequence;
use rec_id::ItemList;
use seq_node::SeqNode;
use std::alloc::{AllocError, Global};
use std::marker::Model;
use view_config::{CONTROLLER, Config, NodeList};

/// What a holder has: how many positions are bound, and the items that follow.
#[derive(Drop)]
pub(crate) struct Holding {
    pub(crate) bound: u32,
    pub(crate) items: ItemList,
}

impl Model for Holding {
    ghost use Rattle.lazy_rules.specs.Holders.{Holding as Held};

    ghost Value = { Held };

    ghost view = { λ a. record { bound = a.bound; items = a.items } };
}

/// The taken state alone.
fn taken_state(alloc: Global) -> Result<NodeList, AllocError>
    ensures { IfOk result (λ nodes. nodes ≡ taken_state ∷ []) }
{
    let mut holders = Sequence::new(alloc);
    holders.push(CONTROLLER)?;
    Ok(holders)
}

/// What a sequencing replica has itself.
fn own_holding(seq: &SeqNode) -> Result<Holding, AllocError>
    ensures { IfOk result (λ held. held ≡ record { bound = seq.now.bound; items = seq.now.pending }) }
{
    let pending = seq.pending();
    Ok(Holding {
        bound: seq.bound(),
        items: pending.front(pending.len())?,
    })
}

impl Snapshot {
    /// Those of these nodes that aren't crashed.
    fn alive(&self, nodes: &[u32]) -> Result<NodeList, AllocError>
        ensures { IfOk result (λ left. left ≡ filter (is_alive (world_of_standing self.now)) nodes.now) }
    {
        let mut left = Sequence::new(self.allocator());
        for node in nodes {
            if !self.is_crashed(*node) {
                left.push(*node)?;
            }
        }
        Ok(left)
    }

    /// The holders of the log: the sequencing replicas of the latest started view that aren't crashed, in its
    /// order; the taken state alone, while there is one.
    pub fn holders(&self) -> Result<NodeList, AllocError>
        ensures { IfOk result (λ nodes. nodes ≡ holders (world_of_standing self.now)) }
    {
        match self.control().started() {
            Some(config) => self.alive(config.seq.as_slice()),
            None => taken_state(self.allocator()),
        }
    }

    /// What a holder has that has nothing of its own.
    fn shared_holding(&self) -> Result<Holding, AllocError>
        ensures { IfOk result (λ held. held ≡ shared_holding (world_of_standing self.now).control) }
    {
        let items = match self.control().taken() {
            Some(items) => items.copy()?,
            None => Sequence::new(self.allocator()),
        };
        Ok(Holding {
            bound: self.control().base(),
            items,
        })
    }

    /// What a sequencing replica has as a member of a view: its own once it is in that view.
    fn member_holding(&self, seq: &SeqNode, view: u32) -> Result<Holding, AllocError>
        ensures { IfOk result (λ held. held ≡ member_holding (shared_holding (world_of_standing self.now).control) view seq.now) }
    {
        if seq.started_view() == view {
            own_holding(seq)
        } else {
            self.shared_holding()
        }
    }

    /// What a holder has as a member of this configuration.
    fn holding_in(&self, config: &Config, holder: u32) -> Result<Holding, AllocError>
        ensures { IfOk result (λ held. held ≡ holding_of (world_of_standing self.now) holder config.now) }
    {
        match self.seq(holder) {
            Some(seq) => self.member_holding(seq, config.view),
            None => self.shared_holding(),
        }
    }

    /// What a holder has.
    pub(crate) fn holding(&self, holder: u32) -> Result<Holding, AllocError>
        ensures { IfOk result (λ held. held ≡ holding (world_of_standing self.now) holder) }
    {
        match self.control().started() {
            Some(config) => self.holding_in(config, holder),
            None => self.shared_holding(),
        }
    }
}
