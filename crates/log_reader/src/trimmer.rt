//! A trim: which shard replicas gave up their bytes.

ghost use Rattle.std.specs.Prelude.{◌≡◌, [], IfOk};
ghost use Rattle.std.specs.List.{list_all};
ghost use Rattle.lazy_rules.specs.ReaderRules.{acked_trim};
ghost use Rattle.lazy_rules.specs.Roles.{replicas_of};
ghost use Rattle.lazy_rules.specs.Rows.{has_node};
ghost use Rattle.log_reader.specs.Rounds.{trims_lacking};

use crate::nodes::{have_all, lacking, replicas, with_node};
use crate::sends::trims;
use lazy_msgs::SendList;
use plain_lists::Sequence;
use std::alloc::{AllocError, Global};
use std::marker::Model;
use view_config::{Config, NodeList};

/// A trim: its number, the floor, and the shard replicas that acknowledged it.
#[derive(Drop)]
pub(crate) struct Trimmer {
    pub(crate) number: u32,
    pub(crate) floor: u32,
    pub(crate) acked: NodeList,
}

impl Model for Trimmer {
    ghost use Rattle.lazy_rules.specs.ReaderState.{Trimmer as Trims};

    ghost Value = { Trims };

    ghost view = { λ a. record { number = a.number; floor = a.floor; acked = a.acked } };
}

impl Trimmer {
    /// Nobody acknowledged.
    pub(crate) fn new(alloc: Global, number: u32, floor: u32) -> Trimmer
        ensures { result ≡ record { number = number; floor = floor; acked = [] } }
    {
        Trimmer {
            number,
            floor,
            acked: Sequence::new(alloc),
        }
    }

    /// An equal trim.
    pub(crate) fn copy(&self) -> Result<Trimmer, AllocError>
        ensures { IfOk result (λ made. made ≡ self.now) }
    {
        Ok(Trimmer {
            number: self.number,
            floor: self.floor,
            acked: self.acked.copy()?,
        })
    }

    /// The trim with one more node that acknowledged, each once.
    pub(crate) fn acked_by(&self, node: u32) -> Result<Trimmer, AllocError>
        ensures { IfOk result (λ made. made ≡ acked_trim self.now node) }
    {
        Ok(Trimmer {
            number: self.number,
            floor: self.floor,
            acked: with_node(&self.acked, node)?,
        })
    }
    /// All shard replicas of this configuration acknowledged.
    pub(crate) fn is_complete(&self, alloc: Global, config: &Config) -> Result<bool, AllocError>
        ensures { IfOk result (λ complete. complete ≡ list_all (has_node self.now.acked) (replicas_of config.now)) }
    {
        let replicas = replicas(alloc, config)?;
        Ok(have_all(replicas.as_slice(), self.acked.as_slice()))
    }

    /// The trim for the replicas of this configuration that haven't acknowledged it.
    pub(crate) fn sends(&self, alloc: Global, config: &Config) -> Result<SendList, AllocError>
        ensures { IfOk result (λ sends. sends ≡ trims_lacking config.now self.now) }
    {
        let replicas = replicas(alloc, config)?;
        let waiting = lacking(alloc, replicas.as_slice(), self.acked.as_slice())?;
        trims(alloc, waiting.as_slice(), self.number, self.floor)
    }
}
