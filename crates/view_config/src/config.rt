//! Which replicas a view has.

ghost use Rattle.std.specs.Prelude.{◌≡◌, ◌<◌, ◌≤◌, IfOk};
ghost use Rattle.view_config.specs.Config.{initial_config, first_seqs, first_copies};

use crate::limits::{MAX_COPIES, MAX_SEQ, MAX_SHARDS};
use crate::{Shape, seq_id, shard_id};
use plain_lists::Sequence;
use std::alloc::{AllocError, Global};

/// Numbers of nodes.
pub type NodeList = Sequence<u32>;

/// For each shard its nodes.
pub type ShardList = Sequence<NodeList>;

/// A view's number, its sequencing replicas (the first is the leader), and for each shard its
/// replicas (the first is the primary).
#[derive(Drop)]
pub struct Config {
    pub view: u32,
    pub seq: NodeList,
    pub shards: ShardList,
}

impl Clone for Config {
    ghost is_clone = { λ a b. b ≡ a };

    fn clone(&self) -> Result<Self, AllocError> {
        Ok(Config {
            view: self.view,
            seq: self.seq.copy()?,
            shards: self.shards.copy()?,
        })
    }
}

#[tactic(auto, using(crate::proofs::Ranges::first_more))]
fn first_seqs(alloc: Global, count: u32) -> Result<NodeList, AllocError>
    requires { count ≤ MAX_SEQ }
    ensures { IfOk result (λ nodes. nodes ≡ first_seqs count) }
{
    let mut nodes = Sequence::new(alloc);
    for i in 0..count {
        nodes.push(seq_id(i))?;
    }
    Ok(nodes)
}

#[tactic(auto, using(crate::proofs::Ranges::first_more))]
fn first_copies(alloc: Global, shard: u32, copies: u32) -> Result<NodeList, AllocError>
    requires shard { shard < MAX_SHARDS }
    requires copies { copies ≤ MAX_COPIES }
    ensures { IfOk result (λ nodes. nodes ≡ first_copies copies shard) }
{
    let mut nodes = Sequence::new(alloc);
    for j in 0..copies {
        nodes.push(shard_id(shard, j))?;
    }
    Ok(nodes)
}

impl Config {
    /// The configuration of view 1: every replica but the spares.
    #[tactic(auto, using(crate::proofs::Ranges::first_more))]
    pub fn initial(alloc: Global, shape: &Shape) -> Result<Config, AllocError>
        ensures { IfOk result (λ config. config ≡ initial_config shape.now) }
    {
        let mut shards = Sequence::new(alloc);
        for shard in 0..shape.shards {
            shards.push(first_copies(alloc, shard, shape.copies)?)?;
        }
        Ok(Config {
            view: 1,
            seq: first_seqs(alloc, shape.seq)?,
            shards,
        })
    }

    /// An equal configuration.
    pub fn copy(&self) -> Result<Config, AllocError>
        ensures { IfOk result (λ made. made ≡ self.now) }
    {
        self.clone()
    }
}

#[cfg(test)]
mod tests {
    use super::*;
    use crate::{Mode, Shape};
    use std::test::Fail;

    #[test]
    fn initial_configurations(rt: HostRuntime) -> Result<(), Fail> {
        for (seq, spares, shards, copies, want_seq, want_shard) in [
            (2, 1, 1, 2, [257, 258].as_slice(), [264, 265].as_slice()),
            (1, 0, 1, 1, [257].as_slice(), [264].as_slice()),
        ] {
            let shape = Shape::new(Mode::M, seq, spares, shards, copies, 1).ok_or("a shape")?;
            let config = Config::initial(rt.alloc(), &shape)?.copy()?;
            assert_eq!(rt; config.view, 1);
            assert_eq!(rt; config.seq.as_slice(), want_seq);
            assert_eq!(rt; config.shards.len(), 1);
            assert_eq!(rt; config.shards.at(0).as_slice(), want_shard);
        }
        Ok(())
    }
}
