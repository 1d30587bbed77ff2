//! The next configuration, without the nodes that are suspected to have failed.

ghost use Rattle.std.specs.Prelude.{◌≡◌, ◌≢◌, ◌≤◌, ◌-◌, ◌^◌, min, ◌++◌, length, take, map, position, ◌==◌, Option, Some, None, Err, IsTrue, IfOk, IfErr, OnOk};
ghost use Rattle.view_config.specs.declared.without.ConfigError.{ConfigError};
ghost use Rattle.view_config.specs.Without.{is_among, all_suspected, unsuspected, replaced, without, without_refusal, as_index};

use crate::{Config, NodeList, ShardList};
use plain_lists::Sequence;
use std::alloc::{AllocError, Global};

/// Why there is no next configuration.
#[derive(Clone, Copy, Debug, PartialEq, Eq)]
pub enum ConfigError {
    /// No sequencing replica would be left.
    LastSeq,
    /// No replica of this shard would be left; it is the first such one.
    LastOfShard(u32),
    /// The view is the last that has a number, 2^32 - 1.
    ViewsSpent,
    Memory,
}

impl From<AllocError> for ConfigError {
    ghost use Rattle.view_config.specs.declared.without.ConfigError.{ConfigError};

    ghost from_gives = { λ _ e. e ≡ ConfigError.Memory };

    fn from(_e: AllocError) -> ConfigError {
        ConfigError::Memory
    }
}

/// An index as a number of 32 bits; lists of a shape have at most 8 members.
pub(crate) fn as_index(i: usize) -> u32
    ensures { result ≡ as_index i }
{
    if i < 0xffff_ffff {
        i as u32
    } else {
        0xffff_ffff
    }
}

pub(crate) fn is_among(nodes: &[u32], node: u32) -> bool
    ensures { result ≡ is_among nodes.now node }
{
    nodes.iter().any(|other| *other == node)
}

fn all_suspected(nodes: &[u32], suspects: &[u32]) -> bool
    ensures { result ≡ all_suspected suspects.now nodes.now }
{
    nodes.iter().all(|node| is_among(suspects, *node))
}

/// The first shard that has no replica but suspects.
fn first_emptied(shards: &ShardList, suspects: &[u32]) -> Option<usize>
    ensures { result ≡ position (all_suspected suspects.now) shards.now }
{
    shards
        .as_slice()
        .iter()
        .position(|nodes| all_suspected(nodes.as_slice(), suspects))
}

/// The first nodes that aren't suspected, at most `limit` of them.
fn first_unsuspected(
    alloc: Global,
    nodes: &[u32],
    suspects: &[u32],
    limit: usize,
) -> Result<NodeList, AllocError>
    ensures { IfOk result (λ kept. kept ≡ take limit (unsuspected suspects.now nodes.now)) }
{
    let mut kept = Sequence::new(alloc);
    for node in nodes {
        if kept.len() == limit {
            return Ok(kept);
        }
        if !is_among(suspects, *node) {
            kept.push(*node)?;
        }
    }
    Ok(kept)
}

#[tactic(auto, using(crate::proofs::Kept::all_kept))]
fn unsuspected(alloc: Global, nodes: &NodeList, suspects: &[u32]) -> Result<NodeList, AllocError>
    ensures { IfOk result (λ kept. kept ≡ unsuspected suspects.now nodes.now) }
{
    first_unsuspected(alloc, nodes.as_slice(), suspects, nodes.len())
}

#[tactic(auto, using(crate::proofs::Kept::filled, crate::proofs::Kept::fewer))]
fn replaced(
    alloc: Global,
    nodes: &NodeList,
    suspects: &[u32],
    spares: &[u32],
) -> Result<NodeList, AllocError>
    ensures { IfOk result (λ kept. kept ≡ replaced suspects.now spares.now nodes.now) }
{
    let mut kept = unsuspected(alloc, nodes, suspects)?;
    let free = nodes.len() - kept.len();
    kept.append(first_unsuspected(alloc, spares, suspects, free)?)?;
    Ok(kept)
}

/// No sequencing replica would be left.
#[tactic(auto, using(crate::proofs::Kept::leaves_some, crate::proofs::Kept::leaves_spares))]
fn leaves_none(nodes: &NodeList, suspects: &[u32], spares: &[u32]) -> bool
    ensures { result ≡ (length (replaced suspects.now spares.now nodes.now) == 0) }
{
    nodes.len() == 0
        || (all_suspected(nodes.as_slice(), suspects) && all_suspected(spares, suspects))
}

fn shards_without(
    alloc: Global,
    shards: &ShardList,
    suspects: &[u32],
) -> Result<ShardList, AllocError>
    ensures { IfOk result (λ kept. kept ≡ map (unsuspected suspects.now) shards.now) }
{
    let mut kept = Sequence::new(alloc);
    for nodes in shards.as_slice() {
        kept.push(unsuspected(alloc, nodes, suspects)?)?;
    }
    Ok(kept)
}

impl Config {
    /// The configuration of the next view. The sequencing list keeps its members that aren't
    /// suspected in their order, and behind them come spares that aren't, in their order, until it
    /// has its old length or no spare is left. Each shard keeps its replicas that aren't suspected.
    ///
    /// Refused in this order: `LastSeq` where no sequencing replica would be left, `LastOfShard` of
    /// the first shard that would have no replica left, `ViewsSpent` where the view is 2^32 - 1.
    pub fn without(
        &self,
        alloc: Global,
        suspects: &[u32],
        spares: &[u32],
    ) -> Result<Config, ConfigError>
        ensures made { IfOk result (λ made. made ≡ without self.now suspects.now spares.now) }
        ensures refused { (e : ConfigError) → without_refusal self.now suspects.now spares.now ≡ Some e → result ≡ Err e }
        ensures cause { IfErr result (λ e. e ≢ ConfigError.Memory → without_refusal self.now suspects.now spares.now ≡ Some e) }
    {
        if leaves_none(&self.seq, suspects, spares) {
            return Err(ConfigError::LastSeq);
        }
        if let Some(shard) = first_emptied(&self.shards, suspects) {
            return Err(ConfigError::LastOfShard(as_index(shard)));
        }
        if self.view == 0xffff_ffff {
            return Err(ConfigError::ViewsSpent);
        }
        Ok(Config {
            view: self.view + 1,
            seq: replaced(alloc, &self.seq, suspects, spares)?,
            shards: shards_without(alloc, &self.shards, suspects)?,
        })
    }
}

#[cfg(test)]
mod tests {
    use super::*;
    use crate::{Mode, Role, Shape};
    use std::test::Fail;

    fn initial(alloc: Global) -> Result<Config, Fail> {
        let shape = Shape::new(Mode::M, 2, 1, 1, 2, 1).ok_or("a shape")?;
        Ok(Config::initial(alloc, &shape)?)
    }

    #[test]
    fn replaces_suspects(rt: HostRuntime) -> Result<(), Fail> {
        let config = initial(rt.alloc())?;
        for (suspects, spares, want_seq, want_shard) in [
            (
                [257].as_slice(),
                [259].as_slice(),
                [258, 259].as_slice(),
                [264, 265].as_slice(),
            ),
            (
                [257].as_slice(),
                [].as_slice(),
                [258].as_slice(),
                [264, 265].as_slice(),
            ),
            (
                [258, 259].as_slice(),
                [259].as_slice(),
                [257].as_slice(),
                [264, 265].as_slice(),
            ),
            (
                [257, 258].as_slice(),
                [259, 260, 261].as_slice(),
                [259, 260].as_slice(),
                [264, 265].as_slice(),
            ),
            (
                [264].as_slice(),
                [259].as_slice(),
                [257, 258].as_slice(),
                [265].as_slice(),
            ),
            (
                [].as_slice(),
                [259].as_slice(),
                [257, 258].as_slice(),
                [264, 265].as_slice(),
            ),
        ] {
            let next = config.without(rt.alloc(), suspects, spares)?;
            assert_eq!(rt; next.view, 2);
            assert_eq!(rt; next.seq.as_slice(), want_seq);
            assert_eq!(rt; next.shards.len(), 1);
            assert_eq!(rt; next.shards.at(0).as_slice(), want_shard);
        }
        Ok(())
    }

    #[test]
    fn refuses_in_order(rt: HostRuntime) -> Result<(), Fail> {
        let mut config = initial(rt.alloc())?;
        config.view = 0xffff_ffff;
        for (suspects, spares, want) in [
            ([257, 258].as_slice(), [].as_slice(), ConfigError::LastSeq),
            (
                [257, 258, 264, 265].as_slice(),
                [].as_slice(),
                ConfigError::LastSeq,
            ),
            (
                [257, 264, 265].as_slice(),
                [].as_slice(),
                ConfigError::LastOfShard(0),
            ),
            ([257].as_slice(), [259].as_slice(), ConfigError::ViewsSpent),
        ] {
            assert_eq!(rt;
                config.without(rt.alloc(), suspects, spares).err(),
                Some(want)
            );
        }
        Ok(())
    }

    #[test]
    fn tells_roles(rt: HostRuntime) -> Result<(), Fail> {
        let config = initial(rt.alloc())?;
        for (node, want) in [
            (257, Role::Leader),
            (258, Role::Follower(1)),
            (259, Role::Outside),
            (264, Role::Primary(0)),
            (265, Role::Backup(0, 1)),
            (0, Role::Outside),
        ] {
            assert_eq!(rt; config.role_of(node), want);
        }
        Ok(())
    }
}
