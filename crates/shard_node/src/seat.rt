//! Which part a replica has in its view, and what a primary is at.

ghost use Rattle.std.specs.Prelude.{◌≡◌, ◌==◌, if◌then◌else◌, map, IfOk};
ghost use Rattle.lazy_rules.specs.Pushing.{reaches};
ghost use Rattle.lazy_rules.specs.ShardState.{backups_of, new_backup};
ghost use Rattle.lazy_rules.specs.ShardRules.{raised, raised_of};
ghost use Rattle.lazy_rules.specs.Roles.{is_first, replicas_at};

use std::alloc::{AllocError, Global};
use std::marker::Model;
use view_config::{Config, Shape};

/// A backup of a primary, and how far it is known to have the order in the primary's view.
#[derive(Clone, Copy, Debug, PartialEq, Eq)]
pub(crate) struct Backup {
    pub(crate) node: u32,
    pub(crate) copied: Option<u32>,
}

impl Model for Backup {
    ghost use Rattle.lazy_rules.specs.ShardState.{Backup as Follower};

    ghost Value = { Follower };

    ghost view = { λ a. record { node = a.node; copied = a.copied } };

    ghost inverse = { λ a. record { node = a.node; copied = a.copied } };
}

/// A batch that a primary is placing: where it begins and ends, and which node awaits the answer.
#[derive(Clone, Copy, Debug, PartialEq, Eq)]
pub(crate) struct PlaceJob {
    pub(crate) from: u32,
    pub(crate) end: u32,
    pub(crate) asker: u32,
}

impl Model for PlaceJob {
    ghost use Rattle.lazy_rules.specs.ShardState.{PlaceJob as Placing};

    ghost Value = { Placing };

    ghost view = { λ a. record { from = a.from; end = a.end; asker = a.asker } };

    ghost inverse = { λ a. record { from = a.from; end = a.end; asker = a.asker } };
}

/// A flush that a primary is at: where it begins, and which node awaits the answer.
#[derive(Clone, Copy, Debug, PartialEq, Eq)]
pub(crate) struct FlushJob {
    pub(crate) from: u32,
    pub(crate) asker: u32,
}

impl Model for FlushJob {
    ghost use Rattle.lazy_rules.specs.ShardState.{FlushJob as Flushing};

    ghost Value = { Flushing };

    ghost view = { λ a. record { from = a.from; asker = a.asker } };

    ghost inverse = { λ a. record { from = a.from; asker = a.asker } };
}

/// The part of a replica in its view. Only a primary has backups.
#[derive(Drop)]
pub(crate) struct Seat {
    pub(crate) shape: Shape,
    pub(crate) node: u32,
    pub(crate) view: u32,
    pub(crate) primary: bool,
    pub(crate) backups: Vec<Backup>,
}

impl Model for Seat {
    ghost use Rattle.shard_node.specs.Seated.{Part};

    ghost Value = { Part };

    ghost view = { λ a. record { shape = a.shape; node = a.node; view = a.view; primary = a.primary; backups = a.backups.items } };
}

impl Backup {
    /// It is known to have the order up to `upto`.
    pub(crate) fn reaches(&self, upto: u32) -> bool
        ensures { result ≡ reaches upto self.now }
    {
        match self.copied {
            Some(copied) => upto <= copied,
            None => false,
        }
    }

    /// The backup, known to have the order up to `upto`.
    fn raised(&self, upto: u32) -> Backup
        ensures { result ≡ raised upto self.now }
    {
        let copied = match self.copied {
            Some(copied) => copied.max(upto),
            None => upto,
        };
        Backup {
            node: self.node,
            copied: Some(copied),
        }
    }
}

/// The backup, which has the order up to `upto` if it is the one with this number.
fn raised_where(node: u32, upto: u32, backup: &Backup) -> Backup
    ensures { result ≡ (if backup.now.node == node then raised upto backup.now else backup.now) }
{
    if backup.node == node {
        return backup.raised(upto);
    }
    *backup
}

/// The backups, of which the one with this number has the order up to `upto`.
pub(crate) fn raised_of(
    alloc: Global,
    node: u32,
    upto: u32,
    backups: &[Backup],
) -> Result<Vec<Backup>, AllocError>
    ensures { IfOk result (λ made. made.items ≡ raised_of node upto backups.now) }
{
    let mut made = Vec::new(alloc);
    for backup in backups {
        made.push(raised_where(node, upto, backup))?;
    }
    Ok(made)
}

/// The backups among the replicas of a shard: all but the first.
pub(crate) fn backups_of(alloc: Global, nodes: &[u32]) -> Result<Vec<Backup>, AllocError>
    ensures { IfOk result (λ made. made.items ≡ backups_of nodes.now) }
{
    match nodes.split_first() {
        Some((_, others)) => new_backups(alloc, others),
        None => Ok(Vec::new(alloc)),
    }
}

/// Backups of which nothing is known.
fn new_backups(alloc: Global, nodes: &[u32]) -> Result<Vec<Backup>, AllocError>
    ensures { IfOk result (λ made. made.items ≡ map new_backup nodes.now) }
{
    let mut made = Vec::new(alloc);
    for node in nodes {
        made.push(Backup {
            node: *node,
            copied: None,
        })?;
    }
    Ok(made)
}

/// The replicas of a shard.
pub(crate) fn replicas_at(config: &Config, shard: u32) -> &[u32]
    ensures { result.now ≡ replicas_at config.now shard }
{
    let shard = shard as usize;
    if shard < config.shards.len() {
        config.shards.at(shard).as_slice()
    } else {
        &[]
    }
}

/// The node is the first of these.
pub(crate) fn is_first(nodes: &[u32], node: u32) -> bool
    ensures { result ≡ is_first nodes.now node }
{
    match nodes.first() {
        Some(first) => *first == node,
        None => false,
    }
}
