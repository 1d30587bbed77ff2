//! What a node does in a configuration.

ghost use Rattle.std.specs.Prelude.{◌≡◌, position};
ghost use Rattle.view_config.specs.Role.{place_among, role_of};
ghost use Rattle.view_config.specs.Without.{is_among};

use crate::without::{as_index, is_among};
use crate::{Config, ShardList};

/// What a node does in a configuration. Indices count from 0 in the lists of the configuration.
#[derive(Clone, Copy, Debug, PartialEq, Eq)]
pub enum Role {
    /// The first sequencing replica.
    Leader,
    /// A sequencing replica, by its index.
    Follower(u32),
    /// The first replica of this shard.
    Primary(u32),
    /// A replica of this shard, by its index in it.
    Backup(u32, u32),
    /// No replica of the configuration.
    Outside,
}

fn place_among(nodes: &[u32], node: u32) -> Option<usize>
    ensures { result ≡ place_among nodes.now node }
{
    nodes.iter().position(|other| *other == node)
}

/// The first shard that has the node.
fn shard_with(shards: &ShardList, node: u32) -> Option<usize>
    ensures { result ≡ position (λ nodes. is_among nodes node) shards.now }
{
    shards
        .as_slice()
        .iter()
        .position(|nodes| is_among(nodes.as_slice(), node))
}

impl Config {
    /// What the node of this number does; of a node that stands at two places the first counts,
    /// sequencing replicas before shards.
    pub fn role_of(&self, node: u32) -> Role
        ensures { result ≡ role_of self.now node }
    {
        match place_among(self.seq.as_slice(), node) {
            Some(0) => return Role::Leader,
            Some(place) => return Role::Follower(as_index(place)),
            None => {}
        }
        let Some(shard) = shard_with(&self.shards, node) else {
            return Role::Outside;
        };
        match place_among(self.shards.at(shard).as_slice(), node) {
            Some(0) => Role::Primary(as_index(shard)),
            Some(place) => Role::Backup(as_index(shard), as_index(place)),
            None => Role::Outside,
        }
    }
}
