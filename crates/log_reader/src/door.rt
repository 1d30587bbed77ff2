//! Which messages a reader takes: of senders, clients and configurations that its shape has.

ghost use Rattle.std.specs.Prelude.{◌≡◌};
ghost use Rattle.std.specs.List.{list_all};
ghost use Rattle.lazy_rules.specs.Door.{has_client, is_config, is_node, is_node_list, is_shard_replica, name_of};
ghost use Rattle.lazy_rules.specs.Roles.{shard_kept_by};
ghost use Rattle.view_config.specs.Shape.{node_of};

use rec_id::{Entry, PlacedList};
use view_config::{Config, Node, NodeList, Shape};

fn is_node(shape: &Shape, node: u32) -> bool
    ensures { result ≡ is_node shape.now node }
{
    shape.node(node).is_some()
}

/// The shape has all of these nodes.
fn are_nodes(shape: &Shape, nodes: &[u32]) -> bool
    ensures { result ≡ list_all (is_node shape.now) nodes.now }
{
    nodes.iter().all(|node| is_node(shape, *node))
}

/// Some nodes, all of the shape.
fn is_node_list(shape: &Shape, nodes: &NodeList) -> bool
    ensures { result ≡ is_node_list shape.now nodes.now }
{
    if nodes.len() == 0 {
        return false;
    }
    are_nodes(shape, nodes.as_slice())
}

/// Some nodes in each of these lists, all of the shape.
fn are_node_lists(shape: &Shape, lists: &[NodeList]) -> bool
    ensures { result ≡ list_all (is_node_list shape.now) lists.now }
{
    lists.iter().all(|nodes| is_node_list(shape, nodes))
}

/// The configuration has some sequencing replicas, and some replicas for each shard of the shape.
pub(crate) fn is_config(shape: &Shape, config: &Config) -> bool
    ensures { result ≡ is_config shape.now config.now }
{
    if !is_node_list(shape, &config.seq) {
        return false;
    }
    if config.shards.len() != shape.shards as usize {
        return false;
    }
    are_node_lists(shape, config.shards.as_slice())
}

pub(crate) fn is_shard_replica(shape: &Shape, node: u32) -> bool
    ensures { result ≡ is_shard_replica (node_of shape.now node) }
{
    match shape.node(node) {
        Some(Node::Shard(_, _)) => true,
        Some(Node::Client(_)) => false,
        Some(Node::Controller) => false,
        Some(Node::Seq(_)) => false,
        None => false,
    }
}

/// The shard that the node is a replica of.
pub(crate) fn shard_kept_by(shape: &Shape, node: u32) -> Option<u32>
    ensures { result ≡ shard_kept_by shape.now node }
{
    match shape.node(node) {
        Some(Node::Shard(shard, _)) => Some(shard),
        Some(Node::Client(_)) => None,
        Some(Node::Controller) => None,
        Some(Node::Seq(_)) => None,
        None => None,
    }
}

/// The entry's record is of a client that the shape has.
fn is_of_client(shape: &Shape, entry: &Entry) -> bool
    ensures { result ≡ has_client shape.now (name_of entry.now) }
{
    match entry {
        Entry::Kept(id, _) => id.client() < shape.clients,
        Entry::Noop(id) => id.client() < shape.clients,
        Entry::Gone(id) => id.client() < shape.clients,
    }
}

/// The records of all entries are of clients that the shape has.
pub(crate) fn are_of_clients(shape: &Shape, entries: &PlacedList) -> bool
    ensures { result ≡ list_all (λ placed. has_client shape.now (name_of placed.1)) entries.now }
{
    entries
        .as_slice()
        .iter()
        .all(|placed| is_of_client(shape, &placed.1))
}
