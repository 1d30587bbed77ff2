//! Which configurations a client goes by: those whose nodes its shape has.

ghost use Rattle.std.specs.Prelude.{◌≡◌};
ghost use Rattle.std.specs.List.{list_all};
ghost use Rattle.lazy_rules.specs.Door.{is_config, is_node, is_node_list};

use view_config::{Config, NodeList, Shape};

fn is_node(shape: &Shape, node: u32) -> bool
    ensures { result ≡ is_node shape.now node }
{
    shape.node(node).is_some()
}

/// All of these nodes are of the shape.
fn are_nodes(shape: &Shape, nodes: &[u32]) -> bool
    ensures { result ≡ list_all (is_node shape.now) nodes.now }
{
    nodes.iter().all(|node| is_node(shape, *node))
}

/// Some nodes, all of the shape.
fn is_node_list(shape: &Shape, nodes: &NodeList) -> bool
    ensures { result ≡ is_node_list shape.now nodes.now }
{
    if nodes.is_empty() {
        return false;
    }
    are_nodes(shape, nodes.as_slice())
}

/// Each of these is a list of some nodes, all of the shape.
fn are_node_lists(shape: &Shape, lists: &[NodeList]) -> bool
    ensures { result ≡ list_all (is_node_list shape.now) lists.now }
{
    lists.iter().all(|nodes| is_node_list(shape, nodes))
}

/// The configuration has some sequencing replicas, and some replicas for each shard of the shape.
pub(crate) fn is_config(shape: &Shape, config: &Config) -> bool
    ensures { result ≡ is_config shape.now config.now }
{
    if !is_node_list(shape, &config.seq) {
        return false;
    }
    if config.shards.len() != shape.shards as usize {
        return false;
    }
    are_node_lists(shape, config.shards.as_slice())
}
