//! What is turned away before any rule.

ghost use Rattle.std.specs.Prelude.{◌≡◌};
ghost use Rattle.std.specs.List.{list_all};
ghost use Rattle.lazy_rules.specs.Door.{has_client, is_node, is_node_list, is_config};

use rec_id::{CellList, ItemList, RecordId};
use view_config::{Config, NodeList, Shape};

/// The shape has this client.
pub(crate) fn has_client(shape: &Shape, id: RecordId) -> bool
    ensures { result ≡ has_client shape.now id }
{
    id.client() < shape.clients
}

/// The items name clients that the shape has.
pub(crate) fn items_have_clients(shape: &Shape, items: &ItemList) -> bool
    ensures { result ≡ list_all (λ item. has_client shape.now item.id) items.now }
{
    items
        .as_slice()
        .iter()
        .all(|item| has_client(shape, item.id))
}

/// The cells name clients that the shape has.
pub(crate) fn cells_have_clients(shape: &Shape, cells: &CellList) -> bool
    ensures { result ≡ list_all (λ cell. has_client shape.now cell.id) cells.now }
{
    cells
        .as_slice()
        .iter()
        .all(|cell| has_client(shape, cell.id))
}

/// The shape has this node.
pub(crate) fn is_node(shape: &Shape, node: u32) -> bool
    ensures { result ≡ is_node shape.now node }
{
    shape.node(node).is_some()
}

/// There are some nodes, all of the shape.
fn is_node_list(shape: &Shape, nodes: &NodeList) -> bool
    ensures { result ≡ is_node_list shape.now nodes.now }
{
    if nodes.len() == 0 {
        return false;
    }
    are_nodes(shape, nodes.as_slice())
}

/// The shape has these nodes.
fn are_nodes(shape: &Shape, nodes: &[u32]) -> bool
    ensures { result ≡ list_all (is_node shape.now) nodes.now }
{
    nodes.iter().all(|node| is_node(shape, *node))
}

/// There are some nodes in each list, all of the shape.
fn are_node_lists(shape: &Shape, lists: &[NodeList]) -> bool
    ensures { result ≡ list_all (is_node_list shape.now) lists.now }
{
    lists.iter().all(|nodes| is_node_list(shape, nodes))
}

/// The configuration has some sequencing replicas, and some replicas for each shard of the shape.
pub(crate) fn is_config(shape: &Shape, config: &Config) -> bool
    ensures { result ≡ is_config shape.now config.now }
{
    if !is_node_list(shape, &config.seq) {
        return false;
    }
    if config.shards.len() != shape.shards as usize {
        return false;
    }
    are_node_lists(shape, config.shards.as_slice())
}
