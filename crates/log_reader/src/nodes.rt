//! Lists of nodes: who is among them, and which of them a message goes to.

ghost use Rattle.std.specs.Prelude.{◌≡◌, not, filter, IfOk};
ghost use Rattle.std.specs.List.{list_all};
ghost use Rattle.lazy_rules.specs.ClientRules.{with_node};
ghost use Rattle.lazy_rules.specs.ReaderRules.{awaits};
ghost use Rattle.lazy_rules.specs.Roles.{is_first, primaries_of, replicas_of};
ghost use Rattle.lazy_rules.specs.Rows.{has_node};
ghost use Rattle.log_reader.specs.Rounds.{is_awaited};

use plain_lists::Sequence;
use std::alloc::{AllocError, Global};
use view_config::{Config, NodeList};

/// The nodes with one more, each once.
pub(crate) fn with_node(nodes: &NodeList, node: u32) -> Result<NodeList, AllocError>
    ensures { IfOk result (λ made. made ≡ with_node nodes.now node) }
{
    let mut made = nodes.copy()?;
    if !nodes.as_slice().contains(&node) {
        made.push(node)?;
    }
    Ok(made)
}

/// All of these nodes are among those that acknowledged.
pub(crate) fn have_all(nodes: &[u32], acked: &[u32]) -> bool
    ensures { result ≡ list_all (has_node acked.now) nodes.now }
{
    nodes.iter().all(|node| acked.contains(node))
}

/// The node is the first of these.
pub(crate) fn is_first(nodes: &[u32], node: u32) -> bool
    ensures { result ≡ is_first nodes.now node }
{
    match nodes.first() {
        Some(first) => *first == node,
        None => false,
    }
}

/// The nodes that haven't acknowledged.
pub(crate) fn lacking(alloc: Global, nodes: &[u32], acked: &[u32]) -> Result<NodeList, AllocError>
    ensures { IfOk result (λ made. made ≡ filter (λ node. not (has_node acked.now node)) nodes.now) }
{
    let mut made = Sequence::new(alloc);
    for node in nodes {
        if !acked.contains(node) {
            made.push(*node)?;
        }
    }
    Ok(made)
}

/// A forcing read waits for the node's word: it hasn't acknowledged, or it leads and no tail is there.
fn is_awaited(nodes: &[u32], acked: &[u32], tail: Option<u32>, node: u32) -> bool
    ensures { result ≡ is_awaited nodes.now acked.now tail node }
{
    if !acked.contains(&node) {
        return true;
    }
    tail.is_none() && is_first(nodes, node)
}

/// The nodes whose word a forcing read waits for.
pub(crate) fn awaited(
    alloc: Global,
    nodes: &[u32],
    acked: &[u32],
    tail: Option<u32>,
) -> Result<NodeList, AllocError>
    ensures { IfOk result (λ made. made ≡ filter (is_awaited nodes.now acked.now tail) nodes.now) }
{
    let mut made = Sequence::new(alloc);
    for node in nodes {
        if is_awaited(nodes, acked, tail, *node) {
            made.push(*node)?;
        }
    }
    Ok(made)
}

/// The primaries, by shard.
pub(crate) fn primaries(alloc: Global, config: &Config) -> Result<NodeList, AllocError>
    ensures { IfOk result (λ made. made ≡ primaries_of config.now) }
{
    let shards = config.shards.as_slice();
    let mut made = Sequence::new(alloc);
    for nodes in shards {
        if let Some(first) = nodes.as_slice().first() {
            made.push(*first)?;
        }
    }
    Ok(made)
}

/// All shard replicas, by shard and then by place.
pub(crate) fn replicas(alloc: Global, config: &Config) -> Result<NodeList, AllocError>
    ensures { IfOk result (λ made. made ≡ replicas_of config.now) }
{
    let shards = config.shards.as_slice();
    let mut made = Sequence::new(alloc);
    for nodes in shards {
        made.append(nodes.copy()?)?;
    }
    Ok(made)
}
