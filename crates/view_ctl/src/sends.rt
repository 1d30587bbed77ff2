//! Lists of nodes, and what is sent to each node of one.

ghost use Rattle.std.specs.Prelude.{◌≡◌, filter, not, IfOk};
ghost use Rattle.lazy_msgs.specs.declared.msg.Msg.TheVariants.{NewView};
ghost use Rattle.lazy_rules.specs.Rows.{has_node, to_each};

use lazy_msgs::{Msg, SendList};
use plain_lists::Sequence;
use rec_id::WindowList;
use std::alloc::{AllocError, Global};
use view_config::{Config, NodeList};

/// The nodes that aren't among `known`, in their order.
pub(crate) fn others(alloc: Global, nodes: &[u32], known: &[u32]) -> Result<NodeList, AllocError>
    ensures { IfOk result (λ kept. kept ≡ filter (λ node. not (has_node known.now node)) nodes.now) }
{
    let mut kept = Sequence::new(alloc);
    for node in nodes {
        if !known.contains(node) {
            kept.push(*node)?;
        }
    }
    Ok(kept)
}

/// The message, to each of the nodes.
pub(crate) fn to_each(alloc: Global, nodes: &[u32], msg: &Msg) -> Result<SendList, AllocError>
    ensures { IfOk result (λ sends. sends ≡ to_each nodes.now msg.now) }
{
    let mut sends = Sequence::new(alloc);
    for node in nodes {
        sends.push((*node, msg.copy()?))?;
    }
    Ok(sends)
}

/// The start of the view of `config` behind `base` positions and these marks, to each of the nodes.
pub(crate) fn starts(
    alloc: Global,
    nodes: &[u32],
    config: &Config,
    base: u32,
    window: &WindowList,
) -> Result<SendList, AllocError>
    ensures { IfOk result (λ sends. sends ≡ to_each nodes.now (NewView config.now base window.now)) }
{
    let msg = Msg::NewView {
        config: config.copy()?,
        base,
        window: window.copy()?,
    };
    to_each(alloc, nodes, &msg)
}
