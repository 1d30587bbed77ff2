//! What a leader tells of bound positions, to all shard replicas and to the reads that waited.

ghost use Rattle.std.specs.Prelude.{◌≡◌, ◌++◌, ◌≤◌, length, map, IfOk};
ghost use Rattle.lazy_msgs.specs.declared.msg.Msg.TheVariants.{Stable};
ghost use Rattle.lazy_rules.specs.Roles.{replicas_of};
ghost use Rattle.lazy_rules.specs.Rows.{to_each};

use lazy_msgs::{Msg, SendList};
use std::alloc::AllocError;
use view_config::{Config, NodeList};

/// Tells these replicas that the positions below `upto` are bound.
fn add_stable_to(
    nodes: &NodeList,
    view: u32,
    upto: u32,
    sends: &mut SendList,
) -> Result<(), AllocError>
    ensures { IfOk result (λ _. sends.new ≡ sends.old ++ to_each nodes.now (Stable view upto)) }
{
    for node in nodes.as_slice() {
        sends.push((*node, Msg::Stable { view, upto }))?;
    }
    Ok(())
}

/// Tells all shard replicas of the configuration that the positions below `upto` are bound.
pub(crate) fn add_stable(
    config: &Config,
    view: u32,
    upto: u32,
    sends: &mut SendList,
) -> Result<(), AllocError>
    ensures { IfOk result (λ _. sends.new ≡ sends.old ++ to_each (replicas_of config.now) (Stable view upto)) }
{
    for nodes in config.shards.as_slice() {
        add_stable_to(nodes, view, upto, sends)?;
    }
    Ok(())
}
