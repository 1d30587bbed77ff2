//! The states of all nodes at first.

ghost use Rattle.std.specs.Prelude.{◌≡◌, ◌+◌, ◌*◌, ◌++◌, map, IfOk, OnOk};
ghost use Rattle.std.specs.List.{range_with_len};
ghost use Rattle.lazy_rules.specs.SeqState.{first_seq};
ghost use Rattle.lazy_rules.specs.WorldState.{first_shard_at};
ghost use Rattle.lazy_core.specs.declared.node_state.NodeState.TheVariants.{Seq, Shard};
ghost use Rattle.lazy_core.specs.Standing.{first_client_node, first_states};

use crate::node_state::NodeState;
use append_client::AppendClient;
use log_reader::LogReader;
use seq_node::SeqNode;
use shard_node::ShardNode;
use std::alloc::{AllocError, Global};
use view_config::Shape;
use view_ctl::Controller;

fn add_clients(alloc: Global, shape: &Shape, states: &mut Vec<NodeState>) -> Result<(), AllocError>
    ensures { OnOk result (states.new.items ≡ states.old.items ++ map (first_client_node shape.now) (range_with_len 0 shape.now.clients)) }
{
    for c in 0..shape.clients {
        let appends = AppendClient::new(alloc, shape, c)?;
        let reads = LogReader::new(alloc, shape, c)?;
        states.push(NodeState::Client(appends, reads))?;
    }
    Ok(())
}

fn add_seqs(alloc: Global, shape: &Shape, states: &mut Vec<NodeState>) -> Result<(), AllocError>
    ensures { OnOk result (states.new.items ≡ states.old.items ++ map (λ i. Seq (first_seq shape.now i)) (range_with_len 0 (shape.now.seq + shape.now.spares))) }
{
    for i in 0..shape.seq + shape.spares {
        states.push(NodeState::Seq(SeqNode::new(alloc, shape, i)?))?;
    }
    Ok(())
}

fn add_shards(alloc: Global, shape: &Shape, states: &mut Vec<NodeState>) -> Result<(), AllocError>
    ensures { OnOk result (states.new.items ≡ states.old.items ++ map (λ k. Shard (first_shard_at shape.now k)) (range_with_len 0 (shape.now.shards * shape.now.copies))) }
{
    for k in 0..shape.shards * shape.copies {
        let shard = ShardNode::new(alloc, shape, k / shape.copies, k % shape.copies)?;
        states.push(NodeState::Shard(shard))?;
    }
    Ok(())
}

/// The states of the nodes of a shape at first, each at its place.
pub(crate) fn first_states(alloc: Global, shape: &Shape) -> Result<Vec<NodeState>, AllocError>
    ensures { IfOk result (λ states. states.items ≡ first_states shape.now) }
{
    let mut states = Vec::new(alloc);
    add_clients(alloc, shape, &mut states)?;
    states.push(NodeState::Control(Controller::new(alloc, shape)?))?;
    add_seqs(alloc, shape, &mut states)?;
    add_shards(alloc, shape, &mut states)?;
    Ok(states)
}
