//! The first state of a node, by its number.

ghost use Rattle.std.specs.Prelude.{◌≡◌, IfOk};
ghost use Rattle.node_diary.specs.States.{Begins, HasNode, first_at};

use append_client::AppendClient;
use lazy_core::NodeState;
use log_reader::LogReader;
use seq_node::SeqNode;
use shard_node::ShardNode;
use std::alloc::{AllocError, Global};
use view_config::{Node, Shape};
use view_ctl::Controller;

/// The first state of the node of this number, which the shape has.
pub fn first_state(alloc: Global, shape: &Shape, number: u32) -> Result<NodeState, AllocError>
    requires { HasNode shape.now number }
    ensures first { IfOk result (λ state. state ≡ first_at shape.now number) }
    ensures begins { IfOk result (Begins shape.now number) }
{
    match shape.node(number) {
        Some(Node::Client(c)) => {
            let appends = AppendClient::new(alloc, shape, c)?;
            Ok(NodeState::Client(appends, LogReader::new(alloc, shape, c)?))
        }
        Some(Node::Controller) => Ok(NodeState::Control(Controller::new(alloc, shape)?)),
        Some(Node::Seq(i)) => Ok(NodeState::Seq(SeqNode::new(alloc, shape, i)?)),
        Some(Node::Shard(i, j)) => Ok(NodeState::Shard(ShardNode::new(alloc, shape, i, j)?)),
        None => unreachable!(),
    }
}
