//! A node of any role, and its step.

ghost use Rattle.std.specs.Prelude.{◌≡◌};
ghost use Rattle.lazy_msgs.specs.Step.{StepsTo};
ghost use Rattle.lazy_core.specs.NodeStep.{node_step};

use crate::client_step::step_client;
use append_client::AppendClient;
use lazy_msgs::{Input, Outbox, StepRefused};
use log_reader::LogReader;
use plain_lists::Sequence;
use seq_node::SeqNode;
use shard_node::ShardNode;
use view_ctl::Controller;

/// A node by its role. A client has two halves: one appends, and one reads and trims.
#[derive(Drop)]
pub enum NodeState {
    Seq(SeqNode),
    Shard(ShardNode),
    Client(AppendClient, LogReader),
    Control(Controller),
}

pub type StateList = Sequence<NodeState>;

impl NodeState {
    /// Takes an input. One that has no row changes nothing, and neither does a step
    /// that is refused: `Over` where what it sends doesn't fit into `out`, `Memory` for want of memory.
    pub fn step(&mut self, input: &Input, out: &mut Outbox) -> Result<(), StepRefused>
        ensures { StepsTo (node_step self.old input.now) self.old self.new out.old out.new result StepRefused.Over }
    {
        match self {
            NodeState::Seq(seq) => seq.step(input, out),
            NodeState::Shard(shard) => shard.step(input, out),
            NodeState::Client(appends, reads) => step_client(appends, reads, input, out),
            NodeState::Control(control) => control.step(input, out),
        }
    }
}
