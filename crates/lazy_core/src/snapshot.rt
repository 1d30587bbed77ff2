//! The states of all nodes at a moment, and which of them are crashed: enough to say who holds the log, and what
//! it is. `holders.rt` and `line.rt` say so.

ghost use Rattle.std.specs.Prelude.{◌≡◌, ◌<◌, ◌++◌, [], ◌∷◌, length, None, Some, OnOk, OnErr, IfOk, slice_get, option_copied};
ghost use Rattle.std.specs.Option.{option_map};
ghost use Rattle.lazy_msgs.specs.Step.{Row};
ghost use Rattle.lazy_rules.specs.Holders.{seq_numbered};
ghost use Rattle.lazy_rules.specs.Lines.{store_numbered};
ghost use Rattle.lazy_rules.specs.Rows.{has_node};
ghost use Rattle.lazy_core.specs.declared.node_state.NodeState.{NodeState};
ghost use Rattle.lazy_core.specs.NodeCall.{CallsTo, IsNodeOf, call_refusal, node_call};
ghost use Rattle.lazy_core.specs.Standing.{IsLaid, at_place, control_in, first_states, place_of, state_of, world_of_standing};
ghost use Rattle.lazy_rules.specs.ControlState.{first_control};

use crate::first_states::first_states;
use crate::node_state::{NodeState, StateList};
use crate::places::place_of;
use lazy_msgs::{EventRefused, Input, Outbox};
use seq_node::SeqNode;
use shard_store::ShardStore;
use std::alloc::{AllocError, Global};
use std::marker::Model;
use view_config::{NodeList, Shape};
use view_ctl::Controller;

/// The states of the nodes of a shape by their numbers, and the crashed nodes.
#[derive(Drop)]
pub struct Snapshot {
    pub(crate) shape: Shape,
    states: Vec<NodeState>,
    crashed: Vec<u32>,
}

impl Model for Snapshot {
    ghost use Rattle.lazy_core.specs.Standing.{IsLaid, Standing};

    ghost Value = { Standing };

    ghost view = { λ a. record { shape = a.shape; states = a.states.items; crashed = a.crashed.items } };

    ghost invariant = { λ a. IsLaid a.shape a.states.items };
}

/// The controller among these states.
fn control_among<'a>(shape: &Shape, states: &'a [NodeState]) -> &'a Controller
    requires { IsLaid shape.now states.now }
    ensures { result.now ≡ control_in (first_control shape.now) states.now }
{
    match &states[shape.clients as usize] {
        NodeState::Control(control) => control,
        _ => unreachable!(),
    }
}

/// The state of the node of this number among these.
fn state_among<'a>(shape: &Shape, states: &'a [NodeState], node: u32) -> Option<&'a NodeState>
    ensures { option_copied result ≡ state_of shape.now states.now node }
{
    let place = place_of(shape, node)?;
    states.get(place)
}

impl Snapshot {
    /// The snapshot of these states, which stand as the numbers of their nodes go, and of these crashed nodes. It
    /// takes no memory.
    pub fn new(shape: &Shape, states: StateList, crashed: NodeList) -> Snapshot
        requires { IsLaid shape.now states }
        ensures { result ≡ record { shape = shape.now; states = states; crashed = crashed } }
    {
        Snapshot {
            shape: *shape,
            states: states.into_vec(),
            crashed: crashed.into_vec(),
        }
    }

    /// The nodes of a shape at first.
    pub(crate) fn first(alloc: Global, shape: &Shape) -> Result<Snapshot, AllocError>
        ensures { IfOk result (λ made. made ≡ record { shape = shape.now; states = first_states shape.now; crashed = [] }) }
    {
        Ok(Snapshot {
            shape: *shape,
            states: first_states(alloc, shape)?,
            crashed: Vec::new(alloc),
        })
    }

    pub(crate) fn allocator(&self) -> Global {
        *self.crashed.allocator()
    }

    /// The node is crashed.
    pub(crate) fn is_crashed(&self, node: u32) -> bool
        ensures { result ≡ has_node self.now.crashed node }
    {
        self.crashed.contains(&node)
    }

    /// Where the state of the node of this number stands.
    pub(crate) fn place(&self, node: u32) -> Option<usize>
        ensures place { result ≡ place_of self.now.shape node }
        ensures laid { IsLaid self.now.shape self.now.states }
    {
        place_of(&self.shape, node)
    }

    pub(crate) fn control(&self) -> &Controller
        ensures { result.now ≡ (world_of_standing self.now).control }
    {
        control_among(&self.shape, self.states.as_slice())
    }

    /// The state of the node of this number.
    fn state(&self, node: u32) -> Option<&NodeState>
        ensures state { option_copied result ≡ state_of self.now.shape self.now.states node }
        ensures laid { IsLaid self.now.shape self.now.states }
    {
        state_among(&self.shape, self.states.as_slice(), node)
    }

    /// The sequencing replica of this number.
    pub(crate) fn seq(&self, node: u32) -> Option<&SeqNode>
        ensures { option_copied result ≡ seq_numbered (world_of_standing self.now) node }
    {
        match self.state(node)? {
            NodeState::Seq(seq) => Some(seq),
            _ => None,
        }
    }

    /// What the shard replica of this number stores.
    pub(crate) fn store(&self, node: u32) -> Option<&ShardStore>
        ensures { option_copied result ≡ store_numbered (world_of_standing self.now) node }
    {
        match self.state(node)? {
            NodeState::Shard(shard) => Some(shard.store()),
            _ => None,
        }
    }

    /// The node whose state stands at this place takes an input in an event.
    pub(crate) fn call(
        &mut self,
        place: usize,
        input: &Input,
        out: &mut Outbox,
    ) -> Result<(), EventRefused>
        requires there { place < length self.old.states }
        requires own { (state : NodeState) → slice_get self.old.states place ≡ Some state → IsNodeOf self.old.shape state }
        ensures { (state : NodeState) → slice_get self.old.states place ≡ Some state → CallsTo (at_place self.old place (node_call state input.now)) (call_refusal self.old.shape.edition state input.now) self.old self.new out.old out.new result }
    {
        let shape = self.shape;
        let state = &mut self.states[place];
        state.call(&shape, input, out)
    }

    /// A node crashes.
    pub(crate) fn crash(&mut self, node: u32) -> Result<(), AllocError>
        ensures ok { OnOk result (self.new ≡ record self.old { crashed = self.old.crashed ++ node ∷ [] }) }
        ensures err { OnErr result (self.new ≡ self.old) }
    {
        self.crashed.reserve(1)?;
        self.crashed.push_reserved(node);
        Ok(())
    }
}
