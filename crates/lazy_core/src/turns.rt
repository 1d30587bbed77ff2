//! Whose step an event is, what that node is given, and why it may not be.

ghost use Rattle.std.specs.Prelude.{◌≡◌, None, Some, IfOk, IfErr, OnOk};
ghost use Rattle.view_config.specs.Shape.{node_of};
ghost use Rattle.lazy_msgs.specs.declared.input.WorldEvent.TheVariants.{Post as PostEvent, Ask as AskEvent, Trim as TrimEvent, Peek as PeekEvent, Deliver as DeliverEvent, Tick as TickEvent, Grace as GraceEvent, Suspect as SuspectEvent};
ghost use Rattle.lazy_rules.specs.WorldRules.{message_at, step_refused_at};
ghost use Rattle.lazy_core.specs.Turning.{ComesTo, IsKnown, IsNoCrash, IsPlain, client_refused};

use crate::nodes::Nodes;
use lazy_msgs::{Envelope, EventRefused, Input, Msg, WorldEvent};
use rec_id::{Ask, Bytes};
use view_config::CONTROLLER;

/// One step: which node takes which input, and the time of what it receives, 0 where it receives nothing.
#[derive(Drop)]
pub(crate) struct Turn {
    pub(crate) node: u32,
    pub(crate) input: Input,
    pub(crate) received: u64,
}

/// An input from outside.
fn given(node: u32, input: Input) -> Turn
    ensures { result ≡ record { node = node; input = input; received = 0 } }
{
    Turn {
        node,
        input,
        received: 0,
    }
}

impl Nodes {
    /// The shape has this node, and it isn't crashed.
    pub(crate) fn check_node(&self, node: u32) -> Result<(), EventRefused>
        ensures allowed { OnOk result (step_refused_at self.now node (node_of self.now.shape node) ≡ None) }
        ensures refused { IfErr result (λ e. step_refused_at self.now node (node_of self.now.shape node) ≡ Some e) }
        ensures named { IfErr result IsPlain }
    {
        if self.shape().node(node).is_none() {
            return Err(EventRefused::NoNode(node));
        }
        if self.snapshot.is_crashed(node) {
            return Err(EventRefused::Crashed(node));
        }
        Ok(())
    }

    /// The shape has this client, and it isn't crashed.
    fn check_client(&self, c: u32) -> Result<(), EventRefused>
        ensures allowed { OnOk result (client_refused self.now c ≡ None) }
        ensures refused { IfErr result (λ e. client_refused self.now c ≡ Some e) }
        ensures named { IfErr result IsPlain }
    {
        if c >= self.shape().clients {
            return Err(EventRefused::NoNode(c));
        }
        if self.snapshot.is_crashed(c) {
            return Err(EventRefused::Crashed(c));
        }
        Ok(())
    }

    /// A client takes an input from outside.
    fn client_turn(&self, c: u32, input: Input) -> Result<Turn, EventRefused>
        ensures turn { IfOk result (λ turn. turn ≡ record { node = c; input = input; received = 0 }) }
        ensures allowed { OnOk result (client_refused self.now c ≡ None) }
        ensures refused { IfErr result (λ e. client_refused self.now c ≡ Some e) }
        ensures named { IfErr result IsPlain }
    {
        self.check_client(c)?;
        Ok(given(c, input))
    }

    fn post(&self, c: u32, bytes: &Bytes) -> Result<Turn, EventRefused>
        requires { IsKnown self.now }
        ensures { ComesTo self.now (PostEvent c bytes.now) result }
    {
        self.client_turn(c, Input::Post(bytes.clone()?))
    }

    fn ask(&self, c: u32, ask: Ask) -> Result<Turn, EventRefused>
        requires { IsKnown self.now }
        ensures { ComesTo self.now (AskEvent c ask) result }
    {
        self.client_turn(c, Input::Ask(ask))
    }

    fn trim(&self, c: u32, floor: u32) -> Result<Turn, EventRefused>
        requires { IsKnown self.now }
        ensures { ComesTo self.now (TrimEvent c floor) result }
    {
        self.client_turn(c, Input::Trim(floor))
    }

    fn peek(&self, c: u32, k: u32, from: u32, to: u32) -> Result<Turn, EventRefused>
        requires { IsKnown self.now }
        ensures { ComesTo self.now (PeekEvent c k from to) result }
    {
        if c >= self.shape().clients {
            return Err(EventRefused::NoNode(c));
        }
        Ok(given(c, self.peeked(c, k, from, to)?))
    }

    /// The addressee of message `k` takes it.
    fn delivery_to(&self, k: u32, envelope: &Envelope) -> Result<Turn, EventRefused>
        requires known { IsKnown self.now }
        requires sent { message_at self.now k ≡ Some envelope.now }
        ensures { ComesTo self.now (DeliverEvent k) result }
    {
        if let Msg::Claim { .. } = &envelope.msg {
            return Err(EventRefused::IsClaim(k));
        }
        if self.snapshot.is_crashed(envelope.to) {
            return Err(EventRefused::Crashed(envelope.to));
        }
        Ok(Turn {
            node: envelope.to,
            input: Input::Take(envelope.copy()?),
            received: envelope.time,
        })
    }

    fn delivery(&self, k: u32) -> Result<Turn, EventRefused>
        requires { IsKnown self.now }
        ensures { ComesTo self.now (DeliverEvent k) result }
    {
        match self.message(k) {
            Some(envelope) => self.delivery_to(k, envelope),
            None => Err(EventRefused::NoMessage(k)),
        }
    }

    fn tick(&self, node: u32) -> Result<Turn, EventRefused>
        requires { IsKnown self.now }
        ensures { ComesTo self.now (TickEvent node) result }
    {
        self.check_node(node)?;
        Ok(given(node, Input::Tick))
    }

    fn grace(&self, node: u32) -> Result<Turn, EventRefused>
        requires { IsKnown self.now }
        ensures { ComesTo self.now (GraceEvent node) result }
    {
        self.check_node(node)?;
        Ok(given(node, Input::Grace))
    }

    /// The controller is never crashed; the node that it is to replace may be.
    fn suspicion(&self, node: u32) -> Result<Turn, EventRefused>
        requires { IsKnown self.now }
        ensures { ComesTo self.now (SuspectEvent node) result }
    {
        if self.shape().node(node).is_none() {
            return Err(EventRefused::NoNode(node));
        }
        Ok(given(CONTROLLER, Input::Suspect(node)))
    }

    /// The turn that an event is, unless it is refused whatever the node's state. A crash is none.
    pub(crate) fn turn_of(&self, event: &WorldEvent) -> Result<Turn, EventRefused>
        requires known { IsKnown self.now }
        requires no_crash { IsNoCrash event.now }
        ensures { ComesTo self.now event.now result }
    {
        match event {
            WorldEvent::Post(c, bytes) => self.post(*c, bytes),
            WorldEvent::Ask(c, ask) => self.ask(*c, *ask),
            WorldEvent::Trim(c, floor) => self.trim(*c, *floor),
            WorldEvent::Peek {
                client,
                message,
                from,
                to,
            } => self.peek(*client, *message, *from, *to),
            WorldEvent::Deliver(k) => self.delivery(*k),
            WorldEvent::Tick(node) => self.tick(*node),
            WorldEvent::Grace(node) => self.grace(*node),
            WorldEvent::Suspect(node) => self.suspicion(*node),
            WorldEvent::Crash(_) => unreachable!(),
        }
    }
}
