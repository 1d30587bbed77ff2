//! What an event comes to: one step of one node.

ghost use Rattle.std.specs.Prelude.{◌≡◌, ◌+◌, List};
ghost use Rattle.view_config.specs.Shape.{Dimensions};
ghost use Rattle.lazy_msgs.specs.declared.input.WorldEvent.{WorldEvent};
ghost use Rattle.lazy_rules.specs.WorldState.{WorldState};
ghost use Rattle.world_facts.specs.Forms.{HasForm, HasSenders};
ghost use Rattle.world_facts.specs.Reached.{InEveryWorld, StepsByEvents, reached};
ghost use Rattle.world_facts.specs.Turns.{Turn, turned};

/// A law, and no code. In every shape, after every list of events: the world has the nodes of its shape, no time in it
/// is above the number of its events, and each message comes of a node. An event that isn't refused is one turn
/// of one node, by the rule of its role, unless it delivers a message to a number that no node has; and a turn is
/// one event.
pub fn every_event_is_one_step()
    ensures form { (shape : Dimensions) (events : List WorldEvent) → HasForm shape (reached shape events) }
    ensures senders { InEveryWorld HasSenders }
    ensures step { (shape : Dimensions) (events : List WorldEvent) → StepsByEvents (reached shape events) }
    ensures counted { (w : WorldState) (turn : Turn) → (turned w turn).events ≡ w.events + 1 }
{}
