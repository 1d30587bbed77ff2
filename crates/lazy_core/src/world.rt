//! A world: all nodes of a log, every message ever sent, and what the clients did and were told, as some list of
//! events led to it.

ghost use Rattle.std.specs.Prelude.{◌≡◌, ◌+◌, ◌*◌, ◌<◌, ◌≤◌, ◌^◌, length, IfOk, IfSome, option_copied};
ghost use Rattle.lazy_msgs.specs.FrameLimits.{Fits};
ghost use Rattle.lazy_rules.specs.Holders.{holders};
ghost use Rattle.lazy_rules.specs.WorldRules.{message_at};
ghost use Rattle.lazy_rules.specs.WorldState.{first_world};
ghost use Rattle.world_facts.specs.SizesOf.{IsOfWords};
ghost use Rattle.world_facts.specs.Turns.{Meets};
ghost use Rattle.lazy_core.specs.Happens.{Happens};
ghost use Rattle.lazy_core.specs.LinesOf.{IsLawfulLine, TellsLine, bare};
ghost use Rattle.lazy_core.specs.Reached.{Appends, IsReached};
ghost use Rattle.lazy_core.specs.Standing.{world_of_standing};

use crate::line::LineError;
use crate::nodes::Nodes;
use crate::snapshot::Snapshot;
use lazy_msgs::{Envelope, EventRefused, WorldEvent};
use lazy_rules::MESSAGES_LIMIT;
use rec_id::{Ask, Event, EventList, Line};
use std::alloc::{AllocError, Global};
use std::marker::Model;
use view_config::{NodeList, Shape};

/// The nodes of a shape and all that happened among them.
#[derive(Drop)]
pub struct World {
    nodes: Nodes,
}

impl Model for World {
    ghost use Rattle.lazy_rules.specs.WorldState.{WorldState};

    ghost Value = { WorldState };

    ghost use Rattle.lazy_core.specs.Reached.{IsReached};

    ghost view = { λ world. world.nodes };

    ghost invariant = { λ world. IsReached world.nodes };
}

/// A law, and no code: whoever reads asks with numbers of 32 bits.
fn asked_in_words(event: &WorldEvent)
    ensures { Meets IsOfWords event.now }
{
    match event {
        WorldEvent::Ask(_, Ask::Range { from, to }) => {
            let _words = (*from, *to);
        }
        WorldEvent::Ask(_, Ask::Tail { from }) => {
            let _word = *from;
        }
        _ => {}
    }
}

impl World {
    /// The world of a shape at first: no message, no crash, nothing told.
    pub fn new(alloc: Global, shape: &Shape) -> Result<World, AllocError>
        ensures { IfOk result (λ world. world ≡ first_world shape.now) }
    {
        Ok(World {
            nodes: Nodes::new(alloc, shape)?,
        })
    }

    /// One event. It is refused in the order of [`EventRefused`], and then nothing is changed. An accepted one
    /// stands behind those that led to the world before.
    pub fn event(&mut self, event: &WorldEvent) -> Result<(), EventRefused>
        requires countable { self.old.events + 1 < 2 ^ 32 }
        ensures appends { Appends event.now self.old self.new result }
        ensures happens { Happens event.now self.old self.new result }
    {
        asked_in_words(event);
        self.nodes.event(event)
    }

    pub fn shape(&self) -> &Shape
        ensures { result.now ≡ self.now.shape }
    {
        self.nodes.shape()
    }

    /// What the clients did and were told, in order: no more than two for each event.
    pub fn history(&self) -> &[Event]
        ensures history { result.now ≡ self.now.history }
        ensures few { length self.now.history ≤ 2 * self.now.events }
    {
        self.nodes.history()
    }

    /// What the clients did and were told, taken out of the world.
    pub fn into_history(self) -> EventList
        ensures { result ≡ self.history }
    {
        self.nodes.into_history()
    }

    /// How many messages were sent.
    pub fn sent(&self) -> u32
        ensures sent { result ≡ length self.now.sent }
        ensures within { result ≤ MESSAGES_LIMIT }
    {
        self.nodes.sent()
    }

    /// How many events were accepted: as many as led to this world from the first one.
    pub fn events(&self) -> u32
        ensures count { result ≡ self.now.events }
        ensures reached { IsReached self.now }
    {
        self.nodes.events()
    }

    /// Message `k`, counted from 1 in the order of sending. It has a frame in the shape's edition.
    pub fn message(&self, k: u32) -> Option<&Envelope>
        ensures message { option_copied result ≡ message_at self.now k }
        ensures framed { IfSome (option_copied result) (Fits self.now.shape.edition) }
    {
        let _counted = self.nodes.events();
        self.nodes.message(k)
    }

    /// The states of its nodes, and which of them are crashed.
    pub fn snapshot(&self) -> &Snapshot
        ensures { world_of_standing result.now ≡ bare self.now }
    {
        self.nodes.snapshot()
    }

    /// The holders of the log: the sequencing replicas of the latest started view that aren't crashed, in its
    /// order; the taken state alone, while there is one.
    pub fn holders(&self) -> Result<NodeList, AllocError>
        ensures { IfOk result (λ nodes. nodes ≡ holders self.now) }
    {
        self.nodes.snapshot().holders()
    }

    /// The log, as this holder has it; `Lost` where a shard has no replica left.
    pub fn line(&self, holder: u32) -> Result<Line, LineError>
        ensures told { TellsLine self.now holder result }
        ensures lawful { IsLawfulLine self.now holder result }
        ensures short { IfOk result (λ line. length line < 2 ^ 17) }
    {
        self.nodes.snapshot().line(holder)
    }
}
