//! What an event does: one step of one node, or a crash, or a refusal that changes nothing.

ghost use Rattle.std.specs.Prelude.{◌≡◌, ◌≢◌, ◌+◌, ◌≤◌, ◌<◌, ◌^◌, length, true, false, Err};
ghost use Rattle.lazy_msgs.specs.declared.refused.EventRefused.TheVariants.{Spent};
ghost use Rattle.lazy_msgs.specs.declared.input.WorldEvent.TheVariants.{Crash};
ghost use Rattle.lazy_core.specs.Happens.{Happens, Turns, TurnsWithin};
ghost use Rattle.lazy_core.specs.Turning.{IsKnown, IsNoCrash, IsTurnIn};

use crate::nodes::Nodes;
use crate::turns::Turn;
use lazy_msgs::{EventRefused, WorldEvent};
use lazy_rules::MESSAGES_LIMIT;
use view_config::CONTROLLER;

/// For how many messages a step is tried at first, and how many times more at each further try.
const FIRST_ROOM: u32 = 64;

const ROOM_GROWTH: u32 = 16;

/// There was no room for what would have been sent.
fn is_spent(outcome: &Result<(), EventRefused>) -> bool
    ensures spent { result ≡ true → outcome.now ≡ Err Spent }
    ensures unspent { result ≡ false → outcome.now ≢ Err Spent }
{
    match outcome {
        Err(EventRefused::Spent) => true,
        _ => false,
    }
}

impl Nodes {
    /// The turn, if it sends no more than so many messages; spent, if it would send more.
    fn step_within(&mut self, turn: &Turn, room: u32) -> Result<(), EventRefused>
        requires known { IsKnown self.old }
        requires turn { IsTurnIn self.old turn.now }
        requires countable { self.old.events + 1 < 2 ^ 32 }
        requires room { length self.old.sent + room ≤ MESSAGES_LIMIT }
        ensures { TurnsWithin room turn.now self.old self.new result }
    {
        let Some(place) = self.snapshot.place(turn.node) else {
            unreachable!()
        };
        let mut out = self.ledger.outbox(room)?;
        self.snapshot.call(place, &turn.input, &mut out)?;
        self.ledger.enter(turn.node, turn.received, out);
        Ok(())
    }

    /// The turn. A step rarely sends many messages, so it is tried with little room first.
    fn step(&mut self, turn: &Turn) -> Result<(), EventRefused>
        requires known { IsKnown self.old }
        requires turn { IsTurnIn self.old turn.now }
        requires countable { self.old.events + 1 < 2 ^ 32 }
        ensures { Turns turn.now self.old self.new result }
    {
        let left = self.room();
        let mut room = FIRST_ROOM;
        while room < left {
            let outcome = self.step_within(turn, room);
            if !is_spent(&outcome) {
                return outcome;
            }
            room *= ROOM_GROWTH;
        }
        self.step_within(turn, left)
    }

    /// A node crashes. The controller doesn't.
    fn crash(&mut self, node: u32) -> Result<(), EventRefused>
        requires known { IsKnown self.old }
        requires countable { self.old.events + 1 < 2 ^ 32 }
        ensures { Happens (Crash node) self.old self.new result }
    {
        if node == CONTROLLER {
            return Err(EventRefused::NoNode(node));
        }
        self.check_node(node)?;
        let out = self.ledger.outbox(0)?;
        self.snapshot.crash(node)?;
        self.ledger.enter(node, 0, out);
        Ok(())
    }

    /// An event that isn't a crash.
    fn turn(&mut self, event: &WorldEvent) -> Result<(), EventRefused>
        requires known { IsKnown self.old }
        requires no_crash { IsNoCrash event.now }
        requires countable { self.old.events + 1 < 2 ^ 32 }
        ensures { Happens event.now self.old self.new result }
    {
        let turn = self.turn_of(event)?;
        self.step(&turn)
    }

    /// One event. It is refused in the order of [`EventRefused`], and then nothing is changed.
    pub(crate) fn event(&mut self, event: &WorldEvent) -> Result<(), EventRefused>
        requires known { IsKnown self.old }
        requires countable { self.old.events + 1 < 2 ^ 32 }
        ensures { Happens event.now self.old self.new result }
    {
        match event {
            WorldEvent::Crash(node) => self.crash(*node),
            _ => self.turn(event),
        }
    }
}
