//! All nodes of a log, every message ever sent, and what the clients did and were told. Which of these are worlds
//! is said in `world.rt`.

ghost use Rattle.std.specs.Prelude.{◌≡◌, ◌≤◌, ◌*◌, length, IfOk, option_copied};
ghost use Rattle.lazy_rules.specs.WorldRules.{message_at};
ghost use Rattle.lazy_rules.specs.WorldState.{WorldState, first_world};
ghost use Rattle.lazy_core.specs.Happens.{IsRoom};
ghost use Rattle.lazy_core.specs.LinesOf.{bare};
ghost use Rattle.lazy_core.specs.Standing.{world_of_standing};

use crate::ledger::Ledger;
use crate::snapshot::Snapshot;
use lazy_msgs::Envelope;
use lazy_rules::MESSAGES_LIMIT;
use rec_id::{Event, EventList};
use std::alloc::{AllocError, Global};
use std::marker::Model;
use view_config::Shape;

/// What a message weighs at least.
const LEAST_WEIGHT: u64 = 64;

/// The nodes of a shape and all that happened among them.
#[derive(Drop)]
pub(crate) struct Nodes {
    pub(crate) snapshot: Snapshot,
    pub(crate) ledger: Ledger,
}

impl Model for Nodes {
    ghost use Rattle.lazy_rules.specs.WorldState.{WorldState};
    ghost use Rattle.lazy_core.specs.WorldView.{IsKept, world_of};

    ghost Value = { WorldState };

    ghost view = { world_of };

    ghost invariant = { λ a. IsKept (world_of a) };
}

impl Nodes {
    /// The world of a shape at first: no message, no crash, nothing told.
    pub(crate) fn new(alloc: Global, shape: &Shape) -> Result<Nodes, AllocError>
        ensures { IfOk result (λ world. world ≡ first_world shape.now) }
    {
        Ok(Nodes {
            snapshot: Snapshot::first(alloc, shape)?,
            ledger: Ledger::new(alloc)?,
        })
    }

    pub(crate) fn snapshot(&self) -> &Snapshot
        ensures { world_of_standing result.now ≡ bare self.now }
    {
        &self.snapshot
    }

    pub(crate) fn shape(&self) -> &Shape
        ensures { result.now ≡ self.now.shape }
    {
        &self.snapshot.shape
    }

    /// What the clients did and were told, in order.
    pub(crate) fn history(&self) -> &[Event]
        ensures history { result.now ≡ self.now.history }
        ensures few { length self.now.history ≤ 2 * self.now.events }
    {
        self.ledger.history()
    }

    /// How many messages were sent.
    pub(crate) fn sent(&self) -> u32
        ensures sent { result ≡ length self.now.sent }
        ensures within { result ≤ MESSAGES_LIMIT }
    {
        self.ledger.sent() as u32
    }

    /// How many events were accepted.
    pub(crate) fn events(&self) -> u32
        ensures { result ≡ self.now.events }
    {
        self.ledger.events()
    }

    /// Message `k`, counted from 1 in the order of sending.
    pub(crate) fn message(&self, k: u32) -> Option<&Envelope>
        ensures { option_copied result ≡ message_at self.now k }
    {
        self.ledger.message(k)
    }

    /// How many messages may still be sent, by their number and by what messages weigh at least.
    pub(crate) fn room(&self) -> u32
        ensures { IsRoom self.now result }
    {
        let by_number = MESSAGES_LIMIT - self.sent();
        let by_weight = self.ledger.weight_left() / LEAST_WEIGHT;
        if by_weight < by_number as u64 {
            by_weight as u32
        } else {
            by_number
        }
    }

    /// What clients did and were told, taken out of the world.
    pub(crate) fn into_history(self) -> EventList
        ensures { result ≡ self.history }
    {
        self.ledger.into_history()
    }
}
