//! The outbox: what a step sends and tells, within the room that its caller made.

ghost use Rattle.std.specs.Prelude.{◌≡◌, ◌+◌, ◌-◌, ◌^◌, ◌<◌, ◌≤◌, [], ◌∷◌, length, take, drop, IfSome, IfNone, OnOk, OnErr, Err};
ghost use Rattle.lazy_msgs.specs.Weight.{sends_weight};
ghost use Rattle.lazy_msgs.specs.Outbox.{Out, Fits, put_on, cut_to, emptied};

use crate::{Msg, OutboxRefused, message_weight};
use plain_lists::Sequence;
use rec_id::{Event, EventList};
use std::alloc::{AllocError, Global};
use std::marker::Model;

/// Messages with their addressees.
pub type SendList = Sequence<(u32, Msg)>;

/// Messages that are to be sent and events that are to be told, in order. It takes so many
/// messages, and so much weight of them, as it was made for.
#[derive(Drop)]
pub struct Outbox {
    sends: SendList,
    events: EventList,
    weight: u64,
    room_messages: u32,
    room_weight: u64,
}

impl Model for Outbox {
    ghost use Rattle.std.specs.Prelude.{◌≡◌, ◌-◌, ◌≤◌, length};
    ghost use Rattle.lazy_msgs.specs.Outbox.{Out};
    ghost use Rattle.lazy_msgs.specs.Weight.{sends_weight};

    ghost Value = { Out };

    ghost view = { λ a. record { sends = a.sends; events = a.events; messages_left = a.room_messages - length a.sends; weight_left = a.room_weight - a.weight } };

    ghost invariant = { λ a. (length a.sends ≤ a.room_messages) × (a.weight ≤ a.room_weight) × (a.weight ≡ sends_weight a.sends) };
}

#[tactic(auto, using(crate::proofs::Sends::sum_so_far))]
/// What the messages from place `from` on weigh.
fn weight_from(sends: &[(u32, Msg)], from: usize) -> u64
    requires within { from ≤ length sends.now }
    requires bounded { sends_weight (drop from sends.now) < 2 ^ 64 }
    ensures { result ≡ sends_weight (drop from sends.now) }
{
    let cut = &sends[from..];
    let mut sum = 0u64;
    for send in cut {
        sum += message_weight(&send.1);
    }
    sum
}

#[tactic(auto, using(crate::proofs::Sends::sum_so_far))]
/// What the messages weigh, `None` where that is more than `left`.
fn weight_within(sends: &[(u32, Msg)], left: u64) -> Option<u64>
    ensures within { IfSome result (λ weight. (weight ≡ sends_weight sends.now) × (weight ≤ left)) }
    ensures over { IfNone result (left < sends_weight sends.now) }
{
    let mut sum = 0u64;
    for send in sends {
        let weight = message_weight(&send.1);
        if weight > left - sum {
            return None;
        }
        sum += weight;
    }
    Some(sum)
}

impl Outbox {
    /// An empty outbox with room for so many messages of so much weight.
    pub fn new(alloc: Global, messages: u32, weight: u64) -> Outbox
        ensures { result ≡ record { sends = []; events = []; messages_left = messages; weight_left = weight } }
    {
        Outbox {
            sends: Sequence::new(alloc),
            events: Sequence::new(alloc),
            weight: 0,
            room_messages: messages,
            room_weight: weight,
        }
    }

    /// Puts in a message. `Over` where there is no room for it.
    pub fn send(&mut self, to: u32, msg: Msg) -> Result<(), OutboxRefused>
        ensures ok { OnOk result (self.new ≡ put_on self.old ((to, msg) ∷ []) []) }
        ensures fits { OnOk result (Fits ((to, msg) ∷ []) self.old) }
        ensures over { result ≡ Err OutboxRefused.Over → ¬ Fits ((to, msg) ∷ []) self.old }
        ensures err { OnErr result (self.new ≡ self.old) }
    {
        let weight = message_weight(&msg);
        if self.sends.len() >= self.room_messages as usize {
            return Err(OutboxRefused::Over);
        }
        if weight > self.room_weight - self.weight {
            return Err(OutboxRefused::Over);
        }
        self.sends.push((to, msg))?;
        self.weight += weight;
        Ok(())
    }

    /// Puts in all that one step sends and tells, or nothing of it. `Over` where there is no room
    /// for the messages.
    pub fn put(&mut self, sends: SendList, events: EventList) -> Result<(), OutboxRefused>
        ensures ok { OnOk result (self.new ≡ put_on self.old sends events) }
        ensures fits { OnOk result (Fits sends self.old) }
        ensures over { result ≡ Err OutboxRefused.Over → ¬ Fits sends self.old }
        ensures err { OnErr result (self.new ≡ self.old) }
    {
        if sends.len() > self.room_messages as usize - self.sends.len() {
            return Err(OutboxRefused::Over);
        }
        let Some(weight) = weight_within(sends.as_slice(), self.room_weight - self.weight) else {
            return Err(OutboxRefused::Over);
        };
        let before = self.sends.len();
        self.sends.append(sends)?;
        if self.events.append(events).is_err() {
            self.sends.truncate(before);
            return Err(OutboxRefused::Memory);
        }
        self.weight += weight;
        Ok(())
    }

    /// Puts in an event.
    pub fn tell(&mut self, event: Event) -> Result<(), AllocError>
        ensures ok { OnOk result (self.new ≡ put_on self.old [] (event ∷ [])) }
        ensures err { OnErr result (self.new ≡ self.old) }
    {
        self.events.push(event)
    }

    pub fn sends(&self) -> &SendList
        ensures { result.now ≡ self.now.sends }
    {
        &self.sends
    }

    pub fn events(&self) -> &EventList
        ensures { result.now ≡ self.now.events }
    {
        &self.events
    }

    /// What its messages weigh together.
    pub fn weight(&self) -> u64
        ensures { result ≡ sends_weight self.now.sends }
    {
        self.weight
    }

    /// Takes out all messages and events.
    pub fn clear(&mut self)
        ensures { self.new ≡ emptied self.old }
    {
        self.sends.truncate(0);
        self.events.truncate(0);
        self.weight = 0;
    }

    #[tactic(auto, using(crate::proofs::Sends::weight_of_parts))]
    /// Keeps the first `sends` messages and the first `events` events.
    pub fn cut_back(&mut self, sends: usize, events: usize)
        requires sends { sends ≤ length self.old.sends }
        requires events { events ≤ length self.old.events }
        ensures { self.new ≡ cut_to self.old sends events }
    {
        let used = self.weight;
        let cut = weight_from(self.sends.as_slice(), sends);
        self.sends.truncate(sends);
        self.events.truncate(events);
        self.weight = used - cut;
    }

    /// Gives the messages and events to the caller, who puts them where they belong.
    pub fn into_lists(self) -> (SendList, EventList)
        ensures sends { result.0 ≡ self.sends }
        ensures events { result.1 ≡ self.events }
    {
        let Outbox {
            sends,
            events,
            weight: _,
            room_messages: _,
            room_weight: _,
        } = self;
        (sends, events)
    }
}
