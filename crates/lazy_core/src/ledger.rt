//! What happened in a world: the time of each node, every message ever sent, and what was told.
//!
//! A step is entered in two calls: `outbox` makes the room before it, and `enter` can't fail after
//! it. So a step that finds no memory leaves all as it was.

ghost use Rattle.std.specs.Prelude.{◌≡◌, ◌+◌, ◌-◌, ◌^◌, ◌<◌, ◌≤◌, ◌++◌, [], length, max, replicate, slice_index, slice_set, vec_len, vec_capacity, IfOk, OnOk, option_copied};
ghost use Rattle.lazy_msgs.specs.Weight.{sends_weight};
ghost use Rattle.lazy_rules.specs.WorldRules.{enveloped, sent_weight, envelope_at};
ghost use Rattle.lazy_core.specs.Ledger.{LedgerState, Keeps, Adds, outbox_for};
ghost use Rattle.view_config.specs.Nodes.{node_count};

use lazy_msgs::{Envelope, Outbox, SendList};
use lazy_rules::WEIGHT_LIMIT;
use rec_id::{Event, EventList};
use std::alloc::{AllocError, Global};
use std::marker::Model;
use view_config::BOARD;

/// How many events one step tells at most.
const TOLD_LIMIT: usize = 2;

/// The times of the nodes by their numbers, the messages sent, the events told, and how many events
/// of the world were accepted.
#[derive(Drop)]
pub(crate) struct Ledger {
    times: Vec<u64>,
    sent: Vec<Envelope>,
    history: Vec<Event>,
    events: u32,
    weight: u64,
}

impl Model for Ledger {
    ghost use Rattle.std.specs.Prelude.{◌≡◌, ◌-◌, ◌≤◌, vec_len, vec_capacity};
    ghost use Rattle.lazy_core.specs.Ledger.{LedgerState};
    ghost use Rattle.lazy_rules.specs.WorldRules.{sent_weight};
    ghost use Rattle.lazy_rules.specs.declared.limits.TheConstants.{WEIGHT_LIMIT};

    ghost Value = { LedgerState };

    ghost view = { λ a. record { times = a.times.items; sent = a.sent.items; history = a.history.items; events = a.events; message_room = vec_capacity a.sent - vec_len a.sent; event_room = vec_capacity a.history - vec_len a.history } };

    ghost invariant = { λ a. (a.weight ≡ sent_weight a.sent.items) × (a.weight ≤ WEIGHT_LIMIT) };
}

/// Raises the time of a node for a step that receives a message of this time, and tells the step's.
fn raise_time(times: &mut Vec<u64>, node: usize, received: u64) -> u64
    requires node { node < length times.old.items }
    requires own { slice_index times.old.items node + 1 < 2 ^ 64 }
    requires received { received + 1 < 2 ^ 64 }
    ensures time { result ≡ max (slice_index times.old.items node) received + 1 }
    ensures times { times.new.items ≡ slice_set times.old.items node (max (slice_index times.old.items node) received + 1) }
{
    let time = times[node].max(received) + 1;
    times[node] = time;
    time
}

/// Puts messages in their envelopes behind those sent before.
fn add_sends(sent: &mut Vec<Envelope>, sender: u32, time: u64, sends: SendList)
    requires { vec_len sent.old + length sends ≤ vec_capacity sent.old }
    ensures { sent.new.items ≡ sent.old.items ++ enveloped sender time sends }
{
    for (to, msg) in sends.into_vec() {
        sent.push_reserved(Envelope {
            from: sender,
            to,
            time,
            msg,
        });
    }
}

/// Puts events behind those told before.
fn add_events(history: &mut Vec<Event>, told: EventList)
    requires { vec_len history.old + length told ≤ vec_capacity history.old }
    ensures { history.new.items ≡ history.old.items ++ told }
{
    let mut told = told.into_vec();
    let Ok(()) = history.append(&mut told) else {
        unreachable!()
    };
}

fn first_times(alloc: Global) -> Result<Vec<u64>, AllocError>
    ensures { IfOk result (λ made. made.items ≡ replicate node_count 0) }
{
    Vec::from_elem(alloc, 0, BOARD as usize)
}

impl Ledger {
    /// Nothing has happened.
    pub(crate) fn new(alloc: Global) -> Result<Ledger, AllocError>
        ensures times { IfOk result (λ made. made.times ≡ replicate node_count 0) }
        ensures sent { IfOk result (λ made. made.sent ≡ []) }
        ensures history { IfOk result (λ made. made.history ≡ []) }
        ensures events { IfOk result (λ made. made.events ≡ 0) }
    {
        Ok(Ledger {
            times: first_times(alloc)?,
            sent: Vec::new(alloc),
            history: Vec::new(alloc),
            events: 0,
            weight: 0,
        })
    }

    pub(crate) fn history(&self) -> &[Event]
        ensures { result.now ≡ self.now.history }
    {
        self.history.as_slice()
    }

    /// What was told, taken out of the ledger.
    pub(crate) fn into_history(self) -> EventList
        ensures { result ≡ self.history }
    {
        EventList::from_vec(self.history)
    }

    /// How many messages were sent.
    pub(crate) fn sent(&self) -> usize
        ensures { result ≡ length self.now.sent }
    {
        self.sent.len()
    }

    /// How much more the messages may weigh that are sent.
    pub(crate) fn weight_left(&self) -> u64
        ensures { result + sent_weight self.now.sent ≡ WEIGHT_LIMIT }
    {
        WEIGHT_LIMIT - self.weight
    }

    /// How many events of the world were accepted.
    pub(crate) fn events(&self) -> u32
        ensures { result ≡ self.now.events }
    {
        self.events
    }

    /// Message `k`, counted from 1.
    pub(crate) fn message(&self, k: u32) -> Option<&Envelope>
        ensures { option_copied result ≡ envelope_at self.now.sent k }
    {
        if k == 0 {
            return None;
        }
        self.sent.get(k as usize - 1)
    }

    /// Makes room for a step that sends so many messages at most, and an outbox for it.
    pub(crate) fn outbox(&mut self, room: u32) -> Result<Outbox, AllocError>
        ensures kept { Keeps self.old self.new }
        ensures outbox { IfOk result (λ out. out ≡ outbox_for self.old room) }
        ensures messages { OnOk result (room ≤ self.new.message_room) }
        ensures events { OnOk result (2 ≤ self.new.event_room) }
    {
        self.sent.reserve(room as usize)?;
        self.history.reserve(TOLD_LIMIT)?;
        let alloc = *self.sent.allocator();
        Ok(Outbox::new(alloc, room, WEIGHT_LIMIT - self.weight))
    }

    /// Enters a step of this node, which received a message of this time, or of time 0 where it
    /// received none.
    pub(crate) fn enter(&mut self, node: u32, received: u64, out: Outbox)
        requires messages { length out.sends ≤ self.old.message_room }
        requires told { length out.events ≤ self.old.event_room }
        requires weight { sent_weight self.old.sent + sends_weight out.sends ≤ WEIGHT_LIMIT }
        requires node { node < length self.old.times }
        requires own { slice_index self.old.times node + 1 < 2 ^ 64 }
        requires received { received + 1 < 2 ^ 64 }
        requires countable { self.old.events + 1 < 2 ^ 32 }
        ensures { Adds node received out.sends out.events self.old self.new }
    {
        self.weight += out.weight();
        let (sends, told) = out.into_lists();
        let time = raise_time(&mut self.times, node as usize, received);
        add_sends(&mut self.sent, node, time, sends);
        add_events(&mut self.history, told);
        self.events += 1;
    }
}
