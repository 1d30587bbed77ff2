//! One step of a node: an input, what comes of it, and the entry of both.

ghost use Rattle.std.specs.Prelude.{◌≡◌, ◌≢◌, ◌+◌, ◌≤◌, ◌<◌, ◌||◌, nat_le, nat_lt, true, max, None, Some, IfErr, OnOk, OnErr, IfNone, IfSome};
ghost use Rattle.view_config.specs.Shape.{Dimensions};
ghost use Rattle.lazy_msgs.specs.declared.limits.TheConstants.{TIME_LIMIT};
ghost use Rattle.world_facts.specs.Turns.{time_in};
ghost use Rattle.node_diary.specs.Fed.{IsFedIn};
ghost use Rattle.node_diary.specs.Feeding.{IsFedBy, feed_refusal};

use crate::FeedRefused;
use crate::node::DiaryNode;
use crate::write::write;
use diary_merge::{DIARY_WEIGHT_LIMIT, ENTRIES_LIMIT, input_weight};
use lazy_msgs::{Input, TIME_LIMIT};
use plain_lists::Sequence;
use std::alloc::Global;
use std::mem;

/// The time of what is received, 0 where nothing is.
fn time_in(input: &Input) -> u64
    ensures { result ≡ time_in input.now }
{
    match input {
        Input::Take(envelope) => envelope.time,
        Input::Tick
        | Input::Grace
        | Input::Crash
        | Input::Post(_)
        | Input::Ask(_)
        | Input::Trim(_)
        | Input::Suspect(_)
        | Input::Peek { .. } => 0,
    }
}

/// The time of a step that receives something of this time, `None` where that would be 2^40 or more.
fn step_time(time: u64, received: u64) -> Option<u64>
    ensures some { IfSome result (λ next. (next ≡ max time received + 1) × (next < TIME_LIMIT)) }
    ensures none { IfNone result (TIME_LIMIT ≤ max time received + 1) }
{
    let latest = time.max(received);
    if latest >= TIME_LIMIT - 1 {
        return None;
    }
    Some(latest + 1)
}

/// How much the sends of an entry may weigh, whose input weighs this, in a diary of so many entries and of this weight;
/// `None` where there is no room for the input.
fn room_left(entries: usize, weight: u64, input: u64) -> Option<u64>
    ensures some { IfSome result (λ left. (entries < ENTRIES_LIMIT) × (weight + input + left ≡ DIARY_WEIGHT_LIMIT)) }
    ensures none { IfNone result ((nat_le ENTRIES_LIMIT entries || nat_lt DIARY_WEIGHT_LIMIT (weight + input)) ≡ true) }
{
    if entries >= ENTRIES_LIMIT {
        return None;
    }
    DIARY_WEIGHT_LIMIT.checked_sub(weight)?.checked_sub(input)
}

/// The members of the list, which is left empty.
fn take_out<T: Drop>(alloc: Global, list: &mut Sequence<T>) -> Vec<T>
    ensures { result.items ≡ list.old }
{
    mem::replace(list, Sequence::new(alloc)).into_vec()
}

impl DiaryNode {
    /// Takes an input: room is made, the node steps, its time rises, and one entry is written. A Tick or a Grace that
    /// changes and sends nothing leaves no entry and no time.
    ///
    /// Refusals, in order: `ClockSpent` where the time would be 2^40 or more; `DiaryFull` where the diary has its full
    /// number of entries, or the input alone would make it too heavy; the node's own; `DiaryFull` where the input and what
    /// is sent would, together; `Memory`. Refused, nothing is changed.
    pub fn feed(&mut self, input: Input) -> Result<(), FeedRefused>
        ensures done { OnOk result (IsFedBy input self.old self.new) }
        ensures allowed { OnOk result (feed_refusal self.old input ≡ None) }
        ensures refused { IfErr result (λ e. e ≢ FeedRefused.Memory → feed_refusal self.old input ≡ Some e) }
        ensures unchanged { OnErr result (self.new ≡ self.old) }
        ensures fed { (shape : Dimensions) → IsFedIn shape self.old → IsFedIn shape self.new }
    {
        let Some(time) = step_time(self.time, time_in(&input)) else {
            return Err(FeedRefused::ClockSpent);
        };
        let weight = input_weight(&input);
        let Some(left) = room_left(self.diary.entries.len(), self.weight, weight) else {
            return Err(FeedRefused::DiaryFull);
        };
        let mut entries = take_out(self.alloc, &mut self.diary.entries);
        let mut told = take_out(self.alloc, &mut self.told);
        let outcome = write(&mut self.state, &mut entries, &mut told, time, input, left);
        self.diary.entries = Sequence::from_vec(entries);
        self.told = Sequence::from_vec(told);
        if let Some(sends) = outcome? {
            self.time = time;
            self.weight += weight + sends;
        }
        Ok(())
    }
}
