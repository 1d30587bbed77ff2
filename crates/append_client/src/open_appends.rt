//! The appends of a client that aren't finished, one slot for each number from the lowest unfinished
//! one on.
//!
//! A finished append leaves its slot empty, so a slot tells by itself whether its number is finished;
//! the first slot never is empty. An append is found in one step by its number, and a slot is taken out
//! once: there are no more slots than the window has numbers.

ghost use Rattle.std.specs.Prelude.{◌≡◌, ◌+◌, ◌^◌, ◌<◌, ◌≤◌, ◌↔◌, ◌==◌, ◌++◌, ◌∷◌, [], ℕ, true, false, length, drop, map, remove, slice_set, IsTrue, IfOk, IfSome, IfNone, OnOk, OnErr, Some, None};
ghost use Rattle.lazy_rules.specs.ClientState.{OpenAppend as Unfinished, lowest};
ghost use Rattle.lazy_rules.specs.ClientRules.{noted, unacknowledged};
ghost use Rattle.append_client.specs.Appends.{IsAt, IsOutside, taken, begins_open, place_in};

use crate::open_append::{OpenAppend, clear_slot, copy_slot, note_slot};
use rec_id::Bytes;
use std::alloc::{AllocError, Global};
use std::collections::VecDeque;
use std::marker::Model;

/// The unfinished appends.
#[derive(Drop)]
pub(crate) struct OpenAppends {
    /// The number of the first slot.
    pub(crate) first: u32,
    pub(crate) slots: VecDeque<Option<OpenAppend>>,
}

impl Model for OpenAppends {
    ghost use Rattle.std.specs.Prelude.{◌+◌, ◌-◌, length};
    ghost use Rattle.std.specs.VecDeque.{deque_capacity};
    ghost use Rattle.append_client.specs.Appends.{Appends, AreSlots, taken};

    ghost Value = { Appends };

    ghost view = { λ a. record { next = a.first + length a.slots.items; unfinished = taken a.slots.items; room = deque_capacity a.slots - length a.slots.items } };

    ghost invariant = { λ a. AreSlots a.first a.slots.items };
}

/// The first slot is there, and empty.
fn starts_empty(slots: &VecDeque<Option<OpenAppend>>) -> bool
    ensures { IsTrue result ↔ (begins_open slots.now.items ≡ false) }
{
    match slots.front() {
        Some(Some(_)) => false,
        Some(None) => true,
        None => false,
    }
}

/// Takes out the empty slots before the first append, and tells how many there were.
fn drop_empty(slots: &mut VecDeque<Option<OpenAppend>>) -> usize
    ensures rest { slots.new.items ≡ drop result slots.old.items }
    ensures within { result ≤ length slots.old.items }
    ensures open { begins_open slots.new.items ≡ true }
    ensures same { taken slots.new.items ≡ taken slots.old.items }
{
    let mut count = 0;
    'empty: while starts_empty(slots) {
        let _ = slots.pop_front();
        count += 1;
    }
    count
}

/// The slot of this number, the first slot's being `first`.
fn slot_of(first: u32, slots: &VecDeque<Option<OpenAppend>>, number: u32) -> Option<usize>
    ensures some { IfSome result (λ k. (k < length slots.now.items) × (first + k ≡ number)) }
    ensures none { IfNone result (IsOutside first slots.now.items number) }
{
    if number < first {
        return None;
    }
    let slot = (number - first) as usize;
    if slot < slots.len() { Some(slot) } else { None }
}

impl OpenAppends {
    pub(crate) fn new(alloc: Global) -> OpenAppends
        ensures next { result.next ≡ 1 }
        ensures none { result.unfinished ≡ [] }
    {
        OpenAppends {
            first: 1,
            slots: VecDeque::new(alloc),
        }
    }

    pub(crate) fn allocator(&self) -> Global {
        *self.slots.allocator()
    }

    /// The number of the next append.
    pub(crate) fn next(&self) -> u32
        ensures next { result ≡ self.now.next }
        ensures least { 1 ≤ result }
    {
        self.first + self.slots.len() as u32
    }

    #[tactic(auto, using(crate::proofs::Slots::lowest_first))]
    /// The lowest number that isn't finished.
    pub(crate) fn lowest(&self) -> u32
        ensures { result ≡ lowest self.now.next self.now.unfinished }
    {
        self.first
    }

    #[tactic(auto, using(crate::proofs::Slots::none_left))]
    pub(crate) fn is_empty(&self) -> bool
        ensures { result ≡ (length self.now.unfinished == 0) }
    {
        self.slots.is_empty()
    }

    #[tactic(auto, using(crate::proofs::Slots::no_more))]
    /// How many numbers have a slot.
    pub(crate) fn len(&self) -> usize
        ensures { length self.now.unfinished ≤ result }
    {
        self.slots.len()
    }

    /// Makes room for one append more.
    pub(crate) fn reserve(&mut self) -> Result<(), AllocError>
        ensures next { self.new.next ≡ self.old.next }
        ensures same { self.new.unfinished ≡ self.old.unfinished }
        ensures room { OnOk result (1 ≤ self.new.room) }
    {
        self.slots.reserve(1)
    }

    /// Adds an append of the next number, which nobody acknowledged.
    pub(crate) fn push(&mut self, bytes: Bytes)
        requires room { 1 ≤ self.old.room }
        requires number { self.old.next + 1 < 2 ^ 32 }
        ensures next { self.new.next ≡ self.old.next + 1 }
        ensures more { self.new.unfinished ≡ self.old.unfinished ++ record { number = self.old.next; bytes = bytes; acked = [] } ∷ [] }
    {
        let append = OpenAppend::new(self.allocator(), self.next(), bytes);
        self.slots.push_back_reserved(Some(append));
    }

    #[tactic(auto, using(crate::proofs::Slots::absent_outside))]
    /// The unfinished append of this number.
    pub(crate) fn get(&self, number: u32) -> Option<&OpenAppend>
        ensures some { IfSome result (λ append. (i : ℕ) × IsAt self.now.unfinished number i append.now) }
        ensures none { IfNone result (place_in self.now.unfinished number ≡ None) }
    {
        let slot = slot_of(self.first, &self.slots, number)?;
        match &self.slots[slot] {
            Some(append) => Some(append),
            None => None,
        }
    }

    /// One node more acknowledged the append of this number.
    pub(crate) fn note(&mut self, number: u32, node: u32) -> Result<(), AllocError>
        ensures next { self.new.next ≡ self.old.next }
        ensures noted { (i : ℕ) (a : Unfinished) → IsAt self.old.unfinished number i a → OnOk result (self.new.unfinished ≡ slice_set self.old.unfinished i (noted a node)) }
        ensures err { OnErr result (self.new.unfinished ≡ self.old.unfinished) }
    {
        match slot_of(self.first, &self.slots, number) {
            Some(slot) => note_slot(&mut self.slots[slot], node),
            None => Ok(()),
        }
    }

    /// The append of this number is finished.
    pub(crate) fn finish(&mut self, number: u32)
        ensures next { self.new.next ≡ self.old.next }
        ensures out { (i : ℕ) → place_in self.old.unfinished number ≡ Some i → self.new.unfinished ≡ remove self.old.unfinished i }
    {
        if let Some(slot) = slot_of(self.first, &self.slots, number) {
            self.slots[slot] = None;
            self.first += drop_empty(&mut self.slots) as u32;
        }
    }
}

impl OpenAppends {
    /// Equal appends.
    pub(crate) fn copy(&self) -> Result<OpenAppends, AllocError>
        ensures next { IfOk result (λ made. made.next ≡ self.now.next) }
        ensures same { IfOk result (λ made. made.unfinished ≡ self.now.unfinished) }
    {
        let mut slots = VecDeque::new(self.allocator());
        for i in 0..self.slots.len() {
            slots.push_back(copy_slot(&self.slots[i])?)?;
        }
        Ok(OpenAppends {
            first: self.first,
            slots,
        })
    }

    /// The appends with no acknowledgement.
    pub(crate) fn unacknowledged(&self) -> Result<OpenAppends, AllocError>
        ensures next { IfOk result (λ made. made.next ≡ self.now.next) }
        ensures cleared { IfOk result (λ made. made.unfinished ≡ map unacknowledged self.now.unfinished) }
    {
        let alloc = self.allocator();
        let mut slots = VecDeque::new(alloc);
        for i in 0..self.slots.len() {
            slots.push_back(clear_slot(alloc, &self.slots[i])?)?;
        }
        Ok(OpenAppends {
            first: self.first,
            slots,
        })
    }
}
