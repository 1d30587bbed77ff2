//! A node with its diary, and with the time that it has reached.

ghost use Rattle.std.specs.Prelude.{◌≡◌, ◌-◌, ◌<◌, ◌≤◌, [], length, OnOk, OnErr, slice_get, option_copied};
ghost use Rattle.lazy_msgs.specs.declared.limits.TheConstants.{TIME_LIMIT};
ghost use Rattle.view_config.specs.Shape.{Dimensions};
ghost use Rattle.node_diary.specs.Fed.{IsFed, IsFedIn};
ghost use Rattle.node_diary.specs.Feeding.{heard};
ghost use Rattle.node_diary.specs.Given.{diary_of};
ghost use Rattle.node_diary.specs.States.{Begins, BeginsSomewhere};

use crate::TooLate;
use lazy_core::{NodeState, Note};
use lazy_msgs::{Diary, DiaryEntry, TIME_LIMIT};
use plain_lists::Sequence;
use rec_id::EventList;
use std::alloc::Global;
use std::marker::Model;

/// A node, what it did, what was told meanwhile, and its time. Whatever it is fed, its diary folds to its state.
#[derive(Drop)]
pub struct DiaryNode {
    pub(crate) alloc: Global,
    pub(crate) state: NodeState,
    pub(crate) diary: Diary,
    pub(crate) told: EventList,
    pub(crate) time: u64,
    pub(crate) weight: u64,
}

impl Model for DiaryNode {
    ghost use Rattle.std.specs.Prelude.{◌≡◌};
    ghost use Rattle.node_diary.specs.Feeding.{Diarist};

    ghost Value = { Diarist };

    ghost use Rattle.node_diary.specs.Fed.{IsFed};
    ghost use Rattle.diary_merge.specs.Weights.{diary_weight};

    ghost view = { λ a. record { node = a.diary.node; state = a.state; entries = a.diary.entries; told = a.told; time = a.time } };

    ghost invariant = { λ a. IsFed (record { node = a.diary.node; state = a.state; entries = a.diary.entries; told = a.told; time = a.time }) × (a.weight ≡ diary_weight a.diary.entries) };
}

impl DiaryNode {
    /// The node of this number, in its first state, at time 0. It takes no memory.
    pub fn new(alloc: Global, node: u32, state: NodeState) -> DiaryNode
        requires { BeginsSomewhere node state }
        ensures new { result ≡ record { node = node; state = state; entries = []; told = []; time = 0 } }
        ensures fed { (shape : Dimensions) → Begins shape node state → IsFedIn shape result }
    {
        DiaryNode {
            alloc,
            state,
            diary: Diary {
                node,
                entries: Sequence::new(alloc),
            },
            told: Sequence::new(alloc),
            time: 0,
            weight: 0,
        }
    }

    pub fn state(&self) -> &NodeState
        ensures { result.now ≡ self.now.state }
    {
        &self.state
    }

    /// What its steps told, in order.
    pub fn told(&self) -> &EventList
        ensures { result.now ≡ self.now.told }
    {
        &self.told
    }

    /// Its last entry, `None` where it has none.
    pub fn last(&self) -> Option<&DiaryEntry>
        ensures { option_copied result ≡ slice_get self.now.entries (length self.now.entries - 1) }
    {
        self.diary.entries.as_slice().last()
    }

    /// What it did. Whatever it was fed, that folds to its state and tells what was told.
    pub fn diary(&self) -> &Diary
        ensures diary { result.now ≡ diary_of self.now }
        ensures fed { IsFed self.now }
    {
        &self.diary
    }

    /// Its time, for others to hear.
    pub fn note(&self) -> Note
        ensures time { result.time ≡ self.now.time }
        ensures early { result.time < TIME_LIMIT }
    {
        Note { time: self.time }
    }

    /// Raises its time to the note's, where that is greater: what it does next is later than what the note's sender did
    /// before. Refused exactly where the note's time is 2^40 or more.
    pub fn hear(&mut self, note: Note) -> Result<(), TooLate>
        ensures heard { OnOk result (self.new ≡ heard self.old note.time) }
        ensures early { OnOk result (note.time < TIME_LIMIT) }
        ensures late { OnErr result (TIME_LIMIT ≤ note.time) }
        ensures unchanged { OnErr result (self.new ≡ self.old) }
        ensures fed { (shape : Dimensions) → IsFedIn shape self.old → IsFedIn shape self.new }
    {
        if note.time >= TIME_LIMIT {
            return Err(TooLate);
        }
        if note.time > self.time {
            self.time = note.time;
        }
        Ok(())
    }

    /// Its diary, by itself.
    pub fn into_diary(self) -> Diary
        ensures diary { result ≡ diary_of self }
        ensures fed { IsFed self }
    {
        let DiaryNode {
            alloc: _,
            state: _,
            diary,
            told: _,
            time: _,
            weight: _,
        } = self;
        diary
    }
}
