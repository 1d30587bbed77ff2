//! A batch with room for all its answers.

ghost use Rattle.std.specs.Prelude.{◌≡◌, ◌+◌, ◌<◌, ◌==◌, if◌then◌else◌, IfOk};
ghost use Rattle.lazy_rules.specs.Flight.{new_batch, has_all, is_finished, is_placing_to, is_ordering_to, lacks_place, lacks_order, now_ordering, order_noted, place_noted};
ghost use Rattle.binder.specs.Binding.{once_placed, outline};

use crate::answers::Answers;
use crate::batch::Batch;
use std::alloc::{AllocError, Global};
use std::marker::Model;

/// A batch, or the room for one.
#[derive(Drop)]
pub(crate) struct Slot {
    from: u32,
    count: u32,
    ordering: bool,
    placed: Answers,
    ordered: Answers,
}

impl Model for Slot {
    ghost use Rattle.binder.specs.Held.{Held};

    ghost Value = { Held };

    ghost view = { λ a. record {
      batch = record { from = a.from; count = a.count; ordering = a.ordering; placed = a.placed.given; ordered = a.ordered.given };
      shards = a.placed.count;
      followers = a.ordered.count;
    } };
}

impl Slot {
    ghost use Rattle.binder.specs.Held.{Held};

    pub(crate) fn new(alloc: Global, shards: u32, followers: u32) -> Result<Slot, AllocError>
        ensures { IfOk result (λ made. made ≡ record { batch = new_batch 0 0; shards = shards; followers = followers }) }
    {
        Ok(Slot {
            from: 0,
            count: 0,
            ordering: false,
            placed: Answers::new(alloc, shards)?,
            ordered: Answers::new(alloc, followers)?,
        })
    }

    /// Becomes a batch that nobody answered for.
    pub(crate) fn begin(&mut self, from: u32, count: u32)
        ensures { self.new ≡ record self.old { batch = new_batch from count } }
    {
        self.from = from;
        self.count = count;
        self.ordering = false;
        self.placed.clear();
        self.ordered.clear();
    }

    pub(crate) fn outline(&self) -> Batch
        ensures { result ≡ outline self.now.batch }
    {
        Batch {
            from: self.from,
            count: self.count,
            ordering: self.ordering,
        }
    }

    fn ends_at(&self, upto: u32) -> bool
        ensures { result ≡ (self.now.batch.from + self.now.batch.count == upto) }
    {
        u64::from(self.from) + u64::from(self.count) == u64::from(upto)
    }

    pub(crate) fn is_ordering(&self) -> bool
        ensures { result ≡ self.now.batch.ordering }
    {
        self.ordering
    }

    pub(crate) fn is_placed(&self) -> bool
        ensures { result ≡ has_all self.now.shards self.now.batch.placed }
    {
        self.placed.are_all()
    }

    pub(crate) fn is_finished(&self) -> bool
        ensures { result ≡ is_finished self.now.followers self.now.batch }
    {
        self.ordering && self.ordered.are_all()
    }

    pub(crate) fn lacks_place(&self, shard: u32) -> bool
        ensures { result ≡ lacks_place self.now.batch shard }
    {
        !self.placed.has(shard)
    }

    pub(crate) fn lacks_order(&self, follower: u32) -> bool
        ensures { result ≡ lacks_order self.now.batch follower }
    {
        !self.ordered.has(follower)
    }

    /// The batch is being placed, and ends at `upto`.
    pub(crate) fn is_placing_to(&self, upto: u32) -> bool
        ensures { result ≡ is_placing_to upto self.now.batch }
    {
        !self.ordering && self.ends_at(upto)
    }

    /// Every shard answered for it, once this one has, for all positions below `upto`.
    pub(crate) fn is_placed_with(&self, shard: u32, upto: u32) -> bool
        requires { shard < self.now.shards }
        ensures { result ≡ has_all self.now.shards (place_noted upto shard self.now.batch).placed }
    {
        if self.is_placing_to(upto) {
            return self.placed.are_all_with(shard);
        }
        self.placed.are_all()
    }

    /// It is finished, once this shard has answered for all positions below `upto` and it has passed
    /// where it can.
    pub(crate) fn is_finished_once_placed(&self, shard: u32, upto: u32) -> bool
        requires { shard < self.now.shards }
        ensures { result ≡ is_finished self.now.followers (once_placed self.now.shards upto shard self.now.batch) }
    {
        if self.ordering {
            return self.ordered.are_all();
        }
        if !self.is_placed_with(shard, upto) {
            return false;
        }
        self.ordered.are_none()
    }

    /// The batch is ordered, and ends at `upto`.
    pub(crate) fn is_ordering_to(&self, upto: u32) -> bool
        ensures { result ≡ is_ordering_to upto self.now.batch }
    {
        self.ordering && self.ends_at(upto)
    }

    /// It is finished, once this follower has answered for all positions below `upto`.
    pub(crate) fn is_finished_with(&self, follower: u32, upto: u32) -> bool
        requires { follower < self.now.followers }
        ensures { result ≡ is_finished self.now.followers (order_noted upto follower self.now.batch) }
    {
        if self.is_ordering_to(upto) {
            return self.ordered.are_all_with(follower);
        }
        self.is_finished()
    }

    /// Notes the shard's answer where the batch is being placed and ends at `upto`, and says whether.
    pub(crate) fn note_place(&mut self, shard: u32, upto: u32) -> bool
        requires { shard < self.old.shards }
        ensures noted { self.new ≡ record self.old { batch = place_noted upto shard self.old.batch } }
        ensures here { result ≡ is_placing_to upto self.old.batch }
    {
        let here = !self.ordering && self.ends_at(upto);
        if here {
            self.placed.note(shard);
        }
        here
    }

    /// Notes the follower's answer where the batch is ordered and ends at `upto`, and says whether.
    pub(crate) fn note_order(&mut self, follower: u32, upto: u32) -> bool
        requires { follower < self.old.followers }
        ensures noted { self.new ≡ record self.old { batch = order_noted upto follower self.old.batch } }
        ensures here { result ≡ is_ordering_to upto self.old.batch }
    {
        let here = self.ordering && self.ends_at(upto);
        if here {
            self.ordered.note(follower);
        }
        here
    }

    /// From now on the batch is to be ordered.
    pub(crate) fn order(&mut self)
        ensures { self.new ≡ record self.old { batch = now_ordering self.old.batch } }
    {
        self.ordering = true;
        self.ordered.clear();
    }
}
