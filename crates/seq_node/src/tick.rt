//! Tick: the leader sends again what isn't answered, batch by batch, and begins the next batch.

ghost use Rattle.std.specs.Prelude.{◌≡◌, ℕ, ◌++◌, ◌<◌, length, flat_map, slice_get, Some, true, IfOk};
ghost use Rattle.lazy_msgs.specs.Step.{StepsTo};
ghost use Rattle.lazy_rules.specs.Flight.{Batch};
ghost use Rattle.lazy_rules.specs.Leading.{begins, order_sends, order_to, place_sends, place_to, resends};
ghost use Rattle.lazy_rules.specs.Roles.{followers_of, replicas_at};
ghost use Rattle.lazy_rules.specs.Rows.{followed, sends_all};
ghost use Rattle.lazy_rules.specs.SeqRules.{has_positions, is_leader, on_tick};

use crate::SeqNode;
use lazy_msgs::{Outbox, SendList, StepRefused};
use plain_lists::Sequence;
use std::alloc::AllocError;

impl SeqNode {
    /// Gives batch `i` to a shard's primary, where its answer is awaited.
    fn add_place_again(&self, i: u32, shard: u32, sends: &mut SendList) -> Result<(), AllocError>
        requires fits { has_positions self.now ≡ true }
        requires there { i < length self.now.flight }
        requires known { shard < length self.now.config.shards }
        ensures { (batch : Batch) → slice_get self.now.flight i ≡ Some batch → IfOk result (λ _. sends.new ≡ sends.old ++ place_to self.now batch shard (replicas_at self.now.config shard)) }
    {
        if !self.binder.lacks_place(i, shard) {
            return Ok(());
        }
        let _ = self.binder.flight();
        let batch = self.binder.batch(i);
        self.add_place(shard, batch.from, batch.count, sends)
    }

    /// Gives batch `i` to the primaries whose answers are awaited.
    fn add_places_again(&self, i: u32, sends: &mut SendList) -> Result<(), AllocError>
        requires fits { has_positions self.now ≡ true }
        requires there { i < length self.now.flight }
        ensures { (batch : Batch) → slice_get self.now.flight i ≡ Some batch → IfOk result (λ _. sends.new ≡ sends.old ++ place_sends self.now batch) }
    {
        for shard in 0..self.shards() {
            self.add_place_again(i, shard, sends)?;
        }
        Ok(())
    }

    /// Gives batch `i` to a follower, where its answer is awaited.
    fn add_order_again(&self, i: u32, follower: u32, sends: &mut SendList) -> Result<(), AllocError>
        requires fits { has_positions self.now ≡ true }
        requires there { i < length self.now.flight }
        requires known { follower < length (followers_of self.now.config) }
        ensures { (batch : Batch) (node : ℕ) → slice_get self.now.flight i ≡ Some batch → slice_get (followers_of self.now.config) follower ≡ Some node → IfOk result (λ _. sends.new ≡ sends.old ++ order_to self.now batch follower node) }
    {
        if !self.binder.lacks_order(i, follower) {
            return Ok(());
        }
        let _ = self.binder.flight();
        let batch = self.binder.batch(i);
        self.add_order(follower, batch.from, batch.count, sends)
    }

    /// Gives batch `i` to the followers whose answers are awaited.
    fn add_orders_again(&self, i: u32, sends: &mut SendList) -> Result<(), AllocError>
        requires fits { has_positions self.now ≡ true }
        requires there { i < length self.now.flight }
        ensures { (batch : Batch) → slice_get self.now.flight i ≡ Some batch → IfOk result (λ _. sends.new ≡ sends.old ++ order_sends self.now batch) }
    {
        for follower in 0..self.followers() {
            self.add_order_again(i, follower, sends)?;
        }
        Ok(())
    }

    /// Sends batch `i` to those whose answers are awaited.
    fn add_again(&self, i: u32, sends: &mut SendList) -> Result<(), AllocError>
        requires fits { has_positions self.now ≡ true }
        requires there { i < length self.now.flight }
        ensures { (batch : Batch) → slice_get self.now.flight i ≡ Some batch → IfOk result (λ _. sends.new ≡ sends.old ++ resends self.now batch) }
    {
        if self.binder.batch(i).ordering {
            return self.add_orders_again(i, sends);
        }
        self.add_places_again(i, sends)
    }

    /// Sends all batches to those whose answers are awaited.
    fn send_again(&self, sends: &mut SendList) -> Result<(), AllocError>
        requires { has_positions self.now ≡ true }
        ensures { IfOk result (λ _. sends.new ≡ sends.old ++ flat_map (resends self.now) self.now.flight) }
    {
        for i in 0..self.binder.flight() {
            self.add_again(i, sends)?;
        }
        Ok(())
    }

    /// What a leader does.
    fn tick_leading(&mut self, out: &mut Outbox) -> Result<(), StepRefused>
        requires leads { is_leader self.old ≡ true }
        requires fits { has_positions self.old ≡ true }
        ensures { StepsTo (followed (sends_all self.old (flat_map (resends self.old) self.old.flight)) begins) self.old self.new out.old out.new result StepRefused.Over }
    {
        let room = self.room().min(1);
        let from = self.flight_end();
        let end = self.pending_end();
        let mut sends = Sequence::new(self.alloc);
        self.send_again(&mut sends)?;
        self.add_begun(room, from, end, &mut sends)?;
        self.send_begun(room, end, sends, out)
    }

    pub(crate) fn tick(&mut self, out: &mut Outbox) -> Result<(), StepRefused>
        ensures { StepsTo (on_tick self.old) self.old self.new out.old out.new result StepRefused.Over }
    {
        if !self.is_leading(self.view) {
            return Ok(());
        }
        self.tick_leading(out)
    }
}
