//! PASS: the batches that every primary answered for are ordered.

ghost use Rattle.std.specs.Prelude.{◌≡◌, ℕ, ◌++◌, ◌<◌, drop, flat_map, length, slice_get, true, Some, IfOk};
ghost use Rattle.lazy_rules.specs.Flight.{Batch, now_ordering, passing, with_place};
ghost use Rattle.lazy_rules.specs.Leading.{order_sends};
ghost use Rattle.lazy_rules.specs.SeqRules.{has_positions};

use crate::SeqNode;
use lazy_msgs::SendList;
use std::alloc::AllocError;

impl SeqNode {
    /// Gives batch `i` to all followers.
    fn add_to_all(&self, i: u32, sends: &mut SendList) -> Result<(), AllocError>
        requires fits { has_positions self.now ≡ true }
        requires there { i < length self.now.flight }
        ensures { (batch : Batch) → slice_get self.now.flight i ≡ Some batch → IfOk result (λ _. sends.new ≡ sends.old ++ order_sends self.now (now_ordering batch)) }
    {
        let _ = self.binder.flight();
        let batch = self.binder.batch(i);
        for follower in 0..self.followers() {
            self.add_order(follower, batch.from, batch.count, sends)?;
        }
        Ok(())
    }

    /// Gives to all followers the batches from batch `i` on that pass once the shard's answer is noted.
    pub(crate) fn add_passing(
        &self,
        i: u32,
        shard: u32,
        upto: u32,
        sends: &mut SendList,
    ) -> Result<(), AllocError>
        requires fits { has_positions self.now ≡ true }
        requires known { shard < length self.now.config.shards }
        ensures { IfOk result (λ _. sends.new ≡ sends.old ++ flat_map (order_sends self.now) (passing (length self.now.config.shards) (with_place (drop i self.now.flight) shard upto))) }
    {
        let count = self.binder.flight();
        if i >= count {
            return Ok(());
        }
        let batch = self.binder.batch(i);
        if batch.ordering {
            return self.add_passing(i + 1, shard, upto, sends);
        }
        if !self.binder.is_placed_with(i, shard, upto) {
            return Ok(());
        }
        self.add_to_all(i, sends)?;
        self.add_passing(i + 1, shard, upto, sends)
    }
}
