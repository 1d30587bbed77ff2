//! BEGIN: the next items are new batches, where there is room for them and there are such.

ghost use Rattle.std.specs.Prelude.{◌≡◌, ◌+◌, ◌^◌, ◌<◌, ◌≤◌, ◌++◌, flat_map, length, true, IfOk};
ghost use Rattle.lazy_msgs.specs.Step.{StepsTo};
ghost use Rattle.lazy_rules.specs.Flight.{flight_end, new_batch};
ghost use Rattle.lazy_rules.specs.Leading.{place_sends};
ghost use Rattle.lazy_rules.specs.Rows.{sends_all};
ghost use Rattle.lazy_rules.specs.SeqRules.{has_positions, is_leader};
ghost use Rattle.lazy_rules.specs.declared.limits.TheConstants.{FLIGHT_LIMIT};
ghost use Rattle.seq_node.specs.Batches.{IsWithin};
ghost use Rattle.seq_node.specs.Beginning.{begun, pending_end, room_for_one, with_begun};

use crate::SeqNode;
use binder::Binder;
use lazy_msgs::{BATCH_LIMIT, Outbox, SendList, StepRefused};
use lazy_rules::FLIGHT_LIMIT;
use plain_lists::Sequence;
use std::alloc::AllocError;

/// Batches begin, so many at most, from `from` on and while they begin below `limit`.
fn begin_all(binder: &mut Binder, room: u32, from: u32, end: u32, limit: u32)
    requires room { length binder.old.flight + room ≤ FLIGHT_LIMIT }
    requires next { flight_end from binder.old.flight ≡ from }
    requires within { limit ≤ end }
    ensures { binder.new ≡ record binder.old { flight = binder.old.flight ++ begun room from end limit } }
{
    if room == 0 {
        return;
    }
    if from >= limit {
        return;
    }
    let count = (end - from).min(BATCH_LIMIT);
    binder.begin(from, count);
    begin_all(binder, room - 1, from + count, end, limit)
}

impl SeqNode {
    /// Where the pending items end.
    pub(crate) fn pending_end(&self) -> u32
        requires { pending_end self.now < 2 ^ 32 }
        ensures { result ≡ pending_end self.now }
    {
        self.bound + self.pending.len() as u32
    }

    /// Where the flight ends.
    pub(crate) fn flight_end(&self) -> u32
        requires { has_positions self.now ≡ true }
        ensures is { result ≡ flight_end self.now.bound self.now.flight }
        ensures above { self.now.bound ≤ result }
        ensures within { result ≤ pending_end self.now }
    {
        let count = self.binder.flight();
        if count == 0 {
            return self.bound;
        }
        let last = self.binder.batch(count - 1);
        last.from + last.count
    }

    /// For how many batches there is room.
    pub(crate) fn room(&self) -> u32
        ensures { length self.now.flight + result ≡ FLIGHT_LIMIT }
    {
        FLIGHT_LIMIT - self.binder.flight()
    }

    /// Gives a new batch to all primaries.
    fn add_new(&self, from: u32, count: u32, sends: &mut SendList) -> Result<(), AllocError>
        requires { IsWithin self.now from count }
        ensures { IfOk result (λ _. sends.new ≡ sends.old ++ place_sends self.now (new_batch from count)) }
    {
        for shard in 0..self.shards() {
            self.add_place(shard, from, count, sends)?;
        }
        Ok(())
    }

    /// Gives the batches to all primaries that are to begin from `from` on.
    pub(crate) fn add_begun(
        &self,
        room: u32,
        from: u32,
        limit: u32,
        sends: &mut SendList,
    ) -> Result<(), AllocError>
        requires above { self.now.bound ≤ from }
        requires within { limit ≤ pending_end self.now }
        requires fits { pending_end self.now < 2 ^ 32 }
        ensures { IfOk result (λ _. sends.new ≡ sends.old ++ flat_map (place_sends self.now) (begun room from (pending_end self.now) limit)) }
    {
        if room == 0 {
            return Ok(());
        }
        if from >= limit {
            return Ok(());
        }
        let count = (self.pending_end() - from).min(BATCH_LIMIT);
        self.add_new(from, count, sends)?;
        self.add_begun(room - 1, from + count, limit, sends)
    }

    /// Batches begin, so many at most, behind the flight and while they begin below `limit`.
    pub(crate) fn begin(&mut self, room: u32, limit: u32)
        requires leads { is_leader self.old ≡ true }
        requires fits { has_positions self.old ≡ true }
        requires room { length self.old.flight + room ≤ FLIGHT_LIMIT }
        requires within { limit ≤ pending_end self.old }
        ensures { self.new ≡ with_begun self.old room limit }
    {
        let from = self.flight_end();
        let end = self.pending_end();
        begin_all(&mut self.binder, room, from, end, limit);
    }

    /// Sends these, and batches begin; or neither.
    pub(crate) fn send_begun(
        &mut self,
        room: u32,
        limit: u32,
        sends: SendList,
        out: &mut Outbox,
    ) -> Result<(), StepRefused>
        requires leads { is_leader self.old ≡ true }
        requires fits { has_positions self.old ≡ true }
        requires room { length self.old.flight + room ≤ FLIGHT_LIMIT }
        requires within { limit ≤ pending_end self.old }
        ensures { StepsTo (sends_all (with_begun self.old room limit) sends) self.old self.new out.old out.new result StepRefused.Over }
    {
        out.put(sends, Sequence::new(self.alloc))?;
        self.begin(room, limit);
        Ok(())
    }
}
