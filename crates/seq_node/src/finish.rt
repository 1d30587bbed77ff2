//! FINISH: the first batches leave while every follower answered for them; where one left, FORCE.

ghost use Rattle.std.specs.Prelude.{◌≡◌, ℕ, [], ◌∷◌, ◌+◌, ◌++◌, ◌<◌, ◌≤◌, length, option_map, slice_get, take, Some, true, IfOk, is_some};
ghost use Rattle.lazy_rules.specs.Flight.{Probe, batch_end, finish, waiting_probes};
ghost use Rattle.lazy_rules.specs.Roles.{followers_of};
ghost use Rattle.lazy_rules.specs.SeqRules.{has_positions, is_leader};
ghost use Rattle.lazy_rules.specs.declared.limits.TheConstants.{FLIGHT_LIMIT};
ghost use Rattle.seq_node.specs.Beginning.{pending_end, with_begun};
ghost use Rattle.seq_node.specs.Leaving.{first_leaves, left_sends, once_left, told, told_in};

use crate::SeqNode;
use crate::stable::add_stable;
use binder::Binder;
use lazy_msgs::{Msg, SendList};
use std::alloc::AllocError;

/// Drops the reads that need not wait.
fn drop_ready(binder: &mut Binder, bound: u32)
    ensures { binder.new ≡ record binder.old { probes = waiting_probes bound binder.old.probes } }
{
    match binder.ready(bound) {
        Some(probe) => {
            let _ = probe;
            drop_ready(binder, bound)
        }
        None => {}
    }
}

impl SeqNode {
    /// Answers read `i`, where it waits for `low` positions at least and for `upto` at most.
    fn add_answer(
        &self,
        i: u32,
        low: u64,
        upto: u32,
        sends: &mut SendList,
    ) -> Result<(), AllocError>
        requires { i < length self.now.probes }
        ensures { (probe : Probe) → slice_get self.now.probes i ≡ Some probe → IfOk result (λ _. sends.new ≡ sends.old ++ told self.now.view (told_in low upto (probe ∷ []))) }
    {
        let view = self.view;
        let probe = self.binder.read(i);
        let read = probe.read;
        let tail = probe.target;
        if (tail as u64) < low {
            return Ok(());
        }
        if tail > upto {
            return Ok(());
        }
        sends.push((probe.client, Msg::TailReady { view, read, tail }))?;
        Ok(())
    }

    /// Answers the reads that wait for `low` positions at least and for `upto` at most.
    fn add_told(&self, low: u64, upto: u32, sends: &mut SendList) -> Result<(), AllocError>
        ensures { IfOk result (λ _. sends.new ≡ sends.old ++ told self.now.view (told_in low upto self.now.probes)) }
    {
        for i in 0..self.binder.reads() {
            self.add_answer(i, low, upto, sends)?;
        }
        Ok(())
    }

    /// Where batch `i` ends.
    fn end_of(&self, i: u32) -> u32
        requires fits { has_positions self.now ≡ true }
        requires there { i < length self.now.flight }
        ensures { option_map batch_end (slice_get self.now.flight i) ≡ Some result }
    {
        let _ = self.binder.flight();
        let batch = self.binder.batch(i);
        batch.from + batch.count
    }

    /// Tells what is bound as the first batches leave, so many of them, one after the other.
    pub(crate) fn add_left(&self, left: u32, sends: &mut SendList) -> Result<(), AllocError>
        requires fits { has_positions self.now ≡ true }
        requires there { left ≤ length self.now.flight }
        ensures { IfOk result (λ _. sends.new ≡ sends.old ++ left_sends self.now.config self.now.view 0 self.now.probes (take left self.now.flight)) }
    {
        let mut low = 0u64;
        for i in 0..left {
            let upto = self.end_of(i);
            add_stable(&self.config, self.view, upto, sends)?;
            self.add_told(low, upto, sends)?;
            low = upto as u64 + 1;
        }
        Ok(())
    }

    /// The first batch leaves, where it is finished.
    fn leave_first(&mut self) -> bool
        ensures left { result ≡ is_some (finish (length (followers_of self.old.config)) self.old.flight) }
        ensures next { self.new ≡ (first_leaves self.old self.old.flight).next }
        ensures fewer { result ≡ true → length self.new.flight < length self.old.flight }
    {
        let _ = self.binder.flight();
        let Some(batch) = self.binder.finish() else {
            return false;
        };
        self.pending.drop_front(batch.count as usize);
        self.bound += batch.count;
        drop_ready(&mut self.binder, self.bound);
        true
    }

    /// The batches leave that are finished.
    fn leave_finished(&mut self)
        ensures { self.new ≡ once_left self.old }
    {
        if self.leave_first() {
            self.leave_finished()
        }
    }

    /// The batches leave that are finished, and batches begin, so many at most.
    pub(crate) fn move_on(&mut self, room: u32, limit: u32)
        requires leads { is_leader self.old ≡ true }
        requires fits { has_positions self.old ≡ true }
        requires room { length (once_left self.old).flight + room ≤ FLIGHT_LIMIT }
        requires within { limit ≤ pending_end self.old }
        ensures { self.new ≡ with_begun (once_left self.old) room limit }
    {
        let _ = self.binder.flight();
        self.leave_finished();
        self.begin(room, limit);
    }
}
