//! Put: the data of a record comes by itself, before its place, at it, or too late.

ghost use Rattle.std.specs.Prelude.{◌≡◌, [], ◌∷◌, true, IfOk, IsTrue};
ghost use Rattle.std.specs.List.{list_all};
ghost use Rattle.lazy_msgs.specs.declared.msg.Msg.TheVariants.{DataAck, Put};
ghost use Rattle.lazy_msgs.specs.Step.{StepsTo};
ghost use Rattle.lazy_rules.specs.Rows.{answers};
ghost use Rattle.lazy_rules.specs.Store.{fill};
ghost use Rattle.lazy_rules.specs.Pushing.{pushes_above};
ghost use Rattle.lazy_rules.specs.ShardRules.{finds_noop, fills, holds, on_put, shard_took, with_store};
ghost use Rattle.shard_node.specs.Seated.{row_from};
ghost use Rattle.shard_node.specs.Waiting.{ends_above_both, PushesNothing};
ghost use Rattle.shard_store.specs.Sound.{is_open_at};

use crate::ahead::Ahead;
use crate::door::{has_client, is_node};
use crate::draft::{Draft, Made, copy_jobs};
use crate::node::ShardNode;
use crate::seat::PlaceJob;
use lazy_msgs::{Msg, Outbox, SendList, StepRefused};
use plain_lists::Sequence;
use rec_id::{Bytes, RecordId};
use std::alloc::AllocError;

/// The job ends above `place` only if it ends above `other` too.
fn ends_above_both(job: &PlaceJob, place: u32, other: u32) -> bool
    ensures { result ≡ ends_above_both place other job.now }
{
    if place < job.end {
        return other < job.end;
    }
    true
}

/// Each job that ends above `place` ends above `other` too.
fn all_end_above_both(jobs: &[PlaceJob], place: u32, other: u32) -> bool
    ensures { result ≡ list_all (ends_above_both place other) jobs.now }
{
    jobs.iter().all(|job| ends_above_both(job, place, other))
}

impl ShardNode {
    /// The record's no-op is at `place`: that is told once it is final.
    fn find_noop(
        &mut self,
        sender: u32,
        id: RecordId,
        bytes: &Bytes,
        place: u32,
        out: &mut Outbox,
    ) -> Result<(), StepRefused>
        ensures { StepsTo (finds_noop self.old sender id bytes.now place) self.old self.new out.old out.new result StepRefused.Over }
    {
        if place < self.store.stable() {
            out.send(sender, Msg::Rejected { id, place })?;
            return Ok(());
        }
        self.store.hold(id, bytes.clone()?)?;
        Ok(())
    }

    /// What comes of the data of the open cell at `place`, beside the answer.
    fn filled(&self, place: u32, bytes: &Bytes) -> Result<Made, AllocError>
        requires { IsTrue (is_open_at self.now.store.order place) }
        ensures { IfOk result (λ made. row_from (with_store self.now (fill self.now.store place bytes.now)) made.jobs.items made.flush made.sends ≡ pushes_above (with_store self.now (fill self.now.store place bytes.now)) place) }
    {
        let jobs = copy_jobs(self.allocator(), &self.jobs)?;
        let store = Ahead::filled(&self.store, place, bytes.clone()?);
        let mut draft = Draft::new(&self.seat, store, jobs, self.flush);
        draft.push_above(place)?;
        Ok(draft.into_made())
    }

    /// The record's data is here.
    fn data_ack(&self, sender: u32, id: RecordId) -> Result<SendList, AllocError>
        ensures { IfOk result (λ sends. sends ≡ (sender, DataAck self.now.view id) ∷ []) }
    {
        let view = self.seat.view;
        let mut sends = Sequence::new(self.allocator());
        sends.push((sender, Msg::DataAck { view, id }))?;
        Ok(sends)
    }

    /// What waits for the open cell at `place` waits for another one too.
    fn waits_beside(&self, place: u32) -> bool
        requires { IsTrue (is_open_at self.now.store.order place) }
        ensures { result ≡ true → PushesNothing self.now place }
    {
        match self.store.first_open_but(place) {
            Some(other) => all_end_above_both(&self.jobs, place, other),
            None => false,
        }
    }

    /// Fills the open cell at `place`, and pushes nothing.
    fn fill_alone(
        &mut self,
        sender: u32,
        id: RecordId,
        bytes: &Bytes,
        place: u32,
        out: &mut Outbox,
    ) -> Result<(), StepRefused>
        requires { IsTrue (is_open_at self.old.store.order place) }
        ensures { StepsTo (answers (with_store self.old (fill self.old.store place bytes.now)) sender (DataAck self.old.view id)) self.old self.new out.old out.new result StepRefused.Over }
    {
        let bytes = bytes.clone()?;
        let view = self.seat.view;
        out.send(sender, Msg::DataAck { view, id })?;
        self.store.fill(place, bytes);
        Ok(())
    }

    /// Fills the open cell at `place`, and pushes what waited for it.
    fn fill_and_push(
        &mut self,
        sender: u32,
        id: RecordId,
        bytes: &Bytes,
        place: u32,
        out: &mut Outbox,
    ) -> Result<(), StepRefused>
        requires { IsTrue (is_open_at self.old.store.order place) }
        ensures { StepsTo (fills self.old sender id bytes.now place) self.old self.new out.old out.new result StepRefused.Over }
    {
        let Made { jobs, flush, sends } = self.filled(place, bytes)?;
        let bytes = bytes.clone()?;
        let mut all = self.data_ack(sender, id)?;
        all.append(sends)?;
        out.put(all, Sequence::new(self.allocator()))?;
        self.store.fill(place, bytes);
        self.jobs = jobs;
        self.flush = flush;
        Ok(())
    }

    /// Fills the open cell at `place`, and pushes what waited for it alone.
    fn fill(
        &mut self,
        sender: u32,
        id: RecordId,
        bytes: &Bytes,
        place: u32,
        out: &mut Outbox,
    ) -> Result<(), StepRefused>
        requires { IsTrue (is_open_at self.old.store.order place) }
        ensures { StepsTo (fills self.old sender id bytes.now place) self.old self.new out.old out.new result StepRefused.Over }
    {
        if self.waits_beside(place) {
            return self.fill_alone(sender, id, bytes, place, out);
        }
        self.fill_and_push(sender, id, bytes, place, out)
    }

    /// Holds the data where it isn't there, and acknowledges it.
    fn hold(
        &mut self,
        sender: u32,
        id: RecordId,
        bytes: &Bytes,
        out: &mut Outbox,
    ) -> Result<(), StepRefused>
        ensures { StepsTo (holds self.old sender id bytes.now) self.old self.new out.old out.new result StepRefused.Over }
    {
        let bytes = bytes.clone()?;
        let view = self.seat.view;
        let sends = out.sends().len();
        let events = out.events().len();
        out.send(sender, Msg::DataAck { view, id })?;
        if self.store.hold(id, bytes).is_err() {
            out.cut_back(sends, events);
            return Err(StepRefused::Memory);
        }
        Ok(())
    }

    fn on_put(
        &mut self,
        sender: u32,
        id: RecordId,
        bytes: &Bytes,
        out: &mut Outbox,
    ) -> Result<(), StepRefused>
        ensures { StepsTo (on_put self.old sender id bytes.now) self.old self.new out.old out.new result StepRefused.Over }
    {
        if let Some(place) = self.store.noop_at(id) {
            return self.find_noop(sender, id, bytes, place, out);
        }
        match self.store.open_at(id) {
            Some(place) => self.fill(sender, id, bytes, place, out),
            None => self.hold(sender, id, bytes, out),
        }
    }

    /// Takes a Put.
    pub(crate) fn put(
        &mut self,
        sender: u32,
        id: RecordId,
        bytes: &Bytes,
        out: &mut Outbox,
    ) -> Result<(), StepRefused>
        ensures { StepsTo (shard_took self.old sender (Put id bytes.now)) self.old self.new out.old out.new result StepRefused.Over }
    {
        if !is_node(&self.seat.shape, sender) {
            return Ok(());
        }
        if !has_client(&self.seat.shape, id) {
            return Ok(());
        }
        self.on_put(sender, id, bytes, out)
    }
}
