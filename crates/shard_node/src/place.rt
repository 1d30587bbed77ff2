//! Place: the next batch is taken, one that is being placed is pushed again, and one before is
//! answered again.

ghost use Rattle.std.specs.Prelude.{◌≡◌, ◌+◌, ◌<◌, ◌^◌, ◌==◌, find, length, IfOk, Some};
ghost use Rattle.lazy_msgs.specs.declared.msg.Msg.TheVariants.{Place};
ghost use Rattle.lazy_msgs.specs.Step.{StepsTo};
ghost use Rattle.lazy_rules.specs.Pushing.{length_of, pushes_place};
ghost use Rattle.lazy_rules.specs.ShardRules.{takes_place, with_placed, new_job, places, first_unplaced, answers_placed, on_place, shard_took};
ghost use Rattle.shard_node.specs.Seated.{row_from};

use crate::ahead::Ahead;
use crate::door::{is_node, items_have_clients};
use crate::draft::{Draft, Made, copy_jobs};
use crate::node::ShardNode;
use crate::seat::PlaceJob;
use lazy_msgs::{Msg, Outbox, StepRefused};
use lazy_rules::JOBS_LIMIT;
use plain_lists::Sequence;
use rec_id::ItemList;
use std::alloc::AllocError;

/// The first job that begins at `from`.
fn job_from(jobs: &[PlaceJob], from: u32) -> Option<PlaceJob>
    ensures { result ≡ find (λ job. job.from == from) jobs.now }
{
    for job in jobs {
        if job.from == from {
            return Some(*job);
        }
    }
    None
}

impl ShardNode {
    /// A batch from `from` on is the next one that can be taken.
    fn takes_place(&self, from: u32) -> bool
        ensures { result ≡ takes_place self.now from }
    {
        if self.flush.is_some() {
            return false;
        }
        if self.jobs.len() >= JOBS_LIMIT as usize {
            return false;
        }
        from == self.store.len()
    }

    #[tactic(auto, using(crate::proofs::Stores::extend_same))]
    /// The jobs with the next batch, and what comes of pushing it.
    fn placed(&self, sender: u32, items: &ItemList) -> Result<Made, AllocError>
        requires { length self.now.store.order + length items.now < 2 ^ 32 }
        ensures { IfOk result (λ made. row_from (with_placed self.now sender items.now) made.jobs.items made.flush made.sends ≡ pushes_place (with_placed self.now sender items.now) (new_job self.now sender items.now)) }
    {
        let from = self.store.len();
        let cells = self.store.cells_of(from, items)?;
        let job = PlaceJob {
            from,
            end: from + items.len() as u32,
            asker: sender,
        };
        let mut jobs = copy_jobs(self.allocator(), &self.jobs)?;
        jobs.push(job)?;
        let store = Ahead::recut(&self.store, from, cells);
        let mut draft = Draft::new(&self.seat, store, jobs, self.flush);
        draft.push_place(job)?;
        Ok(draft.into_made())
    }

    /// Extends the order by the next batch.
    fn take_batch(
        &mut self,
        sender: u32,
        items: &ItemList,
        out: &mut Outbox,
    ) -> Result<(), StepRefused>
        requires { length self.old.store.order + length items.now < 2 ^ 32 }
        ensures { StepsTo (pushes_place (with_placed self.old sender items.now) (new_job self.old sender items.now)) self.old self.new out.old out.new result StepRefused.Over }
    {
        let Made { jobs, flush, sends } = self.placed(sender, items)?;
        let before = out.sends().len();
        let events = out.events().len();
        out.put(sends, Sequence::new(self.allocator()))?;
        if self.store.extend(items).is_err() {
            out.cut_back(before, events);
            return Err(StepRefused::Memory);
        }
        self.jobs = jobs;
        self.flush = flush;
        Ok(())
    }

    /// Takes the next batch, if its places have numbers.
    fn places(&mut self, sender: u32, items: &ItemList, out: &mut Outbox) -> Result<(), StepRefused>
        ensures { StepsTo (places self.old sender items.now) self.old self.new out.old out.new result StepRefused.Over }
    {
        if items.len() > (u32::MAX - self.store.len()) as usize {
            return Ok(());
        }
        self.take_batch(sender, items, out)
    }

    /// What comes of pushing a job again.
    fn pushed(&self, job: PlaceJob) -> Result<Made, AllocError>
        ensures { IfOk result (λ made. row_from self.now made.jobs.items made.flush made.sends ≡ pushes_place self.now job) }
    {
        let jobs = copy_jobs(self.allocator(), &self.jobs)?;
        let mut draft = Draft::new(&self.seat, Ahead::unchanged(&self.store), jobs, self.flush);
        draft.push_place(job)?;
        Ok(draft.into_made())
    }

    /// Pushes a job again.
    fn push_again(&mut self, job: PlaceJob, out: &mut Outbox) -> Result<(), StepRefused>
        ensures { StepsTo (pushes_place self.old job) self.old self.new out.old out.new result StepRefused.Over }
    {
        let Made { jobs, flush, sends } = self.pushed(job)?;
        out.put(sends, Sequence::new(self.allocator()))?;
        self.jobs = jobs;
        self.flush = flush;
        Ok(())
    }

    /// Where the first batch begins that is being placed, or else the order ends.
    fn first_unplaced(&self) -> u32
        ensures { result ≡ first_unplaced self.now self.now.jobs }
    {
        match self.jobs.first() {
            Some(job) => job.from,
            None => self.store.len(),
        }
    }

    /// Answers again for a batch before all that are being placed.
    fn answer_placed(
        &self,
        sender: u32,
        from: u32,
        count: usize,
        out: &mut Outbox,
    ) -> Result<(), StepRefused>
        ensures { StepsTo (answers_placed self.now sender (from + count)) self.now self.now out.old out.new result StepRefused.Over }
    {
        if self.flush.is_some() {
            return Ok(());
        }
        let first = self.first_unplaced();
        if from > first {
            return Ok(());
        }
        if count > (first - from) as usize {
            return Ok(());
        }
        let view = self.seat.view;
        let upto = from + count as u32;
        out.send(sender, Msg::Placed { view, upto })?;
        Ok(())
    }

    /// The job that begins at `from`.
    fn job_at(&self, from: u32) -> Option<PlaceJob>
        ensures { result ≡ find (λ job. job.from == from) self.now.jobs }
    {
        job_from(&self.jobs, from)
    }

    fn on_place(
        &mut self,
        sender: u32,
        view: u32,
        from: u32,
        items: &ItemList,
        out: &mut Outbox,
    ) -> Result<(), StepRefused>
        ensures { StepsTo (on_place self.old sender view from items.now) self.old self.new out.old out.new result StepRefused.Over }
    {
        if !self.is_primary(view) {
            return Ok(());
        }
        if self.takes_place(from) {
            return self.places(sender, items, out);
        }
        match self.job_at(from) {
            Some(job) => self.push_again(job, out),
            None => self.answer_placed(sender, from, items.len(), out),
        }
    }

    #[tactic(auto, using(crate::proofs::Doors::took_place))]
    /// Takes a Place.
    pub(crate) fn place(
        &mut self,
        sender: u32,
        view: u32,
        from: u32,
        items: &ItemList,
        out: &mut Outbox,
    ) -> Result<(), StepRefused>
        ensures { StepsTo (shard_took self.old sender (Place view from items.now)) self.old self.new out.old out.new result StepRefused.Over }
    {
        if !is_node(&self.seat.shape, sender) {
            return Ok(());
        }
        if items.len() == 0 {
            return Ok(());
        }
        if !items_have_clients(&self.seat.shape, items) {
            return Ok(());
        }
        self.on_place(sender, view, from, items, out)
    }
}
