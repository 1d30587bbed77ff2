//! Flush: a replica becomes the primary of a higher view with the flushed order, pushes it again,
//! or answers again where it ended.

ghost use Rattle.std.specs.Prelude.{◌≡◌, ◌+◌, ◌^◌, ◌≤◌, ◌<◌, ◌&&◌, nat_lt, true, length, [], Some, IfOk};
ghost use Rattle.lazy_msgs.specs.declared.msg.Msg.TheVariants.{Flush};
ghost use Rattle.lazy_msgs.specs.Step.{StepsTo};
ghost use Rattle.lazy_rules.specs.Pushing.{pushes_flush};
ghost use Rattle.lazy_rules.specs.Roles.{replicas_at};
ghost use Rattle.lazy_rules.specs.ShardState.{backups_of};
ghost use Rattle.lazy_rules.specs.ShardRules.{flushed, flushes_again, takes_flush, on_flush, shard_took};
ghost use Rattle.shard_node.specs.Seated.{row_from, row_of, seated};
ghost use Rattle.lazy_rules.specs.Store.{recut};

use crate::ahead::Ahead;
use crate::draft::{Draft, Made, copy_jobs};
use crate::node::ShardNode;
use crate::seat::{FlushJob, Seat, backups_of, is_first, replicas_at};
use lazy_msgs::{Msg, Outbox, StepRefused};
use plain_lists::Sequence;
use rec_id::ItemList;
use std::alloc::AllocError;
use view_config::Config;

impl ShardNode {
    /// The part of the primary of its shard in this configuration.
    fn seat_in(&self, config: &Config) -> Result<Seat, AllocError>
        ensures { IfOk result (λ made. made ≡ record { shape = self.now.shape; node = self.now.node; view = config.now.view; primary = true; backups = backups_of (replicas_at config.now self.now.store.shard) }) }
    {
        let nodes = replicas_at(config, self.store.shard());
        Ok(Seat {
            shape: self.seat.shape,
            node: self.seat.node,
            view: config.view,
            primary: true,
            backups: backups_of(self.allocator(), nodes)?,
        })
    }

    #[tactic(auto, using(crate::proofs::Stores::recut_same))]
    /// What comes of the flushed order.
    fn flushed(&self, seat: &Seat, job: FlushJob, items: &ItemList) -> Result<Made, AllocError>
        requires cut { (self.now.store.stable ≤ job.from) × (job.from ≤ length self.now.store.order) }
        requires short { job.from + length items.now < 2 ^ 32 }
        ensures { IfOk result (λ made. row_of (record { seat = seat.now; store = recut self.now.store job.from items.now; jobs = made.jobs.items; flush = made.flush; sends = made.sends }) ≡ pushes_flush (seated seat.now (recut self.now.store job.from items.now) [] (Some job)) job) }
    {
        let cells = self.store.cells_of(job.from, items)?;
        let store = Ahead::recut(&self.store, job.from, cells);
        let mut draft = Draft::new(seat, store, Vec::new(self.allocator()), Some(job));
        draft.push_flush(job)?;
        Ok(draft.into_made())
    }

    /// Becomes the primary of a higher view, with these items from `from` on.
    fn lead(
        &mut self,
        sender: u32,
        config: &Config,
        from: u32,
        items: &ItemList,
        out: &mut Outbox,
    ) -> Result<(), StepRefused>
        requires cut { (self.old.store.stable ≤ from) × (from ≤ length self.old.store.order) }
        requires short { from + length items.now < 2 ^ 32 }
        ensures { StepsTo (pushes_flush (flushed self.old sender config.now from items.now) (record { from = from; asker = sender })) self.old self.new out.old out.new result StepRefused.Over }
    {
        let seat = self.seat_in(config)?;
        let job = FlushJob {
            from,
            asker: sender,
        };
        let Made { jobs, flush, sends } = self.flushed(&seat, job, items)?;
        let before = out.sends().len();
        let events = out.events().len();
        out.put(sends, Sequence::new(self.allocator()))?;
        if self.store.recut(from, items).is_err() {
            out.cut_back(before, events);
            return Err(StepRefused::Memory);
        }
        self.seat = seat;
        self.jobs = jobs;
        self.flush = flush;
        Ok(())
    }

    /// What comes of pushing a flush again.
    fn flush_pushed(&self, job: FlushJob) -> Result<Made, AllocError>
        ensures { IfOk result (λ made. row_from self.now made.jobs.items made.flush made.sends ≡ pushes_flush self.now job) }
    {
        let jobs = copy_jobs(self.allocator(), &self.jobs)?;
        let mut draft = Draft::new(&self.seat, Ahead::unchanged(&self.store), jobs, self.flush);
        draft.push_flush(job)?;
        Ok(draft.into_made())
    }

    /// Pushes a flush again.
    fn push_flush_again(&mut self, job: FlushJob, out: &mut Outbox) -> Result<(), StepRefused>
        ensures { StepsTo (pushes_flush self.old job) self.old self.new out.old out.new result StepRefused.Over }
    {
        let Made { jobs, flush, sends } = self.flush_pushed(job)?;
        out.put(sends, Sequence::new(self.allocator()))?;
        self.jobs = jobs;
        self.flush = flush;
        Ok(())
    }

    /// Pushes the flush of its view again, or answers again where it ended.
    fn flush_again(&mut self, sender: u32, out: &mut Outbox) -> Result<(), StepRefused>
        ensures { StepsTo (flushes_again self.old sender) self.old self.new out.old out.new result StepRefused.Over }
    {
        if let Some(job) = self.flush {
            return self.push_flush_again(job, out);
        }
        if !self.seat.primary {
            return Ok(());
        }
        let view = self.seat.view;
        out.send(sender, Msg::Flushed { view })?;
        Ok(())
    }

    /// It may become the primary of this configuration, with these items from `from` on.
    fn can_lead(&self, config: &Config, from: u32, items: &ItemList) -> bool
        ensures test { result ≡ (nat_lt self.now.view config.now.view && takes_flush self.now config.now from items.now) }
        ensures cut { result ≡ true → (self.now.store.stable ≤ from) × (from ≤ length self.now.store.order) }
        ensures short { result ≡ true → from + length items.now < 2 ^ 32 }
    {
        if self.seat.view >= config.view {
            return false;
        }
        if !is_first(replicas_at(config, self.store.shard()), self.seat.node) {
            return false;
        }
        self.can_recut(from, items.len())
    }

    fn on_flush(
        &mut self,
        sender: u32,
        config: &Config,
        from: u32,
        items: &ItemList,
        out: &mut Outbox,
    ) -> Result<(), StepRefused>
        ensures { StepsTo (on_flush self.old sender config.now from items.now) self.old self.new out.old out.new result StepRefused.Over }
    {
        if self.seat.view == config.view {
            return self.flush_again(sender, out);
        }
        if self.can_lead(config, from, items) {
            return self.lead(sender, config, from, items, out);
        }
        Ok(())
    }

    /// Takes a Flush.
    pub(crate) fn flush(
        &mut self,
        sender: u32,
        config: &Config,
        from: u32,
        items: &ItemList,
        out: &mut Outbox,
    ) -> Result<(), StepRefused>
        ensures { StepsTo (shard_took self.old sender (Flush config.now from items.now)) self.old self.new out.old out.new result StepRefused.Over }
    {
        if !self.knows(sender) {
            return self.stays(out);
        }
        if !self.knows_items(items) {
            return self.stays(out);
        }
        if !self.knows_config(config) {
            return self.stays(out);
        }
        self.on_flush(sender, config, from, items, out)
    }
}
