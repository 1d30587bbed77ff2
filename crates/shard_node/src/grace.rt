//! Grace: a primary waits no longer for the data of its open cells.

ghost use Rattle.std.specs.Prelude.{◌≡◌, IfOk};
ghost use Rattle.lazy_msgs.specs.Step.{StepsTo};
ghost use Rattle.lazy_rules.specs.Store.{open_to_noop};
ghost use Rattle.lazy_rules.specs.ShardRules.{gives_up, on_grace, with_store};
ghost use Rattle.shard_node.specs.Seated.{row_from};

use crate::ahead::Ahead;
use crate::draft::{Draft, Made, copy_jobs};
use crate::node::ShardNode;
use lazy_msgs::{Outbox, StepRefused};
use plain_lists::Sequence;
use std::alloc::AllocError;

impl ShardNode {
    /// What comes of no-ops for the open cells, the first of which is at `place`.
    fn given_up(&self, place: u32) -> Result<Made, AllocError>
        ensures { IfOk result (λ made. row_from (with_store self.now (open_to_noop self.now.store)) made.jobs.items made.flush made.sends ≡ gives_up self.now place) }
    {
        let jobs = copy_jobs(self.allocator(), &self.jobs)?;
        let mut draft = Draft::new(&self.seat, Ahead::closed(&self.store), jobs, self.flush);
        draft.push_above(place)?;
        Ok(draft.into_made())
    }

    /// Makes the open cells no-ops, the first of which is at `place`.
    fn give_up(&mut self, place: u32, out: &mut Outbox) -> Result<(), StepRefused>
        ensures { StepsTo (gives_up self.old place) self.old self.new out.old out.new result StepRefused.Over }
    {
        let Made { jobs, flush, sends } = self.given_up(place)?;
        out.put(sends, Sequence::new(self.allocator()))?;
        let _ = self.store.open_to_noop();
        self.jobs = jobs;
        self.flush = flush;
        Ok(())
    }

    /// Takes a Grace.
    pub(crate) fn grace(&mut self, out: &mut Outbox) -> Result<(), StepRefused>
        ensures { StepsTo (on_grace self.old) self.old self.new out.old out.new result StepRefused.Over }
    {
        if !self.seat.primary {
            return Ok(());
        }
        match self.store.first_open() {
            Some(place) => self.give_up(place, out),
            None => Ok(()),
        }
    }
}
