//! FlushCopy: a replica becomes a backup of a higher view with the flushed order, and says again
//! what it has had before.

ghost use Rattle.std.specs.Prelude.{◌≡◌, ◌+◌, ◌^◌, ◌≤◌, ◌<◌, ◌&&◌, nat_lt, true, length};
ghost use Rattle.lazy_msgs.specs.declared.msg.Msg.TheVariants.{FlushCopy, Copied};
ghost use Rattle.lazy_msgs.specs.Step.{StepsTo};
ghost use Rattle.lazy_rules.specs.Rows.{answers};
ghost use Rattle.lazy_rules.specs.ShardRules.{can_cut, has_places, flush_copied, on_flush_copy, shard_took};

use crate::node::ShardNode;
use lazy_msgs::{Msg, Outbox, StepRefused};
use rec_id::CellList;

impl ShardNode {
    /// The order may be cut off at `from`, and go on with so many cells.
    pub(crate) fn can_recut(&self, from: u32, count: usize) -> bool
        ensures test { result ≡ (can_cut self.now from && has_places from count) }
        ensures cut { result ≡ true → (self.now.store.stable ≤ from) × (from ≤ length self.now.store.order) }
        ensures short { result ≡ true → from + count < 2 ^ 32 }
    {
        if from < self.store.stable() {
            return false;
        }
        if from > self.store.len() {
            return false;
        }
        count <= (u32::MAX - from) as usize
    }

    /// It may become a backup of this view, with so many cells from `from` on.
    fn can_follow(&self, view: u32, from: u32, count: usize) -> bool
        ensures test { result ≡ (nat_lt self.now.view view && can_cut self.now from && has_places from count) }
        ensures cut { result ≡ true → (self.now.store.stable ≤ from) × (from ≤ length self.now.store.order) }
        ensures short { result ≡ true → from + count < 2 ^ 32 }
    {
        if self.seat.view >= view {
            return false;
        }
        self.can_recut(from, count)
    }

    /// Becomes a backup of a higher view, with these cells from `from` on.
    fn follow(
        &mut self,
        sender: u32,
        view: u32,
        from: u32,
        cells: &CellList,
        out: &mut Outbox,
    ) -> Result<(), StepRefused>
        requires cut { (self.old.store.stable ≤ from) × (from ≤ length self.old.store.order) }
        requires short { from + length cells.now < 2 ^ 32 }
        ensures { StepsTo (answers (flush_copied self.old view from cells.now) sender (Copied view (from + length cells.now))) self.old self.new out.old out.new result StepRefused.Over }
    {
        let upto = from + cells.len() as u32;
        let sends = out.sends().len();
        let events = out.events().len();
        out.send(sender, Msg::Copied { view, upto })?;
        if self.store.recut_cells(from, cells).is_err() {
            out.cut_back(sends, events);
            return Err(StepRefused::Memory);
        }
        self.seat.view = view;
        self.seat.primary = false;
        self.seat.backups.truncate(0);
        self.jobs.truncate(0);
        self.flush = None;
        Ok(())
    }

    fn on_flush_copy(
        &mut self,
        sender: u32,
        view: u32,
        from: u32,
        cells: &CellList,
        out: &mut Outbox,
    ) -> Result<(), StepRefused>
        ensures { StepsTo (on_flush_copy self.old sender view from cells.now) self.old self.new out.old out.new result StepRefused.Over }
    {
        if self.can_follow(view, from, cells.len()) {
            return self.follow(sender, view, from, cells, out);
        }
        if !self.is_backup(view) {
            return Ok(());
        }
        if self.has_had(from, cells.len()) {
            return self.copied_again(sender, view, from + cells.len() as u32, out);
        }
        Ok(())
    }

    /// Takes a FlushCopy.
    pub(crate) fn flush_copy(
        &mut self,
        sender: u32,
        view: u32,
        from: u32,
        cells: &CellList,
        out: &mut Outbox,
    ) -> Result<(), StepRefused>
        ensures { StepsTo (shard_took self.old sender (FlushCopy view from cells.now)) self.old self.new out.old out.new result StepRefused.Over }
    {
        if !self.knows(sender) {
            return self.stays(out);
        }
        if !self.knows_cells(cells) {
            return self.stays(out);
        }
        self.on_flush_copy(sender, view, from, cells, out)
    }
}
