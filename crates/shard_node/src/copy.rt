//! Copy: a backup extends its order by what is next, and says again what it has had before.

ghost use Rattle.std.specs.Prelude.{◌≡◌, ◌+◌, ◌<◌, ◌^◌, nat_le, true, length};
ghost use Rattle.lazy_msgs.specs.declared.msg.Msg.TheVariants.{Copy, Copied};
ghost use Rattle.lazy_msgs.specs.Step.{StepsTo};
ghost use Rattle.lazy_rules.specs.Rows.{answers};
ghost use Rattle.lazy_rules.specs.ShardRules.{copies, on_copy, shard_took};

use crate::door::{cells_have_clients, is_node};
use crate::node::ShardNode;
use lazy_msgs::{Msg, Outbox, StepRefused};
use rec_id::CellList;

impl ShardNode {
    /// Extends the order by what is next.
    fn copies(&mut self, sender: u32, cells: &CellList, out: &mut Outbox) -> Result<(), StepRefused>
        ensures { StepsTo (copies self.old sender cells.now) self.old self.new out.old out.new result StepRefused.Over }
    {
        let from = self.store.len();
        if cells.len() > (u32::MAX - from) as usize {
            return Ok(());
        }
        let view = self.seat.view;
        let upto = from + cells.len() as u32;
        let sends = out.sends().len();
        let events = out.events().len();
        out.send(sender, Msg::Copied { view, upto })?;
        if self.store.extend_cells(cells).is_err() {
            out.cut_back(sends, events);
            return Err(StepRefused::Memory);
        }
        Ok(())
    }

    /// Says again what it has had before.
    pub(crate) fn copied_again(
        &self,
        sender: u32,
        view: u32,
        upto: u32,
        out: &mut Outbox,
    ) -> Result<(), StepRefused>
        ensures { StepsTo (answers self.now sender (Copied view upto)) self.now self.now out.old out.new result StepRefused.Over }
    {
        out.send(sender, Msg::Copied { view, upto })?;
        Ok(())
    }

    /// The order reaches to the end of so many cells from `from` on.
    pub(crate) fn has_had(&self, from: u32, count: usize) -> bool
        ensures test { result ≡ nat_le (from + count) (length self.now.store.order) }
        ensures short { result ≡ true → from + count < 2 ^ 32 }
    {
        let len = self.store.len();
        if from > len {
            return false;
        }
        count <= (len - from) as usize
    }

    fn on_copy(
        &mut self,
        sender: u32,
        view: u32,
        from: u32,
        cells: &CellList,
        out: &mut Outbox,
    ) -> Result<(), StepRefused>
        ensures { StepsTo (on_copy self.old sender view from cells.now) self.old self.new out.old out.new result StepRefused.Over }
    {
        if !self.is_backup(view) {
            return Ok(());
        }
        if from == self.store.len() {
            return self.copies(sender, cells, out);
        }
        if self.has_had(from, cells.len()) {
            return self.copied_again(sender, view, from + cells.len() as u32, out);
        }
        Ok(())
    }

    /// Takes a Copy.
    pub(crate) fn copy(
        &mut self,
        sender: u32,
        view: u32,
        from: u32,
        cells: &CellList,
        out: &mut Outbox,
    ) -> Result<(), StepRefused>
        ensures { StepsTo (shard_took self.old sender (Copy view from cells.now)) self.old self.new out.old out.new result StepRefused.Over }
    {
        if !is_node(&self.seat.shape, sender) {
            return Ok(());
        }
        if !cells_have_clients(&self.seat.shape, cells) {
            return Ok(());
        }
        self.on_copy(sender, view, from, cells, out)
    }
}
