//! Append: a known identity is acknowledged again, a new one is taken and acknowledged.

ghost use Rattle.std.specs.Prelude.{◌≡◌, ◌<◌, length, true, false};
ghost use Rattle.lazy_msgs.specs.declared.msg.Msg.TheVariants.{Append, AppendAck};
ghost use Rattle.lazy_msgs.specs.Step.{StepsTo};
ghost use Rattle.lazy_rules.specs.Rows.{answers};
ghost use Rattle.lazy_rules.specs.SeqRules.{has_room, with_item, on_append, seq_took};
ghost use Rattle.lazy_rules.specs.Windows.{has_seen};

use crate::SeqNode;
use lazy_msgs::{Msg, Outbox, StepRefused};
use rec_id::{Bytes, Item, RecordId, copy_optional};

impl SeqNode {
    /// Acknowledges an append.
    fn acknowledge(&self, view: u32, id: RecordId, out: &mut Outbox) -> Result<(), StepRefused>
        ensures { StepsTo (answers self.now id.client (AppendAck view id)) self.now self.now out.old out.new result StepRefused.Over }
    {
        out.send(id.client(), Msg::AppendAck { view, id })?;
        Ok(())
    }

    /// Keeps a new item, and marks it.
    fn keep(&mut self, item: Item)
        requires client { item.id.client < length self.old.window }
        requires new { has_seen self.old.window item.id ≡ false }
        requires room { has_room self.old ≡ true }
        ensures { self.new ≡ with_item self.old item.id item.bytes }
    {
        let id = item.id;
        prove!(id.number() >= 1);
        match self.pending.push(item) {
            Ok(()) => {}
            Err(_) => unreachable!(),
        }
        self.window.mark(id);
    }

    /// Takes a new record, and acknowledges it.
    fn take_new(
        &mut self,
        view: u32,
        id: RecordId,
        bytes: &Option<Bytes>,
        out: &mut Outbox,
    ) -> Result<(), StepRefused>
        requires client { id.client < length self.old.window }
        requires new { has_seen self.old.window id ≡ false }
        requires room { has_room self.old ≡ true }
        ensures { StepsTo (answers (with_item self.old id bytes.now) id.client (AppendAck view id)) self.old self.new out.old out.new result StepRefused.Over }
    {
        let bytes = copy_optional(bytes)?;
        out.send(id.client(), Msg::AppendAck { view, id })?;
        self.keep(Item { id, bytes });
        Ok(())
    }

    /// Takes an append that isn't turned away.
    fn on_append(
        &mut self,
        view: u32,
        id: RecordId,
        bytes: &Option<Bytes>,
        out: &mut Outbox,
    ) -> Result<(), StepRefused>
        requires { id.client < length self.old.window }
        ensures { StepsTo (on_append self.old view id bytes.now) self.old self.new out.old out.new result StepRefused.Over }
    {
        if !self.is_active(view) {
            return Ok(());
        }
        if self.window.seen(id) {
            return self.acknowledge(view, id, out);
        }
        if self.has_room() {
            return self.take_new(view, id, bytes, out);
        }
        Ok(())
    }

    pub(crate) fn append(
        &mut self,
        sender: u32,
        view: u32,
        id: RecordId,
        bytes: &Option<Bytes>,
        out: &mut Outbox,
    ) -> Result<(), StepRefused>
        ensures { StepsTo (seq_took self.old sender (Append view id bytes.now)) self.old self.new out.old out.new result StepRefused.Over }
    {
        if self.shape.node(sender).is_none() {
            return Ok(());
        }
        if id.client() >= self.shape.clients {
            return Ok(());
        }
        self.on_append(view, id, bytes, out)
    }
}
