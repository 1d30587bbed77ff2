//! Trim: data below the floor is given up, as far as the order is final.

ghost use Rattle.std.specs.Prelude.{◌≡◌};
ghost use Rattle.lazy_msgs.specs.declared.msg.Msg.TheVariants.{Trim};
ghost use Rattle.lazy_msgs.specs.Step.{StepsTo};
ghost use Rattle.lazy_rules.specs.ShardRules.{on_trim, shard_took};

use crate::door::is_node;
use crate::node::ShardNode;
use lazy_msgs::{Msg, Outbox, StepRefused};

impl ShardNode {
    fn on_trim(
        &mut self,
        sender: u32,
        read: u32,
        floor: u32,
        out: &mut Outbox,
    ) -> Result<(), StepRefused>
        ensures { StepsTo (on_trim self.old sender read floor) self.old self.new out.old out.new result StepRefused.Over }
    {
        if floor > self.store.stable() {
            return Ok(());
        }
        out.send(sender, Msg::TrimAck { read })?;
        self.store.trim(floor);
        Ok(())
    }

    /// Takes a Trim.
    pub(crate) fn trim(
        &mut self,
        sender: u32,
        read: u32,
        floor: u32,
        out: &mut Outbox,
    ) -> Result<(), StepRefused>
        ensures { StepsTo (shard_took self.old sender (Trim read floor)) self.old self.new out.old out.new result StepRefused.Over }
    {
        if !is_node(&self.seat.shape, sender) {
            return Ok(());
        }
        self.on_trim(sender, read, floor, out)
    }
}
