//! An acknowledgement of a shard replica that has an append's data.

ghost use Rattle.std.specs.Prelude.{◌≡◌};
ghost use Rattle.lazy_msgs.specs.declared.msg.Msg.TheVariants.{DataAck};
ghost use Rattle.lazy_msgs.specs.Step.{StepsTo};
ghost use Rattle.lazy_rules.specs.ClientRules.{client_took, on_data_ack};

use crate::client::AppendClient;
use crate::sending::is_home;
use lazy_msgs::{Outbox, StepRefused};
use rec_id::RecordId;

impl AppendClient {
    /// Takes one that isn't turned away.
    fn on_data_ack(
        &mut self,
        sender: u32,
        view: u32,
        id: RecordId,
        out: &mut Outbox,
    ) -> Result<(), StepRefused>
        ensures { StepsTo (on_data_ack self.old sender view id) self.old self.new out.old out.new result StepRefused.Over }
    {
        if view != self.config.view {
            return Ok(());
        }
        if id.client() != self.client {
            return Ok(());
        }
        if !is_home(&self.shape, &self.config, id, sender) {
            return Ok(());
        }
        self.acknowledged(sender, id, out)
    }

    pub(crate) fn data_ack(
        &mut self,
        sender: u32,
        view: u32,
        id: RecordId,
        out: &mut Outbox,
    ) -> Result<(), StepRefused>
        ensures { StepsTo (client_took self.old sender (DataAck view id)) self.old self.new out.old out.new result StepRefused.Over }
    {
        if self.shape.node(sender).is_none() {
            return Ok(());
        }
        if id.client() >= self.shape.clients {
            return Ok(());
        }
        self.on_data_ack(sender, view, id, out)
    }
}
