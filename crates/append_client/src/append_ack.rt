//! An acknowledgement of a sequencing replica.

ghost use Rattle.std.specs.Prelude.{◌≡◌};
ghost use Rattle.lazy_msgs.specs.declared.msg.Msg.TheVariants.{AppendAck};
ghost use Rattle.lazy_msgs.specs.Step.{StepsTo};
ghost use Rattle.lazy_rules.specs.ClientRules.{client_took, on_append_ack};

use crate::client::AppendClient;
use crate::nodes::has_node;
use lazy_msgs::{Outbox, StepRefused};
use rec_id::RecordId;

impl AppendClient {
    /// Takes one that isn't turned away.
    fn on_append_ack(
        &mut self,
        sender: u32,
        view: u32,
        id: RecordId,
        out: &mut Outbox,
    ) -> Result<(), StepRefused>
        ensures { StepsTo (on_append_ack self.old sender view id) self.old self.new out.old out.new result StepRefused.Over }
    {
        if view != self.config.view {
            return Ok(());
        }
        if id.client() != self.client {
            return Ok(());
        }
        if !has_node(self.config.seq.as_slice(), sender) {
            return Ok(());
        }
        self.acknowledged(sender, id, out)
    }

    pub(crate) fn append_ack(
        &mut self,
        sender: u32,
        view: u32,
        id: RecordId,
        out: &mut Outbox,
    ) -> Result<(), StepRefused>
        ensures { StepsTo (client_took self.old sender (AppendAck view id)) self.old self.new out.old out.new result StepRefused.Over }
    {
        if self.shape.node(sender).is_none() {
            return Ok(());
        }
        if id.client() >= self.shape.clients {
            return Ok(());
        }
        self.on_append_ack(sender, view, id, out)
    }
}
