//! The word of a shard replica that an append became a no-op.

ghost use Rattle.std.specs.Prelude.{◌≡◌};
ghost use Rattle.lazy_msgs.specs.declared.msg.Msg.TheVariants.{Rejected};
ghost use Rattle.lazy_msgs.specs.Step.{StepsTo};
ghost use Rattle.lazy_rules.specs.ClientRules.{client_took, on_rejected};

use crate::client::AppendClient;
use lazy_msgs::{Outbox, StepRefused};
use rec_id::{Event, RecordId};

impl AppendClient {
    /// Takes one that isn't turned away.
    fn on_rejected(&mut self, id: RecordId, place: u32, out: &mut Outbox) -> Result<(), StepRefused>
        ensures { StepsTo (on_rejected self.old id place) self.old self.new out.old out.new result StepRefused.Over }
    {
        if id.client() != self.client {
            return Ok(());
        }
        let Some(_) = self.appends.get(id.number()) else {
            return Ok(());
        };
        self.finish(id.number(), Event::Rejected(id, place), out)
    }

    pub(crate) fn rejected(
        &mut self,
        sender: u32,
        id: RecordId,
        place: u32,
        out: &mut Outbox,
    ) -> Result<(), StepRefused>
        ensures { StepsTo (client_took self.old sender (Rejected id place)) self.old self.new out.old out.new result StepRefused.Over }
    {
        if self.shape.node(sender).is_none() {
            return Ok(());
        }
        if id.client() >= self.shape.clients {
            return Ok(());
        }
        self.on_rejected(id, place, out)
    }
}
