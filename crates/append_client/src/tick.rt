//! A tick: what isn't acknowledged is sent again, of the lowest numbers.

ghost use Rattle.std.specs.Prelude.{◌≡◌};
ghost use Rattle.lazy_msgs.specs.Step.{StepsTo};
ghost use Rattle.lazy_rules.specs.ClientRules.{on_client_tick};

use crate::client::AppendClient;
use lazy_msgs::{Outbox, StepRefused};
use lazy_rules::RESENT_LIMIT;
use plain_lists::Sequence;

impl AppendClient {
    pub(crate) fn tick(&self, out: &mut Outbox) -> Result<(), StepRefused>
        ensures { StepsTo (on_client_tick self.now) self.now self.now out.old out.new result StepRefused.Over }
    {
        let sends = self.sending_first(RESENT_LIMIT as usize)?;
        out.put(sends, Sequence::new(self.allocator()))?;
        Ok(())
    }
}
