//! The word of the controller that a later view has started.

ghost use Rattle.std.specs.Prelude.{◌≡◌, IfOk};
ghost use Rattle.lazy_msgs.specs.declared.msg.Msg.TheVariants.{ViewIs};
ghost use Rattle.lazy_msgs.specs.Step.{StepsTo};
ghost use Rattle.lazy_rules.specs.ClientRules.{client_took, in_config, on_view_is, sending_each};

use crate::client::AppendClient;
use crate::door::is_config;
use lazy_msgs::{Outbox, StepRefused};
use plain_lists::Sequence;
use std::alloc::AllocError;
use view_config::Config;

impl AppendClient {
    /// The client in this configuration, in which nobody has acknowledged anything.
    fn in_config(&self, config: &Config) -> Result<AppendClient, AllocError>
        ensures { IfOk result (λ made. made ≡ in_config self.now config.now) }
    {
        Ok(AppendClient {
            shape: self.shape,
            client: self.client,
            config: config.copy()?,
            appends: self.appends.unacknowledged()?,
        })
    }

    /// Takes a configuration that isn't turned away.
    fn on_view_is(&mut self, config: &Config, out: &mut Outbox) -> Result<(), StepRefused>
        ensures { StepsTo (on_view_is self.old config.now) self.old self.new out.old out.new result StepRefused.Over }
    {
        if config.view <= self.config.view {
            return Ok(());
        }
        let moved = self.in_config(config)?;
        let sends = moved.sending_all()?;
        out.put(sends, Sequence::new(self.allocator()))?;
        *self = moved;
        Ok(())
    }

    pub(crate) fn view_is(
        &mut self,
        sender: u32,
        config: &Config,
        out: &mut Outbox,
    ) -> Result<(), StepRefused>
        ensures { StepsTo (client_took self.old sender (ViewIs config.now)) self.old self.new out.old out.new result StepRefused.Over }
    {
        if self.shape.node(sender).is_none() {
            return Ok(());
        }
        if !is_config(&self.shape, config) {
            return Ok(());
        }
        self.on_view_is(config, out)
    }
}
