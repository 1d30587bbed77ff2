//! AskView: whoever asks is told the configuration of the view that runs.

ghost use Rattle.std.specs.Prelude.{◌≡◌};
ghost use Rattle.lazy_msgs.specs.Step.{StepsTo};
ghost use Rattle.lazy_rules.specs.ControlRules.{on_ask_view};

use crate::controller::Controller;
use crate::stage::Stage;
use lazy_msgs::{Msg, Outbox, StepRefused};

impl Controller {
    /// Tells the sender the view.
    pub(crate) fn on_ask_view(&self, sender: u32, out: &mut Outbox) -> Result<(), StepRefused>
        ensures { StepsTo (on_ask_view self.now sender) self.now self.now out.old out.new result StepRefused.Over }
    {
        match &self.stage {
            Stage::Running(reign) => {
                let config = reign.config.copy()?;
                out.send(sender, Msg::ViewIs { config })?;
                Ok(())
            }
            Stage::Sealing(_) => Ok(()),
            Stage::Flushing(_) => Ok(()),
        }
    }
}
