//! Started: a sequencing replica has started the view that runs.

ghost use Rattle.std.specs.Prelude.{◌≡◌, OnOk, OnErr};
ghost use Rattle.lazy_msgs.specs.Step.{StepsTo};
ghost use Rattle.lazy_rules.specs.ClientRules.{with_node};
ghost use Rattle.lazy_rules.specs.ControlRules.{on_started};

use crate::controller::Controller;
use crate::stage::Stage;
use lazy_msgs::{Outbox, StepRefused};
use std::alloc::AllocError;
use view_config::NodeList;

/// Adds the node to those that are noted, once.
fn note(nodes: &mut NodeList, node: u32) -> Result<(), AllocError>
    ensures ok { OnOk result (nodes.new ≡ with_node nodes.old node) }
    ensures err { OnErr result (nodes.new ≡ nodes.old) }
{
    if nodes.as_slice().contains(&node) {
        return Ok(());
    }
    nodes.push(node)
}

impl Controller {
    /// Takes that the sender is in the view.
    pub(crate) fn on_started(
        &mut self,
        sender: u32,
        view: u32,
        out: &mut Outbox,
    ) -> Result<(), StepRefused>
        ensures { StepsTo (on_started self.old sender view) self.old self.new out.old out.new result StepRefused.Over }
    {
        match &mut self.stage {
            Stage::Running(reign) => {
                if view != reign.config.view {
                    return Ok(());
                }
                note(&mut reign.started, sender)?;
                Ok(())
            }
            Stage::Sealing(_) => Ok(()),
            Stage::Flushing(_) => Ok(()),
        }
    }
}
