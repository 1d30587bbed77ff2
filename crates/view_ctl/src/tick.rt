//! Tick: what isn't answered is sent again.

ghost use Rattle.std.specs.Prelude.{◌≡◌, IfOk};
ghost use Rattle.lazy_msgs.specs.Step.{StepsTo};
ghost use Rattle.lazy_msgs.specs.declared.msg.Msg.TheVariants.{Seal};
ghost use Rattle.lazy_rules.specs.ControlRules.{again_sends, new_view_msg, not_started, on_control_tick};
ghost use Rattle.lazy_rules.specs.Rows.{to_each};

use crate::controller::Controller;
use crate::sends::{others, starts, to_each};
use crate::stage::{Reign, Stage};
use lazy_msgs::{Msg, Outbox, SendList, StepRefused};
use plain_lists::Sequence;
use std::alloc::{AllocError, Global};
use view_config::Config;

/// The end of the view, to each of its sequencing replicas.
pub(crate) fn seals(alloc: Global, old: &Config) -> Result<SendList, AllocError>
    ensures { IfOk result (λ sends. sends ≡ to_each old.now.seq (Seal old.now.view)) }
{
    to_each(alloc, old.seq.as_slice(), &Msg::Seal { view: old.view })
}

impl Controller {
    /// The start of the running view, to each of its sequencing replicas that hasn't said that it
    /// started.
    fn new_views(&self, reign: &Reign) -> Result<SendList, AllocError>
        ensures { IfOk result (λ sends. sends ≡ to_each (not_started reign.now) (new_view_msg self.now reign.now.config)) }
    {
        let nodes = others(
            self.alloc,
            reign.config.seq.as_slice(),
            reign.started.as_slice(),
        )?;
        starts(
            self.alloc,
            nodes.as_slice(),
            &reign.config,
            self.base,
            &self.window,
        )
    }

    /// What isn't answered.
    fn again(&self) -> Result<SendList, AllocError>
        ensures { IfOk result (λ sends. sends ≡ again_sends self.now) }
    {
        match &self.stage {
            Stage::Running(reign) => self.new_views(reign),
            Stage::Sealing(change) => seals(self.alloc, &change.old),
            Stage::Flushing(taken) => self.flushes(
                &taken.config,
                taken.from,
                &taken.items,
                taken.flushed.as_slice(),
            ),
        }
    }

    /// Sends again what isn't answered.
    pub(crate) fn on_tick(&self, out: &mut Outbox) -> Result<(), StepRefused>
        ensures { StepsTo (on_control_tick self.now) self.now self.now out.old out.new result StepRefused.Over }
    {
        let sends = self.again()?;
        out.put(sends, Sequence::new(self.alloc))?;
        Ok(())
    }
}
