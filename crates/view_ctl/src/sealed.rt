//! Sealed and SealedEmpty: what one replica of the sealed view had is taken, and flushed.

ghost use Rattle.std.specs.Prelude.{◌≡◌};
ghost use Rattle.lazy_msgs.specs.Step.{StepsTo};
ghost use Rattle.lazy_rules.specs.ControlRules.{takes_state, on_sealed, on_sealed_empty};

use crate::controller::Controller;
use crate::stage::{Stage, Taken};
use lazy_msgs::{Outbox, StepRefused};
use plain_lists::Sequence;
use rec_id::{ItemList, WindowList};

impl Controller {
    /// Flushes a taken state.
    fn take_state(&mut self, taken: Taken, out: &mut Outbox) -> Result<(), StepRefused>
        ensures { StepsTo (takes_state self.old taken) self.old self.new out.old out.new result StepRefused.Over }
    {
        let sends = self.flushes(&taken.config, taken.from, &taken.items, &[])?;
        out.put(sends, Sequence::new(self.alloc))?;
        self.stage = Stage::Flushing(taken);
        Ok(())
    }

    /// Takes what a sealed replica had: `bound` positions, the marks of all, and the items behind
    /// them.
    pub(crate) fn on_sealed(
        &mut self,
        view: u32,
        bound: u32,
        window: &WindowList,
        items: &ItemList,
        out: &mut Outbox,
    ) -> Result<(), StepRefused>
        ensures { StepsTo (on_sealed self.old view bound window.now items.now) self.old self.new out.old out.new result StepRefused.Over }
    {
        match &self.stage {
            Stage::Sealing(change) => {
                if view != change.old.view {
                    return Ok(());
                }
                let config = change.coming.copy()?;
                let items = items.copy()?;
                let window = window.copy()?;
                let taken = Taken::new(self.alloc, config, bound, items, window);
                self.take_state(taken, out)
            }
            Stage::Running(_) => Ok(()),
            Stage::Flushing(_) => Ok(()),
        }
    }

    /// Takes that a sealed replica had nothing: what the view began with is all.
    pub(crate) fn on_sealed_empty(&mut self, view: u32, out: &mut Outbox) -> Result<(), StepRefused>
        ensures { StepsTo (on_sealed_empty self.old view) self.old self.new out.old out.new result StepRefused.Over }
    {
        match &self.stage {
            Stage::Sealing(change) => {
                if view != change.old.view {
                    return Ok(());
                }
                let config = change.coming.copy()?;
                let items = Sequence::new(self.alloc);
                let window = self.window.copy()?;
                let taken = Taken::new(self.alloc, config, self.base, items, window);
                self.take_state(taken, out)
            }
            Stage::Running(_) => Ok(()),
            Stage::Flushing(_) => Ok(()),
        }
    }
}
