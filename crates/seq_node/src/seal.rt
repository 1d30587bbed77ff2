//! Seal: the replica's own view is sealed, and a higher one is barred.

ghost use Rattle.std.specs.Prelude.{◌≡◌, max, true};
ghost use Rattle.lazy_msgs.specs.declared.msg.Msg.TheVariants.{Seal, Sealed, SealedEmpty};
ghost use Rattle.lazy_msgs.specs.Step.{StepsTo};
ghost use Rattle.lazy_rules.specs.Rows.{answers};
ghost use Rattle.lazy_rules.specs.SeqRules.{on_seal, seq_took};

use crate::SeqNode;
use lazy_msgs::{Msg, Outbox, StepRefused};

impl SeqNode {
    /// Its own view ends: it hands over all that it has.
    fn seal_own(&mut self, sender: u32, out: &mut Outbox) -> Result<(), StepRefused>
        ensures { StepsTo (answers (record self.old { sealed = true }) sender (Sealed self.old.view self.old.bound self.old.window self.old.pending)) self.old self.new out.old out.new result StepRefused.Over }
    {
        let window = self.window.image()?;
        let items = self.pending.front(self.pending.len())?;
        let view = self.view;
        let bound = self.bound;
        out.send(
            sender,
            Msg::Sealed {
                view,
                bound,
                window,
                items,
            },
        )?;
        self.sealed = true;
        Ok(())
    }

    /// It will never start this view, nor a lower one.
    fn bar(&mut self, sender: u32, view: u32, out: &mut Outbox) -> Result<(), StepRefused>
        ensures { StepsTo (answers (record self.old { barred = max self.old.barred view }) sender (SealedEmpty view)) self.old self.new out.old out.new result StepRefused.Over }
    {
        out.send(sender, Msg::SealedEmpty { view })?;
        self.barred = self.barred.max(view);
        Ok(())
    }

    pub(crate) fn seal(
        &mut self,
        sender: u32,
        view: u32,
        out: &mut Outbox,
    ) -> Result<(), StepRefused>
        ensures { StepsTo (seq_took self.old sender (Seal view)) self.old self.new out.old out.new result StepRefused.Over }
    {
        if self.shape.node(sender).is_none() {
            return Ok(());
        }
        if self.view == view {
            return self.seal_own(sender, out);
        }
        if self.view < view {
            return self.bar(sender, view, out);
        }
        Ok(())
    }
}
