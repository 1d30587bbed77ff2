//! The word of a sequencing replica that it is still in the view.

ghost use Rattle.std.specs.Prelude.{◌≡◌};
ghost use Rattle.lazy_msgs.specs.declared.msg.Msg.TheVariants.{ProbeAck};
ghost use Rattle.lazy_msgs.specs.Step.{StepsTo};
ghost use Rattle.lazy_rules.specs.ReaderRules.{on_probe_ack, reader_took};

use crate::reader::LogReader;
use crate::stage::Stage;
use lazy_msgs::{Outbox, StepRefused};

impl LogReader {
    /// Takes one that isn't turned away.
    fn on_probe_ack(
        &mut self,
        sender: u32,
        view: u32,
        number: u32,
        out: &mut Outbox,
    ) -> Result<(), StepRefused>
        ensures { StepsTo (on_probe_ack self.old sender view number) self.old self.new out.old out.new result StepRefused.Over }
    {
        let Stage::Probing(force) = &self.stage else {
            return Ok(());
        };
        if force.number != number {
            return Ok(());
        }
        if view != self.config.view {
            return Ok(());
        }
        if !self.config.seq.as_slice().contains(&sender) {
            return Ok(());
        }
        let force = force.acked_by(sender)?;
        self.decide(force, out)
    }

    pub(crate) fn probe_ack(
        &mut self,
        sender: u32,
        view: u32,
        number: u32,
        out: &mut Outbox,
    ) -> Result<(), StepRefused>
        ensures { StepsTo (reader_took self.old sender (ProbeAck view number)) self.old self.new out.old out.new result StepRefused.Over }
    {
        if self.shape.node(sender).is_none() {
            return Ok(());
        }
        self.on_probe_ack(sender, view, number, out)
    }
}
