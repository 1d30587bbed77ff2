//! The word of a leader on how long the log is.

ghost use Rattle.std.specs.Prelude.{◌≡◌};
ghost use Rattle.lazy_msgs.specs.declared.msg.Msg.TheVariants.{TailReady};
ghost use Rattle.lazy_msgs.specs.Step.{StepsTo};
ghost use Rattle.lazy_rules.specs.ReaderRules.{on_tail_ready, reader_took};

use crate::nodes::is_first;
use crate::reader::LogReader;
use crate::stage::Stage;
use lazy_msgs::{Outbox, StepRefused};

impl LogReader {
    /// Takes one that isn't turned away.
    fn on_tail_ready(
        &mut self,
        sender: u32,
        view: u32,
        number: u32,
        tail: u32,
        out: &mut Outbox,
    ) -> Result<(), StepRefused>
        ensures { StepsTo (on_tail_ready self.old sender view number tail) self.old self.new out.old out.new result StepRefused.Over }
    {
        let Stage::Probing(force) = &self.stage else {
            return Ok(());
        };
        if force.number != number {
            return Ok(());
        }
        if view != self.config.view {
            return Ok(());
        }
        if !is_first(self.config.seq.as_slice(), sender) {
            return Ok(());
        }
        if force.tail.is_some() {
            return Ok(());
        }
        let force = force.told(tail)?;
        self.decide(force, out)
    }

    pub(crate) fn tail_ready(
        &mut self,
        sender: u32,
        view: u32,
        number: u32,
        tail: u32,
        out: &mut Outbox,
    ) -> Result<(), StepRefused>
        ensures { StepsTo (reader_took self.old sender (TailReady view number tail)) self.old self.new out.old out.new result StepRefused.Over }
    {
        if self.shape.node(sender).is_none() {
            return Ok(());
        }
        self.on_tail_ready(sender, view, number, tail, out)
    }
}
