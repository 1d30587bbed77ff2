//! The way of an input to its row.

ghost use Rattle.lazy_msgs.specs.Step.{StepsTo};
ghost use Rattle.std.specs.Prelude.{◌≡◌};
ghost use Rattle.lazy_rules.specs.Rows.{stays};
ghost use Rattle.lazy_rules.specs.SeqRules.{seq_row, seq_took, seq_step};

use crate::SeqNode;
use lazy_msgs::{Input, Msg, Outbox, StepRefused};

impl SeqNode {
    /// Does nothing.
    fn stay(&self, out: &mut Outbox) -> Result<(), StepRefused>
        ensures { StepsTo (stays self.now) self.now self.now out.old out.new result StepRefused.Over }
    {
        let _ = out;
        Ok(())
    }

    /// Does nothing, since this message is for others.
    fn ignore(&self, sender: u32, msg: &Msg, out: &mut Outbox) -> Result<(), StepRefused>
        requires { seq_row self.now sender msg.now ≡ stays self.now }
        ensures { StepsTo (seq_took self.now sender msg.now) self.now self.now out.old out.new result StepRefused.Over }
    {
        let _ = sender;
        let _ = msg;
        self.stay(out)
    }

    /// Takes a message of this node.
    fn take(&mut self, sender: u32, msg: &Msg, out: &mut Outbox) -> Result<(), StepRefused>
        ensures { StepsTo (seq_took self.old sender msg.now) self.old self.new out.old out.new result StepRefused.Over }
    {
        match msg {
            Msg::Append { view, id, bytes } => self.append(sender, *view, *id, bytes, out),
            Msg::Placed { view, upto } => self.placed(sender, *view, *upto, out),
            Msg::Order { view, from, ids } => self.order(sender, *view, *from, ids, out),
            Msg::Ordered { view, upto } => self.ordered(sender, *view, *upto, out),
            Msg::Probe { view, read } => self.probe(sender, *view, *read, out),
            Msg::Seal { view } => self.seal(sender, *view, out),
            Msg::NewView {
                config,
                base,
                window,
            } => self.new_view(sender, config, *base, window, out),
            Msg::AppendAck { .. }
            | Msg::Put { .. }
            | Msg::DataAck { .. }
            | Msg::Rejected { .. }
            | Msg::Place { .. }
            | Msg::Copy { .. }
            | Msg::Copied { .. }
            | Msg::Stable { .. }
            | Msg::ProbeAck { .. }
            | Msg::TailReady { .. }
            | Msg::Fetch { .. }
            | Msg::Part { .. }
            | Msg::Flush { .. }
            | Msg::FlushCopy { .. }
            | Msg::Flushed { .. }
            | Msg::Sealed { .. }
            | Msg::SealedEmpty { .. }
            | Msg::Started { .. }
            | Msg::AskView
            | Msg::ViewIs { .. }
            | Msg::Claim { .. }
            | Msg::Trim { .. }
            | Msg::TrimAck { .. }
            | Msg::TrimmedAt { .. } => self.ignore(sender, msg, out),
        }
    }

    /// Takes an input. A refused step leaves the replica and the outbox as they were; it is `Over` exactly
    /// where the outbox has no room for what the step sends.
    pub fn step(&mut self, input: &Input, out: &mut Outbox) -> Result<(), StepRefused>
        ensures { StepsTo (seq_step self.old input.now) self.old self.new out.old out.new result StepRefused.Over }
    {
        match input {
            Input::Take(envelope) => self.take(envelope.from, &envelope.msg, out),
            Input::Tick => self.tick(out),
            Input::Grace
            | Input::Crash
            | Input::Post(_)
            | Input::Ask(_)
            | Input::Trim(_)
            | Input::Suspect(_)
            | Input::Peek { .. } => Ok(()),
        }
    }
}
