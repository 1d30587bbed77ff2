//! One step: which row an input meets.

ghost use Rattle.std.specs.Prelude.{◌≡◌};
ghost use Rattle.lazy_msgs.specs.Step.{StepsTo};
ghost use Rattle.lazy_rules.specs.ClientRules.{client_step, client_took};

use crate::client::AppendClient;
use lazy_msgs::{Input, Msg, Outbox, StepRefused};

impl AppendClient {
    /// Takes a message from this node.
    fn take(&mut self, sender: u32, msg: &Msg, out: &mut Outbox) -> Result<(), StepRefused>
        ensures { StepsTo (client_took self.old sender msg.now) self.old self.new out.old out.new result StepRefused.Over }
    {
        match msg {
            Msg::AppendAck { view, id } => self.append_ack(sender, *view, *id, out),
            Msg::DataAck { view, id } => self.data_ack(sender, *view, *id, out),
            Msg::Rejected { id, place } => self.rejected(sender, *id, *place, out),
            Msg::ViewIs { config } => self.view_is(sender, config, out),
            Msg::Append { .. }
            | Msg::Put { .. }
            | Msg::Place { .. }
            | Msg::Placed { .. }
            | Msg::Copy { .. }
            | Msg::Copied { .. }
            | Msg::Order { .. }
            | Msg::Ordered { .. }
            | Msg::Stable { .. }
            | Msg::Probe { .. }
            | Msg::ProbeAck { .. }
            | Msg::TailReady { .. }
            | Msg::Fetch { .. }
            | Msg::Part { .. }
            | Msg::Flushed { .. }
            | Msg::Seal { .. }
            | Msg::SealedEmpty { .. }
            | Msg::Started { .. }
            | Msg::AskView
            | Msg::Claim { .. }
            | Msg::Trim { .. }
            | Msg::TrimAck { .. }
            | Msg::TrimmedAt { .. } => Ok(()),
            // Each by itself: whether it is turned away takes many tests, and nothing hangs on it.
            Msg::Flush { .. } => Ok(()),
            Msg::FlushCopy { .. } => Ok(()),
            Msg::Sealed { .. } => Ok(()),
            Msg::NewView { .. } => Ok(()),
        }
    }

    /// Takes an input by its row. One that has no row here changes nothing, and neither does a step
    /// that is refused: `Over` where what it sends doesn't fit into `out`, `Memory` for want of memory.
    pub fn step(&mut self, input: &Input, out: &mut Outbox) -> Result<(), StepRefused>
        ensures { StepsTo (client_step self.old input.now) self.old self.new out.old out.new result StepRefused.Over }
    {
        match input {
            Input::Take(envelope) => self.take(envelope.from, &envelope.msg, out),
            Input::Tick => self.tick(out),
            Input::Post(bytes) => self.take_post(bytes, out),
            Input::Grace
            | Input::Crash
            | Input::Ask(_)
            | Input::Trim(_)
            | Input::Suspect(_)
            | Input::Peek { .. } => Ok(()),
        }
    }
}
