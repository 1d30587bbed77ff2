//! The replica's step: each message to its file.

ghost use Rattle.std.specs.Prelude.{◌≡◌};
ghost use Rattle.lazy_msgs.specs.Step.{StepsTo};
ghost use Rattle.lazy_rules.specs.ShardRules.{shard_step, shard_took};

use crate::node::ShardNode;
use lazy_msgs::{Input, Msg, Outbox, StepRefused};

impl ShardNode {
    fn take(&mut self, sender: u32, msg: &Msg, out: &mut Outbox) -> Result<(), StepRefused>
        ensures { StepsTo (shard_took self.old sender msg.now) self.old self.new out.old out.new result StepRefused.Over }
    {
        match msg {
            Msg::Put { id, bytes } => self.put(sender, *id, bytes, out),
            Msg::Place { view, from, items } => self.place(sender, *view, *from, items, out),
            Msg::Copy { view, from, cells } => self.copy(sender, *view, *from, cells, out),
            Msg::Copied { view, upto } => self.copied(sender, *view, *upto, out),
            Msg::Stable { view, upto } => self.stable(sender, *view, *upto, out),
            Msg::Fetch { read, from, to } => self.fetch(sender, *read, *from, *to, out),
            Msg::Flush {
                config,
                from,
                items,
            } => self.flush(sender, config, *from, items, out),
            Msg::FlushCopy { view, from, cells } => {
                self.flush_copy(sender, *view, *from, cells, out)
            }
            Msg::Trim { read, floor } => self.trim(sender, *read, *floor, out),
            Msg::Sealed { .. } => self.stays(out),
            Msg::NewView { .. } => self.stays(out),
            Msg::ViewIs { .. } => self.stays(out),
            Msg::Append { .. }
            | Msg::AppendAck { .. }
            | Msg::DataAck { .. }
            | Msg::Rejected { .. }
            | Msg::Placed { .. }
            | Msg::Order { .. }
            | Msg::Ordered { .. }
            | Msg::Probe { .. }
            | Msg::ProbeAck { .. }
            | Msg::TailReady { .. }
            | Msg::Part { .. }
            | Msg::Flushed { .. }
            | Msg::Seal { .. }
            | Msg::SealedEmpty { .. }
            | Msg::Started { .. }
            | Msg::AskView
            | Msg::Claim { .. }
            | Msg::TrimAck { .. }
            | Msg::TrimmedAt { .. } => Ok(()),
        }
    }

    /// Takes one input. `Over` where its messages don't fit into the outbox. A refused step leaves the
    /// replica and the outbox as they were.
    pub fn step(&mut self, input: &Input, out: &mut Outbox) -> Result<(), StepRefused>
        ensures { StepsTo (shard_step self.old input.now) self.old self.new out.old out.new result StepRefused.Over }
    {
        match input {
            Input::Take(envelope) => self.take(envelope.from, &envelope.msg, out),
            Input::Grace => self.grace(out),
            Input::Tick
            | Input::Crash
            | Input::Post(_)
            | Input::Ask(_)
            | Input::Trim(_)
            | Input::Suspect(_)
            | Input::Peek { .. } => Ok(()),
        }
    }
}
