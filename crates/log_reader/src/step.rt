//! One step: which row an input meets.

ghost use Rattle.std.specs.Prelude.{◌≡◌};
ghost use Rattle.lazy_msgs.specs.Step.{StepsTo};
ghost use Rattle.lazy_rules.specs.ReaderRules.{reader_step, reader_took};

use crate::reader::LogReader;
use lazy_msgs::{Input, Msg, Outbox, StepRefused};

impl LogReader {
    /// Takes a message from this node.
    fn take(&mut self, sender: u32, msg: &Msg, out: &mut Outbox) -> Result<(), StepRefused>
        ensures { StepsTo (reader_took self.old sender msg.now) self.old self.new out.old out.new result StepRefused.Over }
    {
        match msg {
            Msg::ProbeAck { view, read } => self.probe_ack(sender, *view, *read, out),
            Msg::TailReady { view, read, tail } => {
                self.tail_ready(sender, *view, *read, *tail, out)
            }
            Msg::Part {
                read,
                from,
                end,
                entries,
            } => self.part(sender, *read, *from, *end, entries, out),
            Msg::ViewIs { config } => self.view_is(sender, config, out),
            Msg::TrimAck { read } => self.trim_ack(sender, *read, out),
            Msg::TrimmedAt { read, floor } => self.trimmed_at(sender, *read, *floor, out),
            // Messages that the door looks at more than twice have an arm each, as their proofs do.
            Msg::Place { .. } => Ok(()),
            Msg::Flush { .. } => Ok(()),
            Msg::FlushCopy { .. } => Ok(()),
            Msg::Sealed { .. } => Ok(()),
            Msg::NewView { .. } => Ok(()),
            Msg::Append { .. }
            | Msg::AppendAck { .. }
            | Msg::Put { .. }
            | Msg::DataAck { .. }
            | Msg::Rejected { .. }
            | Msg::Placed { .. }
            | Msg::Copy { .. }
            | Msg::Copied { .. }
            | Msg::Order { .. }
            | Msg::Ordered { .. }
            | Msg::Stable { .. }
            | Msg::Probe { .. }
            | Msg::Fetch { .. }
            | Msg::Flushed { .. }
            | Msg::Seal { .. }
            | Msg::SealedEmpty { .. }
            | Msg::Started { .. }
            | Msg::AskView
            | Msg::Claim { .. }
            | Msg::Trim { .. } => Ok(()),
        }
    }

    /// Takes an input by its row. One that has no row here changes nothing, and neither does a step
    /// that is refused: `Over` where what it sends doesn't fit into `out`, `Memory` for want of memory.
    pub fn step(&mut self, input: &Input, out: &mut Outbox) -> Result<(), StepRefused>
        ensures { StepsTo (reader_step self.old input.now) self.old self.new out.old out.new result StepRefused.Over }
    {
        match input {
            Input::Take(envelope) => self.take(envelope.from, &envelope.msg, out),
            Input::Tick => self.tick(out),
            Input::Ask(ask) => self.ask(*ask, out),
            Input::Trim(floor) => self.take_trim(*floor, out),
            Input::Grace | Input::Crash | Input::Post(_) | Input::Suspect(_) | Input::Peek { .. } =>
                Ok(()),
        }
    }
}
