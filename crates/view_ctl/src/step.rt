//! One step: which rule an input meets, and at a message first the door.

ghost use Rattle.std.specs.Prelude.{◌≡◌, false};
ghost use Rattle.std.specs.Option.{is_none};
ghost use Rattle.view_config.specs.Shape.{node_of};
ghost use Rattle.lazy_msgs.specs.Step.{StepsTo};
ghost use Rattle.lazy_msgs.specs.declared.msg.Msg.TheVariants.{Sealed};
ghost use Rattle.lazy_rules.specs.ControlRules.{control_step, control_took, on_suspect};

use crate::controller::Controller;
use crate::door::{are_of_clients, is_window};
use lazy_msgs::{Input, Msg, Outbox, StepRefused, SuspectRefused};
use rec_id::{ItemList, WindowList};

impl Controller {
    /// Takes what a sealed replica had, where it is in its form.
    fn take_sealed(
        &mut self,
        sender: u32,
        view: u32,
        bound: u32,
        window: &WindowList,
        items: &ItemList,
        out: &mut Outbox,
    ) -> Result<(), StepRefused>
        requires { is_none (node_of self.old.shape sender) ≡ false }
        ensures { StepsTo (control_took self.old sender (Sealed view bound window.now items.now)) self.old self.new out.old out.new result StepRefused.Over }
    {
        if !are_of_clients(&self.shape, items) {
            return Ok(());
        }
        if !is_window(&self.shape, window) {
            return Ok(());
        }
        self.on_sealed(view, bound, window, items, out)
    }

    /// Takes a message of a node of the shape.
    fn take_from_node(
        &mut self,
        sender: u32,
        msg: &Msg,
        out: &mut Outbox,
    ) -> Result<(), StepRefused>
        requires { is_none (node_of self.old.shape sender) ≡ false }
        ensures { StepsTo (control_took self.old sender msg.now) self.old self.new out.old out.new result StepRefused.Over }
    {
        match msg {
            Msg::Sealed {
                view,
                bound,
                window,
                items,
            } => self.take_sealed(sender, *view, *bound, window, items, out),
            Msg::SealedEmpty { view } => self.on_sealed_empty(*view, out),
            Msg::Flushed { view } => self.on_flushed(sender, *view, out),
            Msg::Started { view } => self.on_started(sender, *view, out),
            Msg::AskView => self.on_ask_view(sender, out),
            Msg::Append { .. }
            | Msg::AppendAck { .. }
            | Msg::Put { .. }
            | Msg::DataAck { .. }
            | Msg::Rejected { .. }
            | Msg::Place { .. }
            | Msg::Placed { .. }
            | Msg::Copy { .. }
            | Msg::Copied { .. }
            | Msg::Order { .. }
            | Msg::Ordered { .. }
            | Msg::Stable { .. }
            | Msg::Probe { .. }
            | Msg::ProbeAck { .. }
            | Msg::TailReady { .. }
            | Msg::Fetch { .. }
            | Msg::Part { .. }
            | Msg::Flush { .. }
            | Msg::FlushCopy { .. }
            | Msg::Seal { .. }
            | Msg::NewView { .. }
            | Msg::ViewIs { .. }
            | Msg::Claim { .. }
            | Msg::Trim { .. }
            | Msg::TrimAck { .. }
            | Msg::TrimmedAt { .. } => Ok(()),
        }
    }

    #[tactic(auto, using(crate::proofs::Doors::stranger_stays))]
    /// Takes a message.
    fn take(&mut self, sender: u32, msg: &Msg, out: &mut Outbox) -> Result<(), StepRefused>
        ensures { StepsTo (control_took self.old sender msg.now) self.old self.new out.old out.new result StepRefused.Over }
    {
        if self.shape.node(sender).is_none() {
            return Ok(());
        }
        self.take_from_node(sender, msg, out)
    }

    /// Replaces a node, where that isn't refused.
    fn take_suspicion(&mut self, node: u32, out: &mut Outbox) -> Result<(), StepRefused>
        ensures { StepsTo (on_suspect self.old node) self.old self.new out.old out.new result StepRefused.Over }
    {
        match self.suspect(node, out) {
            Ok(()) => Ok(()),
            Err(SuspectRefused::Over) => Err(StepRefused::Over),
            Err(SuspectRefused::Memory) => Err(StepRefused::Memory),
            Err(SuspectRefused::NotInView) => Ok(()),
            Err(SuspectRefused::LastSeq) => Ok(()),
            Err(SuspectRefused::LastOfShard(_)) => Ok(()),
            Err(SuspectRefused::ViewsSpent) => Ok(()),
        }
    }

    /// Takes the step that the rules give for this input. `Over` where its messages don't fit into the
    /// outbox, then `Memory`; refused, nothing is changed.
    pub fn step(&mut self, input: &Input, out: &mut Outbox) -> Result<(), StepRefused>
        ensures { StepsTo (control_step self.old input.now) self.old self.new out.old out.new result StepRefused.Over }
    {
        match input {
            Input::Take(envelope) => self.take(envelope.from, &envelope.msg, out),
            Input::Tick => self.on_tick(out),
            Input::Suspect(node) => self.take_suspicion(*node, out),
            Input::Grace
            | Input::Crash
            | Input::Post(_)
            | Input::Ask(_)
            | Input::Trim(_)
            | Input::Peek { .. } => Ok(()),
        }
    }
}
