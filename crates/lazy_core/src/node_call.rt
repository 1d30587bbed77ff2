//! What a node does in an event: it takes an input, and where that is a call of its own it may refuse it.

ghost use Rattle.std.specs.Prelude.{◌≡◌, ◌+◌, ◌<◌, ◌^◌, length};
ghost use Rattle.lazy_msgs.specs.declared.input.Input.TheVariants.{Suspect as SuspectInput};
ghost use Rattle.lazy_rules.specs.ClientRules.{invokes, post_refusal};
ghost use Rattle.lazy_rules.specs.ControlRules.{replaces, suspect_refusal};
ghost use Rattle.lazy_rules.specs.ReaderRules.{begin_refusal, begins_read, begins_trim};
ghost use Rattle.lazy_rules.specs.WorldRules.{asking_refused, posting_refused, suspecting_refused, trim_refused_in};
ghost use Rattle.lazy_core.specs.NodeCall.{CallsTo, IsClientOf, IsNodeOf, call_refusal, client_call, client_refusal, control_call, control_refusal, node_call};
ghost use Rattle.lazy_core.specs.NodeStep.{halves_of};

use crate::client_step::step_client;
use crate::node_state::NodeState;
use crate::refused::{begin_refused, suspect_refused, trim_refused};
use append_client::AppendClient;
use lazy_msgs::{EventRefused, Input, Outbox};
use log_reader::LogReader;
use rec_id::{Ask, Bytes};
use view_config::{Edition, Shape};
use view_ctl::Controller;

fn post(appends: &mut AppendClient, bytes: &Bytes, out: &mut Outbox) -> Result<(), EventRefused>
    ensures { CallsTo (invokes appends.old bytes.now) (posting_refused (post_refusal appends.old (length bytes.now))) appends.old appends.new out.old out.new result }
{
    let bytes = bytes.clone()?;
    appends.post(bytes, out)?;
    Ok(())
}

fn begin(reads: &mut LogReader, ask: Ask, out: &mut Outbox) -> Result<(), EventRefused>
    requires { reads.old.count + 1 < 2 ^ 32 }
    ensures { CallsTo (begins_read reads.old ask) (asking_refused (begin_refusal reads.old ask)) reads.old reads.new out.old out.new result }
{
    match reads.begin(ask, out) {
        Ok(_) => Ok(()),
        Err(refused) => Err(begin_refused(refused)),
    }
}

/// Edition One has no trims.
fn trim(
    reads: &mut LogReader,
    edition: Edition,
    floor: u32,
    out: &mut Outbox,
) -> Result<(), EventRefused>
    requires edition { reads.old.shape.edition ≡ edition }
    requires number { reads.old.count + 1 < 2 ^ 32 }
    ensures { CallsTo (begins_trim reads.old floor) (trim_refused_in edition reads.old floor) reads.old reads.new out.old out.new result }
{
    if edition == Edition::One {
        return Err(EventRefused::NoTrim);
    }
    match reads.trim(floor, out) {
        Ok(_) => Ok(()),
        Err(refused) => Err(trim_refused(refused)),
    }
}

fn suspect(control: &mut Controller, node: u32, out: &mut Outbox) -> Result<(), EventRefused>
    ensures { CallsTo (replaces control.old node) (suspecting_refused (suspect_refusal control.old node)) control.old control.new out.old out.new result }
{
    match control.suspect(node, out) {
        Ok(()) => Ok(()),
        Err(refused) => Err(suspect_refused(refused)),
    }
}

fn call_client(
    edition: Edition,
    appends: &mut AppendClient,
    reads: &mut LogReader,
    input: &Input,
    out: &mut Outbox,
) -> Result<(), EventRefused>
    requires edition { reads.old.shape.edition ≡ edition }
    requires number { reads.old.count + 1 < 2 ^ 32 }
    ensures { CallsTo (client_call (halves_of appends.old reads.old) input.now) (client_refusal edition (halves_of appends.old reads.old) input.now) (halves_of appends.old reads.old) (halves_of appends.new reads.new) out.old out.new result }
{
    match input {
        Input::Post(bytes) => post(appends, bytes, out),
        Input::Ask(ask) => begin(reads, *ask, out),
        Input::Trim(floor) => trim(reads, edition, *floor, out),
        Input::Take(_)
        | Input::Tick
        | Input::Grace
        | Input::Crash
        | Input::Suspect(_)
        | Input::Peek { .. } => {
            step_client(appends, reads, input, out)?;
            Ok(())
        }
    }
}

fn call_control(
    control: &mut Controller,
    input: &Input,
    out: &mut Outbox,
) -> Result<(), EventRefused>
    ensures { CallsTo (control_call control.old input.now) (control_refusal control.old input.now) control.old control.new out.old out.new result }
{
    match input {
        Input::Suspect(node) => suspect(control, *node, out),
        Input::Take(_)
        | Input::Tick
        | Input::Grace
        | Input::Crash
        | Input::Post(_)
        | Input::Ask(_)
        | Input::Trim(_)
        | Input::Peek { .. } => {
            control.step(input, out)?;
            Ok(())
        }
    }
}

impl NodeState {
    /// Takes an input in an event of a world of this shape. A node refuses with its own
    /// refusal, then as `Spent` where what it sends doesn't fit into `out`, then for want of memory; refused,
    /// nothing is changed.
    pub(crate) fn call(
        &mut self,
        shape: &Shape,
        input: &Input,
        out: &mut Outbox,
    ) -> Result<(), EventRefused>
        requires { IsNodeOf shape.now self.old }
        ensures { CallsTo (node_call self.old input.now) (call_refusal shape.now.edition self.old input.now) self.old self.new out.old out.new result }
    {
        match self {
            NodeState::Seq(seq) => {
                seq.step(input, out)?;
                Ok(())
            }
            NodeState::Shard(shard) => {
                shard.step(input, out)?;
                Ok(())
            }
            NodeState::Client(appends, reads) => {
                call_client(shape.edition, appends, reads, input, out)
            }
            NodeState::Control(control) => call_control(control, input, out),
        }
    }
}
