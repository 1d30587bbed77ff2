//! The step of a client: which half an input is for. An input for both is first the appends', and both step or
//! neither: copies step, and are kept where nothing was refused.

ghost use Rattle.std.specs.Prelude.{◌≡◌};
ghost use Rattle.lazy_msgs.specs.declared.input.Input.TheVariants.{Take as TakeInput, Tick as TickInput};
ghost use Rattle.lazy_msgs.specs.Step.{StepsTo};
ghost use Rattle.lazy_rules.specs.ClientNode.{ClientNode, asks_view, client_node_step, is_busy, sees};
ghost use Rattle.lazy_rules.specs.ClientRules.{client_step};
ghost use Rattle.lazy_core.specs.ClientParts.{PartlySteps, TellsNothing, both_step, parts_step};
ghost use Rattle.lazy_core.specs.NodeStep.{halves_of};

use append_client::AppendClient;
use lazy_msgs::{Envelope, Input, Msg, Outbox, StepRefused};
use log_reader::LogReader;
use rec_id::{Event, IdList};
use view_config::CONTROLLER;

/// Both halves step, the appends first. Where the reads are refused, the appends stepped.
fn take_both(
    appends: &mut AppendClient,
    reads: &mut LogReader,
    input: &Input,
    out: &mut Outbox,
) -> Result<(), StepRefused>
    requires { TellsNothing (client_step appends.old input.now) }
    ensures { PartlySteps (both_step input.now (halves_of appends.old reads.old)) (halves_of appends.new reads.new) out.old out.new result }
{
    appends.step(input, out)?;
    reads.step(input, out)
}

/// A client that was busy also asks for the latest configuration.
fn ask_view(was_busy: bool, out: &mut Outbox) -> Result<(), StepRefused>
    ensures { (n : ClientNode) → StepsTo (asks_view was_busy n) n n out.old out.new result StepRefused.Over }
{
    if was_busy {
        out.send(CONTROLLER, Msg::AskView)?;
    }
    Ok(())
}

/// Both halves step, and then the view is asked for where that is due. Where one part is refused, some of what
/// was done stands.
fn step_parts(
    appends: &mut AppendClient,
    reads: &mut LogReader,
    asks: bool,
    input: &Input,
    out: &mut Outbox,
) -> Result<(), StepRefused>
    requires { TellsNothing (client_step appends.old input.now) }
    ensures { PartlySteps (parts_step asks input.now (halves_of appends.old reads.old)) (halves_of appends.new reads.new) out.old out.new result }
{
    take_both(appends, reads, input, out)?;
    ask_view(asks, out)
}

/// Both halves step, or neither.
fn step_both(
    appends: &mut AppendClient,
    reads: &mut LogReader,
    asks: bool,
    input: &Input,
    out: &mut Outbox,
) -> Result<(), StepRefused>
    requires { TellsNothing (client_step appends.old input.now) }
    ensures { StepsTo (parts_step asks input.now (halves_of appends.old reads.old)) (halves_of appends.old reads.old) (halves_of appends.new reads.new) out.old out.new result StepRefused.Over }
{
    let mut appends_after = appends.copy()?;
    let mut reads_after = reads.copy()?;
    let sends = out.sends().len();
    let told = out.events().len();
    match step_parts(&mut appends_after, &mut reads_after, asks, input, out) {
        Ok(()) => {
            *appends = appends_after;
            *reads = reads_after;
            Ok(())
        }
        Err(refused) => {
            out.cut_back(sends, told);
            Err(refused)
        }
    }
}

/// Takes a message.
fn take(
    appends: &mut AppendClient,
    reads: &mut LogReader,
    envelope: &Envelope,
    input: &Input,
    out: &mut Outbox,
) -> Result<(), StepRefused>
    requires { input.now ≡ TakeInput envelope.now }
    ensures { StepsTo (client_node_step (halves_of appends.old reads.old) input.now) (halves_of appends.old reads.old) (halves_of appends.new reads.new) out.old out.new result StepRefused.Over }
{
    match &envelope.msg {
        Msg::AppendAck { .. } | Msg::DataAck { .. } | Msg::Rejected { .. } => {
            appends.step(input, out)
        }
        Msg::ViewIs { .. } => step_both(appends, reads, false, input, out),
        _ => reads.step(input, out),
    }
}

/// Some append, read or trim isn't finished.
fn is_busy(appends: &AppendClient, reads: &LogReader) -> bool
    ensures { result ≡ is_busy (halves_of appends.now reads.now) }
{
    appends.busy() || reads.busy()
}

/// Time has passed. A client that isn't busy has nothing to do again.
fn tick(
    appends: &mut AppendClient,
    reads: &mut LogReader,
    input: &Input,
    out: &mut Outbox,
) -> Result<(), StepRefused>
    requires { input.now ≡ TickInput }
    ensures { StepsTo (client_node_step (halves_of appends.old reads.old) input.now) (halves_of appends.old reads.old) (halves_of appends.new reads.new) out.old out.new result StepRefused.Over }
{
    if !is_busy(appends, reads) {
        return Ok(());
    }
    step_both(appends, reads, true, input, out)
}

/// The client of this number is told an order.
fn see(client: u32, from: u32, ids: &IdList, out: &mut Outbox) -> Result<(), StepRefused>
    ensures { (n : ClientNode) → n.appends.client ≡ client → StepsTo (sees n from ids.now) n n out.old out.new result StepRefused.Over }
{
    let ids = ids.copy()?;
    out.tell(Event::Seen { client, from, ids })?;
    Ok(())
}

/// Takes an input by its row.
pub(crate) fn step_client(
    appends: &mut AppendClient,
    reads: &mut LogReader,
    input: &Input,
    out: &mut Outbox,
) -> Result<(), StepRefused>
    ensures { StepsTo (client_node_step (halves_of appends.old reads.old) input.now) (halves_of appends.old reads.old) (halves_of appends.new reads.new) out.old out.new result StepRefused.Over }
{
    match input {
        Input::Take(envelope) => take(appends, reads, envelope, input, out),
        Input::Tick => tick(appends, reads, input, out),
        Input::Post(_) => appends.step(input, out),
        Input::Ask(_) | Input::Trim(_) => reads.step(input, out),
        Input::Peek { from, ids, .. } => see(appends.client(), *from, ids, out),
        Input::Grace | Input::Crash | Input::Suspect(_) => Ok(()),
    }
}
