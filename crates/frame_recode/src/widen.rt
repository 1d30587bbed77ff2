//! An envelope of edition One as edition Two has it: its window, if it carries one, is widened.

ghost use Rattle.std.specs.Prelude.{◌≡◌, IfOk, OnOk};
ghost use Rattle.lazy_msgs.specs.FrameLimits.{Fits, MessageFits, WindowFits};
ghost use Rattle.view_config.specs.declared.edition.Edition.TheVariants.{One, Two};
ghost use Rattle.seen_window.specs.Image.{widened_image};
ghost use Rattle.frame_recode.specs.Widened.{widened_envelope, widened_message};

use lazy_msgs::{Envelope, Msg};
use rec_id::WindowList;
use seen_window::widen;
use std::alloc::{AllocError, Global};

fn widen_window(alloc: Global, window: &mut WindowList) -> Result<(), AllocError>
    requires { WindowFits One window.old }
    ensures { OnOk result (window.new ≡ widened_image window.old) }
{
    *window = widen(alloc, window)?;
    Ok(())
}

/// Widens the window of the message, if it carries one.
fn widen_message(alloc: Global, msg: &mut Msg) -> Result<(), AllocError>
    requires { MessageFits One msg.old }
    ensures { OnOk result (msg.new ≡ widened_message msg.old) }
{
    match msg {
        Msg::Sealed { window, .. } => widen_window(alloc, window),
        Msg::NewView { window, .. } => widen_window(alloc, window),
        Msg::Append { .. }
        | Msg::AppendAck { .. }
        | Msg::Put { .. }
        | Msg::DataAck { .. }
        | Msg::Rejected { .. }
        | Msg::Place { .. }
        | Msg::Placed { .. }
        | Msg::Copy { .. }
        | Msg::Copied { .. }
        | Msg::Order { .. }
        | Msg::Ordered { .. }
        | Msg::Stable { .. }
        | Msg::Probe { .. }
        | Msg::ProbeAck { .. }
        | Msg::TailReady { .. }
        | Msg::Fetch { .. }
        | Msg::Part { .. }
        | Msg::Flush { .. }
        | Msg::FlushCopy { .. }
        | Msg::Flushed { .. }
        | Msg::Seal { .. }
        | Msg::SealedEmpty { .. }
        | Msg::Started { .. }
        | Msg::AskView
        | Msg::ViewIs { .. }
        | Msg::Claim { .. }
        | Msg::Trim { .. }
        | Msg::TrimAck { .. }
        | Msg::TrimmedAt { .. } => Ok(()),
    }
}

/// The same envelope for edition Two, with its window widened. It fits there, whatever it carries.
pub fn bring_over(alloc: Global, mut env: Envelope) -> Result<Envelope, AllocError>
    requires { Fits One env }
    ensures widened { IfOk result (λ made. made ≡ widened_envelope env) }
    ensures fits { IfOk result (λ made. Fits Two made) }
{
    widen_message(alloc, &mut env.msg)?;
    Ok(env)
}
