//! The texts that a trace prints, each appended to what stands in `out`.
//!
//! A text is made whole before it is appended, so that a call that had no memory leaves `out` as it was.

ghost use Rattle.std.specs.Prelude.{◌≡◌, ◌++◌, OnOk, OnErr};
ghost use Rattle.trace_script.specs.EventTexts.{event_text};
ghost use Rattle.trace_script.specs.RefusalTexts.{refused_text, no_node_text};
ghost use Rattle.trace_script.specs.LineTexts.{line_text, lost_text, no_holder_text};
ghost use Rattle.trace_script.specs.VerdictTexts.{lost_verdict_text, verdict_text};
ghost use Rattle.trace_script.specs.FrameTexts.{frame_text};
ghost use Rattle.trace_script.specs.EndTexts.{end_text, bad_line_text, limit_text, read_fault_text};

use crate::NodeWord;
use crate::event_text::{event_text, text_of};
use crate::frame_text::frame_text;
use crate::line_text::{line_text, lost_text};
use crate::refusal_text::{no_node_text, refused_text};
use crate::verdict_text::{lost_verdict_text, verdict_text};
use lazy_msgs::EventRefused;
use log_law::Verdict;
use rec_id::{Event, Line, Text};
use std::alloc::{AllocError, Global};

/// An event of a history.
pub fn print_event(alloc: Global, event: &Event, out: &mut Text) -> Result<(), AllocError>
    ensures printed { OnOk result (out.new ≡ out.old ++ event_text event.now) }
    ensures unchanged { OnErr result (out.new ≡ out.old) }
{
    out.append(event_text(alloc, event)?)
}

/// A refused event.
pub fn print_refused(
    alloc: Global,
    refused: &EventRefused,
    out: &mut Text,
) -> Result<(), AllocError>
    ensures printed { OnOk result (out.new ≡ out.old ++ refused_text refused.now) }
    ensures unchanged { OnErr result (out.new ≡ out.old) }
{
    out.append(refused_text(alloc, *refused)?)
}

/// The refusal of a word whose number no node has.
pub fn print_no_node(alloc: Global, word: &NodeWord, out: &mut Text) -> Result<(), AllocError>
    ensures printed { OnOk result (out.new ≡ out.old ++ no_node_text word.now) }
    ensures unchanged { OnErr result (out.new ≡ out.old) }
{
    out.append(no_node_text(alloc, word)?)
}

/// The line of a holder, which is named by its node's number, or, the taken state, by the controller's.
pub fn print_line(alloc: Global, holder: u32, line: &Line, out: &mut Text) -> Result<(), AllocError>
    ensures printed { OnOk result (out.new ≡ out.old ++ line_text holder line.now) }
    ensures unchanged { OnErr result (out.new ≡ out.old) }
{
    out.append(line_text(alloc, holder, line)?)
}

/// That the line of a holder is lost, since nobody of `shard` is left.
pub fn print_lost(alloc: Global, holder: u32, shard: u32, out: &mut Text) -> Result<(), AllocError>
    ensures printed { OnOk result (out.new ≡ out.old ++ lost_text holder shard) }
    ensures unchanged { OnErr result (out.new ≡ out.old) }
{
    out.append(lost_text(alloc, holder, shard)?)
}

/// What the law says of the line of a holder.
pub fn print_verdict(
    alloc: Global,
    holder: u32,
    verdict: Verdict,
    out: &mut Text,
) -> Result<(), AllocError>
    ensures printed { OnOk result (out.new ≡ out.old ++ verdict_text holder verdict) }
    ensures unchanged { OnErr result (out.new ≡ out.old) }
{
    out.append(verdict_text(alloc, holder, verdict)?)
}

/// That the line of a holder is lost, since nobody of `shard` is left, so that the law says nothing of it.
pub fn print_lost_verdict(
    alloc: Global,
    holder: u32,
    shard: u32,
    out: &mut Text,
) -> Result<(), AllocError>
    ensures printed { OnOk result (out.new ≡ out.old ++ lost_verdict_text holder shard) }
    ensures unchanged { OnErr result (out.new ≡ out.old) }
{
    out.append(lost_verdict_text(alloc, holder, shard)?)
}

/// The frame of the message with this number.
pub fn print_frame(
    alloc: Global,
    number: u32,
    from: u32,
    to: u32,
    frame: &[u8],
    out: &mut Text,
) -> Result<(), AllocError>
    ensures printed { OnOk result (out.new ≡ out.old ++ frame_text number from to frame.now) }
    ensures unchanged { OnErr result (out.new ≡ out.old) }
{
    out.append(frame_text(alloc, number, from, to, frame)?)
}

/// That nobody holds a line.
pub fn print_no_holder(alloc: Global, out: &mut Text) -> Result<(), AllocError>
    ensures printed { OnOk result (out.new ≡ out.old ++ no_holder_text) }
    ensures unchanged { OnErr result (out.new ≡ out.old) }
{
    out.append(text_of(String::from_str(alloc, "no holder")?))
}

/// The end of a script that was read whole: how many events were accepted, and how many messages sent.
pub fn print_end(
    alloc: Global,
    events: u32,
    messages: u32,
    out: &mut Text,
) -> Result<(), AllocError>
    ensures printed { OnOk result (out.new ≡ out.old ++ end_text events messages) }
    ensures unchanged { OnErr result (out.new ≡ out.old) }
{
    let text = format!(in alloc; "end: {events} events, {messages} messages")?;
    out.append(text_of(text))
}

/// The stop at a script line outside the grammar or over its length, by its number from 1.
pub fn print_bad_line(alloc: Global, number: u32, out: &mut Text) -> Result<(), AllocError>
    ensures printed { OnOk result (out.new ≡ out.old ++ bad_line_text number) }
    ensures unchanged { OnErr result (out.new ≡ out.old) }
{
    out.append(text_of(format!(in alloc; "stopped: bad line {number}")?))
}

/// The stop at a script line that is one too many, or that would send more than a world may.
pub fn print_limit(alloc: Global, number: u32, out: &mut Text) -> Result<(), AllocError>
    ensures printed { OnOk result (out.new ≡ out.old ++ limit_text number) }
    ensures unchanged { OnErr result (out.new ≡ out.old) }
{
    out.append(text_of(format!(in alloc; "stopped: limit at {number}")?))
}

/// The stop of a script whose source failed.
pub fn print_read_fault(alloc: Global, out: &mut Text) -> Result<(), AllocError>
    ensures printed { OnOk result (out.new ≡ out.old ++ read_fault_text) }
    ensures unchanged { OnErr result (out.new ≡ out.old) }
{
    out.append(text_of(String::from_str(alloc, "stopped: read fault")?))
}
