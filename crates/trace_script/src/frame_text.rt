//! How the frame of a message is printed.

ghost use Rattle.std.specs.Prelude.{◌≡◌, IfOk, string_bytes};
ghost use Rattle.trace_script.specs.FrameTexts.{end_name, frame_text};

use crate::event_text::text_of;
use crate::names::node_name;
use rec_id::Text;
use std::alloc::{AllocError, Global};
use view_config::BOARD;

/// Who a message is from or for.
fn end_name(alloc: Global, node: u32) -> Result<String, AllocError>
    ensures { IfOk result (λ text. string_bytes text ≡ end_name node) }
{
    if node == BOARD {
        String::from_str(alloc, "board")
    } else {
        node_name(alloc, node)
    }
}

/// A message by its number, its sender and its addressee, and its frame in hexadecimal.
pub fn frame_text(
    alloc: Global,
    number: u32,
    from: u32,
    to: u32,
    frame: &[u8],
) -> Result<Text, AllocError>
    ensures { IfOk result (λ text. text ≡ frame_text number from to frame.now) }
{
    let from = end_name(alloc, from)?;
    let to = end_name(alloc, to)?;
    let frame = hex::encode(alloc, frame)?;
    Ok(text_of(format!(in alloc; "message {number}: {from} to {to}: {frame}")?))
}
