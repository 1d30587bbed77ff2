//! How the lines of holders are printed.

ghost use Rattle.std.specs.Prelude.{◌≡◌, IfOk};
ghost use Rattle.trace_script.specs.LineTexts.{line_text, lost_text};

use crate::entry_text::put_entries;
use crate::event_text::text_of;
use crate::names::holder_name;
use rec_id::{Line, Text};
use std::alloc::{AllocError, Global};

/// What the line of a holder is printed as.
pub fn line_text(alloc: Global, holder: u32, line: &Line) -> Result<Text, AllocError>
    ensures { IfOk result (λ text. text ≡ line_text holder line.now) }
{
    let name = holder_name(alloc, holder)?;
    let mut out = format!(in alloc; "line {name}: ")?.into_bytes();
    put_entries(&mut out, line.as_slice())?;
    Ok(Text::from_vec(out))
}

/// What is printed for a holder whose line is lost, since nobody of `shard` is left.
pub fn lost_text(alloc: Global, holder: u32, shard: u32) -> Result<Text, AllocError>
    ensures { IfOk result (λ text. text ≡ lost_text holder shard) }
{
    let name = holder_name(alloc, holder)?;
    Ok(text_of(format!(in alloc; "line {name}: lost shard {shard}")?))
}
