//! What is written for bytes that are no frame.

ghost use Rattle.std.specs.Prelude.{◌≡◌, IfOk};
ghost use Rattle.std.specs.String.{string_bytes};
ghost use Rattle.frame_recode.specs.Recoded.{refused_text};

use rec_id::Text;
use std::alloc::{AllocError, Global};
use wire_frames::FrameError;

fn string_of(alloc: Global, offence: FrameError) -> Result<String, AllocError>
    ensures { IfOk result (λ text. string_bytes text ≡ refused_text offence) }
{
    match offence {
        FrameError::Short => String::from_str(alloc, "refused: short"),
        FrameError::Kind(kind) => format!(in alloc; "refused: kind {kind}"),
        FrameError::Field(offset) => format!(in alloc; "refused: field {offset}"),
        FrameError::Over(limit) => format!(in alloc; "refused: over {limit}"),
        FrameError::Trailing(offset) => format!(in alloc; "refused: trailing {offset}"),
        FrameError::Memory => String::from_str(alloc, "refused: memory"),
    }
}

/// The text of the offence.
pub fn refused_text(alloc: Global, offence: FrameError) -> Result<Text, AllocError>
    ensures { IfOk result (λ text. text ≡ refused_text offence) }
{
    Ok(Text::from_vec(string_of(alloc, offence)?.into_bytes()))
}
