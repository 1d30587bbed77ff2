//! One line brought over.

ghost use Rattle.std.specs.Prelude.{◌≡◌, ◌≢◌, Some, None, IfOk, IfErr, OnOk};
ghost use Rattle.hex.specs.Hex.{IsBytes, encode_lower};
ghost use Rattle.view_config.specs.declared.edition.Edition.TheVariants.{One, Two};
ghost use Rattle.lazy_msgs.specs.Frame.{frame};
ghost use Rattle.lazy_msgs.specs.FrameLimits.{Fits};
ghost use Rattle.frame_recode.specs.Widened.{widened_envelope};
ghost use Rattle.frame_recode.specs.declared.recode.RecodeError.TheVariants.{Memory};
ghost use Rattle.frame_recode.specs.Recoded.{recoded};
ghost use Rattle.frame_recode.specs.Laws.{StaysSo};

use crate::hexadecimal::{bytes_in, text_of};
use crate::refused_text::refused_text;
use crate::widen::bring_over;
use lazy_msgs::Envelope;
use rec_id::Text;
use std::alloc::{AllocError, AllocFailed, Global};
use view_config::Edition;
use wire_frames::{FrameError, decode, encode};

/// What a line becomes.
#[derive(Drop)]
pub enum Recoded {
    /// The frame of edition Two, in hexadecimal.
    Brought(Text),
    /// Its bytes are no frame: the text of their first offence.
    Refused(Text),
}

/// Why a line became nothing.
#[derive(Clone, Copy, Debug, PartialEq, Eq)]
pub enum RecodeError {
    /// It isn't bytes in hexadecimal with lower-case letters.
    BadLine,
    Memory,
}

impl From<AllocError> for RecodeError {
    ghost from_gives = { λ _ e. e ≡ Memory };

    fn from(_error: AllocError) -> RecodeError {
        RecodeError::Memory
    }
}

impl<T: Drop> From<AllocFailed<T>> for RecodeError {
    ghost from_gives = { λ _ e. e ≡ Memory };

    fn from(_error: AllocFailed<T>) -> RecodeError {
        RecodeError::Memory
    }
}

/// The text of the frame in edition Two of an envelope of edition One.
fn text_in_two(alloc: Global, env: Envelope) -> Result<Text, AllocError>
    requires { Fits One env }
    ensures text { IfOk result (λ text. text ≡ encode_lower (frame Two (widened_envelope env))) }
    ensures bytes { OnOk result (IsBytes (frame Two (widened_envelope env))) }
{
    let env = bring_over(alloc, env)?;
    let frame = encode(alloc, Edition::Two, &env)?;
    text_of(alloc, frame.as_slice())
}

/// Brings a line over. A frame of edition One becomes that of the same envelope in edition Two, with a
/// window widened; a frame of edition Two stays as it is. A line of no bytes is refused as short.
pub fn recode_line(alloc: Global, line: &[u8]) -> Result<Recoded, RecodeError>
    ensures recoded { IfOk result (λ made. recoded line.now ≡ Some made) }
    // What was written for a frame stays as it is when it is brought over again.
    ensures again { IfOk result (λ made. StaysSo made) }
    // Want of memory aside, no line is bad but one that isn't hexadecimal.
    ensures bad { IfErr result (λ e. e ≢ Memory → recoded line.now ≡ None) }
{
    let bytes = bytes_in(alloc, line)?;
    match decode(alloc, bytes.as_slice()) {
        Ok((Edition::One, env)) => Ok(Recoded::Brought(text_in_two(alloc, env)?)),
        Ok((Edition::Two, _)) => Ok(Recoded::Brought(Text::from_vec(Vec::from_slice(
            alloc, line,
        )?))),
        Err(FrameError::Memory) => Err(RecodeError::Memory),
        Err(offence) => Ok(Recoded::Refused(refused_text(alloc, offence)?)),
    }
}

#[cfg(test)]
mod tests;
