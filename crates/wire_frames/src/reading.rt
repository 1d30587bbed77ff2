//! The envelope of a frame, field by field from left to right. Each function takes its field from the
//! front of the bytes that are left, which then begin behind it, or tells the first offence. `size` is
//! how many bytes there are in all, which tells at which offset a field stands.
//!
//! All of them but the loops over members are inlined: handing a result on costs more than reading it.

ghost use Rattle.std.specs.Prelude.{◌≡◌, ◌≢◌, Ok, Err, IfOk, IfErr};
ghost use Rattle.lazy_msgs.specs.Frame.{frame};
ghost use Rattle.lazy_msgs.specs.FrameLimits.{Fits};
ghost use Rattle.lazy_msgs.specs.declared.msg.Envelope.{Envelope};
ghost use Rattle.view_config.specs.declared.edition.Edition.{Edition};
ghost use Rattle.wire_frames.specs.declared.offence.FrameError.TheVariants.{Memory};
ghost use Rattle.wire_frames.specs.Readers.{Gives, edition_at, kind_at, last_kind, whole_at};

mod fields;
mod lists;
mod marks;
mod messages;
mod numbers;
mod pool;

use crate::offence::FrameError;
use crate::writing::encode;
use lazy_msgs::Envelope;
use messages::message_of;
use numbers::{addressee_of, node_of, time_of};
use std::alloc::Global;
use view_config::Edition;

/// The version's byte.
#[tactic(auto, unfolding(crate::specs::Readers::edition_at))]
fn edition_of(left: &mut &[u8]) -> Result<Edition, FrameError>
    ensures { Gives result left.new.now (edition_at left.old.now) }
{
    let all = *left;
    match all {
        [] => Err(FrameError::Short),
        [1, rest @ ..] => {
            *left = rest;
            Ok(Edition::One)
        }
        [2, rest @ ..] => {
            *left = rest;
            Ok(Edition::Two)
        }
        [_, ..] => Err(FrameError::Field(0)),
    }
}

fn last_kind(edition: Edition) -> u8
    ensures { result ≡ last_kind edition }
{
    match edition {
        Edition::One => 28,
        Edition::Two => 31,
    }
}

#[tactic(auto, unfolding(crate::specs::Readers::kind_at))]
fn kind_of(edition: Edition, left: &mut &[u8]) -> Result<u8, FrameError>
    ensures { Gives result left.new.now (kind_at edition left.old.now) }
{
    let all = *left;
    match all {
        [] => Err(FrameError::Short),
        [kind, rest @ ..] => {
            if *kind < 1 || *kind > last_kind(edition) {
                return Err(FrameError::Kind(*kind));
            }
            *left = rest;
            Ok(*kind)
        }
    }
}

#[tactic(auto, unfolding(crate::specs::Readers::envelope_at, crate::specs::Readers::frame_at, crate::specs::Readers::whole_at))]
fn whole_of(alloc: Global, bytes: &[u8]) -> Result<(Edition, Envelope), FrameError>
    ensures found { IfOk result (λ found. whole_at bytes.now ≡ Ok found) }
    ensures offence { IfErr result (λ offence. offence ≢ Memory → whole_at bytes.now ≡ Err offence) }
{
    let size = bytes.len();
    let mut left = bytes;
    let edition = edition_of(&mut left)?;
    let kind = kind_of(edition, &mut left)?;
    let from = node_of(size, &mut left)?;
    let to = addressee_of(size, &mut left)?;
    let time = time_of(size, &mut left)?;
    let msg = message_of(alloc, edition, size, kind, &mut left)?;
    if !left.is_empty() {
        return Err(FrameError::Trailing(size.saturating_sub(left.len())));
    }
    Ok((
        edition,
        Envelope {
            from,
            to,
            time,
            msg,
        },
    ))
}

/// The envelope that the bytes are the frame of, with the edition of the frame: its first byte says
/// which. Else the first offence, from left to right.
///
/// It goes over the bytes once. Memory for the members of a list is asked for at once where the bytes
/// that are left can hold so many, and else grows with the members that are there: so no count takes
/// more than the bytes give.
///
/// The data of a list's members are slices of one copy of the list's bytes, made for the first of them.
/// So data takes memory once a list, and the whole copy stays in memory for as long as one member's
/// data does.
pub fn decode(alloc: Global, bytes: &[u8]) -> Result<(Edition, Envelope), FrameError>
    // What is read is spelled so, each byte of it.
    ensures form { IfOk result (λ found. Fits found.0 found.1 × (bytes.now ≡ frame found.0 found.1)) }
    // What is no frame alone is refused, unless memory runs out.
    ensures no_form { IfErr result (λ offence. offence ≢ Memory → (edition : Edition) (env : Envelope) → Fits edition env → bytes.now ≢ frame edition env) }
    // Which offence it is.
    ensures offence { IfErr result (λ offence. offence ≢ Memory → whole_at bytes.now ≡ Err offence) }
{
    whole_of(alloc, bytes)
}

/// What was encoded is decoded, as the contracts of both say.
pub fn read_again(
    alloc: Global,
    edition: Edition,
    env: &Envelope,
) -> Result<(Edition, Envelope), FrameError>
    requires { Fits edition env.now }
    ensures same { IfOk result (λ found. found ≡ (edition, env.now)) }
    ensures memory { IfErr result (λ offence. offence ≡ Memory) }
{
    let frame = encode(alloc, edition, env)?;
    decode(alloc, frame.as_slice())
}
