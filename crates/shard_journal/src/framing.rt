//! Bodies of blocks as bytes. A body is what a Part of version 1 has behind its read number, so it is
//! written and read as that of a Part.

ghost use Rattle.std.specs.Prelude.{◌≡◌, ◌-◌, ◌<◌, ◌≤◌, ◌^◌, ◌++◌, ◌∷◌, [], length, drop, IfOk, OnOk};
ghost use Rattle.view_config.specs.declared.edition.Edition.TheVariants.{One};
ghost use Rattle.lazy_msgs.specs.Frame.{four, frame};
ghost use Rattle.shard_journal.specs.Blocks.{behind_form, BlockFits};
ghost use Rattle.shard_journal.specs.Reading.{part_of, block_in, BodyOf};

use crate::block::Block;
use lazy_msgs::{Envelope, Msg};
use link_queue::Frame;
use std::alloc::{AllocError, Global};
use view_config::Edition;
use wire_frames::{FrameError, decode, encode};

/// How many bytes a Part has up to its read number.
pub(crate) const HEAD_LEN: usize = 18;

/// These bytes, of a Part from node 0 to node 0 at time 0, whose read number is 1.
pub(crate) const HEAD: [u8; 18] = [1, 17, 0, 0, 0, 0, 0, 0, 0, 0, 0, 0, 0, 0, 0, 0, 0, 1];

/// What the message has as a block.
fn block_in(msg: Msg) -> Option<Block>
    ensures { result ≡ block_in msg }
{
    match msg {
        Msg::Part {
            read: _,
            from,
            end,
            entries,
        } => Some(Block {
            from,
            to: end,
            entries,
        }),
        Msg::Append { .. }
        | Msg::AppendAck { .. }
        | Msg::Put { .. }
        | Msg::DataAck { .. }
        | Msg::Rejected { .. }
        | Msg::Place { .. }
        | Msg::Placed { .. }
        | Msg::Copy { .. }
        | Msg::Copied { .. }
        | Msg::Order { .. }
        | Msg::Ordered { .. }
        | Msg::Stable { .. }
        | Msg::Probe { .. }
        | Msg::ProbeAck { .. }
        | Msg::TailReady { .. }
        | Msg::Fetch { .. }
        | Msg::Flush { .. }
        | Msg::FlushCopy { .. }
        | Msg::Flushed { .. }
        | Msg::Seal { .. }
        | Msg::Sealed { .. }
        | Msg::SealedEmpty { .. }
        | Msg::NewView { .. }
        | Msg::Started { .. }
        | Msg::AskView
        | Msg::ViewIs { .. }
        | Msg::Claim { .. }
        | Msg::Trim { .. }
        | Msg::TrimAck { .. }
        | Msg::TrimmedAt { .. } => None,
    }
}

/// The block that goes on from position `kept` and has this body, if one has it. `framed` is overwritten.
pub(crate) fn read_block(
    alloc: Global,
    kept: u32,
    body: &[u8],
    framed: &mut Vec<u8>,
) -> Result<Option<Block>, AllocError>
    ensures { IfOk result (BodyOf kept body.now) }
{
    framed.clear();
    framed.extend_from_slice(&HEAD)?;
    framed.extend_from_slice(body)?;
    match decode(alloc, framed) {
        Ok((_, env)) => match block_in(env.msg) {
            Some(block) => {
                if !block.goes_on_from(kept) {
                    return Ok(None);
                }
                Ok(Some(block))
            }
            None => Ok(None),
        },
        Err(FrameError::Memory) => Err(AllocError),
        Err(FrameError::Short) => Ok(None),
        Err(FrameError::Kind(_)) => Ok(None),
        Err(FrameError::Field(_)) => Ok(None),
        Err(FrameError::Over(_)) => Ok(None),
        Err(FrameError::Trailing(_)) => Ok(None),
    }
}

/// The frame of the Part to nobody that has this block.
fn frame_of(alloc: Global, block: Block) -> Result<Frame, AllocError>
    requires { BlockFits block }
    ensures { IfOk result (λ made. made ≡ frame One (part_of block)) }
{
    let Block { from, to, entries } = block;
    let env = Envelope {
        from: 0,
        to: 0,
        time: 0,
        msg: Msg::Part {
            read: 1,
            from,
            end: to,
            entries,
        },
    };
    encode(alloc, Edition::One, &env)
}

/// Puts into `buffer` the length of what stands behind the head of a frame, that itself, and a byte 00.
#[tactic(auto, unfolding(lazy_msgs::specs::Frame::four))]
fn put_body(framed: &[u8], buffer: &mut Vec<u8>) -> Result<(), AllocError>
    requires head { 18 ≤ length framed.now }
    requires short { length framed.now < 2 ^ 32 }
    ensures { OnOk result (buffer.new.items ≡ four (length framed.now - 18) ++ drop 18 framed.now ++ 0 ∷ []) }
{
    let len = (framed.len() - HEAD_LEN) as u32;
    buffer.clear();
    buffer.extend_from_slice(&len.to_be_bytes())?;
    buffer.extend_from_slice(&framed[HEAD_LEN..])?;
    buffer.push(0)?;
    Ok(())
}

/// Puts into `buffer` what stands behind the first byte of the block, and a byte 00.
pub(crate) fn write_block(
    alloc: Global,
    block: Block,
    buffer: &mut Vec<u8>,
) -> Result<(), AllocError>
    requires { BlockFits block }
    ensures { OnOk result (buffer.new.items ≡ behind_form block ++ 0 ∷ []) }
{
    let framed = frame_of(alloc, block)?;
    put_body(framed.as_slice(), buffer)
}
