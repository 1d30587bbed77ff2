//! The frame of an envelope, field by field. Each function appends its field to the bytes so far,
//! and says nothing of them where memory runs out.

ghost use Rattle.std.specs.Prelude.{◌≡◌, ◌++◌, ◌∷◌, IfOk, OnOk};
ghost use Rattle.lazy_msgs.specs.Frame.{fields_form, frame, head_form, kind_of, version_of};
ghost use Rattle.lazy_msgs.specs.FrameLimits.{Fits, MessageFits};

mod fields;
mod lists;

use crate::lengths::frame_len;
use fields::{put_byte, put_bytes, put_eight, put_four, put_id, put_optional, put_two};
use lazy_msgs::{Envelope, Msg};
use link_queue::Frame;
use lists::{put_cells, put_config, put_entries, put_ids, put_items, put_window};
use std::alloc::{AllocError, Global};
use view_config::Edition;

fn version_of(edition: Edition) -> u8
    ensures { result ≡ version_of edition }
{
    match edition {
        Edition::One => 1,
        Edition::Two => 2,
    }
}

fn kind_of(msg: &Msg) -> u8
    ensures { result ≡ kind_of msg.now }
{
    match msg {
        Msg::Append { .. } => 1,
        Msg::AppendAck { .. } => 2,
        Msg::Put { .. } => 3,
        Msg::DataAck { .. } => 4,
        Msg::Rejected { .. } => 5,
        Msg::Place { .. } => 6,
        Msg::Placed { .. } => 7,
        Msg::Copy { .. } => 8,
        Msg::Copied { .. } => 9,
        Msg::Order { .. } => 10,
        Msg::Ordered { .. } => 11,
        Msg::Stable { .. } => 12,
        Msg::Probe { .. } => 13,
        Msg::ProbeAck { .. } => 14,
        Msg::TailReady { .. } => 15,
        Msg::Fetch { .. } => 16,
        Msg::Part { .. } => 17,
        Msg::Flush { .. } => 18,
        Msg::FlushCopy { .. } => 19,
        Msg::Flushed { .. } => 20,
        Msg::Seal { .. } => 21,
        Msg::Sealed { .. } => 22,
        Msg::SealedEmpty { .. } => 23,
        Msg::NewView { .. } => 24,
        Msg::Started { .. } => 25,
        Msg::AskView => 26,
        Msg::ViewIs { .. } => 27,
        Msg::Claim { .. } => 28,
        Msg::Trim { .. } => 29,
        Msg::TrimAck { .. } => 30,
        Msg::TrimmedAt { .. } => 31,
    }
}

fn put_head(out: &mut Vec<u8>, edition: Edition, env: &Envelope) -> Result<(), AllocError>
    requires { Fits edition env.now }
    ensures { OnOk result (out.new.items ≡ out.old.items ++ head_form edition env.now) }
{
    put_byte(out, version_of(edition))?;
    put_byte(out, kind_of(&env.msg))?;
    put_two(out, env.from as u16)?;
    put_two(out, env.to as u16)?;
    put_eight(out, env.time)
}

fn put_fields(out: &mut Vec<u8>, edition: Edition, msg: &Msg) -> Result<(), AllocError>
    requires { MessageFits edition msg.now }
    ensures { OnOk result (out.new.items ≡ out.old.items ++ fields_form edition msg.now) }
{
    match msg {
        Msg::Append { view, id, bytes } => {
            put_four(out, *view)?;
            put_id(out, *id)?;
            put_optional(out, edition, bytes)
        }
        Msg::AppendAck { view, id } | Msg::DataAck { view, id } => {
            put_four(out, *view)?;
            put_id(out, *id)
        }
        Msg::Put { id, bytes } => {
            put_id(out, *id)?;
            put_bytes(out, edition, bytes)
        }
        Msg::Rejected { id, place } => {
            put_id(out, *id)?;
            put_four(out, *place)
        }
        Msg::Place { view, from, items } => {
            put_four(out, *view)?;
            put_four(out, *from)?;
            put_items(out, edition, items)
        }
        Msg::Copy { view, from, cells } | Msg::FlushCopy { view, from, cells } => {
            put_four(out, *view)?;
            put_four(out, *from)?;
            put_cells(out, edition, cells)
        }
        Msg::Order { view, from, ids } => {
            put_four(out, *view)?;
            put_four(out, *from)?;
            put_ids(out, ids)
        }
        Msg::Placed { view, upto }
        | Msg::Copied { view, upto }
        | Msg::Ordered { view, upto }
        | Msg::Stable { view, upto } => {
            put_four(out, *view)?;
            put_four(out, *upto)
        }
        Msg::Probe { view, read } | Msg::ProbeAck { view, read } => {
            put_four(out, *view)?;
            put_four(out, *read)
        }
        Msg::TailReady { view, read, tail } => {
            put_four(out, *view)?;
            put_four(out, *read)?;
            put_four(out, *tail)
        }
        Msg::Fetch { read, from, to } => {
            put_four(out, *read)?;
            put_four(out, *from)?;
            put_four(out, *to)
        }
        Msg::Part {
            read,
            from,
            end,
            entries,
        } => {
            put_four(out, *read)?;
            put_four(out, *from)?;
            put_four(out, *end)?;
            put_entries(out, edition, entries)
        }
        Msg::Flush {
            config,
            from,
            items,
        } => {
            put_config(out, config)?;
            put_four(out, *from)?;
            put_items(out, edition, items)
        }
        Msg::Sealed {
            view,
            bound,
            window,
            items,
        } => {
            put_four(out, *view)?;
            put_four(out, *bound)?;
            put_window(out, window)?;
            put_items(out, edition, items)
        }
        Msg::NewView {
            config,
            base,
            window,
        } => {
            put_config(out, config)?;
            put_four(out, *base)?;
            put_window(out, window)
        }
        Msg::Flushed { view }
        | Msg::Seal { view }
        | Msg::SealedEmpty { view }
        | Msg::Started { view } => put_four(out, *view),
        Msg::AskView => Ok(()),
        Msg::ViewIs { config } => put_config(out, config),
        Msg::Claim { stable } => put_four(out, *stable),
        Msg::Trim { read, floor } | Msg::TrimmedAt { read, floor } => {
            put_four(out, *read)?;
            put_four(out, *floor)
        }
        Msg::TrimAck { read } => put_four(out, *read),
    }
}

/// The frame of the envelope in this edition, in one piece of memory of exactly its length.
pub fn encode(alloc: Global, edition: Edition, env: &Envelope) -> Result<Frame, AllocError>
    requires { Fits edition env.now }
    ensures { IfOk result (λ made. made ≡ frame edition env.now) }
{
    let mut out = Vec::with_capacity(alloc, frame_len(edition, env))?;
    put_head(&mut out, edition, env)?;
    put_fields(&mut out, edition, &env.msg)?;
    Ok(Frame::from_vec(out))
}
