//! Fields of one part.

ghost use Rattle.std.specs.Prelude.{◌≡◌, ◌<◌, ◌≤◌, ◌^◌, [], ◌++◌, ◌∷◌, length, OnOk};
ghost use Rattle.view_config.specs.Limits.{record_limit};
ghost use Rattle.lazy_msgs.specs.Frame.{two, four, eight, word_form, size_form, bytes_form, optional_form, id_form, body_form, entry_form};
ghost use Rattle.lazy_msgs.specs.FrameLimits.{BytesFit, OptionalFits, BodyFits, EntryFits};

use byteorder::{BigEndian, ByteOrder, LittleEndian};
use rec_id::{Body, Bytes, Entry, RecordId};
use std::alloc::AllocError;
use view_config::Edition;

pub fn put_byte(out: &mut Vec<u8>, byte: u8) -> Result<(), AllocError>
    ensures { OnOk result (out.new.items ≡ out.old.items ++ byte ∷ []) }
{
    out.push(byte)?;
    Ok(())
}

#[tactic(auto, unfolding(lazy_msgs::specs::Frame::two))]
pub fn put_two(out: &mut Vec<u8>, number: u16) -> Result<(), AllocError>
    ensures { OnOk result (out.new.items ≡ out.old.items ++ two number) }
{
    let mut bytes = [0u8; 2];
    BigEndian::write_u16(&mut bytes, number);
    out.extend_from_slice(&bytes)
}

#[tactic(auto, unfolding(lazy_msgs::specs::Frame::four))]
pub fn put_four(out: &mut Vec<u8>, number: u32) -> Result<(), AllocError>
    ensures { OnOk result (out.new.items ≡ out.old.items ++ four number) }
{
    let mut bytes = [0u8; 4];
    BigEndian::write_u32(&mut bytes, number);
    out.extend_from_slice(&bytes)
}

#[tactic(auto, unfolding(lazy_msgs::specs::Frame::eight))]
pub fn put_eight(out: &mut Vec<u8>, number: u64) -> Result<(), AllocError>
    ensures { OnOk result (out.new.items ≡ out.old.items ++ eight number) }
{
    let mut bytes = [0u8; 8];
    BigEndian::write_u64(&mut bytes, number);
    out.extend_from_slice(&bytes)
}

/// Marks go with the lowest byte first.
#[tactic(auto, unfolding(lazy_msgs::specs::Frame::word_form))]
pub fn put_word(out: &mut Vec<u8>, word: u64) -> Result<(), AllocError>
    ensures { OnOk result (out.new.items ≡ out.old.items ++ word_form word) }
{
    let mut bytes = [0u8; 8];
    LittleEndian::write_u64(&mut bytes, word);
    out.extend_from_slice(&bytes)
}

/// How many members a list has.
pub fn put_count(out: &mut Vec<u8>, count: usize) -> Result<(), AllocError>
    requires { count < 2 ^ 16 }
    ensures { OnOk result (out.new.items ≡ out.old.items ++ two count) }
{
    put_two(out, count as u16)
}

fn put_size(out: &mut Vec<u8>, edition: Edition, size: usize) -> Result<(), AllocError>
    requires { size ≤ record_limit edition }
    ensures { OnOk result (out.new.items ≡ out.old.items ++ size_form edition size) }
{
    match edition {
        Edition::One => put_two(out, size as u16),
        Edition::Two => put_four(out, size as u32),
    }
}

pub fn put_bytes(out: &mut Vec<u8>, edition: Edition, bytes: &Bytes) -> Result<(), AllocError>
    requires { BytesFit edition bytes.now }
    ensures { OnOk result (out.new.items ≡ out.old.items ++ bytes_form edition bytes.now) }
{
    put_size(out, edition, bytes.len())?;
    out.extend_from_slice(bytes.as_slice())
}

/// A list of bytes that is there, behind the byte that says so.
#[tactic(auto, unfolding(lazy_msgs::specs::Frame::two, lazy_msgs::specs::Frame::four))]
fn put_kept(out: &mut Vec<u8>, edition: Edition, bytes: &Bytes) -> Result<(), AllocError>
    requires { BytesFit edition bytes.now }
    ensures { OnOk result (out.new.items ≡ out.old.items ++ 1 ∷ bytes_form edition bytes.now) }
{
    let kept = bytes.as_slice();
    let mut size = [0u8; 4];
    BigEndian::write_u32(&mut size, kept.len() as u32);
    let [first, second, third, last] = size;
    match edition {
        Edition::One => out.extend_from_slice(&[1, third, last])?,
        Edition::Two => out.extend_from_slice(&[1, first, second, third, last])?,
    }
    out.extend_from_slice(kept)
}

pub fn put_optional(
    out: &mut Vec<u8>,
    edition: Edition,
    bytes: &Option<Bytes>,
) -> Result<(), AllocError>
    requires { OptionalFits edition bytes.now }
    ensures { OnOk result (out.new.items ≡ out.old.items ++ optional_form edition bytes.now) }
{
    match bytes {
        None => put_byte(out, 0),
        Some(bytes) => put_kept(out, edition, bytes),
    }
}

#[tactic(auto, unfolding(lazy_msgs::specs::Frame::four))]
pub fn put_id(out: &mut Vec<u8>, id: RecordId) -> Result<(), AllocError>
    ensures { OnOk result (out.new.items ≡ out.old.items ++ id_form id) }
{
    let mut number = [0u8; 4];
    BigEndian::write_u32(&mut number, id.number());
    let [first, second, third, last] = number;
    out.extend_from_slice(&[id.client() as u8, first, second, third, last])
}

pub fn put_body(out: &mut Vec<u8>, edition: Edition, body: &Body) -> Result<(), AllocError>
    requires { BodyFits edition body.now }
    ensures { OnOk result (out.new.items ≡ out.old.items ++ body_form edition body.now) }
{
    match body {
        Body::Elsewhere => put_byte(out, 0),
        Body::Kept(bytes) => put_kept(out, edition, bytes),
        Body::Noop => put_byte(out, 2),
        Body::Open | Body::Gone => Ok(()),
    }
}

pub fn put_entry(out: &mut Vec<u8>, edition: Edition, entry: &Entry) -> Result<(), AllocError>
    requires { EntryFits edition entry.now }
    ensures { OnOk result (out.new.items ≡ out.old.items ++ entry_form edition entry.now) }
{
    match entry {
        Entry::Kept(id, bytes) => {
            put_id(out, *id)?;
            put_kept(out, edition, bytes)
        }
        Entry::Noop(id) => {
            put_id(out, *id)?;
            put_byte(out, 2)
        }
        Entry::Gone(_) => Ok(()),
    }
}
