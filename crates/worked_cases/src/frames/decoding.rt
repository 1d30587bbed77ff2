//! Frames that are read, and bytes that are refused.

use super::*;
use link_queue::Frame;
use std::alloc::Global;
use std::process::Abort;
use std::test::Fail;

fn offence_of(alloc: Global, bytes: &[u8]) -> Option<FrameError> {
    decode(alloc, bytes).err()
}

/// The bytes with those from an offset on exchanged for others.
fn with_bytes(alloc: Global, frame: &[u8], at: usize, new: &[u8]) -> Result<Vec<u8>, Fail> {
    let mut bytes = Vec::new(alloc);
    for (i, byte) in frame.iter().enumerate() {
        let other = match i.checked_sub(at) {
            Some(k) => new.get(k).unwrap_or(byte),
            None => byte,
        };
        bytes.push(*other)?;
    }
    Ok(bytes)
}

/// The frame of an append of one byte.
const SHOWN: &[u8] =
    b"\x01\x01\x00\x00\x01\x01\x00\x00\x00\x00\x00\x00\x00\x01\x00\x00\x00\x01\x00\x00\x00\x00\x01\x01\x00\x01\x61";

#[test]
fn offences_of_an_append(rt: HostRuntime) -> Result<(), Fail> {
    let alloc = rt.alloc();
    assert_eq!(rt; offence_of(alloc, SHOWN), None);
    let short = SHOWN.get(..26).ok_or("27 bytes")?;
    assert_eq!(rt; offence_of(alloc, short), Some(FrameError::Short));
    let mut long = Vec::from_slice(alloc, SHOWN)?;
    long.push(0)?;
    assert_eq!(rt; offence_of(alloc, &long), Some(FrameError::Trailing(27)));
    for (at, new, want) in [
        (1, b"\x1d".as_slice(), FrameError::Kind(29)),
        (19, b"\x00\x00\x00\x00".as_slice(), FrameError::Field(19)),
        (24, b"\x10\x01".as_slice(), FrameError::Over(4_096)),
        (0, b"\x03".as_slice(), FrameError::Field(0)),
    ] {
        let bytes = with_bytes(alloc, SHOWN, at, new)?;
        assert_eq!(rt; offence_of(alloc, &bytes), Some(want));
    }
    Ok(())
}

fn encode_again(alloc: Global, edition: Edition, env: &Envelope) -> Result<Frame, Fail> {
    if !fits(edition, env) {
        return Err("an envelope that fits")?;
    }
    Ok(encode(alloc, edition, env)?)
}

/// The frame is read, and each of its beginnings is too short.
fn check_prefixes(rt: &impl Abort, alloc: Global, frame: &[u8]) -> Result<(), Fail> {
    let (edition, env) = decode(alloc, frame).ok().ok_or("a frame")?;
    let again = encode_again(alloc, edition, &env)?;
    assert_eq!(rt; again.as_slice(), frame);
    for len in 0..frame.len() {
        let front = frame.get(..len).ok_or("a beginning")?;
        assert_eq!(rt; offence_of(alloc, front), Some(FrameError::Short));
    }
    Ok(())
}

#[test]
fn each_frame_is_read_and_no_beginning_of_it(rt: HostRuntime) -> Result<(), Fail> {
    let alloc = rt.alloc();
    for (kind, one, two, zeros, behind) in FIELDS {
        if kind <= 28 {
            let frame = wanted(alloc, 1, kind, one, zeros.0, behind)?;
            check_prefixes(&rt, alloc, &frame)?;
        }
        let frame = wanted(alloc, 2, kind, two, zeros.1, behind)?;
        check_prefixes(&rt, alloc, &frame)?;
    }
    Ok(())
}

/// The frame of this kind, of the table above.
fn frame_of(alloc: Global, version: u8, wanted_kind: u8) -> Result<Vec<u8>, Fail> {
    for (kind, one, two, zeros, behind) in FIELDS {
        if kind == wanted_kind {
            return match version {
                1 => wanted(alloc, 1, kind, one, zeros.0, behind),
                _ => wanted(alloc, 2, kind, two, zeros.1, behind),
            };
        }
    }
    Err("a kind")?
}

/// The version and the kind of a frame, what stands from an offset on in its place, and the offence.
const FAULTS: [(u8, u8, usize, &[u8], FrameError); 50] = [
    (1, 26, 0, b"\x00", FrameError::Field(0)),
    (1, 26, 1, b"\x00", FrameError::Kind(0)),
    (2, 26, 1, b"\x20", FrameError::Kind(32)),
    (1, 26, 2, b"\x01\x28", FrameError::Field(2)),
    (1, 26, 4, b"\x01\x29", FrameError::Field(4)),
    (1, 26, 6, b"\x00\x00\x01", FrameError::Field(6)),
    (1, 2, 14, b"\x00\x00\x00\x00", FrameError::Field(14)),
    (1, 16, 14, b"\x00\x00\x00\x00", FrameError::Field(14)),
    (1, 13, 18, b"\x00\x00\x00\x00", FrameError::Field(18)),
    (2, 29, 14, b"\x00\x00\x00\x00", FrameError::Field(14)),
    (1, 4, 19, b"\x00\x00\x00\x00", FrameError::Field(19)),
    (1, 5, 15, b"\x00\x00\x00\x00", FrameError::Field(15)),
    (1, 1, 23, b"\x02", FrameError::Field(23)),
    (2, 1, 23, b"\x02", FrameError::Field(23)),
    (1, 3, 19, b"\x10\x01", FrameError::Over(4_096)),
    (2, 3, 19, b"\x00\x01\x00\x01", FrameError::Over(65_536)),
    (1, 6, 22, b"\x00\x41", FrameError::Over(64)),
    (1, 6, 25, b"\x00\x00\x00\x00", FrameError::Field(25)),
    (1, 6, 29, b"\x02", FrameError::Field(29)),
    (1, 8, 22, b"\x00\x41", FrameError::Over(64)),
    (1, 8, 29, b"\x03", FrameError::Field(29)),
    (2, 8, 29, b"\x03", FrameError::Field(29)),
    (1, 10, 22, b"\x00\x41", FrameError::Over(64)),
    (1, 10, 30, b"\x00\x00\x00\x00", FrameError::Field(30)),
    (1, 17, 26, b"\x01\x01", FrameError::Over(256)),
    (1, 17, 37, b"\x00", FrameError::Field(37)),
    (1, 17, 37, b"\x03", FrameError::Field(37)),
    (1, 18, 14, b"\x00\x00\x00\x00", FrameError::Field(14)),
    (1, 18, 18, b"\x00", FrameError::Field(18)),
    (1, 18, 18, b"\x08", FrameError::Over(7)),
    (1, 18, 19, b"\x01\x28", FrameError::Field(19)),
    (1, 18, 23, b"\x00", FrameError::Field(23)),
    (1, 18, 23, b"\x09", FrameError::Over(8)),
    (1, 18, 24, b"\x00", FrameError::Field(24)),
    (1, 18, 24, b"\x05", FrameError::Over(4)),
    (1, 18, 25, b"\x01\x28", FrameError::Field(25)),
    (1, 18, 36, b"\x10\x01", FrameError::Over(4_096)),
    (1, 19, 22, b"\x10\x01", FrameError::Over(4_096)),
    (1, 22, 22, b"\x00\x00", FrameError::Field(22)),
    (1, 22, 22, b"\x01\x01", FrameError::Over(256)),
    (1, 22, 28, b"\x02", FrameError::Field(28)),
    (2, 22, 28, b"\x02", FrameError::Field(28)),
    (1, 22, 24, b"\x00\x00\x00\x09", FrameError::Field(28)),
    (2, 22, 24, b"\x00\x00\x00\x09", FrameError::Field(28)),
    (1, 22, 60, b"\x10\x01", FrameError::Over(4_096)),
    (2, 22, 540, b"\x10\x01", FrameError::Over(4_096)),
    (1, 24, 36, b"\x00\x00", FrameError::Field(36)),
    (1, 24, 36, b"\x01\x01", FrameError::Over(256)),
    (1, 24, 14, b"\x00\x00\x00\x00", FrameError::Field(14)),
    (1, 27, 21, b"\x01\x28", FrameError::Field(21)),
];

#[test]
fn each_field_is_refused_where_it_begins(rt: HostRuntime) -> Result<(), Fail> {
    let alloc = rt.alloc();
    for (version, kind, at, new, want) in FAULTS {
        let frame = frame_of(alloc, version, kind)?;
        let bytes = with_bytes(alloc, &frame, at, new)?;
        assert_eq!(rt; offence_of(alloc, &bytes), Some(want));
    }
    Ok(())
}

#[test]
fn an_append_is_read_again(rt: HostRuntime) -> Result<(), Fail> {
    let env = envelope(rt.alloc(), Edition::Two, 1)?;
    let is_within = fits(Edition::Two, &env);
    assert!(rt; is_within);
    let found = read_again(rt.alloc(), Edition::Two, &env).ok();
    let (edition, again) = found.ok_or("the envelope")?;
    assert!(rt; edition == Edition::Two && again.time == env.time);
    Ok(())
}
