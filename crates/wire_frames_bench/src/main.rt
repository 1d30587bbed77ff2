//! Reads and writes a thousand frames, as often as it is told, for a look at the time that they take.
//! It prints a checksum and no times. Its words are a mode (`decode` or `encode`) and a number of
//! rounds. `bench/run` compares it with the same work in Rust.
#![tactic(auto)]

use lazy_msgs::Envelope;
use std::alloc::{AllocError, Global};
use std::io;
use view_config::Edition;
use wire_frames::{decode, encode, fits};

const FRAMES: u32 = 1_000;

/// How many members a list has.
const MEMBERS: u8 = 16;

const DATA: [u8; 64] = [7; 64];

/// The kinds of the frames, over and over. Where a 0 stands, each kind comes in its turn.
const KINDS: [u8; 20] = [
    1, 2, 1, 2, 6, 8, 9, 7, 10, 11, 12, 1, 2, 6, 8, 9, 7, 12, 0, 1,
];

/// The fields of each kind: a counted number, a word, an identity, bytes that may be there or not,
/// bytes, items, cells, identities, entries, a configuration and a window.
const FIELDS: [&[u8]; 31] = [
    b"niO", b"ni", b"iB", b"ni", b"iw", b"nwI", b"nw", b"nwC", b"nw", b"nwD", b"nw", b"nw", b"nn",
    b"nn", b"nnw", b"nww", b"nwwE", b"GwI", b"nwC", b"n", b"n", b"nwWI", b"n", b"GwW", b"n", b"",
    b"G", b"w", b"nw", b"n", b"nw",
];

fn put(out: &mut Vec<u8>, number: u32) -> Result<(), AllocError> {
    out.extend_from_slice(&number.to_be_bytes())
}

fn put_id(out: &mut Vec<u8>, seed: u32) -> Result<(), AllocError> {
    out.push((seed % 200) as u8)?;
    put(out, 1 + seed % 100_000)
}

fn put_bytes(out: &mut Vec<u8>, edition: Edition) -> Result<(), AllocError> {
    if edition == Edition::Two {
        out.extend_from_slice(&[0, 0])?;
    }
    out.extend_from_slice(&[0, 64])?;
    out.extend_from_slice(&DATA)
}

fn put_kept(out: &mut Vec<u8>, edition: Edition, seed: u32) -> Result<(), AllocError> {
    put_id(out, seed)?;
    out.push(1)?;
    put_bytes(out, edition)
}

fn put_member(out: &mut Vec<u8>, edition: Edition, list: u8, seed: u32) -> Result<(), AllocError> {
    match list {
        b'D' => put_id(out, seed),
        b'E' => {
            put(out, seed)?;
            put_kept(out, edition, seed)
        }
        _ => put_kept(out, edition, seed),
    }
}

fn put_list(out: &mut Vec<u8>, edition: Edition, list: u8, seed: u32) -> Result<(), AllocError> {
    out.extend_from_slice(&[0, MEMBERS])?;
    for member in 0..u32::from(MEMBERS) {
        put_member(out, edition, list, seed.wrapping_add(member))?;
    }
    Ok(())
}

/// The marks of one client.
fn put_window(out: &mut Vec<u8>, edition: Edition) -> Result<(), AllocError> {
    out.extend_from_slice(&[0, 1, 0, 0, 200, 1])?;
    let marks: u32 = match edition {
        Edition::One => 32,
        Edition::Two => 512,
    };
    for _mark in 0..marks {
        out.push(255)?;
    }
    Ok(())
}

fn put_field(out: &mut Vec<u8>, edition: Edition, field: u8, seed: u32) -> Result<(), AllocError> {
    match field {
        b'n' => put(out, 1 + seed % 1_000),
        b'w' => put(out, seed),
        b'i' => put_id(out, seed),
        b'O' => {
            out.push(1)?;
            put_bytes(out, edition)
        }
        b'B' => put_bytes(out, edition),
        b'G' => {
            put(out, 1 + seed % 1_000)?;
            out.extend_from_slice(&[2, 1, 1, 1, 2, 2, 2, 1, 8, 1, 9, 2, 1, 12, 1, 13])
        }
        b'W' => put_window(out, edition),
        _ => put_list(out, edition, field, seed),
    }
}

fn kind_of(i: u32) -> u8 {
    match KINDS.get((i % 20) as usize) {
        Some(0) => (1 + i / 20 % 31) as u8,
        Some(kind) => *kind,
        None => 26,
    }
}

/// Each eighth frame is of edition Two, and so are those of the kinds that it alone has.
fn frame(alloc: Global, i: u32) -> Result<Vec<u8>, AllocError> {
    let kind = kind_of(i);
    let is_two = i % 8 == 7 || kind > 28;
    let (edition, version) = if is_two {
        (Edition::Two, 2)
    } else {
        (Edition::One, 1)
    };
    let mut out = Vec::new(alloc);
    out.extend_from_slice(&[version, kind, 1, 1, 1, 8, 0, 0, 0, 0])?;
    put(&mut out, i)?;
    if let Some(fields) = FIELDS.get(usize::from(kind.saturating_sub(1))) {
        for field in fields.iter() {
            put_field(&mut out, edition, *field, i % FRAMES)?;
        }
    }
    Ok(out)
}

fn decode_round(alloc: Global, frames: &[Vec<u8>]) -> u64 {
    let mut sum = 0u64;
    for frame in frames {
        match decode(alloc, frame) {
            Ok((_, env)) => sum = sum.wrapping_add(env.time),
            Err(_) => sum = sum.wrapping_add(1_000_000),
        }
    }
    sum
}

fn encode_round(alloc: Global, envelopes: &[(Edition, Envelope)]) -> Result<u64, AllocError> {
    let mut sum = 0u64;
    for (edition, env) in envelopes {
        if fits(*edition, env) {
            let frame = encode(alloc, *edition, env)?;
            sum = sum.wrapping_add(frame.len() as u64);
        }
    }
    Ok(sum)
}

fn frames(alloc: Global) -> Result<Vec<Vec<u8>>, AllocError> {
    let mut frames = Vec::new(alloc);
    for i in 0..FRAMES {
        frames.push(frame(alloc, i)?)?;
    }
    Ok(frames)
}

fn envelopes(alloc: Global, frames: &[Vec<u8>]) -> Result<Vec<(Edition, Envelope)>, AllocError> {
    let mut envelopes = Vec::new(alloc);
    for frame in frames {
        if let Ok(found) = decode(alloc, frame) {
            envelopes.push(found)?;
        }
    }
    Ok(envelopes)
}

fn checksum(alloc: Global, mode: &str, rounds: u32) -> Result<u64, AllocError> {
    let frames = frames(alloc)?;
    let envelopes = envelopes(alloc, &frames)?;
    let mut sum = envelopes.len() as u64;
    for _round in 0..rounds {
        sum = sum.wrapping_add(match mode {
            "decode" => decode_round(alloc, &frames),
            "encode" => encode_round(alloc, &envelopes)?,
            _ => 0,
        });
    }
    Ok(sum)
}

fn main(rt: HostRuntime) -> io::Result<()> {
    let mut arguments = std::env::args(&rt)?;
    let _program = arguments.next();
    if let (Some(mode), Some(rounds)) = (arguments.next(), arguments.next()) {
        let rounds = rounds.as_str().parse::<u32>().unwrap_or(0);
        let sum = checksum(rt.alloc(), mode.as_str(), rounds)?;
        println!(rt; "{sum}")?;
    }
    Ok(())
}
