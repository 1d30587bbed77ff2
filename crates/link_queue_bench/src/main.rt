//! Frames through a link, as many as it is told, for a look at the time that they take. It prints a
//! checksum and no times. Its words are a mode and a number of frames: `pair` passes empty frames from
//! one thread to another, `filled` frames of 64 bytes. `bench/run` compares it with the same work in Rust.
#![tactic(auto)]

ghost use Rattle.std.specs.Prelude.{◌≡◌, []};

use link_queue::{Frame, SendEnd, TakeEnd, close, link};
use std::alloc::{AllocError, Global};
use std::sync::Wait;
use std::thread::Threads;
use std::{io, thread};

/// How many frames fit.
const ROOM: usize = 1024;

/// How many bytes a filled frame has.
const BYTES: usize = 64;

/// A frame of `bytes` bytes, or of none where there is no memory for them.
fn frame(alloc: Global, bytes: usize) -> Frame {
    match Vec::from_elem(alloc, 1u8, bytes) {
        Ok(bytes) => Frame::from_vec(bytes),
        Err(_) => Frame::new(alloc),
    }
}

/// Counts the frame and its bytes.
fn weigh(frame: &Frame) -> u64 {
    (frame.len() as u64).wrapping_add(1)
}

/// Puts `count` frames.
fn put_all<R: Wait>(rt: &R, alloc: Global, mut send: SendEnd, count: u32, bytes: usize) -> SendEnd
    requires { send.sent ≡ [] }
    ensures { result.link ≡ send.link }
{
    let mut next = 0;
    let mut waiting = frame(alloc, bytes);
    for _ in rt.forever() {
        if next >= count {
            break;
        }
        match send.put(rt, waiting) {
            Ok(()) => {
                next += 1;
                waiting = frame(alloc, bytes);
            }
            Err(back) => {
                waiting = back;
                thread::yield_now();
            }
        }
    }
    send
}

/// Takes `count` frames, and adds their weights.
fn take_all<R: Wait>(rt: &R, mut take: TakeEnd, count: u32) -> (TakeEnd, u64)
    ensures { result.0.link ≡ take.link }
{
    let mut next = 0;
    let mut sum = 0u64;
    for _ in rt.forever() {
        if next >= count {
            break;
        }
        match take.take(rt) {
            Some(frame) => {
                sum = sum.wrapping_add(weigh(&frame));
                next += 1;
            }
            None => thread::yield_now(),
        }
    }
    (take, sum)
}

/// From one thread to another.
fn pair<R: Threads + Wait + Sync>(
    rt: &R,
    alloc: Global,
    count: u32,
    bytes: usize,
) -> Result<u64, AllocError> {
    let (send, take) = link(alloc, 0, ROOM)?;
    let (send, (take, sum)) = thread::join(
        rt,
        move ||
            requires { send.sent ≡ [] }
            ensures { result.link ≡ send.link }
        { put_all(rt, alloc, send, count, bytes) },
        move || -> (TakeEnd, u64)
            ensures { result.0.link ≡ take.link }
        { take_all(rt, take, count) },
    );
    Ok(sum.wrapping_add(close(rt, send, take)))
}

fn checksum<R: Threads + Wait + Sync>(
    rt: &R,
    alloc: Global,
    mode: &str,
    count: u32,
) -> Result<u64, AllocError> {
    match mode {
        "pair" => pair(rt, alloc, count, 0),
        "filled" => pair(rt, alloc, count, BYTES),
        _ => Ok(0),
    }
}

fn main(rt: HostRuntime) -> io::Result<()> {
    let mut arguments = std::env::args(&rt)?;
    let _program = arguments.next();
    if let (Some(mode), Some(count)) = (arguments.next(), arguments.next()) {
        let count = count.as_str().parse::<u32>().unwrap_or(0);
        let sum = checksum(&rt, rt.alloc(), mode.as_str(), count)?;
        println!(rt; "{sum}")?;
    }
    Ok(())
}
