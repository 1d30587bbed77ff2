//! Reads 256 positions over eight shards as often as it is told, for a look at the time that it takes:
//! the parts come in one order or in the other, and a read is put together from the last. It prints a
//! checksum and no times. Its words are a mode (`ahead` or `back`) and a number of reads.
//! `bench/run` compares it with the same work in Rust.
#![tactic(auto)]

ghost use Rattle.std.specs.Prelude.{◌≡◌};

use lazy_msgs::{Envelope, Input, Msg, Outbox};
use log_reader::LogReader;
use plain_lists::Sequence;
use rec_id::{Ask, Bytes, Entry, Event, Line, PlacedList, RecordId};
use std::alloc::{AllocError, Global};
use std::io;
use view_config::{Edition, Mode, Shape};

/// How many positions a read has.
const WIDTH: u32 = 256;

const SHARDS: u32 = 8;

/// The entry at a position.
fn entry(alloc: Global, place: u32) -> Result<Option<Entry>, AllocError> {
    match RecordId::new(place % 16, place.saturating_add(1)) {
        Ok(id) => Ok(Some(Entry::Kept(id, Bytes::copy(alloc, b"12345678")?))),
        Err(_) => Ok(None),
    }
}

/// What a shard has of the positions.
fn entries(alloc: Global, shard: u32) -> Result<PlacedList, AllocError> {
    let mut made = Sequence::new(alloc);
    for place in 0..WIDTH {
        if place % SHARDS == shard {
            if let Some(entry) = entry(alloc, place)? {
                made.push((place, entry))?;
            }
        }
    }
    Ok(made)
}

fn part(alloc: Global, shard: u32) -> Result<Input, AllocError> {
    Ok(Input::Take(Envelope {
        from: 264 + 4 * (shard % SHARDS),
        to: 0,
        time: 1,
        msg: Msg::Part {
            read: 1,
            from: 0,
            end: WIDTH,
            entries: entries(alloc, shard)?,
        },
    }))
}

/// The parts of all shards, of read 1.
fn parts(alloc: Global, back: bool) -> Result<Vec<Input>, AllocError> {
    let mut made = Vec::new(alloc);
    for i in 0..SHARDS {
        let shard = if back { SHARDS - 1 - i } else { i };
        made.push(part(alloc, shard)?)?;
    }
    Ok(made)
}

/// The part, as one of the read of this number.
fn set_read(input: &mut Input, number: u32) {
    if let Input::Take(envelope) = input {
        if let Msg::Part { read, .. } = &mut envelope.msg {
            *read = number;
        }
    }
}

/// A sum that depends on each entry and on their order.
fn line_sum(line: &Line) -> u64 {
    let mut sum = 0u64;
    for entry in line.as_slice() {
        let number = match entry {
            Entry::Kept(id, _) | Entry::Noop(id) | Entry::Gone(id) => id.number(),
        };
        sum = sum.wrapping_mul(31).wrapping_add(u64::from(number));
    }
    sum
}

fn answers_sum(out: &Outbox) -> u64 {
    let mut sum = 0u64;
    for event in out.events().as_slice() {
        if let Event::Answer { entries, .. } = event {
            sum = sum.wrapping_add(line_sum(entries));
        }
    }
    sum
}

/// One read, from the ask to the answer.
fn read(
    reader: &mut LogReader,
    parts: &mut Vec<Input>,
    number: u32,
    out: &mut Outbox,
) -> Result<u64, AllocError> {
    out.clear();
    let ask = Ask::Range { from: 0, to: WIDTH };
    if reader.step(&Input::Ask(ask), out).is_err() {
        return Err(AllocError);
    }
    for i in 0..parts.len() {
        set_read(&mut parts[i], number);
        if reader.step(&parts[i], out).is_err() {
            return Err(AllocError);
        }
    }
    Ok(answers_sum(out))
}

fn checksum(alloc: Global, mode: &str, reads: u32) -> Result<u64, AllocError> {
    let mut sum = 0u64;
    let Some(shape) = Shape::of(Edition::Two, Mode::M, 1, 0, SHARDS, 1, 16) else {
        return Ok(sum);
    };
    if shape.clients < 1 {
        return Ok(sum);
    }
    let mut reader = LogReader::new(alloc, &shape, 0)?;
    let mut parts = parts(alloc, mode == "back")?;
    let mut out = Outbox::new(alloc, 64, 1_000_000);
    for number in 0..reads {
        let more = read(&mut reader, &mut parts, number.saturating_add(1), &mut out)?;
        sum = sum.wrapping_mul(31).wrapping_add(more);
    }
    Ok(sum)
}

fn main(rt: HostRuntime) -> io::Result<()> {
    let mut arguments = std::env::args(&rt)?;
    let _program = arguments.next();
    if let (Some(mode), Some(reads)) = (arguments.next(), arguments.next()) {
        let reads = reads.as_str().parse::<u32>().unwrap_or(0);
        let sum = checksum(rt.alloc(), mode.as_str(), reads)?;
        println!(rt; "{sum}")?;
    }
    Ok(())
}
