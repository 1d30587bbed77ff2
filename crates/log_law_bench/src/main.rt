//! Checks histories and lines as often as it is told, for a look at the time that it takes. It
//! prints a checksum and no times. Its words are a mode, a number of events and a number of
//! rounds. The mode `appends` has an append begin with each event, and a line of as many places;
//! in `mixed` of each eight events two begin an append, two end one, and the others are of readers,
//! and each round checks a line that is lawful and one of which two places are turned. `bench/run`
//! compares it with the same work in Rust.
#![tactic(auto)]

use log_law::{Verdict, check};
use plain_lists::Sequence;
use rec_id::{Ask, Bytes, Entry, Event, Line, RecordId};
use std::alloc::{AllocError, Global};
use std::io;

fn push_append(
    alloc: Global,
    history: &mut Vec<Event>,
    line: &mut Line,
    id: RecordId,
) -> Result<(), AllocError> {
    history.push(Event::Invoke(id, Bytes::copy(alloc, b"12345678")?))?;
    line.push(Entry::Kept(id, Bytes::copy(alloc, b"12345678")?))
}

/// The begins of `count` appends of 16 clients, and the line that has them all.
fn fill_appends(
    alloc: Global,
    history: &mut Vec<Event>,
    line: &mut Line,
    count: u32,
) -> Result<(), AllocError> {
    for i in 0..count {
        if let Ok(id) = RecordId::new(i % 16, (i / 16).saturating_add(1)) {
            push_append(alloc, history, line, id)?;
        }
    }
    Ok(())
}

fn answer(
    alloc: Global,
    a: RecordId,
    b: RecordId,
    read: u32,
    from: u32,
) -> Result<Event, AllocError> {
    let mut entries = Sequence::new(alloc);
    entries.push(Entry::Kept(a, Bytes::copy(alloc, b"12345678")?))?;
    entries.push(Entry::Kept(b, Bytes::copy(alloc, b"12345678")?))?;
    Ok(Event::Answer {
        client: 2,
        read,
        from,
        entries,
        tail: Some(from.saturating_add(2)),
    })
}

fn seen(alloc: Global, a: RecordId, b: RecordId, from: u32) -> Result<Event, AllocError> {
    let mut ids = Sequence::new(alloc);
    ids.push(a)?;
    ids.push(b)?;
    Ok(Event::Seen {
        client: 3,
        from,
        ids,
    })
}

/// The eight events of one group, about two appends.
fn push_group(
    alloc: Global,
    history: &mut Vec<Event>,
    line: &mut Line,
    a: RecordId,
    b: RecordId,
    read: u32,
    from: u32,
) -> Result<(), AllocError> {
    push_append(alloc, history, line, a)?;
    push_append(alloc, history, line, b)?;
    history.push(Event::Acked(a))?;
    history.push(Event::Acked(b))?;
    history.push(Event::Begin(2, read, Ask::Tail { from }))?;
    history.push(answer(alloc, a, b, read, from)?)?;
    history.push(seen(alloc, a, b, from)?)?;
    history.push(Event::TrimAsk {
        client: 4,
        read,
        floor: 0,
    })?;
    Ok(())
}

fn fill_mixed(
    alloc: Global,
    history: &mut Vec<Event>,
    line: &mut Line,
    count: u32,
) -> Result<(), AllocError> {
    for group in 0..count / 8 {
        let read = group.saturating_add(1);
        if let (Ok(a), Ok(b)) = (RecordId::new(0, read), RecordId::new(1, read)) {
            push_group(alloc, history, line, a, b, read, group.saturating_mul(2))?;
        }
    }
    Ok(())
}

/// The line with its first and its last place turned.
fn turned(line: &Line) -> Result<Line, AllocError> {
    let mut other = line.copy()?.into_vec();
    if other.len() > 1 {
        let last = other.len() - 1;
        other.swap(0, last);
    }
    Ok(Sequence::from_vec(other))
}

fn number(verdict: Verdict) -> u64 {
    match verdict {
        Verdict::Lawful => 1,
        Verdict::Broken {
            clause,
            first,
            second,
        } => u64::from(clause)
            .wrapping_mul(1_000_003)
            .wrapping_add(u64::from(first))
            .wrapping_mul(1_000_003)
            .wrapping_add(u64::from(second)),
    }
}

fn checked(alloc: Global, history: &[Event], line: &Line) -> Result<u64, AllocError> {
    if history.len() >= 0x1_0000_0000 {
        return Ok(0);
    }
    if line.len() >= 0x1_0000_0000 {
        return Ok(0);
    }
    Ok(number(check(alloc, history, line)?))
}

fn checksum(alloc: Global, mode: &str, count: u32, rounds: u32) -> Result<u64, AllocError> {
    let mut history = Vec::new(alloc);
    let mut line = Sequence::new(alloc);
    if mode == "appends" {
        fill_appends(alloc, &mut history, &mut line, count)?;
    } else {
        fill_mixed(alloc, &mut history, &mut line, count)?;
    }
    let other = turned(&line)?;
    let mut sum = 0u64;
    for _round in 0..rounds {
        sum = sum
            .wrapping_mul(31)
            .wrapping_add(checked(alloc, &history, &line)?);
        if mode != "appends" {
            sum = sum
                .wrapping_mul(31)
                .wrapping_add(checked(alloc, &history, &other)?);
        }
    }
    Ok(sum)
}

fn main(rt: HostRuntime) -> io::Result<()> {
    let mut arguments = std::env::args(&rt)?;
    let _program = arguments.next();
    if let (Some(mode), Some(count), Some(rounds)) = (
        arguments.next(),
        arguments.next(),
        arguments.next(),
    ) {
        let count = count.as_str().parse::<u32>().unwrap_or(0);
        let rounds = rounds.as_str().parse::<u32>().unwrap_or(0);
        let sum = checksum(rt.alloc(), mode.as_str(), count, rounds)?;
        println!(rt; "{sum}")?;
    }
    Ok(())
}
