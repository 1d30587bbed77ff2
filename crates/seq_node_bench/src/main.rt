//! Hands a leader 4,096 appends, new ones or such as it knows, or has it bind a full log by 64 batches
//! with three followers, as often as it is told, for a look at the time that it takes. It prints a
//! checksum and no times. Its words are a mode (`new`, `known` or `bind`) and a number of rounds.
//! `bench/run` compares it with the same work in Rust.
#![tactic(auto)]

use lazy_msgs::{Envelope, Input, Msg, Outbox};
use rec_id::RecordId;
use seq_node::SeqNode;
use std::alloc::{AllocError, Global};
use std::io;
use view_config::{Edition, Mode, Shape};

/// How many items a log has room for.
const ITEMS: u32 = 4_096;

/// How many items a batch has, and how many batches they are.
const BATCH: u32 = 64;

const BATCHES: u32 = 64;

/// The nodes that answer a leader.
const FIRST_FOLLOWER: u32 = 258;

const FOLLOWERS: u32 = 3;

const PRIMARY: u32 = 264;

fn leader(alloc: Global) -> Result<Option<SeqNode>, AllocError> {
    let Some(shape) = Shape::of(Edition::Two, Mode::St, 4, 0, 1, 1, 16) else {
        return Ok(None);
    };
    if shape.seq < 1 {
        return Ok(None);
    }
    Ok(Some(SeqNode::new(alloc, &shape, 0)?))
}

fn step(node: &mut SeqNode, input: &Input, out: &mut Outbox) -> Result<(), AllocError> {
    if node.step(input, out).is_err() {
        return Err(AllocError);
    }
    Ok(())
}

/// The replica takes a message, and what it sends is forgotten. Answers how much that was.
fn take(node: &mut SeqNode, from: u32, msg: Msg, out: &mut Outbox) -> Result<u64, AllocError> {
    let input = Input::Take(Envelope {
        from,
        to: 257,
        time: 0,
        msg,
    });
    step(node, &input, out)?;
    Ok(forget(out))
}

fn forget(out: &mut Outbox) -> u64 {
    let weight = out.weight();
    out.clear();
    weight
}

fn append(node: &mut SeqNode, number: u32, out: &mut Outbox) -> Result<u64, AllocError> {
    let client = number % 16;
    match RecordId::new(client, 1 + number / 16) {
        Ok(id) => take(
            node,
            client,
            Msg::Append {
                view: 1,
                id,
                bytes: None,
            },
            out,
        ),
        Err(_) => Ok(0),
    }
}

/// The appends of a full log.
fn append_all(node: &mut SeqNode, out: &mut Outbox) -> Result<u64, AllocError> {
    let mut sum = 0u64;
    for number in 0..ITEMS {
        sum = sum.wrapping_add(append(node, number, out)?);
    }
    Ok(sum)
}

fn tick(node: &mut SeqNode, out: &mut Outbox) -> Result<u64, AllocError> {
    step(node, &Input::Tick, out)?;
    Ok(forget(out))
}

/// The next batch begins, is placed, ordered and bound.
fn bind_next(node: &mut SeqNode, upto: u32, out: &mut Outbox) -> Result<u64, AllocError> {
    let mut sum = tick(node, out)?;
    let placed = Msg::Placed { view: 1, upto };
    sum = sum.wrapping_add(take(node, PRIMARY, placed, out)?);
    for follower in FIRST_FOLLOWER..FIRST_FOLLOWER + FOLLOWERS {
        let ordered = Msg::Ordered { view: 1, upto };
        sum = sum.wrapping_add(take(node, follower, ordered, out)?);
    }
    Ok(sum)
}

fn bind_all(node: &mut SeqNode, out: &mut Outbox) -> Result<u64, AllocError> {
    let mut sum = 0u64;
    for batch in 1..BATCHES + 1 {
        sum = sum.wrapping_add(bind_next(node, BATCH * batch, out)?);
    }
    Ok(sum)
}

fn new_round(alloc: Global, out: &mut Outbox, bind: bool) -> Result<u64, AllocError> {
    let Some(mut node) = leader(alloc)? else {
        return Ok(0);
    };
    let mut sum = append_all(&mut node, out)?;
    if bind {
        sum = sum.wrapping_add(bind_all(&mut node, out)?);
    }
    Ok(sum.wrapping_add(u64::from(node.bound())))
}

fn new_rounds(alloc: Global, rounds: u32, bind: bool) -> Result<u64, AllocError> {
    let mut out = Outbox::new(alloc, 64, 1_000_000);
    let mut sum = 0u64;
    for _round in 0..rounds {
        sum = sum.wrapping_add(new_round(alloc, &mut out, bind)?);
    }
    Ok(sum)
}

fn known_rounds(alloc: Global, rounds: u32) -> Result<u64, AllocError> {
    let Some(mut node) = leader(alloc)? else {
        return Ok(0);
    };
    let mut out = Outbox::new(alloc, 64, 1_000_000);
    let mut sum = append_all(&mut node, &mut out)?;
    for _round in 0..rounds {
        sum = sum.wrapping_add(append_all(&mut node, &mut out)?);
    }
    Ok(sum)
}

fn checksum(alloc: Global, mode: &str, rounds: u32) -> Result<u64, AllocError> {
    match mode {
        "new" => new_rounds(alloc, rounds, false),
        "known" => known_rounds(alloc, rounds),
        "bind" => new_rounds(alloc, rounds, true),
        _ => Ok(0),
    }
}

fn main(rt: HostRuntime) -> io::Result<()> {
    let mut arguments = std::env::args(&rt)?;
    let _program = arguments.next();
    if let (Some(mode), Some(rounds)) = (arguments.next(), arguments.next()) {
        let rounds = rounds.as_str().parse::<u32>().unwrap_or(0);
        let sum = checksum(rt.alloc(), mode.as_str(), rounds)?;
        println!(rt; "{sum}")?;
    }
    Ok(())
}
