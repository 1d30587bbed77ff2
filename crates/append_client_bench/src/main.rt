//! Posts 4,096 appends and takes their acknowledgements, in order or in reverse, or ticks with so many
//! unfinished, as often as it is told, for a look at the time that it takes. It prints a checksum and no
//! times. Its words are a mode (`order`, `reverse` or `tick`) and a number of rounds. `bench/run`
//! compares it with the same work in Rust.
#![tactic(auto)]

use append_client::{AppendClient, AppendState};
use lazy_msgs::{Envelope, Input, Msg, Outbox};
use rec_id::{Bytes, RecordId};
use std::alloc::{AllocError, Global};
use std::io;
use view_config::{Edition, Mode, Shape};

/// How many appends are unfinished together.
const APPENDS: u32 = 4_096;

/// How many sequencing replicas acknowledge each.
const REPLICAS: u32 = 3;

/// How many ticks a round has.
const TICKS: u32 = 256;

fn new_client(alloc: Global) -> Result<Option<AppendClient>, AllocError> {
    let Some(shape) = Shape::of(Edition::Two, Mode::M, REPLICAS, 0, 1, 1, 1) else {
        return Ok(None);
    };
    if shape.clients < 1 {
        return Ok(None);
    }
    Ok(Some(AppendClient::new(alloc, &shape, 0)?))
}

/// What a step sent and told, in one number.
fn outcome(sum: u64, out: &mut Outbox) -> u64 {
    let sends = out.sends().len() as u64;
    let events = out.events().len() as u64;
    out.clear();
    sum.wrapping_mul(31)
        .wrapping_add(sends)
        .wrapping_mul(31)
        .wrapping_add(events)
}

fn post_all(
    alloc: Global,
    client: &mut AppendClient,
    out: &mut Outbox,
    sum: u64,
) -> Result<u64, AllocError> {
    let mut sum = sum;
    for _post in 0..APPENDS {
        let bytes = Bytes::copy(alloc, b"12345678")?;
        if client.post(bytes, out).is_err() {
            return Err(AllocError);
        }
        sum = outcome(sum, out);
    }
    Ok(sum)
}

fn take(client: &mut AppendClient, input: &Input, out: &mut Outbox) -> Result<(), AllocError> {
    if client.step(input, out).is_err() {
        return Err(AllocError);
    }
    Ok(())
}

/// Every replica acknowledges this append.
fn acknowledge(
    client: &mut AppendClient,
    number: u32,
    out: &mut Outbox,
    sum: u64,
) -> Result<u64, AllocError> {
    let mut sum = sum;
    if let Ok(id) = RecordId::new(0, number) {
        for replica in 0..REPLICAS {
            let input = Input::Take(Envelope {
                from: 257 + replica,
                to: 0,
                time: 1,
                msg: Msg::AppendAck { view: 1, id },
            });
            take(client, &input, out)?;
            sum = outcome(sum, out);
        }
    }
    Ok(sum)
}

fn finished(client: &AppendClient) -> u64 {
    let mut count = 0u64;
    for number in 0..APPENDS {
        if client.state(number) == AppendState::Finished {
            count = count.wrapping_add(1);
        }
    }
    count
}

fn acknowledge_all(
    client: &mut AppendClient,
    reverse: bool,
    out: &mut Outbox,
    sum: u64,
) -> Result<u64, AllocError> {
    let mut sum = sum;
    for i in 0..APPENDS {
        let number = if reverse { APPENDS - i } else { i + 1 };
        sum = acknowledge(client, number, out, sum)?;
    }
    Ok(sum)
}

fn tick_all(client: &mut AppendClient, out: &mut Outbox, sum: u64) -> Result<u64, AllocError> {
    let mut sum = sum;
    for _tick in 0..TICKS {
        take(client, &Input::Tick, out)?;
        sum = outcome(sum, out);
    }
    Ok(sum)
}

fn round(alloc: Global, mode: &str) -> Result<u64, AllocError> {
    let Some(mut client) = new_client(alloc)? else {
        return Ok(0);
    };
    let mut out = Outbox::new(alloc, APPENDS, 1_000_000);
    let mut sum = post_all(alloc, &mut client, &mut out, 0)?;
    if mode == "tick" {
        sum = tick_all(&mut client, &mut out, sum)?;
    } else {
        sum = acknowledge_all(&mut client, mode == "reverse", &mut out, sum)?;
    }
    Ok(sum.wrapping_add(finished(&client)))
}

fn checksum(alloc: Global, mode: &str, rounds: u32) -> Result<u64, AllocError> {
    let mut sum = 0u64;
    for _round in 0..rounds {
        sum = sum.wrapping_mul(31).wrapping_add(round(alloc, mode)?);
    }
    Ok(sum)
}

fn main(rt: HostRuntime) -> io::Result<()> {
    let mut arguments = std::env::args(&rt)?;
    let _program = arguments.next();
    if let (Some(mode), Some(rounds)) = (arguments.next(), arguments.next()) {
        let rounds = rounds.as_str().parse::<u32>().unwrap_or(0);
        let sum = checksum(rt.alloc(), mode.as_str(), rounds)?;
        println!(rt; "{sum}")?;
    }
    Ok(())
}
