//! Runs a primary and its two backups over 65,536 places, as often as it is told, for a look at the
//! time that they take. It prints a checksum and no times. Its words are a mode and a number of
//! rounds: `place` for records that go whole, `before` and `behind` for data that comes before or
//! after its places, `fetch` for reading all. `bench/run` compares it with the same work in Rust.
#![tactic(auto)]

use lazy_msgs::{Envelope, Input, Msg, Outbox, SendList, StepRefused};
use plain_lists::Sequence;
use rec_id::{Bytes, Item, ItemList, RecordId};
use shard_node::ShardNode;
use std::alloc::Global;
use std::io;
use view_config::{Mode, Shape};

/// How many items come in a row.
const BATCH: u32 = 64;

/// How many batches a round places.
const BATCHES: u32 = 1_024;

/// How many places a read asks for.
const WIDTH: u32 = 256;

/// What an outbox may weigh.
const ROOM: u64 = 1_048_576;

const LEADER: u32 = 257;

const PRIMARY: u32 = 264;

/// The replicas of a shard, and a sum of all that the primary told others.
#[derive(Drop)]
struct Replicas {
    primary: ShardNode,
    first: ShardNode,
    second: ShardNode,
    sum: u64,
}

fn new_replicas(alloc: Global, mode: Mode) -> Result<Replicas, StepRefused> {
    let Some(shape) = Shape::new(mode, 2, 1, 1, 3, 16) else {
        return Err(StepRefused::Over);
    };
    Ok(Replicas {
        primary: ShardNode::new(alloc, &shape, 0, 0)?,
        first: ShardNode::new(alloc, &shape, 0, 1)?,
        second: ShardNode::new(alloc, &shape, 0, 2)?,
        sum: 0,
    })
}

fn feed(
    node: &mut ShardNode,
    from: u32,
    to: u32,
    msg: Msg,
    out: &mut Outbox,
) -> Result<(), StepRefused> {
    let input = Input::Take(Envelope {
        from,
        to,
        time: 0,
        msg,
    });
    node.step(&input, out)
}

/// The sum with what this message tells.
fn noted(sum: u64, msg: &Msg) -> u64 {
    let told = match msg {
        Msg::Placed { upto, .. } => u64::from(*upto),
        Msg::Claim { stable } => u64::from(*stable),
        Msg::DataAck { view, .. } => u64::from(*view),
        Msg::Part { end, entries, .. } => u64::from(*end).wrapping_add(entries.len() as u64),
        _ => 7,
    };
    sum.wrapping_mul(31).wrapping_add(told)
}

/// The primary takes what a backup answers.
fn take_answer(
    alloc: Global,
    replicas: &mut Replicas,
    from: u32,
    msg: Msg,
) -> Result<(), StepRefused> {
    let mut out = Outbox::new(alloc, 16, ROOM);
    feed(&mut replicas.primary, from, PRIMARY, msg, &mut out)?;
    for i in 0..out.sends().len() {
        replicas.sum = noted(replicas.sum, &out.sends().at(i).1);
    }
    Ok(())
}

/// A backup takes what the primary sends it, and says what it answers.
fn copied(
    alloc: Global,
    backup: &mut ShardNode,
    to: u32,
    msg: Msg,
) -> Result<SendList, StepRefused> {
    let mut out = Outbox::new(alloc, 4, ROOM);
    feed(backup, PRIMARY, to, msg, &mut out)?;
    let (answers, _events) = out.into_lists();
    Ok(answers)
}

/// Who a message of the primary goes to takes it.
fn deliver(alloc: Global, replicas: &mut Replicas, to: u32, msg: Msg) -> Result<(), StepRefused> {
    let mut answers = match to {
        265 => copied(alloc, &mut replicas.first, to, msg)?,
        266 => copied(alloc, &mut replicas.second, to, msg)?,
        _ => {
            replicas.sum = noted(replicas.sum, &msg);
            return Ok(());
        }
    };
    if let Some((_, answer)) = answers.pop() {
        take_answer(alloc, replicas, to, answer)?;
    }
    Ok(())
}

/// The primary takes a message, and all that it sends is delivered and answered.
fn serve(alloc: Global, replicas: &mut Replicas, from: u32, msg: Msg) -> Result<(), StepRefused> {
    let mut out = Outbox::new(alloc, 64, ROOM);
    feed(&mut replicas.primary, from, PRIMARY, msg, &mut out)?;
    let (mut sends, _events) = out.into_lists();
    for _send in 0..sends.len() {
        if let Some((to, msg)) = sends.pop() {
            deliver(alloc, replicas, to, msg)?;
        }
    }
    Ok(())
}

fn batch(alloc: Global, first: u32, mode: Mode) -> Result<ItemList, StepRefused> {
    let mut items = Sequence::new(alloc);
    for i in 0..BATCH {
        if let Ok(id) = RecordId::new(i % 16, first.saturating_add(i)) {
            let bytes = match mode {
                Mode::M => Some(Bytes::copy(alloc, b"12345678")?),
                Mode::St => None,
            };
            items.push(Item { id, bytes })?;
        }
    }
    Ok(items)
}

fn place_batch(
    alloc: Global,
    replicas: &mut Replicas,
    mode: Mode,
    from: u32,
) -> Result<(), StepRefused> {
    let items = batch(alloc, from.saturating_add(1), mode)?;
    let view = 1;
    serve(alloc, replicas, LEADER, Msg::Place { view, from, items })
}

fn put(
    alloc: Global,
    replicas: &mut Replicas,
    client: u32,
    number: u32,
) -> Result<(), StepRefused> {
    if let Ok(id) = RecordId::new(client, number) {
        let bytes = Bytes::copy(alloc, b"12345678")?;
        serve(alloc, replicas, client, Msg::Put { id, bytes })?;
    }
    Ok(())
}

fn put_batch(alloc: Global, replicas: &mut Replicas, from: u32) -> Result<(), StepRefused> {
    for i in 0..BATCH {
        put(alloc, replicas, i % 16, from.saturating_add(i + 1))?;
    }
    Ok(())
}

fn place_all(alloc: Global, replicas: &mut Replicas, mode: Mode) -> Result<(), StepRefused> {
    for i in 0..BATCHES {
        place_batch(alloc, replicas, mode, BATCH * i)?;
    }
    Ok(())
}

fn put_all(alloc: Global, replicas: &mut Replicas) -> Result<(), StepRefused> {
    for i in 0..BATCHES {
        put_batch(alloc, replicas, BATCH * i)?;
    }
    Ok(())
}

fn place_and_put(alloc: Global, replicas: &mut Replicas) -> Result<(), StepRefused> {
    for i in 0..BATCHES {
        place_batch(alloc, replicas, Mode::St, BATCH * i)?;
        put_batch(alloc, replicas, BATCH * i)?;
    }
    Ok(())
}

fn fetch_all(alloc: Global, replicas: &mut Replicas) -> Result<(), StepRefused> {
    for i in 0..BATCH * BATCHES / WIDTH {
        let from = WIDTH * i;
        let to = from + WIDTH;
        serve(alloc, replicas, 0, Msg::Fetch { read: 1, from, to })?;
    }
    Ok(())
}

fn placed(alloc: Global) -> Result<u64, StepRefused> {
    let mut replicas = new_replicas(alloc, Mode::M)?;
    place_all(alloc, &mut replicas, Mode::M)?;
    Ok(replicas.sum)
}

fn put_before(alloc: Global) -> Result<u64, StepRefused> {
    let mut replicas = new_replicas(alloc, Mode::St)?;
    put_all(alloc, &mut replicas)?;
    place_all(alloc, &mut replicas, Mode::St)?;
    Ok(replicas.sum)
}

fn put_behind(alloc: Global) -> Result<u64, StepRefused> {
    let mut replicas = new_replicas(alloc, Mode::St)?;
    place_and_put(alloc, &mut replicas)?;
    Ok(replicas.sum)
}

fn fetched(alloc: Global, rounds: u32) -> Result<u64, StepRefused> {
    let mut replicas = new_replicas(alloc, Mode::M)?;
    place_all(alloc, &mut replicas, Mode::M)?;
    let upto = BATCH * BATCHES;
    serve(alloc, &mut replicas, LEADER, Msg::Stable { view: 1, upto })?;
    for _round in 0..rounds {
        fetch_all(alloc, &mut replicas)?;
    }
    Ok(replicas.sum)
}

fn round(alloc: Global, mode: &str) -> Result<u64, StepRefused> {
    match mode {
        "place" => placed(alloc),
        "before" => put_before(alloc),
        "behind" => put_behind(alloc),
        _ => Ok(0),
    }
}

fn checksum(alloc: Global, mode: &str, rounds: u32) -> Result<u64, StepRefused> {
    if mode == "fetch" {
        return fetched(alloc, rounds);
    }
    let mut sum = 0u64;
    for _round in 0..rounds {
        sum = sum.wrapping_add(round(alloc, mode)?);
    }
    Ok(sum)
}

fn main(rt: HostRuntime) -> io::Result<()> {
    let mut arguments = std::env::args(&rt)?;
    let _program = arguments.next();
    if let (Some(mode), Some(rounds)) = (arguments.next(), arguments.next()) {
        let rounds = rounds.as_str().parse::<u32>().unwrap_or(0);
        match checksum(rt.alloc(), mode.as_str(), rounds) {
            Ok(sum) => println!(rt; "{sum}")?,
            Err(_) => println!(rt; "refused")?,
        }
    }
    Ok(())
}
