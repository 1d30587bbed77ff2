//! Pushes, drops and searches in a log of pending items, as often as it is told, for a look at the
//! time that they take. It prints a checksum and no times. Its words are a mode (`push` or `find`)
//! and a number of rounds. `bench/run` compares it with the same work in Rust.
#![tactic(auto)]

ghost use Rattle.std.specs.Prelude.{◌≡◌, ℕ, ◌≤◌, ◌<◌, ◌+◌, ◌*◌, ◌^◌, false, length, IfOk};
ghost use Rattle.pending_log_bench.specs.Fresh.{IsFresh};

use pending_log::PendingLog;
use rec_id::{Item, RecordId};
use std::alloc::{AllocError, Global};
use std::io;

const ROOM: usize = 4096;

/// How many items are pushed in a row, and dropped again.
const BATCH: u32 = 64;

/// How many batches a round pushes.
const BATCHES: u32 = 64;

/// Pushes the item of this number, above all of those before it.
fn push_next(log: &mut PendingLog, number: u32) -> u64
    requires number { 1 ≤ number }
    requires fresh { IsFresh number log.old }
    ensures { IsFresh (number + 1) log.new }
{
    match RecordId::new(0, number) {
        Ok(id) => u64::from(log.push(Item { id, bytes: None }).is_err()),
        Err(_) => 0,
    }
}

fn push_batch(log: &mut PendingLog, first: u32) -> u64
    requires number { (1 ≤ first) × (first + BATCH < 2 ^ 32) }
    requires fresh { IsFresh first log.old }
    ensures { IsFresh (first + BATCH) log.new }
{
    let mut refused = 0u64;
    for i in 0..BATCH {
        refused = refused.wrapping_add(push_next(log, first + i));
    }
    refused
}

/// Drops a batch, where the log is more than half full.
fn drop_batch(log: &mut PendingLog, next: u32)
    requires { IsFresh next log.old }
    ensures { IsFresh next log.new }
{
    if log.len() > ROOM / 2 {
        log.drop_front(BATCH as usize);
    }
}

/// A round of 4,096 pushes, in batches, with a batch dropped for each once half is full.
fn push_round(log: &mut PendingLog, first: u32) -> u64
    requires number { (1 ≤ first) × (first + BATCH * BATCHES < 2 ^ 32) }
    requires fresh { IsFresh first log.old }
    ensures { IsFresh (first + BATCH * BATCHES) log.new }
{
    let mut refused = 0u64;
    for batch in 0..BATCHES {
        let from = first + BATCH * batch;
        refused = refused.wrapping_add(push_batch(log, from));
        drop_batch(log, from + BATCH);
    }
    refused
}

fn find(log: &PendingLog, number: u32) -> u64 {
    match RecordId::new(0, number) {
        Ok(id) => match log.find(id) {
            Some(place) => place as u64,
            None => ROOM as u64,
        },
        Err(_) => 0,
    }
}

fn push_rounds(log: &mut PendingLog, rounds: u32) -> u64
    requires fresh { IsFresh 1 log.old }
{
    let mut sum = 0u64;
    let mut next = 1u32;
    for _round in 0..rounds {
        if next > u32::MAX / 2 {
            break;
        }
        sum = sum.wrapping_add(push_round(log, next));
        next += BATCH * BATCHES;
    }
    sum.wrapping_add(log.len() as u64)
        .wrapping_add(u64::from(next))
}

/// Fills the log, and looks in each round for an item near its end.
fn find_rounds(log: &mut PendingLog, rounds: u32) -> u64
    requires fresh { IsFresh 1 log.old }
{
    let mut sum = 0u64;
    for batch in 0..BATCHES {
        sum = sum.wrapping_add(push_batch(log, 1 + BATCH * batch));
    }
    for round in 0..rounds {
        sum = sum.wrapping_add(find(log, BATCH * BATCHES - round % BATCH));
    }
    sum
}

fn checksum(alloc: Global, mode: &str, rounds: u32) -> Result<u64, AllocError> {
    let mut log = PendingLog::with_capacity(alloc, ROOM)?;
    Ok(match mode {
        "push" => push_rounds(&mut log, rounds),
        "find" => find_rounds(&mut log, rounds),
        _ => 0,
    })
}

fn main(rt: HostRuntime) -> io::Result<()> {
    let mut arguments = std::env::args(&rt)?;
    let _program = arguments.next();
    if let (Some(mode), Some(rounds)) = (arguments.next(), arguments.next()) {
        let rounds = rounds.as_str().parse::<u32>().unwrap_or(0);
        let sum = checksum(rt.alloc(), mode.as_str(), rounds)?;
        println!(rt; "{sum}")?;
    }
    Ok(())
}
