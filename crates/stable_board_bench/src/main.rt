//! Claims an order of 65,536 places on a new board, or peeks at a board 1,000,000 times, as often as it
//! is told, for a look at the time that it takes. It prints a checksum and no times. Its words are a
//! mode (`claim` or `peek`) and a number of rounds. `bench/run` compares it with the same work in Rust.
#![tactic(auto)]

ghost use Rattle.std.specs.Prelude.{◌≡◌, ℕ, [], IfSome};
ghost use Rattle.stable_board.specs.Keeping.{IsRow};

use plain_lists::Sequence;
use rec_id::{Item, RecordId};
use shard_store::ShardStore;
use stable_board::{Claimed, Peeker, Publisher, board};
use std::alloc::{AllocError, Global};
use std::io;
use view_config::Mode;

/// How many places a board has.
const PLACES: u32 = 65_536;

/// How many peeks are a round.
const PEEKS: u32 = 1_000_000;

fn push(alloc: Global, store: &mut ShardStore, number: u32) -> Result<(), AllocError> {
    if store.len() >= PLACES {
        return Ok(());
    }
    let mut items = Sequence::new(alloc);
    if let Ok(id) = RecordId::new(number % 16, number) {
        items.push(Item { id, bytes: None })?;
    }
    if items.len() > 1 {
        return Ok(());
    }
    store.extend(&items)
}

fn settle(store: &mut ShardStore, to: u32) {
    if to < store.stable() {
        return;
    }
    if to > store.len() {
        return;
    }
    if store.has_open_below(to) {
        return;
    }
    store.raise_stable(to);
}

/// A store whose order has this many final places.
fn full_store(alloc: Global) -> Result<ShardStore, AllocError> {
    let mut store = ShardStore::new(alloc, Mode::St, 0, 1);
    for number in 0..PLACES {
        push(alloc, &mut store, number + 1)?;
    }
    store.open_to_noop();
    let all = store.len();
    settle(&mut store, all);
    Ok(store)
}

/// The only member of a row.
fn only<T: Drop>(row: Sequence<T>) -> Option<T>
    ensures { IfSome result (λ end. (made : ℕ → T) → IsRow 1 made row → end ≡ made 0) }
{
    let mut row = row;
    row.pop()
}

fn claim(publisher: &mut Publisher, store: &ShardStore) -> u64
    requires replica { publisher.old.replica ≡ 0 }
    requires new { publisher.old.did.verified ≡ [] }
{
    if store.stable() > PLACES {
        return 0;
    }
    match publisher.claim(store, 1, 0) {
        Claimed::Done => u64::from(store.stable()),
        Claimed::Stopped { .. } => 0,
    }
}

/// A claim of a whole order on a new board.
fn claim_round(alloc: Global, store: &ShardStore) -> Result<u64, AllocError> {
    let (_keeper, publishers, _peekers) = board(alloc, 1, 1)?;
    match only(publishers) {
        Some(mut publisher) => Ok(claim(&mut publisher, store)),
        None => Ok(0),
    }
}

fn claim_rounds(alloc: Global, rounds: u32) -> Result<u64, AllocError> {
    let store = full_store(alloc)?;
    let mut sum = 0u64;
    for _round in 0..rounds {
        sum = sum.wrapping_add(claim_round(alloc, &store)?);
    }
    Ok(sum)
}

fn peek_round(peeker: &mut Peeker) -> u64 {
    let mut sum = 0u64;
    for _peek in 0..PEEKS {
        sum = sum.wrapping_add(u64::from(peeker.peek().stable));
    }
    sum
}

fn peek_rounds(alloc: Global, rounds: u32) -> Result<u64, AllocError> {
    let store = full_store(alloc)?;
    let (_keeper, publishers, peekers) = board(alloc, 1, 1)?;
    let mut sum = 0u64;
    if let Some(mut publisher) = only(publishers) {
        sum = claim(&mut publisher, &store);
    }
    if let Some(mut peeker) = only(peekers) {
        for _round in 0..rounds {
            sum = sum.wrapping_add(peek_round(&mut peeker));
        }
    }
    Ok(sum)
}

fn checksum(alloc: Global, mode: &str, rounds: u32) -> Result<u64, AllocError> {
    match mode {
        "claim" => claim_rounds(alloc, rounds),
        "peek" => peek_rounds(alloc, rounds),
        _ => Ok(0),
    }
}

fn main(rt: HostRuntime) -> io::Result<()> {
    let mut arguments = std::env::args(&rt)?;
    let _program = arguments.next();
    if let (Some(mode), Some(rounds)) = (arguments.next(), arguments.next()) {
        let rounds = rounds.as_str().parse::<u32>().unwrap_or(0);
        let sum = checksum(rt.alloc(), mode.as_str(), rounds)?;
        println!(rt; "{sum}")?;
    }
    Ok(())
}
