//! Extends, fills, reads and cuts a store of 65,536 places, or holds the data of as many records
//! before their places, as often as it is told, for a look at the time that it takes. It prints a
//! checksum and no times. Its words are a mode (`extend`, `fill`, `part`, `cut` or `held`) and a number
//! of rounds. `bench/run` compares it with the same work in Rust.
#![tactic(auto)]

ghost use Rattle.std.specs.Prelude.{◌≡◌, ◌≤◌};

use plain_lists::Sequence;
use rec_id::{Body, Bytes, Cell, Item, ItemList, RecordId};
use shard_store::ShardStore;
use std::alloc::{AllocError, Global};
use std::io;
use view_config::Mode;

/// How many items come in a row.
const BATCH: u32 = 64;

/// How many batches fill a store.
const BATCHES: u32 = 1_024;

fn batch(alloc: Global, first: u32, whole: bool) -> Result<ItemList, AllocError> {
    let mut items = Sequence::new(alloc);
    for i in 0..BATCH {
        if let Ok(id) = RecordId::new(i % 16, first.saturating_add(i)) {
            items.push(Item {
                id,
                bytes: data(alloc, whole)?,
            })?;
        }
    }
    Ok(items)
}

fn data(alloc: Global, whole: bool) -> Result<Option<Bytes>, AllocError> {
    if !whole {
        return Ok(None);
    }
    Ok(Some(Bytes::copy(alloc, b"12345678")?))
}

fn extend(store: &mut ShardStore, items: &ItemList) -> Result<(), AllocError> {
    if items.len() > (u32::MAX - store.len()) as usize {
        return Ok(());
    }
    store.extend(items)
}

/// A store of 65,536 places.
fn full_store(alloc: Global, mode: Mode) -> Result<ShardStore, AllocError> {
    let mut store = ShardStore::new(alloc, mode, 0, 1);
    for i in 0..BATCHES {
        let items = batch(alloc, 1 + BATCH * i, mode == Mode::M)?;
        extend(&mut store, &items)?;
    }
    Ok(store)
}

fn fill_one(
    alloc: Global,
    store: &mut ShardStore,
    client: u32,
    number: u32,
) -> Result<(), AllocError> {
    if let Ok(id) = RecordId::new(client, number) {
        let bytes = Bytes::copy(alloc, b"12345678")?;
        if let Some(place) = store.open_at(id) {
            store.fill(place, bytes);
        }
    }
    Ok(())
}

fn fill_batch(alloc: Global, store: &mut ShardStore, first: u32) -> Result<(), AllocError> {
    for i in 0..BATCH {
        fill_one(alloc, store, i % 16, first.saturating_add(i))?;
    }
    Ok(())
}

/// A store that is filled as it grows.
fn filled_store(alloc: Global) -> Result<ShardStore, AllocError> {
    let mut store = ShardStore::new(alloc, Mode::St, 0, 1);
    for i in 0..BATCHES {
        let items = batch(alloc, 1 + BATCH * i, false)?;
        extend(&mut store, &items)?;
        fill_batch(alloc, &mut store, 1 + BATCH * i)?;
    }
    Ok(store)
}

fn hold_one(
    alloc: Global,
    store: &mut ShardStore,
    client: u32,
    number: u32,
) -> Result<(), AllocError> {
    if let Ok(id) = RecordId::new(client, number) {
        store.hold(id, Bytes::copy(alloc, &number.to_le_bytes())?)?;
    }
    Ok(())
}

fn hold_batch(alloc: Global, store: &mut ShardStore, first: u32) -> Result<(), AllocError> {
    for i in 0..BATCH {
        hold_one(alloc, store, i % 16, first.saturating_add(i))?;
    }
    Ok(())
}

/// A store whose data came before all places.
fn held_store(alloc: Global) -> Result<ShardStore, AllocError> {
    let mut store = ShardStore::new(alloc, Mode::St, 0, 1);
    for i in 0..BATCHES {
        hold_batch(alloc, &mut store, 1 + BATCH * i)?;
    }
    for i in 0..BATCHES {
        let items = batch(alloc, 1 + BATCH * i, false)?;
        extend(&mut store, &items)?;
    }
    Ok(store)
}

/// A sum that depends on each byte that is kept, and on their order.
fn kept_sum(store: &ShardStore) -> u64 {
    let mut sum = 0u64;
    for place in 0..store.len() {
        sum = with_cell(sum, store.cell(place));
    }
    sum
}

fn with_cell(sum: u64, cell: &Cell) -> u64 {
    let mut sum = sum;
    if let Body::Kept(bytes) = &cell.body {
        for byte in bytes.as_slice() {
            sum = sum.wrapping_mul(31).wrapping_add(u64::from(*byte));
        }
    }
    sum
}

fn raise(store: &mut ShardStore, to: u32) {
    if to < store.stable() {
        return;
    }
    if to > store.len() {
        return;
    }
    if store.has_open_below(to) {
        return;
    }
    store.raise_stable(to);
}

fn part_len(store: &ShardStore, from: u32, to: u32) -> Result<u64, AllocError> {
    if from < store.floor() {
        return Ok(0);
    }
    if to > store.stable() {
        return Ok(0);
    }
    Ok(store.part(from, to)?.len() as u64)
}

fn read_all(store: &ShardStore) -> Result<u64, AllocError> {
    let mut sum = 0u64;
    for i in 0..BATCHES / 4 {
        sum = sum.wrapping_add(part_len(store, BATCH * 4 * i, BATCH * 4 * (i + 1))?);
    }
    Ok(sum)
}

/// Cuts the last batch off.
fn cut_batch(store: &mut ShardStore) -> Result<(), AllocError> {
    let from = store.len().saturating_sub(BATCH);
    if store.stable() > from {
        return Ok(());
    }
    store.cut(from)
}

fn cut_all(store: &mut ShardStore) -> Result<(), AllocError> {
    for _batch in 0..BATCHES {
        cut_batch(store)?;
    }
    Ok(())
}

fn round(alloc: Global, mode: &str) -> Result<u64, AllocError> {
    match mode {
        "extend" => Ok(u64::from(full_store(alloc, Mode::M)?.len())),
        "fill" => Ok(u64::from(filled_store(alloc)?.len())),
        "cut" => {
            let mut store = full_store(alloc, Mode::M)?;
            cut_all(&mut store)?;
            Ok(u64::from(store.len()))
        }
        "held" => Ok(kept_sum(&held_store(alloc)?)),
        _ => Ok(0),
    }
}

fn read_rounds(alloc: Global, rounds: u32) -> Result<u64, AllocError> {
    let mut store = full_store(alloc, Mode::M)?;
    let all = store.len();
    raise(&mut store, all);
    let mut sum = 0u64;
    for _round in 0..rounds {
        sum = sum.wrapping_add(read_all(&store)?);
    }
    Ok(sum)
}

fn checksum(alloc: Global, mode: &str, rounds: u32) -> Result<u64, AllocError> {
    if mode == "part" {
        return read_rounds(alloc, rounds);
    }
    let mut sum = 0u64;
    for _round in 0..rounds {
        sum = sum.wrapping_add(round(alloc, mode)?);
    }
    Ok(sum)
}

fn main(rt: HostRuntime) -> io::Result<()> {
    let mut arguments = std::env::args(&rt)?;
    let _program = arguments.next();
    if let (Some(mode), Some(rounds)) = (arguments.next(), arguments.next()) {
        let rounds = rounds.as_str().parse::<u32>().unwrap_or(0);
        let sum = checksum(rt.alloc(), mode.as_str(), rounds)?;
        println!(rt; "{sum}")?;
    }
    Ok(())
}
