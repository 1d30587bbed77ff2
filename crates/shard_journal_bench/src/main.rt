//! Keeps 65,536 entries of 100 bytes on a disk in memory, or opens the file that has them, as often as it
//! is told, for a look at the time that it takes. It prints a checksum and no times. Its words are a mode
//! (`keep` or `open`) and a number of rounds. `bench/run` compares it with the same work in Rust.
#![tactic(auto)]

use plain_lists::Sequence;
use rec_id::{Bytes, Entry, Item, ItemList, PlacedList, RecordId};
use shard_journal::{Journal, MemDisk};
use shard_store::ShardStore;
use std::alloc::{AllocError, Global};
use std::io;
use view_config::Mode;

/// How many items come in a row.
const BATCH: u32 = 64;

/// How many batches fill a store.
const BATCHES: u32 = 1_024;

/// How many keeps it takes to keep all of it.
const KEEPS: u32 = 256;

const DATA: [u8; 100] = [7; 100];

fn batch(alloc: Global, first: u32) -> Result<ItemList, AllocError> {
    let mut items = Sequence::new(alloc);
    for i in 0..BATCH {
        if let Ok(id) = RecordId::new(i % 16, first.saturating_add(i)) {
            items.push(Item {
                id,
                bytes: Some(Bytes::copy(alloc, &DATA)?),
            })?;
        }
    }
    Ok(items)
}

fn extend(store: &mut ShardStore, items: &ItemList) -> Result<(), AllocError> {
    if items.len() > (u32::MAX - store.len()) as usize {
        return Ok(());
    }
    store.extend(items)
}

fn make_stable(store: &mut ShardStore) {
    let to = store.len();
    if to < store.stable() {
        return;
    }
    if store.has_open_below(to) {
        return;
    }
    store.raise_stable(to);
}

/// A store of 65,536 stable places.
fn full_store(alloc: Global) -> Result<ShardStore, AllocError> {
    let mut store = ShardStore::new(alloc, Mode::M, 0, 1);
    for i in 0..BATCHES {
        let items = batch(alloc, 1 + BATCH * i)?;
        extend(&mut store, &items)?;
    }
    make_stable(&mut store);
    Ok(store)
}

fn keep_next(journal: &mut Journal<MemDisk>, store: &ShardStore) {
    if !journal.can_keep(store) {
        return;
    }
    let _ = journal.keep(store);
}

fn opened(
    alloc: Global,
    disk: MemDisk,
) -> Result<Option<(Journal<MemDisk>, PlacedList)>, AllocError> {
    match Journal::open(alloc, disk) {
        Ok(opened) => Ok(Some(opened)),
        Err(_) => Ok(None),
    }
}

/// A journal of all that the store has.
fn kept(alloc: Global, store: &ShardStore) -> Result<Option<Journal<MemDisk>>, AllocError> {
    let Some((mut journal, _)) = opened(alloc, MemDisk::new(alloc, &[])?)? else {
        return Ok(None);
    };
    for _keep in 0..KEEPS {
        keep_next(&mut journal, store);
    }
    Ok(Some(journal))
}

/// How many bytes the file has.
fn keep_all(alloc: Global, store: &ShardStore) -> Result<u64, AllocError> {
    match kept(alloc, store)? {
        Some(journal) => Ok(journal.bytes().len() as u64),
        None => Ok(0),
    }
}

/// A sum that depends on the places and the first byte of each entry.
fn sum_of(entries: &PlacedList) -> u64 {
    let mut sum = 0u64;
    for placed in entries.as_slice() {
        sum = sum.wrapping_mul(31).wrapping_add(u64::from(placed.0));
        sum = with_data(sum, &placed.1);
    }
    sum
}

fn with_data(sum: u64, entry: &Entry) -> u64 {
    if let Entry::Kept(_, bytes) = entry {
        if let Some(byte) = bytes.as_slice().first() {
            return sum.wrapping_add(u64::from(*byte));
        }
    }
    sum
}

fn open_rounds(alloc: Global, store: &ShardStore, rounds: u32) -> Result<u64, AllocError> {
    let mut journal = kept(alloc, store)?;
    let mut sum = 0u64;
    for _round in 0..rounds {
        if let Some(closing) = journal {
            match opened(alloc, closing.power_off())? {
                Some((again, entries)) => {
                    sum = sum.wrapping_add(sum_of(&entries));
                    journal = Some(again);
                }
                None => journal = None,
            }
        } else {
            journal = None;
        }
    }
    Ok(sum)
}

fn checksum(alloc: Global, mode: &str, rounds: u32) -> Result<u64, AllocError> {
    let store = full_store(alloc)?;
    if mode == "open" {
        return open_rounds(alloc, &store, rounds);
    }
    let mut sum = 0u64;
    for _round in 0..rounds {
        sum = sum.wrapping_add(keep_all(alloc, &store)?);
    }
    Ok(sum)
}

fn main(rt: HostRuntime) -> io::Result<()> {
    let mut arguments = std::env::args(&rt)?;
    let _program = arguments.next();
    if let (Some(mode), Some(rounds)) = (arguments.next(), arguments.next()) {
        let rounds = rounds.as_str().parse::<u32>().unwrap_or(0);
        let sum = checksum(rt.alloc(), mode.as_str(), rounds)?;
        println!(rt; "{sum}")?;
    }
    Ok(())
}
