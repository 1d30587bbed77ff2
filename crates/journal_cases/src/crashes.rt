//! A worked file, and a crash at each device call of a run of twenty keeps.

use plain_lists::Sequence;
use rec_id::{Bytes, Item, RecordId};
use shard_journal::{Disk, Journal, JournalRefused, MemDisk};
use shard_store::ShardStore;
use std::alloc::Global;
use std::test::Fail;
use view_config::Mode;

/// How many device calls the first opening of a disk makes, and each keep.
const OPENING: u64 = 5;

const KEEPING: u64 = 4;

/// A store of so many records, each of one byte `a`, of which none is stable yet.
fn store_of(alloc: Global, records: u32) -> Result<ShardStore, Fail> {
    let mut items = Sequence::new(alloc);
    for i in 0..records {
        items.push(Item {
            id: RecordId::new(0, i + 1)?,
            bytes: Some(Bytes::copy(alloc, b"a")?),
        })?;
    }
    let mut store = ShardStore::new(alloc, Mode::M, 0, 1);
    if items.len() < 1_000 {
        store.extend(&items)?;
    }
    Ok(store)
}

fn make_stable(store: &mut ShardStore, to: u32) {
    if to >= store.stable() && to <= store.len() && !store.has_open_below(to) {
        store.raise_stable(to);
    }
}

fn keep(journal: &mut Journal<MemDisk>, store: &ShardStore) -> Result<u32, JournalRefused> {
    if !journal.can_keep(store) {
        return Err(JournalRefused::Memory);
    }
    journal.keep(store)
}

/// Up to which position the file of the disk has all, and how many entries.
fn opened(alloc: Global, disk: MemDisk) -> Result<(Journal<MemDisk>, usize), Fail> {
    match Journal::open(alloc, disk) {
        Ok((journal, entries)) => Ok((journal, entries.len())),
        Err(_) => Err(Fail::new("not opened")),
    }
}

/// A disk that reads these bytes.
fn disk_with(alloc: Global, bytes: &[u8]) -> Result<MemDisk, Fail> {
    let mut disk = MemDisk::new(alloc, &[])?;
    if bytes.len() < 100_000 {
        disk.reserve(2, bytes.len() as u32)?;
        let _ = disk.write_at(0, bytes);
        let _ = disk.sync();
    }
    Ok(disk)
}

#[test]
fn a_block_is_kept(rt: HostRuntime) -> Result<(), Fail> {
    let alloc = rt.alloc();
    let mut store = store_of(alloc, 1)?;
    make_stable(&mut store, 1);
    let (mut journal, entries) = opened(alloc, MemDisk::new(alloc, &[])?)?;
    assert_eq!(rt; (journal.bytes(), entries), ([0].as_slice(), 0));
    assert_eq!(rt; keep(&mut journal, &store), Ok(1));
    let file =
        b"\x01\x00\x00\x00\x17\x00\x00\x00\x00\x00\x00\x00\x01\x00\x01\x00\x00\x00\x00\x00\x00\x00\x00\x01\x01\x00\x01a\x00";
    assert_eq!(rt; journal.bytes(), file.as_slice());
    assert_eq!(rt; keep(&mut journal, &store), Ok(1));
    let (journal, entries) = opened(alloc, journal.power_off())?;
    assert_eq!(rt; (journal.kept(), entries), (1, 1));
    Ok(())
}

/// Keeps a position at a time, up to twenty, on a disk of which one device call fails. Up to which
/// position it was said that all is kept, and what the images of the disk open to then: what is left
/// where its power goes off, and what it reads.
fn crash_at(alloc: Global, call: u64) -> Result<(u32, u32, u32), Fail> {
    let mut store = store_of(alloc, 20)?;
    let (mut journal, _) = opened(alloc, MemDisk::new(alloc, &[call])?)?;
    let mut said = 0;
    for to in 1..21 {
        make_stable(&mut store, to);
        match keep(&mut journal, &store) {
            Ok(kept) => said = kept,
            Err(_) => break,
        }
    }
    let (read, _) = opened(alloc, disk_with(alloc, journal.bytes())?)?;
    let (left, _) = opened(alloc, journal.power_off())?;
    Ok((said, left.kept(), read.kept()))
}

#[test]
fn crashes_lose_nothing(rt: HostRuntime) -> Result<(), Fail> {
    for call in 0..80 {
        let (said, left, read) = crash_at(rt.alloc(), OPENING + 1 + call)?;
        let before = (call / KEEPING) as u32;
        assert_eq!(rt; (said, left), (before, before));
        // The byte of the block stands where the disk is only to sync it.
        let opens = u32::from(call % KEEPING == 3);
        assert_eq!(rt; read, before.saturating_add(opens));
    }
    Ok(())
}

#[test]
fn a_torn_block_is_damaged(rt: HostRuntime) -> Result<(), Fail> {
    let alloc = rt.alloc();
    for (file, damaged) in [
        (b"\x01".as_slice(), false),
        (b"\x00\x01\x01".as_slice(), false),
        (b"\x01\x00".as_slice(), true),
        (
            b"\x01\x00\x00\x00\x0a\x00\x00\x00\x00\x00\x00\x00\x01\x00\x00".as_slice(),
            true,
        ),
        (
            b"\x01\x00\x00\x00\x0a\x00\x00\x00\x00\x00\x00\x00\x01\x00\x00\x02".as_slice(),
            false,
        ),
        (
            b"\x01\x00\x00\x00\x0a\x00\x00\x00\x01\x00\x00\x00\x02\x00\x00\x02".as_slice(),
            true,
        ),
    ] {
        let refused = match Journal::open(alloc, disk_with(alloc, file)?) {
            Ok(_) => None,
            Err((refused, _)) => Some(refused),
        };
        let expected = if damaged {
            Some(JournalRefused::Damaged(0))
        } else {
            None
        };
        assert_eq!(rt; refused, expected);
    }
    Ok(())
}
